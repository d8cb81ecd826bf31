//! The value that a slider has where a point of the panel lies.
ghost use Rattle.std.specs.Prelude.{◌≡◌, ◌≤◌, ◌-◌, ◌*◌, ◌/◌, ◌-ℤ◌, IfSome, option_map, pos, true};
ghost use Rattle.gui_base.specs.Props.{is_value, values_of};
ghost use Rattle.gui_base.specs.declared.intervals.TheConstants.{PAD};
ghost use Rattle.gui_base.specs.declared.words.Part.TheVariants.{Main};
ghost use Rattle.run_defs.specs.Pointing.{content};
ghost use Rattle.scene_defs.specs.Row.{brought_in};
ghost use Rattle.scene_defs.specs.Scene.{is_there, value};
ghost use Rattle.scene_defs.specs.Valid.{IsRow};
ghost use Rattle.widget_defs.specs.Items.{inset};
ghost use Rattle.gui_play.specs.Sliding.{columns_of, slid_value, value_along};
ghost use Rattle.gui_board.specs.Boards.{machine_of};

use gui_base::{Handle, Part, Prop};
use gui_board::{Board, is_slider};
use scene_defs::Row;

/// A number, or the end of an interval that it lies beyond.
pub(crate) fn brought_in(low: i32, high: i32, n: i32) -> i32
    ensures { result ≡ brought_in low high n }
{
    if n < low {
        low
    } else if high < n {
        high
    } else {
        n
    }
}

/// Of so many columns from the first on the nearest to x, from 0.
fn column(first: i32, count: u32, x: i32) -> u32
    requires { 1 ≤ count }
    ensures value { pos result ≡ brought_in (pos 0) (pos (count - 1)) (x -ℤ first) }
    ensures within { result ≤ count - 1 }
{
    let last = count - 1;
    let column = i64::from(x) - i64::from(first);
    if column < 0 {
        0
    } else if i64::from(last) < column {
        last
    } else {
        column as u32
    }
}

/// How far a value lies above the least one at a column, where the last column has the greatest.
fn share(range: u32, column: u32, last: u32) -> u32
    requires range { range ≤ 20000 }
    requires columns { (1 ≤ last) × (last ≤ 8190) × (column ≤ last) }
    ensures value { result ≡ range * column / last }
    ensures small { result ≤ 163800000 }
{
    range * column / last
}

/// The value that a slider of this row has at x, whose content area has so many columns from the first on.
fn value_along(row: &Row, first: i32, count: u32, x: i32) -> i32
    requires row { IsRow row.now }
    requires narrow { count ≤ 8191 }
    ensures { result ≡ value_along row.now first count x }
{
    if count <= 1 {
        return row.min;
    }
    let range = (row.max - row.min).unsigned_abs();
    let above = share(range, column(first, count, x), count - 1);
    row.min + above as i32
}

/// A value of the main part of an object that is there. None lies below 0.
fn number(board: &Board, h: Handle, prop: Prop) -> u32
    requires { is_there (machine_of board.now).scene h.0 ≡ true }
    ensures value { value (machine_of board.now).scene h.0 Main prop ≡ pos result }
    ensures in_range { is_value prop (pos result) ≡ true }
{
    board.store().value(h, Part::Main, prop).unsigned_abs()
}

/// The border and the pad on one side of an object that is there.
fn inset(board: &Board, h: Handle, side: Prop) -> u32
    requires there { is_there (machine_of board.now).scene h.0 ≡ true }
    requires pad { values_of side ≡ PAD }
    ensures value { result ≡ inset (value (machine_of board.now).scene h.0 Main) side }
    ensures small { result ≤ 1100 }
{
    let border = number(board, h, Prop::BorderWidth);
    let pad = number(board, h, side);
    border + pad
}

/// The first column of the content area of an object that is there, and how many there are.
fn columns(board: &Board, h: Handle) -> Option<(i32, u32)>
    requires { is_there (machine_of board.now).scene h.0 ≡ true }
    ensures value { result ≡ option_map columns_of (content (machine_of board.now).scene h.0) }
    ensures narrow { IfSome result (λ columns. columns.1 ≤ 8191) }
{
    let place = board.places().place(h)?;
    let left = inset(board, h, Prop::PadLeft);
    let right = inset(board, h, Prop::PadRight);
    let count = place.width().saturating_sub(left + right);
    Some((place.x1 + left as i32, count))
}

/// The value that a slider has at x, if it is one that is there.
pub(crate) fn slid_value(board: &Board, x: i32, h: Handle) -> Option<i32>
    ensures { result ≡ slid_value (machine_of board.now).scene x h }
{
    let row = board.store().row(h)?;
    if !is_slider(row.kind) {
        return None;
    }
    let (first, count) = columns(board, h)?;
    Some(value_along(row, first, count, x))
}
