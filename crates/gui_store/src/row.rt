//! The row of an object: its first values, and the changes that set it.
ghost use Rattle.std.specs.Prelude.{◌≡◌};
ghost use Rattle.gui_base.specs.Bits.{flag_bit, with_bit};
ghost use Rattle.scene_defs.specs.Row.{new_row, with_value, with_range, brought_in};
ghost use Rattle.scene_defs.specs.Deeds.{row_after};

use gui_base::{Align, Bits, Flag, Kind, Placing};
use gui_kinds::{first_flags, first_flow, first_height, first_width};
use gui_pool::TextId;
use scene_defs::{Change, Row};

/// The row of a new object: at its parent's corner, in no state, without text and picture.
pub(crate) fn new_row(kind: Kind) -> Row
    ensures { result ≡ new_row kind }
{
    Row {
        kind,
        flags: first_flags(kind),
        states: 0,
        x: 0,
        y: 0,
        align: Align::TopLeft,
        width: first_width(kind),
        height: first_height(kind),
        flow: first_flow(kind),
        places: (Placing::Start, Placing::Start, Placing::Start),
        grow: 0,
        scroll_x: 0,
        scroll_y: 0,
        value: 0,
        min: 0,
        max: 100,
        image: None,
        text: TextId::EMPTY,
    }
}

/// Makes a change of one object's row to it. Any other change leaves it.
pub(crate) fn set_row(row: &mut Row, change: &Change)
    ensures { row.new ≡ row_after change.now row.old }
{
    match *change {
        Change::Flag(_, flag, on) => row.flags = with_flag(row.flags, flag, on),
        Change::Pos(_, x, y) => {
            row.x = x;
            row.y = y;
        }
        Change::Align(_, align, x, y) => {
            row.align = align;
            row.x = x;
            row.y = y;
        }
        Change::Size(_, width, height) => {
            row.width = width;
            row.height = height;
        }
        Change::Scroll(_, x, y) => {
            row.scroll_x = x;
            row.scroll_y = y;
        }
        Change::Flex(_, flow) => row.flow = flow,
        Change::Places(_, main, cross, track) => row.places = (main, cross, track),
        Change::Grow(_, n) => row.grow = n,
        Change::State(_, state, on) => row.states = Bits(row.states).with(state.bit(), on).0,
        Change::Value(_, n) => set_value(row, n),
        Change::Range(_, low, high) => set_range(row, low, high),
        Change::Source(_, image) => row.image = Some(image),
        _ => {}
    }
}

/// The value, brought into the range.
fn set_value(row: &mut Row, n: i32)
    ensures { row.new ≡ with_value n row.old }
{
    row.value = brought_in(row.min, row.max, n);
}

/// The range, with the value brought into it.
fn set_range(row: &mut Row, low: i32, high: i32)
    ensures { row.new ≡ with_range low high row.old }
{
    row.min = low;
    row.max = high;
    row.value = brought_in(low, high, row.value);
}

/// A number, or the end of a range that it lies beyond.
fn brought_in(low: i32, high: i32, n: i32) -> i32
    ensures { result ≡ brought_in low high n }
{
    if n < low {
        low
    } else if high < n {
        high
    } else {
        n
    }
}

/// The flags with one of them switched on or off.
fn with_flag(flags: u8, flag: Flag, on: bool) -> u8
    ensures { result ≡ with_bit flags (flag_bit flag) on }
{
    Bits(flags as u16).with(flag.bit(), on).0 as u8
}
