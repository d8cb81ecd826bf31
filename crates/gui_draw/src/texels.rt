//! Pictures, texel by texel.
ghost use Rattle.std.specs.Prelude.{◌≡◌, ◌+◌, ◌-◌, ◌≤◌, ◌<◌, ℕ, MatchOption, length, slice_index_or};
ghost use Rattle.std.specs.Prelude.{pos, ◌≤ℤ◌, ◌+ℤ◌, ◌-ℤ◌};
ghost use Rattle.std.specs.Int.{int_min};
ghost use Rattle.gui_base.specs.Area.{IsCoordinate};
ghost use Rattle.gui_base.specs.Coats.{within};
ghost use Rattle.gui_base.specs.Color.{black};
ghost use Rattle.gui_base.specs.Corners.{rect_of};
ghost use Rattle.gui_color.specs.Buffer.{distance};
ghost use Rattle.gui_draw.specs.Drawing.{Draws};
ghost use Rattle.gui_draw.specs.Parts.{IsInside, HasLine, line_of};
ghost use Rattle.text_defs.specs.Coats.{picture_coat};
ghost use Rattle.gui_draw.specs.Texels.{texels_in, texel_over, HasTexels, HasTexelRow, first_pixels};

use crate::rows::{line_mut, part_of};
use crate::texel_rows::{mix_alphas, mix_colors, mix_shades};
use crate::ticks::tick_times;
use gui_base::{Area, Rgb565, Steps};
use gui_color::DrawBuf;
use gui_font::{Bitmap, Format, Images};
use std::sync::ledger::Ledger;

/// The texels of an image over a part of the buffer's area. The part's first pixel has the texel in this
/// column and row.
#[derive(Clone, Copy)]
pub(crate) struct Texels<'a> {
    pub(crate) bitmap: Bitmap<'a>,
    /// The colour of texels that have none.
    pub(crate) recolor: Rgb565,
    pub(crate) opa: u8,
    pub(crate) column: u32,
    pub(crate) row: u32,
}

// Each parameter by itself, as in all calls of this library: callers have them from different places.
/// Mixes an image over the pixels of the buffer that are in the clip and in the area. It stands at the area's
/// top left. Each texel is mixed with its own opacity and then with `opa`, from 0 to 255. A texel without a
/// colour has `recolor`. Nothing is drawn of an image that is not there or not finished.
pub fn picture<L: Ledger>(
    buf: &mut DrawBuf,
    clip: Area,
    area: Area,
    images: &Images,
    id: u16,
    recolor: Rgb565,
    opa: u8,
    steps: &mut Steps<L>,
)
    ensures { Draws buf.old buf.new steps.old steps.new (within (rect_of clip)
        (picture_coat (rect_of area) images.now.images id recolor opa)) }
{
    let Some(bitmap) = images.bitmap(id) else {
        return;
    };
    let Some(part) = part_of(buf, clip, area) else {
        return;
    };
    let column = columns_before(area, part);
    let row = lines_before(area, part);
    let Some(columns) = count_left(bitmap.width, column) else {
        return;
    };
    let Some(lines) = count_left(bitmap.height, row) else {
        return;
    };
    let seen = first_of(part, columns, lines);
    let texels = Texels {
        bitmap,
        recolor,
        opa,
        column,
        row,
    };
    mix_part(buf, seen, texels, steps);
}

/// Mixes texels over the pixels of a part of the buffer's area.
fn mix_part<L: Ledger>(buf: &mut DrawBuf, part: Area, texels: Texels<'_>, steps: &mut Steps<L>)
    requires inside { IsInside buf.old.area (rect_of part) }
    requires texels { HasTexels texels (rect_of part) }
    ensures { Draws buf.old buf.new steps.old steps.new
        (within (rect_of part) (texels_in texels.entry (rect_of part))) }
{
    for line in 0..part.height() {
        mix_line(buf, part, line, texels, steps);
    }
}

/// Mixes one line of texels over the pixels of that line of the part.
fn mix_line<L: Ledger>(
    buf: &mut DrawBuf,
    part: Area,
    line: u32,
    texels: Texels<'_>,
    steps: &mut Steps<L>,
)
    requires has { HasLine buf.old.area (rect_of part) line }
    requires texels { HasTexels texels (rect_of part) }
    ensures { Draws buf.old buf.new steps.old steps.new
        (within (line_of (rect_of part) line) (texels_in texels.entry (rect_of part))) }
{
    mix_texels(line_mut(buf, part, line), texels, texels.row + line);
    tick_times(part.width(), steps);
}

/// Mixes the texels of row `y` over a row of pixels.
fn mix_texels(row: &mut [Rgb565], texels: Texels<'_>, y: u32)
    requires { HasTexelRow texels y (length row.old) }
    ensures { (k : ℕ) → k < length row.old → slice_index_or row.new k black
        ≡ texel_over texels.entry (texels.entry.column + k) y (slice_index_or row.old k black) }
{
    let bytes = texels.bitmap.row(y as u16);
    let (first, opa) = (texels.column as usize, texels.opa);
    match texels.bitmap.format {
        Format::Rgb565 => mix_colors(row, bytes, first, opa),
        Format::Rgb565Alpha => mix_shades(row, bytes, first, opa),
        Format::Alpha => mix_alphas(row, bytes, first, texels.recolor, opa),
    }
}

/// The first so many columns and lines of a part.
fn first_of(part: Area, columns: u32, lines: u32) -> Area
    requires order { (part.x1 ≤ℤ part.x2) × (part.y1 ≤ℤ part.y2) }
    requires some { (1 ≤ columns) × (1 ≤ lines) }
    ensures { rect_of result ≡ first_pixels (rect_of part) columns lines }
{
    Area {
        x1: part.x1,
        y1: part.y1,
        x2: last_column(part, columns),
        y2: last_line(part, lines),
    }
}

/// The last of its first `count` columns.
fn last_column(part: Area, count: u32) -> i32
    requires order { part.x1 ≤ℤ part.x2 }
    requires some { 1 ≤ count }
    ensures value { result ≡ int_min part.x2 ((part.x1 +ℤ pos count) -ℤ pos 1) }
    ensures fits { IsCoordinate result }
{
    if part.width() <= count {
        part.x2
    } else {
        part.x1 + (count - 1) as i32
    }
}

/// The last of its first `count` lines.
fn last_line(part: Area, count: u32) -> i32
    requires order { part.y1 ≤ℤ part.y2 }
    requires some { 1 ≤ count }
    ensures value { result ≡ int_min part.y2 ((part.y1 +ℤ pos count) -ℤ pos 1) }
    ensures fits { IsCoordinate result }
{
    if part.height() <= count {
        part.y2
    } else {
        part.y1 + (count - 1) as i32
    }
}

/// How many columns of an area come before a part of it.
fn columns_before(area: Area, part: Area) -> u32
    requires { area.x1 ≤ℤ part.x1 }
    ensures { result ≡ distance area.x1 part.x1 }
{
    (i64::from(part.x1) - i64::from(area.x1)) as u32
}

/// How many lines of an area come before a part of it.
fn lines_before(area: Area, part: Area) -> u32
    requires { area.y1 ≤ℤ part.y1 }
    ensures { result ≡ distance area.y1 part.y1 }
{
    (i64::from(part.y1) - i64::from(area.y1)) as u32
}

/// How many texels of a side are left after so many.
fn count_left(side: u16, before: u32) -> Option<u32>
    ensures { MatchOption result (side ≤ before)
        (λ n. (before < side) × (n ≡ side - before) × (side < 65536)) }
{
    let side = u32::from(side);
    if side <= before {
        return None;
    }
    Some(side - before)
}
