//! Rows of a draw buffer by the lines of an area.
ghost use Rattle.std.specs.Prelude.{◌≡◌, ◌<◌, length, MatchOption, pos, ◌+ℤ◌};
ghost use Rattle.std.specs.Borrow.{sem};
ghost use Rattle.gui_base.specs.Area.{width_of, height_of};
ghost use Rattle.gui_base.specs.Corners.{rect_of};
ghost use Rattle.gui_color.specs.Buffer.{row_of, HoldsRow};
ghost use Rattle.gui_color.specs.Lending.{LendsRow};
ghost use Rattle.gui_draw.specs.Parts.{HasLine, IsPart, IsOutside};

use gui_base::{Area, Rgb565};
use gui_color::DrawBuf;

/// The part of an item that lies in the buffer's area and in the clip, if it has a pixel.
pub(crate) fn part_of(buf: &DrawBuf, clip: Area, item: Area) -> Option<Area>
    ensures { MatchOption result (IsOutside buf.now.area (rect_of clip) (rect_of item))
        (λ part. IsPart buf.now.area (rect_of clip) (rect_of item) (rect_of part)) }
{
    let part = buf.area().meet(clip).meet(item);
    if part.is_empty() { None } else { Some(part) }
}

/// The pixels of a line of a part of the buffer's area, for writing.
pub(crate) fn line_mut(buf: &mut DrawBuf, part: Area, line: u32) -> &mut [Rgb565]
    requires { HasLine buf.old.area (rect_of part) line }
    ensures* writes_back { sem 𝓛 (LendsRow buf.entry (part.y1 +ℤ pos line) part.x1 result) }
    ensures row { result.now ≡ row_of buf.old (part.y1 +ℤ pos line) part.x1 part.x2 }
    ensures len { length result.now ≡ width_of (rect_of part) }
    ensures pixels { HoldsRow buf.old (part.y1 +ℤ pos line) part.x1 part.x2 }
{
    buf.row_mut(y_of(part, line), part.x1, part.x2)
}

/// Where a line of an area is.
fn y_of(area: Area, line: u32) -> i32
    requires { line < height_of (rect_of area) }
    ensures { result ≡ area.y1 +ℤ pos line }
{
    area.y1 + line as i32
}
