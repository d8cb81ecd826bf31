//! Filling areas.
ghost use Rattle.std.specs.Prelude.{◌≡◌, ◌+◌};
ghost use Rattle.gui_base.specs.Area.{size_of};
ghost use Rattle.gui_base.specs.Coats.{within, fill_coat};
ghost use Rattle.gui_base.specs.Corners.{rect_of};
ghost use Rattle.gui_draw.specs.Drawing.{Draws};
ghost use Rattle.gui_draw.specs.Parts.{IsInside};

use crate::rows::part_of;
use crate::ticks::tick_times;
use gui_base::{Area, Rgb565, Steps};
use gui_color::DrawBuf;
use std::sync::ledger::Ledger;

/// Mixes a colour with an opacity from 0 to 255 over the pixels of the buffer that are in the clip and in the
/// area.
pub fn fill<L: Ledger>(
    buf: &mut DrawBuf,
    clip: Area,
    area: Area,
    fg: Rgb565,
    opa: u8,
    steps: &mut Steps<L>,
)
    ensures { Draws buf.old buf.new steps.old steps.new
        (within (rect_of clip) (fill_coat (rect_of area) fg opa)) }
{
    if let Some(part) = part_of(buf, clip, area) {
        fill_part(buf, part, fg, opa, steps);
    }
}

/// Mixes a colour over each pixel of a part that lies in the buffer's area.
fn fill_part<L: Ledger>(buf: &mut DrawBuf, part: Area, fg: Rgb565, opa: u8, steps: &mut Steps<L>)
    requires { IsInside buf.old.area (rect_of part) }
    ensures { Draws buf.old buf.new steps.old steps.new (fill_coat (rect_of part) fg opa) }
{
    buf.fill(part, fg, opa);
    tick_lines(part, steps);
}

/// A step for each pixel of a part.
fn tick_lines<L: Ledger>(part: Area, steps: &mut Steps<L>)
    ensures { steps.new ≡ steps.old + size_of (rect_of part) }
{
    for _ in 0..part.height() {
        tick_times(part.width(), steps);
    }
}
