//! The bits of a glyph, drawn row by row.
ghost use Rattle.gui_base.specs.Coats.{within};
ghost use Rattle.gui_base.specs.Corners.{rect_of};
ghost use Rattle.gui_draw.specs.Brushes.{dabbed, stroke};
ghost use Rattle.gui_draw.specs.Drawing.{Draws};
ghost use Rattle.gui_draw.specs.Parts.{IsInside, HasLine, line_of};
ghost use Rattle.gui_draw.specs.Dots.{dots_in, HasDots};

use crate::brush::Brush;
use crate::rows::line_mut;
use crate::ticks::tick_bits;
use gui_base::Steps;
use gui_color::{DrawBuf, mask_row};
use std::sync::ledger::Ledger;

/// The bits of a glyph's box over a part of the buffer's area: row by row, each row in so many bytes. The
/// part's first pixel has the bit in this column and row.
#[derive(Clone, Copy)]
pub(crate) struct Dots<'a> {
    pub(crate) bytes: &'a [u8],
    pub(crate) stride: usize,
    pub(crate) column: u32,
    pub(crate) row: u32,
}

/// Mixes a brush's colour over the pixels of its part whose bits are set.
pub(crate) fn ink_part<L: Ledger>(
    buf: &mut DrawBuf,
    brush: Brush,
    dots: Dots<'_>,
    steps: &mut Steps<L>,
)
    requires inside { IsInside buf.old.area (rect_of brush.part) }
    requires bits { HasDots dots (rect_of brush.part) }
    ensures { Draws buf.old buf.new steps.old steps.new
        (stroke brush (dots_in dots.entry (rect_of brush.part))) }
{
    for line in 0..brush.part.height() {
        ink_line(buf, brush, line, dots, steps);
    }
}

/// Mixes the brush's colour over the pixels of one line of the part whose bits are 1.
fn ink_line<L: Ledger>(
    buf: &mut DrawBuf,
    brush: Brush,
    line: u32,
    dots: Dots<'_>,
    steps: &mut Steps<L>,
)
    requires has { HasLine buf.old.area (rect_of brush.part) line }
    requires bits { HasDots dots (rect_of brush.part) }
    ensures { Draws buf.old buf.new steps.old steps.new (within (line_of (rect_of brush.part) line)
        (dabbed brush (dots_in dots.entry (rect_of brush.part)))) }
{
    let Brush { part, fg, opa } = brush;
    let from = (dots.row as usize + line as usize) * dots.stride;
    let bits = &dots.bytes[from..from + dots.stride];
    mask_row(line_mut(buf, part, line), bits, dots.column, fg, opa);
    tick_bits(bits, dots.column, part.width(), steps);
}
