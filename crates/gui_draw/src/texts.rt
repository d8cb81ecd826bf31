//! Texts, line by line.
ghost use Rattle.std.specs.Prelude.{◌≡◌, ◌+◌, ◌≤◌, ◌||◌, Some, true, take, length, pos, ◌≤ℤ◌, ◌+ℤ◌, negsuc};
ghost use Rattle.std.specs.Str.{chars};
ghost use Rattle.gui_base.specs.Area.{width_of, IsCoordinate};
ghost use Rattle.std.specs.Int.Signed.{le_z, lt_z};
ghost use Rattle.gui_base.specs.Coats.{within};
ghost use Rattle.gui_base.specs.Corners.{rect_of};
ghost use Rattle.gui_draw.specs.Brushes.{stroke};
ghost use Rattle.gui_draw.specs.Parts.{IsInside};
ghost use Rattle.text_defs.specs.Fonts.{finished, has_font};
ghost use Rattle.text_defs.specs.Ink.{line_at};
ghost use Rattle.gui_font.specs.LinesLeft.{runs_left, setting_of};
ghost use Rattle.gui_font.specs.Sets.{face_in};
ghost use Rattle.text_defs.specs.Coats.{ink_coat};
ghost use Rattle.gui_draw.specs.Runs.{lines_at, face_of, ink_of, letter_count, DrawsIn, IsPen};
ghost use Rattle.gui_draw.specs.Spans.{IsFar};

use crate::brush::Brush;
use crate::glyphs::Corner;
use crate::rows::part_of;
use crate::runs::{Lettering, ink_run};
use gui_base::{Area, Rgb565, Steps};
use gui_color::DrawBuf;
use gui_font::{Fonts, Line, Lines, Run, TextAlign, TextLook};
use std::sync::ledger::Ledger;

// Each parameter by itself, as in all calls of this library: callers have them from different places.
/// Mixes a colour with an opacity from 0 to 255 over the ink of a text, as far as it lies in the buffer, in the
/// clip and in the area. The text is set in the area's width, from the area's top left on. Besides the steps of
/// the mixes there is at most one for each character.
pub fn ink<L: Ledger>(
    buf: &mut DrawBuf,
    clip: Area,
    area: Area,
    fonts: &Fonts,
    look: TextLook,
    text: &str,
    fg: Rgb565,
    opa: u8,
    steps: &mut Steps<L>,
)
    requires finished { finished fonts.now.fonts look.font ≡ Some true }
    requires letter { look.letter ≤ 100 }
    requires line { look.line ≤ 100 }
    requires short { length text.now ≤ 1000 }
    requires wide { width_of (rect_of area) ≤ 400000 }
    ensures { DrawsIn (length (chars text.now)) buf.old buf.new steps.old steps.new (within (rect_of clip)
        (ink_coat (rect_of area) (face_in fonts.now look.font) look (chars text.now) fg opa)) }
{
    if let Some(part) = part_of(buf, clip, area) {
        let whole = area.width();
        let lines = fonts.lines(look, text, Some(whole as i32));
        let brush = Brush { part, fg, opa };
        ink_lines(buf, brush, area, lines, Lettering { fonts, look }, steps);
    }
}

/// The top left pixel of an area.
fn corner_of(area: Area) -> Corner
    ensures x { result.x ≡ area.x1 }
    ensures y { result.y ≡ area.y1 }
{
    Corner {
        x: i64::from(area.x1),
        y: i64::from(area.y1),
    }
}

/// Draws lines from the top left of an area on, in its width.
fn ink_lines<L: Ledger>(
    buf: &mut DrawBuf,
    brush: Brush,
    area: Area,
    lines: Lines<'_>,
    lettering: Lettering<'_>,
    steps: &mut Steps<L>,
)
    requires inside { IsInside buf.old.area (rect_of brush.part) }
    requires there { has_font lettering.fonts.now.fonts lettering.look.font ≡ true }
    requires letter { lettering.look.letter ≤ 100 }
    requires line { lettering.look.line ≤ 100 }
    requires face { (setting_of lines).face ≡ face_of lettering }
    requires letter_is { (setting_of lines).letter ≡ lettering.look.letter }
    requires wide { width_of (rect_of area) ≤ 400000 }
    requires lines { length (runs_left lines) ≤ 1001 }
    requires letters { letter_count (runs_left lines) ≤ 1000 }
    ensures { let look = lettering.entry.look in
        let pitch = (face_of lettering.entry).height + look.line in
        let whole = width_of (rect_of area) in
        DrawsIn (letter_count (runs_left lines.entry)) buf.old buf.new steps.old steps.new (stroke brush
        (lines_at (setting_of lines.entry) look.align pitch whole (runs_left lines.entry) area.x1 area.y1)) }
{
    let look = lettering.look;
    let pitch = u32::from(lettering.fonts.height(look.font)) + u32::from(look.line);
    let whole = area.width();
    let mut lines = lines;
    let mut at = corner_of(area);
    'lines: while let Some(run) = lines.next_run() {
        let first = line_start(at, look.align, whole, run.line);
        ink_line(buf, brush, first, run, lettering, steps);
        at = below(at, pitch);
    }
}

/// Draws a line whose first cell stands there, unless no pixel of it is in the part.
fn ink_line<L: Ledger>(
    buf: &mut DrawBuf,
    brush: Brush,
    start: Corner,
    run: Run<'_>,
    lettering: Lettering<'_>,
    steps: &mut Steps<L>,
)
    requires inside { IsInside buf.old.area (rect_of brush.part) }
    requires near { IsPen start.x × IsPen start.y }
    requires there { has_font lettering.fonts.now.fonts lettering.look.font ≡ true }
    requires letter { lettering.look.letter ≤ 100 }
    requires few { run.count ≤ 1000 }
    requires count { run.count ≤ length (chars run.text.now) }
    ensures { DrawsIn run.entry.count buf.old buf.new steps.old steps.new
        (stroke brush (ink_of lettering.entry run.entry start.x start.y)) }
{
    let height = lettering.fonts.height(lettering.look.font);
    if is_beside(brush.part, start, height) {
        return;
    }
    ink_run(buf, brush, start, run, lettering, steps);
}

/// Whether no pixel of a line that stands there is in a part.
fn is_beside(part: Area, start: Corner, height: u8) -> bool
    requires { IsPen start.y }
    ensures { result ≡ (lt_z part.y2 start.y || le_z (start.y +ℤ pos height) part.y1) }
{
    i64::from(part.y2) < start.y || start.y + i64::from(height) <= i64::from(part.y1)
}

/// Where the first cell of a line stands.
fn line_start(at: Corner, align: TextAlign, whole: u32, line: Line) -> Corner
    requires near { IsCoordinate at.x }
    ensures x { result.x ≡ at.x +ℤ line_at align (pos whole) line.width }
    ensures y { result.y ≡ at.y }
    ensures pen { IsPen result.x }
{
    Corner {
        x: at.x + left_of(align, whole, line),
        y: at.y,
    }
}

/// Where a line stands in the whole width: to the left of it if it is wider.
fn left_of(align: TextAlign, whole: u32, line: Line) -> i64
    ensures value { result ≡ line_at align (pos whole) line.width }
    ensures near { (negsuc 2147483647 ≤ℤ result) × (result ≤ℤ pos 10000000000) }
{
    let free = i64::from(whole) - i64::from(line.width);
    match align {
        TextAlign::Left => 0,
        TextAlign::Center => free.div_euclid(2),
        TextAlign::Right => free,
    }
}

/// A corner so far below another.
fn below(at: Corner, down: u32) -> Corner
    requires near { IsPen at.y }
    requires few { down ≤ 510 }
    ensures x { result.x ≡ at.x }
    ensures y { result.y ≡ at.y +ℤ pos down }
{
    Corner {
        y: at.y + i64::from(down),
        ..at
    }
}
