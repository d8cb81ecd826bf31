//! Runs of characters.
ghost use Rattle.std.specs.Prelude.{◌≡◌, ◌+◌, ◌≤◌, true, length, pos, ◌+ℤ◌};
ghost use Rattle.std.specs.Str.{chars};
ghost use Rattle.gui_base.specs.Corners.{rect_of};
ghost use Rattle.gui_draw.specs.Brushes.{stroke};
ghost use Rattle.gui_draw.specs.Drawing.{Draws};
ghost use Rattle.gui_draw.specs.Parts.{IsInside};
ghost use Rattle.text_defs.specs.BuiltIn.{built_in};
ghost use Rattle.text_defs.specs.Fonts.{has_font};
ghost use Rattle.gui_draw.specs.Runs.{cell_at, face_of, ink_of, IsPen};
ghost use Rattle.gui_draw.specs.Spans.{IsFar};

use crate::brush::Brush;
use crate::glyphs::{Corner, ink_glyph};
use crate::letters::{LETTER_BOX, has_built_in, rows_of};
use crate::stamps::{has_columns, stamp_letter};
use gui_base::Steps;
use gui_color::DrawBuf;
use gui_font::{Bits, Fonts, Run, TextLook, first_char};
use std::sync::ledger::Ledger;
use text_defs::built_in::HEIGHT;

/// How the letters of a text are drawn: the fonts, and the look of the text.
#[derive(Clone, Copy)]
pub(crate) struct Lettering<'a> {
    pub(crate) fonts: &'a Fonts,
    pub(crate) look: TextLook,
}

/// What is left of a text, and where its first cell stands.
#[derive(Clone, Copy)]
struct Pen<'a> {
    left: &'a str,
    cell: Corner,
}

/// Draws the characters of a run, the first cell's top left at a corner. Each cell is one step, and each
/// pixel.
pub(crate) fn ink_run<L: Ledger>(
    buf: &mut DrawBuf,
    brush: Brush,
    start: Corner,
    run: Run<'_>,
    lettering: Lettering<'_>,
    steps: &mut Steps<L>,
)
    requires inside { IsInside buf.old.area (rect_of brush.part) }
    requires near { IsPen start.x × IsFar start.y }
    requires there { has_font lettering.fonts.now.fonts lettering.look.font ≡ true }
    requires letter { lettering.look.letter ≤ 100 }
    requires few { run.count ≤ 1000 }
    requires count { run.count ≤ length (chars run.text.now) }
    ensures { Draws buf.old buf.new (steps.old + run.entry.count) steps.new
        (stroke brush (ink_of lettering.entry run.entry start.x start.y)) }
{
    let mut at = Pen {
        left: run.text,
        cell: start,
    };
    'cells: for _ in 0..run.count {
        let Some((c, left)) = first_char(at.left) else {
            unreachable!();
        };
        ink_cell(buf, brush, at.cell, c, lettering, steps);
        let Lettering { fonts, look } = lettering;
        let cell = next_cell(at.cell, fonts.advance(look.font, c), look.letter);
        at = Pen { left, cell };
    }
}

/// Draws the cell of a character: one step to look at it, and one for each pixel.
fn ink_cell<L: Ledger>(
    buf: &mut DrawBuf,
    brush: Brush,
    cell: Corner,
    c: char,
    lettering: Lettering<'_>,
    steps: &mut Steps<L>,
)
    requires inside { IsInside buf.old.area (rect_of brush.part) }
    requires near { IsFar cell.x × IsFar cell.y }
    requires there { has_font lettering.fonts.now.fonts lettering.look.font ≡ true }
    ensures { Draws buf.old buf.new (steps.old + 1) steps.new
        (stroke brush (cell_at (face_of lettering.entry) c cell.x cell.y)) }
{
    let (fonts, font) = (lettering.fonts, lettering.look.font);
    steps.tick();
    if font == 0 {
        ink_letter(buf, brush, cell, c, steps);
        return;
    }
    if let Some(bits) = fonts.bits(font, c) {
        ink_glyph(buf, brush, cell, fonts.height(font), bits, steps);
    }
}

/// Draws the cell of a character of the built-in font.
fn ink_letter<L: Ledger>(
    buf: &mut DrawBuf,
    brush: Brush,
    cell: Corner,
    c: char,
    steps: &mut Steps<L>,
)
    requires inside { IsInside buf.old.area (rect_of brush.part) }
    requires near { IsFar cell.x × IsFar cell.y }
    ensures { Draws buf.old buf.new steps.old steps.new (stroke brush (cell_at built_in c cell.x cell.y)) }
{
    if !has_built_in(c) {
        return;
    }
    if has_columns(brush.part, cell.x) {
        stamp_letter(buf, brush, cell, c, steps);
        return;
    }
    let rows = rows_of(c);
    let bits = Bits {
        shape: LETTER_BOX,
        rows: &rows,
    };
    ink_glyph(buf, brush, cell, HEIGHT, bits, steps);
}

/// The cell after another.
fn next_cell(cell: Corner, advance: u8, letter: u8) -> Corner
    requires near { IsFar cell.x }
    requires letter { letter ≤ 100 }
    ensures few { advance + letter ≤ 355 }
    ensures x { result.x ≡ cell.x +ℤ pos (advance + letter) }
    ensures y { result.y ≡ cell.y }
{
    Corner {
        x: moved(cell.x, u32::from(advance) + u32::from(letter)),
        y: cell.y,
    }
}

/// A number so much greater.
fn moved(x: i64, by: u32) -> i64
    requires near { IsFar x }
    requires few { by ≤ 510 }
    ensures { result ≡ x +ℤ pos by }
{
    x + i64::from(by)
}
