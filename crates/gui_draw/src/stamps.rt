//! Letters of the built-in font of which all columns are seen.
ghost use Rattle.std.specs.Prelude.{◌≡◌, ℕ, ◌<◌, ◌≤◌, ◌+◌, ◌&&◌, true, length, slice_index_or};
ghost use Rattle.std.specs.Prelude.{if◌then◌else◌, pos, ◌+ℤ◌, ◌-ℤ◌};
ghost use Rattle.std.specs.Int.Signed.{le_z};
ghost use Rattle.gui_base.specs.Area.{width_of, height_of};
ghost use Rattle.gui_base.specs.Coats.{within};
ghost use Rattle.gui_base.specs.Color.{black};
ghost use Rattle.gui_base.specs.Corners.{rect_of};
ghost use Rattle.gui_color.specs.Masks.{masked};
ghost use Rattle.text_defs.specs.BuiltIn.{built_in, has_built_in, column_of};
ghost use Rattle.text_defs.specs.Bits.{bit};
ghost use Rattle.gui_draw.specs.Counts.{one_if, sum_below};
ghost use Rattle.gui_draw.specs.Brushes.{dabbed, stroke};
ghost use Rattle.gui_draw.specs.Drawing.{Draws};
ghost use Rattle.gui_draw.specs.Parts.{IsInside, HasLine, line_of};
ghost use Rattle.gui_draw.specs.Runs.{cell_at};
ghost use Rattle.gui_draw.specs.Spans.{IsFar};

use crate::brush::Brush;
use crate::glyphs::{Corner, Span, area_of, end_of, lines_of};
use crate::letters::{LETTER_BOX, has_dot};
use crate::rows::line_mut;
use crate::ticks::tick_if;
use gui_base::{Area, Rgb565, Steps};
use gui_color::{DrawBuf, mix};
use std::sync::ledger::Ledger;
use text_defs::built_in::HEIGHT;

/// Whether a part has all columns of a letter's glyph that stands there.
pub(crate) fn has_columns(part: Area, left: i64) -> bool
    requires { IsFar left }
    ensures { result ≡ (le_z part.x1 left && le_z ((left +ℤ pos 5) -ℤ pos 1) part.x2) }
{
    i64::from(part.x1) <= left && end_of(left, 5) <= i64::from(part.x2)
}

/// The pixels of a box along one axis, `count` from one on, if all of them are seen.
fn span_at(from: i64, count: u8) -> Span
    requires { IsFar from }
    ensures from { result.from ≡ from }
    ensures to { result.to ≡ (from +ℤ pos count) -ℤ pos 1 }
{
    let to = end_of(from, count);
    Span { from, to, first: 0 }
}

/// Mixes a brush's colour over the pixels of its part whose bits are set in the glyph of a letter. The part
/// has all columns of the glyph.
pub(crate) fn stamp_letter<L: Ledger>(
    buf: &mut DrawBuf,
    brush: Brush,
    cell: Corner,
    c: char,
    steps: &mut Steps<L>,
)
    requires inside { IsInside buf.old.area (rect_of brush.part) }
    requires near { IsFar cell.x × IsFar cell.y }
    requires columns { (le_z brush.part.x1 cell.x
        && le_z ((cell.x +ℤ pos 5) -ℤ pos 1) brush.part.x2) ≡ true }
    requires code { has_built_in c ≡ true }
    ensures { Draws buf.old buf.new steps.old steps.new (stroke brush (cell_at built_in c cell.x cell.y)) }
{
    let Some(lines) = lines_of(brush.part, cell, HEIGHT, LETTER_BOX) else {
        return;
    };
    let part = area_of(brush.part, span_at(cell.x, 5), lines);
    let stamp = Brush { part, ..brush };
    // Nearly all letters have all their rows, and the compiler unrolls a loop over a number that it knows.
    if part.height() == 7 {
        stamp_lines(buf, stamp, 0, 7, c, steps);
    } else {
        stamp_lines(buf, stamp, lines.first, part.height(), c, steps);
    }
}

/// Mixes it over a part that is as wide as the glyph and `count` lines high. Its first line has row `first` of
/// the glyph.
#[inline(always)]
fn stamp_lines<L: Ledger>(
    buf: &mut DrawBuf,
    stamp: Brush,
    first: u32,
    count: u32,
    c: char,
    steps: &mut Steps<L>,
)
    requires inside { IsInside buf.old.area (rect_of stamp.part) }
    requires wide { width_of (rect_of stamp.part) ≡ 5 }
    requires high { count ≡ height_of (rect_of stamp.part) }
    requires rows { first + count ≤ 7 }
    requires code { has_built_in c ≡ true }
    ensures { Draws buf.old buf.new steps.old steps.new
        (stroke stamp (cell_at built_in c stamp.part.x1 (stamp.part.y1 -ℤ pos first))) }
{
    for line in 0..count {
        stamp_line(buf, stamp, line, first, c, steps);
    }
}

/// Mixes the stamp's colour over the dots of the character in one line of the part.
#[inline(always)]
fn stamp_line<L: Ledger>(
    buf: &mut DrawBuf,
    stamp: Brush,
    line: u32,
    first: u32,
    c: char,
    steps: &mut Steps<L>,
)
    requires has { HasLine buf.old.area (rect_of stamp.part) line }
    requires wide { width_of (rect_of stamp.part) ≡ 5 }
    requires row { first + line < 7 }
    requires code { has_built_in c ≡ true }
    ensures { Draws buf.old buf.new steps.old steps.new (within (line_of (rect_of stamp.part) line)
        (dabbed stamp (cell_at built_in c stamp.part.x1 (stamp.part.y1 -ℤ pos first)))) }
{
    let y = (first + line) as u8;
    ink_dots(line_mut(buf, stamp.part, line), c, y, stamp.fg, stamp.opa);
    tick_dots(c, y, steps);
}

/// Mixes `fg` over each pixel of a row if the pixel's bit is set in row `y` of a letter's glyph.
#[inline(always)]
fn ink_dots(row: &mut [Rgb565], c: char, y: u8, fg: Rgb565, opa: u8)
    requires wide { length row.old ≡ 5 }
    requires code { has_built_in c ≡ true }
    requires row { y < 7 }
    ensures { (k : ℕ) → k < 5 → slice_index_or row.new k black
        ≡ masked (bit (column_of c k) y) fg opa (slice_index_or row.old k black) }
{
    if opa >= 252 {
        cover_dots(row, c, y, fg);
    } else {
        mix_dots(row, c, y, fg, opa);
    }
}

/// Makes each pixel of a row `fg` if its bit is set in row `y` of a letter's glyph. It reads the font's columns
/// as they stand: to turn them into rows takes longer than the pixels do.
#[inline(always)]
fn cover_dots(row: &mut [Rgb565], c: char, y: u8, fg: Rgb565)
    requires wide { length row.old ≡ 5 }
    requires code { has_built_in c ≡ true }
    requires row { y < 7 }
    ensures { (k : ℕ) → k < 5 → slice_index_or row.new k black
        ≡ (if bit (column_of c k) y then fg else slice_index_or row.old k black) }
{
    for x in 0..5u8 {
        let i = x as usize;
        row[i] = chosen(has_dot(c, x, y), fg, row[i]);
    }
}

/// One of two colours.
#[inline(always)]
fn chosen(test: bool, fg: Rgb565, bg: Rgb565) -> Rgb565
    ensures { result ≡ (if test then fg else bg) }
{
    if test { fg } else { bg }
}

/// Mixes `fg` with an opacity over each of these pixels.
#[inline(always)]
fn mix_dots(row: &mut [Rgb565], c: char, y: u8, fg: Rgb565, opa: u8)
    requires wide { length row.old ≡ 5 }
    requires code { has_built_in c ≡ true }
    requires row { y < 7 }
    ensures { (k : ℕ) → k < 5 → slice_index_or row.new k black
        ≡ masked (bit (column_of c k) y) fg opa (slice_index_or row.old k black) }
{
    for x in 0..5u8 {
        let i = x as usize;
        row[i] = mixed_if(has_dot(c, x, y), fg, row[i], opa);
    }
}

/// A colour over another if a test holds.
#[inline(always)]
fn mixed_if(test: bool, fg: Rgb565, bg: Rgb565, opa: u8) -> Rgb565
    ensures { result ≡ masked test fg opa bg }
{
    if test { mix(fg, bg, opa) } else { bg }
}

/// A step for each bit that is set in row `y` of a letter's glyph.
fn tick_dots<L: Ledger>(c: char, y: u8, steps: &mut Steps<L>)
    requires code { has_built_in c ≡ true }
    requires row { y < 7 }
    ensures { steps.new ≡ steps.old + sum_below 5 (λ x. one_if (bit (column_of c x) y)) }
{
    for x in 0..5u8 {
        tick_if(has_dot(c, x, y), steps);
    }
}
