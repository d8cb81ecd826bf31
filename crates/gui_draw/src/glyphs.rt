//! Glyphs in their cells.
ghost use Rattle.std.specs.Prelude.{◌≡◌, ◌+◌, false, length, MatchOption, ℤ, pos, negsuc, ◌≤ℤ◌, ◌+ℤ◌, ◌-ℤ◌};
ghost use Rattle.std.specs.Int.{int_max, int_min};
ghost use Rattle.gui_base.specs.Area.{IsCoordinate};
ghost use Rattle.gui_base.specs.Corners.{rect_of};
ghost use Rattle.gui_draw.specs.Brushes.{stroke};
ghost use Rattle.gui_draw.specs.Drawing.{Draws};
ghost use Rattle.gui_draw.specs.Parts.{IsInside};
ghost use Rattle.text_defs.specs.Fonts.{glyph_bytes};
ghost use Rattle.gui_draw.specs.Glyphs.{glyph_at, span_rect};
ghost use Rattle.gui_draw.specs.Spans.{is_seen, IsSpan, IsFar};

use crate::brush::Brush;
use crate::dots::{Dots, ink_part};
use gui_base::{Area, Steps};
use gui_color::DrawBuf;
use gui_font::{Bits, GlyphBox};
use std::sync::ledger::Ledger;

/// The top left pixel of a cell.
#[derive(Clone, Copy)]
pub(crate) struct Corner {
    pub(crate) x: i64,
    pub(crate) y: i64,
}

/// Mixes a brush's colour over the pixels of its part whose bits are set in a glyph, inside its cell.
pub(crate) fn ink_glyph<L: Ledger>(
    buf: &mut DrawBuf,
    brush: Brush,
    cell: Corner,
    height: u8,
    bits: Bits<'_>,
    steps: &mut Steps<L>,
)
    requires inside { IsInside buf.old.area (rect_of brush.part) }
    requires near { IsFar cell.x × IsFar cell.y }
    requires bytes { length bits.rows.now ≡ glyph_bytes bits.shape }
    ensures { Draws buf.old buf.new steps.old steps.new
        (stroke brush (glyph_at height bits.entry.shape bits.entry.rows.now cell.x cell.y)) }
{
    let Some(columns) = columns_of(brush.part, cell, bits.shape) else {
        return;
    };
    let Some(lines) = lines_of(brush.part, cell, height, bits.shape) else {
        return;
    };
    let part = area_of(brush.part, columns, lines);
    let dots = Dots {
        bytes: bits.rows,
        stride: (usize::from(bits.shape.w) + 7) / 8,
        column: columns.first,
        row: lines.first,
    };
    ink_part(buf, Brush { part, ..brush }, dots, steps);
}

/// The columns of a glyph that are seen in a part.
fn columns_of(part: Area, cell: Corner, shape: GlyphBox) -> Option<Span>
    requires { IsFar cell.x }
    ensures { MatchOption result
        ((v : ℤ) → is_seen part.x1 part.x2 cell.x shape.advance shape.ox shape.w v ≡ false)
        (IsSpan part.x1 part.x2 cell.x shape.advance shape.ox shape.w) }
{
    let (low, high) = (i64::from(part.x1), i64::from(part.x2));
    seen_span(low, high, cell.x, shape.advance, shape.ox, shape.w)
}

/// Its lines, in a cell of this height.
pub(crate) fn lines_of(part: Area, cell: Corner, height: u8, shape: GlyphBox) -> Option<Span>
    requires { IsFar cell.y }
    ensures { MatchOption result
        ((v : ℤ) → is_seen part.y1 part.y2 cell.y height shape.oy shape.h v ≡ false)
        (IsSpan part.y1 part.y2 cell.y height shape.oy shape.h) }
{
    let (low, high) = (i64::from(part.y1), i64::from(part.y2));
    seen_span(low, high, cell.y, height, shape.oy, shape.h)
}

/// What is seen of a part along both axes.
pub(crate) fn area_of(part: Area, columns: Span, lines: Span) -> Area
    requires left { part.x1 ≤ℤ columns.from }
    requires right { columns.to ≤ℤ part.x2 }
    requires order_x { columns.from ≤ℤ columns.to }
    requires above { part.y1 ≤ℤ lines.from }
    requires below { lines.to ≤ℤ part.y2 }
    requires order_y { lines.from ≤ℤ lines.to }
    ensures { rect_of result ≡ span_rect columns lines }
{
    Area {
        x1: columns.from as i32,
        y1: lines.from as i32,
        x2: columns.to as i32,
        y2: lines.to as i32,
    }
}

/// The pixels of a glyph's box that are seen along one axis, and the number of the first of them in the box.
#[derive(Clone, Copy)]
pub(crate) struct Span {
    pub(crate) from: i64,
    pub(crate) to: i64,
    pub(crate) first: u32,
}

/// What is seen, from one pixel to another, of a box of this size that stands at an offset in a cell.
fn seen_span(low: i64, high: i64, cell: i64, advance: u8, offset: i8, size: u8) -> Option<Span>
    requires low { IsCoordinate low }
    requires high { IsCoordinate high }
    requires cell { IsFar cell }
    ensures { MatchOption result ((v : ℤ) → is_seen low high cell advance offset size v ≡ false)
        (IsSpan low high cell advance offset size) }
{
    let start = start_of(cell, offset);
    let from = greatest(low, cell, start);
    let to = least(high, end_of(cell, advance), end_of(start, size));
    if to < from {
        return None;
    }
    let first = distance_from(start, from);
    Some(Span { from, to, first })
}

/// Where a box begins, if it stands at an offset.
fn start_of(cell: i64, offset: i8) -> i64
    requires { IsFar cell }
    ensures { result ≡ cell +ℤ offset }
{
    cell + i64::from(offset)
}

/// The last of so many numbers from one on.
pub(crate) fn end_of(from: i64, count: u8) -> i64
    requires { (negsuc 2000000000000 ≤ℤ from) × (from ≤ℤ pos 2000000000000) }
    ensures { result ≡ (from +ℤ pos count) -ℤ pos 1 }
{
    from + i64::from(count) - 1
}

fn greatest(a: i64, b: i64, c: i64) -> i64
    ensures { result ≡ int_max (int_max a b) c }
{
    a.max(b).max(c)
}

fn least(a: i64, b: i64, c: i64) -> i64
    ensures { result ≡ int_min (int_min a b) c }
{
    a.min(b).min(c)
}

/// How far a number is from another that is not above it.
fn distance_from(from: i64, to: i64) -> u32
    requires order { from ≤ℤ to }
    requires near { to ≤ℤ (from +ℤ pos 255) }
    ensures { from +ℤ pos result ≡ to }
{
    (to - from) as u32
}
