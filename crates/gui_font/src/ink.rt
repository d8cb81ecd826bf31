//! The ink of a text.
ghost use Rattle.std.specs.Prelude.{◌≡◌, true, ℕ, ◌+◌, ◌*◌, ◌≤◌, ◌<◌, pos, negsuc, ◌≤ℤ◌, ◌-ℤ◌};
ghost use Rattle.std.specs.Prelude.{take, length, MatchOption};
ghost use Rattle.std.specs.Str.{chars};
ghost use Rattle.gui_base.specs.Area.{nat_of};
ghost use Rattle.text_defs.specs.Bits.{bit_of};
ghost use Rattle.text_defs.specs.BuiltIn.{dot_in, has_built_in, column_of};
ghost use Rattle.text_defs.specs.Fonts.{dot_at, glyph_bytes, row_bytes};
ghost use Rattle.text_defs.specs.Ink.{inked, lines_inked, run_inked, cell_inked, line_at};
ghost use Rattle.gui_font.specs.Cells.{glyph_with};
ghost use Rattle.gui_font.specs.Sets.{face_in};

use crate::fonts::{Bits, Fonts};
use crate::letters::first_char;
use crate::lines::{Lines, pixels};
use gui_base::words::TextAlign;
use text_defs::built_in::COLUMNS;
use text_defs::{GlyphBox, Line, TextLook};

/// A point, counted from the top left of a text, a run or a cell.
#[derive(Clone, Copy)]
struct Point {
    x: i64,
    y: i64,
}

/// What is left of a run, and where it stands.
#[derive(Clone, Copy)]
struct Pen<'a> {
    at: Point,
    rest: &'a str,
}

impl Fonts {
    ghost use Rattle.gui_font.specs.LinesLeft.{runs_left, setting_of};

    /// Whether a point of a text is inked: a set bit of a glyph, inside the cell of its character. The point
    /// is counted from the top left of the text, which is set in `width` pixels.
    pub fn ink_at(&self, look: TextLook, text: &str, width: i32, x: i32, y: i32) -> bool
        requires letter { look.letter ≤ 100 }
        requires short { length text.now ≤ 1000 }
        requires width { pos 0 ≤ℤ width }
        ensures { result ≡ inked (face_in self.now look.font) look.letter look.line look.align
            (chars text.now) (nat_of width) x y }
    {
        let lines = self.lines(look, text, Some(width));
        let at = Point {
            x: i64::from(x),
            y: i64::from(y),
        };
        self.lines_inked(lines, look, pixels(width), at)
    }

    /// Whether a point is inked, counted from the top left of lines that stand in `whole` pixels.
    fn lines_inked(&self, lines: Lines<'_>, look: TextLook, whole: u32, at: Point) -> bool
        requires face { (setting_of lines).face ≡ face_in self.now look.font }
        requires letter { (setting_of lines).letter ≡ look.letter }
        requires few { length (runs_left lines) ≤ 1001 }
        requires near_x { (negsuc 2147483647 ≤ℤ at.x) × (at.x ≤ℤ pos 2147483647) }
        requires near_y { (negsuc 2147483647 ≤ℤ at.y) × (at.y ≤ℤ pos 2147483647) }
        ensures { let pitch = (face_in self.now look.font).height + look.line in
            result ≡ lines_inked (setting_of lines.entry) look.align pitch whole (runs_left lines.entry)
            at.x at.y }
    {
        let pitch = i64::from(self.height(look.font)) + i64::from(look.line);
        let mut lines = lines;
        let mut point = at;
        'lines: while let Some(run) = lines.next_run() {
            let left = left_of(look.align, whole, run.line);
            if self.run_inked(look, run.text, run.count, moved(point, left)) {
                return true;
            }
            point = below(point, pitch);
        }
        false
    }

    /// Whether a point is inked, counted from the top left of a run: the first `count` characters of a text.
    fn run_inked(&self, look: TextLook, text: &str, count: u32, at: Point) -> bool
        requires low { negsuc 100000000000 ≤ℤ at.x }
        requires high { at.x ≤ℤ pos 100000000000 }
        ensures { let run = take count (chars text.now) in
            result ≡ run_inked (face_in self.now look.font) look.letter run at.x at.y }
    {
        let mut pen = Pen { at, rest: text };
        'cells: for _i in 0..count {
            let Some((c, rest)) = first_char(pen.rest) else {
                return false;
            };
            if self.cell_inked(look.font, c, pen.at) {
                return true;
            }
            let step = i64::from(self.advance(look.font, c)) + i64::from(look.letter);
            pen = Pen {
                at: moved(pen.at, step),
                rest,
            };
        }
        false
    }

    /// Whether a point is inked, counted from the top left of a character's cell.
    fn cell_inked(&self, font: u8, c: char, at: Point) -> bool
        ensures { let face = face_in self.now font in
            result ≡ cell_inked face.height (face.cell c) at.x at.y }
    {
        let Some(x) = inside(at.x, self.advance(font, c)) else {
            return false;
        };
        let Some(y) = inside(at.y, self.height(font)) else {
            return false;
        };
        self.dot(font, c, x, y)
    }

    /// Whether a point of a character's glyph is set, counted from the top left of its cell.
    pub fn dot(&self, font: u8, c: char, x: u8, y: u8) -> bool
        ensures { result ≡ ((face_in self.now font).cell c).dot (pos x) (pos y) }
    {
        if !self.is_listed(font) {
            return built_in_dot(c, x, y);
        }
        match self.bits(font, c) {
            None => false,
            Some(bits) => bits.dot(x, y),
        }
    }
}

impl<'a> Bits<'a> {
    /// Whether a point is set, counted from the top left of the cell.
    pub fn dot(&self, x: u8, y: u8) -> bool
        requires { length self.now.rows.now ≡ glyph_bytes self.now.shape }
        ensures { let shape = self.now.shape in
            result ≡ dot_at (glyph_with self.now) (pos x -ℤ shape.ox) (pos y -ℤ shape.oy) }
    {
        let Some(column) = column_in(self.shape, x) else {
            return false;
        };
        let Some(row) = row_in(self.shape, y) else {
            return false;
        };
        let stride = (self.shape.w as usize + 7) / 8;
        let start = row as usize * stride;
        is_set(&self.rows[start..start + stride], column)
    }
}

/// Which column of a glyph's box stands at a column of the cell, if one does.
fn column_in(shape: GlyphBox, x: u8) -> Option<u8>
    ensures { MatchOption result ((k : ℕ) → pos x -ℤ shape.ox ≡ pos k → shape.w ≤ k)
        (λ k. (pos x -ℤ shape.ox ≡ pos k) × (k < shape.w)) }
{
    inside(i64::from(x) - i64::from(shape.ox), shape.w)
}

/// Which row of a glyph's box stands at a row of the cell, if one does.
fn row_in(shape: GlyphBox, y: u8) -> Option<u8>
    ensures { MatchOption result ((k : ℕ) → pos y -ℤ shape.oy ≡ pos k → shape.h ≤ k)
        (λ k. (pos y -ℤ shape.oy ≡ pos k) × (k < shape.h)) }
{
    inside(i64::from(y) - i64::from(shape.oy), shape.h)
}

/// A number from 0 to below `size`, if it is one.
fn inside(at: i64, size: u8) -> Option<u8>
    ensures { MatchOption result ((k : ℕ) → at ≡ pos k → size ≤ k) (λ k. (at ≡ pos k) × (k < size)) }
{
    if at < 0 || at >= i64::from(size) {
        return None;
    }
    Some(at as u8)
}

/// Whether a bit of a row is set: bit 0 is the highest of its first byte.
fn is_set(row: &[u8], column: u8) -> bool
    requires { column < 8 * length row.now }
    ensures { result ≡ bit_of row.now column }
{
    row[column as usize / 8] >> (7 - column % 8) & 1 == 1
}

/// Whether a point of a glyph of the built-in font is set, counted from the top left of its cell.
fn built_in_dot(c: char, x: u8, y: u8) -> bool
    ensures { result ≡ dot_in c (pos x) (pos y) }
{
    if !has_built_in(c) || x >= 5 || y >= 7 {
        return false;
    }
    column_of(c, x) >> y & 1 == 1
}

/// Whether the built-in font has a glyph of a character.
fn has_built_in(c: char) -> bool
    ensures { result ≡ has_built_in c }
{
    matches!(c, ' '..='~')
}

/// Column `x` of a glyph of the built-in font: bit 0 is its top.
fn column_of(c: char, x: u8) -> u8
    requires code { has_built_in c ≡ true }
    requires column { x < 5 }
    ensures { result ≡ column_of c x }
{
    COLUMNS[5 * (c as usize - 32) + x as usize]
}

/// Where a line stands in the whole width: to the left of it if it is wider.
fn left_of(align: TextAlign, whole: u32, line: Line) -> i64
    ensures value { result ≡ line_at align (pos whole) line.width }
    ensures near { (negsuc 2147483647 ≤ℤ result) × (result ≤ℤ pos 10000000000) }
{
    let free = i64::from(whole) - i64::from(line.width);
    match align {
        TextAlign::Left => 0,
        TextAlign::Center => free.div_euclid(2),
        TextAlign::Right => free,
    }
}

/// A point as it is counted from so many pixels to the right.
fn moved(at: Point, right: i64) -> Point
    requires near { (negsuc 1000000000000000 ≤ℤ at.x) × (at.x ≤ℤ pos 1000000000000000) }
    requires step { (negsuc 1000000000000000 ≤ℤ right) × (right ≤ℤ pos 1000000000000000) }
    ensures x { result.x ≡ at.x -ℤ right }
    ensures y { result.y ≡ at.y }
{
    Point {
        x: at.x - right,
        ..at
    }
}

/// A point as it is counted from so many pixels below.
fn below(at: Point, down: i64) -> Point
    requires near { (negsuc 1000000000000000 ≤ℤ at.y) × (at.y ≤ℤ pos 1000000000000000) }
    requires step { (negsuc 1000000000000000 ≤ℤ down) × (down ≤ℤ pos 1000000000000000) }
    ensures x { result.x ≡ at.x }
    ensures y { result.y ≡ at.y -ℤ down }
{
    Point {
        y: at.y - down,
        ..at
    }
}
