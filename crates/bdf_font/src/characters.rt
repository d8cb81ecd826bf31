//! The characters of a font, and whether they make glyphs.
ghost use Rattle.bdf_font.specs.Bdf.{glyph_of, is_code, fits, top_of, has_sizes};
ghost use Rattle.bdf_font.specs.Near.{IsNear};
ghost use Rattle.gui_base.specs.Intervals.{is_within};
ghost use Rattle.gui_base.specs.declared.intervals.TheConstants.{GLYPH_OFFSET};
ghost use Rattle.std.specs.Prelude.{◌≡◌, ◌<◌, ◌&&◌, ◌+ℤ◌, IfSome};

use gui_base::intervals::{ADVANCE, CODE, GLYPH_HEIGHT, GLYPH_OFFSET, GLYPH_WIDTH};
use text_defs::GlyphBox;

/// Where a box of pixels stands: its width, its height, and two offsets. Its left edge is so far right of the
/// point at which a character begins, and its lower edge so far above the line on which it stands.
#[derive(Clone, Copy, Debug, PartialEq, Eq)]
pub struct Extents {
    pub w: i32,
    pub h: i32,
    pub x: i32,
    pub y: i32,
}

/// What is read of a character but its rows.
#[derive(Clone, Copy, Debug, PartialEq, Eq)]
pub struct Character {
    /// The box of its font.
    pub bounds: Extents,
    pub code: i32,
    pub advance: i32,
    /// Its own box.
    pub shape: Extents,
}

/// The code and the box of the glyph that a character makes, if its numbers lie in the intervals of a glyph.
pub(crate) fn glyph_of(character: &Character) -> Option<(u32, GlyphBox)>
    ensures glyph { result ≡ glyph_of character.now }
    ensures code { IfSome result (λ glyph. glyph.0 < 1114112) }
{
    if fits(character) {
        let shape = GlyphBox {
            advance: character.advance as u8,
            w: character.shape.w as u8,
            h: character.shape.h as u8,
            ox: character.shape.x as i8,
            oy: top_of(character) as i8,
        };
        Some((character.code as u32, shape))
    } else {
        None
    }
}

/// Whether the numbers of a character lie in the intervals of a glyph.
#[tactic(auto, unfolding(crate::specs::Bdf::fits))]
fn fits(character: &Character) -> bool
    ensures { result ≡ fits character.now }
{
    has_code(character) && has_sizes(character) && has_place(character)
}

/// Whether a glyph may have its code.
fn has_code(character: &Character) -> bool
    ensures { result ≡ is_code character.now.code }
{
    CODE.low <= character.code
        && character.code <= CODE.high
        && !(0xD800 <= character.code && character.code <= 0xDFFF)
}

/// Whether its advance and the size of its box lie in their intervals.
fn has_sizes(character: &Character) -> bool
    ensures { result ≡ has_sizes character.now }
{
    0 <= character.advance
        && character.advance <= ADVANCE.high as i32
        && 0 <= character.shape.w
        && character.shape.w <= GLYPH_WIDTH.high as i32
        && 0 <= character.shape.h
        && character.shape.h <= GLYPH_HEIGHT.high as i32
}

/// Whether the place of its box does.
fn has_place(character: &Character) -> bool
    ensures { result ≡ (is_within GLYPH_OFFSET character.now.shape.x && is_within GLYPH_OFFSET (top_of character.now)) }
{
    let top = top_of(character);
    GLYPH_OFFSET.low <= character.shape.x
        && character.shape.x <= GLYPH_OFFSET.high
        && i64::from(GLYPH_OFFSET.low) <= top
        && top <= i64::from(GLYPH_OFFSET.high)
}

/// How far the top of its box is below that of the font's.
fn top_of(character: &Character) -> i64
    ensures { result ≡ top_of character.now }
{
    head_of(character.bounds) - head_of(character.shape)
}

/// How far the top of a box is above the line that it stands on.
fn head_of(e: Extents) -> i64
    ensures value { result ≡ e.h +ℤ e.y }
    ensures near { IsNear result }
{
    i64::from(e.h) + i64::from(e.y)
}
