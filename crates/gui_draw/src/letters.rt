//! The glyphs of the built-in font, as rows of bits.
ghost use Rattle.std.specs.Prelude.{◌≡◌, ◌/◌, ◌%◌, ◌^◌, ◌<◌, ◌≤◌, true};
ghost use Rattle.text_defs.specs.Bits.{bit};
ghost use Rattle.text_defs.specs.BuiltIn.{has_built_in, column_of};
ghost use Rattle.gui_draw.specs.Letters.{row_of, letter_rows};

use gui_font::GlyphBox;
use text_defs::built_in::{ADVANCE, COLUMNS};

/// The box of each of its glyphs.
pub(crate) const LETTER_BOX: GlyphBox = GlyphBox {
    advance: ADVANCE,
    w: 5,
    h: 7,
    ox: 0,
    oy: 0,
};

/// Whether the built-in font has a glyph of a character.
pub(crate) fn has_built_in(c: char) -> bool
    ensures { result ≡ has_built_in c }
{
    matches!(c, ' '..='~')
}

/// The rows of a character's glyph, from the top, each in the five highest bits of a byte.
pub(crate) fn rows_of(c: char) -> [u8; 7]
    requires { has_built_in c ≡ true }
    ensures { result ≡ letter_rows c }
{
    [
        row_of(c, 0),
        row_of(c, 1),
        row_of(c, 2),
        row_of(c, 3),
        row_of(c, 4),
        row_of(c, 5),
        row_of(c, 6),
    ]
}

/// One row.
fn row_of(c: char, y: u8) -> u8
    requires code { has_built_in c ≡ true }
    requires row { y < 7 }
    ensures { result ≡ row_of c y }
{
    dot_of(c, 0, y) * 128
        + dot_of(c, 1, y) * 64
        + dot_of(c, 2, y) * 32
        + dot_of(c, 3, y) * 16
        + dot_of(c, 4, y) * 8
}

/// Whether the bit in column `x` and row `y` of a character's glyph is set.
pub(crate) fn has_dot(c: char, x: u8, y: u8) -> bool
    requires code { has_built_in c ≡ true }
    requires column { x < 5 }
    requires row { y < 7 }
    ensures { result ≡ bit (column_of c x) y }
{
    dot_of(c, x, y) == 1
}

/// One bit of it.
fn dot_of(c: char, x: u8, y: u8) -> u8
    requires code { has_built_in c ≡ true }
    requires column { x < 5 }
    requires row { y < 7 }
    ensures value { result ≡ column_of c x / 2 ^ y % 2 }
    ensures bit { result ≤ 1 }
{
    column_of(c, x) >> y & 1
}

/// Column `x` of a character's glyph: bit 0 is its top.
fn column_of(c: char, x: u8) -> u8
    requires code { has_built_in c ≡ true }
    requires column { x < 5 }
    ensures { result ≡ column_of c x }
{
    COLUMNS[5 * (c as usize - 32) + x as usize]
}
