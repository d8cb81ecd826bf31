//! The definitions of text and images: fonts, lines, ink and texels, and what the calls that build fonts and
//! images answer and leave.
#![tactic(auto)]

pub mod built_in;
pub mod laws;

use gui_base::Rgb565;
use gui_base::words::TextAlign;

/// How a text is set.
#[derive(Clone, Copy, Debug, PartialEq, Eq)]
pub struct TextLook {
    /// The number of its font: 0 is the built-in font.
    pub font: u8,
    /// The pixels between each two characters, from 0 to 100.
    pub letter: u8,
    /// The pixels between each two lines, from 0 to 100.
    pub line: u8,
    pub align: TextAlign,
}

/// A line of a text: the bytes from `start` to before `end`.
#[derive(Clone, Copy, Debug, PartialEq, Eq)]
pub struct Line {
    pub start: usize,
    pub end: usize,
    /// The width of its run in pixels.
    pub width: i32,
}

/// How far the next character stands from a glyph, and the box of the glyph's bits. All numbers are pixels.
#[derive(Clone, Copy, Debug, PartialEq, Eq)]
pub struct GlyphBox {
    /// From 0 to 64.
    pub advance: u8,
    /// The width of the box, from 0 to 32.
    pub w: u8,
    /// Its height, from 0 to 64.
    pub h: u8,
    /// Where its left column stands, counted from the left of the character's cell: from -64 to 64.
    pub ox: i8,
    /// Where its top row stands, counted from the top of the cell: from -64 to 64.
    pub oy: i8,
}

/// What a pixel of an image holds.
#[derive(Clone, Copy, Debug, PartialEq, Eq)]
pub struct Texel {
    /// Its colour: `None` if the image holds opacities alone.
    pub color: Option<Rgb565>,
    /// Its opacity: 255 if the image holds colours alone.
    pub alpha: u8,
}
