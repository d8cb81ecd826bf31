//! The lines of a script that make a font.
ghost use Rattle.std.specs.Prelude.{◌≡◌, ◌++◌, ◌∷◌, [], OnOk, IfOk, decimal, map};
ghost use Rattle.std.specs.Fmt.{signed_decimal};
ghost use Rattle.line_texts.specs.LineTexts.{ended_lines, spaced, digits_word};
ghost use Rattle.bdf_font.specs.Reading.{kept, glyph_lines};
ghost use Rattle.bdf_font.specs.Texts.{font_lines, font_line, last_lines, end_line, left_line, glyph_text, advance_in, font_height};

use crate::characters::Extents;
use crate::glyphs::Kept;
use crate::reader::Reader;
use gui_base::NoMemory;
use line_texts::{push, push_count, push_integer, push_word};
use std::alloc::Global;
use text_defs::GlyphBox;

/// The text that makes a font of this number.
pub(crate) fn text_of(alloc: Global, number: u8, font: &Reader) -> Result<Vec<u8>, NoMemory>
    ensures { IfOk result (λ text. text.items ≡ ended_lines (font_lines number font.now)) }
{
    text_by(alloc, number, font.bounds, font.glyphs.all(), font.left_out)
}

fn text_by(
    alloc: Global,
    number: u8,
    bounds: Option<Extents>,
    glyphs: &[Kept],
    left_out: u32,
) -> Result<Vec<u8>, NoMemory>
    ensures { IfOk result (λ text. text.items ≡ ended_lines (font_line number bounds
        ∷ map (glyph_text number) (map kept glyphs.now) ++ last_lines number left_out)) }
{
    let mut text = Vec::new(alloc);
    push_font(&mut text, number, bounds)?;
    push_glyphs(&mut text, number, glyphs)?;
    push_end(&mut text, number)?;
    push_left(&mut text, left_out)?;
    Ok(text)
}

fn push_glyphs(text: &mut Vec<u8>, number: u8, glyphs: &[Kept]) -> Result<(), NoMemory>
    ensures { OnOk result (text.new.items ≡ text.old.items ++ glyph_lines number glyphs.now) }
{
    for glyph in glyphs {
        push_glyph(text, number, glyph)?;
    }
    Ok(())
}

#[tactic(auto, unfolding(crate::specs::Texts::font_line))]
fn push_font(text: &mut Vec<u8>, number: u8, bounds: Option<Extents>) -> Result<(), NoMemory>
    ensures { OnOk result (text.new.items ≡ text.old.items ++ font_line number bounds ++ 10 ∷ []) }
{
    push(text, b"font")?;
    push_count(text, number as u32)?;
    push_count(text, font_height(bounds))?;
    push_count(text, advance_in(bounds))?;
    push(text, b"\n")
}

fn font_height(bounds: Option<Extents>) -> u32
    ensures { result ≡ font_height bounds }
{
    match bounds {
        None => 0,
        Some(e) => e.h.unsigned_abs(),
    }
}

/// A width as an advance: brought into 0 to 64.
fn advance_in(bounds: Option<Extents>) -> u32
    ensures { result ≡ advance_in bounds }
{
    match bounds {
        None => 0,
        Some(e) => {
            if e.w <= 0 {
                0
            } else if 64 <= e.w {
                64
            } else {
                e.w.unsigned_abs()
            }
        }
    }
}

#[tactic(auto, unfolding(crate::specs::Texts::glyph_text))]
fn push_glyph(text: &mut Vec<u8>, number: u8, glyph: &Kept) -> Result<(), NoMemory>
    ensures { OnOk result (text.new.items ≡ text.old.items ++ glyph_text number (kept glyph.now) ++ 10 ∷ []) }
{
    push(text, b"glyph")?;
    push_count(text, number as u32)?;
    push_count(text, glyph.code)?;
    push_shape(text, glyph.shape)?;
    push_digits(text, &glyph.digits)?;
    push(text, b"\n")
}

fn push_shape(text: &mut Vec<u8>, shape: GlyphBox) -> Result<(), NoMemory>
    ensures { OnOk result (text.new.items ≡ text.old.items ++ spaced (decimal shape.advance ∷ decimal shape.w
        ∷ decimal shape.h ∷ signed_decimal shape.ox ∷ signed_decimal shape.oy ∷ [])) }
{
    push_size(text, shape)?;
    push_place(text, shape)
}

fn push_place(text: &mut Vec<u8>, shape: GlyphBox) -> Result<(), NoMemory>
    ensures { OnOk result (text.new.items
        ≡ text.old.items ++ spaced (signed_decimal shape.ox ∷ signed_decimal shape.oy ∷ [])) }
{
    push_integer(text, i32::from(shape.ox))?;
    push_integer(text, i32::from(shape.oy))
}

fn push_size(text: &mut Vec<u8>, shape: GlyphBox) -> Result<(), NoMemory>
    ensures { OnOk result (text.new.items ≡ text.old.items ++ spaced (decimal shape.advance ∷ decimal shape.w
        ∷ decimal shape.h ∷ [])) }
{
    push_count(text, shape.advance as u32)?;
    push_count(text, shape.w as u32)?;
    push_count(text, shape.h as u32)
}

/// Adds hexadecimal digits as a word: a dash for none.
fn push_digits(text: &mut Vec<u8>, digits: &[u8]) -> Result<(), NoMemory>
    ensures { OnOk result (text.new.items ≡ text.old.items ++ 32 ∷ digits_word digits.now) }
{
    if digits.is_empty() {
        return push_word(text, b"-");
    }
    push_word(text, digits)
}

#[tactic(auto, unfolding(crate::specs::Texts::end_line))]
fn push_end(text: &mut Vec<u8>, number: u8) -> Result<(), NoMemory>
    ensures { OnOk result (text.new.items ≡ text.old.items ++ end_line number ++ 10 ∷ []) }
{
    push(text, b"endfont")?;
    push_count(text, number as u32)?;
    push(text, b"\n")
}

#[tactic(auto, unfolding(crate::specs::Texts::left_line))]
fn push_left(text: &mut Vec<u8>, left_out: u32) -> Result<(), NoMemory>
    ensures { OnOk result (text.new.items ≡ text.old.items ++ left_line left_out ++ 10 ∷ []) }
{
    push(text, b"# left out")?;
    push_count(text, left_out)?;
    push(text, b"\n")
}
