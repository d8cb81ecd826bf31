//! How far a font is read, line by line.
ghost use Rattle.bdf_font.specs.Bdf.{nothing_read, keyword_of, head_line, char_line, row_line, end_line};
ghost use Rattle.bdf_font.specs.Bdf.{start_line, properties_line, between_line, keyword_line, after_line, begun};
ghost use Rattle.bdf_font.specs.Bdf.{that, is_font_box, is_char_box, extents_of, with_glyph, with_kept, character_of};
ghost use Rattle.bdf_font.specs.Lines.{file_words};
ghost use Rattle.bdf_font.specs.Reading.{going};
ghost use Rattle.std.specs.Prelude.{◌≡◌, ◌<◌, ◌≤◌, ◌+◌, ◌^◌, IfOk, OnOk, IfSome};

use crate::characters::{Character, Extents, glyph_of};
use crate::glyphs::{Glyphs, Kept};
use crate::integers::{MOST_NUMBER, extents, first_integer};
use crate::keywords::{KEYWORDS, Keyword, Phase};
use crate::lines::{next_word, trimmed};
use crate::rows::{is_row, push_upper, row_digits};
use gui_base::{NoMemory, named};
use std::alloc::Global;
use std::marker::Model;
use text_defs::GlyphBox;

/// What the code of a character is at most.
const MOST_CODE: i32 = 2_147_483_647;

/// How far a font is read.
#[derive(Drop)]
pub(crate) struct Reader {
    pub(crate) phase: Phase,
    pub(crate) bounds: Option<Extents>,
    // Of the character that is read: its code, its advance and its box, if they were given, and the digits of
    // its rows so far.
    code: Option<i32>,
    advance: Option<i32>,
    shape: Option<Extents>,
    digits: Vec<u8>,
    pub(crate) glyphs: Glyphs,
    pub(crate) left_out: u32,
    alloc: Global,
}

impl Model for Reader {
    ghost use Rattle.bdf_font.specs.Bdf.{Font};

    ghost Value = { Font };

    ghost view = { λ r. record {
      phase = r.phase;
      bounds = r.bounds;
      code = r.code;
      advance = r.advance;
      shape = r.shape;
      digits = r.digits.items;
      glyphs = r.glyphs;
      left_out = r.left_out;
    } };
}

impl Reader {
    /// Nothing is read yet.
    pub(crate) fn new(alloc: Global) -> Result<Reader, NoMemory>
        ensures { IfOk result (λ reader. reader ≡ nothing_read) }
    {
        let glyphs = Glyphs::new(alloc)?;
        Ok(Reader {
            phase: Phase::Start,
            bounds: None,
            code: None,
            advance: None,
            shape: None,
            digits: Vec::new(alloc),
            glyphs,
            left_out: 0,
            alloc,
        })
    }

    /// A line more: whether a font may begin so. It is of no use after a line at which none does.
    #[tactic(auto, unfolding(crate::specs::Bdf::after_line, crate::specs::Bdf::keyword_of))]
    pub(crate) fn line(&mut self, line: &[u8]) -> Result<bool, NoMemory>
        requires { self.old.left_out + 1 < 2 ^ 32 }
        ensures line { IfOk result (λ goes. going goes self.new ≡ after_line self.old line.now) }
        ensures few { self.new.left_out ≤ self.old.left_out + 1 }
    {
        let line = trimmed(line);
        match next_word(line) {
            None => Ok(true),
            Some((name, words)) => self.named_line(named(&KEYWORDS, name), words, line),
        }
    }

    /// A line whose first word is known: these words follow it.
    fn named_line(
        &mut self,
        keyword: Option<Keyword>,
        words: &[u8],
        line: &[u8],
    ) -> Result<bool, NoMemory>
        requires { self.old.left_out + 1 < 2 ^ 32 }
        ensures line { IfOk result
            (λ goes. going goes self.new ≡ keyword_line self.old keyword (file_words words.now) line.now) }
        ensures few { self.new.left_out ≤ self.old.left_out + 1 }
    {
        if let Some(Keyword::Comment) = keyword {
            return Ok(true);
        }
        match self.phase {
            Phase::Start => Ok(self.start_line(keyword)),
            Phase::Head => Ok(self.head_line(keyword, words)),
            Phase::Properties => Ok(self.properties_line(keyword)),
            Phase::Char => Ok(self.char_line(keyword, words)),
            Phase::Rows(0) => self.end_line(keyword),
            Phase::Rows(left) => self.row_line(left - 1, line),
            Phase::Between => Ok(self.between_line(keyword)),
            Phase::Ended => Ok(true),
        }
    }

    /// The first line.
    fn start_line(&mut self, keyword: Option<Keyword>) -> bool
        ensures line { going result self.new ≡ start_line self.old keyword }
        ensures few { self.new.left_out ≡ self.old.left_out }
    {
        let starts = matches!(keyword, Some(Keyword::StartFont));
        self.phase = Phase::Head;
        starts
    }

    /// A line among the properties of the head.
    fn properties_line(&mut self, keyword: Option<Keyword>) -> bool
        ensures line { going result self.new ≡ properties_line self.old keyword }
        ensures few { self.new.left_out ≡ self.old.left_out }
    {
        if let Some(Keyword::EndProperties) = keyword {
            self.phase = Phase::Head;
        }
        true
    }

    /// A line after a character.
    fn between_line(&mut self, keyword: Option<Keyword>) -> bool
        ensures line { going result self.new ≡ between_line self.old keyword }
        ensures few { self.new.left_out ≡ self.old.left_out }
    {
        match keyword {
            Some(Keyword::StartChar) => self.begin(),
            Some(Keyword::EndFont) => self.phase = Phase::Ended,
            _ => {}
        }
        true
    }

    /// A character begins.
    fn begin(&mut self)
        ensures { self.new ≡ begun self.old }
    {
        self.phase = Phase::Char;
        self.code = None;
        self.advance = None;
        self.shape = None;
        self.digits.clear();
    }

    /// A line before the first character.
    fn head_line(&mut self, keyword: Option<Keyword>, words: &[u8]) -> bool
        ensures line { going result self.new ≡ head_line self.old keyword (file_words words.now) }
        ensures few { self.new.left_out ≡ self.old.left_out }
    {
        match keyword {
            Some(Keyword::FontBoundingBox) => {
                self.bounds = font_box(words);
                self.bounds.is_some()
            }
            Some(Keyword::StartProperties) => {
                self.phase = Phase::Properties;
                true
            }
            Some(Keyword::StartChar) => {
                self.begin();
                self.bounds.is_some()
            }
            Some(Keyword::EndFont) => {
                self.phase = Phase::Ended;
                self.bounds.is_some()
            }
            _ => true,
        }
    }

    /// A line of a character before its rows.
    fn char_line(&mut self, keyword: Option<Keyword>, words: &[u8]) -> bool
        ensures line { going result self.new ≡ char_line self.old keyword (file_words words.now) }
        ensures few { self.new.left_out ≡ self.old.left_out }
    {
        match keyword {
            Some(Keyword::Encoding) => {
                self.code = first_integer(words, MOST_CODE);
                self.code.is_some()
            }
            Some(Keyword::DWidth) => {
                self.advance = first_integer(words, MOST_NUMBER);
                self.advance.is_some()
            }
            Some(Keyword::BBox) => {
                self.shape = char_box(words);
                self.shape.is_some()
            }
            Some(Keyword::Bitmap) => match (self.code, self.shape) {
                (Some(_), Some(e)) => {
                    self.phase = Phase::Rows(e.h.unsigned_abs());
                    true
                }
                _ => false,
            },
            _ => true,
        }
    }

    /// A row of a character, with so many rows to come after it.
    fn row_line(&mut self, others: u32, line: &[u8]) -> Result<bool, NoMemory>
        ensures line { IfOk result (λ goes. going goes self.new ≡ row_line self.old others line.now) }
        ensures few { self.new.left_out ≡ self.old.left_out }
    {
        let width = match self.shape {
            Some(e) => e.w.unsigned_abs(),
            None => 0,
        };
        if !is_row(line, width) {
            return Ok(false);
        }
        push_upper(&mut self.digits, line.split_at(row_digits(width)).0)?;
        self.phase = Phase::Rows(others);
        Ok(true)
    }

    /// A line after the rows of a character, which is kept as a glyph or left out.
    fn end_line(&mut self, keyword: Option<Keyword>) -> Result<bool, NoMemory>
        requires { self.old.left_out + 1 < 2 ^ 32 }
        ensures line { IfOk result (λ goes. going goes self.new ≡ end_line self.old keyword) }
        ensures few { self.new.left_out ≤ self.old.left_out + 1 }
    {
        let Some(Keyword::EndChar) = keyword else {
            return Ok(false);
        };
        let Some(character) = self.character() else {
            return Ok(false);
        };
        self.add(glyph_of(&character))?;
        Ok(true)
    }

    /// The character that is read, if the font has a box and the character its code and its box.
    fn character(&self) -> Option<Character>
        ensures { result ≡ character_of self.now }
    {
        let bounds = self.bounds?;
        let code = self.code?;
        let shape = self.shape?;
        let advance = match self.advance {
            Some(advance) => advance,
            None => bounds.w,
        };
        Some(Character {
            bounds,
            code,
            advance,
            shape,
        })
    }

    /// Keeps a glyph, unless one that is kept has its code, or leaves a character out.
    fn add(&mut self, glyph: Option<(u32, GlyphBox)>) -> Result<(), NoMemory>
        requires room { self.old.left_out + 1 < 2 ^ 32 }
        requires code { IfSome glyph (λ t. t.0 < 1114112) }
        ensures character { OnOk result (self.new ≡ with_glyph self.old glyph) }
        ensures few { self.new.left_out ≤ self.old.left_out + 1 }
    {
        self.phase = Phase::Between;
        match glyph {
            Some((code, shape)) if !self.glyphs.has(code) => self.keep(code, shape),
            _ => {
                self.left_out += 1;
                Ok(())
            }
        }
    }

    /// Keeps a glyph.
    fn keep(&mut self, code: u32, shape: GlyphBox) -> Result<(), NoMemory>
        requires { code < 1114112 }
        ensures kept { OnOk result (self.new ≡ with_kept self.old code shape) }
        ensures few { self.new.left_out ≡ self.old.left_out }
    {
        self.phase = Phase::Between;
        let digits = std::mem::replace(&mut self.digits, Vec::new(self.alloc));
        self.glyphs.push(Kept {
            code,
            shape,
            digits,
        })
    }
}

/// The box of a font: its height is from 1 to 64.
fn font_box(words: &[u8]) -> Option<Extents>
    ensures { result ≡ that is_font_box (extents_of (file_words words.now)) }
{
    let e = extents(words)?;
    if 1 <= e.h && e.h <= 64 { Some(e) } else { None }
}

/// The box of a character: neither its width nor its height is below 0.
fn char_box(words: &[u8]) -> Option<Extents>
    ensures { result ≡ that is_char_box (extents_of (file_words words.now)) }
{
    let e = extents(words)?;
    if 0 <= e.w && 0 <= e.h { Some(e) } else { None }
}
