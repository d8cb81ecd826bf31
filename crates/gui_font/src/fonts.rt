//! Fonts.
ghost use Rattle.std.specs.Prelude.{◌≡◌, ◌≢◌, true, false, ℕ, MatchOption, IfOk, IfSome, ◌+◌, ◌≤◌, ◌<◌, ◌++◌};
ghost use Rattle.std.specs.Prelude.{List, length, map, option_map, OnOk, OnErr, vec_len, vec_capacity};
ghost use Rattle.text_defs.specs.Building.{is_finished};
ghost use Rattle.text_defs.specs.Fonts.{Glyph, has_font, has_glyph, finished, font_of, glyph_of, glyph_bytes};
ghost use Rattle.text_defs.specs.BuiltIn.{built_in};
ghost use Rattle.gui_font.specs.Cells.{IsCell, IsEmptyCell};
ghost use Rattle.gui_font.specs.Sets.{face_in, no_fonts, begin_answer, with_font, glyph_answer, with_glyph};
ghost use Rattle.gui_font.specs.Sets.{finish_answer, with_finished};
ghost use Rattle.gui_font.specs.Views.{font_in, glyph_in, glyphs_in, key_of, marked, IsIndex, IsMember};
ghost use Rattle.gui_font.specs.declared.fonts.GlyphSlot.{GlyphSlot};

use gui_base::{NoMemory, Pool, Refusal};
use gui_pool::Table;
use std::alloc::Global;
use std::marker::Model;
use text_defs::GlyphBox;
use text_defs::built_in::{ADVANCE, HEIGHT};

/// How far the keys of a font's characters stand from those of the font before it.
///
/// A key's low bits name its bucket. Two fonts lie farther apart than there are characters, and so far that the
/// letters of one font have other buckets than those of the next.
const FONT_STEP: u32 = 0x11_0000 + 97;

/// How many keys there are: so many for each number that a font can have.
const KEYS: u32 = 256 * FONT_STEP;

/// Fonts beside the built-in one, with their glyphs and the bits of these.
///
/// A contract sees the fonts in order of adding, each with its glyphs in order of adding, and how many more
/// fonts, glyphs and bytes of bits fit. Font 0 is the built-in one: it is always there, and finished. A font
/// that is not there counts as the built-in one if a text is set in it.
///
/// A font takes 4 bytes, a glyph 44 to 48, and its bits a byte for each byte.
pub struct Fonts {
    fonts: Vec<FontSlot>,
    // The place of each glyph among the glyphs, by its key.
    index: Table<u32>,
    glyphs: Vec<GlyphSlot>,
    // The bits of the glyphs, one glyph after the other.
    ink: Vec<u8>,
}

impl Drop for Fonts {
    /// Lets go of every field in one call, which keeps the proofs of its owners short.
    fn drop(self) {
        let Fonts {
            fonts: _,
            index: _,
            glyphs: _,
            ink: _,
        } = self;
    }
}

impl Model for Fonts {
    ghost use Rattle.std.specs.Prelude.{◌-◌, map, vec_len, vec_capacity};
    ghost use Rattle.gui_font.specs.Sets.{FontSet};
    ghost use Rattle.gui_font.specs.Views.{font_in, AreKept};

    ghost Value = { FontSet };

    ghost view = { λ f. record {
      fonts = map (font_in f.glyphs.items f.ink.items) f.fonts.items;
      spare_fonts = vec_capacity f.fonts - vec_len f.fonts;
      spare_glyphs = f.index.spare;
      spare_ink = vec_capacity f.ink - vec_len f.ink;
    } };

    ghost invariant = { λ f. AreKept f.fonts.items f.index f.glyphs.items f.ink.items
        (vec_capacity f.glyphs) };
}

/// A glyph's box, and its bits row by row, each row in whole bytes.
#[derive(Clone, Copy)]
pub struct Bits<'a> {
    pub shape: GlyphBox,
    pub rows: &'a [u8],
}

#[derive(Clone, Copy)]
pub(crate) struct FontSlot {
    pub(crate) name: u8,
    pub(crate) height: u8,
    pub(crate) advance: u8,
    pub(crate) finished: bool,
}

#[derive(Clone, Copy)]
pub(crate) struct GlyphSlot {
    pub(crate) font: u8,
    pub(crate) code: char,
    pub(crate) shape: GlyphBox,
    /// Where its bits begin.
    pub(crate) ink: usize,
}

impl Fonts {
    /// No font yet beside the built-in one, and room for so many fonts, glyphs and bytes of their bits.
    /// `NoMemory` if there is no memory for them. No later call takes memory.
    pub fn with_capacity(
        alloc: Global,
        fonts: u32,
        glyphs: u32,
        ink: u32,
    ) -> Result<Fonts, NoMemory>
        ensures { IfOk result (λ set. set ≡ no_fonts fonts glyphs ink) }
    {
        let Ok(index) = Table::open(alloc, KEYS, glyphs) else {
            return Err(NoMemory);
        };
        let fonts = Vec::with_capacity(alloc, fonts as usize).map_err(|_| NoMemory)?;
        let glyphs = Vec::with_capacity(alloc, glyphs as usize).map_err(|_| NoMemory)?;
        let ink = Vec::with_capacity(alloc, ink as usize).map_err(|_| NoMemory)?;
        Ok(Fonts {
            fonts,
            index,
            glyphs,
            ink,
        })
    }

    /// Begins a font of this number. Its lines are `height` pixels high, from 1 to 64. The next character
    /// stands `advance` pixels, from 0 to 64, from one without a glyph.
    ///
    /// # Errors
    ///
    /// `Taken` if the font is there, and then `Full` of fonts if no more fonts fit. All is then as before.
    pub fn begin(&mut self, id: u8, height: u8, advance: u8) -> Result<(), Refusal>
        ensures answer { result ≡ begin_answer self.old id }
        ensures ok { OnOk result (self.new ≡ with_font self.old id height advance) }
        ensures refused { OnErr result (self.new ≡ self.old) }
    {
        if self.has_font(id) {
            return Err(Refusal::Taken);
        }
        if self.spare_fonts() == 0 {
            return Err(Refusal::Full(Pool::Fonts));
        }
        self.put_font(id, height, advance);
        Ok(())
    }

    /// Gives a font a glyph: its character, its box, and its bits row by row from the top. A row has whole
    /// bytes, and their highest bit is the first. Bits beyond the box are not used.
    ///
    /// # Errors
    ///
    /// The first that applies: `Unknown` if there is no such font, `Taken` if it has a glyph of this character,
    /// `Place` if it is finished or `rows` has not `h * ceil(w / 8)` bytes. Then `Full` of glyphs if no more
    /// glyphs fit, and `Full` of ink if the bytes do not fit. All is then as before.
    pub fn glyph(&mut self, id: u8, code: char, shape: GlyphBox, rows: &[u8]) -> Result<(), Refusal>
        ensures answer { result ≡ glyph_answer self.old id
            (record { code = code; shape = shape; rows = rows.now }) }
        ensures ok { OnOk result (self.new ≡ with_glyph self.old id
            (record { code = code; shape = shape; rows = rows.now })) }
        ensures refused { OnErr result (self.new ≡ self.old) }
    {
        if !self.has_font(id) {
            return Err(Refusal::Unknown);
        }
        if self.has_glyph(id, code) {
            return Err(Refusal::Taken);
        }
        if self.is_finished(id) {
            return Err(Refusal::Place);
        }
        if rows.len() != bytes_of(shape) {
            return Err(Refusal::Place);
        }
        if self.spare_glyphs() == 0 {
            return Err(Refusal::Full(Pool::Glyphs));
        }
        if self.spare_ink() < rows.len() {
            return Err(Refusal::Full(Pool::Ink));
        }
        self.put_glyph(id, code, shape, rows);
        Ok(())
    }

    /// Finishes a font: it takes no more glyphs.
    ///
    /// # Errors
    ///
    /// `Unknown` if there is no such font, and `Place` if it is finished. All is then as before.
    pub fn finish(&mut self, id: u8) -> Result<(), Refusal>
        ensures answer { result ≡ finish_answer self.old id }
        ensures ok { OnOk result (self.new ≡ with_finished self.old id) }
        ensures refused { OnErr result (self.new ≡ self.old) }
    {
        match self.finished(id) {
            None => Err(Refusal::Unknown),
            Some(true) => Err(Refusal::Place),
            Some(false) => {
                self.set_finished(id);
                Ok(())
            }
        }
    }

    /// Whether a font is finished: `None` exactly if there is no font of this number.
    pub fn finished(&self, id: u8) -> Option<bool>
        ensures { result ≡ finished self.now.fonts id }
    {
        if id == 0 {
            return Some(true);
        }
        let font = font_at(self.fonts.as_slice(), id)?;
        Some(font.finished)
    }

    /// How many more fonts fit.
    pub fn spare_fonts(&self) -> usize
        ensures { result ≡ self.now.spare_fonts }
    {
        self.fonts.capacity() - self.fonts.len()
    }

    /// How many more glyphs fit.
    pub fn spare_glyphs(&self) -> u32
        ensures { result ≡ self.now.spare_glyphs }
    {
        self.index.spare()
    }

    /// How many more bytes of bits fit.
    pub fn spare_ink(&self) -> usize
        ensures { result ≡ self.now.spare_ink }
    {
        self.ink.capacity() - self.ink.len()
    }

    fn has_font(&self, id: u8) -> bool
        ensures { result ≡ has_font self.now.fonts id }
    {
        id == 0 || font_at(self.fonts.as_slice(), id).is_some()
    }

    /// Whether there is a font of this number beside the built-in one.
    pub(crate) fn is_listed(&self, id: u8) -> bool
        ensures listed { result ≡ true → id ≢ 0 }
        ensures there { result ≡ true → has_font self.now.fonts id ≡ true }
        ensures built_in { result ≡ false → face_in self.now id ≡ built_in }
    {
        id != 0 && self.has_font(id)
    }

    fn is_finished(&self, id: u8) -> bool
        ensures { result ≡ is_finished self.now.fonts id }
    {
        self.finished(id).unwrap_or(false)
    }

    fn has_glyph(&self, id: u8, code: char) -> bool
        requires { has_font self.now.fonts id ≡ true }
        ensures { result ≡ has_glyph self.now.fonts id code }
    {
        if id == 0 {
            return matches!(code, ' '..='~');
        }
        glyph_at(&self.index, self.glyphs.as_slice(), id, code).is_some()
    }

    /// Puts a font behind the others.
    fn put_font(&mut self, id: u8, height: u8, advance: u8)
        requires new { has_font self.old.fonts id ≡ false }
        requires room { 1 ≤ self.old.spare_fonts }
        ensures { self.new ≡ with_font self.old id height advance }
    {
        self.fonts.push_reserved(FontSlot {
            name: id,
            height,
            advance,
            finished: false,
        });
    }

    /// Puts a glyph behind the others.
    fn put_glyph(&mut self, id: u8, code: char, shape: GlyphBox, rows: &[u8])
        requires listed { id ≢ 0 }
        requires there { has_font self.old.fonts id ≡ true }
        requires new { has_glyph self.old.fonts id code ≡ false }
        requires long { length rows.now ≡ glyph_bytes shape }
        requires glyphs { 1 ≤ self.old.spare_glyphs }
        requires ink { length rows.now ≤ self.old.spare_ink }
        ensures { self.new ≡ with_glyph self.old id (record { code = code; shape = shape; rows = rows.now }) }
    {
        let place = self.glyphs.len() as u32;
        let Ok(()) = self.index.insert(key_of(id, code), place) else {
            unreachable!()
        };
        self.glyphs.push_reserved(GlyphSlot {
            font: id,
            code,
            shape,
            ink: self.ink.as_slice().len(),
        });
        append(&mut self.ink, rows);
    }

    /// Marks a font as finished.
    fn set_finished(&mut self, id: u8)
        ensures { self.new ≡ with_finished self.old id }
    {
        mark_finished(self.fonts.as_mut_slice(), id);
    }

    /// The glyph of a character in a font that is not the built-in one, if it has one.
    pub fn bits(&self, font: u8, c: char) -> Option<Bits<'_>>
        requires listed { font ≢ 0 }
        requires there { has_font self.now.fonts font ≡ true }
        ensures { let cell = (face_in self.now font).cell c in
            MatchOption result (IsEmptyCell cell) (λ bits. IsCell cell bits) }
    {
        let glyph = glyph_at(&self.index, self.glyphs.as_slice(), font, c)?;
        let rows = &self.ink.as_slice()[glyph.ink..glyph.ink + bytes_of(glyph.shape)];
        Some(Bits {
            shape: glyph.shape,
            rows,
        })
    }

    /// How far the next character stands from this one, in pixels.
    pub fn advance(&self, font: u8, c: char) -> u8
        ensures { result ≡ ((face_in self.now font).cell c).advance }
    {
        if font == 0 {
            return ADVANCE;
        }
        let Some(slot) = font_at(self.fonts.as_slice(), font) else {
            return ADVANCE;
        };
        match glyph_at(&self.index, self.glyphs.as_slice(), font, c) {
            None => slot.advance,
            Some(glyph) => glyph.shape.advance,
        }
    }

    /// How high a line is, in pixels.
    pub fn height(&self, font: u8) -> u8
        ensures { result ≡ (face_in self.now font).height }
    {
        if font == 0 {
            return HEIGHT;
        }
        match font_at(self.fonts.as_slice(), font) {
            None => HEIGHT,
            Some(slot) => slot.height,
        }
    }
}

/// The font of a number.
fn font_at(fonts: &[FontSlot], name: u8) -> Option<FontSlot>
    ensures { (glyphs : List GlyphSlot) (ink : List ℕ) →
        option_map (font_in glyphs ink) result ≡ font_of (map (font_in glyphs ink) fonts.now) name }
{
    for slot in fonts {
        if slot.name == name {
            return Some(*slot);
        }
    }
    None
}

/// Marks the font of a number as finished.
fn mark_finished(fonts: &mut [FontSlot], name: u8)
    ensures { fonts.new ≡ map (marked name) fonts.old }
{
    for slot in fonts.iter_mut() {
        *slot = marked(*slot, name);
    }
}

/// The slot, finished if it is that of the font.
fn marked(slot: FontSlot, name: u8) -> FontSlot
    ensures { result ≡ marked name slot }
{
    FontSlot {
        finished: slot.finished || slot.name == name,
        ..slot
    }
}

/// The key of a character of a font.
fn key_of(font: u8, code: char) -> u32
    ensures value { result ≡ key_of font code }
    ensures within { result < KEYS }
{
    u32::from(font) * FONT_STEP + u32::from(code)
}

/// The glyph of a character in a font.
fn glyph_at(index: &Table<u32>, glyphs: &[GlyphSlot], font: u8, code: char) -> Option<GlyphSlot>
    requires { IsIndex index.now glyphs.now }
    ensures glyph { (ink : List ℕ) →
        option_map (glyph_in ink) result ≡ glyph_of (glyphs_in glyphs.now ink font) code }
    ensures member { IfSome result (λ g. IsMember g glyphs.now) }
{
    let place = *index.get(key_of(font, code))?;
    Some(glyphs[place as usize])
}

/// How many bytes the bits of a box take.
fn bytes_of(shape: GlyphBox) -> usize
    ensures { result ≡ glyph_bytes shape }
{
    usize::from(shape.h) * ((usize::from(shape.w) + 7) / 8)
}

/// Puts bytes behind others. There is room for them.
fn append(ink: &mut Vec<u8>, rows: &[u8])
    requires { vec_len ink.old + length rows.now ≤ vec_capacity ink.old }
    ensures items { ink.new.items ≡ ink.old.items ++ rows.now }
    ensures len { vec_len ink.new ≡ vec_len ink.old + length rows.now }
    ensures capacity { vec_capacity ink.new ≡ vec_capacity ink.old }
{
    for byte in rows {
        ink.push_reserved(*byte);
    }
}
