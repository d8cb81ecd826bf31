//! The glyphs of a font.
ghost use Rattle.std.specs.Prelude.{◌≡◌, ◌<◌, ◌++◌, ◌∷◌, [], IfOk, OnOk, map};
ghost use Rattle.bdf_font.specs.Bdf.{has_code};
ghost use Rattle.bdf_font.specs.Reading.{kept};

use crate::codes::Codes;
use gui_base::NoMemory;
use std::alloc::Global;
use std::marker::Model;
use text_defs::GlyphBox;

/// A glyph that is kept.
#[derive(Drop)]
pub(crate) struct Kept {
    pub(crate) code: u32,
    pub(crate) shape: GlyphBox,
    pub(crate) digits: Vec<u8>,
}

/// The glyphs that are kept, in order, and the set of their codes.
#[derive(Drop)]
pub(crate) struct Glyphs {
    all: Vec<Kept>,
    codes: Codes,
}

impl Model for Glyphs {
    ghost use Rattle.std.specs.Prelude.{◌≡◌, ℕ, List, map};
    ghost use Rattle.bdf_font.specs.Bdf.{Glyph, has_code};
    ghost use Rattle.bdf_font.specs.Codes.{is_in};
    ghost use Rattle.bdf_font.specs.Reading.{kept};

    ghost Value = { List Glyph };

    ghost view = { λ g. map kept g.all.items };

    ghost invariant = { λ g. (k : ℕ) → is_in g.codes k ≡ has_code (map kept g.all.items) k };
}

impl Glyphs {
    /// None is kept yet.
    pub(crate) fn new(alloc: Global) -> Result<Glyphs, NoMemory>
        ensures { IfOk result (λ glyphs. glyphs ≡ []) }
    {
        let codes = Codes::new(alloc)?;
        Ok(Glyphs {
            all: Vec::new(alloc),
            codes,
        })
    }

    /// Whether one of them has this code. It takes no time by their number.
    pub(crate) fn has(&self, code: u32) -> bool
        requires { code < 1114112 }
        ensures { result ≡ has_code self.now code }
    {
        self.codes.has(code)
    }

    /// Keeps one more.
    pub(crate) fn push(&mut self, glyph: Kept) -> Result<(), NoMemory>
        requires { glyph.code < 1114112 }
        ensures { OnOk result (self.new ≡ self.old ++ kept glyph ∷ []) }
    {
        let code = glyph.code;
        match self.all.push(glyph) {
            Ok(()) => {
                self.codes.put(code);
                Ok(())
            }
            Err(_) => Err(NoMemory),
        }
    }

    /// All of them.
    pub(crate) fn all(&self) -> &[Kept]
        ensures { map kept result.now ≡ self.now }
    {
        &self.all
    }
}
