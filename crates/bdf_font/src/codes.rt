//! Sets of codes of characters.
ghost use Rattle.bdf_font.specs.Codes.{is_in};
ghost use Rattle.std.specs.Prelude.{◌≡◌, ◌<◌, ℕ, ◌||◌, ◌==◌, false, IfOk};

use gui_base::{Bits, NoMemory};
use std::alloc::Global;
use std::marker::Model;

/// How many blocks of sixteen bits hold a bit for each code of a character.
const BLOCKS: usize = 69_632;

/// A set of codes, which has a bit for each code below 1,114,112.
#[derive(Drop)]
pub(crate) struct Codes {
    blocks: Vec<Bits>,
}

impl Model for Codes {
    ghost use Rattle.std.specs.Prelude.{◌≡◌, List, length};
    ghost use Rattle.gui_base.specs.declared.bits.Bits.{Bits};

    ghost Value = { List Bits };

    ghost view = { λ s. s.blocks.items };

    ghost invariant = { λ s. length s.blocks.items ≡ 69632 };
}

impl Codes {
    /// No code is in it.
    pub(crate) fn new(alloc: Global) -> Result<Codes, NoMemory>
        ensures { IfOk result (λ codes. (k : ℕ) → is_in codes k ≡ false) }
    {
        let mut blocks = Vec::new(alloc);
        match blocks.resize(BLOCKS, Bits(0)) {
            Ok(()) => Ok(Codes { blocks }),
            Err(_) => Err(NoMemory),
        }
    }

    /// Whether a code is in it.
    pub(crate) fn has(&self, code: u32) -> bool
        requires { code < 1114112 }
        ensures { result ≡ is_in self.now code }
    {
        self.blocks[code as usize / 16].has((code % 16) as u8)
    }

    /// Puts a code in.
    pub(crate) fn put(&mut self, code: u32)
        requires { code < 1114112 }
        ensures { (k : ℕ) → is_in self.new k ≡ (k == code || is_in self.old k) }
    {
        let block = code as usize / 16;
        self.blocks[block] = self.blocks[block].with((code % 16) as u8, true);
    }
}
