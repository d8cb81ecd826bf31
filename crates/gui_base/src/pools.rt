//! The name and the sizes of each pool. They stand here alone: code, definitions and proofs cite them.
ghost use Rattle.std.specs.Prelude.{◌≡◌, ◌≤◌, length};
ghost use Rattle.gui_base.specs.Pools.{pool_name, least, most, default};

use crate::limits::Pool;

/// A pool's name in words and replies, the fewest and the most slots that it may have, and how many it has if
/// no word asks.
type PoolRow = (&'static str, u32, u32, u32);

pub const OBJECTS: PoolRow = ("objects", 3, 4000, 256);

pub const STYLES: PoolRow = ("styles", 0, 999, 64);

pub const ENTRIES: PoolRow = ("entries", 0, 20_000, 1024);

pub const USES: PoolRow = ("uses", 0, 20_000, 512);

pub const TEXTS: PoolRow = ("texts", 0, 20_000, 1024);

pub const FONTS: PoolRow = ("fonts", 0, 99, 4);

pub const GLYPHS: PoolRow = ("glyphs", 0, 5000, 512);

pub const INK: PoolRow = ("ink", 0, 262_144, 16_384);

pub const IMAGES: PoolRow = ("images", 0, 999, 16);

pub const PIXELS: PoolRow = ("pixels", 0, 4_194_304, 65_536);

pub const HANDLERS: PoolRow = ("handlers", 0, 4000, 256);

pub const GROUPS: PoolRow = ("groups", 0, 99, 8);

pub const ANIMS: PoolRow = ("anims", 0, 1000, 32);

/// Every pool, in the order in which the words of the command line are read.
pub const POOLS: [Pool; 13] = [
    Pool::Objects,
    Pool::Styles,
    Pool::Entries,
    Pool::Uses,
    Pool::Texts,
    Pool::Fonts,
    Pool::Glyphs,
    Pool::Ink,
    Pool::Images,
    Pool::Pixels,
    Pool::Handlers,
    Pool::Groups,
    Pool::Anims,
];

impl Pool {
    /// Its name in words and replies.
    pub fn name(self) -> &'static str
        ensures name { result.now ≡ pool_name self }
        ensures short { length result.now ≤ 8 }
    {
        self.row().0
    }

    /// The fewest and the most slots that it may have.
    pub fn range(self) -> (u32, u32)
        ensures least { result.0 ≡ least self }
        ensures most { result.1 ≡ most self }
    {
        let (_, least, most, _) = self.row();
        (least, most)
    }

    /// How many slots it has if no word asks for others.
    pub fn default_slots(self) -> u32
        ensures { result ≡ default self }
    {
        self.row().3
    }

    fn row(self) -> PoolRow
        ensures name { result.0.now ≡ pool_name self }
        ensures short { length result.0.now ≤ 8 }
        ensures least { result.1 ≡ least self }
        ensures most { result.2 ≡ most self }
        ensures default { result.3 ≡ default self }
    {
        match self {
            Pool::Objects => OBJECTS,
            Pool::Styles => STYLES,
            Pool::Entries => ENTRIES,
            Pool::Uses => USES,
            Pool::Texts => TEXTS,
            Pool::Fonts => FONTS,
            Pool::Glyphs => GLYPHS,
            Pool::Ink => INK,
            Pool::Images => IMAGES,
            Pool::Pixels => PIXELS,
            Pool::Handlers => HANDLERS,
            Pool::Groups => GROUPS,
            Pool::Anims => ANIMS,
        }
    }
}
