//! The sizes of a panel and of the pools, as the words of the command line ask for them.
ghost use Rattle.std.specs.Prelude.{◌≡◌, ◌≤◌};
ghost use Rattle.gui_base.specs.Limits.{IsPanel, HaveBlocks, AreScenePools, AreMediaPools, AreEventPools};
ghost use Rattle.gui_base.specs.Limits.{IsMade};

use crate::rounding::Block;

/// The pools of counted slots.
#[derive(Clone, Copy, Debug, PartialEq, Eq)]
pub enum Pool {
    /// Objects, the three roots among them.
    Objects,
    /// Shared styles.
    Styles,
    /// Properties set in a style or locally.
    Entries,
    /// Styles added to objects.
    Uses,
    /// Chunks of 28 bytes of text.
    Texts,
    /// Fonts beside the built-in one.
    Fonts,
    /// Glyphs.
    Glyphs,
    /// Bytes of glyph bits.
    Ink,
    /// Images.
    Images,
    /// Bytes of images.
    Pixels,
    /// Event handlers.
    Handlers,
    /// Focus groups.
    Groups,
    /// Animations.
    Anims,
}

/// The panel's sizes in pixels, the lines of the draw buffer, the blocks that the panel takes, the slots of
/// each pool, and which made script is run, if any. Each number lies within its range: the sizes from 1 to
/// 1024, the lines from 1 to the height, the slots of each pool in the range that [`Pool::range`] gives. The
/// panel and its draw buffer consist of whole blocks: the width is a multiple of the block's width, and the
/// height and the lines are multiples of its height.
#[derive(Clone, Copy, Debug)]
pub struct Limits {
    pub width: u32,
    pub height: u32,
    pub lines: u32,
    pub block: Block,
    pub objects: u32,
    pub styles: u32,
    pub entries: u32,
    pub uses: u32,
    pub texts: u32,
    pub fonts: u32,
    pub glyphs: u32,
    pub ink: u32,
    pub images: u32,
    pub pixels: u32,
    pub handlers: u32,
    pub groups: u32,
    pub anims: u32,
    pub make: Option<u16>,
    ghost panel: { IsPanel width height lines },
    ghost blocks: { HaveBlocks width height lines block.w block.h },
    ghost scene: { AreScenePools objects styles entries uses },
    ghost media: { AreMediaPools texts fonts glyphs ink images pixels },
    ghost events: { AreEventPools handlers groups anims },
    ghost made: { IsMade make },
}

impl Limits {
    ghost use Rattle.gui_base.specs.Gridded.{size_in};
    ghost use Rattle.gui_base.specs.Limits.{with_sizes, with_block, slots, with_slots};
    ghost use Rattle.gui_base.specs.Pools.{least, most};
    ghost use Rattle.gui_base.specs.Bounded.{bounds_of};

    /// These sizes, blocks of a single pixel, each pool with its default, and no made script.
    pub fn with_sizes(width: u32, height: u32, lines: u32) -> Limits
        requires { IsPanel width height lines }
        ensures { bounds_of result ≡ with_sizes width height lines }
    {
        let block = Block { w: 1, h: 1 };
        Limits {
            width,
            height,
            lines,
            block,
            objects: Pool::Objects.default_slots(),
            styles: Pool::Styles.default_slots(),
            entries: Pool::Entries.default_slots(),
            uses: Pool::Uses.default_slots(),
            texts: Pool::Texts.default_slots(),
            fonts: Pool::Fonts.default_slots(),
            glyphs: Pool::Glyphs.default_slots(),
            ink: Pool::Ink.default_slots(),
            images: Pool::Images.default_slots(),
            pixels: Pool::Pixels.default_slots(),
            handlers: Pool::Handlers.default_slots(),
            groups: Pool::Groups.default_slots(),
            anims: Pool::Anims.default_slots(),
            make: None,
        }
    }

    /// Sets the blocks that the panel takes. The panel and the draw buffer consist of whole blocks.
    pub fn set_block(&mut self, block: Block)
        requires { HaveBlocks self.old.width self.old.height self.old.lines block.w block.h }
        ensures { bounds_of self.new ≡ with_block (bounds_of self.old) (size_in block) }
    {
        self.block = block;
    }

    /// The slots of a pool.
    pub fn slots(&self, pool: Pool) -> u32
        ensures { result ≡ slots (bounds_of self.now) pool }
    {
        match pool {
            Pool::Objects => self.objects,
            Pool::Styles => self.styles,
            Pool::Entries => self.entries,
            Pool::Uses => self.uses,
            Pool::Texts => self.texts,
            Pool::Fonts => self.fonts,
            Pool::Glyphs => self.glyphs,
            Pool::Ink => self.ink,
            Pool::Images => self.images,
            Pool::Pixels => self.pixels,
            Pool::Handlers => self.handlers,
            Pool::Groups => self.groups,
            Pool::Anims => self.anims,
        }
    }

    /// Sets the slots of a pool to a number in its range.
    pub fn set_slots(&mut self, pool: Pool, count: u32)
        requires least { least pool ≤ count }
        requires most { count ≤ most pool }
        ensures { bounds_of self.new ≡ with_slots pool (bounds_of self.old) count }
    {
        match pool {
            Pool::Objects => self.objects = count,
            Pool::Styles => self.styles = count,
            Pool::Entries => self.entries = count,
            Pool::Uses => self.uses = count,
            Pool::Texts => self.texts = count,
            Pool::Fonts => self.fonts = count,
            Pool::Glyphs => self.glyphs = count,
            Pool::Ink => self.ink = count,
            Pool::Images => self.images = count,
            Pool::Pixels => self.pixels = count,
            Pool::Handlers => self.handlers = count,
            Pool::Groups => self.groups = count,
            Pool::Anims => self.anims = count,
        }
    }
}
