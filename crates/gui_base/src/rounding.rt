//! How areas are widened to what a panel takes.
ghost use Rattle.std.specs.Prelude.{◌≡◌, ◌≤◌, ◌≤ℤ◌, true, false, pos};
ghost use Rattle.gui_base.specs.Area.{IsCoordinate, is_empty, is_within, nat_of};
ghost use Rattle.gui_base.specs.Corners.{rect_of};
ghost use Rattle.gui_base.specs.Grids.{HasBlocks, IsBlock, block_end, block_start, blocks_of};
ghost use Rattle.gui_base.specs.Lined.{lines_of};
ghost use Rattle.gui_base.specs.Rounding.{Rounding, IsRounding};

use crate::area::Area;

/// Which areas a panel takes: those that are their own rounding.
pub trait Round: Drop {
    ghost rules: { Self → Rounding };

    /// An area that the panel takes and that holds `area`. This one lies in the panel and is not empty.
    fn round(&self, area: Area) -> Area
        requires { is_within (rules self.now).panel (rect_of area) ≡ true }
        ensures { rect_of result ≡ (rules self.now).round (rect_of area) };

    /// A number of lines, at least 1. An area that the panel takes may be cut at any multiple of it: the panel
    /// takes both parts.
    fn step(&self) -> u32
        ensures { result ≡ (rules self.now).step };

    ghost sound: { (r : Self) → IsRounding (rules r) };
}

/// The size of a block of pixels, such as the eight pixels of a byte: its width in pixels and its height in
/// lines, each from 1 to 16.
#[derive(Clone, Copy, Debug)]
pub struct Block {
    pub w: u32,
    pub h: u32,
    ghost sizes: { IsBlock w h },
}

/// Whole blocks of a panel. Its first pixel stands at 0 0, and it consists of whole blocks.
#[derive(Clone, Copy, Debug)]
pub struct Grid {
    pub block: Block,
    pub panel: Area,
    ghost whole: { HasBlocks block.w block.h (rect_of panel) },
    ghost sound: { IsRounding (blocks_of block.w block.h (rect_of panel)) },
}

impl Grid {
    ghost use Rattle.gui_base.specs.Gridded.{HasPixels};

    /// The blocks of a panel that consists of whole ones.
    pub fn new(block: Block, panel: Area) -> Grid
        requires { HasBlocks block.w block.h (rect_of panel) }
        ensures block { result.block ≡ block }
        ensures panel { result.panel ≡ panel }
    {
        Grid { block, panel }
    }

    /// The pixels of a panel, each a block by itself: no area is widened. The panel's first pixel stands at
    /// 0 0.
    pub fn of_pixels(panel: Area) -> Grid
        requires left { (rect_of panel).x1 ≡ pos 0 }
        requires top { (rect_of panel).y1 ≡ pos 0 }
        requires some { is_empty (rect_of panel) ≡ false }
        ensures pixels { HasPixels result }
        ensures panel { result.panel ≡ panel }
    {
        Grid::new(Block { w: 1, h: 1 }, panel)
    }
}

impl Round for Grid {
    ghost use Rattle.gui_base.specs.Gridded.{rules_of};

    ghost rules = { rules_of };

    fn round(&self, area: Area) -> Area {
        Area {
            x1: block_start(area.x1, self.block.w),
            y1: block_start(area.y1, self.block.h),
            x2: block_end(area.x2, self.block.w),
            y2: block_end(area.y2, self.block.h),
        }
    }

    fn step(&self) -> u32 {
        self.block.h
    }

    ghost sound = { λ grid. grid.sound };
}

/// Whole lines of a panel, which is not empty.
#[derive(Clone, Copy, Debug)]
pub struct FullLines {
    pub panel: Area,
    ghost sound: { IsRounding (lines_of (rect_of panel)) },
}

impl FullLines {
    /// The lines of a panel that is not empty.
    pub fn new(panel: Area) -> FullLines
        requires { is_empty (rect_of panel) ≡ false }
        ensures { rect_of result.panel ≡ rect_of panel }
    {
        FullLines { panel }
    }
}

impl Round for FullLines {
    ghost rules = { λ lines. lines_of (rect_of lines.panel) };

    fn round(&self, area: Area) -> Area {
        Area {
            x1: self.panel.x1,
            y1: area.y1,
            x2: self.panel.x2,
            y2: area.y2,
        }
    }

    fn step(&self) -> u32 {
        1
    }

    ghost sound = { λ lines. lines.sound };
}

/// The first number of the block that a number lies in.
fn block_start(at: i32, size: u32) -> i32
    requires some { 1 ≤ size }
    requires positive { pos 0 ≤ℤ at }
    requires fits { IsCoordinate at }
    ensures value { result ≡ pos (block_start size (nat_of at)) }
    ensures fits { IsCoordinate result }
{
    (at as u32 / size * size) as i32
}

/// The last number of the block that a number lies in.
fn block_end(at: i32, size: u32) -> i32
    requires some { 1 ≤ size }
    requires positive { pos 0 ≤ℤ at }
    requires fits { IsCoordinate (pos (block_end size (nat_of at))) }
    ensures value { result ≡ pos (block_end size (nat_of at)) }
    ensures fits { IsCoordinate result }
{
    (at as u32 / size * size + (size - 1)) as i32
}
