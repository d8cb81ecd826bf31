//! Blocks of a panel's pixels.
ghost use Rattle.std.specs.Prelude.{◌≡◌, ◌+◌, ◌*◌, ◌≤◌, ◌<◌, true, pos};
ghost use Rattle.gui_base.specs.Area.{area_at, is_within};
ghost use Rattle.gui_base.specs.Corners.{rect_of};
ghost use Rattle.rfb_view.specs.Blocks.{block_area};

use gui_base::Area;

/// An area inside of a panel: its first column and line, and how many of each it has.
#[derive(Clone, Copy)]
pub struct Block {
    pub left: u16,
    pub top: u16,
    pub columns: u16,
    pub lines: u16,
}

impl Block {
    /// The number of the first pixel of one of its lines, if a line of the panel has so many.
    pub(crate) fn first(self, width: u16, line: u16) -> usize
        ensures { result ≡ (self.top + line) * width + self.left }
    {
        (usize::from(self.top) + usize::from(line)) * usize::from(width) + usize::from(self.left)
    }
}

/// The columns and lines of an area inside of a panel with these sizes.
pub(crate) fn block_of(width: u16, height: u16, area: Area) -> Block
    requires { is_within (area_at (pos 0) (pos 0) width height) (rect_of area) ≡ true }
    ensures block { rect_of area ≡ block_area result }
    ensures wide { result.left + result.columns ≤ width }
    ensures high { result.top + result.lines ≤ height }
    ensures some { 0 < width }
{
    Block {
        left: area.x1 as u16,
        top: area.y1 as u16,
        columns: area.width() as u16,
        lines: area.height() as u16,
    }
}
