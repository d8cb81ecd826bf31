//! What an object wants in one direction, across or down.
ghost use Rattle.std.specs.Prelude.{◌≤◌, pos, negsuc, ◌≤ℤ◌};

use gui_base::Length;
use layout_defs::Side;

/// What an object wants in one direction, across or down.
#[derive(Clone, Copy, Drop)]
pub struct Axis {
    pub size: Length,
    /// How far from where its side puts it.
    pub wanted: i16,
    /// Border and pad before its content area.
    pub before: u16,
    /// Border and pad after its content area.
    pub after: u16,
    /// The gap between its children.
    pub gap: u16,
    pub side: Side,
    /// How far its children are to be scrolled.
    pub scroll: u16,
    ghost wanted_least: { negsuc 3999 ≤ℤ wanted },
    ghost wanted_most: { wanted ≤ℤ pos 4000 },
    ghost before_fits: { before ≤ 1100 },
    ghost gap_fits: { gap ≤ 1000 },
    ghost scroll_fits: { scroll ≤ 8191 },
}
