//! What layout has to know of an object.
ghost use Rattle.std.specs.Prelude.{◌≤◌};

use crate::axis::Axis;
use gui_base::words::Flow;
use gui_flex::FlexPlaces;

/// What layout has to know of an object.
#[derive(Clone, Copy, Drop)]
pub struct LayoutBox {
    pub across: Axis,
    pub down: Axis,
    pub own_width: u32,
    /// For the width that was found; it is 0 before one is.
    pub own_height: u32,
    pub hidden: bool,
    pub flow: Flow,
    pub places: FlexPlaces,
    pub grow: u8,
    /// Whether it moves its children as far as they are to be scrolled.
    pub scrollable: bool,
    ghost own_width_fits: { own_width ≤ 1000000 },
    ghost own_height_fits: { own_height ≤ 1000000 },
}
