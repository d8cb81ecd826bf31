//! What layout knows of an object.
use crate::layout_box::LayoutBox;
use crate::position::Position;
use crate::reach::Scrolled;
use crate::size::Size;
use crate::standing::Standing;

/// What layout knows of an object.
#[derive(Clone, Copy, Drop)]
pub struct Entry {
    /// What its place goes by.
    pub wanted: LayoutBox,
    pub natural_width: Size,
    pub width: Size,
    pub natural_height: Size,
    pub position: Position,
    pub scrolled: Scrolled,
    /// Whether a pass visits it: it, or something below it, may differ.
    pub touched: bool,
    /// What was told of it last, when it was let go.
    pub reported: Standing,
}
