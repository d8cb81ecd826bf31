//! Where an object stands, and how far it moves its children.
use crate::position::{CORNER, Position};
use crate::reach::{NOT_SCROLLED, Scrolled};
use crate::size::Size;

/// What others go by of an object: its place, and how far its children reach and are moved.
#[derive(Clone, Copy, Drop)]
pub struct Standing {
    pub width: Size,
    pub position: Position,
    pub scrolled: Scrolled,
}

/// That of an object of which nothing is found.
pub const NOT_STANDING: Standing = Standing {
    width: Size { pixels: 0 },
    position: CORNER,
    scrolled: NOT_SCROLLED,
};
