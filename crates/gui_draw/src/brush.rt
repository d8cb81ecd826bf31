//! What is drawn with.
use gui_base::{Area, Rgb565};

/// A colour with an opacity from 0 to 255, and the part of the buffer's area over which it is mixed.
#[derive(Clone, Copy)]
pub(crate) struct Brush {
    pub(crate) part: Area,
    pub(crate) fg: Rgb565,
    pub(crate) opa: u8,
}
