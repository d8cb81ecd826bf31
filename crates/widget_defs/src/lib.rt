//! The definitions of widgets: what a kind of object is, what an object of each kind paints, and the own size
//! of what it shows.
#![tactic(auto)]

pub mod kinds;
pub mod laws;

use gui_base::Rgb565;
use text_defs::TextLook;

/// What an item of an object paints in its area.
#[derive(Clone, Copy, Debug, PartialEq, Eq)]
pub enum ItemPaint {
    /// One colour everywhere.
    Fill {
        color: Rgb565,
        opa: u8,
    },
    /// One colour along each side, so many pixels wide.
    Ring {
        width: u8,
        color: Rgb565,
        opa: u8,
    },
    /// The ink of the object's text, which is set in the area's width.
    Ink {
        look: TextLook,
        color: Rgb565,
        opa: u8,
    },
    /// An image at the area's top left, cut to the area. Its pixels that have an opacity alone are drawn in
    /// `recolor`.
    Picture {
        image: u16,
        recolor: Rgb565,
        opa: u8,
    },
}

/// The value of each property of a part, in the order of [`gui_base::props::PROPS`].
#[derive(Clone, Copy, Debug, PartialEq, Eq)]
pub struct Values(pub [i32; 19]);

/// An image with its size in pixels.
#[derive(Clone, Copy, Debug, PartialEq, Eq)]
pub struct ImageLook {
    /// Its number.
    pub id: u16,
    pub w: u16,
    pub h: u16,
}
