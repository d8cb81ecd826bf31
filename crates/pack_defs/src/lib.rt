//! The definitions of what is kept of an object: all that it paints, in a record of a fixed size.
#![tactic(auto)]

ghost use Rattle.pack_defs.specs.Laws.{EachIsKept};

use gui_base::Rgb565;
use text_defs::TextLook;

/// The fill of a part, and the ring of its border.
#[derive(Clone, Copy, Debug, PartialEq, Eq)]
pub struct PartPaint {
    pub fill: Rgb565,
    pub fill_opa: u8,
    /// How many pixels wide the ring is.
    pub width: u8,
    pub ring: Rgb565,
    pub ring_opa: u8,
}

/// The ink of a text.
#[derive(Clone, Copy, Debug, PartialEq, Eq)]
pub struct TextPaint {
    pub look: TextLook,
    pub color: Rgb565,
    pub opa: u8,
}

/// An image.
#[derive(Clone, Copy, Debug, PartialEq, Eq)]
pub struct ImagePaint {
    /// Its number.
    pub id: u16,
    pub recolor: Rgb565,
    pub opa: u8,
}

/// All that an object paints is kept in its record, whatever its kind is.
pub fn objects_fit_their_records()
    ensures { EachIsKept }
{}
