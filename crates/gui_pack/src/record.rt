//! What is kept of an object.

use gui_base::Area;
use pack_defs::{ImagePaint, PartPaint, TextPaint};

/// What an object paints beside its own part.
#[derive(Clone, Copy, Debug)]
pub enum More {
    Nothing,
    Text {
        area: Area,
        text: TextPaint,
    },
    Image {
        area: Area,
        image: ImagePaint,
    },
    Part {
        area: Area,
        part: PartPaint,
    },
    TwoParts {
        area: Area,
        part: PartPaint,
        other_area: Area,
        other: PartPaint,
    },
    PartText {
        area: Area,
        part: PartPaint,
        text_area: Area,
        text: TextPaint,
    },
}

/// All that an object paints which has a place.
#[derive(Clone, Copy, Debug)]
pub struct Paints {
    /// Where it stands.
    pub place: Area,
    /// Its own part, in its place.
    pub main: PartPaint,
    /// All else, before its own part.
    pub more: More,
}
