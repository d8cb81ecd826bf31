//! What the items of an object are made of, and the items.
ghost use Rattle.std.specs.Prelude.{◌≡◌, true};
ghost use Rattle.gui_base.specs.Area.{is_empty};
ghost use Rattle.gui_base.specs.Corners.{rect_of};

use gui_base::{Area, Kind, Rgb565};
use gui_font::Fonts;
use widget_defs::{ImageLook, ItemPaint, Values};

/// An object as its items show it.
#[derive(Clone, Copy)]
pub struct Look<'a> {
    pub kind: Kind,
    /// The values of the object's own part.
    pub main: Values,
    pub scrollbar: Values,
    pub indicator: Values,
    pub knob: Values,
    /// At most 1,000 bytes.
    pub text: &'a str,
    /// From `min` to `max`.
    pub value: i32,
    /// From -10,000 on.
    pub min: i32,
    /// Greater than `min`, and at most 10,000.
    pub max: i32,
    /// What an image shows.
    pub image: Option<ImageLook>,
    pub scrollable: bool,
    /// How far its children reach out of its content area, across and down.
    pub reach: (u32, u32),
    /// How far it moves them: no further than that.
    pub offset: (u32, u32),
    pub fonts: &'a Fonts,
}

/// One of the things that an object paints.
#[derive(Clone, Copy, Debug)]
pub struct Item {
    pub area: Area,
    pub paint: ItemPaint,
}

impl Default for Item {
    ghost is_default = { λ item. is_empty (rect_of item.area) ≡ true };

    /// A black fill of no area.
    fn default() -> Item {
        Item {
            area: Area::default(),
            paint: ItemPaint::Fill {
                color: Rgb565::BLACK,
                opa: 0,
            },
        }
    }
}
