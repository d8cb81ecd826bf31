//! The record of an object, by its items.
ghost use Rattle.std.specs.Prelude.{◌≡◌, option_map};
ghost use Rattle.gui_base.specs.Corners.{rect_of};
ghost use Rattle.gui_pack.specs.Records.{more_in, paints_in};
ghost use Rattle.gui_widgets.specs.Looks.{IsLook, items_of, widget_of};
ghost use Rattle.gui_widgets.specs.Nears.{IsPlace};
ghost use Rattle.pack_defs.specs.Packing.{color_of, more_of, one_of, opa_of, packed, part_of};
ghost use Rattle.pack_defs.specs.Packing.{part_text_of, width_of};
ghost use Rattle.pack_defs.specs.Paints.{items_in};
ghost use Rattle.widget_defs.specs.Items.{items};

use crate::record::{More, Paints};
use gui_base::{Area, Rgb565};
use gui_widgets::{Item, ItemPaint, Look, items};
use pack_defs::{ImagePaint, PartPaint, TextPaint};

/// All that an object paints if it stands in a place.
pub fn paints(look: &Look<'_>, place: Area) -> Paints
    requires look { IsLook look.now }
    requires place { IsPlace (rect_of place) }
    ensures items { items_in (paints_in result) ≡ items (widget_of look.now) (rect_of place) }
{
    let items = items(look, place);
    let Some(paints) = packed(items.as_slice()) else {
        unreachable!()
    };
    paints
}

/// The record of an object that paints these: none if it has no part of its own.
fn packed(items: &[Item]) -> Option<Paints>
    ensures { option_map paints_in result ≡ packed (items_of items.now) }
{
    match items {
        [fill, ring, more @ ..] => Some(Paints {
            place: fill.area,
            main: part_of(fill, ring),
            more: more_of(more),
        }),
        _ => None,
    }
}

/// What stands behind the items of an object's own part.
fn more_of(items: &[Item]) -> More
    ensures { more_in result ≡ more_of (items_of items.now) }
{
    match items {
        [one] => one_of(one),
        [fill, ring] => More::Part {
            area: fill.area,
            part: part_of(fill, ring),
        },
        [fill, ring, text] => part_text_of(fill.area, part_of(fill, ring), text),
        [fill, ring, other_fill, other_ring] => More::TwoParts {
            area: fill.area,
            part: part_of(fill, ring),
            other_area: other_fill.area,
            other: part_of(other_fill, other_ring),
        },
        _ => More::Nothing,
    }
}

/// A text or an image.
fn one_of(item: &Item) -> More
    ensures { more_in result ≡ one_of (rect_of item.now.area) item.now.paint }
{
    let area = item.area;
    match item.paint {
        ItemPaint::Ink { look, color, opa } => More::Text {
            area,
            text: TextPaint { look, color, opa },
        },
        ItemPaint::Picture {
            image,
            recolor,
            opa,
        } => More::Image {
            area,
            image: ImagePaint {
                id: image,
                recolor,
                opa,
            },
        },
        _ => More::Nothing,
    }
}

/// A part, and a text over it.
fn part_text_of(area: Area, part: PartPaint, text: &Item) -> More
    ensures { more_in result
        ≡ part_text_of (rect_of area) part (rect_of text.now.area) text.now.paint }
{
    match text.paint {
        ItemPaint::Ink { look, color, opa } => More::PartText {
            area,
            part,
            text_area: text.area,
            text: TextPaint { look, color, opa },
        },
        _ => More::Part { area, part },
    }
}

/// A part by its fill and its ring.
fn part_of(fill: &Item, ring: &Item) -> PartPaint
    ensures { result ≡ part_of fill.now.paint ring.now.paint }
{
    PartPaint {
        fill: color_of(fill.paint),
        fill_opa: opa_of(fill.paint),
        width: width_of(ring.paint),
        ring: color_of(ring.paint),
        ring_opa: opa_of(ring.paint),
    }
}

/// The colour of what an item paints.
fn color_of(paint: ItemPaint) -> Rgb565
    ensures { result ≡ color_of paint }
{
    match paint {
        ItemPaint::Fill { color, .. } => color,
        ItemPaint::Ring { color, .. } => color,
        ItemPaint::Ink { color, .. } => color,
        ItemPaint::Picture { recolor, .. } => recolor,
    }
}

/// Its opacity.
fn opa_of(paint: ItemPaint) -> u8
    ensures { result ≡ opa_of paint }
{
    match paint {
        ItemPaint::Fill { opa, .. } => opa,
        ItemPaint::Ring { opa, .. } => opa,
        ItemPaint::Ink { opa, .. } => opa,
        ItemPaint::Picture { opa, .. } => opa,
    }
}

/// How wide a ring is.
fn width_of(paint: ItemPaint) -> u8
    ensures { result ≡ width_of paint }
{
    match paint {
        ItemPaint::Ring { width, .. } => width,
        _ => 0,
    }
}
