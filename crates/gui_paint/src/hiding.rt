//! Objects that hide all that lies below them in an area.
ghost use Rattle.std.specs.Prelude.{◌≡◌, ◌&&◌};
ghost use Rattle.std.specs.List.{list_any};
ghost use Rattle.gui_base.specs.Corners.{rect_of};
ghost use Rattle.gui_widgets.specs.Looks.{item_of, items_of};
ghost use Rattle.cover_defs.specs.Cover.{has_area, hides};

use gui_base::Area;
use gui_widgets::{Item, ItemPaint};

/// The least opacity with which a fill lets nothing through.
const OPAQUE: u8 = 252;

/// Whether an object that is seen there, and paints these items, covers an area.
pub fn covers(visible: Area, items: &[Item], part: Area) -> bool
    ensures { result ≡ (has_area (rect_of visible) (rect_of part)
        && list_any (hides (rect_of part)) (items_of items.now)) }
{
    has_area(visible, part) && one_hides(items, part)
}

/// Whether an area has all pixels of another.
pub fn has_area(area: Area, part: Area) -> bool
    ensures { result ≡ has_area (rect_of area) (rect_of part) }
{
    part.is_empty() || area.holds_corners(part)
}

/// Whether an item is a fill that lets nothing through and has all pixels of an area.
fn hides(item: &Item, part: Area) -> bool
    ensures { result ≡ hides (rect_of part) (item_of item.now) }
{
    match item.paint {
        ItemPaint::Fill { opa, .. } => opa >= OPAQUE && has_area(item.area, part),
        ItemPaint::Ring { .. } | ItemPaint::Ink { .. } | ItemPaint::Picture { .. } => false,
    }
}

/// Whether one of the items is.
fn one_hides(items: &[Item], part: Area) -> bool
    ensures { result ≡ list_any (hides (rect_of part)) (items_of items.now) }
{
    let mut one = false;
    for item in items {
        one = one || hides(item, part);
    }
    one
}
