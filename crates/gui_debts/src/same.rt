//! Whether areas, items and lists of items are the same.
ghost use Rattle.std.specs.Prelude.{◌≡◌, option_map};
ghost use Rattle.gui_base.specs.Corners.{rect_of};
ghost use Rattle.debt_defs.specs.Same.{same_corners, same_area, same_visible, same_item, same_by};
ghost use Rattle.gui_widgets.specs.Looks.{item_of, items_of};

use gui_base::Area;
use gui_widgets::Item;

/// Whether two areas have the same corners.
pub(crate) fn same_corners(a: Area, b: Area) -> bool
    ensures { result ≡ same_corners (rect_of a) (rect_of b) }
{
    (a.x1 == b.x1 && a.y1 == b.y1) && (a.x2 == b.x2 && a.y2 == b.y2)
}

/// Whether two areas have the same pixels; all empty ones have.
fn same_area(a: Area, b: Area) -> bool
    ensures { result ≡ same_area (rect_of a) (rect_of b) }
{
    (a.is_empty() && b.is_empty()) || same_corners(a, b)
}

/// Whether an object is seen in the same area.
pub fn same_visible(a: Option<Area>, b: Option<Area>) -> bool
    ensures { result ≡ same_visible (option_map rect_of a) (option_map rect_of b) }
{
    match (a, b) {
        (None, None) => true,
        (Some(a), Some(b)) => same_corners(a, b),
        _ => false,
    }
}

/// Whether two items paint the same. No item holds the text of its object, which is another one only after a
/// change that names the object.
fn same_item(a: &Item, b: &Item) -> bool
    ensures { result ≡ same_item (item_of a.now) (item_of b.now) }
{
    same_area(a.area, b.area) && a.paint == b.paint
}

/// Whether two lists are as long, and their items the same one by one.
pub(crate) fn same_items(a: &[Item], b: &[Item]) -> bool
    ensures { result ≡ same_by same_item (items_of a.now) (items_of b.now) }
{
    if a.len() != b.len() {
        return false;
    }
    for i in 0..a.len() {
        if !same_item(&a[i], &b[i]) {
            return false;
        }
    }
    true
}
