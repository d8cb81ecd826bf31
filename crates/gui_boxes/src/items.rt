//! The children that take part in a flow, as its items.
ghost use Rattle.std.specs.Prelude.{◌≡◌, ◌≤◌, ◌<◌, ◌+◌, ◌∷◌, ◌++◌, [], ℕ, length, map, take};
ghost use Rattle.gui_base.specs.Forest.{size, tree_at};
ghost use Rattle.layout_defs.specs.Solving.{taking_part, in_order};
ghost use Rattle.gui_flex.specs.Items.{items_of, item_of};
ghost use Rattle.gui_boxes.specs.Slots.{item_in};
ghost use Rattle.gui_boxes.specs.Kids.{told_kids};
ghost use Rattle.gui_boxes.specs.Sizings.{kid_by, known_box, sized};
ghost use Rattle.gui_boxes.specs.Tables.{told, listing_of, AreListed};

use crate::along::size_in;
use crate::entry::Entry;
use crate::sizing::Sizing;
use crate::tables::entry_of;
use gui_base::Handle;
use gui_flex::FlexItem;
use gui_pool::Table;
use gui_tree::Tree;
use layout_defs::Course;

/// An item so wide and so high.
fn flow_item(course: Course, width: u16, height: u16, grow: u8) -> FlexItem
    requires width { width ≤ 8191 }
    requires height { height ≤ 8191 }
    ensures { item_of result ≡ item_in course width height grow }
{
    match course {
        Course::Down => new_item(height, width, grow),
        _ => new_item(width, height, grow),
    }
}

/// An item of these sizes.
pub fn new_item(main: u16, cross: u16, grow: u8) -> FlexItem
    requires main { main ≤ 8191 }
    requires cross { cross ≤ 8191 }
    ensures { item_of result ≡ record { main = main; cross = cross; grow = grow } }
{
    FlexItem {
        main: i32::from(main),
        cross: i32::from(cross),
        grow,
        main_at: 0,
        cross_at: 0,
    }
}

/// A child as an item.
fn kid_item(kid: &Entry, sizing: Sizing) -> FlexItem
    ensures { (h : ℕ) → item_of result ≡ sized sizing (kid_by h kid.now) }
{
    let own = &kid.wanted;
    match sizing {
        Sizing::Widths(room) => {
            let width = size_in(&own.across, room, kid.natural_width.pixels);
            new_item(width, 0, own.grow)
        }
        Sizing::Naturals => new_item(kid.width.pixels, kid.natural_height.pixels, own.grow),
        Sizing::Sizes(course, room) => {
            let height = size_in(&own.down, room, kid.natural_height.pixels);
            flow_item(course, kid.width.pixels, height, own.grow)
        }
    }
}

/// Puts a child that takes part behind so many others, and answers how many they are then.
fn put_kid(items: &mut [FlexItem], count: usize, kid: &Entry, sizing: Sizing) -> usize
    requires room { count < length items.old }
    ensures items { (h : ℕ) → items_of (take result items.new)
        ≡ items_of (take count items.old) ++ map (sized sizing) (taking_part known_box
        (kid_by h kid.now ∷ [])) }
    ensures most { result ≤ count + 1 }
{
    if kid.wanted.hidden {
        return count;
    }
    items[count] = kid_item(kid, sizing);
    count + 1
}

/// Makes the children that take part items, first to last. It answers how many they are.
pub fn fill_items(
    tree: &Tree,
    entries: &Table<Entry>,
    items: &mut [FlexItem],
    h: Handle,
    sizing: Sizing,
) -> usize
    requires few { size tree.now.forest ≤ 4000 }
    requires enough { size tree.now.forest ≤ length items.old }
    requires listed { AreListed (listing_of entries.now) (tree_at tree.now.forest h.0) }
    ensures items { items_of (take result items.new) ≡ map (sized sizing)
        (taking_part known_box (told_kids (told entries.now) tree.now.forest h.0)) }
    ensures within { result ≤ length items.new }
    ensures few { result ≤ 4000 }
{
    let mut count = 0;
    for child in tree.children(h) {
        count = put_kid(items, count, entry_of(entries, child), sizing);
    }
    count
}

/// Turns the items round where their flow is reversed.
pub fn turn(items: &mut [FlexItem], back: bool)
    ensures turned { items.new ≡ in_order back items.old }
    ensures items { items_of items.new ≡ in_order back (items_of items.old) }
{
    if back {
        items.reverse();
    }
}
