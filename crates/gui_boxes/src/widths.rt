//! Widths, downward.
ghost use Rattle.std.specs.Prelude.{◌≡◌, ◌≤◌, ◌<◌, ◌+◌, ◌∷◌, ℕ, List, true, length, map, take, drop};
ghost use Rattle.std.specs.Prelude.{slice_index};
ghost use Rattle.gui_base.specs.Forest.{has, roots, size, tree_at, children_of};
ghost use Rattle.layout_defs.specs.Flex.{shared};
ghost use Rattle.layout_defs.specs.Boxes.{course_of, wraps, is_reversed};
ghost use Rattle.layout_defs.specs.Solving.{Wide, wide_box, in_order, dealt, width_in};
ghost use Rattle.layout_defs.specs.Solving.{main_sizes, kid_widths, kid_widths_by};
ghost use Rattle.layout_defs.specs.Tables.{KeepsOthers};
ghost use Rattle.gui_flex.specs.Items.{items_of};
ghost use Rattle.gui_boxes.specs.Kids.{wide_kids, told_trees};
ghost use Rattle.gui_boxes.specs.Views.{box_of, box_at};
ghost use Rattle.gui_boxes.specs.Settled.{EachKids, WidthsFit, wide_of};
ghost use Rattle.gui_boxes.specs.Sizings.{kid_by};
ghost use Rattle.gui_boxes.specs.Layouts.{ButTouchedWidths};
ghost use Rattle.gui_boxes.specs.Touched.{is_touched, AtRoots, IfTouched, IsClosed, Touches};
ghost use Rattle.gui_boxes.specs.Tables.{told, listing_of, AreListed};

use crate::along::{inner, size_in};
use crate::boxes::{course_of, is_reversed, wraps};
use crate::entry::Entry;
use crate::items::{fill_items, turn};
use crate::layout_box::LayoutBox;
use crate::sizing::Sizing;
use crate::tables::{entry_of, give_width, is_touched};
use gui_base::Handle;
use gui_base::words::Flow;
use gui_flex::{FlexItem, share};
use gui_pool::Table;
use gui_tree::Tree;
use layout_defs::Course;

/// Shares what is free among the items, in the order of their flow.
pub fn share_in_order(items: &mut [FlexItem], flow: Flow, room: u16, gap: u16)
    requires few { length items.old ≤ 4000 }
    requires room { room ≤ 8191 }
    requires gap { gap ≤ 1000 }
    ensures items { items_of items.new ≡
        in_order (is_reversed flow) (shared (wraps flow) room gap
        (in_order (is_reversed flow) (items_of items.old))) }
{
    let back = is_reversed(flow);
    turn(items, back);
    share(items, wraps(flow), i32::from(room), i32::from(gap));
    turn(items, back);
}

/// The width that a child is dealt, and how many items are dealt then.
fn dealt_width(kid: &Entry, room: u16, items: &[FlexItem], i: usize) -> (u16, usize)
    requires within { i ≤ length items.now }
    ensures value { (h : ℕ) (kids : List Wide) → dealt wide_box (width_in room)
        (wide_of (kid_by h kid.now) ∷ kids)
        (main_sizes (items_of (drop i items.now)))
        ≡ result.0 ∷ dealt wide_box (width_in room) kids (main_sizes (items_of (drop result.1 items.now))) }
    ensures small { result.0 ≤ 8191 }
    ensures within { result.1 ≤ length items.now }
{
    if kid.wanted.hidden || i == items.len() {
        return (
            size_in(&kid.wanted.across, room, kid.natural_width.pixels),
            i,
        );
    }
    (items[i].main as u16, i + 1)
}

/// Sets the widths of the children of an object: the shares to those that take part, and its own to each
/// other.
fn deal_widths(tree: &Tree, entries: &mut Table<Entry>, items: &[FlexItem], h: Handle, room: u16)
    requires listed { AreListed (listing_of entries.old) (tree_at tree.now.forest h.0) }
    ensures dealt { map (slice_index (told entries.new).widths) (roots (children_of tree.now.forest h.0))
        ≡ dealt wide_box (width_in room) (wide_kids (told entries.old) tree.now.forest h.0)
        (main_sizes (items_of items.now)) }
    ensures others { KeepsOthers 0 (told entries.old).widths (told entries.new).widths
        (children_of tree.now.forest h.0) }
    ensures touches { Touches 0 (is_touched (told entries.old)) (is_touched (told entries.new))
        (told entries.old).widths (told entries.new).widths (children_of tree.now.forest h.0) }
    ensures roots { AtRoots (is_touched (told entries.old)) (is_touched (told entries.new))
        (children_of tree.now.forest h.0) }
    ensures rest { ButTouchedWidths (told entries.old) (told entries.new) }
    ensures listed { listing_of entries.new ≡ listing_of entries.old }
{
    let mut i = 0;
    for child in tree.children(h) {
        let (width, later) = dealt_width(entry_of(entries, child), room, items, i);
        give_width(entries, child, width);
        i = later;
    }
}

/// Makes the items' sizes the shares of the children of a row, and answers how many they are: none for other
/// children.
fn row_shares(
    tree: &Tree,
    entries: &Table<Entry>,
    items: &mut [FlexItem],
    h: Handle,
    own: &LayoutBox,
    room: u16,
) -> usize
    requires few { size tree.now.forest ≤ 4000 }
    requires enough { size tree.now.forest ≤ length items.old }
    requires room { room ≤ 8191 }
    requires listed { AreListed (listing_of entries.now) (tree_at tree.now.forest h.0) }
    ensures dealt { let kids = wide_kids (told entries.now) tree.now.forest h.0
        in dealt wide_box (width_in room) kids (main_sizes (items_of (take result items.new)))
        ≡ kid_widths_by (course_of own.now.flow) (box_of h.0 own.now) room kids }
    ensures within { result ≤ length items.new }
{
    match course_of(own.flow) {
        Course::Across => {
            let count = fill_items(tree, entries, items, h, Sizing::Widths(room));
            share_in_order(&mut items[..count], own.flow, room, own.across.gap);
            count
        }
        _ => 0,
    }
}

/// Sets the widths of the children of an object whose own width is set. It is not inlined, so that an object
/// without children pays nothing for it.
#[inline(never)]
fn set_kid_widths(tree: &Tree, entries: &mut Table<Entry>, items: &mut [FlexItem], h: Handle)
    requires listed { AreListed (listing_of entries.old) (tree_at tree.now.forest h.0) }
    requires few { size tree.now.forest ≤ 4000 }
    requires enough { size tree.now.forest ≤ length items.old }
    requires there { has tree.now.forest h.0 ≡ true }
    ensures kids { map (slice_index (told entries.new).widths) (roots (children_of tree.now.forest h.0))
        ≡ kid_widths (box_at (told entries.old).boxes h.0) (slice_index (told entries.old).widths h.0)
        (wide_kids (told entries.old) tree.now.forest h.0) }
    ensures others { KeepsOthers 0 (told entries.old).widths (told entries.new).widths
        (children_of tree.now.forest h.0) }
    ensures touches { Touches 0 (is_touched (told entries.old)) (is_touched (told entries.new))
        (told entries.old).widths (told entries.new).widths (children_of tree.now.forest h.0) }
    ensures roots { AtRoots (is_touched (told entries.old)) (is_touched (told entries.new))
        (children_of tree.now.forest h.0) }
    ensures rest { ButTouchedWidths (told entries.old) (told entries.new) }
    ensures listed { listing_of entries.new ≡ listing_of entries.old }
{
    let own = entry_of(entries, h);
    let room = inner(&own.wanted.across, own.width.pixels);
    let count = row_shares(tree, entries, items, h, &own.wanted, room);
    deal_widths(tree, entries, &items[..count], h, room);
}

/// Finds the widths of all that lies below touched objects in the tree of one whose own width is set, parents
/// first. Where a child's width is another, it is touched.
pub fn find_widths(tree: &Tree, entries: &mut Table<Entry>, items: &mut [FlexItem], h: Handle)
    requires listed { AreListed (listing_of entries.old) (tree_at tree.now.forest h.0) }
    requires few { size tree.now.forest ≤ 4000 }
    requires there { has tree.now.forest h.0 ≡ true }
    requires enough { size tree.now.forest ≤ length items.old }
    requires closed { IsClosed (is_touched (told entries.old)) (tree_at tree.now.forest h.0) }
    ensures found { EachKids (IfTouched (is_touched (told entries.new)) WidthsFit)
        (told_trees (told entries.new) (tree_at tree.now.forest h.0)) }
    ensures closed { IsClosed (is_touched (told entries.new)) (tree_at tree.now.forest h.0) }
    ensures touches { Touches 0 (is_touched (told entries.old)) (is_touched (told entries.new))
        (told entries.old).widths (told entries.new).widths (children_of tree.now.forest h.0) }
    ensures others { KeepsOthers 0 (told entries.old).widths (told entries.new).widths
        (children_of tree.now.forest h.0) }
    ensures rest { ButTouchedWidths (told entries.old) (told entries.new) }
    ensures listed { listing_of entries.new ≡ listing_of entries.old }
{
    if !is_touched(entries, h) {
        return;
    }
    if tree.first_child(h).is_none() {
        return;
    }
    set_kid_widths(tree, entries, items, h);
    for child in tree.children(h) {
        find_widths(tree, entries, items, child);
    }
}
