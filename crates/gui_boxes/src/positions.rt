//! Heights and places, downward.
ghost use Rattle.std.specs.Prelude.{◌≡◌, ◌≤◌, ◌<◌, ◌+◌, ◌∷◌, ℕ, List, true, length, map};
ghost use Rattle.std.specs.Prelude.{take, drop, slice_set, pos, ◌+ℤ◌, ◌≤ℤ◌};
ghost use Rattle.std.specs.List.{All};
ghost use Rattle.gui_base.specs.Forest.{StandsOnce, has, height, size, tree_at, children_of};
ghost use Rattle.layout_defs.specs.declared.Course.TheVariants.{Across, Down};
ghost use Rattle.layout_defs.specs.Flex.{shared, spots};
ghost use Rattle.layout_defs.specs.Boxes.{course_of};
ghost use Rattle.layout_defs.specs.Solving.{Tall, tall_box, taking_part, dealt, nowhere};
ghost use Rattle.layout_defs.specs.Solving.{own_slot, row_slot, column_slot, flow_slots, kid_slots, reach_in, room_of};
ghost use Rattle.layout_defs.specs.Tables.{KeepsOthers};
ghost use Rattle.gui_flex.specs.Items.{items_of, item_of, spot_of, spots_of, placings_of};
ghost use Rattle.gui_boxes.specs.Kids.{Deals, tall_kids, told_trees};
ghost use Rattle.gui_boxes.specs.Settled.{EachKids, SlotsFit, tall_of};
ghost use Rattle.gui_boxes.specs.Sizings.{kid_by};
ghost use Rattle.gui_boxes.specs.Views.{box_of, box_at};
ghost use Rattle.gui_boxes.specs.Slots.{slot_of, room_in, arranged, item_slot};
ghost use Rattle.gui_boxes.specs.Slots.{IsClose, HasRoom, IsAtCorner, IsBelow, tall_at};
ghost use Rattle.gui_boxes.specs.Slots.{slot_at, at_roots};
ghost use Rattle.gui_boxes.specs.Layouts.{ButTouchedPlaces, ButTouchedSlots};
ghost use Rattle.gui_boxes.specs.Scrolls.{moves_of, not_scrolled, scrolled_in, span_of};
ghost use Rattle.layout_defs.specs.Scrolling.{moved_room};
ghost use Rattle.layout_defs.specs.Solving.{moved};
ghost use Rattle.gui_boxes.specs.Tables.{told, listing_of, AreListed};
ghost use Rattle.gui_boxes.specs.Touched.{is_touched, AtRoots, HoldsScrollsIf, IfTouched, IsClosed, KeepsCalm, Touches};

use crate::along::{corner, from_corner, inner, own_at, size_in};
use crate::boxes::{course_of, is_reversed, wraps};
use crate::entry::Entry;
use crate::inside::Inside;
use crate::items::{fill_items, turn};
use crate::layout_box::LayoutBox;
use crate::position::Position;
use crate::reach::{NOT_SCROLLED, Reach};
use crate::reaching::{farther_at, moved_inside, scrolled_by};
use crate::sizing::Sizing;
use crate::tables::{entry_of, give_position, is_touched, set_scrolled};
use gui_base::Handle;
use gui_flex::{FlexItem, FlexPlaces, place, share};
use gui_pool::Table;
use gui_tree::Tree;
use layout_defs::Course;

/// A child's place without flex, by its entry.
pub fn own_position(kid: &Entry, inside: Inside) -> Position
    ensures value { (h : ℕ) → slot_of result ≡ own_slot (room_in inside) (tall_of (kid_by h kid.now)) }
    ensures close { IsClose inside.x inside.y (slot_of result) }
{
    let own = &kid.wanted;
    let height = size_in(&own.down, inside.height, kid.natural_height.pixels);
    Position {
        x: own_at(&own.across, inside.x, inside.width, kid.width.pixels),
        y: own_at(&own.down, inside.y, inside.height, height),
        height,
    }
}

/// The place of an item of a row.
fn row_position(item: &FlexItem, inside: Inside) -> Position
    ensures value { slot_of result ≡ row_slot (room_in inside) (item_of item.now) (spot_of item.now) }
    ensures close { IsClose inside.x inside.y (slot_of result) }
{
    Position {
        x: from_corner(inside.x, item.main_at),
        y: from_corner(inside.y, item.cross_at),
        height: item.cross_size() as u16,
    }
}

/// The place of an item of a column.
fn column_position(item: &FlexItem, inside: Inside) -> Position
    ensures value { slot_of result ≡ column_slot (room_in inside) (item_of item.now) (spot_of item.now) }
    ensures close { IsClose inside.x inside.y (slot_of result) }
{
    Position {
        x: from_corner(inside.x, item.cross_at),
        y: from_corner(inside.y, item.main_at),
        height: item.main_size() as u16,
    }
}

/// A content area, and how the children flow that stand in it.
#[derive(Clone, Copy)]
struct FlowArea {
    course: Course,
    inside: Inside,
}

/// The place of an item.
fn item_position(area: FlowArea, item: &FlexItem) -> Position
    ensures value { slot_of result ≡ item_slot area.course (room_in area.inside) item.now }
    ensures close { IsClose area.inside.x area.inside.y (slot_of result) }
{
    match area.course {
        Course::Down => column_position(item, area.inside),
        _ => row_position(item, area.inside),
    }
}

/// A content area along one of its axes: how long it is, and the gap between what stands in it.
#[derive(Clone, Copy)]
struct Line {
    extent: u16,
    gap: u16,
    ghost extent_fits: { extent ≤ 8191 },
    ghost gap_fits: { gap ≤ 1000 },
}

/// Shares what is free among the items.
fn share_all(items: &mut [FlexItem], wrap: bool, main: Line)
    requires few { length items.old ≤ 4000 }
    ensures items { items_of items.new ≡ shared wrap main.extent main.gap (items_of items.old) }
{
    share(items, wrap, i32::from(main.extent), i32::from(main.gap));
}

/// Places the items, along their flow and across it.
fn place_all(items: &mut [FlexItem], wrap: bool, places: FlexPlaces, main: Line, cross: Line)
    requires few { length items.old ≤ 4000 }
    ensures spots { spots_of items.new ≡ spots (placings_of places) wrap main.extent cross.extent
        main.gap cross.gap (items_of items.old) }
    ensures items { items_of items.new ≡ items_of items.old }
{
    place(
        items,
        wrap,
        places,
        i32::from(main.extent),
        i32::from(cross.extent),
        i32::from(main.gap),
        i32::from(cross.gap),
    );
}

/// A content area across.
fn line_across(own: &LayoutBox, inside: Inside) -> Line
    ensures extent { result.extent ≡ inside.width }
    ensures gap { result.gap ≡ own.now.across.gap }
{
    Line {
        extent: inside.width,
        gap: own.across.gap,
    }
}

/// A content area down.
fn line_down(own: &LayoutBox, inside: Inside) -> Line
    ensures extent { result.extent ≡ inside.height }
    ensures gap { result.gap ≡ own.now.down.gap }
{
    Line {
        extent: inside.height,
        gap: own.down.gap,
    }
}

/// Places the items of a row, in the order of its flow.
fn place_row(items: &mut [FlexItem], own: &LayoutBox, inside: Inside)
    requires few { length items.old ≤ 4000 }
    ensures items { (h : ℕ) → map (item_slot Across (room_in inside)) items.new
        ≡ arranged Across (box_of h own.now) (room_in inside) (items_of items.old) }
{
    place_all(
        items,
        wraps(own.flow),
        own.places,
        line_across(own, inside),
        line_down(own, inside),
    );
}

/// Shares what is free in a column among its items, and places them, in the order of its flow.
fn place_column(items: &mut [FlexItem], own: &LayoutBox, inside: Inside)
    requires few { length items.old ≤ 4000 }
    ensures items { (h : ℕ) → map (item_slot Down (room_in inside)) items.new
        ≡ arranged Down (box_of h own.now) (room_in inside) (items_of items.old) }
{
    let down = line_down(own, inside);
    share_all(items, wraps(own.flow), down);
    place_all(
        items,
        wraps(own.flow),
        own.places,
        down,
        line_across(own, inside),
    );
}

/// The place that a child is dealt, and how many items are dealt then.
fn dealt_position(kid: &Entry, area: FlowArea, items: &[FlexItem], i: usize) -> (Position, usize)
    requires within { i ≤ length items.now }
    ensures value { (h : ℕ) (kids : List Tall) → dealt tall_box (own_slot (room_in area.inside))
        (tall_of (kid_by h kid.now) ∷ kids)
        (map (item_slot area.course (room_in area.inside)) (drop i items.now))
        ≡ slot_of result.0 ∷ dealt tall_box (own_slot (room_in area.inside)) kids
        (map (item_slot area.course (room_in area.inside)) (drop result.1 items.now)) }
    ensures close { IsClose area.inside.x area.inside.y (slot_of result.0) }
    ensures within { result.1 ≤ length items.now }
{
    if kid.wanted.hidden {
        return (own_position(kid, area.inside), i);
    }
    if i == items.len() {
        return (own_position(kid, area.inside), i);
    }
    (item_position(area, &items[i]), i + 1)
}

/// Makes the items the children that take part in a flow, each with its place, first to last. It answers how
/// many they are.
fn place_flow(
    tree: &Tree,
    entries: &Table<Entry>,
    items: &mut [FlexItem],
    h: Handle,
    own: &LayoutBox,
    inside: Inside,
) -> usize
    requires few { size tree.now.forest ≤ 4000 }
    requires enough { size tree.now.forest ≤ length items.old }
    requires listed { AreListed (listing_of entries.now) (tree_at tree.now.forest h.0) }
    ensures slots { map (item_slot (course_of own.now.flow) (room_in inside)) (take result items.new)
        ≡ flow_slots (box_of h.0 own.now) (room_in inside)
        (taking_part tall_box (tall_kids (told entries.now) tree.now.forest h.0)) }
    ensures within { result ≤ length items.new }
{
    let course = course_of(own.flow);
    let back = is_reversed(own.flow);
    let sizing = Sizing::Sizes(course, inside.height);
    match course {
        Course::Free => 0,
        Course::Across => {
            let count = fill_items(tree, entries, items, h, sizing);
            let flow = &mut items[..count];
            turn(flow, back);
            place_row(flow, own, inside);
            turn(flow, back);
            count
        }
        Course::Down => {
            let count = fill_items(tree, entries, items, h, sizing);
            let flow = &mut items[..count];
            turn(flow, back);
            place_column(flow, own, inside);
            turn(flow, back);
            count
        }
    }
}

/// Sets the places of the children of an object: those of the items to the children that take part in its
/// flow, and its own to each other.
fn deal_positions(
    tree: &Tree,
    entries: &mut Table<Entry>,
    items: &[FlexItem],
    h: Handle,
    area: FlowArea,
)
    requires listed { AreListed (listing_of entries.old) (tree_at tree.now.forest h.0) }
    ensures deals { Deals (told entries.old) (room_in area.inside) (told entries.old).slots
        (told entries.new).slots (children_of tree.now.forest h.0)
        (map (item_slot area.course (room_in area.inside)) items.now) }
    ensures touches { Touches nowhere (is_touched (told entries.old)) (is_touched (told entries.new))
        (told entries.old).slots (told entries.new).slots (children_of tree.now.forest h.0) }
    ensures roots { AtRoots (is_touched (told entries.old)) (is_touched (told entries.new))
        (children_of tree.now.forest h.0) }
    ensures rest { ButTouchedSlots (told entries.old) (told entries.new) }
    ensures listed { listing_of entries.new ≡ listing_of entries.old }
{
    let mut i = 0;
    for child in tree.children(h) {
        let (position, later) = dealt_position(entry_of(entries, child), area, items, i);
        give_position(entries, child, position);
        i = later;
    }
}

/// The content area of an object that stands there and is so wide.
pub fn inside_of(own: &LayoutBox, at: Position, width: u16) -> Inside
    requires width { width ≤ 8191 }
    requires room { HasRoom (slot_of at) 1 }
    ensures value { (h naturals : ℕ) → room_in result
        ≡ room_of (record { box = box_of h own.now; width = width; natural_height = naturals }) (slot_of at) }
    ensures near { IsAtCorner (slot_of at) (room_in result) }
{
    Inside {
        x: corner(&own.across, at.x),
        y: corner(&own.down, at.y),
        width: inner(&own.across, width),
        height: inner(&own.down, at.height),
    }
}

/// How far children reach out of a content area where they stand flat in it: the items that take part in its flow,
/// and each other by itself.
fn flat_reach(
    tree: &Tree,
    entries: &Table<Entry>,
    items: &[FlexItem],
    h: Handle,
    area: FlowArea,
) -> Reach
    requires listed { AreListed (listing_of entries.now) (tree_at tree.now.forest h.0) }
    ensures { span_of result ≡ reach_in (room_in area.inside) (tall_kids (told entries.now) tree.now.forest h.0)
        (dealt tall_box (own_slot (room_in area.inside)) (tall_kids (told entries.now) tree.now.forest h.0)
        (map (item_slot area.course (room_in area.inside)) items.now)) }
{
    let mut i = 0;
    let mut ends = Reach { across: 0, down: 0 };
    for child in tree.children(h) {
        let kid = entry_of(entries, child);
        let (position, later) = dealt_position(kid, area, items, i);
        ends = farther_at(kid, position, area.inside, ends);
        i = later;
    }
    Reach {
        across: ends.across.saturating_sub(area.inside.width as u32),
        down: ends.down.saturating_sub(area.inside.height as u32),
    }
}

/// Sets the places of the children of an object whose own place is set, and how far they reach and are moved. It
/// is not inlined, so that an object without children pays nothing for it.
#[inline(never)]
fn set_kid_positions(tree: &Tree, entries: &mut Table<Entry>, items: &mut [FlexItem], h: Handle)
    requires once { StandsOnce tree.now.forest }
    requires listed { AreListed (listing_of entries.old) (tree_at tree.now.forest h.0) }
    requires few { size tree.now.forest ≤ 4000 }
    requires enough { size tree.now.forest ≤ length items.old }
    requires room { HasRoom (slot_at (told entries.old).slots h.0) 1 }
    requires there { has tree.now.forest h.0 ≡ true }
    ensures kids { at_roots (told entries.new).slots (children_of tree.now.forest h.0)
        ≡ kid_slots (tall_at (box_at (told entries.old).boxes) (told entries.old).widths
        (told entries.old).natural_heights h.0) (slot_at (told entries.old).slots h.0)
        (tall_kids (told entries.old) tree.now.forest h.0) }
    ensures others { KeepsOthers nowhere (told entries.old).slots (told entries.new).slots
        (children_of tree.now.forest h.0) }
    ensures near { All (IsBelow (slot_at (told entries.old).slots h.0))
        (at_roots (told entries.new).slots (children_of tree.now.forest h.0)) }
    ensures scrolled { (told entries.new).scrolls ≡ slice_set (told entries.old).scrolls h.0
        (scrolled_in (tall_at (box_at (told entries.old).boxes) (told entries.old).widths
        (told entries.old).natural_heights h.0) (slot_at (told entries.old).slots h.0)
        (tall_kids (told entries.old) tree.now.forest h.0)) }
    ensures touches { Touches nowhere (is_touched (told entries.old)) (is_touched (told entries.new))
        (told entries.old).slots (told entries.new).slots (children_of tree.now.forest h.0) }
    ensures roots { AtRoots (is_touched (told entries.old)) (is_touched (told entries.new))
        (children_of tree.now.forest h.0) }
    ensures rest { ButTouchedPlaces (told entries.old) (told entries.new) }
    ensures listed { listing_of entries.new ≡ listing_of entries.old }
{
    let own = entry_of(entries, h);
    let inside = inside_of(&own.wanted, own.position, own.width.pixels);
    let course = course_of(own.wanted.flow);
    let count = place_flow(tree, entries, items, h, &own.wanted, inside);
    let placed = &items[..count];
    let area = FlowArea { course, inside };
    let reach = flat_reach(tree, entries, placed, h, area);
    let scrolled = scrolled_by(&entry_of(entries, h).wanted, reach);
    set_scrolled(entries, h, scrolled);
    let moved = FlowArea {
        course,
        inside: moved_inside(inside, scrolled.offset),
    };
    deal_positions(tree, entries, placed, h, moved);
}

/// Finds the heights and places of all that lies below touched objects in the tree of one whose own place is set,
/// parents first, and how far these scroll their children. Where a child's place is another, it is touched.
pub fn find_places(tree: &Tree, entries: &mut Table<Entry>, items: &mut [FlexItem], h: Handle)
    requires once { StandsOnce tree.now.forest }
    requires listed { AreListed (listing_of entries.old) (tree_at tree.now.forest h.0) }
    requires few { size tree.now.forest ≤ 4000 }
    requires there { has tree.now.forest h.0 ≡ true }
    requires enough { size tree.now.forest ≤ length items.old }
    requires room { HasRoom (slot_at (told entries.old).slots h.0) (height (tree_at tree.now.forest h.0)) }
    requires closed { IsClosed (is_touched (told entries.old)) (tree_at tree.now.forest h.0) }
    ensures found { EachKids (IfTouched (is_touched (told entries.new)) SlotsFit)
        (told_trees (told entries.new) (tree_at tree.now.forest h.0)) }
    ensures others { KeepsOthers nowhere (told entries.old).slots (told entries.new).slots
        (children_of tree.now.forest h.0) }
    ensures scrolled { HoldsScrollsIf (is_touched (told entries.new)) (box_at (told entries.old).boxes) (told entries.old).widths
        (told entries.old).natural_heights (told entries.new).slots (told entries.new).scrolls
        (tree_at tree.now.forest h.0) }
    ensures other_scrolls { KeepsOthers not_scrolled (told entries.old).scrolls (told entries.new).scrolls
        (tree_at tree.now.forest h.0) }
    ensures closed { IsClosed (is_touched (told entries.new)) (tree_at tree.now.forest h.0) }
    ensures touches { Touches nowhere (is_touched (told entries.old)) (is_touched (told entries.new))
        (told entries.old).slots (told entries.new).slots (children_of tree.now.forest h.0) }
    ensures calm_scrolls { KeepsCalm not_scrolled (is_touched (told entries.new)) (told entries.old).scrolls
        (told entries.new).scrolls }
    ensures rest { ButTouchedPlaces (told entries.old) (told entries.new) }
    ensures listed { listing_of entries.new ≡ listing_of entries.old }
{
    if !is_touched(entries, h) {
        return;
    }
    if tree.first_child(h).is_none() {
        set_scrolled(entries, h, NOT_SCROLLED);
        return;
    }
    set_kid_positions(tree, entries, items, h);
    for child in tree.children(h) {
        find_places(tree, entries, items, child);
    }
}
