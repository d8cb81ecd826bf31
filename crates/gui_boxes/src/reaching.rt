//! How far the children of an object reach out of its content area, and how far it moves them.
ghost use Rattle.std.specs.Prelude.{◌≡◌, ◌≤◌, ◌-ℤ◌, ◌+ℤ◌, ◌≤ℤ◌, ℕ, eqb, false, true, max, min, negsuc, pos, if◌then◌else◌};
ghost use Rattle.gui_base.specs.Area.{nat_of};
ghost use Rattle.gui_base.specs.Forest.{children_of, has, tree_at};
ghost use Rattle.layout_defs.specs.Scrolling.{moved_room};
ghost use Rattle.layout_defs.specs.Solving.{end_across, end_down, no_span, offset_of, reach_in, room_of};
ghost use Rattle.gui_boxes.specs.Around.{IsFlat, ReadsReaches};
ghost use Rattle.gui_boxes.specs.Kids.{tall_kids};
ghost use Rattle.gui_boxes.specs.Settled.{tall_of};
ghost use Rattle.gui_boxes.specs.Sizings.{kid_by};
ghost use Rattle.gui_boxes.specs.Reaches.{IsInner, IsPlaced};
ghost use Rattle.gui_boxes.specs.Scrolls.{at_corner, moves_of, scrolled_at, scrolled_by, scrolled_of, span_of};
ghost use Rattle.gui_boxes.specs.Slots.{at_roots, room_in, slot_at, slot_of, tall_at};
ghost use Rattle.gui_boxes.specs.Tables.{AreListed, listing_of, told};
ghost use Rattle.gui_boxes.specs.Views.{box_at, box_of};

use crate::along::inner;
use crate::axis::Axis;
use crate::entry::Entry;
use crate::inside::Inside;
use crate::layout_box::LayoutBox;
use crate::position::Position;
use crate::reach::{AT_REST, Offset, Reach, Scrolled};
use crate::tables::{entry_of, set_scrolled};
use gui_base::Handle;
use gui_pool::Table;
use gui_tree::Tree;

/// Where the content area begins of an object that begins there.
pub fn inner_corner(axis: &Axis, at: i32) -> i32
    requires { IsPlaced at }
    ensures value { result ≡ at +ℤ pos axis.now.before }
    ensures least { negsuc 998999999 ≤ℤ result }
    ensures most { result ≤ℤ pos 999001100 }
{
    at + i32::from(axis.before)
}

/// How far something that is so large ends from a corner on.
fn far_from(from: i32, size: u16, corner: i32) -> i32
    requires from { IsPlaced from }
    requires size { size ≤ 8191 }
    requires least { negsuc 998999999 ≤ℤ corner }
    requires most { corner ≤ℤ pos 999001100 }
    ensures { result ≡ (from +ℤ pos size) -ℤ corner }
{
    from - corner + i32::from(size)
}

/// A number, or 0 where it is below.
fn at_least_none(n: i32) -> u32
    ensures { result ≡ nat_of n }
{
    if n < 0 { 0 } else { n.unsigned_abs() }
}

/// How far something that is so large reaches from a corner on: 0 where it ends before it.
fn end(from: i32, size: u16, corner: i32) -> u32
    requires from { IsPlaced from }
    requires size { size ≤ 8191 }
    requires least { negsuc 998999999 ≤ℤ corner }
    requires most { corner ≤ℤ pos 999001100 }
    ensures { result ≡ nat_of ((from +ℤ pos size) -ℤ corner) }
{
    at_least_none(far_from(from, size, corner))
}

/// The farther ends of those before and of a child, unless it is hidden, from a corner on.
pub fn farther(kid: &Entry, x: i32, y: i32, ends: Reach) -> Reach
    requires left { negsuc 998999999 ≤ℤ x }
    requires right { x ≤ℤ pos 999001100 }
    requires top { negsuc 998999999 ≤ℤ y }
    requires bottom { y ≤ℤ pos 999001100 }
    ensures across { (h : ℕ) → result.across ≡ (if kid.now.wanted.hidden then ends.across
        else max ends.across (end_across (at_corner x y)
        (tall_of (kid_by h kid.now)) (slot_of kid.now.position))) }
    ensures down { (h : ℕ) → result.down ≡ (if kid.now.wanted.hidden then ends.down
        else max ends.down (end_down (at_corner x y)
        (tall_of (kid_by h kid.now)) (slot_of kid.now.position))) }
{
    if kid.wanted.hidden {
        return ends;
    }
    let at = kid.position;
    Reach {
        across: ends.across.max(end(at.x, kid.width.pixels, x)),
        down: ends.down.max(end(at.y, at.height, y)),
    }
}

/// The farther ends of those before and of a child that is to stand there, unless it is hidden, in a content area.
pub fn farther_at(kid: &Entry, at: Position, inside: Inside, ends: Reach) -> Reach
    ensures across { (h : ℕ) → result.across ≡ (if kid.now.wanted.hidden then ends.across
        else max ends.across (end_across (room_in inside) (tall_of (kid_by h kid.now)) (slot_of at))) }
    ensures down { (h : ℕ) → result.down ≡ (if kid.now.wanted.hidden then ends.down
        else max ends.down (end_down (room_in inside) (tall_of (kid_by h kid.now)) (slot_of at))) }
{
    if kid.wanted.hidden {
        return ends;
    }
    Reach {
        across: ends.across.max(end(at.x, kid.width.pixels, inside.x)),
        down: ends.down.max(end(at.y, at.height, inside.y)),
    }
}

/// How far the children of an object reach out of its content area from where they stand. Hidden ones do not
/// count.
pub fn reach_of(tree: &Tree, entries: &Table<Entry>, h: Handle) -> Reach
    requires there { has tree.now.forest h.0 ≡ true }
    requires listed { AreListed (listing_of entries.now) (tree_at tree.now.forest h.0) }
    ensures { span_of result ≡ reach_in
        (room_of (tall_at (box_at (told entries.now).boxes) (told entries.now).widths
        (told entries.now).natural_heights h.0) (slot_at (told entries.now).slots h.0))
        (tall_kids (told entries.now) tree.now.forest h.0)
        (at_roots (told entries.now).slots (children_of tree.now.forest h.0)) }
{
    let own = entry_of(entries, h);
    let x = inner_corner(&own.wanted.across, own.position.x);
    let y = inner_corner(&own.wanted.down, own.position.y);
    let wide = inner(&own.wanted.across, own.width.pixels);
    let high = inner(&own.wanted.down, own.position.height);
    let mut ends = Reach { across: 0, down: 0 };
    for child in tree.children(h) {
        ends = farther(entry_of(entries, child), x, y, ends);
    }
    Reach {
        across: ends.across.saturating_sub(wide as u32),
        down: ends.down.saturating_sub(high as u32),
    }
}

/// The smaller of two numbers.
fn least(stored: u16, reach: u32) -> u16
    requires { stored ≤ 8191 }
    ensures value { result ≡ min stored reach }
    ensures small { result ≤ 8191 }
{
    (stored as u32).min(reach) as u16
}

/// How far an object moves its children that reach so far.
fn offset_of(own: &LayoutBox, reach: Reach) -> Offset
    ensures { (h : ℕ) → moves_of result ≡ offset_of (box_of h own.now) (span_of reach) }
{
    if !own.scrollable {
        return AT_REST;
    }
    Offset {
        across: least(own.across.scroll, reach.across),
        down: least(own.down.scroll, reach.down),
    }
}

/// How far an object scrolls its children that reach so far.
pub fn scrolled_by(own: &LayoutBox, reach: Reach) -> Scrolled
    ensures { (h : ℕ) → scrolled_of result ≡ scrolled_by (box_of h own.now) (span_of reach) }
{
    Scrolled {
        reach,
        offset: offset_of(own, reach),
    }
}

/// Whether nothing is moved.
pub fn is_none(offset: Offset) -> bool
    ensures still { result ≡ true → moves_of offset ≡ no_span }
    ensures moves { moves_of offset ≡ no_span → result ≡ true }
{
    offset.across == 0 && offset.down == 0
}

/// A coordinate of a content area's corner that is moved back.
fn back(from: i32, by: u16) -> i32
    requires from { IsInner from }
    requires by { by ≤ 8191 }
    requires room { pos 0 ≤ℤ (from +ℤ pos 940000000) }
    ensures value { result ≡ from -ℤ pos by }
    ensures fits { IsInner result }
{
    from - i32::from(by)
}

/// A content area in which children are moved so far.
pub fn moved_inside(inside: Inside, offset: Offset) -> Inside
    requires left { pos 0 ≤ℤ (inside.x +ℤ pos 940000000) }
    requires top { pos 0 ≤ℤ (inside.y +ℤ pos 940000000) }
    ensures { room_in result ≡ moved_room (moves_of offset) (room_in inside) }
{
    Inside {
        x: back(inside.x, offset.across),
        y: back(inside.y, offset.down),
        width: inside.width,
        height: inside.height,
    }
}

/// Finds anew how far the children of an object reach, unless it may move them.
pub fn renew_reach(tree: &Tree, entries: &mut Table<Entry>, h: Handle)
    requires there { has tree.now.forest h.0 ≡ true }
    requires listed { AreListed (listing_of entries.old) (tree_at tree.now.forest h.0) }
    ensures own { (box_at (told entries.old).boxes h.0).scrollable ≡ false →
        IsFlat tree.now.forest (told entries.new) h.0 }
    ensures reads { ReadsReaches tree.now.forest (told entries.old) (told entries.new) }
    ensures others { (k : ℕ) → eqb h.0 k ≡ false →
        scrolled_at (told entries.new).scrolls k ≡ scrolled_at (told entries.old).scrolls k }
    ensures listed { listing_of entries.new ≡ listing_of entries.old }
{
    if entry_of(entries, h).wanted.scrollable {
        return;
    }
    let reach = reach_of(tree, entries, h);
    let scrolled = Scrolled {
        reach,
        offset: AT_REST,
    };
    set_scrolled(entries, h, scrolled);
}
