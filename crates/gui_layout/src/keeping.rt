//! An object of which nothing else sees that it changed.
ghost use Rattle.std.specs.Prelude.{◌≡◌, ℕ, true, IfSome, [], ◌∷◌};
ghost use Rattle.layout_defs.specs.OwnHeights.{but_height};
ghost use Rattle.gui_flex.specs.Items.{placings_of};
ghost use Rattle.gui_store.specs.Views.{scene_of};
ghost use Rattle.gui_boxes.specs.Views.{axis_of, box_of};
ghost use Rattle.gui_layout.specs.Kept.{Keeps, height_alone};
ghost use Rattle.gui_layout.specs.Scenes.{scene_box};

use crate::objects::{box_in, own_height_of};
use gui_base::Handle;
use gui_boxes::axis::Axis;
use gui_boxes::entry::Entry;
use gui_boxes::layout_box::LayoutBox;
use gui_boxes::measuring::natural_size;
use gui_pool::Table;
use gui_store::Store;
use gui_tree::Tree;

/// The one object that is listed, if there is one alone.
pub(crate) fn only(listed: &[Handle]) -> Option<Handle>
    ensures { IfSome result (λ h. listed.now ≡ h ∷ []) }
{
    match listed {
        [h] => Some(*h),
        _ => None,
    }
}

/// Whether both want the same in their direction.
fn are_same_axes(some: &Axis, other: &Axis) -> bool
    ensures { result ≡ true → axis_of some.now ≡ axis_of other.now }
{
    some.size == other.size
        && some.wanted == other.wanted
        && some.before == other.before
        && some.after == other.after
        && some.gap == other.gap
        && some.side == other.side
        && some.scroll == other.scroll
}

/// Whether both take part in their parents alike and hold what is as wide, their axes apart.
fn are_alike(some: &LayoutBox, other: &LayoutBox) -> bool
    ensures own_width { result ≡ true → some.now.own_width ≡ other.now.own_width }
    ensures hidden { result ≡ true → some.now.hidden ≡ other.now.hidden }
    ensures grow { result ≡ true → some.now.grow ≡ other.now.grow }
{
    some.own_width == other.own_width && some.hidden == other.hidden && some.grow == other.grow
}

/// Whether both place their children alike, their axes apart.
fn are_placing_alike(some: &LayoutBox, other: &LayoutBox) -> bool
    ensures flow { result ≡ true → some.now.flow ≡ other.now.flow }
    ensures places { result ≡ true → placings_of some.now.places ≡ placings_of other.now.places }
    ensures scrollable { result ≡ true → some.now.scrollable ≡ other.now.scrollable }
{
    some.flow == other.flow && some.places == other.places && some.scrollable == other.scrollable
}

/// Whether both boxes are the same but for their own heights.
fn are_same_boxes(some: &LayoutBox, other: &LayoutBox) -> bool
    ensures { result ≡ true → (h : ℕ) → but_height (box_of h some.now) ≡ but_height (box_of h other.now) }
{
    if !are_same_axes(&some.across, &other.across) {
        return false;
    }
    if !are_same_axes(&some.down, &other.down) {
        return false;
    }
    if !are_alike(some, other) {
        return false;
    }
    are_placing_alike(some, other)
}

/// Whether an object with this entry that has no children has the box in a store that it had, but for its own height,
/// and is as high by nature.
fn is_same(store: &Store, h: Handle, own: &Entry) -> bool
    ensures wanted { result ≡ true →
        but_height (box_of h.0 own.now.wanted) ≡ but_height (scene_box (scene_of store.now) h.0) }
    ensures height { result ≡ true → own.now.natural_height.pixels
        ≡ height_alone (scene_box (scene_of store.now) h.0) own.now.width.pixels }
{
    let wanted = box_in(store, h);
    if !are_same_boxes(&own.wanted, &wanted) {
        return false;
    }
    let own_height = own_height_of(store, h, own);
    natural_size(&wanted.down, own_height) == own.natural_height.pixels
}

/// Whether an object is there that has a parent and no children, and by its entry it is to its parent what it was.
pub(crate) fn keeps(tree: &Tree, entries: &Table<Entry>, store: &Store, h: Handle) -> bool
    ensures { result ≡ true → Keeps tree.now.forest entries.now (scene_of store.now) h.0 }
{
    if !tree.has(h) || tree.parent(h).is_none() || tree.first_child(h).is_some() {
        return false;
    }
    match entries.get(h.0 as u32) {
        Some(own) => is_same(store, h, own),
        None => false,
    }
}
