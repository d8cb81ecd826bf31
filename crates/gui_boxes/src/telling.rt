//! Objects that have changed are listed, and counted as told.
ghost use Rattle.std.specs.Prelude.{◌≡◌, ◌≤◌, ◌<◌, ℕ, None, true, false, eqb, IfSome, vec_len, vec_capacity};
ghost use Rattle.gui_base.specs.Forest.{has, size, tree_at};
ghost use Rattle.gui_boxes.specs.Layouts.{ButTold};
ghost use Rattle.gui_boxes.specs.Pending.{is_first};
ghost use Rattle.gui_boxes.specs.Tables.{AreListed, IsListed, listing_of, told};
ghost use Rattle.gui_boxes.specs.Telling.{IsSame, IsTold, IsUntold, ListsLeft, Tells};
ghost use Rattle.gui_boxes.specs.Touched.{is_touched, IsClosed};

use crate::entry::Entry;
use crate::listing::add_any;
use crate::mark::Mark;
use crate::pending::is_first;
use crate::tables::{entry_of, is_told, is_touched, let_rest};
use gui_base::Handle;
use gui_pool::Table;
use gui_tree::Tree;

/// An object that is marked, or has changed since it was told last, or None.
fn news_of(entries: &Table<Entry>, pending: &Table<Mark>, h: Handle) -> Option<Handle>
    requires { IsListed (listing_of entries.now) h.0 }
    ensures own { IfSome result (λ u. u ≡ h) }
    ensures none { result ≡ None → IsSame (is_first pending.now) (told entries.now) h.0 }
    ensures only { IsSame (is_first pending.now) (told entries.now) h.0 → result ≡ None }
{
    if is_first(pending, h) {
        return Some(h);
    }
    if is_told(entry_of(entries, h)) {
        None
    } else {
        Some(h)
    }
}

/// Lets go of a touched object, and lists it where it is marked, or has changed since it was told last.
pub fn tell(entries: &mut Table<Entry>, pending: &Table<Mark>, moved: &mut Vec<Handle>, h: Handle)
    requires listed { IsListed (listing_of entries.old) h.0 }
    requires touched { is_touched (told entries.old) h.0 ≡ true }
    requires room { vec_len moved.old < vec_capacity moved.old }
    ensures own { IsTold (is_first pending.now) (told entries.old) (told entries.new)
        moved.old.items moved.new.items h.0 }
    ensures others { (k : ℕ) → eqb h.0 k ≡ false → IsUntold (told entries.old) (told entries.new)
        moved.old.items moved.new.items k }
    ensures rest { ButTold (told entries.old) (told entries.new) }
    ensures capacity { vec_capacity moved.new ≡ vec_capacity moved.old }
    ensures listed { listing_of entries.new ≡ listing_of entries.old }
{
    let news = news_of(entries, pending, h);
    let_rest(entries, h);
    add_any(moved, news);
}

/// Lets go of the touched objects in the tree of an object, and lists those that are marked, or have changed since they
/// were told last. No touched object is listed yet, so that there is room.
pub fn tell_tree(
    tree: &Tree,
    entries: &mut Table<Entry>,
    pending: &Table<Mark>,
    moved: &mut Vec<Handle>,
    h: Handle,
)
    requires there { has tree.now.forest h.0 ≡ true }
    requires listed { AreListed (listing_of entries.old) (tree_at tree.now.forest h.0) }
    requires closed { IsClosed (is_touched (told entries.old)) (tree_at tree.now.forest h.0) }
    requires left { ListsLeft tree.now.forest (is_touched (told entries.old)) moved.old.items }
    requires room { size tree.now.forest ≤ vec_capacity moved.old }
    ensures tells { Tells tree.now.forest (is_first pending.now) (told entries.old) (told entries.new)
        moved.old.items moved.new.items }
    ensures rests { (k : ℕ) → has (tree_at tree.now.forest h.0) k ≡ true →
        is_touched (told entries.new) k ≡ false }
    ensures others { (k : ℕ) → has (tree_at tree.now.forest h.0) k ≡ false →
        is_touched (told entries.new) k ≡ is_touched (told entries.old) k }
    ensures capacity { vec_capacity moved.new ≡ vec_capacity moved.old }
    ensures listed { listing_of entries.new ≡ listing_of entries.old }
{
    if !is_touched(entries, h) {
        return;
    }
    tell(entries, pending, moved, h);
    for child in tree.children(h) {
        tell_tree(tree, entries, pending, moved, child);
    }
}
