//! Objects that have moved are listed, and all that were touched are let go.
ghost use Rattle.std.specs.Prelude.{◌≡◌, ◌≤◌, ◌<◌, ℕ, true, false, eqb, vec_capacity};
ghost use Rattle.gui_base.specs.Forest.{StandsOnce, has, size, tree_at};
ghost use Rattle.gui_boxes.specs.Frames.{Encloses};
ghost use Rattle.gui_boxes.specs.Listing.{times};
ghost use Rattle.gui_boxes.specs.Pending.{is_first};
ghost use Rattle.gui_boxes.specs.Tables.{AreListed, IsListed, listing_of, told};
ghost use Rattle.gui_boxes.specs.Telling.{ListsLeft, Tells};
ghost use Rattle.gui_boxes.specs.Touched.{is_touched};
ghost use Rattle.gui_layout.specs.Calm.{StandsOver, is_up};
ghost use Rattle.gui_layout.specs.Moved.{AreClosed};
ghost use Rattle.gui_layout.specs.Tops.{in_trees_at};

use gui_base::Handle;
use gui_boxes::entry::Entry;
use gui_boxes::mark::Mark;
use gui_boxes::tables::is_touched;
use gui_boxes::telling::{tell, tell_tree};
use gui_pool::Table;
use gui_tree::Tree;

/// Lets go of an object that is there, if it is touched, and lists it where it is marked, or has changed since it was
/// told last.
fn tell_one(
    tree: &Tree,
    entries: &mut Table<Entry>,
    pending: &Table<Mark>,
    moved: &mut Vec<Handle>,
    h: Handle,
)
    requires there { has tree.now.forest h.0 ≡ true }
    requires listed { IsListed (listing_of entries.old) h.0 }
    requires left { ListsLeft tree.now.forest (is_touched (told entries.old)) moved.old.items }
    requires room { size tree.now.forest ≤ vec_capacity moved.old }
    ensures tells { Tells tree.now.forest (is_first pending.now) (told entries.old) (told entries.new)
        moved.old.items moved.new.items }
    ensures own { is_touched (told entries.new) h.0 ≡ false }
    ensures others { (k : ℕ) → eqb h.0 k ≡ false →
        is_touched (told entries.new) k ≡ is_touched (told entries.old) k }
    ensures capacity { vec_capacity moved.new ≡ vec_capacity moved.old }
    ensures listed { listing_of entries.new ≡ listing_of entries.old }
{
    let _ = tree;
    if is_touched(entries, h) {
        tell(entries, pending, moved, h);
    }
}

/// Lets go of an object and of all above it, and lists those that have moved.
fn tell_up(
    tree: &Tree,
    entries: &mut Table<Entry>,
    pending: &Table<Mark>,
    moved: &mut Vec<Handle>,
    h: Handle,
)
    requires once { StandsOnce tree.now.forest }
    requires there { has tree.now.forest h.0 ≡ true }
    requires listed { (k : ℕ) → Encloses tree.now.forest k h.0 → has tree.now.forest k ≡ true →
        IsListed (listing_of entries.old) k }
    requires left { ListsLeft tree.now.forest (is_touched (told entries.old)) moved.old.items }
    requires room { size tree.now.forest ≤ vec_capacity moved.old }
    ensures tells { Tells tree.now.forest (is_first pending.now) (told entries.old) (told entries.new)
        moved.old.items moved.new.items }
    ensures own { (k : ℕ) → is_up tree.now.forest k h.0 ≡ true → is_touched (told entries.new) k ≡ false }
    ensures within { (k : ℕ) → is_touched (told entries.old) k ≡ true →
        is_touched (told entries.new) k ≡ false → is_up tree.now.forest k h.0 ≡ true }
    ensures capacity { vec_capacity moved.new ≡ vec_capacity moved.old }
    ensures listed { listing_of entries.new ≡ listing_of entries.old }
{
    tell_one(tree, entries, pending, moved, h);
    if let Some(parent) = tree.parent(h) {
        tell_up(tree, entries, pending, moved, parent);
    }
}

/// Lets go of an object and of all above it, if it is there, and lists those that have moved.
fn tell_there(
    tree: &Tree,
    entries: &mut Table<Entry>,
    pending: &Table<Mark>,
    moved: &mut Vec<Handle>,
    h: Handle,
)
    requires once { StandsOnce tree.now.forest }
    requires listed { has tree.now.forest h.0 ≡ true → (k : ℕ) → Encloses tree.now.forest k h.0 →
        has tree.now.forest k ≡ true → IsListed (listing_of entries.old) k }
    requires left { ListsLeft tree.now.forest (is_touched (told entries.old)) moved.old.items }
    requires room { size tree.now.forest ≤ vec_capacity moved.old }
    ensures tells { Tells tree.now.forest (is_first pending.now) (told entries.old) (told entries.new)
        moved.old.items moved.new.items }
    ensures own { has tree.now.forest h.0 ≡ true → (k : ℕ) → is_up tree.now.forest k h.0 ≡ true →
        is_touched (told entries.new) k ≡ false }
    ensures within { (k : ℕ) → is_touched (told entries.old) k ≡ true →
        is_touched (told entries.new) k ≡ false → is_up tree.now.forest k h.0 ≡ true }
    ensures some { (k : ℕ) → is_touched (told entries.old) k ≡ true →
        is_touched (told entries.new) k ≡ false → has tree.now.forest h.0 ≡ true }
    ensures capacity { vec_capacity moved.new ≡ vec_capacity moved.old }
    ensures listed { listing_of entries.new ≡ listing_of entries.old }
{
    if tree.has(h) {
        tell_up(tree, entries, pending, moved, h);
    }
}

/// Lets go of the marked objects that are there, and of all above them, and lists those that have moved.
pub(crate) fn tell_marked(
    tree: &Tree,
    entries: &mut Table<Entry>,
    pending: &Table<Mark>,
    moved: &mut Vec<Handle>,
    marked: &[Handle],
)
    requires once { StandsOnce tree.now.forest }
    requires listed { (h : ℕ) → 0 < times marked.now h → has tree.now.forest h ≡ true → (k : ℕ) →
        Encloses tree.now.forest k h → has tree.now.forest k ≡ true → IsListed (listing_of entries.old) k }
    requires left { ListsLeft tree.now.forest (is_touched (told entries.old)) moved.old.items }
    requires room { size tree.now.forest ≤ vec_capacity moved.old }
    ensures tells { Tells tree.now.forest (is_first pending.now) (told entries.old) (told entries.new)
        moved.old.items moved.new.items }
    ensures own { (k : ℕ) → StandsOver tree.now.forest marked.now k → is_touched (told entries.new) k ≡ false }
    ensures within { (k : ℕ) → is_touched (told entries.old) k ≡ true →
        is_touched (told entries.new) k ≡ false → StandsOver tree.now.forest marked.now k }
    ensures capacity { vec_capacity moved.new ≡ vec_capacity moved.old }
    ensures listed { listing_of entries.new ≡ listing_of entries.old }
{
    for h in marked {
        tell_there(tree, entries, pending, moved, *h);
    }
}

/// Lets go of the touched objects in the trees of these objects, and lists those that have moved.
pub(crate) fn tell_trees(
    tree: &Tree,
    entries: &mut Table<Entry>,
    pending: &Table<Mark>,
    moved: &mut Vec<Handle>,
    tops: &[Handle],
)
    requires once { StandsOnce tree.now.forest }
    requires there { (u : ℕ) → 0 < times tops.now u → has tree.now.forest u ≡ true }
    requires listed { (u : ℕ) → 0 < times tops.now u →
        AreListed (listing_of entries.old) (tree_at tree.now.forest u) }
    requires closed { AreClosed tree.now.forest (is_touched (told entries.old)) tops.now }
    requires left { ListsLeft tree.now.forest (is_touched (told entries.old)) moved.old.items }
    requires room { size tree.now.forest ≤ vec_capacity moved.old }
    ensures tells { Tells tree.now.forest (is_first pending.now) (told entries.old) (told entries.new)
        moved.old.items moved.new.items }
    ensures own { (k : ℕ) → in_trees_at tree.now.forest tops.now k ≡ true →
        is_touched (told entries.new) k ≡ false }
    ensures within { (k : ℕ) → is_touched (told entries.old) k ≡ true →
        is_touched (told entries.new) k ≡ false → in_trees_at tree.now.forest tops.now k ≡ true }
    ensures capacity { vec_capacity moved.new ≡ vec_capacity moved.old }
    ensures listed { listing_of entries.new ≡ listing_of entries.old }
{
    for top in tops {
        tell_tree(tree, entries, pending, moved, *top);
    }
}
