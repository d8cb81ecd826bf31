//! Objects whose list of children alone may be another.
ghost use Rattle.std.specs.Prelude.{◌≡◌, ◌<◌, ℕ, true, false, eqb};
ghost use Rattle.gui_pool.specs.Table.{value_at};
ghost use Rattle.gui_boxes.specs.Listing.{times};
ghost use Rattle.gui_boxes.specs.Pending.{is_any, is_first, is_partly, is_pending};
ghost use Rattle.gui_layout.specs.Raised.{Rests, rests};
ghost use Rattle.gui_boxes.specs.Tables.{listing_of};

use gui_base::Handle;
use gui_boxes::entry::Entry;
use gui_boxes::mark::Mark;
use gui_boxes::pending::is_partly;
use gui_boxes::steady::is_steady;
use gui_pool::Table;
use gui_tree::Tree;

/// Whether an object is there, and by the box that it has its place does not go by its children.
pub(crate) fn rests(tree: &Tree, entries: &Table<Entry>, h: Handle) -> bool
    ensures { result ≡ rests tree.now.forest entries.now h.0 }
{
    if !tree.has(h) {
        return false;
    }
    match entries.get(h.0 as u32) {
        Some(own) => is_steady(&own.wanted),
        None => false,
    }
}

/// Makes a mark of an object's children one of the object, but where it rests.
fn raise(tree: &Tree, entries: &Table<Entry>, pending: &mut Table<Mark>, h: Handle)
    ensures own { is_partly pending.old h.0 ≡ true → is_pending pending.new h.0 ≡ false →
        Rests tree.now.forest entries.now h.0 }
    ensures more { (k : ℕ) → is_pending pending.old k ≡ true → is_pending pending.new k ≡ true }
    ensures still { (k : ℕ) → is_partly pending.old k ≡ true → is_pending pending.new k ≡ false →
        is_partly pending.new k ≡ true }
    ensures any { (k : ℕ) → is_any (value_at pending.new k) ≡ is_any (value_at pending.old k) }
    ensures first { (k : ℕ) → is_first pending.new k ≡ is_first pending.old k }
    ensures listed { listing_of pending.new ≡ listing_of pending.old }
{
    if !is_partly(pending, h) {
        return;
    }
    if rests(tree, entries, h) {
        return;
    }
    let _ = pending.replace(h.0 as u32, Mark::Raised);
}

/// Makes the marks of children marks of their parents, but of those that rest.
pub(crate) fn raise_marks(
    tree: &Tree,
    entries: &Table<Entry>,
    pending: &mut Table<Mark>,
    marked: &[Handle],
)
    ensures own { (k : ℕ) → 0 < times marked.now k → is_partly pending.old k ≡ true →
        is_pending pending.new k ≡ false → Rests tree.now.forest entries.now k }
    ensures more { (k : ℕ) → is_pending pending.old k ≡ true → is_pending pending.new k ≡ true }
    ensures any { (k : ℕ) → is_any (value_at pending.new k) ≡ is_any (value_at pending.old k) }
    ensures first { (k : ℕ) → is_first pending.new k ≡ is_first pending.old k }
    ensures listed { listing_of pending.new ≡ listing_of pending.old }
{
    for h in marked {
        raise(tree, entries, pending, *h);
    }
}
