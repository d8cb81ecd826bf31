//! Marks that are still to be settled.
ghost use Rattle.std.specs.Prelude.{◌≡◌, ℕ, Some, true, false, eqb, is_some};
ghost use Rattle.gui_base.specs.Forest.{has, tree_at};
ghost use Rattle.gui_pool.specs.Table.{value_at};
ghost use Rattle.gui_boxes.specs.Pending.{is_all, is_first, is_own, is_partly, is_pending};
ghost use Rattle.gui_boxes.specs.Tables.{AreListed, listing_of, told};
ghost use Rattle.gui_boxes.specs.Touched.{is_touched, IsClosed};

use crate::entry::Entry;
use crate::mark::Mark;
use crate::tables::is_touched;
use gui_base::Handle;
use gui_pool::Table;
use gui_tree::Tree;

/// Whether an object is marked, and what the mark concerns is not settled yet.
pub fn is_pending(pending: &Table<Mark>, h: Handle) -> bool
    ensures { result ≡ is_pending pending.now h.0 }
{
    match pending.get(h.0 as u32) {
        Some(mark) => matches!(*mark, Mark::All | Mark::Raised),
        None => false,
    }
}

/// Whether of an object the list of children alone may be another.
pub fn is_partly(pending: &Table<Mark>, h: Handle) -> bool
    ensures { result ≡ is_partly pending.now h.0 }
{
    match pending.get(h.0 as u32) {
        Some(mark) => matches!(*mark, Mark::Children),
        None => false,
    }
}

/// Whether the mark of an object is one of the object itself, be it settled or not.
pub fn is_first(pending: &Table<Mark>, h: Handle) -> bool
    ensures { result ≡ is_first pending.now h.0 }
{
    match pending.get(h.0 as u32) {
        Some(mark) => matches!(*mark, Mark::All | Mark::Settled),
        None => false,
    }
}

/// Whether an object has a mark.
pub fn has_mark(pending: &Table<Mark>, h: Handle) -> bool
    ensures { result ≡ is_some (value_at pending.now h.0) }
{
    pending.get(h.0 as u32).is_some()
}

/// What a pending mark comes to that is settled. Of one that was raised the list of children alone is another.
fn settled(first: bool) -> Mark
    ensures done { is_all (Some result) ≡ false }
    ensures first { is_own (Some result) ≡ first }
{
    if first { Mark::Settled } else { Mark::Children }
}

/// What the mark of an object concerns is settled, if it has one.
fn finish(pending: &mut Table<Mark>, h: Handle)
    ensures own { is_pending pending.new h.0 ≡ false }
    ensures rest { (k : ℕ) → eqb h.0 k ≡ false → is_pending pending.new k ≡ is_pending pending.old k }
    ensures first { (k : ℕ) → is_first pending.new k ≡ is_first pending.old k }
    ensures listed { listing_of pending.new ≡ listing_of pending.old }
{
    if is_pending(pending, h) {
        let mark = settled(is_first(pending, h));
        let _ = pending.replace(h.0 as u32, mark);
    }
}

/// What the marks of the touched objects in the tree of an object concern is settled. No other object of it is marked.
pub fn finish_touched(tree: &Tree, entries: &Table<Entry>, pending: &mut Table<Mark>, h: Handle)
    requires there { has tree.now.forest h.0 ≡ true }
    requires listed { AreListed (listing_of entries.now) (tree_at tree.now.forest h.0) }
    requires closed { IsClosed (is_touched (told entries.now)) (tree_at tree.now.forest h.0) }
    requires marked { (k : ℕ) → has (tree_at tree.now.forest h.0) k ≡ true →
        is_pending pending.old k ≡ true → is_touched (told entries.now) k ≡ true }
    ensures own { (k : ℕ) → has (tree_at tree.now.forest h.0) k ≡ true → is_pending pending.new k ≡ false }
    ensures others { (k : ℕ) → has (tree_at tree.now.forest h.0) k ≡ false →
        is_pending pending.new k ≡ is_pending pending.old k }
    ensures first { (k : ℕ) → is_first pending.new k ≡ is_first pending.old k }
    ensures marks { listing_of pending.new ≡ listing_of pending.old }
{
    if !is_touched(entries, h) {
        return;
    }
    finish(pending, h);
    for child in tree.children(h) {
        finish_touched(tree, entries, pending, child);
    }
}
