//! Objects that are gone.
ghost use Rattle.std.specs.Prelude.{◌≡◌, ◌≤◌, ℕ, [], eqb, is_some, true, false, length, vec_capacity, IfNone, IfSome};
ghost use Rattle.gui_base.specs.Forest.{has};
ghost use Rattle.gui_pool.specs.Table.{value_at};
ghost use Rattle.gui_boxes.specs.Gone.{HasLeft, HaveLeft, StandsAt};
ghost use Rattle.gui_boxes.specs.Listing.{HasThese, KeepsThose, SameValue, those_in, times};

use crate::entry::Entry;
use gui_base::Handle;
use gui_pool::Table;
use gui_tree::Tree;

/// Takes out the entries of the listed objects that a tree does not have, and lists those that stay in
/// `found`.
pub fn take_gone(
    tree: &Tree,
    listed: &[Handle],
    found: &mut Vec<Handle>,
    entries: &mut Table<Entry>,
)
    requires empty { found.old.items ≡ [] }
    requires room { length listed.now ≤ vec_capacity found.old }
    ensures found { found.new.items ≡ those_in tree.now.forest listed.now }
    ensures kept { KeepsThose tree.now.forest listed.now entries.old entries.new }
    ensures capacity { vec_capacity found.new ≡ vec_capacity found.old }
{
    for h in listed {
        if tree.has(*h) {
            found.push_reserved(*h);
        } else {
            let _ = entries.remove(h.0 as u32);
        }
    }
}

/// Whether an object is there, or has no entry.
fn has_left(tree: &Tree, entries: &Table<Entry>, h: Handle) -> bool
    ensures left { result ≡ true → HasLeft tree.now.forest entries.now h.0 }
    ensures known { HasLeft tree.now.forest entries.now h.0 → result ≡ true }
{
    if tree.has(h) {
        return true;
    }
    entries.get(h.0 as u32).is_none()
}

/// Whether none of these objects that are gone has an entry still.
pub fn have_left(tree: &Tree, entries: &Table<Entry>, listed: &[Handle]) -> bool
    ensures left { result ≡ true → HaveLeft tree.now.forest entries.now listed.now }
    ensures known { HaveLeft tree.now.forest entries.now listed.now → result ≡ true }
{
    for h in listed {
        if !has_left(tree, entries, *h) {
            return false;
        }
    }
    true
}

/// Where the last of these is that stands for an object. What has come last is found first.
fn last_place(listed: &[Handle], h: Handle) -> Option<usize>
    ensures found { IfSome result (λ i. StandsAt listed.now i h.0) }
    ensures none { IfNone result (times listed.now h.0 ≡ 0) }
{
    let mut left = listed.len();
    while left > 0 {
        left -= 1;
        if listed[left] == h {
            return Some(left);
        }
    }
    None
}

/// Takes out the entry of an object, if it has one, and takes the object from those that are listed.
fn take_out(listed: &mut Vec<Handle>, entries: &mut Table<Entry>, h: Handle)
    ensures these { (objects : ℕ) → HasThese objects entries.old listed.old.items →
        HasThese objects entries.new listed.new.items }
    ensures own { is_some (value_at entries.new h.0) ≡ false }
    ensures others { (k : ℕ) → eqb h.0 k ≡ false → SameValue k entries.old entries.new }
    ensures capacity { vec_capacity listed.new ≡ vec_capacity listed.old }
{
    let taken = entries.remove(h.0 as u32);
    if taken.is_none() {
        return;
    }
    if let Some(i) = last_place(listed.as_slice(), h) {
        let _ = listed.swap_remove(i);
    }
}

/// Takes out the entry of an object, if a tree does not have it, and takes it from those that are listed.
fn take_one(tree: &Tree, listed: &mut Vec<Handle>, entries: &mut Table<Entry>, h: Handle)
    ensures these { (objects : ℕ) → HasThese objects entries.old listed.old.items →
        HasThese objects entries.new listed.new.items }
    ensures own { HasLeft tree.now.forest entries.new h.0 }
    ensures kept { (k : ℕ) → has tree.now.forest k ≡ true → SameValue k entries.old entries.new }
    ensures none { (k : ℕ) → is_some (value_at entries.old k) ≡ false →
        is_some (value_at entries.new k) ≡ false }
    ensures capacity { vec_capacity listed.new ≡ vec_capacity listed.old }
{
    if tree.has(h) {
        return;
    }
    take_out(listed, entries, h);
}

/// Takes out the entries of those of these objects that a tree does not have, one by one, and takes them from
/// those that are listed.
pub fn take_each(
    tree: &Tree,
    marked: &[Handle],
    listed: &mut Vec<Handle>,
    entries: &mut Table<Entry>,
)
    ensures these { (objects : ℕ) → HasThese objects entries.old listed.old.items →
        HasThese objects entries.new listed.new.items }
    ensures gone { HaveLeft tree.now.forest entries.new marked.now }
    ensures kept { (k : ℕ) → has tree.now.forest k ≡ true → SameValue k entries.old entries.new }
    ensures none { (k : ℕ) → is_some (value_at entries.old k) ≡ false →
        is_some (value_at entries.new k) ≡ false }
    ensures capacity { vec_capacity listed.new ≡ vec_capacity listed.old }
{
    for h in marked {
        take_one(tree, listed, entries, *h);
    }
}
