//! The objects that have entries.
ghost use Rattle.std.specs.Prelude.{◌≡◌, ◌≤◌, ◌<◌, ◌+◌, ◌++◌, [], ℕ, true, None, length, vec_len};
ghost use Rattle.std.specs.Prelude.{vec_capacity};
ghost use Rattle.std.specs.Option.{option_to_list};
ghost use Rattle.gui_base.specs.Forest.{preorder, size};
ghost use Rattle.gui_pool.specs.Table.{value_at, value_inserted};
ghost use Rattle.gui_tree.specs.Handles.{numbers};
ghost use Rattle.gui_boxes.specs.Listing.{AreProper, HasThese};

use gui_base::Handle;
use gui_pool::Table;
use gui_tree::{Children, Tree};

/// Lists these trees after what is listed, each object before those below it.
pub fn list_trees(tree: &Tree, listed: &mut Vec<Handle>, trees: Children<'_>)
    requires same { trees.forest ≡ tree.now.forest }
    requires room { vec_len listed.old + size trees.left ≤ vec_capacity listed.old }
    ensures listed { numbers listed.new.items ≡ numbers listed.old.items ++ preorder trees.entry.left }
    ensures len { vec_len listed.new ≡ vec_len listed.old + size trees.entry.left }
    ensures capacity { vec_capacity listed.new ≡ vec_capacity listed.old }
{
    for h in trees {
        listed.push_reserved(h);
        list_trees(tree, listed, tree.children(h));
    }
}

/// Lists an object, if there is one.
pub fn add_any(listed: &mut Vec<Handle>, h: Option<Handle>)
    requires room { length listed.old.items < vec_capacity listed.old }
    ensures items { listed.new.items ≡ listed.old.items ++ option_to_list h }
    ensures capacity { vec_capacity listed.new ≡ vec_capacity listed.old }
{
    if let Some(h) = h {
        listed.push_reserved(h);
    }
}

/// Whether both list the same objects in the same order.
pub fn are_same(some: &[Handle], others: &[Handle]) -> bool
    ensures same { result ≡ true → some.now ≡ others.now }
    ensures other { some.now ≡ others.now → result ≡ true }
{
    if some.len() != others.len() {
        return false;
    }
    for i in 0..some.len() {
        if some[i].0 != others[i].0 {
            return false;
        }
    }
    true
}

/// Takes the values of all listed objects out of a table.
pub fn clear<T: Drop>(table: &mut Table<T>, listed: &[Handle])
    ensures these { (objects : ℕ) → HasThese objects table.old listed.now → HasThese objects table.new [] }
    ensures keys { length table.new.values ≡ length table.old.values }
{
    for h in listed {
        let _ = table.remove(h.0 as u32);
    }
}

/// Gives a value to an object that has none.
pub fn put<T: Drop>(table: &mut Table<T>, h: Handle, value: T)
    requires within { h.0 < length table.old.values }
    requires vacant { value_at table.old h.0 ≡ None }
    requires room { 0 < table.old.spare }
    ensures { table.new ≡ value_inserted table.old h.0 value }
{
    let Ok(()) = table.insert(h.0 as u32, value) else {
        unreachable!()
    };
}

/// Gives the same value to all listed objects, none of which has one.
pub fn fill<T: Copy>(table: &mut Table<T>, listed: &[Handle], value: T)
    requires blank { HasThese table.old.spare table.old [] }
    requires few { length listed.now ≤ table.old.spare }
    requires proper { AreProper listed.now }
    ensures { HasThese table.old.spare table.new listed.now }
{
    for h in listed {
        put(table, *h, value);
    }
}
