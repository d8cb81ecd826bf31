//! What is painted of the trees that are shown, in paint order.
ghost use Rattle.std.specs.Prelude.{◌≡◌, ◌≤◌, ◌<◌, ◌+◌, ◌*◌, ◌++◌, ◌∷◌, List, [], true, false, IfOk, IfSome};
ghost use Rattle.std.specs.Prelude.{drop, length, position, take, vec_len, vec_capacity};
ghost use Rattle.gui_base.specs.Forest.{has, size, tree_at};
ghost use Rattle.gui_store.specs.Views.{scene_of};
ghost use Rattle.scene_defs.specs.Shown.{Entry as Painted, bars_over, entries, entries_in, own};
ghost use Rattle.gui_change.specs.Comes.{Comes};
ghost use Rattle.gui_change.specs.Entries.{IsEntryRoom, all_entries, owners};
ghost use Rattle.gui_change.specs.Fronts.{Fronts, is_of, names};
ghost use Rattle.gui_change.specs.Goes.{Goes};

use gui_base::{Handle, NoMemory};
use gui_store::{SYSTEM_LAYER, Store, TOP_LAYER};
use gui_tree::{Children, Tree};
use std::alloc::Global;

/// What is painted of an object at one time: what it shows by itself, or its bars.
#[derive(Clone, Copy)]
pub(crate) struct Entry {
    pub(crate) h: Handle,
    pub(crate) is_bars: bool,
}

/// An empty list with room for the entries of so many objects, or NoMemory where there is too little.
pub(crate) fn open_entries(alloc: Global, objects: u32) -> Result<Vec<Entry>, NoMemory>
    ensures { IfOk result (λ listed. IsEntryRoom objects listed) }
{
    let Ok(listed) = Vec::with_capacity(alloc, 2 * objects as usize) else {
        return Err(NoMemory);
    };
    Ok(listed)
}

/// Lists the objects of these trees: each by itself, what lies below it, and then its bars.
fn list_trees(tree: &Tree, listed: &mut Vec<Entry>, trees: Children<'_>)
    requires same { trees.forest ≡ tree.now.forest }
    requires room { vec_len listed.old + 2 * size trees.left ≤ vec_capacity listed.old }
    ensures listed { all_entries listed.new.items
        ≡ all_entries listed.old.items ++ entries_in trees.entry.left }
    ensures len { vec_len listed.new ≡ vec_len listed.old + 2 * size trees.entry.left }
    ensures capacity { vec_capacity listed.new ≡ vec_capacity listed.old }
{
    for h in trees {
        listed.push_reserved(Entry { h, is_bars: false });
        list_trees(tree, listed, tree.children(h));
        listed.push_reserved(Entry { h, is_bars: true });
    }
}

/// Lists an object by itself, all below it, and its bars.
fn list_tree(tree: &Tree, listed: &mut Vec<Entry>, h: Handle)
    requires there { has tree.now.forest h.0 ≡ true }
    requires room { vec_len listed.old + 2 * size (tree_at tree.now.forest h.0) ≤ vec_capacity listed.old }
    ensures listed { all_entries listed.new.items
        ≡ all_entries listed.old.items ++ entries_in (tree_at tree.now.forest h.0) }
    ensures len { vec_len listed.new ≡ vec_len listed.old + 2 * size (tree_at tree.now.forest h.0) }
    ensures capacity { vec_capacity listed.new ≡ vec_capacity listed.old }
{
    listed.push_reserved(Entry { h, is_bars: false });
    list_trees(tree, listed, tree.children(h));
    listed.push_reserved(Entry { h, is_bars: true });
}

/// Lists the objects of these entries, each where it is painted by itself. The list is empty before.
pub(crate) fn list_owners(painted: &[Entry], listed: &mut Vec<Handle>)
    requires empty { listed.old.items ≡ [] }
    requires len { vec_len listed.old ≡ 0 }
    requires room { length (owners painted.now) ≤ vec_capacity listed.old }
    ensures listed { listed.new.items ≡ owners painted.now }
    ensures capacity { vec_capacity listed.new ≡ vec_capacity listed.old }
{
    for entry in painted {
        if !entry.is_bars {
            listed.push_reserved(entry.h);
        }
    }
}

/// Lists all that is painted of a scene, the lowest first.
pub(crate) fn list_entries(store: &Store, listed: &mut Vec<Entry>)
    requires empty { listed.old.items ≡ [] }
    requires len { vec_len listed.old ≡ 0 }
    requires room { 2 * (scene_of store.now).limits.objects ≤ vec_capacity listed.old }
    ensures entries { all_entries listed.new.items ≡ entries (scene_of store.now) }
    ensures capacity { vec_capacity listed.new ≡ vec_capacity listed.old }
{
    let tree = store.tree();
    list_tree(tree, listed, store.active());
    list_tree(tree, listed, TOP_LAYER);
    list_tree(tree, listed, SYSTEM_LAYER);
}

/// How many of these entries stand before the first of an object, if there is one.
fn place_of(listed: &[Entry], h: Handle) -> Option<usize>
    ensures place { result ≡ position (λ e. is_of h.0 e) listed.now }
    ensures within { IfSome result (λ n. n < length listed.now) }
{
    listed.iter().position(|entry| entry.h == h)
}

/// Brings so many entries at the head behind so many that follow them.
fn bring_behind(listed: &mut [Entry], len: usize, more: usize)
    requires { len + more ≤ length listed.old }
    ensures { listed.new
        ≡ drop len (take (len + more) listed.old) ++ (take len listed.old ++ drop (len + more) listed.old) }
{
    // Three reversals, since `rotate_left` would clear a room of 4,096 bytes first.
    listed[..len].reverse();
    listed[len..len + more].reverse();
    listed[..len + more].reverse();
}

/// Brings the tree of an object, whose entries come first, right before the bars of its parent.
fn bring_to_bars(listed: &mut [Entry], h: Handle, parent: Handle)
    requires some { 0 < length listed.old }
    ensures { (inside beside after : List Painted) → names h.0 inside ≡ false → names parent.0 beside ≡ false →
        all_entries listed.old
        ≡ own h.0 ∷ (inside ++ (bars_over h.0 ∷ (beside ++ (bars_over parent.0 ∷ after)))) →
        all_entries listed.new
        ≡ beside ++ (own h.0 ∷ (inside ++ (bars_over h.0 ∷ (bars_over parent.0 ∷ after)))) }
{
    let Some(below) = place_of(&listed[1..], h) else {
        return;
    };
    let len = below + 2;
    let Some(more) = place_of(&listed[len..], parent) else {
        return;
    };
    bring_behind(listed, len, more);
}

/// Brings the tree of an object behind those that stand beside it, where it is listed.
pub(crate) fn bring_to_front(listed: &mut Vec<Entry>, h: Handle, parent: Handle)
    ensures listed { (after : List Painted) → Fronts h.0 parent.0 (all_entries listed.old.items) after →
        all_entries listed.new.items ≡ after }
    ensures capacity { vec_capacity listed.new ≡ vec_capacity listed.old }
{
    let Some(start) = place_of(listed.as_slice(), h) else {
        return;
    };
    bring_to_bars(&mut listed.as_mut_slice()[start..], h, parent);
}

/// Lists an object that came, the last child of its parent, right before the bars of that one, where this is listed.
pub(crate) fn add_last(listed: &mut Vec<Entry>, h: Handle, parent: Handle)
    requires room { length listed.old.items + 2 ≤ vec_capacity listed.old }
    ensures listed { (after : List Painted) → Comes h.0 parent.0 (all_entries listed.old.items) after →
        all_entries listed.new.items ≡ after }
    ensures capacity { vec_capacity listed.new ≡ vec_capacity listed.old }
{
    let Some(start) = place_of(listed.as_slice(), parent) else {
        return;
    };
    let Some(below) = place_of(&listed.as_slice()[start + 1..], parent) else {
        return;
    };
    let place = start + 1 + below;
    let count = listed.len() - place;
    listed.push_reserved(Entry { h, is_bars: false });
    listed.push_reserved(Entry { h, is_bars: true });
    bring_behind(&mut listed.as_mut_slice()[place..], count, 2);
}

/// Takes what is painted of the tree at an object out of the list, where that is listed.
pub(crate) fn take_out(listed: &mut Vec<Entry>, h: Handle)
    ensures listed { (after : List Painted) → Goes h.0 (all_entries listed.old.items) after →
        all_entries listed.new.items ≡ after }
    ensures capacity { vec_capacity listed.new ≡ vec_capacity listed.old }
{
    let Some(start) = place_of(listed.as_slice(), h) else {
        return;
    };
    let Some(below) = place_of(&listed.as_slice()[start + 1..], h) else {
        return;
    };
    let len = below + 2;
    let rest = listed.len() - start - len;
    bring_behind(&mut listed.as_mut_slice()[start..], len, rest);
    listed.truncate(start + rest);
}
