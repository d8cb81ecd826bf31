//! Boxes that are made anew where objects have changed.
ghost use Rattle.std.specs.Prelude.{◌≡◌, ◌<◌, ℕ, true};
ghost use Rattle.gui_boxes.specs.Listing.{times};
ghost use Rattle.gui_base.specs.Forest.{has};
ghost use Rattle.gui_store.specs.Views.{scene_of};
ghost use Rattle.gui_boxes.specs.Layouts.{ButBoxes};
ghost use Rattle.gui_boxes.specs.Pending.{is_pending};
ghost use Rattle.gui_layout.specs.Renewed.{IsRenewed, KeepsRenewed};
ghost use Rattle.gui_boxes.specs.Tables.{told, listing_of, IsListed};

use crate::objects::box_in;
use gui_base::Handle;
use gui_boxes::entry::Entry;
use gui_boxes::mark::Mark;
use gui_boxes::pending::is_pending;
use gui_boxes::tables::set_wanted;
use gui_pool::Table;
use gui_store::Store;
use gui_tree::Tree;

/// Makes the box of an object anew, before its own height is known.
fn renew_box(entries: &mut Table<Entry>, store: &Store, h: Handle)
    requires { IsListed (listing_of entries.old) h.0 }
    ensures own { IsRenewed (scene_of store.now) (told entries.new).boxes h.0 }
    ensures kept { KeepsRenewed (scene_of store.now) (told entries.old).boxes (told entries.new).boxes }
    ensures rest { ButBoxes (told entries.old) (told entries.new) }
    ensures listed { listing_of entries.new ≡ listing_of entries.old }
{
    set_wanted(entries, h, box_in(store, h));
}

/// Makes the box of an object anew, if it is there and its mark is pending.
fn renew_pending(
    tree: &Tree,
    entries: &mut Table<Entry>,
    store: &Store,
    pending: &Table<Mark>,
    h: Handle,
)
    requires { is_pending pending.now h.0 ≡ true → has tree.now.forest h.0 ≡ true →
        IsListed (listing_of entries.old) h.0 }
    ensures own { is_pending pending.now h.0 ≡ true → has tree.now.forest h.0 ≡ true →
        IsRenewed (scene_of store.now) (told entries.new).boxes h.0 }
    ensures kept { KeepsRenewed (scene_of store.now) (told entries.old).boxes (told entries.new).boxes }
    ensures rest { ButBoxes (told entries.old) (told entries.new) }
    ensures listed { listing_of entries.new ≡ listing_of entries.old }
{
    if !is_pending(pending, h) {
        return;
    }
    if tree.has(h) {
        renew_box(entries, store, h);
    }
}

/// Makes the boxes of the listed objects anew that are there and whose marks are pending, before their own
/// heights are known.
pub(crate) fn renew_marked(
    tree: &Tree,
    entries: &mut Table<Entry>,
    store: &Store,
    marked: &[Handle],
    pending: &Table<Mark>,
)
    requires { (k : ℕ) → 0 < times marked.now k → is_pending pending.now k ≡ true →
        has tree.now.forest k ≡ true → IsListed (listing_of entries.old) k }
    ensures own { (k : ℕ) → 0 < times marked.now k → is_pending pending.now k ≡ true →
        has tree.now.forest k ≡ true → IsRenewed (scene_of store.now) (told entries.new).boxes k }
    ensures kept { KeepsRenewed (scene_of store.now) (told entries.old).boxes (told entries.new).boxes }
    ensures rest { ButBoxes (told entries.old) (told entries.new) }
    ensures listed { listing_of entries.new ≡ listing_of entries.old }
{
    for h in marked {
        renew_pending(tree, entries, store, pending, *h);
    }
}

/// Makes the boxes of all listed objects anew, before their own heights are known.
pub(crate) fn renew_all(entries: &mut Table<Entry>, store: &Store, listed: &[Handle])
    requires { (k : ℕ) → 0 < times listed.now k → IsListed (listing_of entries.old) k }
    ensures own { (k : ℕ) → 0 < times listed.now k →
        IsRenewed (scene_of store.now) (told entries.new).boxes k }
    ensures listed { listing_of entries.new ≡ listing_of entries.old }
{
    for h in listed {
        renew_box(entries, store, *h);
    }
}
