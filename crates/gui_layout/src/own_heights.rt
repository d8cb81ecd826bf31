//! Own heights, at the widths that were found.
ghost use Rattle.std.specs.Prelude.{◌≡◌, true};
ghost use Rattle.gui_base.specs.Forest.{has, tree_at};
ghost use Rattle.gui_store.specs.Views.{scene_of};
ghost use Rattle.gui_boxes.specs.Layouts.{ButBoxes};
ghost use Rattle.gui_layout.specs.OwnHeights.{IsFixed, AreFixedIf, KeepsFixed};
ghost use Rattle.gui_layout.specs.Renewed.{IsRenewed, AreRenewed, KeepsRenewed};
ghost use Rattle.gui_layout.specs.Scenes.{scene_box};
ghost use Rattle.gui_boxes.specs.Tables.{told, listing_of, IsListed, AreListed};
ghost use Rattle.gui_boxes.specs.Touched.{is_touched, IsClosed};

use crate::objects::own_height_of;
use gui_base::Handle;
use gui_boxes::entry::Entry;
use gui_boxes::tables::{entry_of, is_touched, set_wanted};
use gui_pool::Table;
use gui_store::Store;
use gui_tree::Tree;

/// Sets the own height of an object whose width is found.
fn set_own_height(entries: &mut Table<Entry>, store: &Store, h: Handle)
    requires listed { IsListed (listing_of entries.old) h.0 }
    requires boxes { IsRenewed (scene_of store.now) (told entries.old).boxes h.0 }
    ensures fixed { IsFixed (scene_box (scene_of store.now)) (told entries.old).widths
        (told entries.new).boxes h.0 }
    ensures kept { KeepsFixed (scene_box (scene_of store.now)) (told entries.old).widths
        (told entries.old).boxes (told entries.new).boxes }
    ensures boxes { KeepsRenewed (scene_of store.now) (told entries.old).boxes (told entries.new).boxes }
    ensures rest { ButBoxes (told entries.old) (told entries.new) }
    ensures listed { listing_of entries.new ≡ listing_of entries.old }
{
    let own = entry_of(entries, h);
    let own_height = own_height_of(store, h, own);
    if own_height == own.wanted.own_height {
        return;
    }
    let mut changed = own.wanted;
    changed.own_height = own_height;
    set_wanted(entries, h, changed);
}

/// Sets the own heights of the touched objects in the tree of an object, whose widths are found.
pub(crate) fn set_own_heights(tree: &Tree, entries: &mut Table<Entry>, store: &Store, h: Handle)
    requires listed { AreListed (listing_of entries.old) (tree_at tree.now.forest h.0) }
    requires there { has tree.now.forest h.0 ≡ true }
    requires boxes { AreRenewed (scene_of store.now) (told entries.old).boxes
        (tree_at tree.now.forest h.0) }
    requires closed { IsClosed (is_touched (told entries.old)) (tree_at tree.now.forest h.0) }
    ensures fixed { AreFixedIf (is_touched (told entries.old)) (scene_box (scene_of store.now))
        (told entries.old).widths (told entries.new).boxes (tree_at tree.now.forest h.0) }
    ensures kept { KeepsFixed (scene_box (scene_of store.now)) (told entries.old).widths
        (told entries.old).boxes (told entries.new).boxes }
    ensures boxes { KeepsRenewed (scene_of store.now) (told entries.old).boxes (told entries.new).boxes }
    ensures rest { ButBoxes (told entries.old) (told entries.new) }
    ensures listed { listing_of entries.new ≡ listing_of entries.old }
{
    if !is_touched(entries, h) {
        return;
    }
    set_own_height(entries, store, h);
    for child in tree.children(h) {
        set_own_heights(tree, entries, store, child);
    }
}
