//! One object with all below it.
ghost use Rattle.std.specs.Prelude.{◌≡◌, ◌≤◌, true, length};
ghost use Rattle.gui_base.specs.Forest.{StandsOnce, has, height, size, tree_at};
ghost use Rattle.gui_store.specs.Views.{scene_of};
ghost use Rattle.gui_boxes.specs.Frames.{FrameIsNearby, StandsIn};
ghost use Rattle.gui_boxes.specs.Layouts.{KeepsRest};
ghost use Rattle.gui_layout.specs.Renewed.{AreRenewed, KeepsRenewed};
ghost use Rattle.gui_layout.specs.Scenes.{scene_box};
ghost use Rattle.gui_boxes.specs.Scrolls.{HoldsScrolls};
ghost use Rattle.gui_boxes.specs.Settled.{known, known_at, AllFit};
ghost use Rattle.gui_boxes.specs.Tables.{told, listing_of, AreListed};
ghost use Rattle.gui_boxes.specs.Touched.{is_touched};
ghost use Rattle.gui_layout.specs.Calm.{IsCalm, MovesTouched};

use crate::own_heights::set_own_heights;
use gui_base::Handle;
use gui_boxes::entry::Entry;
use gui_boxes::frame::Frame;
use gui_boxes::framed::{framed_position, framed_width};
use gui_boxes::heights::find_natural_heights;
use gui_boxes::natural::find_natural_widths;
use gui_boxes::positions::find_places;
use gui_boxes::tables::{entry_of, set_position, set_width};
use gui_boxes::widths::find_widths;
use gui_flex::FlexItem;
use gui_pool::Table;
use gui_store::Store;
use gui_tree::Tree;

/// Solves a touched object that stands by itself, and all touched below it, where all that is not touched is right.
/// What changes is touched. It leaves all others.
pub(crate) fn solve_tree(
    tree: &Tree,
    store: &Store,
    entries: &mut Table<Entry>,
    items: &mut [FlexItem],
    h: Handle,
    frame: Frame,
)
    requires once { StandsOnce tree.now.forest }
    requires boxes { AreRenewed (scene_of store.now) (told entries.old).boxes
        (tree_at tree.now.forest h.0) }
    requires listed { AreListed (listing_of entries.old) (tree_at tree.now.forest h.0) }
    requires few { size tree.now.forest ≤ 4000 }
    requires low { height tree.now.forest ≤ 16 }
    requires there { has tree.now.forest h.0 ≡ true }
    requires enough { size tree.now.forest ≤ length items.old }
    requires near { FrameIsNearby frame }
    requires own { is_touched (told entries.old) h.0 ≡ true }
    requires calm { IsCalm (scene_box (scene_of store.now)) (told entries.old) (tree_at tree.now.forest h.0) }
    ensures fit { AllFit (known (scene_box (scene_of store.now)) (told entries.new)
        (tree_at tree.now.forest h.0)) }
    ensures stands { StandsIn frame (known_at (scene_box (scene_of store.now)) (told entries.new) h.0) }
    ensures scrolled { HoldsScrolls (scene_box (scene_of store.now)) (told entries.new).widths
        (told entries.new).natural_heights (told entries.new).slots (told entries.new).scrolls
        (tree_at tree.now.forest h.0) }
    ensures moves { MovesTouched (scene_box (scene_of store.now)) (told entries.old) (told entries.new)
        (tree_at tree.now.forest h.0) }
    ensures others { KeepsRest (told entries.old) (told entries.new) (tree_at tree.now.forest h.0) }
    ensures boxes { KeepsRenewed (scene_of store.now) (told entries.old).boxes (told entries.new).boxes }
    ensures listed { listing_of entries.new ≡ listing_of entries.old }
{
    find_natural_widths(tree, entries, h);
    let own = entry_of(entries, h);
    let width = framed_width(frame, own);
    set_width(entries, h, width);
    find_widths(tree, entries, items, h);
    set_own_heights(tree, entries, store, h);
    find_natural_heights(tree, entries, items, h);
    let own = entry_of(entries, h);
    let position = framed_position(frame, own);
    set_position(entries, h, position);
    find_places(tree, entries, items, h);
}
