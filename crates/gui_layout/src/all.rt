//! All roots.
ghost use Rattle.std.specs.Prelude.{◌≡◌, ◌≤◌, ℕ, true, length};
ghost use Rattle.gui_base.specs.Forest.{has, size};
ghost use Rattle.gui_boxes.specs.Touched.{is_touched};
ghost use Rattle.gui_base.specs.Forest.{height as levels_of};
ghost use Rattle.gui_store.specs.Views.{scene_of};
ghost use Rattle.gui_layout.specs.Scenes.{scene_box, HoldsBoxes};
ghost use Rattle.gui_boxes.specs.Scrolls.{HoldsScrolls};
ghost use Rattle.gui_boxes.specs.Settled.{known, IsSettled};
ghost use Rattle.gui_boxes.specs.Tables.{told, listing_of, AreListed};

use crate::tree::solve_tree;
use gui_boxes::entry::Entry;
use gui_boxes::frame::Frame;
use gui_boxes::size::Size;
use gui_flex::FlexItem;
use gui_pool::Table;
use gui_store::Store;
use gui_tree::Tree;

/// Solves all roots, which fill the panel, and all below them: all are touched.
pub(crate) fn solve_trees(
    tree: &Tree,
    store: &Store,
    entries: &mut Table<Entry>,
    items: &mut [FlexItem],
    width: Size,
    height: Size,
)
    requires boxes { HoldsBoxes (told entries.old).boxes (scene_of store.now) }
    requires listed { AreListed (listing_of entries.old) tree.now.forest }
    requires touched { (k : ℕ) → has tree.now.forest k ≡ true → is_touched (told entries.old) k ≡ true }
    requires few { size tree.now.forest ≤ 4000 }
    requires low { levels_of tree.now.forest ≤ 16 }
    requires enough { size tree.now.forest ≤ length items.old }
    ensures settled { IsSettled width.pixels height.pixels
        (known (scene_box (scene_of store.now)) (told entries.new) tree.now.forest) }
    ensures scrolled { HoldsScrolls (scene_box (scene_of store.now)) (told entries.new).widths
        (told entries.new).natural_heights (told entries.new).slots (told entries.new).scrolls
        tree.now.forest }
    ensures boxes { HoldsBoxes (told entries.new).boxes (scene_of store.now) }
    ensures listed { listing_of entries.new ≡ listing_of entries.old }
{
    for root in tree.roots() {
        solve_tree(
            tree,
            store,
            entries,
            items,
            root,
            Frame::Panel(width, height),
        );
    }
}
