//! Finding the object that hides all that lies below it in an area.
ghost use Rattle.std.specs.Prelude.{◌≡◌, ◌≤◌, ◌+◌, fold, option_map};
ghost use Rattle.gui_base.specs.Corners.{rect_of};
ghost use Rattle.gui_base.specs.Forest.{size, tree_by};
ghost use Rattle.scene_defs.specs.Scene.{is_at};
ghost use Rattle.scene_defs.specs.Valid.{IsValid};
ghost use Rattle.cover_defs.specs.Cover.{is_cover};
ghost use Rattle.cover_defs.specs.Walks.{remembered};
ghost use Rattle.gui_store.specs.Views.{scene_of};
ghost use Rattle.gui_paint.specs.Walking.{StandsAt, number_of, seen_so, tree_walk};

use crate::hiding::{covers, has_area};
use crate::shown::Shown;
use crate::walk::{SeenObject, panel, visit};
use arrayvec::ArrayVec;
use gui_base::{Area, Handle, Steps};
use gui_store::{SYSTEM_LAYER, TOP_LAYER};
use gui_widgets::items;
use std::sync::ledger::Ledger;

impl<'a> Shown<'a> {
    ghost use Rattle.cover_defs.specs.Cover.{cover};
    ghost use Rattle.cover_defs.specs.Steps.{object_count};

    /// The last object that is shown and covers an area, or `None` if none does. What lies below it there is
    /// not seen. Each object that is visited is a step.
    pub fn cover_start<L: Ledger>(&self, area: Area, steps: &mut Steps<L>) -> Option<Handle>
        ensures cover { option_map (λ h. h.0) result ≡ cover (scene_of self.now.store.now) (rect_of area) }
        ensures steps { steps.new ≤ steps.old + object_count (scene_of self.now.store.now) }
    {
        let clip = panel(self);
        let screen = self.store.active();
        let mut search = Search {
            last: None,
            text: ArrayVec::new(),
        };
        find_cover(self, clip, screen, area, &mut search, steps);
        find_cover(self, clip, TOP_LAYER, area, &mut search, steps);
        find_cover(self, clip, SYSTEM_LAYER, area, &mut search, steps);
        search.last
    }
}

/// The last object that was found, if one was, and room for a text.
#[derive(Drop)]
struct Search {
    last: Option<Handle>,
    text: ArrayVec<u8, 1000>,
}

/// Finds the last object that covers an area among one and all below it, if one does. The clip is what is seen
/// of its parent.
fn find_cover<L: Ledger>(
    shown: &Shown,
    clip: Area,
    h: Handle,
    part: Area,
    search: &mut Search,
    steps: &mut Steps<L>,
)
    ensures last { let scene = scene_of shown.now.store.now in
        number_of search.new.last ≡ fold (remembered scene (rect_of part)) (number_of search.old.last)
        (tree_walk scene (rect_of clip) h.0) }
    ensures steps { steps.new
        ≤ steps.old + size (tree_by (is_at h.0) (scene_of shown.now.store.now).trees) }
{
    let tree = shown.store.tree();
    let Some(seen) = visit(shown, clip, h, steps) else {
        return;
    };
    remember(shown, seen, h, part, search);
    for child in tree.children(h) {
        find_cover(shown, seen.visible, child, part, search, steps);
    }
}

/// Finds an object that is seen so, if it covers an area.
fn remember(shown: &Shown, seen: SeenObject, h: Handle, part: Area, search: &mut Search)
    requires valid { IsValid (scene_of shown.now.store.now) }
    requires stands { StandsAt (scene_of shown.now.store.now) h.0 (rect_of seen.place) }
    ensures { let scene = scene_of shown.now.store.now in
        number_of search.new.last ≡ remembered scene (rect_of part) (number_of search.old.last)
        (seen_so scene (rect_of seen.visible) h.0) }
{
    if is_cover(shown, seen, h, part, &mut search.text) {
        search.last = Some(h);
    }
}

/// Whether an object that is seen so covers an area. Nothing of it is looked up if too little is seen of it.
fn is_cover(
    shown: &Shown,
    seen: SeenObject,
    h: Handle,
    part: Area,
    text: &mut ArrayVec<u8, 1000>,
) -> bool
    requires valid { IsValid (scene_of shown.now.store.now) }
    requires stands { StandsAt (scene_of shown.now.store.now) h.0 (rect_of seen.place) }
    ensures { let scene = scene_of shown.now.store.now in
        result ≡ is_cover scene (rect_of part) (seen_so scene (rect_of seen.visible) h.0) }
{
    if !has_area(seen.visible, part) {
        return false;
    }
    let look = shown.places.paint_look(shown.store, h, text);
    let items = items(&look, seen.place);
    covers(seen.visible, items.as_slice(), part)
}
