//! Visiting the objects of a scene, downward from the roots that are shown.
ghost use Rattle.std.specs.Prelude.{◌≡◌, ◌≤◌, ◌+◌, [], MatchOption, option_map, Some};
ghost use Rattle.gui_base.specs.Corners.{rect_of};
ghost use Rattle.gui_base.specs.Forest.{size, tree_by, children_by};
ghost use Rattle.scene_defs.specs.Place.{panel_of};
ghost use Rattle.scene_defs.specs.Scene.{is_at};
ghost use Rattle.gui_store.specs.Views.{scene_of};
ghost use Rattle.gui_paint.specs.Walking.{IsVisit, seen_through, tree_walk};

use crate::shown::Shown;
use gui_base::{Area, Flag, Handle, Steps};
use gui_store::Row;
use std::sync::ledger::Ledger;

/// Where an object stands, and what is seen of it.
#[derive(Clone, Copy)]
pub(crate) struct SeenObject {
    pub(crate) place: Area,
    pub(crate) visible: Area,
}

/// The area of the panel.
pub(crate) fn panel(shown: &Shown) -> Area
    ensures { rect_of result ≡ panel_of (scene_of shown.now.store.now) }
{
    let limits = shown.store.limits();
    Area::at(0, 0, limits.width, limits.height)
}

/// Visits an object, which is a step; the clip is what is seen of its parent. `None` says that nothing is
/// seen of it.
pub(crate) fn visit<L: Ledger>(
    shown: &Shown,
    clip: Area,
    h: Handle,
    steps: &mut Steps<L>,
) -> Option<SeenObject>
    ensures met { MatchOption result (tree_walk (scene_of shown.now.store.now) (rect_of clip) h.0 ≡ [])
        (λ visit. IsVisit (scene_of shown.now.store.now) (rect_of clip) h.0
        (rect_of visit.place) (rect_of visit.visible)) }
    ensures steps { let trees = (scene_of shown.now.store.now).trees in
        steps.new + size (children_by (is_at h.0) trees) ≤ steps.old + size (tree_by (is_at h.0) trees) }
{
    let row = shown.store.row(h)?;
    steps.tick();
    let place = shown.places.place(h)?;
    let visible = seen_part(row, clip, place)?;
    Some(SeenObject { place, visible })
}

/// The part of an object's place that is seen through a clip, or `None` if nothing of it is seen.
fn seen_part(row: &Row, clip: Area, place: Area) -> Option<Area>
    ensures { option_map rect_of result ≡ seen_through (rect_of clip) row.now (Some (rect_of place)) }
{
    if row.is_on(Flag::Hidden) {
        return None;
    }
    let part = clip.meet(place);
    if part.is_empty() { None } else { Some(part) }
}
