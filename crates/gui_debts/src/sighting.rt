//! Where objects are seen, one after another in paint order.
ghost use Rattle.std.specs.Prelude.{◌≡◌, Some, IfSome, option_map};
ghost use Rattle.gui_base.specs.Corners.{rect_of};
ghost use Rattle.gui_base.specs.Forest.{parent_of};
ghost use Rattle.gui_tree.specs.Handles.{as_handle};
ghost use Rattle.scene_defs.specs.Place.{place};
ghost use Rattle.scene_defs.specs.Scene.{handles_of};
ghost use Rattle.scene_defs.specs.Visible.{some_area, visible};
ghost use Rattle.gui_layout.specs.Solved.{AreSolved};
ghost use Rattle.gui_store.specs.Views.{scene_of};
ghost use Rattle.gui_debts.specs.Sightings.{IsSighted};

use gui_base::{Area, Flag, Handle};
use gui_layout::{Places, met};
use gui_store::Store;

/// Where an object stands and where it is seen, if it stands somewhere and something is seen of it.
#[derive(Clone, Copy)]
pub struct Sighting {
    /// The object.
    pub h: Handle,
    /// Its place.
    pub place: Option<Area>,
    /// The part of its place that is seen.
    pub visible: Option<Area>,
}

/// The area, if it has a pixel.
fn some_area(area: Area) -> Option<Area>
    ensures { option_map rect_of result ≡ some_area (rect_of area) }
{
    if area.is_empty() { None } else { Some(area) }
}

/// What is seen of an object, by all that stands above it.
fn sight(store: &Store, places: &Places, h: Handle) -> Sighting
    requires { AreSolved places.now (scene_of store.now) }
    ensures seen { IsSighted (scene_of store.now) result }
    ensures handle { result.h ≡ h }
{
    Sighting {
        h,
        place: places.place(h),
        visible: some_area(places.visible(store, h)),
    }
}

/// Where an object is seen that stands there, according to what is seen of its parent.
fn visible_below(store: &Store, h: Handle, parent: &Sighting, at: Option<Area>) -> Option<Area>
    requires parent { Some parent.now.h
        ≡ option_map as_handle (parent_of (handles_of (scene_of store.now).trees) h.0) }
    requires seen { IsSighted (scene_of store.now) parent.now }
    requires place { option_map rect_of at ≡ place (scene_of store.now) h.0 }
    ensures { option_map rect_of result ≡ visible (scene_of store.now) h.0 }
{
    let _tree = store.tree();
    let Some(row) = store.row(h) else {
        return None;
    };
    if row.is_on(Flag::Hidden) {
        return None;
    }
    met(parent.visible, at)
}

/// The object that was seen last, and its parent. Most objects stand in one of these, or beside it.
#[derive(Clone, Copy)]
pub struct Nearby {
    /// The object that was seen last.
    pub last: Sighting,
    /// Its parent, or another that was seen before.
    pub above: Sighting,
}

impl Nearby {
    ghost use Rattle.gui_debts.specs.Sightings.{AreSighted};

    /// The active screen.
    pub fn new(store: &Store, places: &Places) -> Nearby
        requires { AreSolved places.now (scene_of store.now) }
        ensures { AreSighted (scene_of store.now) result }
    {
        let screen = sight(store, places, store.active());
        Nearby {
            last: screen,
            above: screen,
        }
    }

    /// What is seen of an object.
    fn known(&self, store: &Store, places: &Places, h: Handle) -> Sighting
        requires solved { AreSolved places.now (scene_of store.now) }
        requires nearby { AreSighted (scene_of store.now) self.now }
        ensures seen { IsSighted (scene_of store.now) result }
        ensures handle { result.h ≡ h }
    {
        if self.last.h == h {
            self.last
        } else if self.above.h == h {
            self.above
        } else {
            sight(store, places, h)
        }
    }

    /// Sees an object through what is seen of its parent.
    pub fn see(&mut self, store: &Store, places: &Places, h: Handle) -> Sighting
        requires solved { AreSolved places.now (scene_of store.now) }
        requires nearby { AreSighted (scene_of store.now) self.old }
        ensures seen { IsSighted (scene_of store.now) result }
        ensures handle { result.h ≡ h }
        ensures nearby { AreSighted (scene_of store.now) self.new }
    {
        let Some(parent) = store.tree().parent(h) else {
            self.last = sight(store, places, h);
            return self.last;
        };
        self.above = self.known(store, places, parent);
        let place = places.place(h);
        self.last = Sighting {
            h,
            place,
            visible: visible_below(store, h, &self.above, place),
        };
        self.last
    }
}
