//! What is seen of one object.
ghost use Rattle.std.specs.Prelude.{◌≡◌, ℕ, [], true, ◌&&◌, None, Some, IfSome, is_some, option_map, option_copied};
ghost use Rattle.gui_base.specs.Corners.{rect_of};
ghost use Rattle.layout_defs.specs.Reach.{IsNear};
ghost use Rattle.gui_widgets.specs.Looks.{items_of as items_shown};
ghost use Rattle.scene_defs.specs.Scene.{Scene, is_there, object_at};
ghost use Rattle.scene_defs.specs.Place.{place};
ghost use Rattle.scene_defs.specs.Items.{items, items_of};
ghost use Rattle.gui_layout.specs.Solved.{AreReached, AreSolved};
ghost use Rattle.gui_store.specs.Views.{scene_of};
ghost use Rattle.gui_debts.specs.Owed.{sight_of};
ghost use Rattle.gui_debts.specs.Bars.{bars_in, kept_in};
ghost use Rattle.gui_debts.specs.Kept.{packed_in, shows_none, wide};
ghost use Rattle.gui_debts.specs.Seen.{IsSeen, KeepsItems, bars_by, bars_seen, items_by, items_known, paints_alone, place_in};
ghost use Rattle.gui_debts.specs.Seen.{visible_of};
ghost use Rattle.gui_debts.specs.Sightings.{IsSighted};

use crate::bars::{Bars, bars_at};
use crate::kept::{KeptBars, ShownBars, keep};
use crate::same::same_corners;
use crate::sighting::Sighting;
use arrayvec::ArrayVec;
use gui_base::{Area, Handle};
use gui_layout::Places;
use gui_pack::{Paints, paints};
use gui_store::Store;
use gui_widgets::Item;

/// What is seen of an object of the trees that are shown.
#[derive(Drop)]
pub struct Seen {
    /// Where it is seen, if something is seen of it.
    pub visible: Option<Area>,
    /// All that it paints by itself, in the place where it was seen last. Of an object that is seen nowhere it
    /// may be unknown.
    pub paints: Option<Paints>,
    /// The bars that it shows over its children, as they are kept beside its place, if it is seen somewhere.
    pub bars: KeptBars,
}

/// An object of the trees that are shown, as it comes in paint order.
#[derive(Clone, Copy)]
pub struct ShownEntry<'a> {
    /// Its handle.
    pub h: Handle,
    /// Whether its bars are to be painted now, or else what it shows by itself.
    pub is_bars: bool,
    /// What is seen of it. Most objects are not seen in a slice, so nothing else is made before it is asked for.
    pub seen: &'a Seen,
}

impl Seen {
    /// Nothing.
    pub fn nothing() -> Seen
        ensures sight { sight_of (Some result) ≡ sight_of None }
        ensures items { items_known result.paints ≡ [] }
    {
        Seen {
            visible: None,
            paints: None,
            bars: keep(Bars::none()),
        }
    }

    /// Where the object stands, if it stands somewhere.
    pub fn place(&self) -> Option<Area>
        ensures { option_map rect_of result ≡ place_in (items_known self.now.paints) }
    {
        match &self.paints {
            Some(paints) => Some(paints.place),
            None => None,
        }
    }

    /// The bars that it shows over its children.
    pub fn bars(&self) -> Bars
        ensures items { bars_in result ≡ bars_seen self.now }
        ensures kept { kept_in result
            ≡ wide (packed_in self.now.bars) (place_in (items_known self.now.paints)) }
    {
        self.bars.beside(self.place())
    }

    /// The record of its object in a place, as far as what is known tells.
    fn paints_in(&self, place: Area) -> Option<Paints>
        ensures { IfSome result (λ moved. (scene : Scene) (h : ℕ) → KeepsItems scene h self.now →
            items_known (Some moved) ≡ items_of scene (object_at scene h) (Some (rect_of place))) }
    {
        match &self.paints {
            Some(paints) => paints_in(paints, place),
            None => None,
        }
    }
}

/// All that is painted according to what is known of an object, from back to front.
pub(crate) fn items_known(paints: Option<&Paints>) -> ArrayVec<Item, 6>
    ensures { items_shown result.items ≡ items_known (option_copied paints.entry) }
{
    match paints {
        Some(paints) => paints.items(),
        None => ArrayVec::new(),
    }
}

impl ShownEntry<'_> {
    /// Where it is seen, if something is seen of it.
    pub fn visible(&self) -> Option<Area>
        ensures { option_map rect_of result ≡ visible_of self.now }
    {
        self.seen.visible
    }

    /// All that it paints by itself, from back to front. If it is seen nowhere, this need not be so.
    pub fn items(&self) -> ArrayVec<Item, 6>
        ensures { items_shown result.items ≡ items_by self.now }
    {
        items_known(self.seen.paints.as_ref())
    }

    /// The two items of an object that paints its own part alone, as most do. `None` for any other.
    pub fn alone(&self) -> Option<[Item; 2]>
        ensures alone { is_some result ≡ paints_alone self.now.seen.now.paints }
        ensures items { IfSome result (λ items. items_shown items ≡ items_by self.now) }
    {
        match &self.seen.paints {
            Some(paints) => paints.alone(),
            None => None,
        }
    }

    /// Whether its bars are to be painted and there are none, as of most objects.
    pub fn is_no_bars(&self) -> bool
        ensures { result ≡ (self.now.is_bars && shows_none self.now.seen.now.bars.shown) }
    {
        self.is_bars && matches!(self.seen.bars.shown, ShownBars::Nothing)
    }

    /// The bars that it shows over its children, from back to front. If it is seen nowhere, this need not be so.
    pub fn bars(&self) -> Bars
        ensures { bars_in result ≡ bars_by self.now }
    {
        self.seen.bars()
    }
}

/// All that an object paints which is there and stands here.
fn paints_at(store: &Store, places: &Places, h: Handle, at: Option<Area>) -> Option<Paints>
    requires place { option_map rect_of at ≡ place (scene_of store.now) h.0 }
    requires near { IfSome at (λ area. IsNear (rect_of area)) }
    requires there { is_there (scene_of store.now) h.0 ≡ true }
    ensures { items_known result ≡ items (scene_of store.now) h.0 }
{
    let area = at?;
    let mut text = ArrayVec::new();
    let look = places.paint_look(store, h, &mut text);
    Some(paints(&look, area))
}

/// The record of an object in a place, as far as its record tells: the same if it stood there, and else one of
/// what paints its own part alone.
fn paints_in(paints: &Paints, place: Area) -> Option<Paints>
    ensures { let was = items_known (Some paints.now) in
        IfSome result (λ moved. (scene : Scene) (h : ℕ) → was ≡ items_of scene (object_at scene h) (place_in was) →
        items_known (Some moved) ≡ items_of scene (object_at scene h) (Some (rect_of place))) }
{
    if same_corners(paints.place, place) {
        Some(*paints)
    } else {
        paints.moved(place)
    }
}

/// The record of an object in a place, as far as what is known of it tells.
fn paints_known(known: Option<&Seen>, place: Area) -> Option<Paints>
    ensures { IfSome result (λ moved. (scene : Scene) (h : ℕ) → IfSome known.entry (λ s. KeepsItems scene h s.now) →
        items_known (Some moved) ≡ items_of scene (object_at scene h) (Some (rect_of place))) }
{
    match known {
        Some(known) => known.paints_in(place),
        None => None,
    }
}

/// All that an object paints which is there. None of its values is looked up if what is known of it tells that.
fn paints_again(
    store: &Store,
    places: &Places,
    sighting: &Sighting,
    known: Option<&Seen>,
) -> Option<Paints>
    requires solved { AreSolved places.now (scene_of store.now) }
    requires sighted { IsSighted (scene_of store.now) sighting.now }
    requires there { is_there (scene_of store.now) sighting.now.h.0 ≡ true }
    requires known { IfSome known (λ s. KeepsItems (scene_of store.now) sighting.now.h.0 s.now) }
    ensures { items_known result ≡ items (scene_of store.now) sighting.now.h.0 }
{
    let at = sighting.place?;
    match paints_known(known, at) {
        Some(paints) => Some(paints),
        None => paints_at(store, places, sighting.h, places.place(sighting.h)),
    }
}

/// What an object would paint that is seen nowhere, as far as what is known of it tells.
fn paints_kept(known: Option<&Seen>) -> Option<Paints>
    ensures { (scene : Scene) (h : ℕ) → IfSome known.entry (λ s. KeepsItems scene h s.now) →
        items_known result ≡ items_of scene (object_at scene h) (place_in (items_known result)) }
{
    match known {
        Some(known) => known.paints,
        None => None,
    }
}

/// What is seen of an object that is there. If what is known may be kept and it shows no bars, no value of it
/// is looked up, which no clause says. Nor is any of an object that is seen nowhere.
pub fn see(store: &Store, places: &Places, sighting: &Sighting, known: Option<&Seen>) -> Seen
    requires solved { AreSolved places.now (scene_of store.now) }
    requires reached { AreReached places.now (scene_of store.now) }
    requires sighted { IsSighted (scene_of store.now) sighting.now }
    requires there { is_there (scene_of store.now) sighting.now.h.0 ≡ true }
    requires known { IfSome known (λ s. KeepsItems (scene_of store.now) sighting.now.h.0 s.now) }
    ensures { IsSeen (scene_of store.now) sighting.now.h.0 result }
{
    if sighting.visible.is_none() {
        return Seen {
            visible: None,
            paints: paints_kept(known),
            bars: keep(Bars::none()),
        };
    }
    Seen {
        visible: sighting.visible,
        paints: paints_again(store, places, sighting, known),
        bars: keep(bars_at(store, places, sighting.h)),
    }
}
