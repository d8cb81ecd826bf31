//! What is seen of a scene after a tree went below another parent, where it was shown and is shown still.
ghost use Rattle.std.specs.Prelude.{◌≡◌, ◌≤◌, ◌*◌, ℕ, List, is_some, true, option_map, vec_capacity};
ghost use Rattle.debt_defs.specs.Debt.{touched_areas};
ghost use Rattle.debt_defs.specs.Same.{same_item};
ghost use Rattle.debt_defs.specs.Scenes.{look_of};
ghost use Rattle.gui_base.specs.declared.Handle.{Handle as Object};
ghost use Rattle.gui_boxes.specs.Listing.{HasThese};
ghost use Rattle.gui_pool.specs.Table.{value_at};
ghost use Rattle.gui_store.specs.Views.{scene_of};
ghost use Rattle.gui_tree.specs.Handles.{numbers};
ghost use Rattle.scene_defs.specs.Scene.{Scene};
ghost use Rattle.scene_defs.specs.Shown.{entries, order};
ghost use Rattle.gui_change.specs.After.{scene_after};
ghost use Rattle.gui_change.specs.Again.{AreAlike};
ghost use Rattle.gui_change.specs.Dues.{OwesAll};
ghost use Rattle.gui_change.specs.Entries.{all_entries, owners};
ghost use Rattle.gui_change.specs.Gone.{is_shown};
ghost use Rattle.gui_change.specs.Looks.{Shows};
ghost use Rattle.gui_change.specs.Sees.{IsRoom};
ghost use Rattle.gui_change.specs.Shifted.{WasShifted};
ghost use Rattle.gui_concerns.specs.Handles.{number_of};
ghost use Rattle.gui_debts.specs.Sights.{KeepOthers};

use crate::after::After;
use crate::entries::{Entry, list_entries};
use crate::gone::is_shown;
use crate::scene_look::SceneLook;
use crate::shifted::see_shifted;
use gui_base::{Grid, Handle};
use gui_damage::Damage;
use gui_store::Store;

/// Whether an object was shown, by what is known of it, and is shown.
pub(crate) fn stays_shown(look: &SceneLook, store: &Store, h: Handle) -> bool
    ensures was { result ≡ true → is_some (value_at look.now.seen h.0) ≡ true }
    ensures is { result ≡ true → is_shown (scene_of store.now) h.0 ≡ true }
{
    if look.seen.get(h.0 as u32).is_none() {
        return false;
    }
    is_shown(store, h)
}

/// Lists anew what is painted.
fn list_again(listed: &mut Vec<Entry>, store: &Store)
    requires room { 2 * (scene_of store.now).limits.objects ≤ vec_capacity listed.old }
    ensures entries { all_entries listed.new.items ≡ entries (scene_of store.now) }
    ensures capacity { vec_capacity listed.new ≡ vec_capacity listed.old }
{
    listed.clear();
    list_entries(store, listed);
}

/// Lists what is shown where that is what was shown, in whatever order, and sees the objects that may differ: the one
/// that a change names, those that it may concern, those that moved, and those below one that is seen elsewhere.
/// `listed` is empty, and is so afterwards.
pub(crate) fn see_replanted(
    look: &mut SceneLook,
    listed: &mut Vec<Handle>,
    damage: &mut Damage<Grid>,
    named: Option<Handle>,
    after: &After<'_>,
    moved: &[Handle],
)
    requires painted { KeepOthers look.old.seen after.now.painted (scene_after after.now) }
    requires table { HasThese (scene_after after.now).limits.objects look.old.seen
        (owners look.old.entries.items) }
    requires entries_room { 2 * (scene_after after.now).limits.objects ≤ vec_capacity look.old.entries }
    requires same { (hs : List Object) → numbers hs ≡ order (scene_after after.now) →
        AreAlike (owners look.old.entries.items) hs }
    requires was { WasShifted look.old.seen (scene_after after.now) (option_map number_of named)
        after.now.concerned moved.now }
    requires room { IsRoom (scene_after after.now).limits.objects listed.old }
    ensures shows { Shows (scene_after after.now).limits.objects look.new (scene_after after.now) }
    ensures room { IsRoom (scene_after after.now).limits.objects listed.new }
    ensures debt { (before : Scene) → Shows (scene_after after.now).limits.objects look.old before →
        OwesAll damage.old damage.new
        (touched_areas same_item (option_map number_of named) (look_of before) (look_of (scene_after after.now))) }
{
    let store = after.store;
    let _tree = store.tree();
    list_again(&mut look.entries, store);
    see_shifted(look, listed, damage, named, after, moved);
}
