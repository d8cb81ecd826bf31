//! What is seen of a scene after a change by which a tree went, and what the change owes.
ghost use Rattle.std.specs.Prelude.{◌≡◌, ◌≤◌, ◌<◌, ◌*◌, ◌&&◌, ℕ, List, not, is_some, option_map, vec_capacity};
ghost use Rattle.debt_defs.specs.Debt.{touched_areas};
ghost use Rattle.debt_defs.specs.Same.{same_item};
ghost use Rattle.debt_defs.specs.SceneLook.{is_among};
ghost use Rattle.debt_defs.specs.Scenes.{look_of};
ghost use Rattle.gui_base.specs.declared.Handle.{Handle as Object};
ghost use Rattle.gui_boxes.specs.Listing.{HasThese, times};
ghost use Rattle.gui_pool.specs.Table.{value_at};
ghost use Rattle.gui_store.specs.Views.{removed_of, scene_of};
ghost use Rattle.gui_tree.specs.Handles.{numbers};
ghost use Rattle.scene_defs.specs.declared.Change.TheVariants.{Delete};
ghost use Rattle.scene_defs.specs.Scene.{Scene};
ghost use Rattle.scene_defs.specs.Shown.{Entry as Painted, entries};
ghost use Rattle.gui_change.specs.After.{scene_after};
ghost use Rattle.gui_change.specs.Dues.{OwesAll};
ghost use Rattle.gui_change.specs.Entries.{all_entries, owners};
ghost use Rattle.gui_change.specs.Goes.{Goes};
ghost use Rattle.gui_change.specs.Gone.{is_shown};
ghost use Rattle.gui_change.specs.Looks.{Shows};
ghost use Rattle.gui_change.specs.Sees.{IsRoom};
ghost use Rattle.gui_change.specs.Shifted.{WasShifted};
ghost use Rattle.gui_concerns.specs.Handles.{number_of};
ghost use Rattle.gui_debts.specs.Sights.{KeepOthers};

use crate::after::After;
use crate::entries::{Entry, list_entries, take_out};
use crate::gone::forget;
use crate::scene_look::SceneLook;
use crate::shifted::see_shifted;
use gui_base::{Grid, Handle};
use gui_damage::Damage;
use gui_store::Store;
use scene_defs::Change;

/// Lists what is painted after this change. Where a tree went, its part of the list is taken out; after another
/// change all is listed anew.
fn relist(listed: &mut Vec<Entry>, change: &Change, store: &Store)
    requires goes { (h : Object) → change.now ≡ Delete h →
        Goes h.0 (all_entries listed.old.items) (entries (scene_of store.now)) }
    requires room { 2 * (scene_of store.now).limits.objects ≤ vec_capacity listed.old }
    ensures entries { all_entries listed.new.items ≡ entries (scene_of store.now) }
    ensures capacity { vec_capacity listed.new ≡ vec_capacity listed.old }
{
    if let Change::Delete(h) = *change {
        take_out(listed, h);
    } else {
        listed.clear();
        list_entries(store, listed);
    }
}

// Each parameter by itself, as in `see_shifted`: a caller has them from different places.
/// Lists what is shown where the objects that were removed last are shown no longer, and all others are that
/// were, and sees the objects that may differ: those that the change may concern, those that moved, and those below
/// one that is seen elsewhere. `listed` is empty, and is so afterwards.
pub(crate) fn see_less(
    look: &mut SceneLook,
    listed: &mut Vec<Handle>,
    damage: &mut Damage<Grid>,
    named: Option<Handle>,
    change: &Change,
    after: &After<'_>,
    moved: &[Handle],
)
    requires painted { KeepOthers look.old.seen after.now.painted (scene_after after.now) }
    requires table { HasThese (scene_after after.now).limits.objects look.old.seen
        (owners look.old.entries.items) }
    requires once { (gone : List Object) → numbers gone ≡ removed_of after.now.store.now →
        (k : ℕ) → times gone k ≤ 1 }
    requires left { (k : ℕ) → is_shown (scene_after after.now) k
        ≡ (is_some (value_at look.old.seen k) && not (is_among (removed_of after.now.store.now) k)) }
    requires entries_room { 2 * (scene_after after.now).limits.objects ≤ vec_capacity look.old.entries }
    requires goes { (h : Object) → change.now ≡ Delete h →
        Goes h.0 (all_entries look.old.entries.items) (entries (scene_after after.now)) }
    requires was { WasShifted look.old.seen (scene_after after.now) (option_map number_of named)
        after.now.concerned moved.now }
    requires room { IsRoom (scene_after after.now).limits.objects listed.old }
    ensures shows { Shows (scene_after after.now).limits.objects look.new (scene_after after.now) }
    ensures room { IsRoom (scene_after after.now).limits.objects listed.new }
    ensures debt { (before : Scene) → Shows (scene_after after.now).limits.objects look.old before →
        OwesAll damage.old damage.new
        (touched_areas same_item (option_map number_of named) (look_of before) (look_of (scene_after after.now))) }
{
    let store = after.store;
    let tree = store.tree();
    forget(&mut look.seen, damage, named, tree.last_removed());
    relist(&mut look.entries, change, store);
    see_shifted(look, listed, damage, named, after, moved);
}
