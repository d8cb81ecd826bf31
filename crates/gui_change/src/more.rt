//! What is seen of a scene after a change by which more is shown, and nothing less, and what the change owes.
ghost use Rattle.std.specs.Prelude.{◌≡◌, ◌≤◌, ◌<◌, ◌+◌, ◌*◌, ℕ, length, true, false, is_some, None, option_map, vec_capacity};
ghost use Rattle.debt_defs.specs.Debt.{touched_areas};
ghost use Rattle.debt_defs.specs.Same.{same_item};
ghost use Rattle.debt_defs.specs.Scenes.{look_of};
ghost use Rattle.gui_boxes.specs.Listing.{HasThese, times};
ghost use Rattle.scene_defs.specs.Scene.{Scene};
ghost use Rattle.scene_defs.specs.Shown.{entries};
ghost use Rattle.gui_change.specs.After.{scene_after};
ghost use Rattle.gui_change.specs.Comes.{Comes, PutsNothing};
ghost use Rattle.gui_change.specs.Dues.{OwesAll};
ghost use Rattle.gui_change.specs.Entries.{all_entries, owners};
ghost use Rattle.gui_pool.specs.Table.{value_at};
ghost use Rattle.gui_change.specs.Gone.{is_shown};
ghost use Rattle.gui_change.specs.Looks.{Shows};
ghost use Rattle.gui_change.specs.Sees.{IsRoom};
ghost use Rattle.gui_change.specs.Shifted.{WasJoined};
ghost use Rattle.gui_concerns.specs.Handles.{number_of};
ghost use Rattle.gui_debts.specs.Sights.{KeepOthers};

use crate::after::After;
use crate::entries::add_last;
use crate::scene_look::SceneLook;
use crate::shifted::see_shifted;
use gui_base::{Grid, Handle};
use gui_boxes::listing::put;
use gui_damage::Damage;
use gui_debts::Seen;
use gui_pool::Table;

/// Has nothing known of an object that came where something is known of its parent: it is shown with that one.
fn put_new(table: &mut Table<Seen>, h: Handle, parent: Handle)
    requires within { is_some (value_at table.old parent.0) ≡ true → h.0 < length table.old.values }
    requires vacant { is_some (value_at table.old parent.0) ≡ true → value_at table.old h.0 ≡ None }
    requires room { is_some (value_at table.old parent.0) ≡ true → 0 < table.old.spare }
    ensures put { is_some (value_at table.old parent.0) ≡ true → PutsNothing table.old table.new h.0 }
    ensures same { is_some (value_at table.old parent.0) ≡ false → table.new ≡ table.old }
{
    if table.get(parent.0 as u32).is_none() {
        return;
    }
    put(table, h, Seen::nothing());
}

// Each parameter by itself, as in `see_shifted`, and what came besides: a caller has them from different places.
/// Lists what is shown where all is shown still that was, and sees the objects that may differ: the one that a
/// change names, those that it may concern, those that moved, and those below one that is seen elsewhere. Of what is
/// shown for the first time nothing was known. `listed` is empty, and is so afterwards.
pub(crate) fn see_more(
    look: &mut SceneLook,
    listed: &mut Vec<Handle>,
    damage: &mut Damage<Grid>,
    named: Option<Handle>,
    h: Handle,
    parent: Handle,
    after: &After<'_>,
    moved: &[Handle],
)
    requires painted { KeepOthers look.old.seen after.now.painted (scene_after after.now) }
    requires table { HasThese (scene_after after.now).limits.objects look.old.seen
        (owners look.old.entries.items) }
    requires still { (k : ℕ) → 0 < times (owners look.old.entries.items) k → is_shown (scene_after after.now) k ≡ true }
    requires entries_room { 2 * (scene_after after.now).limits.objects ≤ vec_capacity look.old.entries }
    requires comes { Comes h.0 parent.0 (all_entries look.old.entries.items) (entries (scene_after after.now)) }
    requires more { length look.old.entries.items + 2 ≤ vec_capacity look.old.entries }
    requires was { WasJoined look.old.seen (scene_after after.now) (option_map number_of named)
        after.now.concerned moved.now }
    requires room { IsRoom (scene_after after.now).limits.objects listed.old }
    ensures shows { Shows (scene_after after.now).limits.objects look.new (scene_after after.now) }
    ensures room { IsRoom (scene_after after.now).limits.objects listed.new }
    ensures debt { (before : Scene) → Shows (scene_after after.now).limits.objects look.old before →
        OwesAll damage.old damage.new
        (touched_areas same_item (option_map number_of named) (look_of before) (look_of (scene_after after.now))) }
{
    let store = after.store;
    let _tree = store.tree();
    add_last(&mut look.entries, h, parent);
    put_new(&mut look.seen, h, parent);
    see_shifted(look, listed, damage, named, after, moved);
}
