//! What is seen again after a change that leaves the trees, by the objects that moved.
ghost use Rattle.std.specs.Prelude.{◌≡◌, ◌≤◌, ◌<◌, ◌*◌, ℕ, true, option_map, vec_capacity};
ghost use Rattle.std.specs.List.{flat_map};
ghost use Rattle.debt_defs.specs.Debt.{is_named};
ghost use Rattle.gui_boxes.specs.Listing.{HasThese, times};
ghost use Rattle.scene_defs.specs.Shown.{entries, order};
ghost use Rattle.gui_change.specs.After.{scene_after};
ghost use Rattle.gui_change.specs.Again.{owed_again};
ghost use Rattle.gui_change.specs.Down.{SeesDown};
ghost use Rattle.gui_change.specs.Dues.{OwesAll};
ghost use Rattle.gui_change.specs.Entries.{all_entries, owners};
ghost use Rattle.gui_change.specs.Looks.{Shows};
ghost use Rattle.gui_change.specs.Sees.{IsRoom, IsSeenIn, KnowsShown};
ghost use Rattle.gui_change.specs.Shifted.{WasShifted, but_named};
ghost use Rattle.gui_concerns.specs.Handles.{number_of};
ghost use Rattle.gui_debts.specs.Sights.{KeepOthers};

use crate::after::After;
use crate::down::{see_down, see_moved};
use crate::scene_look::SceneLook;
use crate::seeing::see_concerned;
use gui_base::{Grid, Handle};
use gui_concerns::Concerned;
use gui_damage::Damage;
use gui_debts::{Nearby, Seen, is_named};
use gui_pool::Table;

/// Sees the object that a change names once more, if something is known of it, and those below it where it is
/// seen elsewhere. It owes even where nothing differs.
fn see_named_down(
    table: &mut Table<Seen>,
    damage: &mut Damage<Grid>,
    named: Option<Handle>,
    after: &After<'_>,
)
    requires known { KeepOthers table.old after.now.painted (scene_after after.now) }
    requires shown { KnowsShown table.old (scene_after after.now) }
    ensures down { SeesDown (option_map number_of named)
        (scene_after after.now) table.old table.new damage.old damage.new }
    ensures own { (k : ℕ) → is_named (option_map number_of named) k ≡ true →
        IsSeenIn table.new (scene_after after.now) k }
{
    let Some(h) = named else {
        return;
    };
    let mut nearby = Nearby::new(after.store, after.places);
    see_down(table, damage, named, after, &mut nearby, h);
}

/// Those that may paint otherwise, but for the named object, where that is all of them.
fn but_named(painted: Concerned, named: Option<Handle>) -> Concerned
    ensures { result ≡ but_named painted (option_map number_of named) }
{
    match painted {
        Concerned::One(h) if is_named(named, h) => Concerned::Nobody,
        _ => painted,
    }
}

/// Sees the named object and those that moved once more, and those below one that is seen elsewhere.
fn see_standing(
    table: &mut Table<Seen>,
    damage: &mut Damage<Grid>,
    named: Option<Handle>,
    after: &After<'_>,
    moved: &[Handle],
)
    requires known { KeepOthers table.old after.now.painted (scene_after after.now) }
    requires shown { KnowsShown table.old (scene_after after.now) }
    ensures down { SeesDown (option_map number_of named)
        (scene_after after.now) table.old table.new damage.old damage.new }
    ensures own { (k : ℕ) → is_named (option_map number_of named) k ≡ true →
        IsSeenIn table.new (scene_after after.now) k }
    ensures all { (k : ℕ) → 0 < times moved.now k → IsSeenIn table.new (scene_after after.now) k }
{
    see_named_down(table, damage, named, after);
    // What is known of the named object is right now, so it paints what is known.
    let rest = After {
        store: after.store,
        places: after.places,
        concerned: after.concerned,
        painted: but_named(after.painted, named),
    };
    see_moved(table, damage, named, &rest, moved);
}

/// Sees the objects once more that may differ after a change that leaves the trees and what is shown, and lists
/// what they owe: the one that it names, those that moved, those below one that is seen elsewhere, and those that
/// it may concern. `listed` is empty, and is so afterwards.
pub(crate) fn see_shifted(
    look: &mut SceneLook,
    listed: &mut Vec<Handle>,
    damage: &mut Damage<Grid>,
    named: Option<Handle>,
    after: &After<'_>,
    moved: &[Handle],
)
    requires painted { KeepOthers look.old.seen after.now.painted (scene_after after.now) }
    requires entries { all_entries look.old.entries.items ≡ entries (scene_after after.now) }
    requires table { HasThese (scene_after after.now).limits.objects look.old.seen
        (owners look.old.entries.items) }
    requires entries_room { 2 * (scene_after after.now).limits.objects ≤ vec_capacity look.old.entries }
    requires was { WasShifted look.old.seen (scene_after after.now) (option_map number_of named)
        after.now.concerned moved.now }
    requires room { IsRoom (scene_after after.now).limits.objects listed.old }
    ensures shows { Shows (scene_after after.now).limits.objects look.new (scene_after after.now) }
    ensures room { IsRoom (scene_after after.now).limits.objects listed.new }
    ensures debt { OwesAll damage.old damage.new
        (flat_map (owed_again (option_map number_of named) look.old.seen (scene_after after.now))
        (order (scene_after after.now))) }
{
    let _tree = after.store.tree();
    let painted = look.entries.as_slice();
    see_standing(&mut look.seen, damage, named, after, moved);
    see_concerned(&mut look.seen, listed, damage, named, after, painted);
}
