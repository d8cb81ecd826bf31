//! What is seen again below objects that are seen elsewhere.
ghost use Rattle.std.specs.Prelude.{◌≡◌, ◌==◌, ◌<◌, ℕ, None, true, false, option_map};
ghost use Rattle.gui_base.specs.Corners.{rect_of};
ghost use Rattle.gui_boxes.specs.Listing.{times};
ghost use Rattle.gui_pool.specs.Table.{value_at};
ghost use Rattle.gui_store.specs.Views.{scene_of};
ghost use Rattle.gui_layout.specs.Marked.{is_root};
ghost use Rattle.debt_defs.specs.Debt.{is_named};
ghost use Rattle.debt_defs.specs.Same.{same_visible};
ghost use Rattle.gui_concerns.specs.Handles.{number_of};
ghost use Rattle.scene_defs.specs.Scene.{handles_of};
ghost use Rattle.gui_change.specs.After.{scene_after};
ghost use Rattle.gui_change.specs.Down.{SeesDown, visible_known};
ghost use Rattle.gui_change.specs.Sees.{IsSeenIn, KnowsShown, SeesAgain};
ghost use Rattle.gui_debts.specs.Sightings.{AreSighted};
ghost use Rattle.gui_debts.specs.Sights.{KeepOthers};

use crate::after::After;
use crate::seeing::see_one;
use gui_base::{Area, Grid, Handle};
use gui_damage::Damage;
use gui_debts::{Nearby, Seen, is_named, same_visible};
use gui_pool::Table;
use gui_tree::Children;

/// Where an object is seen by what is known of it.
fn known_visible(table: &Table<Seen>, h: Handle) -> Option<Area>
    ensures { option_map rect_of result ≡ visible_known table.now h.0 }
{
    match table.get(h.0 as u32) {
        Some(seen) => seen.visible,
        None => None,
    }
}

/// Sees an object once more, if something is known of it, and tells whether it is seen elsewhere.
fn see_here(
    table: &mut Table<Seen>,
    damage: &mut Damage<Grid>,
    named: Option<Handle>,
    after: &After<'_>,
    nearby: &mut Nearby,
    h: Handle,
) -> bool
    requires nearby { AreSighted (scene_after after.now) nearby.old }
    requires known { KeepOthers table.old after.now.painted (scene_after after.now) }
    requires shown { KnowsShown table.old (scene_after after.now) }
    requires named { (k : ℕ) → (h.0 == k) ≡ false → is_named (option_map number_of named) k ≡ false }
    ensures sees { SeesAgain (option_map number_of named)
        (scene_after after.now) table.old table.new damage.old damage.new }
    ensures own { IsSeenIn table.new (scene_after after.now) h.0 }
    ensures rest { (k : ℕ) → (h.0 == k) ≡ false → value_at table.new k ≡ value_at table.old k }
    ensures same { result ≡ false →
        same_visible (visible_known table.old h.0) (visible_known table.new h.0) ≡ true }
    ensures nearby { AreSighted (scene_after after.now) nearby.new }
{
    let before = known_visible(table, h);
    see_one(table, damage, named, after, nearby, h);
    !same_visible(before, known_visible(table, h))
}

/// Sees the objects at the heads of these trees once more, and all children of those that are seen elsewhere.
fn see_heads(
    table: &mut Table<Seen>,
    damage: &mut Damage<Grid>,
    after: &After<'_>,
    nearby: &mut Nearby,
    trees: Children<'_>,
)
    requires nearby { AreSighted (scene_after after.now) nearby.old }
    requires same { trees.forest ≡ handles_of (scene_after after.now).trees }
    requires known { KeepOthers table.old after.now.painted (scene_after after.now) }
    requires shown { KnowsShown table.old (scene_after after.now) }
    ensures down { SeesDown None (scene_after after.now) table.old table.new damage.old damage.new }
    ensures heads { (k : ℕ) → is_root k trees.entry.left ≡ true →
        IsSeenIn table.new (scene_after after.now) k }
    ensures nearby { AreSighted (scene_after after.now) nearby.new }
{
    let tree = after.store.tree();
    for h in trees {
        if see_here(table, damage, None, after, nearby, h) {
            see_heads(table, damage, after, nearby, tree.children(h));
        }
    }
}

/// Sees an object once more, and where it is seen elsewhere its children, and so on below those.
pub(crate) fn see_down(
    table: &mut Table<Seen>,
    damage: &mut Damage<Grid>,
    named: Option<Handle>,
    after: &After<'_>,
    nearby: &mut Nearby,
    h: Handle,
)
    requires nearby { AreSighted (scene_after after.now) nearby.old }
    requires known { KeepOthers table.old after.now.painted (scene_after after.now) }
    requires shown { KnowsShown table.old (scene_after after.now) }
    requires named { (k : ℕ) → (h.0 == k) ≡ false → is_named (option_map number_of named) k ≡ false }
    ensures down { SeesDown (option_map number_of named)
        (scene_after after.now) table.old table.new damage.old damage.new }
    ensures own { IsSeenIn table.new (scene_after after.now) h.0 }
    ensures nearby { AreSighted (scene_after after.now) nearby.new }
{
    let tree = after.store.tree();
    if see_here(table, damage, named, after, nearby, h) {
        see_heads(table, damage, after, nearby, tree.children(h));
    }
}

/// Sees each of the objects that moved once more, and those below one that is seen elsewhere, but for the named
/// object: that was seen.
pub(crate) fn see_moved(
    table: &mut Table<Seen>,
    damage: &mut Damage<Grid>,
    named: Option<Handle>,
    after: &After<'_>,
    moved: &[Handle],
)
    requires known { KeepOthers table.old after.now.painted (scene_after after.now) }
    requires shown { KnowsShown table.old (scene_after after.now) }
    requires own { (k : ℕ) → is_named (option_map number_of named) k ≡ true →
        IsSeenIn table.old (scene_after after.now) k }
    ensures down { SeesDown None (scene_after after.now) table.old table.new damage.old damage.new }
    ensures all { (k : ℕ) → 0 < times moved.now k → IsSeenIn table.new (scene_after after.now) k }
{
    let mut nearby = Nearby::new(after.store, after.places);
    for h in moved {
        if is_named(named, *h) {
            continue;
        }
        see_down(table, damage, None, after, &mut nearby, *h);
    }
}
