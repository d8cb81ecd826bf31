//! What is seen again of a scene by lists of the objects that may differ, in place of all that is shown.
//!
//! An object may come several times in these lists, and in any order. The second time it owes nothing, since
//! what is known of it is then what is seen of it.
ghost use Rattle.std.specs.Prelude.{◌≡◌, ◌<◌, ◌==◌, ℕ, true, false, None, Some, option_map};
ghost use Rattle.debt_defs.specs.Debt.{is_named};
ghost use Rattle.gui_base.specs.Forest.{has, tree_at};
ghost use Rattle.gui_pool.specs.Table.{value_at};
ghost use Rattle.gui_store.specs.Views.{scene_of};
ghost use Rattle.gui_style.specs.Styles.{uses_style};
ghost use Rattle.gui_tree.specs.Handles.{numbers};
ghost use Rattle.scene_defs.specs.Scene.{handles_of, is_there};
ghost use Rattle.scene_defs.specs.Shown.{order};
ghost use Rattle.gui_change.specs.After.{scene_after};
ghost use Rattle.gui_change.specs.Entries.{owners};
ghost use Rattle.gui_concerns.specs.Concerned.{is_below, is_below_user, may_be};
ghost use Rattle.gui_concerns.specs.Handles.{number_of};
ghost use Rattle.gui_change.specs.Sees.{is_below_other, IsRoom, IsSeenIn, KnowsShown, SeesAgain};
ghost use Rattle.gui_debts.specs.Sightings.{AreSighted};
ghost use Rattle.gui_debts.specs.Sights.{KeepOthers};
ghost use Rattle.gui_debts.specs.declared.seen.Seen.{Seen};

use crate::after::After;
use crate::again::see_all_again;
use crate::entries::{Entry, list_owners};
use crate::shown::list_tree;
use gui_base::{Grid, Handle};
use gui_concerns::Concerned;
use gui_damage::Damage;
use gui_debts::{Nearby, Seen, is_named};
use gui_pool::Table;
use gui_store::Store;

/// Sees an object once more, if something is known of it, and lists what it owes.
pub(crate) fn see_one(
    table: &mut Table<Seen>,
    damage: &mut Damage<Grid>,
    named: Option<Handle>,
    after: &After<'_>,
    nearby: &mut Nearby,
    h: Handle,
)
    requires nearby { AreSighted (scene_after after.now) nearby.old }
    requires known { KeepOthers table.old after.now.painted (scene_after after.now) }
    requires shown { KnowsShown table.old (scene_after after.now) }
    requires named { (k : ℕ) → (h.0 == k) ≡ false → is_named (option_map number_of named) k ≡ false }
    ensures sees { SeesAgain (option_map number_of named)
        (scene_after after.now) table.old table.new damage.old damage.new }
    ensures own { IsSeenIn table.new (scene_after after.now) h.0 }
    ensures rest { (k : ℕ) → (h.0 == k) ≡ false → value_at table.new k ≡ value_at table.old k }
    ensures nearby { AreSighted (scene_after after.now) nearby.new }
{
    let _tree = after.store.tree();
    if table.get(h.0 as u32).is_none() {
        return;
    }
    let one = [h];
    see_all_again(table, damage, named, &one, after, nearby);
}

/// Sees an object that is there and all below it once more. Where nothing is known of it, nothing is known of
/// what lies below it: it is not shown.
fn see_tree(
    table: &mut Table<Seen>,
    listed: &mut Vec<Handle>,
    damage: &mut Damage<Grid>,
    after: &After<'_>,
    top: Handle,
)
    requires known { KeepOthers table.old after.now.painted (scene_after after.now) }
    requires shown { KnowsShown table.old (scene_after after.now) }
    requires room { IsRoom (scene_after after.now).limits.objects listed.old }
    requires there { is_there (scene_after after.now) top.0 ≡ true }
    ensures sees { SeesAgain None
        (scene_after after.now) table.old table.new damage.old damage.new }
    ensures all { (k : ℕ) → has (tree_at (handles_of (scene_after after.now).trees) top.0) k ≡ true →
        IsSeenIn table.new (scene_after after.now) k }
    ensures room { IsRoom (scene_after after.now).limits.objects listed.new }
{
    let tree = after.store.tree();
    if table.get(top.0 as u32).is_none() {
        return;
    }
    list_tree(tree, listed, top);
    let mut nearby = Nearby::new(after.store, after.places);
    see_all_again(table, damage, None, listed.as_slice(), after, &mut nearby);
    listed.clear();
}

/// Sees an object and all below it once more, if it is there.
fn see_below(
    table: &mut Table<Seen>,
    listed: &mut Vec<Handle>,
    damage: &mut Damage<Grid>,
    after: &After<'_>,
    h: Handle,
)
    requires known { KeepOthers table.old after.now.painted (scene_after after.now) }
    requires shown { KnowsShown table.old (scene_after after.now) }
    requires room { IsRoom (scene_after after.now).limits.objects listed.old }
    ensures sees { SeesAgain None
        (scene_after after.now) table.old table.new damage.old damage.new }
    ensures all { (k : ℕ) → is_below (scene_after after.now) h.0 k ≡ true →
        IsSeenIn table.new (scene_after after.now) k }
    ensures room { IsRoom (scene_after after.now).limits.objects listed.new }
{
    if !after.store.tree().has(h) {
        return;
    }
    see_tree(table, listed, damage, after, h);
}

/// Sees all below an object once more, if it is there. What is known of the object itself is seen of it already.
fn see_beneath(
    table: &mut Table<Seen>,
    listed: &mut Vec<Handle>,
    damage: &mut Damage<Grid>,
    after: &After<'_>,
    h: Handle,
)
    requires known { KeepOthers table.old after.now.painted (scene_after after.now) }
    requires shown { KnowsShown table.old (scene_after after.now) }
    requires room { IsRoom (scene_after after.now).limits.objects listed.old }
    requires own { IsSeenIn table.old (scene_after after.now) h.0 }
    ensures sees { SeesAgain None (scene_after after.now) table.old table.new damage.old damage.new }
    ensures all { (k : ℕ) → is_below (scene_after after.now) h.0 k ≡ true →
        IsSeenIn table.new (scene_after after.now) k }
    ensures room { IsRoom (scene_after after.now).limits.objects listed.new }
{
    let tree = after.store.tree();
    if !tree.has(h) {
        return;
    }
    for child in tree.children(h) {
        see_tree(table, listed, damage, after, child);
    }
}

/// Sees each user of a style once more.
fn see_users(table: &mut Table<Seen>, damage: &mut Damage<Grid>, after: &After<'_>, style: u16)
    requires known { KeepOthers table.old after.now.painted (scene_after after.now) }
    requires shown { KnowsShown table.old (scene_after after.now) }
    ensures sees { SeesAgain None (scene_after after.now) table.old table.new damage.old damage.new }
    ensures all { (k : ℕ) → uses_style (scene_after after.now).book k style ≡ true →
        IsSeenIn table.new (scene_after after.now) k }
{
    let mut nearby = Nearby::new(after.store, after.places);
    let mut users = after.store.users(style);
    while let Some(h) = users.next() {
        see_one(table, damage, None, after, &mut nearby, *h);
    }
}

/// Whether an object stands below a user of a style.
fn is_below_other(store: &Store, style: u16, h: Handle) -> bool
    ensures { result ≡ is_below_other (scene_of store.now) style h.0 }
{
    match store.tree().parent(h) {
        Some(parent) => Concerned::BelowUsers(style).may_be(store, parent),
        None => false,
    }
}

/// Sees each user of a style and all below it once more.
fn see_below_users(
    table: &mut Table<Seen>,
    listed: &mut Vec<Handle>,
    damage: &mut Damage<Grid>,
    after: &After<'_>,
    style: u16,
)
    requires known { KeepOthers table.old after.now.painted (scene_after after.now) }
    requires shown { KnowsShown table.old (scene_after after.now) }
    requires room { IsRoom (scene_after after.now).limits.objects listed.old }
    ensures sees { SeesAgain None (scene_after after.now) table.old table.new damage.old damage.new }
    ensures all { (k : ℕ) → is_below_user (scene_after after.now) style k ≡ true →
        IsSeenIn table.new (scene_after after.now) k }
    ensures room { IsRoom (scene_after after.now).limits.objects listed.new }
{
    // For the proof alone: `tree` says that the scene is in order.
    let store = after.store;
    let _tree = store.tree();
    let mut users = store.users(style);
    while let Some(h) = users.next() {
        // What is below a user that stands below another is seen from there.
        if is_below_other(store, style, *h) {
            continue;
        }
        see_below(table, listed, damage, after, *h);
    }
}

/// Sees all that is shown once more: the objects of all that is painted.
fn see_shown(
    table: &mut Table<Seen>,
    listed: &mut Vec<Handle>,
    damage: &mut Damage<Grid>,
    after: &After<'_>,
    painted: &[Entry],
)
    requires known { KeepOthers table.old after.now.painted (scene_after after.now) }
    requires shown { KnowsShown table.old (scene_after after.now) }
    requires room { IsRoom (scene_after after.now).limits.objects listed.old }
    requires order { numbers (owners painted.now) ≡ order (scene_after after.now) }
    ensures sees { SeesAgain None (scene_after after.now) table.old table.new damage.old damage.new }
    ensures all { (k : ℕ) → IsSeenIn table.new (scene_after after.now) k }
    ensures room { IsRoom (scene_after after.now).limits.objects listed.new }
{
    let _tree = after.store.tree();
    list_owners(painted, listed);
    let mut nearby = Nearby::new(after.store, after.places);
    see_all_again(table, damage, None, listed.as_slice(), after, &mut nearby);
    listed.clear();
}

/// Sees two objects once more.
fn see_both(
    table: &mut Table<Seen>,
    damage: &mut Damage<Grid>,
    after: &After<'_>,
    h: Handle,
    other: Handle,
)
    requires known { KeepOthers table.old after.now.painted (scene_after after.now) }
    requires shown { KnowsShown table.old (scene_after after.now) }
    ensures sees { SeesAgain None (scene_after after.now) table.old table.new damage.old damage.new }
    ensures own { IsSeenIn table.new (scene_after after.now) h.0 }
    ensures other { IsSeenIn table.new (scene_after after.now) other.0 }
{
    let mut nearby = Nearby::new(after.store, after.places);
    see_one(table, damage, None, after, &mut nearby, h);
    see_one(table, damage, None, after, &mut nearby, other);
}

/// Sees the objects once more that a change may concern, but for the named one: that was seen.
/// `painted` lists all that is painted.
pub(crate) fn see_concerned(
    table: &mut Table<Seen>,
    listed: &mut Vec<Handle>,
    damage: &mut Damage<Grid>,
    named: Option<Handle>,
    after: &After<'_>,
    painted: &[Entry],
)
    requires known { KeepOthers table.old after.now.painted (scene_after after.now) }
    requires shown { KnowsShown table.old (scene_after after.now) }
    requires room { IsRoom (scene_after after.now).limits.objects listed.old }
    requires order { numbers (owners painted.now) ≡ order (scene_after after.now) }
    requires own { (k : ℕ) → is_named (option_map number_of named) k ≡ true →
        IsSeenIn table.old (scene_after after.now) k }
    ensures sees { SeesAgain None (scene_after after.now) table.old table.new damage.old damage.new }
    ensures all { (k : ℕ) → may_be (scene_after after.now) after.now.concerned k ≡ true →
        IsSeenIn table.new (scene_after after.now) k }
    ensures room { IsRoom (scene_after after.now).limits.objects listed.new }
{
    match after.concerned {
        Concerned::Nobody => {}
        Concerned::One(h) if is_named(named, h) => {}
        Concerned::One(h) => {
            let mut nearby = Nearby::new(after.store, after.places);
            see_one(table, damage, None, after, &mut nearby, h);
        }
        Concerned::Both(h, k) => see_both(table, damage, after, h, k),
        Concerned::Below(h) if is_named(named, h) => see_beneath(table, listed, damage, after, h),
        Concerned::Below(h) => see_below(table, listed, damage, after, h),
        Concerned::Moved(h, k, m) => {
            see_both(table, damage, after, k, m);
            see_below(table, listed, damage, after, h);
        }
        Concerned::Users(style) => see_users(table, damage, after, style),
        Concerned::BelowUsers(style) => see_below_users(table, listed, damage, after, style),
        Concerned::Anybody => see_shown(table, listed, damage, after, painted),
    }
}
