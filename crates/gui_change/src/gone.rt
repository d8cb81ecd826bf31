//! Objects that are shown no longer, and objects of which nothing is known yet.
ghost use Rattle.std.specs.Prelude.{◌≡◌, ◌==◌, ◌||◌, ◌<◌, ◌≤◌, ℕ, List, Some, None, true, option_map};
ghost use Rattle.std.specs.List.{flat_map};
ghost use Rattle.gui_base.specs.Forest.{parent_of};
ghost use Rattle.gui_damage.specs.Gridded.{added_all_in};
ghost use Rattle.gui_base.specs.declared.Handle.{Handle as Object};
ghost use Rattle.gui_boxes.specs.Listing.{HasThese, times};
ghost use Rattle.gui_pool.specs.Table.{value_at};
ghost use Rattle.gui_store.specs.Views.{scene_of};
ghost use Rattle.gui_tree.specs.Handles.{numbers};
ghost use Rattle.scene_defs.specs.Scene.{Scene, handles_of};
ghost use Rattle.scene_defs.specs.Shown.{order};
ghost use Rattle.gui_change.specs.Gone.{KnowsSome, gone_of, is_shown, owed_gone, shown_of};
ghost use Rattle.gui_concerns.specs.Handles.{number_of};
ghost use Rattle.gui_debts.specs.Owed.{sight_of};
ghost use Rattle.gui_debts.specs.Sights.{KeepOthers};

use gui_base::{Grid, Handle};
use gui_boxes::listing::put;
use gui_concerns::Concerned;
use gui_damage::Damage;
use gui_debts::{Seen, is_named, owe};
use gui_pool::Table;
use gui_store::{SYSTEM_LAYER, Store, TOP_LAYER};

/// The root above an object, or the object itself where it has no parent.
fn top_of(store: &Store, h: Handle) -> Handle
    ensures top { parent_of (handles_of (scene_of store.now).trees) result.0 ≡ None }
    ensures shown { is_shown (scene_of store.now) result.0 ≡ is_shown (scene_of store.now) h.0 }
{
    let tree = store.tree();
    let mut top = h;
    for above in tree.ancestors(h) {
        top = above;
    }
    top
}

/// Whether a root is the active screen or a layer.
fn is_shown_root(root: Handle, active: Handle) -> bool
    ensures { result ≡ (root.0 == active.0 || (root.0 == 1 || root.0 == 2)) }
{
    root == active || (root == TOP_LAYER || root == SYSTEM_LAYER)
}

/// Whether an object is shown, by the trees: it stands below the active screen or in a layer.
pub(crate) fn is_shown(store: &Store, h: Handle) -> bool
    ensures { result ≡ is_shown (scene_of store.now) h.0 }
{
    let _tree = store.tree();
    is_shown_root(top_of(store, h), store.active())
}

/// Lists what those of these objects owe that are shown no longer, and forgets them. Something is known of
/// these objects, and of no others.
pub(crate) fn forget_hidden(
    table: &mut Table<Seen>,
    damage: &mut Damage<Grid>,
    named: Option<Handle>,
    store: &Store,
    listed: &[Handle],
)
    requires these { HasThese (scene_of store.now).limits.objects table.old listed.now }
    ensures these { HasThese (scene_of store.now).limits.objects table.new
        (shown_of (scene_of store.now) listed.now) }
    ensures rest { (h : ℕ) (s : Seen) → value_at table.new h ≡ Some s → value_at table.old h ≡ Some s }
    ensures debt { damage.new ≡ added_all_in damage.old
        (flat_map (owed_gone (option_map number_of named) table.old)
        (numbers (gone_of (scene_of store.now) listed.now))) }
{
    for h in listed {
        if is_shown(store, *h) {
            continue;
        }
        owe(damage, is_named(named, *h), table.get(h.0 as u32), None);
        let _ = table.remove(h.0 as u32);
    }
}

/// Lists what these objects owe, which are shown no longer, and forgets them. No other is forgotten.
pub(crate) fn forget(
    table: &mut Table<Seen>,
    damage: &mut Damage<Grid>,
    named: Option<Handle>,
    gone: &[Handle],
)
    requires once { (k : ℕ) → times gone.now k ≤ 1 }
    ensures none { (k : ℕ) → 0 < times gone.now k → value_at table.new k ≡ None }
    ensures rest { (k : ℕ) → times gone.now k ≡ 0 → value_at table.new k ≡ value_at table.old k }
    ensures some { (objects : ℕ) (hs : List Object) → HasThese objects table.old hs →
        KnowsSome objects table.new hs }
    ensures debt { damage.new ≡ added_all_in damage.old
        (flat_map (owed_gone (option_map number_of named) table.old) (numbers gone.now)) }
{
    for h in gone {
        owe(damage, is_named(named, *h), table.get(h.0 as u32), None);
        let _ = table.remove(h.0 as u32);
    }
}

/// Has nothing known of those of these objects of which nothing is known yet.
pub(crate) fn put_missing(table: &mut Table<Seen>, store: &Store, listed: &[Handle])
    requires listed { numbers listed.now ≡ order (scene_of store.now) }
    requires some { KnowsSome (scene_of store.now).limits.objects table.old listed.now }
    ensures these { HasThese (scene_of store.now).limits.objects table.new listed.now }
    ensures sights { (h : ℕ) → sight_of (value_at table.new h) ≡ sight_of (value_at table.old h) }
    ensures known { (concerned : Concerned) (scene : Scene) → KeepOthers table.old concerned scene →
        KeepOthers table.new concerned scene }
{
    let _tree = store.tree();
    for h in listed {
        if table.get(h.0 as u32).is_some() {
            continue;
        }
        put(table, *h, Seen::nothing());
    }
}
