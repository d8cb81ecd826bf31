//! What is seen of a scene.
ghost use Rattle.std.specs.Prelude.{◌≡◌, ◌≤◌, [], IfOk, length, get_or};
ghost use Rattle.scene_defs.specs.Scene.{Scene};
ghost use Rattle.scene_defs.specs.Valid.{IsValid};
ghost use Rattle.gui_change.specs.Sees.{IsRoom};
ghost use Rattle.gui_debts.specs.Sights.{AreSeen};
ghost use Rattle.gui_tree.specs.Handles.{numbers};
ghost use Rattle.scene_defs.specs.Shown.{entries, order, own};
ghost use Rattle.gui_boxes.specs.Listing.{HasThese};
ghost use Rattle.gui_layout.specs.Solved.{AreReached, AreSolved};
ghost use Rattle.gui_store.specs.Views.{scene_of};

use crate::entries::{Entry, list_entries, list_owners, open_entries};
use gui_base::intervals::HANDLE;
use gui_base::{Handle, NoMemory};
use gui_boxes::listing::put;
use gui_debts::{Nearby, Seen, ShownEntry, see};
use gui_layout::Places;
use gui_pool::Table;
use gui_store::Store;
use std::alloc::Global;

/// One more than the greatest handle.
const HANDLES: u32 = HANDLE.high as u32 + 1;

/// What is seen of the objects of the trees that are shown.
#[derive(Drop)]
pub(crate) struct SceneLook {
    // What is painted of these objects, the lowest first: of each what it shows by itself, and its bars. An object
    // comes before those below it.
    pub(crate) entries: Vec<Entry>,
    // Of these objects alone.
    pub(crate) seen: Table<Seen>,
}

/// Sees each of the objects that are shown. The table has none.
fn see_all(table: &mut Table<Seen>, listed: &[Handle], store: &Store, places: &Places)
    requires solved { AreSolved places.now (scene_of store.now) }
    requires reached { AreReached places.now (scene_of store.now) }
    requires valid { IsValid (scene_of store.now) }
    requires order { numbers listed.now ≡ order (scene_of store.now) }
    requires blank { HasThese table.old.spare table.old [] }
    requires few { length listed.now ≤ table.old.spare }
    ensures these { HasThese table.old.spare table.new listed.now }
    ensures seen { AreSeen table.new (scene_of store.now) }
{
    let mut nearby = Nearby::new(store, places);
    for h in listed {
        let sighting = nearby.see(store, places, *h);
        let seen = see(store, places, &sighting, None);
        put(table, *h, seen);
    }
}

/// An empty list with room for so many objects, or NoMemory where there is too little.
pub(crate) fn open_list(alloc: Global, objects: u32) -> Result<Vec<Handle>, NoMemory>
    ensures { IfOk result (λ listed. IsRoom objects listed) }
{
    let Ok(listed) = Vec::with_capacity(alloc, objects as usize) else {
        return Err(NoMemory);
    };
    Ok(listed)
}

impl SceneLook {
    ghost use Rattle.std.specs.Prelude.{MatchOption};
    ghost use Rattle.gui_change.specs.Looks.{Shows};
    ghost use Rattle.gui_debts.specs.Seen.{IsShownAt};

    /// What is seen of a store. It takes all the memory that seeing so many objects will need, or answers
    /// NoMemory where there is too little. `listed` is empty, and is so afterwards.
    pub(crate) fn open(
        alloc: Global,
        objects: u32,
        store: &Store,
        places: &Places,
        listed: &mut Vec<Handle>,
    ) -> Result<SceneLook, NoMemory>
        requires solved { AreSolved places.now (scene_of store.now) }
        requires reached { AreReached places.now (scene_of store.now) }
        requires objects { objects ≡ (scene_of store.now).limits.objects }
        requires room { IsRoom objects listed.old }
        ensures shows { IfOk result (λ look. Shows (scene_of store.now).limits.objects look (scene_of store.now)) }
        ensures room { IfOk result (λ look. IsRoom objects listed.new) }
    {
        let mut entries = open_entries(alloc, objects)?;
        let Ok(mut seen) = Table::open(alloc, HANDLES, objects) else {
            return Err(NoMemory);
        };
        let _tree = store.tree();
        list_entries(store, &mut entries);
        list_owners(entries.as_slice(), listed);
        see_all(&mut seen, listed.as_slice(), store, places);
        listed.clear();
        Ok(SceneLook { entries, seen })
    }

    /// Whether the nth of the entries that are painted is that of an object's bars.
    pub(crate) fn is_bars_at(&self, n: usize) -> bool
        ensures { (scene : Scene) → Shows scene.limits.objects self.now scene →
            result ≡ (get_or (entries scene) n (own 0)).is_bars }
    {
        let listed = self.entries.as_slice();
        if n >= listed.len() {
            return false;
        }
        listed[n].is_bars
    }

    /// The nth of the entries that are painted, from 0 on, the lowest first.
    pub(crate) fn at(&self, n: usize) -> Option<ShownEntry<'_>>
        ensures { (scene : Scene) → IsValid scene → Shows scene.limits.objects self.now scene →
            MatchOption result (length (entries scene) ≤ n) (IsShownAt scene n) }
    {
        let listed = self.entries.as_slice();
        if n >= listed.len() {
            return None;
        }
        let entry = listed[n];
        let seen = self.seen.get(entry.h.0 as u32)?;
        Some(ShownEntry {
            h: entry.h,
            is_bars: entry.is_bars,
            seen,
        })
    }
}
