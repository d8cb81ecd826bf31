//! Tables and lists by their public calls, full, with one slot and with none.
ghost use Rattle.std.specs.Prelude.{◌≡◌, length};

use crate::checks::same;
use gui_pool::{Lists, NoMemory, Table};
use std::alloc::Global;
use std::process::Abort;
use std::sync::atomic::{AtomicU32, Ordering};

/// Keys and owners are below this number.
const KEYS: u32 = 9;

/// A table for nine keys.
#[derive(Drop)]
struct NineKeys<T> {
    table: Table<T>,
    ghost nine: { length table.values ≡ 9 },
}

impl<T> NineKeys<T> {
    fn open(rt: &impl Abort, alloc: Global, size: u32) -> NineKeys<T> {
        match Table::open(alloc, KEYS, size) {
            Ok(table) => NineKeys { table },
            Err(NoMemory) => panic!(rt; "no memory"),
        }
    }

    /// The value that is handed back.
    fn insert(&mut self, key: u32, value: T) -> Option<T> {
        if key >= KEYS || self.table.get(key).is_some() {
            return Some(value);
        }
        self.table.insert(key, value).err()
    }

    /// The value that the key had.
    fn replace(&mut self, key: u32, value: T) -> Option<T> {
        if self.table.get(key).is_none() {
            return Some(value);
        }
        Some(self.table.replace(key, value))
    }
}

/// Lists for nine owners.
#[derive(Drop)]
struct NineOwners<T> {
    lists: Lists<T>,
    ghost nine: { length lists.lists ≡ 9 },
}

impl<T> NineOwners<T> {
    fn open(rt: &impl Abort, alloc: Global, slots: u32) -> NineOwners<T> {
        match Lists::open(alloc, KEYS, slots) {
            Ok(lists) => NineOwners { lists },
            Err(NoMemory) => panic!(rt; "no memory"),
        }
    }

    /// The value that is handed back.
    fn push(&mut self, owner: u32, value: T) -> Option<T> {
        if owner >= KEYS {
            return Some(value);
        }
        self.lists.push(owner, value).err()
    }

    fn remove(&mut self, owner: u32, n: u32) -> Option<T> {
        if owner >= KEYS || n >= self.lists.len(owner) {
            return None;
        }
        Some(self.lists.remove(owner, n))
    }

    /// The value that was at the place.
    fn replace(&mut self, owner: u32, n: u32, value: T) -> Option<T> {
        if owner >= KEYS || n >= self.lists.len(owner) {
            return Some(value);
        }
        Some(self.lists.replace(owner, n, value))
    }
}

impl<T: Drop> NineOwners<T> {
    fn clear(&mut self, owner: u32) {
        if owner < KEYS {
            self.lists.clear(owner);
        }
    }
}

impl NineOwners<u32> {
    /// The first three values of an owner, by a walk.
    fn walked(&self, owner: u32) -> [Option<u32>; 3] {
        if owner >= KEYS {
            return [None; 3];
        }
        let mut items = self.lists.of(owner);
        let first = items.next().copied();
        let second = items.next().copied();
        [first, second, items.next().copied()]
    }

    /// The first three values of an owner, each found by its place.
    fn placed(&self, owner: u32) -> [Option<u32>; 3] {
        if owner >= KEYS {
            return [None; 3];
        }
        let first = self.lists.nth(owner, 0).copied();
        let second = self.lists.nth(owner, 1).copied();
        [first, second, self.lists.nth(owner, 2).copied()]
    }
}

#[test]
fn containers_without_slots_are_full(rt: HostRuntime) {
    let mut keys = NineKeys::open(&rt, rt.alloc(), 0);
    let answers = [
        keys.insert(8, 7),
        keys.table.remove(8),
        keys.table.get(9).copied(),
        Some(keys.table.spare()),
    ];
    same(&rt, &answers, &[Some(7), None, None, Some(0)]);

    let mut owners = NineOwners::open(&rt, rt.alloc(), 0);
    same(&rt, &owners.push(8, 7), &Some(7));
    owners.clear(8);
    same(&rt, &owners.walked(8), &[None; 3]);
}

#[test]
fn one_slot_is_used_again(rt: HostRuntime) {
    let mut keys = NineKeys::open(&rt, rt.alloc(), 1);
    let answers = [
        keys.insert(3, 30),
        // A full table hands the value back.
        keys.insert(4, 40),
        keys.table.remove(3),
        keys.table.remove(3),
        keys.insert(4, 41),
        keys.table.get(4).copied(),
    ];
    same(
        &rt,
        &answers,
        &[None, Some(40), Some(30), None, None, Some(41)],
    );

    let mut owners = NineOwners::open(&rt, rt.alloc(), 1);
    let answers = [
        owners.push(3, 30),
        // Full lists hand the value back.
        owners.push(4, 40),
        owners.remove(3, 0),
        owners.remove(3, 0),
        owners.push(4, 41),
    ];
    same(&rt, &answers, &[None, Some(40), Some(30), None, None]);
    same(&rt, &owners.placed(4), &[Some(41), None, None]);
}

/// Two slots have two buckets, so the keys 1, 3 and 5 share one.
#[test]
fn keys_share_a_bucket(rt: HostRuntime) {
    let mut keys = NineKeys::open(&rt, rt.alloc(), 2);
    let answers = [
        keys.insert(1, 10),
        keys.insert(3, 30),
        keys.replace(3, 31),
        keys.table.get(5).copied(),
    ];
    same(&rt, &answers, &[None, None, Some(30), None]);
    if let Some(value) = keys.table.get_mut(1) {
        *value = 11;
    }
    let answers = [
        keys.table.remove(1),
        keys.table.get(3).copied(),
        Some(keys.table.spare()),
        keys.insert(5, 50),
        keys.table.remove(3),
        keys.table.get(5).copied(),
    ];
    same(
        &rt,
        &answers,
        &[Some(11), Some(31), Some(1), None, Some(31), Some(50)],
    );
}

/// Four slots have four buckets, so the owners 1 and 5 share one.
#[test]
fn owners_share_a_bucket(rt: HostRuntime) {
    let mut owners = NineOwners::open(&rt, rt.alloc(), 4);
    let answers = [
        owners.push(1, 10),
        owners.push(5, 50),
        owners.push(1, 11),
        owners.push(8, 80),
        owners.push(2, 20),
        owners.replace(1, 1, 12),
    ];
    same(&rt, &answers, &[None, None, None, None, Some(20), Some(11)]);
    same(&rt, &owners.walked(1), &[Some(10), Some(12), None]);
    same(
        &rt,
        &[owners.remove(1, 0), owners.push(5, 51)],
        &[Some(10), None],
    );
    same(&rt, &owners.placed(5), &[Some(50), Some(51), None]);
    owners.clear(5);
    let answers = [owners.walked(1), owners.walked(5), owners.walked(8)];
    same(
        &rt,
        &answers,
        &[[Some(12), None, None], [None; 3], [Some(80), None, None]],
    );
    same(&rt, &owners.lists.spare(), &2);
}

/// A value that counts how often it is dropped.
struct Counted<'a> {
    drops: &'a AtomicU32,
}

impl Drop for Counted<'_> {
    fn drop(self) {
        let Counted { drops } = self;
        drops.fetch_add(1, Ordering::SeqCst);
    }
}

/// Compares how many values of each of two kinds were dropped.
fn dropped(rt: &impl Abort, gone: &AtomicU32, left: &AtomicU32, want: [u32; 2]) {
    let counts = [gone.load(Ordering::SeqCst), left.load(Ordering::SeqCst)];
    same(rt, &counts, &want);
}

#[test]
fn values_of_keys_are_dropped_once(rt: HostRuntime) {
    let gone = AtomicU32::new(0);
    let left = AtomicU32::new(0);
    {
        let mut keys = NineKeys::open(&rt, rt.alloc(), 2);
        drop(keys.insert(1, Counted { drops: &gone }));
        drop(keys.insert(2, Counted { drops: &gone }));
        // Refused, replaced and removed.
        drop(keys.insert(3, Counted { drops: &gone }));
        drop(keys.replace(1, Counted { drops: &left }));
        drop(keys.table.remove(2));
        dropped(&rt, &gone, &left, [3, 0]);
    }
    dropped(&rt, &gone, &left, [3, 1]);
}

#[test]
fn values_of_owners_are_dropped_once(rt: HostRuntime) {
    let gone = AtomicU32::new(0);
    let left = AtomicU32::new(0);
    {
        let mut owners = NineOwners::open(&rt, rt.alloc(), 3);
        drop(owners.push(1, Counted { drops: &gone }));
        drop(owners.push(1, Counted { drops: &left }));
        drop(owners.push(5, Counted { drops: &gone }));
        // Refused, removed and cleared.
        drop(owners.push(2, Counted { drops: &gone }));
        drop(owners.remove(1, 0));
        owners.clear(5);
        dropped(&rt, &gone, &left, [3, 0]);
    }
    dropped(&rt, &gone, &left, [3, 1]);
}
