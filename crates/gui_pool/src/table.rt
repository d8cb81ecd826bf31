//! A value for each of a fixed number of keys, in memory that depends on the number of values.
ghost use Rattle.std.specs.Prelude.{◌≡◌, ℕ, ◌<◌, ◌≤◌, ◌↔◌, length, is_some};
ghost use Rattle.std.specs.Prelude.{None, Some, IsSome, IfOk, IfErr, OnOk, OnSome, IfNone, IsErr};
ghost use Rattle.std.specs.Option.{option_copied, option_copied_mut};
ghost use Rattle.gui_pool.specs.Table.{value_at, value_inserted, value_replaced, value_removed};
ghost use Rattle.gui_pool.specs.Lists.{list_of};
ghost use Rattle.gui_pool.specs.Entries.{find, place_of};

use crate::block::NoMemory;
use crate::buckets::{Buckets, mask_for};
use crate::entry::Entry;
use std::alloc::Global;
use std::marker::Model;

/// A value for each of at most `size` keys. Keys are numbers below a limit that is given at opening.
///
/// A contract sees the value of each key, the number `spare` of values that still fit, and `size`. The
/// values that are left are dropped once each when the table ends.
///
/// A key without a value takes no memory. If `T` is aligned to 4 bytes, each of the `size` slots takes
/// `12 + size_of::<T>()` bytes, and from one to two buckets for each slot take 4 bytes each.
///
/// Every call but `open` looks through the one bucket of its key. Keys in a row have a bucket each, so a call
/// takes constant time for them. At worst, if all keys have the same low bits, it takes time in proportion to
/// the number of values.
#[derive(Drop)]
pub struct Table<T> {
    // The low bits of a key name its bucket.
    buckets: Buckets<Entry<T>>,
    mask: u32,
    keys: u32,
}

impl<T> Model for Table<T> {
    ghost use Rattle.gui_pool.specs.Table.{Table, table_code};

    ghost Value = { Table T };

    ghost coded = { table_code T.code };

    ghost use Rattle.gui_pool.specs.Entries.{table_of, IsTable};

    ghost view = { λ t. table_of t.buckets t.mask t.keys };

    ghost invariant = { λ t. IsTable t.buckets t.mask };
}

/// The value of a key in a bucket.
fn find_in<T>(buckets: &Buckets<Entry<T>>, bucket: u32, key: u32) -> Option<&T>
    requires { bucket < length buckets.now.lists }
    ensures { option_copied result ≡ find (list_of buckets.now bucket) key }
{
    let mut entries = buckets.of(bucket);
    while let Some(entry) = entries.next() {
        if entry.key == key {
            return Some(&entry.value);
        }
    }
    None
}

/// The place of a key's entry in a bucket, counted from 0.
fn place_in<T>(buckets: &Buckets<Entry<T>>, bucket: u32, key: u32) -> Option<u32>
    requires { bucket < length buckets.now.lists }
    ensures { result ≡ place_of (list_of buckets.now bucket) key }
{
    let mut entries = buckets.of(bucket);
    let mut place = 0;
    while let Some(entry) = entries.next() {
        if entry.key == key {
            return Some(place);
        }
        place += 1;
    }
    None
}

impl<T> Table<T> {
    ghost use Rattle.std.specs.Borrow.{sem};
    ghost use Rattle.gui_pool.specs.TableLends.{lends_key, lends_key_if};

    /// A table without values, for keys below `keys`, at most `size` of them at a time, or `NoMemory` if there
    /// is no memory for so many. No later call takes memory. Its time grows with `size`, not with `keys`.
    pub fn open(alloc: Global, keys: u32, size: u32) -> Result<Table<T>, NoMemory>
        ensures keys { IfOk result (λ t. length t.values ≡ keys) }
        ensures empty { IfOk result (λ t. (key : ℕ) → value_at t key ≡ None) }
        ensures spare { IfOk result (λ t. t.spare ≡ size) }
        ensures size { IfOk result (λ t. t.size ≡ size) }
    {
        let mask = mask_for(size);
        let buckets = Buckets::open(alloc, mask + 1, size)?;
        Ok(Table {
            buckets,
            mask,
            keys,
        })
    }

    /// How many more values fit.
    pub fn spare(&self) -> u32
        ensures value { result ≡ self.now.spare }
        ensures few { result ≤ self.now.size }
    {
        let _ = &self.mask;
        self.buckets.spare()
    }

    /// The value of a key: `None` exactly if it has none. A key that is not below the limit has none.
    pub fn get(&self, key: u32) -> Option<&T>
        ensures { option_copied result ≡ value_at self.now key }
    {
        if key >= self.keys {
            return None;
        }
        find_in(&self.buckets, key & self.mask, key)
    }

    /// Gives a value to a key that has none. It hands the value back, with all as before, exactly if none is
    /// spare.
    pub fn insert(&mut self, key: u32, value: T) -> Result<(), T>
        requires within { key < length self.old.values }
        requires vacant { value_at self.old key ≡ None }
        ensures full { IsErr result ↔ (self.old.spare ≡ 0) }
        ensures inserts { OnOk result (self.new ≡ value_inserted self.old key value) }
        ensures refused { IfErr result (λ back. (back ≡ value) × (self.new ≡ self.old)) }
    {
        let bucket = key & self.mask;
        match self.buckets.push(bucket, Entry { key, value }) {
            Ok(()) => Ok(()),
            Err(entry) => {
                let Entry { key: _, value } = entry;
                return Err(value);
            }
        }
    }

    /// Whether a key has a value.
    fn has(&self, key: u32) -> bool
        ensures { result ≡ is_some (value_at self.now key) }
    {
        self.get(key).is_some()
    }

    /// The value of a key, to be changed in its place: `None` exactly if `get` answers it.
    pub fn get_mut(&mut self, key: u32) -> Option<&mut T>
        ensures* writes_back { sem 𝓛 (lends_key_if T.row self.entry key result) }
        ensures value { option_copied_mut result ≡ value_at self.old key }
    {
        if self.has(key) {
            Some(self.value_mut(key))
        } else {
            None
        }
    }

    /// The value of a key that has one, to be changed in its place.
    fn value_mut(&mut self, key: u32) -> &mut T
        requires { IsSome (value_at self.old key) }
        ensures* writes_back { sem 𝓛 (lends_key T.row self.entry key result) }
        ensures value { value_at self.old key ≡ Some result.now }
    {
        let bucket = key & self.mask;
        let Some(place) = place_in(&self.buckets, bucket, key) else {
            unreachable!()
        };
        let entry = self.buckets.nth_mut(bucket, place);
        &mut entry.value
    }

    /// Gives another value to a key that has one, and hands out the value that it had.
    pub fn replace(&mut self, key: u32, value: T) -> T
        requires { IsSome (value_at self.old key) }
        ensures was { Some result ≡ value_at self.old key }
        ensures replaces { self.new ≡ value_replaced self.old key value }
    {
        let bucket = key & self.mask;
        let Some(place) = place_in(&self.buckets, bucket, key) else {
            unreachable!()
        };
        let Entry { key: _, value: old } = self
            .buckets
            .replace(bucket, place, Entry { key, value });
        old
    }

    /// Hands out the value of a key, which has none from then on: `None`, with all as before, exactly if `get`
    /// answers it.
    pub fn remove(&mut self, key: u32) -> Option<T>
        ensures value { result ≡ value_at self.old key }
        ensures removes { OnSome result (self.new ≡ value_removed self.old key) }
        ensures absent { IfNone result (self.new ≡ self.old) }
        ensures room { OnSome result (self.new.spare ≤ self.new.size) }
        ensures within { OnSome result (key < length self.old.values) }
    {
        if key >= self.keys {
            return None;
        }
        let bucket = key & self.mask;
        let place = place_in(&self.buckets, bucket, key)?;
        let Entry { key: _, value } = self.buckets.remove(bucket, place);
        Some(value)
    }
}
