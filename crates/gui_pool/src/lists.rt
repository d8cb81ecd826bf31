//! A list of values for each of a fixed number of owners, in slots that all lists share.
ghost use Rattle.std.specs.Prelude.{◌≡◌, ℕ, ◌+◌, ◌^◌, ◌<◌, ◌↔◌, [], ◌∷◌, length};
ghost use Rattle.std.specs.Prelude.{Some, IfOk, IfErr, OnOk, MatchOption, IsErr, slice_get};
ghost use Rattle.std.specs.Option.{option_copied};
ghost use Rattle.gui_pool.specs.Lists.{list_of, total, pushed, replaced, removed, cleared};
ghost use Rattle.gui_pool.specs.Owners.{nth_place};

use crate::block::NoMemory;
use crate::buckets::{Bucket, Buckets, mask_for};
use crate::entry::Entry;
use std::alloc::Global;
use std::marker::Model;

/// A list of values for each owner, in counted slots that all lists share. Owners are numbers below a limit
/// that is given at opening.
///
/// A contract sees the list of each owner, the number `spare` of values that still fit, and the number `size`
/// of slots. The values that are left are dropped once each when the lists end.
///
/// An owner without values takes no memory. If `T` is aligned to 4 bytes, each slot takes `12 + size_of::<T>()`
/// bytes, and from one to two buckets for each slot take 4 bytes each.
///
/// The low bits of an owner name its bucket. Owners in a row have a bucket each, as long as there are no more
/// of them than slots; owners with the same low bits share one. A call takes time in proportion to the number
/// of values in the owner's bucket.
#[derive(Drop)]
pub struct Lists<T> {
    buckets: Buckets<Entry<T>>,
    mask: u32,
    owners: u32,
}

impl<T> Model for Lists<T> {
    ghost use Rattle.gui_pool.specs.Lists.{Lists, lists_code};

    ghost Value = { Lists T };

    ghost coded = { lists_code T.code };

    ghost use Rattle.gui_pool.specs.Owners.{lists_of, AreLists};

    ghost view = { λ l. lists_of l.buckets l.mask l.owners };

    ghost invariant = { λ l. AreLists l.buckets l.mask l.owners };
}

/// The place of an owner's nth value in a bucket. Both are counted from 0.
fn nth_place_in<T>(buckets: &Buckets<Entry<T>>, bucket: u32, owner: u32, n: u32) -> Option<u32>
    requires { bucket < length buckets.now.lists }
    ensures { result ≡ nth_place (list_of buckets.now bucket) owner n }
{
    let mut entries = buckets.of(bucket);
    let mut place = 0;
    let mut left = n;
    while let Some(entry) = entries.next() {
        if entry.key == owner {
            if left == 0 {
                return Some(place);
            }
            left -= 1;
        }
        place += 1;
    }
    None
}

impl<T> Lists<T> {
    /// Empty lists for the owners below `owners`, which share `slots` slots, or `NoMemory` if there is no
    /// memory for so many. No later call takes memory. Its time grows with `slots`, not with `owners`.
    pub fn open(alloc: Global, owners: u32, slots: u32) -> Result<Lists<T>, NoMemory>
        ensures owners { IfOk result (λ l. length l.lists ≡ owners) }
        ensures empty { IfOk result (λ l. (owner : ℕ) → list_of l owner ≡ []) }
        ensures spare { IfOk result (λ l. l.spare ≡ slots) }
        ensures size { IfOk result (λ l. l.size ≡ slots) }
    {
        let mask = mask_for(slots);
        let buckets = Buckets::open(alloc, mask + 1, slots)?;
        Ok(Lists {
            buckets,
            mask,
            owners,
        })
    }

    /// How many more values fit.
    pub fn spare(&self) -> u32
        ensures value { result ≡ self.now.spare }
        ensures sum { total self.now + result ≡ self.now.size }
    {
        let _ = &self.mask;
        self.buckets.spare()
    }

    /// The values of an owner, in order.
    pub fn of(&self, owner: u32) -> ListIter<'_, T>
        requires { owner < length self.now.lists }
        ensures value { result ≡ list_of self.now owner }
        ensures few { length result < 2 ^ 32 }
    {
        ListIter {
            entries: self.buckets.of(owner & self.mask),
            owner,
        }
    }

    /// The value of an owner at a place, counted from 0: `None` exactly past its last value.
    pub fn nth(&self, owner: u32, n: u32) -> Option<&T>
        requires { owner < length self.now.lists }
        ensures { option_copied result ≡ slice_get (list_of self.now owner) n }
    {
        let mut items = self.of(owner);
        for _i in 0..n {
            items.next()?;
        }
        items.next()
    }

    /// How many values an owner has.
    pub fn len(&self, owner: u32) -> u32
        requires { owner < length self.now.lists }
        ensures { result ≡ length (list_of self.now owner) }
    {
        let mut items = self.of(owner);
        let mut count = 0;
        while items.next().is_some() {
            count += 1;
        }
        count
    }

    /// Puts a value last in an owner's list. It hands the value back, with all as before, exactly if no slot is
    /// spare.
    pub fn push(&mut self, owner: u32, value: T) -> Result<(), T>
        requires { owner < length self.old.lists }
        ensures full { IsErr result ↔ (self.old.spare ≡ 0) }
        ensures added { OnOk result (self.new ≡ pushed self.old owner value) }
        ensures refused { IfErr result (λ back. (back ≡ value) × (self.new ≡ self.old)) }
    {
        let bucket = owner & self.mask;
        match self.buckets.push(bucket, Entry { key: owner, value }) {
            Ok(()) => Ok(()),
            Err(entry) => {
                let Entry { key: _, value } = entry;
                return Err(value);
            }
        }
    }

    /// Puts another value at a place of an owner's list, and hands out the one that stood there.
    pub fn replace(&mut self, owner: u32, n: u32, value: T) -> T
        requires within { owner < length self.old.lists }
        requires there { n < length (list_of self.old owner) }
        ensures was { Some result ≡ slice_get (list_of self.old owner) n }
        ensures replaced { self.new ≡ replaced self.old owner n value }
    {
        let bucket = owner & self.mask;
        let Some(place) = nth_place_in(&self.buckets, bucket, owner, n) else {
            unreachable!()
        };
        let entry = Entry { key: owner, value };
        let Entry { key: _, value: old } = self.buckets.replace(bucket, place, entry);
        old
    }

    /// Takes out the value at a place of an owner's list. Its slot is spare from then on.
    pub fn remove(&mut self, owner: u32, n: u32) -> T
        requires within { owner < length self.old.lists }
        requires there { n < length (list_of self.old owner) }
        ensures value { Some result ≡ slice_get (list_of self.old owner) n }
        ensures removed { self.new ≡ removed self.old owner n }
    {
        let bucket = owner & self.mask;
        let Some(place) = nth_place_in(&self.buckets, bucket, owner, n) else {
            unreachable!()
        };
        let Entry { key: _, value } = self.buckets.remove(bucket, place);
        value
    }
}

impl<T: Drop> Lists<T> {
    /// Drops all values of an owner. Their slots are spare from then on.
    pub fn clear(&mut self, owner: u32)
        requires { owner < length self.old.lists }
        ensures { self.new ≡ cleared self.old owner }
    {
        while self.nth(owner, 0).is_some() {
            drop(self.remove(owner, 0));
        }
    }
}

/// The remaining values of an owner. A contract sees them as a list.
#[derive(Drop)]
pub struct ListIter<'a, T> {
    entries: Bucket<'a, Entry<T>>,
    owner: u32,
}

impl<'a, T> Model for ListIter<'a, T> {
    ghost use Rattle.std.specs.Prelude.{List};
    ghost use Rattle.std.specs.Coded.{coded_list};

    ghost Value = { List T };

    ghost coded = { coded_list T.code };

    ghost use Rattle.gui_pool.specs.Owners.{values_of};

    ghost view = { λ i. values_of i.owner i.entries };
}

impl<'a, T> ListIter<'a, T> {
    /// The next value: `None` exactly if none is left.
    pub fn next(&mut self) -> Option<&'a T>
        ensures { MatchOption result ((self.old ≡ []) × (self.new ≡ [])) (λ v. self.old ≡ v.now ∷ self.new) }
    {
        while let Some(entry) = self.entries.next() {
            if entry.key == self.owner {
                return Some(&entry.value);
            }
        }
        None
    }
}
