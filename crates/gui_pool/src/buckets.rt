//! Buckets of values that share counted slots: what `Table` and `Lists` stand on.
ghost use Rattle.std.specs.Prelude.{◌≡◌, ℕ, ◌+◌, ◌*◌, ◌^◌, ◌<◌, ◌≤◌, ◌↔◌, [], ◌∷◌, length, min, max};
ghost use Rattle.std.specs.Prelude.{Some, IsSome, IfOk, IfErr, OnOk, MatchOption, IsErr};
ghost use Rattle.std.specs.Prelude.{slice_get, slice_index_or};
ghost use Rattle.std.specs.Int.{IsPowerOfTwo};
ghost use Rattle.std.specs.Option.{option_copied};
ghost use Rattle.gui_pool.specs.Lists.{list_of, total, pushed, replaced, removed};
ghost use Rattle.gui_pool.specs.Slots.{get};
ghost use Rattle.gui_pool.specs.Runs.{slot_at, with_next, linked_slots, linked_firsts, IsHeldBefore};

use crate::block::NoMemory;
use crate::slab::Slab;
use std::alloc::Global;
use std::marker::Model;
use std::mem;

/// Where a bucket ends. No slot has this number.
const NOWHERE: u32 = u32::MAX;

/// What a slot holds: a value, and the slot of the value after it. The bucket's first slot alone tells which
/// bucket it is in.
#[derive(Drop)]
pub struct Node<T> {
    value: T,
    next: u32,
}

/// A list of values for each bucket, numbered from 0 on, in slots that all buckets share.
///
/// A contract sees the lists by bucket, how many more values fit, and the number of slots.
pub struct Buckets<T> {
    slots: Slab<Node<T>>,
    // The first slot of each bucket.
    firsts: Vec<u32>,
}

impl<T: Drop> Drop for Buckets<T> {
    /// Lets go of every field in one call, which keeps the proofs of its owners short.
    fn drop(self) {
        let Buckets {
            slots: _,
            firsts: _,
        } = self;
    }
}

impl<T> Model for Buckets<T> {
    ghost use Rattle.gui_pool.specs.Lists.{Lists, lists_code};

    ghost Value = { Lists T };

    ghost coded = { lists_code T.code };

    ghost use Rattle.gui_pool.specs.Runs.{lists_in, AreRuns};

    ghost view = { λ b. lists_in b.slots b.firsts.items };

    ghost invariant = { λ b. AreRuns b.slots b.firsts.items };
}

/// One less than the number of buckets that `size` values have: a power of two, so that a key's low bits
/// name a bucket.
pub(crate) fn mask_for(size: u32) -> u32
    ensures power { IsPowerOfTwo (result + 1) }
    ensures enough { min size (2 ^ 31) ≤ result + 1 }
    ensures few { result < 2 * max 1 size }
    ensures fits { result + 1 < 2 ^ 32 }
{
    size.min(1 << 31).next_power_of_two() - 1
}

/// The slot that stands `n` places after the slot `first` of a bucket.
fn slot_at<T>(slots: &Slab<Node<T>>, first: u32, n: u32) -> u32
    ensures { result ≡ slot_at slots.now.slots first n }
{
    let mut slot = first;
    for _i in 0..n {
        slot = match slots.get(slot) {
            Some(node) => node.next,
            None => NOWHERE,
        };
    }
    slot
}

/// Makes the slot `next` follow a slot that holds a value.
fn set_next<T>(slots: &mut Slab<Node<T>>, slot: u32, next: u32)
    requires { IsSome (get slots.old slot) }
    ensures { slots.new ≡ with_next slots.old slot next }
{
    let Some(node) = slots.get_mut(slot) else {
        unreachable!()
    };
    node.next = next;
}

/// Makes a slot follow the first `n` values of a bucket.
fn link<T>(slots: &mut Slab<Node<T>>, firsts: &mut Vec<u32>, bucket: u32, n: u32, slot: u32)
    requires within { bucket < length firsts.old.items }
    requires held { IsHeldBefore slots.old (slice_index_or firsts.old.items bucket 0) n }
    ensures slots { slots.new ≡ linked_slots slots.old (slice_index_or firsts.old.items bucket 0) n slot }
    ensures firsts { firsts.new.items ≡ linked_firsts firsts.old.items bucket n slot }
{
    if n == 0 {
        firsts[bucket as usize] = slot;
    } else {
        let before = slot_at(slots, firsts[bucket as usize], n - 1);
        set_next(slots, before, slot);
    }
}

impl<T> Buckets<T> {
    ghost use Rattle.std.specs.Borrow.{sem};
    ghost use Rattle.gui_pool.specs.BucketsLends.{lends_nth};

    /// `buckets` empty buckets that share `slots` slots. No later call takes memory.
    pub fn open(alloc: Global, buckets: u32, slots: u32) -> Result<Buckets<T>, NoMemory>
        ensures buckets { IfOk result (λ b. length b.lists ≡ buckets) }
        ensures empty { IfOk result (λ b. (bucket : ℕ) → list_of b bucket ≡ []) }
        ensures spare { IfOk result (λ b. b.spare ≡ slots) }
        ensures size { IfOk result (λ b. b.size ≡ slots) }
    {
        let Ok(firsts) = Vec::from_elem(alloc, NOWHERE, buckets as usize) else {
            return Err(NoMemory);
        };
        let slots = Slab::with_capacity(alloc, slots)?;
        Ok(Buckets { slots, firsts })
    }

    /// How many more values fit.
    pub fn spare(&self) -> u32
        ensures value { result ≡ self.now.spare }
        ensures sum { total self.now + result ≡ self.now.size }
    {
        let _ = &self.firsts;
        self.slots.spare()
    }

    /// The values of a bucket, in order.
    pub fn of(&self, bucket: u32) -> Bucket<'_, T>
        requires { bucket < length self.now.lists }
        ensures value { result ≡ list_of self.now bucket }
        ensures few { length result < 2 ^ 32 }
    {
        Bucket {
            slots: &self.slots,
            slot: self.firsts[bucket as usize],
        }
    }

    /// The value of a bucket at a place, counted from 0.
    pub fn nth(&self, bucket: u32, n: u32) -> Option<&T>
        requires { bucket < length self.now.lists }
        ensures { option_copied result ≡ slice_get (list_of self.now bucket) n }
    {
        let slot = slot_at(&self.slots, self.firsts[bucket as usize], n);
        match self.slots.get(slot) {
            Some(node) => Some(&node.value),
            None => None,
        }
    }

    /// How many values a bucket has.
    fn len(&self, bucket: u32) -> u32
        requires { bucket < length self.now.lists }
        ensures { result ≡ length (list_of self.now bucket) }
    {
        let mut items = self.of(bucket);
        let mut count = 0;
        while items.next().is_some() {
            count += 1;
        }
        count
    }

    /// Puts a value last in a bucket. It hands the value back, with all as before, exactly if no slot is spare.
    pub fn push(&mut self, bucket: u32, value: T) -> Result<(), T>
        requires { bucket < length self.old.lists }
        ensures full { IsErr result ↔ (self.old.spare ≡ 0) }
        ensures added { OnOk result (self.new ≡ pushed self.old bucket value) }
        ensures refused { IfErr result (λ back. (back ≡ value) × (self.new ≡ self.old)) }
    {
        let count = self.len(bucket);
        match self.slots.insert(Node {
            value,
            next: NOWHERE,
        }) {
            Ok(slot) => {
                link(&mut self.slots, &mut self.firsts, bucket, count, slot);
                Ok(())
            }
            Err(node) => {
                let Node { value, next: _ } = node;
                Err(value)
            }
        }
    }

    /// The value of a bucket at a place, to be changed in its place.
    pub fn nth_mut(&mut self, bucket: u32, n: u32) -> &mut T
        requires within { bucket < length self.old.lists }
        requires there { n < length (list_of self.old bucket) }
        ensures* writes_back { sem 𝓛 (lends_nth T.row self.entry bucket n result) }
        ensures value { Some result.now ≡ slice_get (list_of self.old bucket) n }
    {
        let slot = slot_at(&self.slots, self.firsts[bucket as usize], n);
        let node = self.slots.value_mut(slot);
        &mut node.value
    }

    /// Puts another value at a place, and hands out the one that stood there.
    pub fn replace(&mut self, bucket: u32, n: u32, value: T) -> T
        requires within { bucket < length self.old.lists }
        requires there { n < length (list_of self.old bucket) }
        ensures was { Some result ≡ slice_get (list_of self.old bucket) n }
        ensures replaced { self.new ≡ replaced self.old bucket n value }
    {
        let slot = slot_at(&self.slots, self.firsts[bucket as usize], n);
        let Some(node) = self.slots.get_mut(slot) else {
            unreachable!()
        };
        mem::replace(&mut node.value, value)
    }

    /// Takes out the value at a place. Its slot is spare from then on.
    pub fn remove(&mut self, bucket: u32, n: u32) -> T
        requires within { bucket < length self.old.lists }
        requires there { n < length (list_of self.old bucket) }
        ensures value { Some result ≡ slice_get (list_of self.old bucket) n }
        ensures removed { self.new ≡ removed self.old bucket n }
        ensures room { self.new.spare ≤ self.new.size }
    {
        let slot = slot_at(&self.slots, self.firsts[bucket as usize], n);
        let Some(node) = self.slots.take(slot) else {
            unreachable!()
        };
        let Node { value, next } = node;
        link(&mut self.slots, &mut self.firsts, bucket, n, next);
        value
    }
}

/// The remaining values of a bucket. A contract sees them as a list.
#[derive(Drop)]
pub struct Bucket<'a, T> {
    slots: &'a Slab<Node<T>>,
    slot: u32,
}

impl<'a, T> Model for Bucket<'a, T> {
    ghost use Rattle.std.specs.Prelude.{List};
    ghost use Rattle.std.specs.Coded.{coded_list};

    ghost Value = { List T };

    ghost coded = { coded_list T.code };

    ghost use Rattle.gui_pool.specs.Runs.{run_from, IsToCome};

    ghost view = { λ b. run_from b.slots.now.slots b.slot };

    ghost invariant = { λ b. IsToCome b.slots.now b.slot };
}

impl<'a, T> Bucket<'a, T> {
    /// The next value: `None` exactly if none is left.
    pub fn next(&mut self) -> Option<&'a T>
        ensures { MatchOption result ((self.old ≡ []) × (self.new ≡ [])) (λ v. self.old ≡ v.now ∷ self.new) }
    {
        match self.slots.get(self.slot) {
            Some(node) => {
                self.slot = node.next;
                Some(&node.value)
            }
            None => None,
        }
    }
}
