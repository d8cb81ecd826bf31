//! What is set, by owner and by property.
ghost use Rattle.std.specs.Prelude.{◌≡◌, ℕ, ◌^◌, ◌<◌, ◌≤◌, true, [], length, take, filter};
ghost use Rattle.std.specs.Prelude.{IfOk, IfSome, OnOk, OnErr, slice_get};
ghost use Rattle.gui_base.specs.declared.limits.Pool.TheVariants.{Entries as EntrySlots};
ghost use Rattle.gui_pool.specs.Lists.{list_of, pushed, replaced, removed, cleared};
ghost use Rattle.gui_style.specs.Filed.{spread, keys, key, has_prop};
ghost use Rattle.gui_style.specs.Styles.{full_answer};

use gui_base::{NoMemory, Pool, Prop, Refusal};
use gui_pool::{ListIter, Lists};
use std::alloc::Global;
use std::marker::Model;
use style_defs::Entry;

/// How many properties there are.
const PROP_COUNT: u32 = 19;

/// How far the keys of a property lie from those of the next: farther than there are owners, so that no two
/// pairs of owner and property share a key.
///
/// A key's low bits name its bucket, and a walk passes over the others in the bucket. This is a nineteenth of
/// 2^27. The number of buckets is a power of two up to 2^27. So the properties of one owner come a nineteenth
/// of the buckets apart. One property of owners in a row comes into buckets in a row.
const SPREAD: u32 = 7_064_091;

/// What is set, in a list for each owner, in the order of arrival. What an owner sets of one property is
/// found without reading the rest.
///
/// A contract sees the list of each owner, and how many more entries fit. An entry takes 48 to 56 bytes.
#[derive(Drop)]
pub(crate) struct Entries {
    // By owner.
    all: Lists<Entry>,
    // By owner and property. Each entry stands in both lists.
    by_prop: Lists<Entry>,
}

impl Model for Entries {
    ghost use Rattle.gui_pool.specs.Lists.{Lists};
    ghost use Rattle.style_defs.specs.declared.Entry.{Entry};

    ghost Value = { Lists Entry };

    ghost use Rattle.gui_style.specs.Filed.{AreFiled};

    ghost view = { λ e. e.all };

    ghost invariant = { λ e. AreFiled e.all e.by_prop };
}

/// The number under which an owner's entries of a property stand.
fn key_of(owner: u32, prop: Prop) -> u32
    requires { owner < spread }
    ensures value { result ≡ key owner prop }
    ensures within { result < keys }
{
    prop as u32 * SPREAD + owner
}

/// How many of an owner's first `n` entries are of a property.
fn rank(entries: &Lists<Entry>, owner: u32, n: u32, prop: Prop) -> u32
    requires { owner < length entries.now.lists }
    ensures { result ≡ length (filter (has_prop prop) (take n (list_of entries.now owner))) }
{
    let mut items = entries.of(owner);
    let mut count = 0;
    for _i in 0..n {
        let Some(entry) = items.next() else {
            return count;
        };
        if entry.prop == prop {
            count += 1;
        }
    }
    count
}

impl Entries {
    /// Empty lists for the owners below `owners`, with room for so many entries, or `NoMemory` if there is no
    /// memory for so many. No later call takes memory.
    pub(crate) fn open(alloc: Global, owners: u32, entries: u32) -> Result<Entries, NoMemory>
        requires { owners ≤ spread }
        ensures owners { IfOk result (λ e. length e.lists ≡ owners) }
        ensures empty { IfOk result (λ e. (owner : ℕ) → list_of e owner ≡ []) }
        ensures spare { IfOk result (λ e. e.spare ≡ entries) }
    {
        let Ok(all) = Lists::open(alloc, owners, entries) else {
            return Err(NoMemory);
        };
        let Ok(by_prop) = Lists::open(alloc, PROP_COUNT * SPREAD, entries) else {
            return Err(NoMemory);
        };
        Ok(Entries { all, by_prop })
    }

    /// How many more entries fit.
    pub(crate) fn spare(&self) -> u32
        ensures { result ≡ self.now.spare }
    {
        self.all.spare()
    }

    /// The entries of an owner, in order.
    pub(crate) fn of(&self, owner: u32) -> ListIter<'_, Entry>
        requires { owner < length self.now.lists }
        ensures value { result ≡ list_of self.now owner }
        ensures few { length result < 2 ^ 32 }
    {
        self.all.of(owner)
    }

    /// An owner's entries of a property, in order. It reads no others.
    pub(crate) fn of_prop(&self, owner: u32, prop: Prop) -> ListIter<'_, Entry>
        requires { owner < length self.now.lists }
        ensures value { result ≡ filter (has_prop prop) (list_of self.now owner) }
        ensures few { length result < 2 ^ 32 }
    {
        self.by_prop.of(key_of(owner, prop))
    }

    /// Puts an entry last in an owner's list.
    ///
    /// # Errors
    ///
    /// `Full` of entries if no more entries fit. All is then as before.
    pub(crate) fn push(&mut self, owner: u32, entry: Entry) -> Result<(), Refusal>
        requires { owner < length self.old.lists }
        ensures answer { result ≡ full_answer self.old.spare EntrySlots }
        ensures ok { OnOk result (self.new ≡ pushed self.old owner entry) }
        ensures refused { OnErr result (self.new ≡ self.old) }
    {
        let Ok(()) = self.all.push(owner, entry) else {
            return Err(Refusal::Full(Pool::Entries));
        };
        // As many fit in one as in the other.
        let Ok(()) = self.by_prop.push(key_of(owner, entry.prop), entry) else {
            unreachable!()
        };
        Ok(())
    }

    /// Puts another entry of the same property at a place of an owner's list.
    pub(crate) fn replace(&mut self, owner: u32, n: u32, entry: Entry)
        requires within { owner < length self.old.lists }
        requires there { n < length (list_of self.old owner) }
        requires same { IfSome (slice_get (list_of self.old owner) n) (λ e. has_prop entry.prop e ≡ true) }
        ensures { self.new ≡ replaced self.old owner n entry }
    {
        let place = rank(&self.all, owner, n, entry.prop);
        self.all.replace(owner, n, entry);
        let key = key_of(owner, entry.prop);
        self.by_prop.replace(key, place, entry);
    }

    /// Takes out the entry at a place of an owner's list. Its slots are spare from then on.
    pub(crate) fn remove(&mut self, owner: u32, n: u32)
        requires within { owner < length self.old.lists }
        requires there { n < length (list_of self.old owner) }
        ensures { self.new ≡ removed self.old owner n }
    {
        let entry = self.all.remove(owner, n);
        let place = rank(&self.all, owner, n, entry.prop);
        self.by_prop.remove(key_of(owner, entry.prop), place);
    }

    /// Takes out all entries of an owner. Their slots are spare from then on.
    pub(crate) fn clear(&mut self, owner: u32)
        requires { owner < length self.old.lists }
        ensures { self.new ≡ cleared self.old owner }
    {
        while self.of(owner).next().is_some() {
            self.remove(owner, 0);
        }
    }
}
