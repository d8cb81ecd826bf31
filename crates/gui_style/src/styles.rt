//! The styles.
ghost use Rattle.std.specs.Prelude.{◌≡◌, ℕ, ◌+◌, ◌^◌, ◌<◌, [], None, length, fold, IfOk, OnOk, OnErr};
ghost use Rattle.std.specs.List.{list_any};
ghost use Rattle.style_defs.specs.Firsts.{place_by};
ghost use Rattle.style_defs.specs.Cascade.{has_style, sets, settings_of, setting_of, of_use, stronger};
ghost use Rattle.style_defs.specs.Book.{locals_of, uses_of, is_for, is_use, an_entry, a_use, a_setting};
ghost use Rattle.gui_style.specs.Styles.{winning_at, shared_at, local_at, uses_style, is_handle};
ghost use Rattle.gui_style.specs.Kept.{first_style};
ghost use Rattle.gui_style.specs.Styles.{style_answer, with_style, style_prop_answer, with_prop};
ghost use Rattle.gui_style.specs.Styles.{unset_prop_answer, without_prop, add_style_answer, with_use};
ghost use Rattle.gui_style.specs.Styles.{remove_style_answer, without_use, set_local_answer, with_local};
ghost use Rattle.gui_style.specs.Styles.{unset_local_answer, without_local, forgotten, all_forgotten};

use crate::cascade::{applies, given_by, selector_of, stronger};
use crate::entries::Entries;
use crate::uses::Uses;
use gui_base::{Handle, NoMemory, Part, Pool, Prop, Refusal, Selector};
use gui_pool::{ListIter, Table};
use std::alloc::Global;
use std::marker::Model;
use style_defs::{Candidate, Entry, Use};

/// How many numbers there are for handles, and as many for styles.
const NUMBERS: u32 = 65_536;

/// The owner of what style 0 sets. The owners before 65,536 are objects, by handle.
///
/// An owner's low bits name its bucket, and a walk passes over the others in the bucket. Handles go up to
/// 9,999, so the first style is put where handle 10,000 would be: the buckets of the styles come after those
/// of the objects.
const FIRST_STYLE: u32 = 75_536;

/// What is written as the selector of a property of a shared style, since a style has none of its own.
const NO_SELECTOR: Selector = Selector {
    part: Part::Main,
    states: 0,
};

/// The shared styles, what is set locally at each object, and the styles that each object uses.
///
/// A contract sees the styles by their numbers from the least on, the local entries and the uses by handle,
/// and how many more of each fit. Any handle and any number of a style may be given: what nothing was done to
/// has no entries and uses no style.
///
/// A style takes 16 to 20 bytes, an entry 48 to 56 and a use 44 to 52. Handles and numbers take no memory.
///
/// A call takes time in proportion to the number of entries or uses of the object or the style that it names.
/// To take a use from an object takes time in proportion to the number of all uses of its style. A look-up
/// takes time in proportion to the uses of the object, and to the entries of the property alone: those of the
/// object and of the styles that it uses. Others are passed over if they share a bucket.
pub struct Styles {
    // The styles that are there, by number.
    made: Table<()>,
    // What is set locally at each object, and then what each shared style sets.
    entries: Entries,
    // By handle and by style.
    uses: Uses,
}

impl Drop for Styles {
    /// Lets go of every field in one call, which keeps the proofs of its owners short.
    fn drop(self) {
        let Styles {
            made: _,
            entries: _,
            uses: _,
        } = self;
    }
}

impl Model for Styles {
    ghost use Rattle.gui_style.specs.Styles.{Styles};

    ghost Value = { Styles };

    ghost use Rattle.gui_style.specs.Kept.{styles_of, AreStyles};

    ghost view = { λ s. styles_of s.made s.entries s.uses };

    ghost invariant = { λ s. AreStyles s.made s.entries s.uses };
}

/// The owner of what a style sets.
fn style_owner(style: u16) -> u32
    ensures value { result ≡ first_style + style }
    ensures within { result < first_style + 65536 }
{
    FIRST_STYLE + style as u32
}

/// The entry with these parts.
fn entry_of(selector: Selector, prop: Prop, value: i32) -> Entry
    ensures { result ≡ an_entry selector prop value }
{
    Entry {
        part: selector.part,
        prop,
        states: selector.states,
        value,
    }
}

impl Styles {
    /// No styles, and room for so many styles, entries and uses. `NoMemory` if there is no memory for them. No
    /// later call takes memory.
    pub fn open(alloc: Global, styles: u32, entries: u32, uses: u32) -> Result<Styles, NoMemory>
        ensures no_styles { IfOk result (λ s. s.book.styles ≡ []) }
        ensures no_locals { IfOk result (λ s. (h : ℕ) → locals_of s.book h ≡ []) }
        ensures no_uses { IfOk result (λ s. (h : ℕ) → uses_of s.book h ≡ []) }
        ensures spare_styles { IfOk result (λ s. s.spare_styles ≡ styles) }
        ensures spare_entries { IfOk result (λ s. s.spare_entries ≡ entries) }
        ensures spare_uses { IfOk result (λ s. s.spare_uses ≡ uses) }
        ensures locals { IfOk result (λ s. length s.book.locals ≡ 65536) }
        ensures uses { IfOk result (λ s. length s.book.uses ≡ 65536) }
    {
        let Ok(made) = Table::open(alloc, NUMBERS, styles) else {
            return Err(NoMemory);
        };
        let Ok(entries) = Entries::open(alloc, FIRST_STYLE + NUMBERS, entries) else {
            return Err(NoMemory);
        };
        let Ok(uses) = Uses::open(alloc, uses) else {
            return Err(NoMemory);
        };
        Ok(Styles {
            made,
            entries,
            uses,
        })
    }

    /// How many more styles fit.
    pub fn spare_styles(&self) -> u32
        ensures { result ≡ self.now.spare_styles }
    {
        self.made.spare()
    }

    /// How many more entries fit: properties that are set, in a style or locally.
    pub fn spare_entries(&self) -> u32
        ensures { result ≡ self.now.spare_entries }
    {
        self.entries.spare()
    }

    /// How many more uses fit: styles that are added to an object.
    pub fn spare_uses(&self) -> u32
        ensures { result ≡ self.now.spare_uses }
    {
        self.uses.spare()
    }

    /// Whether a style is there.
    pub fn has_style(&self, id: u16) -> bool
        ensures { result ≡ has_style self.now.book.styles id }
    {
        self.made.get(id as u32).is_some()
    }

    /// Makes a shared style, which sets nothing. Any number may name it.
    ///
    /// # Errors
    ///
    /// `Taken` if the style is there, and then `Full` of styles if no more styles fit. All is then as before.
    pub fn style(&mut self, id: u16) -> Result<(), Refusal>
        ensures answer { result ≡ style_answer self.old id }
        ensures ok { OnOk result (self.new ≡ with_style self.old id) }
        ensures refused { OnErr result (self.new ≡ self.old) }
    {
        if self.has_style(id) {
            return Err(Refusal::Taken);
        }
        match self.made.insert(id as u32, ()) {
            Ok(()) => Ok(()),
            Err(()) => Err(Refusal::Full(Pool::Styles)),
        }
    }

    /// The value that a style gives a property.
    fn setting(&self, style: u16, prop: Prop) -> Option<i32>
        ensures { result ≡ setting_of (settings_of self.now.book.styles style) prop }
    {
        let mut entries = self.entries.of_prop(style_owner(style), prop);
        let entry = entries.next()?;
        Some(entry.value)
    }

    /// Where the property of a style stands among those that it sets.
    fn setting_place(&self, style: u16, prop: Prop) -> Option<u32>
        ensures { result ≡ place_by (sets prop) (settings_of self.now.book.styles style) }
    {
        let mut entries = self.entries.of(style_owner(style));
        let mut place = 0;
        while let Some(entry) = entries.next() {
            if entry.prop == prop {
                return Some(place);
            }
            place += 1;
        }
        None
    }

    /// Sets a property of a style. A value that was set is replaced in its place.
    ///
    /// # Errors
    ///
    /// `Unknown` if there is no such style, and then `Full` of entries if the property is not set yet and no
    /// more entries fit. All is then as before.
    pub fn style_prop(&mut self, id: u16, prop: Prop, value: i32) -> Result<(), Refusal>
        ensures answer { result ≡ style_prop_answer self.old id prop }
        ensures ok { OnOk result (self.new ≡ with_prop self.old id (a_setting prop value)) }
        ensures refused { OnErr result (self.new ≡ self.old) }
    {
        if !self.has_style(id) {
            return Err(Refusal::Unknown);
        }
        let entry = entry_of(NO_SELECTOR, prop, value);
        match self.setting_place(id, prop) {
            Some(place) => {
                self.entries.replace(style_owner(id), place, entry);
                Ok(())
            }
            None => self.entries.push(style_owner(id), entry),
        }
    }

    /// Removes a property of a style.
    ///
    /// # Errors
    ///
    /// `Unknown` if it is not set. All is then as before.
    pub fn unset_prop(&mut self, id: u16, prop: Prop) -> Result<(), Refusal>
        ensures answer { result ≡ unset_prop_answer self.old id prop }
        ensures ok { OnOk result (self.new ≡ without_prop self.old id prop) }
        ensures refused { OnErr result (self.new ≡ self.old) }
    {
        match self.setting_place(id, prop) {
            Some(place) => {
                self.entries.remove(style_owner(id), place);
                Ok(())
            }
            None => Err(Refusal::Unknown),
        }
    }

    /// Where a use stands among those of an object.
    fn use_place(&self, h: Handle, used: Use) -> Option<u32>
        ensures { result ≡ place_by (is_use used) (uses_of self.now.book h.0) }
    {
        let mut uses = self.uses.of(h);
        let mut place = 0;
        while let Some(other) = uses.next() {
            if *other == used {
                return Some(place);
            }
            place += 1;
        }
        None
    }

    /// Adds a style to an object for a part in some states, after those that it uses.
    ///
    /// # Errors
    ///
    /// `Unknown` if there is no such style, then `Taken` if the object uses it for that selector, and then
    /// `Full` of uses if no more uses fit. All is then as before.
    pub fn add_style(&mut self, h: Handle, id: u16, selector: Selector) -> Result<(), Refusal>
        ensures answer { result ≡ add_style_answer self.old h.0 (a_use id selector) }
        ensures ok { OnOk result (self.new ≡ with_use self.old h.0 (a_use id selector)) }
        ensures refused { OnErr result (self.new ≡ self.old) }
    {
        if !self.has_style(id) {
            return Err(Refusal::Unknown);
        }
        let used = Use {
            style: id,
            selector,
        };
        if self.use_place(h, used).is_some() {
            return Err(Refusal::Taken);
        }
        self.uses.push(h, used)
    }

    /// Takes a style from an object that uses it for this selector.
    ///
    /// # Errors
    ///
    /// `Unknown` if it does not. All is then as before.
    pub fn remove_style(&mut self, h: Handle, id: u16, selector: Selector) -> Result<(), Refusal>
        ensures answer { result ≡ remove_style_answer self.old h.0 (a_use id selector) }
        ensures ok { OnOk result (self.new ≡ without_use self.old h.0 (a_use id selector)) }
        ensures refused { OnErr result (self.new ≡ self.old) }
    {
        let used = Use {
            style: id,
            selector,
        };
        match self.use_place(h, used) {
            Some(place) => {
                self.uses.remove(h, place);
                Ok(())
            }
            None => Err(Refusal::Unknown),
        }
    }

    /// Whether an object uses a style, for any selector.
    pub fn uses_style(&self, h: Handle, id: u16) -> bool
        ensures { result ≡ uses_style self.now.book h.0 id }
    {
        let mut uses = self.uses.of(h);
        while let Some(used) = uses.next() {
            if used.style == id {
                return true;
            }
        }
        false
    }

    /// The objects that use a style, for any selector. One that uses it for several selectors comes once for
    /// each of them. They come in no order. It reads no others.
    pub fn users(&self, id: u16) -> ListIter<'_, Handle>
        ensures these { (h : ℕ) → list_any (is_handle h) result ≡ uses_style self.now.book h id }
        ensures few { length result < 2 ^ 32 }
    {
        self.uses.users(id)
    }

    /// The place of a local property for a selector among the entries of an object.
    fn local_place(&self, h: Handle, selector: Selector, prop: Prop) -> Option<u32>
        ensures { result ≡ place_by (is_for selector prop) (locals_of self.now.book h.0) }
    {
        let mut entries = self.entries.of(h.0 as u32);
        let mut place = 0;
        while let Some(entry) = entries.next() {
            if entry.prop == prop && selector_of(entry) == selector {
                return Some(place);
            }
            place += 1;
        }
        None
    }

    /// Sets a property locally, for a part in some states. A value that was set is replaced in its place.
    ///
    /// # Errors
    ///
    /// `Full` of entries if the property is not set yet and no more entries fit. All is then as before.
    pub fn set_local(
        &mut self,
        h: Handle,
        selector: Selector,
        prop: Prop,
        value: i32,
    ) -> Result<(), Refusal>
        ensures answer { result ≡ set_local_answer self.old h.0 selector prop }
        ensures ok { OnOk result (self.new ≡ with_local self.old h.0 (an_entry selector prop value)) }
        ensures refused { OnErr result (self.new ≡ self.old) }
    {
        let entry = entry_of(selector, prop, value);
        match self.local_place(h, selector, prop) {
            Some(place) => {
                self.entries.replace(h.0 as u32, place, entry);
                Ok(())
            }
            None => self.entries.push(h.0 as u32, entry),
        }
    }

    /// Removes a property that is set locally.
    ///
    /// # Errors
    ///
    /// `Unknown` if it is not set. All is then as before.
    pub fn unset_local(&mut self, h: Handle, selector: Selector, prop: Prop) -> Result<(), Refusal>
        ensures answer { result ≡ unset_local_answer self.old h.0 selector prop }
        ensures ok { OnOk result (self.new ≡ without_local self.old h.0 selector prop) }
        ensures refused { OnErr result (self.new ≡ self.old) }
    {
        match self.local_place(h, selector, prop) {
            Some(place) => {
                self.entries.remove(h.0 as u32, place);
                Ok(())
            }
            None => Err(Refusal::Unknown),
        }
    }

    /// Removes all that is set locally at an object, and all uses of it. Their slots are spare from then on.
    pub fn forget(&mut self, h: Handle)
        ensures { self.new ≡ forgotten self.old h.0 }
    {
        self.entries.clear(h.0 as u32);
        self.uses.clear(h);
    }

    /// Removes all that is set locally at these objects, and all uses of them. Their slots are spare from
    /// then on.
    pub fn forget_all(&mut self, handles: &[Handle])
        ensures { self.new ≡ all_forgotten self.old handles.now }
    {
        for h in handles {
            self.forget(*h);
        }
    }

    /// What a used style gives a property of a part, for an object in these states.
    fn shared_by(&self, used: &Use, part: Part, states: u16, prop: Prop) -> Option<Candidate>
        ensures { result ≡ of_use self.now.book.styles part states prop used.now }
    {
        if !applies(used.selector, part, states) {
            return None;
        }
        let value = self.setting(used.style, prop)?;
        Some(Candidate {
            states: used.selector.states,
            value,
        })
    }

    /// The candidate that wins of the styles that an object uses.
    fn best_shared(&self, h: Handle, part: Part, states: u16, prop: Prop) -> Option<Candidate>
        ensures { result ≡ fold stronger None (shared_at self.now.book h.0 part states prop) }
    {
        let mut best = None;
        let mut uses = self.uses.of(h);
        while let Some(used) = uses.next() {
            if let Some(given) = self.shared_by(used, part, states, prop) {
                best = Some(stronger(best, given));
            }
        }
        best
    }

    /// The candidate that wins of the best so far and what is set locally at an object.
    fn best_local(
        &self,
        shared: Option<Candidate>,
        h: Handle,
        part: Part,
        states: u16,
        prop: Prop,
    ) -> Option<Candidate>
        ensures { result ≡ fold stronger shared (local_at self.now.book h.0 part states prop) }
    {
        let mut best = shared;
        let mut entries = self.entries.of_prop(h.0 as u32, prop);
        while let Some(entry) = entries.next() {
            if let Some(local) = given_by(entry, part, states, prop) {
                best = Some(stronger(best, local));
            }
        }
        best
    }

    /// The value that wins for a property of a part, for an object in these states: `None` exactly if none
    /// applies. Of what is set at the object and in the styles that it uses, it reads the entries of this
    /// property alone.
    pub fn lookup(&self, h: Handle, part: Part, states: u16, prop: Prop) -> Option<i32>
        ensures { result ≡ winning_at self.now.book h.0 part states prop }
    {
        let shared = self.best_shared(h, part, states, prop);
        let best = self.best_local(shared, h, part, states, prop)?;
        Some(best.value)
    }
}
