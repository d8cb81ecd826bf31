//! Which styles an object uses, and which objects use a style.
ghost use Rattle.std.specs.Prelude.{◌≡◌, ℕ, ◌^◌, ◌<◌, [], length, IfOk, OnOk, OnErr};
ghost use Rattle.std.specs.List.{list_any};
ghost use Rattle.gui_base.specs.declared.limits.Pool.TheVariants.{Uses as UseSlots};
ghost use Rattle.gui_pool.specs.Lists.{list_of, pushed, removed, cleared};
ghost use Rattle.style_defs.specs.Firsts.{place_by};
ghost use Rattle.gui_style.specs.Styles.{full_answer, is_handle, is_of_style};

use gui_base::{Handle, NoMemory, Pool, Refusal};
use gui_pool::{ListIter, Lists};
use std::alloc::Global;
use std::marker::Model;
use style_defs::Use;

/// How many numbers there are for handles, and as many for styles.
const NUMBERS: u32 = 65_536;

/// The styles that each object uses, in the order of adding. The users of a style are found without a walk
/// over the objects.
///
/// A contract sees the list of each object, and how many more uses fit. A use takes 44 to 52 bytes.
#[derive(Drop)]
pub(crate) struct Uses {
    // By handle.
    all: Lists<Use>,
    // By style: the handle of the object of each use.
    users: Lists<Handle>,
}

impl Model for Uses {
    ghost use Rattle.gui_pool.specs.Lists.{Lists};
    ghost use Rattle.style_defs.specs.declared.Use.{Use};

    ghost Value = { Lists Use };

    ghost use Rattle.gui_style.specs.Users.{AreUsers};

    ghost view = { λ u. u.all };

    ghost invariant = { λ u. AreUsers u.all u.users };
}

/// Where an object stands first among the users of a style.
fn place_of(users: &Lists<Handle>, style: u16, h: Handle) -> Option<u32>
    requires { style < length users.now.lists }
    ensures { result ≡ place_by (is_handle h.0) (list_of users.now style) }
{
    let mut handles = users.of(style as u32);
    let mut place = 0;
    while let Some(user) = handles.next() {
        if user.0 == h.0 {
            return Some(place);
        }
        place += 1;
    }
    None
}

impl Uses {
    /// No uses, and room for so many, or `NoMemory` if there is no memory for so many. No later call takes
    /// memory.
    pub(crate) fn open(alloc: Global, uses: u32) -> Result<Uses, NoMemory>
        ensures handles { IfOk result (λ u. length u.lists ≡ 65536) }
        ensures empty { IfOk result (λ u. (h : ℕ) → list_of u h ≡ []) }
        ensures spare { IfOk result (λ u. u.spare ≡ uses) }
    {
        let Ok(all) = Lists::open(alloc, NUMBERS, uses) else {
            return Err(NoMemory);
        };
        let Ok(users) = Lists::open(alloc, NUMBERS, uses) else {
            return Err(NoMemory);
        };
        Ok(Uses { all, users })
    }

    /// How many more uses fit.
    pub(crate) fn spare(&self) -> u32
        ensures { result ≡ self.now.spare }
    {
        self.all.spare()
    }

    /// The uses of an object, in the order of adding.
    pub(crate) fn of(&self, h: Handle) -> ListIter<'_, Use>
        requires { h.0 < length self.now.lists }
        ensures value { result ≡ list_of self.now h.0 }
        ensures few { length result < 2 ^ 32 }
    {
        self.all.of(h.0 as u32)
    }

    /// The objects that use a style, for any selector: each once for each use, in no order.
    pub(crate) fn users(&self, style: u16) -> ListIter<'_, Handle>
        ensures these { (h : ℕ) →
            list_any (is_handle h) result ≡ list_any (is_of_style style) (list_of self.now h) }
        ensures few { length result < 2 ^ 32 }
    {
        self.users.of(style as u32)
    }

    /// Puts a use last in an object's list.
    ///
    /// # Errors
    ///
    /// `Full` of uses if no more uses fit. All is then as before.
    pub(crate) fn push(&mut self, h: Handle, used: Use) -> Result<(), Refusal>
        requires { h.0 < length self.old.lists }
        ensures answer { result ≡ full_answer self.old.spare UseSlots }
        ensures ok { OnOk result (self.new ≡ pushed self.old h.0 used) }
        ensures refused { OnErr result (self.new ≡ self.old) }
    {
        let Ok(()) = self.all.push(h.0 as u32, used) else {
            return Err(Refusal::Full(Pool::Uses));
        };
        // As many fit in one as in the other.
        let Ok(()) = self.users.push(used.style as u32, h) else {
            unreachable!()
        };
        Ok(())
    }

    /// Takes out the use at a place of an object's list. Its slots are spare from then on.
    pub(crate) fn remove(&mut self, h: Handle, n: u32)
        requires within { h.0 < length self.old.lists }
        requires there { n < length (list_of self.old h.0) }
        ensures { self.new ≡ removed self.old h.0 n }
    {
        let used = self.all.remove(h.0 as u32, n);
        // Who uses a style is one of its users.
        let Some(place) = place_of(&self.users, used.style, h) else {
            unreachable!()
        };
        self.users.remove(used.style as u32, place);
    }

    /// Takes out all uses of an object. Their slots are spare from then on.
    pub(crate) fn clear(&mut self, h: Handle)
        requires { h.0 < length self.old.lists }
        ensures { self.new ≡ cleared self.old h.0 }
    {
        while self.of(h).next().is_some() {
            self.remove(h, 0);
        }
    }
}
