//! The handlers of each object.
ghost use Rattle.std.specs.Prelude.{◌≡◌, ◌+◌, ◌<◌, ℕ, [], length, sum_by, IfOk, OnOk, OnErr, slice_get};
ghost use Rattle.play_defs.specs.Handlers.{handlers_of, actions_of, is_of};
ghost use Rattle.gui_event.specs.Kept.{place_by};
ghost use Rattle.gui_event.specs.Handlers.{spare, add_answer, with_handler, without_kind, forgotten};

use gui_base::{Action, EventKind, Handle, NoMemory, Pool, Refusal};
use gui_pool::Lists;
use play_defs::Handler;
use std::alloc::Global;
use std::marker::Model;

/// How many numbers there are for handles.
const HANDLES: u32 = 65_536;

/// The handlers of each object, in the order of adding.
///
/// A contract sees them by handle, and how many fit in all. Any handle may be given: an object to which none
/// was added has none.
///
/// A handle without handlers takes no memory. A call takes time in proportion to the number of handlers of its
/// object, and of objects that share a bucket with it; `drop_kind` takes so much for each handler that it
/// drops.
pub struct Handlers {
    // By handle.
    lists: Lists<Handler>,
}

impl Drop for Handlers {
    /// Lets go of every field in one call, which keeps the proofs of its owners short.
    fn drop(self) {
        let Handlers { lists: _ } = self;
    }
}

impl Model for Handlers {
    ghost use Rattle.gui_event.specs.Handlers.{Handlers};

    ghost Value = { Handlers };

    ghost use Rattle.gui_event.specs.Kept.{handlers_in, AreHandlers};

    ghost view = { λ s. handlers_in s.lists };

    ghost invariant = { λ s. AreHandlers s.lists };
}

impl Handlers {
    /// No handlers, and room for `n`. `NoMemory` if there is no memory for so many. No later call takes memory.
    pub fn open(alloc: Global, n: u32) -> Result<Handlers, NoMemory>
        ensures none { IfOk result (λ s. (h : ℕ) → handlers_of s.lists h ≡ []) }
        ensures handles { IfOk result (λ s. length s.lists ≡ 65536) }
        ensures size { IfOk result (λ s. s.size ≡ n) }
    {
        match Lists::open(alloc, HANDLES, n) {
            Ok(lists) => Ok(Handlers { lists }),
            Err(_) => Err(NoMemory),
        }
    }

    /// How many more fit.
    pub fn spare(&self) -> u32
        ensures value { result ≡ spare self.now }
        ensures sum { sum_by length self.now.lists + result ≡ self.now.size }
    {
        self.lists.spare()
    }

    /// Adds a handler, the last of its object.
    ///
    /// # Errors
    ///
    /// `Full` of handlers if no more fit. All is then as before.
    pub fn add_handler(&mut self, h: Handle, kind: EventKind, action: Action) -> Result<(), Refusal>
        ensures answer { result ≡ add_answer self.old }
        ensures ok { OnOk result (self.new ≡ with_handler self.old h.0 kind action) }
        ensures refused { OnErr result (self.new ≡ self.old) }
    {
        if self.lists.spare() == 0 {
            return Err(Refusal::Full(Pool::Handlers));
        }
        let Ok(()) = self.lists.push(h.0 as u32, Handler { kind, action }) else {
            unreachable!()
        };
        Ok(())
    }

    /// Where the first handler of a kind stands among those of an object.
    fn place_of(&self, h: Handle, kind: EventKind) -> Option<u32>
        ensures { result ≡ place_by (is_of kind) (handlers_of self.now.lists h.0) }
    {
        let mut handlers = self.lists.of(h.0 as u32);
        let mut place = 0;
        while let Some(handler) = handlers.next() {
            if handler.kind == kind {
                return Some(place);
            }
            place += 1;
        }
        None
    }

    /// Drops the handlers of a kind of an object.
    pub fn drop_kind(&mut self, h: Handle, kind: EventKind)
        ensures { self.new ≡ without_kind self.old h.0 kind }
    {
        while let Some(place) = self.place_of(h, kind) {
            self.lists.remove(h.0 as u32, place);
        }
    }

    /// Drops all handlers of an object.
    pub fn forget(&mut self, h: Handle)
        ensures { self.new ≡ forgotten self.old h.0 }
    {
        self.lists.clear(h.0 as u32);
    }

    /// What the nth handler of a kind of an object does, counted from 0: `None` exactly past the last.
    pub fn nth(&self, h: Handle, kind: EventKind, n: u32) -> Option<Action>
        ensures { result ≡ slice_get (actions_of kind (handlers_of self.now.lists h.0)) n }
    {
        let mut handlers = self.lists.of(h.0 as u32);
        let mut left = n;
        while let Some(handler) = handlers.next() {
            if handler.kind == kind {
                if left == 0 {
                    return Some(handler.action);
                }
                left -= 1;
            }
        }
        None
    }
}
