//! Changes of the scene, and what goes with the objects that they remove.
ghost use Rattle.std.specs.Prelude.{◌≡◌, Some, OnOk, OnErr};
ghost use Rattle.std.specs.List.{list_any};
ghost use Rattle.gui_base.specs.Refusing.{result_of};
ghost use Rattle.gui_change.specs.Canvas.{removed_in};
ghost use Rattle.gui_edge.specs.Sink.{SinkState};
ghost use Rattle.play_defs.specs.Focus.{group_of};
ghost use Rattle.run_defs.specs.Making.{attempt as attempt_of, forget as forget_of, handles, heir as heir_of};
ghost use Rattle.run_defs.specs.Making.{is_hidden, is_usable, leave_group, made, note as note_of, pass_on};
ghost use Rattle.run_defs.specs.Making.{put_state};
ghost use Rattle.run_defs.specs.Play.{each, nothing};
ghost use Rattle.scene_defs.specs.Change.{answer_of};
ghost use Rattle.scene_defs.specs.Scene.{path_at, row_at};
ghost use Rattle.scene_defs.specs.Valid.{IsChange};
ghost use Rattle.gui_board.specs.Hiding.{hides};

use crate::board::Board;
use crate::scribe::refusal_text;
use gui_base::{Flag, Handle, Refusal, State};
use gui_edge::Sink;
use scene_defs::Change;

impl Board {
    ghost use Rattle.gui_board.specs.Boards.{machine_of, pending_of, Plays, Quiet};

    /// Puts an object into a state, or takes it out; no change if it is so already.
    pub fn put_state(&mut self, state: State, on: bool, h: Handle)
        ensures done { Quiet self.old self.new (put_state state on h) }
        ensures gone { removed_in self.new.canvas ≡ removed_in self.old.canvas }
    {
        if self.is_in_state(state, h) != on {
            let _ = self.change(&Change::State(h, state, on));
        }
    }

    /// Whether an object has the hidden flag.
    fn hides(&self, h: Handle) -> bool
        ensures { result ≡ hides (row_at (machine_of self.now).scene h.0) }
    {
        self.canvas
            .store()
            .row(h)
            .is_some_and(|row| row.is_on(Flag::Hidden))
    }

    /// Whether an object or one above it is hidden.
    fn is_hidden(&self, h: Handle) -> bool
        ensures { result ≡ list_any is_hidden (path_at (machine_of self.now).scene h.0) }
    {
        for k in self.canvas.store().tree().ancestors(h) {
            if self.hides(k) {
                return true;
            }
        }
        false
    }

    /// Whether the focus may pass to an object: it is there and not disabled, and neither it nor one above it
    /// is hidden.
    pub fn is_usable(&self, h: Handle) -> bool
        ensures { result ≡ is_usable (machine_of self.now).scene h }
    {
        self.has(h) && !self.is_in_state(State::Disabled, h) && !self.is_hidden(h)
    }

    /// Who gets the focus of a group if an object leaves it.
    fn heir(&self, id: u8, h: Handle) -> Option<Handle>
        ensures { result ≡ heir_of (machine_of self.now) id h }
    {
        if self.groups.focused(id) != Some(h) {
            return None;
        }
        self.next_to_focus(true, id)
    }

    /// Takes an object out of its group, if it is in one. The focus passes on from it, and no event tells so.
    pub(crate) fn leave_group(&mut self, h: Handle)
        ensures done { Quiet self.old self.new (leave_group h) }
        ensures gone { removed_in self.new.canvas ≡ removed_in self.old.canvas }
    {
        if let Some(id) = self.groups.group_of(h) {
            let heir = self.heir(id, h);
            self.pass_on(id, h, heir);
        }
    }

    /// Takes an object out of its group, whose focus its heir gets, if there is one.
    fn pass_on(&mut self, id: u8, h: Handle, heir: Option<Handle>)
        requires { group_of (machine_of self.old).groups h ≡ Some id }
        ensures done { Quiet self.old self.new (pass_on id h heir) }
        ensures gone { removed_in self.new.canvas ≡ removed_in self.old.canvas }
    {
        let _ = self.groups.leave(h);
        if let Some(k) = heir {
            self.groups.set_focused(id, Some(k));
            self.put_state(State::Focused, true, k);
        }
    }

    /// Drops what goes with an object that is removed: its handlers, what is held on it, its animations, and
    /// its place in its group.
    fn forget(&mut self, h: Handle)
        ensures done { Quiet self.old self.new (forget_of h) }
        ensures gone { removed_in self.new.canvas ≡ removed_in self.old.canvas }
    {
        self.handlers.forget(h);
        self.inputs.forget(h);
        self.anims.forget(h);
        self.leave_group(h);
    }

    /// Drops what goes with the objects that were removed last.
    fn forget_all(&mut self)
        ensures { Quiet self.old self.new (each forget_of (handles (removed_in self.old.canvas))) }
    {
        let count = self.canvas.store().tree().last_removed().len();
        'gone: for i in 0..count {
            let h = self.canvas.store().tree().last_removed()[i];
            self.forget(h);
        }
    }

    /// Makes a change, with what goes with the objects that it removes.
    ///
    /// # Errors
    ///
    /// Its first refusal. All is then as before.
    pub fn make(&mut self, change: &Change) -> Result<(), Refusal>
        requires { IsChange change.now }
        ensures answer { result ≡ result_of (answer_of (machine_of self.old).scene change.now) }
        ensures done { OnOk result (Quiet self.old self.new (made change.now)) }
        ensures refused { OnErr result (Quiet self.old self.new nothing) }
        ensures unmarked { OnErr result (pending_of self.new ≡ pending_of self.old) }
    {
        // For the proof alone: `tree` says that the scene is in order.
        let _tree = self.canvas.store().tree();
        self.change(change)?;
        if let Change::Delete(_) = change {
            self.forget_all();
        }
        Ok(())
    }

    /// Makes a change, or writes why it is refused.
    pub(crate) fn attempt<S: Sink>(&mut self, change: &Change, log: &mut S)
        requires { IsChange change.now }
        ensures { Plays self.old self.new (S.state log.old) (S.state log.new) (attempt_of change.now) }
    {
        if let Err(refusal) = self.make(change) {
            self.note(refusal, log);
        }
    }

    /// Writes the line that tells that an action was refused.
    fn note<S: Sink>(&mut self, refusal: Refusal, log: &mut S)
        ensures { Plays self.old self.new (S.state log.old) (S.state log.new) (note_of refusal) }
    {
        let line = refusal_text(refusal);
        self.scribe.write(line.as_slice(), log);
        self.scribe.noted = true;
    }
}
