//! The first refusal of a command on handlers, groups, devices and animations, according to what the board
//! holds.
ghost use Rattle.std.specs.Prelude.{◌≡◌, ◌∷◌, [], None};
ghost use Rattle.gui_base.specs.Refusing.{first_of, parentless};
ghost use Rattle.gui_edge.specs.Sink.{SinkState};
ghost use Rattle.run_defs.specs.Step.{answer, full_for, gone, no_such_group, tests_of, var_tests};
ghost use Rattle.run_defs.specs.Focusing.{join};
ghost use Rattle.run_laws.specs.Members.{AreJoined};
ghost use Rattle.scene_defs.specs.Edits.{has_feature_at};
ghost use Rattle.scene_defs.specs.Scene.{handles_of};

use crate::board::Board;
use gui_base::{Action, EventKind, Handle, Pool, Refusal, Var};
use gui_edge::Sink;
use gui_store::has_feature;
use play_defs::AnimSpec;
use run_defs::Command;
use scene_defs::Feature;

impl Board {
    ghost use Rattle.gui_board.specs.Boards.{machine_of, Plays};

    /// `Unknown` if an object is not there.
    pub fn unknown(&self, h: Handle) -> Option<Refusal>
        ensures { result ≡ first_of (gone (machine_of self.now) h ∷ []) None }
    {
        if self.has(h) {
            None
        } else {
            Some(Refusal::Unknown)
        }
    }

    /// The first refusal of a handler that is to be added.
    pub fn on_refusal(&self, h: Handle, kind: EventKind, action: Action) -> Option<Refusal>
        ensures { result ≡ first_of (tests_of (machine_of self.now) (Command.On h kind action))
            (full_for (machine_of self.now) (Command.On h kind action)) }
    {
        let unknown = self.unknown(h);
        if unknown.is_some() {
            return unknown;
        }
        if self.handlers.spare() == 0 {
            Some(Refusal::Full(Pool::Handlers))
        } else {
            None
        }
    }

    /// The first refusal of a group that is to be made.
    pub fn group_refusal(&self, id: u8) -> Option<Refusal>
        ensures { result ≡ first_of (tests_of (machine_of self.now) (Command.Group id))
            (full_for (machine_of self.now) (Command.Group id)) }
    {
        if self.groups.has(id) {
            Some(Refusal::Taken)
        } else if self.groups.spare() == 0 {
            Some(Refusal::Full(Pool::Groups))
        } else {
            None
        }
    }

    /// The first refusal of an object that is to join a group.
    pub fn join_refusal(&self, id: u8, h: Handle) -> Option<Refusal>
        ensures { result ≡ first_of (tests_of (machine_of self.now) (Command.Join id h)) None }
    {
        if !self.groups.has(id) {
            Some(Refusal::Unknown)
        } else if !self.has(h) {
            Some(Refusal::Unknown)
        } else if self.groups.group_of(h).is_some() {
            Some(Refusal::Taken)
        } else {
            None
        }
    }

    /// The first refusal where an object has to be there and in a group.
    pub fn member_refusal(&self, h: Handle) -> Option<Refusal>
        ensures { result ≡ first_of (tests_of (machine_of self.now) (Command.Leave h)) None }
    {
        if !self.has(h) {
            Some(Refusal::Unknown)
        } else if self.groups.group_of(h).is_none() {
            Some(Refusal::Place)
        } else {
            None
        }
    }

    /// The first refusal of a group that a device is to have, 0 for none.
    pub fn device_refusal(&self, id: u8) -> Option<Refusal>
        ensures { result ≡ first_of (no_such_group (machine_of self.now) id ∷ []) None }
    {
        if id != 0 && !self.groups.has(id) {
            Some(Refusal::Unknown)
        } else {
            None
        }
    }

    /// Makes an object a member of a group if nothing is against that.
    pub fn join_new<S: Sink>(&mut self, id: u8, h: Handle, log: &mut S)
        requires answer { answer (machine_of self.old) (Command.Join id h) ≡ None }
        requires members { AreJoined (machine_of self.old) }
        ensures { Plays self.old self.new (S.state log.old) (S.state log.new) (join id h) }
    {
        // For the proof alone: `tree` says that the scene is in order.
        let _tree = self.canvas.store().tree();
        self.join(id, h, log);
    }

    /// Whether an object has a value.
    pub fn has_value(&self, h: Handle) -> bool
        ensures { result ≡ has_feature_at (machine_of self.now).scene Feature.Value h.0 }
    {
        match self.canvas.store().row(h) {
            None => false,
            Some(row) => has_feature(Feature::Value, row.kind),
        }
    }

    /// `Kind` if an object has no value.
    pub fn value_refusal(&self, h: Handle) -> Option<Refusal>
        ensures { result ≡ first_of (var_tests (machine_of self.now).scene Var.Value h) None }
    {
        if self.has_value(h) {
            None
        } else {
            Some(Refusal::Kind)
        }
    }

    /// `Place` if an object has no parent.
    pub fn place_refusal(&self, h: Handle) -> Option<Refusal>
        ensures { result
            ≡ first_of (parentless (handles_of (machine_of self.now).scene.trees) h.0 ∷ []) None }
    {
        if self.canvas.store().tree().parent(h).is_some() {
            None
        } else {
            Some(Refusal::Place)
        }
    }

    /// The first refusal of what a variable asks of its object: a value, or a parent.
    pub fn var_refusal(&self, var: Var, h: Handle) -> Option<Refusal>
        ensures { result ≡ first_of (var_tests (machine_of self.now).scene var h) None }
    {
        match var {
            Var::Value => self.value_refusal(h),
            Var::X | Var::Y | Var::Width | Var::Height => self.place_refusal(h),
        }
    }

    /// The first refusal of an animation that is to be started.
    pub fn anim_refusal(&self, spec: AnimSpec) -> Option<Refusal>
        ensures { result ≡ first_of (tests_of (machine_of self.now) (Command.Anim spec))
            (full_for (machine_of self.now) (Command.Anim spec)) }
    {
        if !self.has(spec.h) {
            return Some(Refusal::Unknown);
        }
        let refusal = self.var_refusal(spec.var, spec.h);
        if refusal.is_some() {
            return refusal;
        }
        if self.anims.spare() == 0 && !self.anims.is_moved(spec.h, spec.var) {
            Some(Refusal::Full(Pool::Anims))
        } else {
            None
        }
    }

    /// The first refusal of an animation that is to be stopped.
    pub fn stop_refusal(&self, h: Handle, var: Var) -> Option<Refusal>
        ensures { result ≡ first_of (tests_of (machine_of self.now) (Command.Stop h var)) None }
    {
        if self.has(h) && self.anims.is_moved(h, var) {
            None
        } else {
            Some(Refusal::Unknown)
        }
    }
}
