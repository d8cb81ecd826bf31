//! An event on its path.
ghost use Rattle.std.specs.Prelude.{◌≡◌, if◌then◌else◌, length, sum_by, None, option_map};
ghost use Rattle.gui_base.specs.Forest.{parent_of};
ghost use Rattle.gui_base.specs.declared.words.Flag.TheVariants.{Bubble};
ghost use Rattle.gui_edge.specs.Sink.{SinkState};
ghost use Rattle.gui_tree.specs.Handles.{as_handle};
ghost use Rattle.run_defs.specs.Events.{act, aim_at, asked, path as path_of, run_at, say as say_of, send};
ghost use Rattle.run_defs.specs.Events.{send_input, send_there, takes_input};
ghost use Rattle.run_defs.specs.Making.{handles};
ghost use Rattle.scene_defs.specs.Row.{is_on};

use crate::board::Board;
use crate::scribe::event_text;
use arrayvec::ArrayVec;
use gui_base::{Action, Aim, EventKind, Flag, Handle, State};
use gui_edge::Sink;
use gui_tree::Tree;
use scene_defs::{Change, Row};

/// The numbers of the objects that an event comes to, in order. A tree is at most 16 deep.
type Path = ArrayVec<u16, 16>;

/// What an action is for, by the target of the event.
fn aim_at(target: Handle, aim: Aim) -> Handle
    ensures { result ≡ aim_at target aim }
{
    match aim {
        Aim::Target => target,
        Aim::Object(h) => h,
    }
}

/// The change that an action asks for. An action that writes a line asks for none.
fn asked(target: Handle, action: Action) -> Option<Change<'static>>
    ensures { result ≡ asked target action }
{
    match action {
        Action::Say => None,
        Action::Delete(aim) => Some(Change::Delete(aim_at(target, aim))),
        Action::Load(aim) => Some(Change::Load(aim_at(target, aim))),
        Action::Front(aim) => Some(Change::Front(aim_at(target, aim))),
        Action::Flag(aim, flag, on) => Some(Change::Flag(aim_at(target, aim), flag, on)),
        Action::State(aim, state, on) => Some(Change::State(aim_at(target, aim), state, on)),
        Action::Value(aim, n) => Some(Change::Value(aim_at(target, aim), n)),
        Action::Local(aim, selector, prop, value) => Some(Change::Local(
            aim_at(target, aim),
            selector,
            prop,
            value,
        )),
    }
}

/// Where an event goes on from an object: to its parent, if it has the bubble flag.
fn bubbles_to(tree: &Tree, h: Handle, row: &Row) -> Option<Handle>
    ensures { result ≡ (if is_on row.now.flags Bubble
        then option_map as_handle (parent_of tree.now.forest h.0) else None) }
{
    if row.is_on(Flag::Bubble) {
        tree.parent(h)
    } else {
        None
    }
}

impl Board {
    ghost use Rattle.gui_board.specs.Boards.{machine_of, Plays};

    /// The path of an event: the target, and while the last object has the bubble flag its parent.
    fn path(&self, target: Handle) -> Path
        ensures { handles result.items ≡ path_of (machine_of self.now).scene target }
    {
        let store = self.canvas.store();
        let tree = store.tree();
        let mut path = ArrayVec::new();
        let mut at = Some(target);
        'up: while let Some(h) = at {
            let Some(row) = store.row(h) else {
                return path;
            };
            path.push(h.0);
            at = bubbles_to(tree, h, row);
        }
        path
    }

    /// Writes the line that tells of an event.
    fn say<S: Sink>(&mut self, kind: EventKind, target: Handle, current: Handle, log: &mut S)
        ensures { Plays self.old self.new (S.state log.old) (S.state log.new) (say_of kind target current) }
    {
        let line = event_text(kind, target, current);
        self.scribe.write(line.as_slice(), log);
    }

    /// Runs an action of an object, which is passed over if the object is gone.
    #[tactic(auto, unfolding(run_defs::specs::Events::act), using(crate::proofs::Plays::idle))]
    fn act<S: Sink>(
        &mut self,
        kind: EventKind,
        target: Handle,
        current: Handle,
        action: Action,
        log: &mut S,
    )
        ensures { Plays self.old self.new (S.state log.old) (S.state log.new)
            (act kind target current action) }
    {
        if self.has(current) {
            match asked(target, action) {
                None => self.say(kind, target, current, log),
                Some(change) => self.attempt(&change, log),
            }
        }
    }

    /// How many handlers there are, of all objects.
    fn handler_count(&self) -> u32
        ensures { result ≡ sum_by length (machine_of self.now).handlers }
    {
        self.canvas.store().limits().handlers - self.handlers.spare()
    }

    /// Runs the handlers of one object on the path, while it is there. No object has more than there are.
    fn run_at<S: Sink>(&mut self, kind: EventKind, target: Handle, current: Handle, log: &mut S)
        ensures { Plays self.old self.new (S.state log.old) (S.state log.new) (run_at kind target current) }
    {
        'handlers: for n in 0..self.handler_count() {
            if !self.has(current) {
                return;
            }
            match self.handlers.nth(current, kind, n) {
                None => return,
                Some(action) => self.act(kind, target, current, action, log),
            }
        }
    }

    /// Sends an event on its path, which is fixed when it is sent.
    pub fn send<S: Sink>(&mut self, kind: EventKind, target: Handle, log: &mut S)
        ensures { Plays self.old self.new (S.state log.old) (S.state log.new) (send kind target) }
    {
        let fixed = self.path(target);
        let path = fixed.as_slice();
        'along: for current in path {
            self.run_at(kind, target, Handle(*current), log);
        }
    }

    /// Sends an event to an object that is there.
    pub fn send_there<S: Sink>(&mut self, kind: EventKind, target: Handle, log: &mut S)
        ensures { Plays self.old self.new (S.state log.old) (S.state log.new) (send_there kind target) }
    {
        if self.has(target) {
            self.send(kind, target, log);
        }
    }

    /// Whether input goes to an object: it is there and not disabled.
    pub fn takes_input(&self, h: Handle) -> bool
        ensures { result ≡ takes_input (machine_of self.now).scene h }
    {
        self.has(h) && !self.is_in_state(State::Disabled, h)
    }

    /// Sends an event of input to an object that takes it.
    pub fn send_input<S: Sink>(&mut self, kind: EventKind, target: Handle, log: &mut S)
        ensures { Plays self.old self.new (S.state log.old) (S.state log.new) (send_input kind target) }
    {
        if self.takes_input(target) {
            self.send(kind, target, log);
        }
    }
}
