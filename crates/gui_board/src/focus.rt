//! How the focus moves within a group, and how objects join and leave it.
ghost use Rattle.std.specs.Prelude.{◌≡◌, ◌<◌, true, false, if◌then◌else◌, length, None};
ghost use Rattle.gui_base.specs.declared.events.EventKind.TheVariants as Event;
ghost use Rattle.gui_edge.specs.Sink.{SinkState};
ghost use Rattle.play_defs.specs.Focus.{group_at, group_of, has_group, focused_in};
ghost use Rattle.run_defs.specs.Events.{send_there};
ghost use Rattle.run_defs.specs.Focusing.{first_focus, focus, focus_taken, has_focus, join, leave, move_focus};
ghost use Rattle.run_defs.specs.Focusing.{next_to_focus, refocus, step_focus, unfocus};
ghost use Rattle.run_defs.specs.Making.{with_groups};
ghost use Rattle.run_defs.specs.Play.{aimed, nothing};

use crate::board::Board;
use gui_base::{EventKind, Handle, State};
use gui_edge::Sink;

impl Board {
    ghost use Rattle.gui_board.specs.Boards.{machine_of, Plays, Quiet};

    /// Takes the states away that say that an object has the focus.
    fn unfocus(&mut self, h: Handle)
        ensures { Quiet self.old self.new (unfocus h) }
    {
        self.put_state(State::Focused, false, h);
        self.put_state(State::FocusKey, false, h);
        self.put_state(State::Edited, false, h);
    }

    /// Gives them to it, FOCUS_KEY too if a device moved the focus.
    fn refocus(&mut self, by_key: bool, h: Handle)
        ensures { Quiet self.old self.new (refocus by_key h) }
    {
        self.put_state(State::Focused, true, h);
        if by_key {
            self.put_state(State::FocusKey, true, h);
        }
    }

    /// Takes them from who had the focus, if there is one.
    fn unfocus_old(&mut self, old: Option<Handle>)
        ensures { Quiet self.old self.new (aimed old unfocus) }
    {
        if let Some(h) = old {
            self.unfocus(h);
        }
    }

    /// Tells who had the focus that it lost it, if there is one.
    fn tell_old<S: Sink>(&mut self, old: Option<Handle>, log: &mut S)
        ensures { Plays self.old self.new (S.state log.old) (S.state log.new)
            (aimed old (send_there Event.Defocused)) }
    {
        if let Some(h) = old {
            self.send_there(EventKind::Defocused, h, log);
        }
    }

    /// Gives the focus of a group to an object, and ends editing in it.
    fn take_focus(&mut self, id: u8, h: Handle)
        ensures { Quiet self.old self.new (with_groups (focus_taken id h)) }
    {
        self.groups.set_focused(id, Some(h));
        self.groups.set_editing(id, false);
    }

    /// The focus of a group moves to an object. `by_key` tells that a device moves it. The events come after
    /// the states.
    pub(crate) fn move_focus<S: Sink>(&mut self, id: u8, by_key: bool, h: Handle, log: &mut S)
        ensures { Plays self.old self.new (S.state log.old) (S.state log.new) (move_focus id by_key h) }
    {
        let old = self.groups.focused(id);
        self.take_focus(id, h);
        self.unfocus_old(old);
        self.refocus(by_key, h);
        self.tell_old(old, log);
        self.send_there(EventKind::Focused, h, log);
    }

    /// Who gets the focus of a group if a device moves it on, forwards or backwards.
    pub(crate) fn next_to_focus(&self, forwards: bool, id: u8) -> Option<Handle>
        ensures { result ≡ next_to_focus forwards id (machine_of self.now) }
    {
        let usable = |k: Handle| self.is_usable(k);
        if forwards {
            self.groups.focus_next(id, usable)
        } else {
            self.groups.focus_prev(id, usable)
        }
    }

    /// A device moves the focus of a group on, if there is a member that may get it.
    pub fn step_focus<S: Sink>(&mut self, forwards: bool, id: u8, log: &mut S)
        ensures { Plays self.old self.new (S.state log.old) (S.state log.new) (step_focus forwards id) }
    {
        if let Some(h) = self.next_to_focus(forwards, id) {
            self.move_focus(id, true, h, log);
        }
    }

    /// Whether an object has the focus of the group that it is in.
    fn has_focus(&self, h: Handle) -> bool
        ensures { result ≡ has_focus (machine_of self.now).groups h }
    {
        match self.groups.group_of(h) {
            None => false,
            Some(id) => self.groups.focused(id) == Some(h),
        }
    }

    /// Gives an object the focus of the group that it is in; nothing if it has it.
    pub fn focus<S: Sink>(&mut self, h: Handle, log: &mut S)
        ensures { Plays self.old self.new (S.state log.old) (S.state log.new) (focus h) }
    {
        if self.has_focus(h) {
            return;
        }
        if let Some(id) = self.groups.group_of(h) {
            self.move_focus(id, false, h, log);
        }
    }

    /// Makes an object the last member of a group that is there, if it is in none and there is room. It gets
    /// the focus if no other has it.
    pub(crate) fn join<S: Sink>(&mut self, id: u8, h: Handle, log: &mut S)
        requires there { has_group (machine_of self.old).groups id ≡ true }
        requires free { group_of (machine_of self.old).groups h ≡ None }
        requires room { length (machine_of self.old).groups.members
            < (machine_of self.old).scene.limits.objects }
        ensures { Plays self.old self.new (S.state log.old) (S.state log.new) (join id h) }
    {
        let _ = self.groups.join(id, h);
        let focused = self.groups.focused(id);
        self.first_focus(focused, id, h, log);
    }

    /// Gives a new member the focus of its group, if no other has it.
    fn first_focus<S: Sink>(&mut self, other: Option<Handle>, id: u8, h: Handle, log: &mut S)
        ensures { Plays self.old self.new (S.state log.old) (S.state log.new) (first_focus other id h) }
    {
        if other.is_none() {
            self.move_focus(id, false, h, log);
        }
    }

    /// Takes the states away that say that an object has the focus, if it has it.
    fn unfocus_focused(&mut self, h: Handle)
        ensures { Quiet self.old self.new
            (if has_focus (machine_of self.old).groups h then unfocus h else nothing) }
    {
        if self.has_focus(h) {
            self.unfocus(h);
        }
    }

    /// Takes an object out of its group. If it has the focus, it first loses the states that say so.
    pub fn leave(&mut self, h: Handle)
        ensures { Quiet self.old self.new (leave h) }
    {
        self.unfocus_focused(h);
        self.leave_group(h);
    }
}
