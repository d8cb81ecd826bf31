//! What the parts of a board hold: it is told, and set to what a rule makes of it.
ghost use Rattle.std.specs.Prelude.{◌≡◌, false, None, IfSome, length, option_map, slice_get};
ghost use Rattle.gui_edge.specs.Sink.{SinkState};
ghost use Rattle.run_defs.specs.Step.{answer, full_for, handler_added, handlers_dropped, encoder_in};
ghost use Rattle.run_defs.specs.Step.{keypad_in, anim_started, anim_stopped};
ghost use Rattle.run_defs.specs.Making.{with_groups};
ghost use Rattle.run_defs.specs.Play.{with, aimed};
ghost use Rattle.play_defs.specs.Focus.{has_group, with_group, with_editing, focused_in, group_at};
ghost use Rattle.play_defs.specs.Focus.{is_editing};
ghost use Rattle.gui_input.specs.Points.{IsPoint};
ghost use Rattle.play_defs.specs.Input.{encoder_fed, keypad_fed, pointer_fed};
ghost use Rattle.run_defs.specs.Devices.{encoder_at, encoder_holds, keypad_at, keypad_holds, pointer_at};
ghost use Rattle.run_defs.specs.Devices.{pointer_holds};
ghost use Rattle.run_defs.specs.Events.{send_input};
ghost use Rattle.run_defs.specs.Dragging.{scrolls};
ghost use Rattle.run_defs.specs.Reactions.{is_slider};
ghost use Rattle.play_defs.specs.Animation.{IsAnim};
ghost use Rattle.run_defs.specs.Animating.{without_ended};
ghost use Rattle.run_defs.specs.Pointing.{is_flagged};
ghost use Rattle.run_defs.specs.Ticks.{later};
ghost use Rattle.gui_anim.specs.Anims.{as_pair};

use crate::board::Board;
use gui_base::{Action, EventKind, Flag, Handle, Kind, Var};
use gui_edge::Sink;
use gui_input::Tells;
use play_defs::{AnimSpec, EncoderReading, KeyReading, PointerReading, Scrolling};
use run_defs::Command;

/// Whether it is a kind that points set.
pub fn is_slider(kind: Kind) -> bool
    ensures { result ≡ is_slider kind }
{
    gui_kinds::facts(kind).slides
}

impl Board {
    ghost use Rattle.gui_board.specs.Boards.{machine_of, Plays, Quiet};

    /// Who has the focus of a group.
    pub fn focused(&self, id: u8) -> Option<Handle>
        ensures { result ≡ focused_in (group_at (machine_of self.now).groups id) }
    {
        self.groups.focused(id)
    }

    /// Whether a group is editing.
    pub fn editing(&self, id: u8) -> bool
        ensures { result ≡ is_editing (group_at (machine_of self.now).groups id) }
    {
        self.groups.editing(id)
    }

    /// The object that the pointer is held on.
    pub fn pointer_target(&self) -> Option<Handle>
        ensures { result ≡ (machine_of self.now).pointer.target }
    {
        self.inputs.pointer_target
    }

    /// What a press of the pointer scrolls.
    pub fn scrolling(&self) -> Option<Scrolling>
        ensures { result ≡ (machine_of self.now).scrolling }
    {
        self.inputs.scrolling
    }

    /// The object that the keypad is held on.
    pub fn keypad_target(&self) -> Option<Handle>
        ensures { result ≡ (machine_of self.now).keypad.target }
    {
        self.inputs.keypad_target
    }

    /// The object that the encoder is held on.
    pub fn encoder_target(&self) -> Option<Handle>
        ensures { result ≡ (machine_of self.now).encoder.target }
    {
        self.inputs.encoder_target
    }

    /// The group in which the keypad moves the focus, 0 for none.
    pub fn keypad_group(&self) -> u8
        ensures { result ≡ (machine_of self.now).keypad_group }
    {
        self.inputs.keypad_group
    }

    /// The group in which the encoder moves the focus, 0 for none.
    pub fn encoder_group(&self) -> u8
        ensures { result ≡ (machine_of self.now).encoder_group }
    {
        self.inputs.encoder_group
    }

    /// The time in milliseconds.
    pub fn time(&self) -> u64
        ensures { result ≡ (machine_of self.now).time }
    {
        self.inputs.time
    }

    /// The nth animation in the order of starting, counted from 0, and the time of its start: `None` exactly past
    /// the last.
    pub fn anim(&self, n: u32) -> Option<(AnimSpec, u64)>
        ensures value { result ≡ option_map as_pair (slice_get (machine_of self.now).anims n) }
        ensures in_range { IfSome result (λ anim. IsAnim anim.0) }
    {
        self.anims.at(n)
    }

    /// What is held on the pointer is held on this object.
    pub fn aim_pointer(&mut self, target: Option<Handle>)
        ensures { Quiet self.old self.new (with (pointer_at target)) }
    {
        self.inputs.pointer_target = target;
    }

    /// The pointer takes a reading, or time passes for it; what it tells of that.
    pub fn read_pointer(&mut self, reading: Option<PointerReading>) -> Tells
        requires { IfSome reading IsPoint }
        ensures device { Quiet self.old self.new (with (pointer_holds
            (pointer_fed (machine_of self.old).pointer.held reading (machine_of self.old).time).device)) }
        ensures tells { result.items
            ≡ (pointer_fed (machine_of self.old).pointer.held reading (machine_of self.old).time).tells }
    {
        self.inputs.pointer.feed(reading, self.inputs.time)
    }

    /// What is held on the keypad is held on this object.
    pub fn aim_keypad(&mut self, target: Option<Handle>)
        ensures { Quiet self.old self.new (with (keypad_at target)) }
    {
        self.inputs.keypad_target = target;
    }

    /// The keypad takes a reading, or time passes for it; what it tells of that.
    pub fn read_keypad(&mut self, reading: Option<KeyReading>) -> Tells
        ensures device { Quiet self.old self.new (with (keypad_holds
            (keypad_fed (machine_of self.old).keypad.held reading (machine_of self.old).time).device)) }
        ensures tells { result.items
            ≡ (keypad_fed (machine_of self.old).keypad.held reading (machine_of self.old).time).tells }
    {
        self.inputs.keypad.feed(reading, self.inputs.time)
    }

    /// What is held on the encoder is held on this object.
    pub fn aim_encoder(&mut self, target: Option<Handle>)
        ensures { Quiet self.old self.new (with (encoder_at target)) }
    {
        self.inputs.encoder_target = target;
    }

    /// The encoder takes a reading, or time passes for it; what it tells of that.
    pub fn read_encoder(&mut self, reading: Option<EncoderReading>) -> Tells
        ensures device { Quiet self.old self.new (with (encoder_holds
            (encoder_fed (machine_of self.old).encoder.held reading (machine_of self.old).time).device)) }
        ensures tells { result.items
            ≡ (encoder_fed (machine_of self.old).encoder.held reading (machine_of self.old).time).tells }
    {
        self.inputs.encoder.feed(reading, self.inputs.time)
    }

    /// Editing begins in a group, or ends.
    pub fn set_editing(&mut self, on: bool, id: u8)
        ensures { Quiet self.old self.new (with_groups (λ groups. with_editing groups id on)) }
    {
        self.groups.set_editing(id, on);
    }

    /// Sends an event of input to an object, if there is one.
    pub fn send_aimed<S: Sink>(&mut self, target: Option<Handle>, kind: EventKind, log: &mut S)
        ensures { Plays self.old self.new (S.state log.old) (S.state log.new)
            (aimed target (send_input kind)) }
    {
        if let Some(h) = target {
            self.send_input(kind, h, log);
        }
    }

    /// From now on this is scrolled.
    pub fn set_scrolling(&mut self, scrolling: Option<Scrolling>)
        ensures { Quiet self.old self.new (with (scrolls scrolling)) }
    {
        self.inputs.scrolling = scrolling;
    }

    /// So many milliseconds pass. At the last moment the time stands still.
    pub fn pass(&mut self, ms: u16)
        ensures { Quiet self.old self.new (with (later ms)) }
    {
        self.inputs.time = self.inputs.time.saturating_add(u64::from(ms));
    }

    /// Gives the keypad a group, 0 for none.
    pub fn set_keypad_group(&mut self, id: u8)
        ensures { Quiet self.old self.new (with (keypad_in id)) }
    {
        self.inputs.keypad_group = id;
    }

    /// Gives the encoder a group, 0 for none.
    pub fn set_encoder_group(&mut self, id: u8)
        ensures { Quiet self.old self.new (with (encoder_in id)) }
    {
        self.inputs.encoder_group = id;
    }

    /// Adds a handler, the last of its object, if there is room.
    pub fn add_handler(&mut self, h: Handle, kind: EventKind, action: Action)
        requires { full_for (machine_of self.old) (Command.On h kind action) ≡ None }
        ensures { Quiet self.old self.new (with (handler_added h kind action)) }
    {
        let _ = self.handlers.add_handler(h, kind, action);
    }

    /// Drops the handlers of a kind of an object.
    pub fn drop_handlers(&mut self, h: Handle, kind: EventKind)
        ensures { Quiet self.old self.new (with (handlers_dropped h kind)) }
    {
        self.handlers.drop_kind(h, kind);
    }

    /// Makes a group that is not there, if there is room.
    pub fn add_group(&mut self, id: u8)
        requires new { has_group (machine_of self.old).groups id ≡ false }
        requires room { full_for (machine_of self.old) (Command.Group id) ≡ None }
        ensures { Quiet self.old self.new (with_groups (λ groups. with_group groups id)) }
    {
        let _ = self.groups.group(id);
    }

    /// Starts an animation against which nothing is.
    pub fn start_anim(&mut self, spec: AnimSpec)
        requires { answer (machine_of self.old) (Command.Anim spec) ≡ None }
        ensures { Quiet self.old self.new (with (anim_started spec)) }
    {
        let _ = self.anims.start(spec, self.inputs.time);
    }

    /// Stops an animation that runs.
    pub fn stop_anim(&mut self, h: Handle, var: Var)
        requires { answer (machine_of self.old) (Command.Stop h var) ≡ None }
        ensures { Quiet self.old self.new (with (anim_stopped h var)) }
    {
        let _ = self.anims.stop(h, var);
    }

    /// Those animations are over that have given their last value.
    pub fn drop_ended(&mut self)
        ensures { Quiet self.old self.new (with without_ended) }
    {
        self.anims.drop_ended(self.inputs.time);
    }

    /// How many animations run.
    pub fn anim_count(&self) -> u32
        ensures { result ≡ length (machine_of self.now).anims }
    {
        self.canvas.store().limits().anims - self.anims.spare()
    }

    /// Whether an object is there and has a flag.
    pub fn is_flagged(&self, flag: Flag, h: Handle) -> bool
        ensures { result ≡ is_flagged flag (machine_of self.now).scene h }
    {
        match self.canvas.store().row(h) {
            None => false,
            Some(row) => row.is_on(flag),
        }
    }
}
