//! Commands: the first refusal of each, or its rule.
ghost use Rattle.std.specs.Prelude.{◌≡◌, None};
ghost use Rattle.gui_edge.specs.Sink.{SinkState};
ghost use Rattle.run_defs.specs.Step.{answer, is_action_in_range, is_aim_in_range, is_command_in_range};
ghost use Rattle.run_defs.specs.Step.{rule_of, step, IsCommand, down_at, lifted};
ghost use Rattle.scene_defs.specs.Valid.{IsChange};
ghost use Rattle.run_laws.specs.Members.{AreJoined};
ghost use Rattle.gui_board.specs.Boards.{machine_of, stage, Plays, IsFresh};
ghost use Rattle.gui_play.specs.Commands.{IsPlay};
ghost use Rattle.gui_play.specs.Steps.{Steps};

use crate::animating::is_anim_in_range;
use crate::devices::{feed_encoder, feed_keypad, feed_pointer};
use crate::ticks::tick;
use gui_base::intervals::{COORDINATE, DEVICE_GROUP, GROUP, HANDLE, TICK, TURN, VALUE};
use gui_base::{Action, Aim, Refusal};
use gui_board::Board;
use gui_edge::{Failed, Sink};
use play_defs::{EncoderReading, KeyReading, PointerReading};
use run_defs::{Command, Reply};
use scene_defs::Change;

/// Whether the number of an aim lies in its interval.
fn is_aim_in_range(aim: Aim) -> bool
    ensures { result ≡ is_aim_in_range aim }
{
    match aim {
        Aim::Target => true,
        Aim::Object(h) => HANDLE.holds(h.0),
    }
}

/// Whether each number of an action lies in its interval.
fn is_action_in_range(action: Action) -> bool
    ensures { result ≡ is_action_in_range action }
{
    match action {
        Action::Say => true,
        Action::Delete(aim) | Action::Load(aim) | Action::Front(aim) => is_aim_in_range(aim),
        Action::Flag(aim, _, _) | Action::State(aim, _, _) => is_aim_in_range(aim),
        Action::Value(aim, n) => is_aim_in_range(aim) && VALUE.holds(n),
        Action::Local(aim, _, prop, value) => is_aim_in_range(aim) && prop.values().holds(value),
    }
}

/// Whether each number of a command on events, groups, devices and animations lies in its interval.
fn is_in_range(command: &Command) -> bool
    requires { IsPlay command.now }
    ensures { result ≡ is_command_in_range command.now }
{
    match *command {
        Command::Change(_) => unreachable!(),
        Command::On(h, _, action) => HANDLE.holds(h.0) && is_action_in_range(action),
        Command::Group(id) => GROUP.holds(u16::from(id)),
        Command::Join(id, h) => GROUP.holds(u16::from(id)) && HANDLE.holds(h.0),
        Command::Off(h, _) | Command::Send(h, _) | Command::Stop(h, _) => HANDLE.holds(h.0),
        Command::Leave(h) | Command::Focus(h) => HANDLE.holds(h.0),
        Command::Keypad(id) | Command::Encoder(id) => DEVICE_GROUP.holds(u16::from(id)),
        Command::Touch(x, y) => COORDINATE.holds(x) && COORDINATE.holds(y),
        Command::Turn(n) => TURN.holds(i32::from(n)),
        Command::Tick(ms) => TICK.holds(ms),
        Command::Anim(spec) => is_anim_in_range(&spec),
        Command::Release | Command::Key(_, _) | Command::Push(_) => true,
    }
}

/// What a pointer reads that is down at a point.
fn down_at(x: i32, y: i32) -> PointerReading
    ensures { result ≡ down_at x y }
{
    PointerReading { x, y, down: true }
}

/// What a pointer reads that is up.
fn lifted() -> PointerReading
    ensures { result ≡ lifted }
{
    PointerReading {
        x: 0,
        y: 0,
        down: false,
    }
}

/// The first refusal of a command on events, groups, devices and animations, or none if it is done.
fn refusal_of(board: &Board, command: &Command) -> Option<Refusal>
    requires { IsPlay command.now }
    ensures { result ≡ answer (machine_of board.now) command.now }
{
    if !is_in_range(command) {
        return Some(Refusal::Range);
    }
    match *command {
        Command::Change(_) => unreachable!(),
        Command::On(h, kind, action) => board.on_refusal(h, kind, action),
        Command::Group(id) => board.group_refusal(id),
        Command::Join(id, h) => board.join_refusal(id, h),
        Command::Off(h, _) | Command::Send(h, _) => board.unknown(h),
        Command::Leave(h) | Command::Focus(h) => board.member_refusal(h),
        Command::Keypad(id) | Command::Encoder(id) => board.device_refusal(id),
        Command::Touch(_, _) | Command::Release | Command::Key(_, _) => None,
        Command::Turn(_) | Command::Push(_) | Command::Tick(_) => None,
        Command::Anim(spec) => board.anim_refusal(spec),
        Command::Stop(h, var) => board.stop_refusal(h, var),
    }
}

/// Carries out a command on events, groups, devices and animations against which there is no refusal.
fn carry_out<S: Sink>(board: &mut Board, command: &Command, log: &mut S)
    requires play { IsPlay command.now }
    requires answer { answer (machine_of board.old) command.now ≡ None }
    requires members { AreJoined (machine_of board.old) }
    ensures { Plays board.old board.new (S.state log.old) (S.state log.new) (rule_of command.now) }
{
    match *command {
        Command::Change(_) => unreachable!(),
        Command::On(h, kind, action) => board.add_handler(h, kind, action),
        Command::Off(h, kind) => board.drop_handlers(h, kind),
        Command::Send(h, kind) => board.send(kind, h, log),
        Command::Group(id) => board.add_group(id),
        Command::Join(id, h) => board.join_new(id, h, log),
        Command::Leave(h) => board.leave(h),
        Command::Focus(h) => board.focus(h, log),
        Command::Keypad(id) => board.set_keypad_group(id),
        Command::Encoder(id) => board.set_encoder_group(id),
        Command::Touch(x, y) => feed_pointer(board, Some(down_at(x, y)), log),
        Command::Release => feed_pointer(board, Some(lifted()), log),
        Command::Key(key, down) => feed_keypad(board, Some(KeyReading { key, down }), log),
        Command::Turn(n) => feed_encoder(board, Some(EncoderReading::Turn(n)), log),
        Command::Push(down) => feed_encoder(board, Some(EncoderReading::Push(down)), log),
        Command::Tick(ms) => tick(board, ms, log),
        Command::Anim(spec) => board.start_anim(spec),
        Command::Stop(h, var) => board.stop_anim(h, var),
    }
}

/// Makes a change of the scene, and replies.
fn apply_change<S: Sink>(board: &mut Board, change: &Change, log: &mut S) -> Result<Reply, Failed>
    requires change { IsChange change.now }
    requires fresh { IsFresh board.old }
    ensures { Steps (stage board.old (S.state log.old)) (stage board.new (S.state log.new)) result
        (step (machine_of board.old) (Command.Change change.now)) }
{
    match board.make(change) {
        Ok(()) => board.finish(),
        Err(refusal) => Ok(Reply::Refused(refusal)),
    }
}

/// Carries out a command on events, groups, devices and animations, or answers its first refusal.
fn apply_play<S: Sink>(board: &mut Board, command: &Command, log: &mut S) -> Result<Reply, Failed>
    requires play { IsPlay command.now }
    requires members { AreJoined (machine_of board.old) }
    requires fresh { IsFresh board.old }
    ensures { Steps (stage board.old (S.state log.old)) (stage board.new (S.state log.new)) result
        (step (machine_of board.old) command.now) }
{
    match refusal_of(board, command) {
        Some(refusal) => Ok(Reply::Refused(refusal)),
        None => {
            carry_out(board, command, log);
            board.finish()
        }
    }
}

/// Carries out a command, or answers its first refusal, which leaves all as it was.
pub fn apply<S: Sink>(board: &mut Board, command: &Command, log: &mut S) -> Result<Reply, Failed>
    requires command { IsCommand command.now }
    requires members { AreJoined (machine_of board.old) }
    requires fresh { IsFresh board.old }
    ensures { Steps (stage board.old (S.state log.old)) (stage board.new (S.state log.new)) result
        (step (machine_of board.old) command.now) }
{
    match command {
        Command::Change(change) => apply_change(board, change, log),
        _ => apply_play(board, command, log),
    }
}
