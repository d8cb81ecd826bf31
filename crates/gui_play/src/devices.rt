//! The input devices: what the machine does at what they tell.
ghost use Rattle.std.specs.Prelude.{◌≡◌, IfSome};
ghost use Rattle.gui_edge.specs.Sink.{SinkState};
ghost use Rattle.gui_input.specs.Points.{IsPoint};
ghost use Rattle.run_defs.specs.Devices.{arrow_in, arrow_to, change_editing, edit, edit_by, encoder_tells};
ghost use Rattle.run_defs.specs.Devices.{feed_encoder, feed_keypad, feed_pointer, hit_by, hold_pointer};
ghost use Rattle.run_defs.specs.Devices.{keypad_tells, long_push, pointer_tells, press_encoder, press_keypad};
ghost use Rattle.run_defs.specs.Devices.{press_pointer, release_push, times, turn, turn_once};
ghost use Rattle.run_defs.specs.Dragging.{serve_drag, end_press, tell_press};
ghost use Rattle.run_defs.specs.Play.{◌▷◌, aimed, each};
ghost use Rattle.run_defs.specs.Reactions.{arrow, hold, press, release};
ghost use Rattle.gui_board.specs.Boards.{machine_of, Plays, Quiet};

use crate::reactions::{arrow, hold, let_up, press, release};
use gui_base::{EventKind, Handle, Key, State};
use gui_board::Board;
use gui_drag::{end_scrolling, serve_drag};
use gui_edge::Sink;
use play_defs::{Drag, EncoderReading, InputEvent, KeyReading, PointerReading, Scrolling};

/// The arrow of a step of a turn.
fn arrow_to(forwards: bool) -> Key
    ensures { result ≡ arrow_to forwards }
{
    if forwards { Key::Right } else { Key::Left }
}

/// Presses an object, if there is one.
#[tactic(auto, unfolding(run_defs::specs::Play::aimed), using(gui_board::proofs::Plays::idle))]
fn press_aimed<S: Sink>(
    board: &mut Board,
    target: Option<Handle>,
    at: Option<PointerReading>,
    log: &mut S,
)
    ensures { Plays board.old board.new (S.state log.old) (S.state log.new) (aimed target (press at)) }
{
    if let Some(h) = target {
        press(board, at, h, log);
    }
}

/// Holds an object, if there is one.
#[tactic(auto, unfolding(run_defs::specs::Play::aimed), using(gui_board::proofs::Plays::idle))]
fn hold_aimed<S: Sink>(
    board: &mut Board,
    target: Option<Handle>,
    at: Option<PointerReading>,
    log: &mut S,
)
    ensures { Plays board.old board.new (S.state log.old) (S.state log.new) (aimed target (hold at)) }
{
    if let Some(h) = target {
        hold(board, at, h, log);
    }
}

/// Releases an object, if there is one.
#[tactic(auto, unfolding(run_defs::specs::Play::aimed), using(gui_board::proofs::Plays::idle))]
fn release_aimed<S: Sink>(board: &mut Board, target: Option<Handle>, long: bool, log: &mut S)
    ensures { Plays board.old board.new (S.state log.old) (S.state log.new) (aimed target (release long)) }
{
    if let Some(h) = target {
        release(board, long, h, log);
    }
}

/// An arrow for an object, if there is one.
#[tactic(auto, unfolding(run_defs::specs::Play::aimed), using(gui_board::proofs::Plays::idle))]
fn arrow_aimed<S: Sink>(board: &mut Board, target: Option<Handle>, key: Key, log: &mut S)
    ensures { Plays board.old board.new (S.state log.old) (S.state log.new) (aimed target (arrow key)) }
{
    if let Some(h) = target {
        arrow(board, key, h, log);
    }
}

/// The object that a reading points at.
fn hit_by(board: &Board, at: Option<PointerReading>) -> Option<Handle>
    ensures { result ≡ hit_by at (machine_of board.now).scene }
{
    let reading = at?;
    board.hit(reading.x, reading.y)
}

/// What is hit becomes the target, nothing is scrolled yet, and the target is pressed.
fn press_pointer<S: Sink>(
    board: &mut Board,
    at: Option<PointerReading>,
    target: Option<Handle>,
    log: &mut S,
)
    ensures { Plays board.old board.new (S.state log.old) (S.state log.new) (press_pointer at target) }
{
    board.aim_pointer(target);
    board.set_scrolling(None);
    press_aimed(board, target, at, log);
}

/// The target of the pointer is held.
fn hold_pointer<S: Sink>(board: &mut Board, at: Option<PointerReading>, log: &mut S)
    ensures { Plays board.old board.new (S.state log.old) (S.state log.new) (hold_pointer at) }
{
    let target = board.pointer_target();
    hold_aimed(board, target, at, log);
}

/// A pointer that is down has gone on: what it drags is scrolled first, then its target is held.
fn drag_pointer<S: Sink>(board: &mut Board, drag: Drag, at: Option<PointerReading>, log: &mut S)
    ensures { Plays board.old board.new (S.state log.old) (S.state log.new)
        (serve_drag drag ▷ hold_pointer at) }
{
    serve_drag(board, drag);
    hold_pointer(board, at, log);
}

/// The end of a press: if it scrolled, the target is not clicked.
fn end_press<S: Sink>(
    board: &mut Board,
    scrolling: Option<Scrolling>,
    long: bool,
    target: Option<Handle>,
    log: &mut S,
)
    ensures { Plays board.old board.new (S.state log.old) (S.state log.new)
        (end_press scrolling long target) }
{
    match scrolling {
        None => release_aimed(board, target, long, log),
        Some(now) => end_scrolling(board, now.object, target, log),
    }
}

/// Tells of what time makes of a press, which comes to nothing if it scrolls.
fn tell_press<S: Sink>(
    board: &mut Board,
    scrolling: Option<Scrolling>,
    kind: EventKind,
    target: Option<Handle>,
    log: &mut S,
)
    ensures { Plays board.old board.new (S.state log.old) (S.state log.new)
        (tell_press scrolling kind target) }
{
    match scrolling {
        None => board.send_aimed(target, kind, log),
        Some(_) => {}
    }
}

/// What the machine does at one thing that the pointer tells.
#[tactic(auto, unfolding(run_defs::specs::Devices::pointer_tells), using(gui_board::proofs::Plays::idle))]
fn pointer_tells<S: Sink>(
    board: &mut Board,
    at: Option<PointerReading>,
    tell: InputEvent,
    log: &mut S,
)
    ensures { Plays board.old board.new (S.state log.old) (S.state log.new) (pointer_tells at tell) }
{
    let target = board.pointer_target();
    let scrolling = board.scrolling();
    match tell {
        InputEvent::Press => {
            let hit = hit_by(board, at);
            press_pointer(board, at, hit, log);
        }
        InputEvent::Hold {
            from_x,
            from_y,
            step_x,
            step_y,
        } => {
            let drag = Drag {
                from_x,
                from_y,
                step_x,
                step_y,
            };
            drag_pointer(board, drag, at, log);
        }
        InputEvent::Release { long } => end_press(board, scrolling, long, target, log),
        InputEvent::Long => tell_press(board, scrolling, EventKind::LongPressed, target, log),
        InputEvent::Repeat => {
            tell_press(board, scrolling, EventKind::LongPressedRepeat, target, log)
        }
        InputEvent::Key(_) | InputEvent::Turn(_) | InputEvent::Next | InputEvent::Prev => {}
    }
}

/// What the machine does at all that the pointer tells, in order.
fn pointer_tells_all<S: Sink>(
    board: &mut Board,
    at: Option<PointerReading>,
    tells: &[InputEvent],
    log: &mut S,
)
    ensures { Plays board.old board.new (S.state log.old) (S.state log.new)
        (each (pointer_tells at) tells.now) }
{
    'tells: for tell in tells {
        pointer_tells(board, at, *tell, log);
    }
}

/// A reading of the pointer, or none if only time passed.
pub(crate) fn feed_pointer<S: Sink>(board: &mut Board, reading: Option<PointerReading>, log: &mut S)
    requires { IfSome reading IsPoint }
    ensures { Plays board.old board.new (S.state log.old) (S.state log.new) (feed_pointer reading) }
{
    let tells = board.read_pointer(reading);
    pointer_tells_all(board, reading, tells.as_slice(), log);
}

/// Enter presses its target.
fn press_keypad<S: Sink>(board: &mut Board, target: Option<Handle>, log: &mut S)
    ensures { Plays board.old board.new (S.state log.old) (S.state log.new) (press_keypad target) }
{
    board.aim_keypad(target);
    press_aimed(board, target, None, log);
}

/// What the machine does at one thing that the keypad tells.
#[tactic(auto, unfolding(run_defs::specs::Devices::keypad_tells), using(gui_board::proofs::Plays::idle))]
fn keypad_tells<S: Sink>(board: &mut Board, tell: InputEvent, log: &mut S)
    ensures { Plays board.old board.new (S.state log.old) (S.state log.new) (keypad_tells tell) }
{
    let id = board.keypad_group();
    let target = board.keypad_target();
    match tell {
        InputEvent::Press => {
            let focused = board.focused(id);
            press_keypad(board, focused, log);
        }
        InputEvent::Release { long } => release_aimed(board, target, long, log),
        InputEvent::Long => board.send_aimed(target, EventKind::LongPressed, log),
        InputEvent::Repeat => board.send_aimed(target, EventKind::LongPressedRepeat, log),
        InputEvent::Key(key) => {
            let focused = board.focused(id);
            arrow_aimed(board, focused, key, log);
        }
        InputEvent::Next => board.step_focus(true, id, log),
        InputEvent::Prev => board.step_focus(false, id, log),
        InputEvent::Hold { .. } | InputEvent::Turn(_) => {}
    }
}

/// What the machine does at all that the keypad tells, in order.
fn keypad_tells_all<S: Sink>(board: &mut Board, tells: &[InputEvent], log: &mut S)
    ensures { Plays board.old board.new (S.state log.old) (S.state log.new) (each keypad_tells tells.now) }
{
    'tells: for tell in tells {
        keypad_tells(board, *tell, log);
    }
}

/// A reading of the keypad, or none if only time passed.
pub(crate) fn feed_keypad<S: Sink>(board: &mut Board, reading: Option<KeyReading>, log: &mut S)
    ensures { Plays board.old board.new (S.state log.old) (S.state log.new) (feed_keypad reading) }
{
    let tells = board.read_keypad(reading);
    keypad_tells_all(board, tells.as_slice(), log);
}

/// The encoder's button presses its target.
fn press_encoder<S: Sink>(board: &mut Board, target: Option<Handle>, log: &mut S)
    ensures { Plays board.old board.new (S.state log.old) (S.state log.new) (press_encoder target) }
{
    board.aim_encoder(target);
    press_aimed(board, target, None, log);
}

/// An arrow for the object that has the focus then.
#[tactic(auto, unfolding(run_defs::specs::Devices::arrow_in))]
fn arrow_in<S: Sink>(board: &mut Board, key: Key, id: u8, log: &mut S)
    ensures { Plays board.old board.new (S.state log.old) (S.state log.new) (arrow_in key id) }
{
    let focused = board.focused(id);
    arrow_aimed(board, focused, key, log);
}

/// One step of a turn: an arrow if the group is editing, else a move of the focus.
#[tactic(auto, unfolding(run_defs::specs::Devices::turn_once))]
fn turn_once<S: Sink>(board: &mut Board, editing: bool, forwards: bool, id: u8, log: &mut S)
    ensures { Plays board.old board.new (S.state log.old) (S.state log.new)
        (turn_once editing forwards id) }
{
    if editing {
        arrow_in(board, arrow_to(forwards), id, log);
    } else {
        board.step_focus(forwards, id, log);
    }
}

/// So many steps of a turn.
fn turn_times<S: Sink>(
    board: &mut Board,
    steps: u8,
    editing: bool,
    forwards: bool,
    id: u8,
    log: &mut S,
)
    ensures { Plays board.old board.new (S.state log.old) (S.state log.new)
        (times steps (turn_once editing forwards id)) }
{
    'steps: for step in 0..steps {
        turn_once(board, editing, forwards, id, log);
    }
}

/// A turn in a group. Whether the group is editing is asked as the turn begins.
#[tactic(auto, unfolding(run_defs::specs::Devices::turn))]
fn turn<S: Sink>(board: &mut Board, n: i8, id: u8, log: &mut S)
    ensures { Plays board.old board.new (S.state log.old) (S.state log.new) (turn n id) }
{
    let editing = board.editing(id);
    turn_times(board, n.unsigned_abs(), editing, n > 0, id, log);
}

/// Editing begins in a group, or ends, on this object.
fn edit(board: &mut Board, on: bool, id: u8, h: Handle)
    ensures { Quiet board.old board.new (edit on id h) }
{
    board.set_editing(on, id);
    board.put_state(State::Edited, on, h);
}

/// Editing ends on any object, and begins on one that takes input.
fn edit_by(board: &mut Board, editing: bool, id: u8, h: Handle)
    ensures { Quiet board.old board.new (edit_by editing id h) }
{
    if editing {
        edit(board, false, id, h);
    } else if board.takes_input(h) {
        edit(board, true, id, h);
    }
}

/// Editing ends on an object, or begins if it takes input. Nothing happens without an object.
fn edit_aimed(board: &mut Board, target: Option<Handle>, editing: bool, id: u8)
    ensures { Quiet board.old board.new (aimed target (edit_by editing id)) }
{
    if let Some(h) = target {
        edit_by(board, editing, id, h);
    }
}

/// Editing changes on the object that has the focus.
fn change_editing(board: &mut Board, id: u8)
    ensures { Quiet board.old board.new (change_editing id) }
{
    let focused = board.focused(id);
    let editing = board.editing(id);
    edit_aimed(board, focused, editing, id);
}

/// A push becomes a long one: nothing comes of it if its target is gone.
fn long_push(board: &mut Board, target: Option<Handle>, id: u8)
    ensures { Quiet board.old board.new (long_push target id) }
{
    match target {
        None => {}
        Some(_) => change_editing(board, id),
    }
}

/// The end of a push: a long one tells of nothing but itself.
#[tactic(auto, unfolding(run_defs::specs::Devices::release_push))]
fn release_push<S: Sink>(board: &mut Board, long: bool, h: Handle, log: &mut S)
    ensures { Plays board.old board.new (S.state log.old) (S.state log.new) (release_push long h) }
{
    if long {
        let_up(board, h, log);
    } else {
        release(board, false, h, log);
    }
}

/// The end of a push of an object, if there is one.
#[tactic(auto, unfolding(run_defs::specs::Play::aimed), using(gui_board::proofs::Plays::idle))]
fn release_push_aimed<S: Sink>(board: &mut Board, target: Option<Handle>, long: bool, log: &mut S)
    ensures { Plays board.old board.new (S.state log.old) (S.state log.new)
        (aimed target (release_push long)) }
{
    if let Some(h) = target {
        release_push(board, long, h, log);
    }
}

/// What the machine does at one thing that the encoder tells.
#[tactic(auto, unfolding(run_defs::specs::Devices::encoder_tells), using(gui_board::proofs::Plays::idle))]
fn encoder_tells<S: Sink>(board: &mut Board, tell: InputEvent, log: &mut S)
    ensures { Plays board.old board.new (S.state log.old) (S.state log.new) (encoder_tells tell) }
{
    let id = board.encoder_group();
    let target = board.encoder_target();
    match tell {
        InputEvent::Press => {
            let focused = board.focused(id);
            press_encoder(board, focused, log);
        }
        InputEvent::Release { long } => release_push_aimed(board, target, long, log),
        InputEvent::Long => long_push(board, target, id),
        InputEvent::Turn(n) => turn(board, n, id, log),
        InputEvent::Hold { .. }
        | InputEvent::Repeat
        | InputEvent::Key(_)
        | InputEvent::Next
        | InputEvent::Prev => {}
    }
}

/// What the machine does at all that the encoder tells, in order.
fn encoder_tells_all<S: Sink>(board: &mut Board, tells: &[InputEvent], log: &mut S)
    ensures { Plays board.old board.new (S.state log.old) (S.state log.new) (each encoder_tells tells.now) }
{
    'tells: for tell in tells {
        encoder_tells(board, *tell, log);
    }
}

/// A reading of the encoder, or none if only time passed.
pub(crate) fn feed_encoder<S: Sink>(board: &mut Board, reading: Option<EncoderReading>, log: &mut S)
    ensures { Plays board.old board.new (S.state log.old) (S.state log.new) (feed_encoder reading) }
{
    let tells = board.read_encoder(reading);
    encoder_tells_all(board, tells.as_slice(), log);
}
