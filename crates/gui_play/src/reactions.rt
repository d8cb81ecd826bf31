//! What objects do at input, before and beside their handlers.
ghost use Rattle.std.specs.Prelude.{◌≡◌, true};
ghost use Rattle.gui_base.specs.declared.events.EventKind.TheVariants as Event;
ghost use Rattle.gui_base.specs.declared.words.State.TheVariants.{Pressed as PressedState};
ghost use Rattle.gui_edge.specs.Sink.{SinkState};
ghost use Rattle.run_defs.specs.Making.{put_state};
ghost use Rattle.run_defs.specs.Play.{◌▷◌};
ghost use Rattle.run_defs.specs.Reactions.{arrow, check_by, click, differs, goes_up, hold, let_up, nudge};
ghost use Rattle.run_defs.specs.Reactions.{press, put_value, react, release, control_value_of, short_click, slide};
ghost use Rattle.run_defs.specs.Reactions.{slide_to, step_of, tell_after, tell_change, toggle};
ghost use Rattle.gui_board.specs.Boards.{machine_of, Plays, Quiet};

use crate::pointing::{brought_in, slid_value};
use gui_base::{Bits, EventKind, Flag, Handle, Key, State};
use gui_board::{Board, is_slider};
use gui_edge::Sink;
use play_defs::PointerReading;
use run_defs::ControlValue;
use scene_defs::Change;

/// Whether a reaction set something.
fn differs(before: ControlValue, after: ControlValue) -> bool
    ensures { result ≡ differs before after }
{
    !(before.value == after.value && before.checked == after.checked)
}

/// Whether an arrow adds one and checks.
fn goes_up(key: Key) -> bool
    ensures { result ≡ goes_up key }
{
    match key {
        Key::Up | Key::Right => true,
        _ => false,
    }
}

/// What an arrow adds to a value.
fn step_of(key: Key) -> i32
    ensures { result ≡ step_of key }
{
    if goes_up(key) { 1 } else { -1 }
}

/// Gives an object a value, brought into its range; no change if it is so already.
fn put_value(board: &mut Board, n: i32, h: Handle)
    ensures { Quiet board.old board.new (put_value n h) }
{
    let Some(row) = board.store().row(h) else {
        return;
    };
    let value = brought_in(row.min, row.max, n);
    if value != row.value {
        let _ = board.change(&Change::Value(h, value));
    }
}

/// A slider takes its value from the column that is pointed at.
fn slide(board: &mut Board, x: i32, h: Handle)
    ensures { Quiet board.old board.new (slide x h) }
{
    if let Some(n) = slid_value(board, x, h) {
        put_value(board, n, h);
    }
}

/// A slider takes its value from the column of the pointer, if a pointer points.
fn slide_to(board: &mut Board, at: Option<PointerReading>, h: Handle)
    ensures { Quiet board.old board.new (slide_to at h) }
{
    if let Some(reading) = at {
        slide(board, reading.x, h);
    }
}

/// What of an object a reaction may set, of which value_changed tells.
fn control_value(board: &Board, h: Handle) -> ControlValue
    ensures { result ≡ control_value_of (machine_of board.now).scene h }
{
    match board.store().row(h) {
        None => ControlValue {
            value: 0,
            checked: false,
        },
        Some(row) => ControlValue {
            value: row.value,
            checked: Bits(row.states).has(State::Checked.bit()),
        },
    }
}

/// Tells of another value, if there is one.
#[tactic(auto, unfolding(run_defs::specs::Reactions::tell_change), using(gui_board::proofs::Plays::idle))]
fn tell_change<S: Sink>(board: &mut Board, changed: bool, h: Handle, log: &mut S)
    ensures { Plays board.old board.new (S.state log.old) (S.state log.new) (tell_change changed h) }
{
    if changed {
        board.send_there(EventKind::ValueChanged, h, log);
    }
}

/// An event, and then value_changed if that value was another before.
fn tell_after<S: Sink>(
    board: &mut Board,
    before: ControlValue,
    kind: EventKind,
    h: Handle,
    log: &mut S,
)
    ensures { Plays board.old board.new (S.state log.old) (S.state log.new) (tell_after before kind h) }
{
    let changed = differs(before, control_value(board, h));
    board.send(kind, h, log);
    tell_change(board, changed, h, log);
}

/// PRESSED is set, a slider takes its value, and the event goes its way.
fn react_pressed<S: Sink>(board: &mut Board, at: Option<PointerReading>, h: Handle, log: &mut S)
    ensures { Plays board.old board.new (S.state log.old) (S.state log.new)
        (react (put_state PressedState true h ▷ slide_to at h) Event.Pressed h) }
{
    let before = control_value(board, h);
    board.put_state(State::Pressed, true, h);
    slide_to(board, at, h);
    tell_after(board, before, EventKind::Pressed, h, log);
}

/// Presses an object that takes input. A pointer does so at a point; Enter and the encoder's button at
/// none.
pub(crate) fn press<S: Sink>(board: &mut Board, at: Option<PointerReading>, h: Handle, log: &mut S)
    ensures { Plays board.old board.new (S.state log.old) (S.state log.new) (press at h) }
{
    if board.takes_input(h) {
        react_pressed(board, at, h, log);
    }
}

/// A slider takes its value, and the event goes its way.
fn react_held<S: Sink>(board: &mut Board, at: Option<PointerReading>, h: Handle, log: &mut S)
    ensures { Plays board.old board.new (S.state log.old) (S.state log.new)
        (react (slide_to at h) Event.Pressing h) }
{
    let before = control_value(board, h);
    slide_to(board, at, h);
    tell_after(board, before, EventKind::Pressing, h, log);
}

/// A press by a pointer that is read again.
pub(crate) fn hold<S: Sink>(board: &mut Board, at: Option<PointerReading>, h: Handle, log: &mut S)
    ensures { Plays board.old board.new (S.state log.old) (S.state log.new) (hold at h) }
{
    if board.takes_input(h) {
        react_held(board, at, h, log);
    }
}

/// A checkable object turns CHECKED over.
fn toggle(board: &mut Board, h: Handle)
    ensures { Quiet board.old board.new (toggle h) }
{
    if board.is_flagged(Flag::Checkable, h) {
        let on = !board.is_in_state(State::Checked, h);
        board.put_state(State::Checked, on, h);
    }
}

/// CHECKED is turned over, and the event goes its way.
fn react_clicked<S: Sink>(board: &mut Board, h: Handle, log: &mut S)
    ensures { Plays board.old board.new (S.state log.old) (S.state log.new)
        (react (toggle h) Event.Clicked h) }
{
    let before = control_value(board, h);
    toggle(board, h);
    tell_after(board, before, EventKind::Clicked, h, log);
}

/// Clicks an object that takes input.
fn click<S: Sink>(board: &mut Board, h: Handle, log: &mut S)
    ensures { Plays board.old board.new (S.state log.old) (S.state log.new) (click h) }
{
    if board.takes_input(h) {
        react_clicked(board, h, log);
    }
}

/// PRESSED is cleared, a disabled object's too, and the event tells of it.
pub(crate) fn let_up<S: Sink>(board: &mut Board, h: Handle, log: &mut S)
    ensures { Plays board.old board.new (S.state log.old) (S.state log.new) (let_up h) }
{
    board.put_state(State::Pressed, false, h);
    board.send_input(EventKind::Released, h, log);
}

/// Tells of a press that was not a long one.
#[tactic(auto, unfolding(run_defs::specs::Reactions::short_click), using(gui_board::proofs::Plays::idle))]
fn short_click<S: Sink>(board: &mut Board, long: bool, h: Handle, log: &mut S)
    ensures { Plays board.old board.new (S.state log.old) (S.state log.new) (short_click long h) }
{
    if !long {
        board.send_input(EventKind::ShortClicked, h, log);
    }
}

/// The end of a press, which was a long one or not.
pub(crate) fn release<S: Sink>(board: &mut Board, long: bool, h: Handle, log: &mut S)
    ensures { Plays board.old board.new (S.state log.old) (S.state log.new) (release long h) }
{
    let_up(board, h, log);
    short_click(board, long, h, log);
    click(board, h, log);
}

/// A slider goes one up or down.
fn nudge(board: &mut Board, key: Key, h: Handle)
    ensures { Quiet board.old board.new (nudge key h) }
{
    let Some(row) = board.store().row(h) else {
        return;
    };
    if is_slider(row.kind) {
        let n = row.value + step_of(key);
        put_value(board, n, h);
    }
}

/// A checkable object is checked or unchecked.
fn check_by(board: &mut Board, key: Key, h: Handle)
    ensures { Quiet board.old board.new (check_by key h) }
{
    if board.is_flagged(Flag::Checkable, h) {
        board.put_state(State::Checked, goes_up(key), h);
    }
}

/// A slider and a checkable object follow an arrow, and the event goes its way.
fn react_arrow<S: Sink>(board: &mut Board, key: Key, h: Handle, log: &mut S)
    ensures { Plays board.old board.new (S.state log.old) (S.state log.new)
        (react (nudge key h ▷ check_by key h) Event.Key h) }
{
    let before = control_value(board, h);
    nudge(board, key, h);
    check_by(board, key, h);
    tell_after(board, before, EventKind::Key, h, log);
}

/// An arrow for an object that takes input.
pub(crate) fn arrow<S: Sink>(board: &mut Board, key: Key, h: Handle, log: &mut S)
    ensures { Plays board.old board.new (S.state log.old) (S.state log.new) (arrow key h) }
{
    if board.takes_input(h) {
        react_arrow(board, key, h, log);
    }
}
