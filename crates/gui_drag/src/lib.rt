//! Dragging: a pointer that is down scrolls what its target stands in.
#![tactic(auto)]

ghost use Rattle.std.specs.Prelude.{◌≡◌, ◌≤◌, false};
ghost use Rattle.gui_base.specs.declared.events.EventKind.TheVariants.{Released as ReleasedEvent};
ghost use Rattle.gui_base.specs.declared.words.State.TheVariants.{Pressed as PressedState};
ghost use Rattle.gui_base.specs.declared.words.State.TheVariants.{Scrolled as ScrolledState};
ghost use Rattle.gui_edge.specs.Sink.{SinkState};
ghost use Rattle.run_defs.specs.Dragging.{along, begin, begin_drag, begin_on, begin_once, follow};
ghost use Rattle.run_defs.specs.Dragging.{follow_drag, goes_down, is_far, is_slider_row, may_scroll};
ghost use Rattle.run_defs.specs.Dragging.{offset_of, pair_of, put_scroll, reach_of, scroll_by, scrolled_from};
ghost use Rattle.run_defs.specs.Dragging.{serve_drag, stepped};
ghost use Rattle.run_defs.specs.Events.{send_input};
ghost use Rattle.run_defs.specs.Making.{put_state};
ghost use Rattle.run_defs.specs.Play.{◌▷◌, aimed};
ghost use Rattle.scene_defs.specs.Scene.{row_at};
ghost use Rattle.gui_layout.specs.Solved.{offset_at, reach_at};
ghost use Rattle.gui_drag.specs.Dragging.{can_scroll, is_scrolled_to};
ghost use Rattle.gui_board.specs.Boards.{machine_of, Plays, Quiet};

use gui_base::intervals::SCROLL;
use gui_base::{EventKind, Flag, Handle, State};
use gui_board::{Board, is_slider};
use gui_edge::Sink;
use gui_layout::Places;
use play_defs::{DRAG_AFTER, Drag, Scrolling};
use scene_defs::{Change, Row};

/// Whether it is far enough to begin.
fn is_far(drag: Drag) -> bool
    ensures { result ≡ is_far drag }
{
    drag.from_x.unsigned_abs() >= DRAG_AFTER || drag.from_y.unsigned_abs() >= DRAG_AFTER
}

/// Whether it goes up and down, and not across.
fn goes_down(drag: Drag) -> bool
    ensures { result ≡ goes_down drag }
{
    drag.from_x.unsigned_abs() <= drag.from_y.unsigned_abs()
}

/// Of a pair across and down the one of a direction.
fn along(down: bool, both: (u32, u32)) -> u32
    ensures { result ≡ along down both }
{
    if down { both.1 } else { both.0 }
}

/// An offset after a step, within what the children reach and what may be stored.
fn stepped(offset: u32, step: i32, reach: u32) -> i32
    ensures { result ≡ stepped offset step reach }
{
    let last = i64::from(reach).min(i64::from(SCROLL.high));
    let moved = i64::from(offset) - i64::from(step);
    if moved < 0 {
        0
    } else if last < moved {
        last as i32
    } else {
        moved as i32
    }
}

/// How far the children of an object reach out of it, across and down: nothing if it is not there.
fn reach_in(places: &Places, h: Handle) -> (u32, u32)
    ensures { result ≡ pair_of (reach_at places.now h.0) }
{
    places.reach(h).unwrap_or((0, 0))
}

/// How far an object moves its children.
fn offset_in(places: &Places, h: Handle) -> (u32, u32)
    ensures { result ≡ pair_of (offset_at places.now h.0) }
{
    places.offset(h).unwrap_or((0, 0))
}

/// Whether a row is scrolled so far.
fn is_scrolled_to(row: &Row, x: i32, y: i32) -> bool
    ensures { result ≡ is_scrolled_to row.now x y }
{
    x == row.scroll_x && y == row.scroll_y
}

/// How far the children of an object reach out of it, across and down: nothing if it is not there.
fn reach_of(board: &Board, h: Handle) -> (u32, u32)
    ensures { result ≡ reach_of (machine_of board.now).scene h.0 }
{
    reach_in(board.places(), h)
}

/// How far it moves them.
fn offset_of(board: &Board, h: Handle) -> (u32, u32)
    ensures value { result ≡ offset_of (machine_of board.now).scene h.0 }
    ensures small { (result.0 ≤ 8191) × (result.1 ≤ 8191) }
{
    // For the proof alone: `tree` says that the scene is in order.
    let _tree = board.store().tree();
    offset_in(board.places(), h)
}

/// Whether an object is scrollable, and its children reach out of it in this direction.
fn can_scroll(board: &Board, down: bool, h: Handle) -> bool
    ensures { result ≡ can_scroll (machine_of board.now).scene down h }
{
    board.is_flagged(Flag::Scrollable, h) && along(down, reach_of(board, h)) > 0
}

/// The first of an object, its parent and so on that can be scrolled in this direction.
fn scrolled_from(board: &Board, down: bool, h: Handle) -> Option<Handle>
    ensures { result ≡ scrolled_from (machine_of board.now).scene down h }
{
    for k in board.store().tree().ancestors(h) {
        if can_scroll(board, down, k) {
            return Some(k);
        }
    }
    None
}

/// Whether an object is one that points set.
fn is_slider_at(board: &Board, h: Handle) -> bool
    ensures { result ≡ is_slider_row (row_at (machine_of board.now).scene h.0) }
{
    board.store().row(h).is_some_and(|row| is_slider(row.kind))
}

/// Whether a drag on this target scrolls: it takes input, and is no slider.
fn may_scroll(board: &Board, drag: Drag, target: Handle) -> bool
    ensures { result ≡ may_scroll (machine_of board.now).scene drag target }
{
    board.takes_input(target) && (!is_slider_at(board, target) && is_far(drag))
}

/// Scrolling begins, if there is something to scroll.
fn begin_on(board: &mut Board, down: bool, object: Option<Handle>)
    ensures { Quiet board.old board.new (begin_on down object) }
{
    if let Some(h) = object {
        board.set_scrolling(Some(Scrolling {
            object: Some(h),
            down,
        }));
        board.put_state(State::Scrolled, true, h);
    }
}

/// A drag on this target begins to scroll what can be scrolled.
fn begin_scrolling(board: &mut Board, drag: Drag, target: Handle)
    ensures { Quiet board.old board.new (begin drag target) }
{
    if may_scroll(board, drag, target) {
        let down = goes_down(drag);
        let object = scrolled_from(board, down, target);
        begin_on(board, down, object);
    }
}

/// A drag begins to scroll what its target allows, if there is a target.
fn begin_aimed(board: &mut Board, drag: Drag, target: Option<Handle>)
    ensures { Quiet board.old board.new (aimed target (begin drag)) }
{
    if let Some(h) = target {
        begin_scrolling(board, drag, h);
    }
}

/// A drag begins to scroll, unless this press is scrolling already.
fn begin_once(board: &mut Board, scrolling: Option<Scrolling>, drag: Drag, target: Option<Handle>)
    ensures { Quiet board.old board.new (begin_once scrolling drag target) }
{
    match scrolling {
        None => begin_aimed(board, drag, target),
        Some(_) => {}
    }
}

/// A drag of the pointer begins to scroll, if none of this press did.
fn begin_drag(board: &mut Board, drag: Drag)
    ensures { Quiet board.old board.new (begin_drag drag) }
{
    let scrolling = board.scrolling();
    let target = board.pointer_target();
    begin_once(board, scrolling, drag, target);
}

/// An object is to be scrolled so far; no change if it is so already.
fn put_scroll(board: &mut Board, x: i32, y: i32, h: Handle)
    ensures { Quiet board.old board.new (put_scroll x y h) }
{
    let Some(row) = board.store().row(h) else {
        return;
    };
    if !is_scrolled_to(row, x, y) {
        let _ = board.change(&Change::Scroll(h, x, y));
    }
}

/// An object goes by the step in the direction of scrolling, and stays as it takes effect in the other.
fn scroll_by(board: &mut Board, down: bool, drag: Drag, h: Handle)
    ensures { Quiet board.old board.new (scroll_by down drag h) }
{
    let offset = offset_of(board, h);
    let reach = reach_of(board, h);
    if down {
        let y = stepped(offset.1, drag.step_y, reach.1);
        put_scroll(board, offset.0 as i32, y, h);
    } else {
        let x = stepped(offset.0, drag.step_x, reach.0);
        put_scroll(board, x, offset.1 as i32, h);
    }
}

/// Scrolls an object by a step of the drag, if it is still there.
fn scroll_aimed(board: &mut Board, object: Option<Handle>, down: bool, drag: Drag)
    ensures { Quiet board.old board.new (aimed object (scroll_by down drag)) }
{
    if let Some(h) = object {
        scroll_by(board, down, drag, h);
    }
}

/// What is scrolled goes on by a step.
fn follow(board: &mut Board, scrolling: Option<Scrolling>, drag: Drag)
    ensures { Quiet board.old board.new (follow scrolling drag) }
{
    if let Some(now) = scrolling {
        scroll_aimed(board, now.object, now.down, drag);
    }
}

/// What the press scrolls follows the pointer.
fn follow_drag(board: &mut Board, drag: Drag)
    ensures { Quiet board.old board.new (follow_drag drag) }
{
    let scrolling = board.scrolling();
    follow(board, scrolling, drag);
}

/// A pointer that is down has gone on.
pub fn serve_drag(board: &mut Board, drag: Drag)
    ensures { Quiet board.old board.new (serve_drag drag) }
{
    begin_drag(board, drag);
    follow_drag(board, drag);
}

/// What was pressed is so no longer, if it is still there.
fn unpress_aimed(board: &mut Board, target: Option<Handle>)
    ensures { Quiet board.old board.new (aimed target (put_state PressedState false)) }
{
    if let Some(h) = target {
        board.put_state(State::Pressed, false, h);
    }
}

/// What was scrolled is so no longer, if it is still there.
fn unscroll_aimed(board: &mut Board, object: Option<Handle>)
    ensures { Quiet board.old board.new (aimed object (put_state ScrolledState false)) }
{
    if let Some(h) = object {
        board.put_state(State::Scrolled, false, h);
    }
}

/// A press ends that scrolled: its target is let up, and not clicked.
pub fn end_scrolling<S: Sink>(
    board: &mut Board,
    object: Option<Handle>,
    target: Option<Handle>,
    log: &mut S,
)
    ensures { Plays board.old board.new (S.state log.old) (S.state log.new)
        (aimed target (put_state PressedState false) ▷ aimed object (put_state ScrolledState false)
        ▷ aimed target (send_input ReleasedEvent)) }
{
    unpress_aimed(board, target);
    unscroll_aimed(board, object);
    board.send_aimed(target, EventKind::Released, log);
}
