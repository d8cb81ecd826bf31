//! Animations: what they give their objects as time passes.
ghost use Rattle.std.specs.Prelude.{◌≡◌, IfSome, length};
ghost use Rattle.std.specs.Ordering.{int_eq};
ghost use Rattle.gui_base.specs.Intervals.{is_counted};
ghost use Rattle.play_defs.specs.Animation.{IsAnim, IsEnd};
ghost use Rattle.play_defs.specs.Laws.{LiesBetween};
ghost use Rattle.run_defs.specs.Animating.{animate, animate_all, is_pixels, pixels, put_anim, put_var};
ghost use Rattle.run_defs.specs.Animating.{unless_so, var_change};
ghost use Rattle.run_defs.specs.Play.{each};
ghost use Rattle.run_defs.specs.Step.{is_anim_in_range, is_repeat};
ghost use Rattle.scene_defs.specs.Valid.{IsChange};
ghost use Rattle.gui_play.specs.Animated.{anim_at};
ghost use Rattle.gui_board.specs.Boards.{machine_of, Quiet};

use crate::pointing::brought_in;
use gui_anim::value_of;
use gui_base::intervals::{ANIM_TIME, COORDINATE, Count, HANDLE, REPEAT, TICK};
use gui_base::{Handle, Length, Var};
use gui_board::Board;
use play_defs::{AnimSpec, AnimValue};
use scene_defs::{Change, Row};

/// Whether a time lies in an interval.
fn is_time(interval: Count, ms: u32) -> bool
    ensures { result ≡ is_counted interval ms }
{
    u32::from(interval.low) <= ms && ms <= u32::from(interval.high)
}

/// Whether an animation is played so often, or for ever.
fn is_repeat(often: Option<u16>) -> bool
    ensures { result ≡ is_repeat often }
{
    match often {
        None => true,
        Some(n) => REPEAT.holds(n),
    }
}

/// Whether each number of an animation lies in its interval.
pub(crate) fn is_anim_in_range(spec: &AnimSpec) -> bool
    ensures { result ≡ is_anim_in_range spec.now }
{
    HANDLE.holds(spec.h.0)
        && COORDINATE.holds(spec.start)
        && COORDINATE.holds(spec.end)
        && is_time(ANIM_TIME, spec.time)
        && is_time(TICK, spec.delay)
        && is_time(TICK, spec.playback)
        && is_repeat(spec.repeat)
}

/// So many pixels; a number below 0 is none.
fn pixels(n: i32) -> u16
    requires { IsEnd n }
    ensures { result ≡ pixels n }
{
    if n < 0 { 0 } else { n as u16 }
}

/// Whether a length is so many pixels.
fn is_pixels(n: u16, length: Length) -> bool
    ensures { result ≡ is_pixels n length }
{
    match length {
        Length::Pixels(k) => k == n,
        Length::Percent(_) | Length::Content => false,
    }
}

/// Whether two numbers are the same.
fn are_same(m: i32, n: i32) -> bool
    ensures { result ≡ int_eq m n }
{
    m == n
}

/// A change, unless what it would make so is so already.
fn unless_so(so: bool, change: Change<'static>) -> Option<Change<'static>>
    ensures { result ≡ unless_so so change.entry }
{
    if so { None } else { Some(change) }
}

/// The change by which a variable of an object becomes this number, or none if it is so already.
fn var_change(var: Var, row: &Row, n: i32, h: Handle) -> Option<Change<'static>>
    requires { IsEnd n }
    ensures value { result ≡ var_change var row.now n h }
    ensures in_range { IfSome result IsChange }
{
    match var {
        Var::X => unless_so(are_same(n, row.x), Change::Pos(h, n, row.y)),
        Var::Y => unless_so(are_same(n, row.y), Change::Pos(h, row.x, n)),
        Var::Width => {
            let width = pixels(n);
            let so = is_pixels(width, row.width);
            unless_so(so, Change::Size(h, Length::Pixels(width), row.height))
        }
        Var::Height => {
            let height = pixels(n);
            let so = is_pixels(height, row.height);
            unless_so(so, Change::Size(h, row.width, Length::Pixels(height)))
        }
        Var::Value => {
            let value = brought_in(row.min, row.max, n);
            unless_so(are_same(value, row.value), Change::Value(h, value))
        }
    }
}

/// A variable of an object becomes this number; no change if it is so already.
fn put_var(board: &mut Board, var: Var, n: i32, h: Handle)
    requires { IsEnd n }
    ensures { Quiet board.old board.new (put_var var n h) }
{
    let Some(row) = board.store().row(h) else {
        return;
    };
    if let Some(change) = var_change(var, row, n, h) {
        let _ = board.change(&change);
    }
}

/// An object gets what its animation gives.
fn put_anim(board: &mut Board, spec: &AnimSpec, value: AnimValue)
    requires anim { IsAnim spec.now }
    requires between { LiesBetween spec.now.start spec.now.end value }
    ensures { Quiet board.old board.new (put_anim spec.now value) }
{
    match value {
        AnimValue::Before => {}
        AnimValue::Now(n) => put_var(board, spec.var, n, spec.h),
        AnimValue::Last(n) => put_var(board, spec.var, n, spec.h),
    }
}

/// An animation gives what it has for the present time.
fn animate(board: &mut Board, spec: &AnimSpec, started: u64)
    requires { IsAnim spec.now }
    ensures { Quiet board.old board.new (animate (anim_at spec.now started)) }
{
    let value = value_of(spec, board.time().saturating_sub(started));
    put_anim(board, spec, value);
}

/// All animations give what they have, in the order of starting.
fn animate_each(board: &mut Board)
    ensures { Quiet board.old board.new (each animate (machine_of board.old).anims) }
{
    'anims: for n in 0..board.anim_count() {
        match board.anim(n) {
            None => return,
            Some(anim) => animate(board, &anim.0, anim.1),
        }
    }
}

/// All animations give what they have, and then those that have ended are over.
pub(crate) fn animate_all(board: &mut Board)
    ensures { Quiet board.old board.new animate_all }
{
    animate_each(board);
    board.drop_ended();
}
