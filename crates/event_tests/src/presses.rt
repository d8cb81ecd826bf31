//! What devices tell around 400 and 100 ms.
ghost use Rattle.std.specs.Prelude.{IfSome};
ghost use Rattle.gui_input.specs.Points.{IsPoint};

use crate::checks::same;
use gui_base::Key;
use gui_input::{Encoder, EncoderReading, InputEvent, KeyReading, Keypad, Pointer, PointerReading};
use std::process::Abort;

/// A point that is touched or left.
fn touch(down: bool) -> Option<PointerReading>
    ensures { IfSome result IsPoint }
{
    Some(PointerReading { x: 5, y: 7, down })
}

fn key(key: Key, down: bool) -> Option<KeyReading> {
    Some(KeyReading { key, down })
}

/// What a pointer tells that is so far from where it went down, and so far from where it was read before.
fn hold(from_x: i32, from_y: i32, step_x: i32, step_y: i32) -> InputEvent {
    InputEvent::Hold {
        from_x,
        from_y,
        step_x,
        step_y,
    }
}

/// A pointer tells these events at a tick.
fn pointed(
    rt: &impl Abort,
    pointer: &mut Pointer,
    reading: Option<PointerReading>,
    now: u64,
    wanted: &[InputEvent],
)
    requires { IfSome reading IsPoint }
{
    same(rt, &pointer.feed(reading, now).as_slice(), &wanted);
}

/// A pointer that is not read tells these events at a tick.
fn waited(rt: &impl Abort, pointer: &mut Pointer, now: u64, wanted: &[InputEvent]) {
    pointed(rt, pointer, None, now, wanted);
}

#[test]
fn a_press_becomes_long_and_is_repeated(rt: HostRuntime) {
    let mut pointer = Pointer::new();
    pointed(&rt, &mut pointer, touch(true), 0, &[InputEvent::Press]);
    waited(&rt, &mut pointer, 399, &[]);
    waited(&rt, &mut pointer, 400, &[InputEvent::Long]);
    waited(&rt, &mut pointer, 499, &[]);
    waited(&rt, &mut pointer, 500, &[InputEvent::Repeat]);
    waited(&rt, &mut pointer, 501, &[]);
    pointed(&rt, &mut pointer, touch(true), 502, &[hold(0, 0, 0, 0)]);
    let ends = [InputEvent::Release { long: true }];
    pointed(&rt, &mut pointer, touch(false), 503, &ends);
    pointed(&rt, &mut pointer, touch(false), 504, &[]);
}

#[test]
fn a_pointer_tells_how_far_it_goes(rt: HostRuntime) {
    let mut pointer = Pointer::new();
    let down = |x: i32, y: i32| Some(PointerReading { x, y, down: true });
    pointed(&rt, &mut pointer, down(5, 15), 0, &[InputEvent::Press]);
    pointed(&rt, &mut pointer, down(5, 10), 0, &[hold(0, -5, 0, -5)]);
    pointed(&rt, &mut pointer, down(7, 4), 0, &[hold(2, -11, 2, -6)]);
    let ends = [InputEvent::Release { long: false }];
    pointed(&rt, &mut pointer, touch(false), 0, &ends);
    pointed(&rt, &mut pointer, down(-4000, 9), 0, &[InputEvent::Press]);
    pointed(
        &rt,
        &mut pointer,
        down(4000, 9),
        0,
        &[hold(8000, 0, 8000, 0)],
    );
}

/// An encoder tells these events at a tick.
fn turned(
    rt: &impl Abort,
    encoder: &mut Encoder,
    reading: Option<EncoderReading>,
    now: u64,
    wanted: &[InputEvent],
) {
    same(rt, &encoder.feed(reading, now).as_slice(), &wanted);
}

#[test]
fn a_push_is_long_once(rt: HostRuntime) {
    let mut encoder = Encoder::new();
    let (down, up) = (EncoderReading::Push(true), EncoderReading::Push(false));
    turned(&rt, &mut encoder, Some(down), 0, &[InputEvent::Press]);
    turned(&rt, &mut encoder, Some(down), 1, &[]);
    turned(&rt, &mut encoder, None, 400, &[InputEvent::Long]);
    turned(&rt, &mut encoder, None, 900, &[]);
    let turn = Some(EncoderReading::Turn(-3));
    turned(&rt, &mut encoder, turn, 901, &[InputEvent::Turn(-3)]);
    let ends = [InputEvent::Release { long: true }];
    turned(&rt, &mut encoder, Some(up), 902, &ends);
}

/// A keypad tells these events at a tick.
fn typed(
    rt: &impl Abort,
    keypad: &mut Keypad,
    reading: Option<KeyReading>,
    now: u64,
    wanted: &[InputEvent],
) {
    same(rt, &keypad.feed(reading, now).as_slice(), &wanted);
}

#[test]
fn a_second_key_lets_go_of_enter(rt: HostRuntime) {
    let mut keypad = Keypad::new();
    let down = key(Key::Enter, true);
    typed(&rt, &mut keypad, down, 0, &[InputEvent::Press]);
    typed(&rt, &mut keypad, down, 399, &[]);
    let told = [
        InputEvent::Release { long: false },
        InputEvent::Key(Key::Left),
    ];
    typed(&rt, &mut keypad, key(Key::Left, true), 399, &told);
    typed(&rt, &mut keypad, None, 800, &[]);
    typed(&rt, &mut keypad, key(Key::Enter, false), 801, &[]);
    typed(
        &rt,
        &mut keypad,
        key(Key::Prev, true),
        802,
        &[InputEvent::Prev],
    );
}
