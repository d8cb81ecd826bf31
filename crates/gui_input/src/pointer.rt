//! The pointer.
ghost use Rattle.std.specs.Prelude.{◌≡◌, None, IfSome};
ghost use Rattle.play_defs.specs.Input.{pointer_fed, touch_at, touch_on, held_to};
ghost use Rattle.gui_input.specs.Points.{IsPoint, IsTouch};

use crate::Tells;
use crate::press::{begin, hold_on};
use arrayvec::ArrayVec;
use play_defs::{InputEvent, PointerReading, Touch};
use std::marker::Model;

/// A pointer, which is up or pressed. A contract sees its press.
#[derive(Drop)]
pub struct Pointer {
    touch: Option<Touch>,
}

impl Model for Pointer {
    ghost use Rattle.std.specs.Prelude.{IfSome};
    ghost use Rattle.std.specs.declared.option.Option.{Option};
    ghost use Rattle.play_defs.specs.declared.Touch.{Touch};
    ghost use Rattle.gui_input.specs.Points.{IsTouch};

    ghost Value = { Option Touch };

    ghost view = { λ s. s.touch };

    ghost invariant = { λ s. IfSome s.touch IsTouch };
}

/// A press that begins where the pointer is.
fn touch_at(reading: &PointerReading, now: u64) -> Touch
    requires { IsPoint reading.now }
    ensures touch { result ≡ touch_at reading.now now }
    ensures points { IsTouch result }
{
    Touch {
        press: begin(now),
        from_x: reading.x,
        from_y: reading.y,
        last_x: reading.x,
        last_y: reading.y,
    }
}

/// The press goes on with the pointer at a new place.
fn touch_on(touch: &Touch, reading: &PointerReading) -> Touch
    requires touch { IsTouch touch.now }
    requires reading { IsPoint reading.now }
    ensures touch { result ≡ touch_on touch.now reading.now }
    ensures points { IsTouch result }
{
    Touch {
        press: touch.press,
        from_x: touch.from_x,
        from_y: touch.from_y,
        last_x: reading.x,
        last_y: reading.y,
    }
}

/// How far a pointer has gone that is down: from where it went down, and from where it was read last.
fn held_to(touch: &Touch, reading: &PointerReading) -> InputEvent
    requires touch { IsTouch touch.now }
    requires reading { IsPoint reading.now }
    ensures { result ≡ held_to touch.now reading.now }
{
    InputEvent::Hold {
        from_x: reading.x - touch.from_x,
        from_y: reading.y - touch.from_y,
        step_x: reading.x - touch.last_x,
        step_y: reading.y - touch.last_y,
    }
}

impl Pointer {
    /// A pointer that is up.
    pub fn new() -> Pointer
        ensures { result ≡ None }
    {
        Pointer { touch: None }
    }

    /// Takes a reading at a time in milliseconds, or none if only time passed, and tells the events of it.
    pub fn feed(&mut self, reading: Option<PointerReading>, now: u64) -> Tells
        requires { IfSome reading IsPoint }
        ensures device { self.new ≡ (pointer_fed self.old reading now).device }
        ensures tells { result.items ≡ (pointer_fed self.old reading now).tells }
    {
        let mut tells = ArrayVec::new();
        match (reading, &mut self.touch) {
            (None, None) => {}
            (None, Some(touch)) => hold_on(&mut touch.press, now, &mut tells),
            (Some(reading), None) => {
                if reading.down {
                    self.touch = Some(touch_at(&reading, now));
                    tells.push(InputEvent::Press);
                }
            }
            (Some(reading), Some(touch)) => {
                if reading.down {
                    tells.push(held_to(touch, &reading));
                    *touch = touch_on(touch, &reading);
                } else {
                    let long = touch.press.long;
                    tells.push(InputEvent::Release { long });
                    self.touch = None;
                }
            }
        }
        tells
    }
}
