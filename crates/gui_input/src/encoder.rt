//! The encoder. Its push is never repeated.
ghost use Rattle.std.specs.Prelude.{◌≡◌, None};
ghost use Rattle.play_defs.specs.Input.{encoder_fed, pushed, push_waited};

use crate::Tells;
use crate::press::{begin, hold_on};
use arrayvec::ArrayVec;
use play_defs::{EncoderReading, InputEvent, Press};
use std::marker::Model;

/// An encoder, which is pushed or not. A contract sees its push.
#[derive(Drop)]
pub struct Encoder {
    push: Option<Press>,
}

impl Model for Encoder {
    ghost use Rattle.std.specs.declared.option.Option.{Option};
    ghost use Rattle.play_defs.specs.declared.Press.{Press};

    ghost Value = { Option Press };

    ghost view = { λ s. s.push };
}

impl Encoder {
    /// An encoder that is not pushed.
    pub fn new() -> Encoder
        ensures { result ≡ None }
    {
        Encoder { push: None }
    }

    /// Takes a reading at a time in milliseconds, or none if only time passed, and tells the events of it.
    pub fn feed(&mut self, reading: Option<EncoderReading>, now: u64) -> Tells
        ensures device { self.new ≡ (encoder_fed self.old reading now).device }
        ensures tells { result.items ≡ (encoder_fed self.old reading now).tells }
    {
        match reading {
            None => self.wait(now),
            Some(EncoderReading::Push(down)) => self.push(down, now),
            Some(EncoderReading::Turn(steps)) => {
                let mut tells = ArrayVec::new();
                tells.push(InputEvent::Turn(steps));
                tells
            }
        }
    }

    /// Its button goes down or up.
    fn push(&mut self, down: bool, now: u64) -> Tells
        ensures device { self.new ≡ (pushed self.old down now).device }
        ensures tells { result.items ≡ (pushed self.old down now).tells }
    {
        let mut tells = ArrayVec::new();
        match (self.push, down) {
            (None, false) | (Some(_), true) => {}
            (None, true) => {
                self.push = Some(begin(now));
                tells.push(InputEvent::Press);
            }
            (Some(press), false) => {
                self.push = None;
                tells.push(InputEvent::Release { long: press.long });
            }
        }
        tells
    }

    /// Time passes.
    fn wait(&mut self, now: u64) -> Tells
        ensures device { self.new ≡ (push_waited self.old now).device }
        ensures tells { result.items ≡ (push_waited self.old now).tells }
    {
        let mut tells = ArrayVec::new();
        match &mut self.push {
            None => {}
            Some(press) => {
                if !press.long {
                    hold_on(press, now, &mut tells);
                }
            }
        }
        tells
    }
}
