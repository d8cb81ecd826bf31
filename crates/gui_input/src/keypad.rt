//! The keypad, of which one key may be held.
ghost use Rattle.std.specs.Prelude.{◌≡◌, None, [], ◌∷◌, ◌++◌, ◌+◌, ◌<◌, ◌≤◌};
ghost use Rattle.arrayvec.specs.ArrayVec.{array_vec_len};
ghost use Rattle.play_defs.specs.Input.{keypad_fed, key_down, key_up, key_waited, let_go, key_tells};
ghost use Rattle.play_defs.specs.Input.{holds_key, is_enter as is_enter_key};

use crate::Tells;
use crate::press::{begin, hold_on};
use arrayvec::ArrayVec;
use gui_base::Key;
use play_defs::{Held, InputEvent, KeyReading};
use std::marker::Model;

/// A keypad, of which no key is held or one. A contract sees the key, and its press.
#[derive(Drop)]
pub struct Keypad {
    held: Option<Held>,
}

impl Model for Keypad {
    ghost use Rattle.std.specs.declared.option.Option.{Option};
    ghost use Rattle.play_defs.specs.declared.Held.{Held};

    ghost Value = { Option Held };

    ghost view = { λ s. s.held };
}

impl Keypad {
    /// A keypad of which no key is held.
    pub fn new() -> Keypad
        ensures { result ≡ None }
    {
        Keypad { held: None }
    }

    /// Takes a reading at a time in milliseconds, or none if only time passed, and tells the events of it. Time
    /// means something to Enter alone.
    pub fn feed(&mut self, reading: Option<KeyReading>, now: u64) -> Tells
        ensures device { self.new ≡ (keypad_fed self.old reading now).device }
        ensures tells { result.items ≡ (keypad_fed self.old reading now).tells }
    {
        match reading {
            None => self.wait(now),
            Some(KeyReading { key, down: true }) => self.press(key, now),
            Some(KeyReading { key, down: false }) => self.lift(key),
        }
    }

    /// A key goes down, which lets go of another.
    fn press(&mut self, key: Key, now: u64) -> Tells
        ensures device { self.new ≡ (key_down self.old key now).device }
        ensures tells { result.items ≡ (key_down self.old key now).tells }
    {
        let mut tells = ArrayVec::new();
        if !self.holds(key) {
            tell_release(&self.held, &mut tells);
            tells.push(told_by(key));
            self.held = Some(Held {
                key,
                press: begin(now),
            });
        }
        tells
    }

    /// A key goes up.
    fn lift(&mut self, key: Key) -> Tells
        ensures device { self.new ≡ (key_up self.old key).device }
        ensures tells { result.items ≡ (key_up self.old key).tells }
    {
        let mut tells = ArrayVec::new();
        if self.holds(key) {
            tell_release(&self.held, &mut tells);
            self.held = None;
        }
        tells
    }

    /// Time passes.
    fn wait(&mut self, now: u64) -> Tells
        ensures device { self.new ≡ (key_waited self.old now).device }
        ensures tells { result.items ≡ (key_waited self.old now).tells }
    {
        let mut tells = ArrayVec::new();
        match &mut self.held {
            None => {}
            Some(held) => {
                if is_enter(held.key) {
                    hold_on(&mut held.press, now, &mut tells);
                }
            }
        }
        tells
    }

    /// Whether this key is held.
    fn holds(&self, key: Key) -> bool
        ensures { result ≡ holds_key key self.now }
    {
        match &self.held {
            None => false,
            Some(held) => held.key == key,
        }
    }
}

/// Tells of the end of a press if the held key is Enter.
fn tell_release(held: &Option<Held>, tells: &mut Tells)
    requires { array_vec_len tells.old < 7 }
    ensures tells { tells.new.items ≡ tells.old.items ++ let_go held.now }
    ensures room { array_vec_len tells.new ≤ array_vec_len tells.old + 1 }
{
    match held {
        None => {}
        Some(held) => {
            if is_enter(held.key) {
                tells.push(InputEvent::Release {
                    long: held.press.long,
                });
            }
        }
    }
}

/// What a key tells that goes down.
fn told_by(key: Key) -> InputEvent
    ensures { result ≡ key_tells key }
{
    match key {
        Key::Enter => InputEvent::Press,
        Key::Next => InputEvent::Next,
        Key::Prev => InputEvent::Prev,
        key => InputEvent::Key(key),
    }
}

/// Whether it is the key that presses objects.
fn is_enter(key: Key) -> bool
    ensures { result ≡ is_enter_key key }
{
    key == Key::Enter
}
