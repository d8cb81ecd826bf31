//! The words of events, input devices and animations.

use crate::{Flag, Handle, Prop, Selector, State};

/// What happens to an object.
#[derive(Clone, Copy, Debug, PartialEq, Eq)]
pub enum EventKind {
    /// A press began on it.
    Pressed,
    /// The press goes on.
    Pressing,
    /// The press has lasted 400 ms.
    LongPressed,
    /// The press has lasted 100 ms more.
    LongPressedRepeat,
    /// The press ended.
    Released,
    /// A short press ended.
    ShortClicked,
    /// A press ended, short or long.
    Clicked,
    /// An input changed its value, or checked or unchecked it.
    ValueChanged,
    /// It got the focus of its group.
    Focused,
    /// It lost the focus of its group.
    Defocused,
    /// A key was sent to it.
    Key,
}

pub const EVENTS: [(&'static str, EventKind); 11] = [
    ("pressed", EventKind::Pressed),
    ("pressing", EventKind::Pressing),
    ("long_pressed", EventKind::LongPressed),
    ("long_pressed_repeat", EventKind::LongPressedRepeat),
    ("released", EventKind::Released),
    ("short_clicked", EventKind::ShortClicked),
    ("clicked", EventKind::Clicked),
    ("value_changed", EventKind::ValueChanged),
    ("focused", EventKind::Focused),
    ("defocused", EventKind::Defocused),
    ("key", EventKind::Key),
];

/// The object that an action changes.
#[derive(Clone, Copy, Debug, PartialEq, Eq)]
pub enum Aim {
    /// The object that the event was sent to.
    Target,
    Object(Handle),
}

/// What a handler does. Each but [`Action::Say`] is one change of the scene.
#[derive(Clone, Copy, Debug, PartialEq, Eq)]
pub enum Action {
    /// Writes a line into the log.
    Say,
    /// Removes an object and all below it.
    Delete(Aim),
    /// Makes a screen the active one.
    Load(Aim),
    /// Makes an object the last of its siblings.
    Front(Aim),
    /// Switches a flag on or off.
    Flag(Aim, Flag, bool),
    /// Switches a state on or off.
    State(Aim, State, bool),
    /// Sets a value, from -10000 to 10000.
    Value(Aim, i32),
    /// Sets a property of a part of an object, in some states.
    Local(Aim, Selector, Prop, i32),
}

/// A key of a keypad.
#[derive(Clone, Copy, Debug, PartialEq, Eq)]
pub enum Key {
    Up,
    Down,
    Left,
    Right,
    Enter,
    /// Moves the focus forwards.
    Next,
    /// Moves the focus backwards.
    Prev,
}

pub const KEYS: [(&'static str, Key); 7] = [
    ("up", Key::Up),
    ("down", Key::Down),
    ("left", Key::Left),
    ("right", Key::Right),
    ("enter", Key::Enter),
    ("next", Key::Next),
    ("prev", Key::Prev),
];

/// Whether a key or the encoder's button is pressed.
pub const DOWN_UP: [(&'static str, bool); 2] = [("down", true), ("up", false)];

/// What an animation moves.
#[derive(Clone, Copy, Debug, PartialEq, Eq)]
pub enum Var {
    /// The wanted place.
    X,
    Y,
    /// The wanted size in pixels.
    Width,
    Height,
    /// The value of a bar or a slider.
    Value,
}

pub const VARS: [(&'static str, Var); 5] = [
    ("x", Var::X),
    ("y", Var::Y),
    ("width", Var::Width),
    ("height", Var::Height),
    ("value", Var::Value),
];

/// How an animation goes from its start to its end.
#[derive(Clone, Copy, Debug, PartialEq, Eq)]
pub enum Path {
    /// At one speed.
    Linear,
    /// In one step at its end.
    Step,
    /// Slowly at first.
    EaseIn,
    /// Slowly at last.
    EaseOut,
    /// Slowly at first and at last.
    EaseInOut,
}

pub const PATHS: [(&'static str, Path); 5] = [
    ("linear", Path::Linear),
    ("step", Path::Step),
    ("ease_in", Path::EaseIn),
    ("ease_out", Path::EaseOut),
    ("ease_in_out", Path::EaseInOut),
];
