//! The definitions of what happens in time: what input devices tell of readings and of passing time, what
//! handlers and focus groups hold, and what value an animation has. The only code is the words that code and
//! definitions share, and laws.
#![tactic(auto)]

pub mod laws;

use gui_base::{Action, EventKind, Handle, Key, Path, Var};

/// How long a press lasts until it becomes a long one, in milliseconds.
pub const LONG_AFTER: u64 = 400;

/// How long it lasts then from one repeat to the next, in milliseconds.
pub const REPEAT_AFTER: u64 = 100;

/// A pointer drags once it is so many pixels, across or down, from where it went down.
pub const DRAG_AFTER: u32 = 10;

/// The parts in which the time and the way of an animation are measured.
pub const WHOLE: u32 = 1024;

/// An animation of one number of an object.
#[derive(Clone, Copy, Debug, Drop)]
pub struct AnimSpec {
    pub h: Handle,
    pub var: Var,
    /// The ends of the way, from -4000 to 4000.
    pub start: i32,
    pub end: i32,
    /// How long it takes from the start to the end, from 1 to 60000 ms.
    pub time: u32,
    /// How long it waits before, up to 60000 ms.
    pub delay: u32,
    /// How long it takes back to the start, up to 60000 ms. With 0 it does not go back.
    pub playback: u32,
    /// How often it is played, from 1 to 1000 times. `None` is for ever.
    pub repeat: Option<u16>,
    pub path: Path,
}

/// What an animation gives its object at a time.
#[derive(Clone, Copy, Debug, PartialEq, Eq, Drop)]
pub enum AnimValue {
    /// Nothing: it has not begun.
    Before,
    Now(i32),
    /// The value with which it ends.
    Last(i32),
}

/// An animation, and the time at which it was started, in milliseconds.
#[derive(Clone, Copy, Debug, Drop)]
pub struct Anim {
    pub spec: AnimSpec,
    pub started: u64,
}

/// What a pointer reads: a point in pixels, each number from -4000 to 4000, and whether it is down there.
#[derive(Clone, Copy, Debug, Drop)]
pub struct PointerReading {
    pub x: i32,
    pub y: i32,
    pub down: bool,
}

/// What a keypad reads: a key that went down or up.
#[derive(Clone, Copy, Debug, Drop)]
pub struct KeyReading {
    pub key: Key,
    pub down: bool,
}

/// What an encoder reads.
#[derive(Clone, Copy, Debug, Drop)]
pub enum EncoderReading {
    /// It turned by so many steps, backwards below 0.
    Turn(i8),
    /// Its button went down or up.
    Push(bool),
}

/// A press that lasts. Times are in milliseconds.
#[derive(Clone, Copy, Debug, Drop)]
pub struct Press {
    /// When it began.
    pub since: u64,
    /// Whether it has become a long one.
    pub long: bool,
    /// When it became a long one, or was repeated last.
    pub told: u64,
}

/// A press of a pointer: where it went down, and where it was read last, in pixels.
#[derive(Clone, Copy, Debug, Drop)]
pub struct Touch {
    pub press: Press,
    pub from_x: i32,
    pub from_y: i32,
    pub last_x: i32,
    pub last_y: i32,
}

/// How far a pointer that is down is from where it went down, and how far from where it was read before, in
/// pixels.
#[derive(Clone, Copy, Debug, Drop)]
pub struct Drag {
    pub from_x: i32,
    pub from_y: i32,
    pub step_x: i32,
    pub step_y: i32,
}

/// Scrolling that has begun in a press of the pointer.
#[derive(Clone, Copy, Debug, Drop)]
pub struct Scrolling {
    /// The object that is scrolled, until it is gone.
    pub object: Option<Handle>,
    /// Whether it goes up and down, and not across.
    pub down: bool,
}

/// A key that is held.
#[derive(Clone, Copy, Debug, Drop)]
pub struct Held {
    pub key: Key,
    pub press: Press,
}

/// What a device tells, before a target is known.
#[derive(Clone, Copy, Debug, Default, PartialEq, Eq, Drop)]
pub enum InputEvent {
    /// A press begins.
    #[default]
    Press,
    /// A pointer that is down was read once more: how far it is from where it went down, and how far from
    /// where it was read before, in pixels.
    Hold {
        from_x: i32,
        from_y: i32,
        step_x: i32,
        step_y: i32,
    },
    /// A press ends. `long` tells whether it had become a long one.
    Release {
        long: bool,
    },
    /// A press becomes a long one.
    Long,
    /// A long press goes on.
    Repeat,
    /// An arrow key is pressed.
    Key(Key),
    /// The encoder turned.
    Turn(i8),
    /// The focus is to move forwards.
    Next,
    /// The focus is to move backwards.
    Prev,
}

/// What an object does at an event.
#[derive(Clone, Copy, Debug, Drop)]
pub struct Handler {
    pub kind: EventKind,
    pub action: Action,
}

/// A focus group: which of its members has the focus, and whether that one is being edited.
#[derive(Clone, Copy, Debug, Drop)]
pub struct Group {
    pub id: u8,
    pub focused: Option<Handle>,
    pub editing: bool,
}

/// A member of a focus group.
#[derive(Clone, Copy, Debug, Drop)]
pub struct Member {
    pub group: u8,
    pub h: Handle,
}
