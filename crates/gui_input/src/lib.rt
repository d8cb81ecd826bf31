//! The cores of the three input devices: they turn readings and passing time into events, before a target is
//! known.
#![tactic(auto)]

mod encoder;
mod keypad;
mod pointer;
mod press;

use arrayvec::ArrayVec;
pub use encoder::Encoder;
pub use gui_base::Key;
pub use keypad::Keypad;
pub use play_defs::{EncoderReading, InputEvent, KeyReading, PointerReading};
pub use pointer::Pointer;

/// What a device tells of one reading or one tick, in order.
pub type Tells = ArrayVec<InputEvent, 8>;
