//! The time, and the input devices with what they are held on.
ghost use Rattle.std.specs.Prelude.{◌≡◌};
ghost use Rattle.gui_board.specs.Inputs.{first_inputs, scrolling_without, target_without, without_target};

use gui_base::Handle;
use gui_input::{Encoder, Keypad, Pointer};
use play_defs::Scrolling;

/// The time, the three devices, and the objects and groups that they are for.
#[derive(Drop)]
pub(crate) struct Inputs {
    /// In milliseconds.
    pub(crate) time: u64,
    pub(crate) pointer: Pointer,
    pub(crate) keypad: Keypad,
    pub(crate) encoder: Encoder,
    /// The objects that they are held on.
    pub(crate) pointer_target: Option<Handle>,
    pub(crate) keypad_target: Option<Handle>,
    pub(crate) encoder_target: Option<Handle>,
    /// What a press of the pointer scrolls.
    pub(crate) scrolling: Option<Scrolling>,
    /// The groups in which these two move the focus, 0 for none.
    pub(crate) keypad_group: u8,
    pub(crate) encoder_group: u8,
}

/// A target, unless it is this object.
fn target_without(h: Handle, target: Option<Handle>) -> Option<Handle>
    ensures { result ≡ target_without h target }
{
    match target {
        Some(k) if k == h => None,
        _ => target,
    }
}

/// What is scrolled, unless it is this object.
fn scrolling_without(h: Handle, scrolling: Option<Scrolling>) -> Option<Scrolling>
    ensures { result ≡ scrolling_without h scrolling }
{
    let was = scrolling?;
    Some(Scrolling {
        object: target_without(h, was.object),
        down: was.down,
    })
}

impl Inputs {
    /// At the beginning of time nothing is held.
    pub(crate) fn new() -> Inputs
        ensures { result ≡ first_inputs }
    {
        Inputs {
            time: 0,
            pointer: Pointer::new(),
            keypad: Keypad::new(),
            encoder: Encoder::new(),
            pointer_target: None,
            keypad_target: None,
            encoder_target: None,
            scrolling: None,
            keypad_group: 0,
            encoder_group: 0,
        }
    }

    /// What is held on an object is held on nothing, and what scrolls it scrolls nothing.
    pub(crate) fn forget(&mut self, h: Handle)
        ensures { self.new ≡ without_target h self.old }
    {
        self.pointer_target = target_without(h, self.pointer_target);
        self.keypad_target = target_without(h, self.keypad_target);
        self.encoder_target = target_without(h, self.encoder_target);
        self.scrolling = scrolling_without(h, self.scrolling);
    }
}
