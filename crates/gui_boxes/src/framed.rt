//! Objects that stand by themselves.
ghost use Rattle.std.specs.Prelude.{◌≡◌, ◌≤◌, ℕ};
ghost use Rattle.gui_boxes.specs.Frames.{framed_width, framed_slot, FrameIsNearby};
ghost use Rattle.gui_boxes.specs.Settled.{corner, tall_of, wide_of};
ghost use Rattle.gui_boxes.specs.Sizings.{kid_by};
ghost use Rattle.gui_boxes.specs.Slots.{HasRoom, slot_of};

use crate::along::size_in;
use crate::entry::Entry;
use crate::frame::Frame;
use crate::position::Position;
use crate::positions::own_position;
use crate::size::Size;

/// The width of an object in what it stands in, by its entry.
pub fn framed_width(frame: Frame, own: &Entry) -> u16
    ensures value { (h : ℕ) → result ≡ framed_width frame (wide_of (kid_by h own.now)) }
    ensures small { result ≤ 8191 }
{
    match frame {
        Frame::Panel(width, _) => width.pixels,
        Frame::Content(inside) => size_in(
            &own.wanted.across,
            inside.width,
            own.natural_width.pixels,
        ),
    }
}

/// The place of a root that is so high.
fn at_corner(height: Size) -> Position
    ensures value { slot_of result ≡ corner height.pixels }
    ensures room { HasRoom (slot_of result) 16 }
{
    Position {
        x: 0,
        y: 0,
        height: height.pixels,
    }
}

/// The place of an object in what it stands in, by its entry.
pub fn framed_position(frame: Frame, own: &Entry) -> Position
    requires { FrameIsNearby frame }
    ensures value { (k : ℕ) → slot_of result ≡ framed_slot frame (tall_of (kid_by k own.now)) }
    ensures room { HasRoom (slot_of result) 16 }
{
    match frame {
        Frame::Panel(_, height) => at_corner(height),
        Frame::Content(inside) => own_position(own, inside),
    }
}
