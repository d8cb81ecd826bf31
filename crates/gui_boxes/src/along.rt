//! Sizes and places along an axis, in a content area.
ghost use Rattle.std.specs.Prelude.{◌≡◌, ◌≤◌, pos, negsuc, ◌≤ℤ◌, ◌+ℤ◌, ◌-ℤ◌};
ghost use Rattle.layout_defs.specs.Boxes.{inner, size_in};
ghost use Rattle.layout_defs.specs.Solving.{aligned_at, half, side_at};
ghost use Rattle.gui_boxes.specs.Reaches.{IsInner, IsPlaced};
ghost use Rattle.gui_boxes.specs.Views.{axis_of};

use crate::axis::Axis;
use gui_base::Length;
use layout_defs::Side;

/// The size of an object in a content area that is so large.
pub fn size_in(axis: &Axis, room: u16, natural: u16) -> u16
    ensures value { result ≡ size_in axis.now.size room natural }
    ensures small { result ≤ 8191 }
{
    match axis.size {
        Length::Pixels(n) => n.min(8191),
        Length::Percent(n) => (u32::from(room) * u32::from(n) / 100).min(8191) as u16,
        Length::Content => natural.min(8191),
    }
}

/// How large the content area is of an object that is so large.
pub fn inner(axis: &Axis, size: u16) -> u16
    ensures value { result ≡ inner (axis_of axis.now) size }
    ensures small { result ≤ size }
{
    u32::from(size).saturating_sub(u32::from(axis.before) + u32::from(axis.after)) as u16
}

/// Where the content area begins of an object that begins there.
pub fn corner(axis: &Axis, at: i32) -> i32
    requires least { negsuc 919999999 ≤ℤ at }
    requires most { at ≤ℤ pos 920000000 }
    ensures value { result ≡ at +ℤ pos axis.now.before }
    ensures fits { IsInner result }
    ensures near_least { at ≤ℤ result }
    ensures near_most { result ≤ℤ (at +ℤ pos 1100) }
{
    at + i32::from(axis.before)
}

/// A coordinate so far from one of a content area.
pub fn from_corner(corner: i32, far: i32) -> i32
    requires corner { IsInner corner }
    requires least { negsuc 49999999 ≤ℤ far }
    requires most { far ≤ℤ pos 50000000 }
    ensures value { result ≡ corner +ℤ far }
    ensures fits { IsPlaced result }
    ensures near_least { (corner -ℤ pos 50000000) ≤ℤ result }
    ensures near_most { result ≤ℤ (corner +ℤ pos 50000000) }
{
    corner + far
}

/// Where its side puts an object that is so large in a content area.
fn side_at(side: Side, room: u16, size: u16) -> i32
    ensures value { result ≡ side_at side room size }
    ensures least { negsuc 65535 ≤ℤ result }
    ensures most { result ≤ℤ pos 65535 }
{
    match side {
        Side::Near => 0,
        Side::Middle => half(i32::from(room) - i32::from(size)),
        Side::Far => i32::from(room) - i32::from(size),
    }
}

/// Half of a number, rounded down.
fn half(n: i32) -> i32
    requires least { negsuc 65535 ≤ℤ n }
    requires most { n ≤ℤ pos 65535 }
    ensures value { result ≡ half n }
    ensures least { negsuc 65535 ≤ℤ result }
    ensures most { result ≤ℤ pos 65535 }
{
    if n < 0 { -((1 - n) / 2) } else { n / 2 }
}

/// How far an object that is so large stands from the corner of a content area, without flex.
fn aligned_at(axis: &Axis, room: u16, size: u16) -> i32
    ensures value { result ≡ aligned_at (axis_of axis.now) room size }
    ensures least { negsuc 49999999 ≤ℤ result }
    ensures most { result ≤ℤ pos 50000000 }
{
    side_at(axis.side, room, size) + i32::from(axis.wanted)
}

/// Where an object that is so large stands in a content area that begins there, without flex.
pub fn own_at(axis: &Axis, corner: i32, room: u16, size: u16) -> i32
    requires corner { IsInner corner }
    ensures value { result ≡ corner +ℤ aligned_at (axis_of axis.now) room size }
    ensures fits { IsPlaced result }
    ensures near_least { (corner -ℤ pos 50000000) ≤ℤ result }
    ensures near_most { result ≤ℤ (corner +ℤ pos 50000000) }
{
    from_corner(corner, aligned_at(axis, room, size))
}
