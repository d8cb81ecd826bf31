//! Rings along the sides of areas.
ghost use Rattle.std.specs.Prelude.{◌≡◌, ◌<◌, ◌*◌, pos, ◌+ℤ◌, ◌-ℤ◌};
ghost use Rattle.std.specs.Bool.{MatchBool};
ghost use Rattle.gui_base.specs.Area.{IsCoordinate, count_between};
ghost use Rattle.gui_base.specs.Coats.{within, ring_coat};
ghost use Rattle.gui_base.specs.Corners.{rect_of};
ghost use Rattle.gui_draw.specs.Drawing.{Draws};
ghost use Rattle.gui_draw.specs.Rings.{IsThin, IsThick, top_band, bottom_band, left_band, right_band};

use crate::fills::fill;
use gui_base::{Area, Rgb565, Steps};
use gui_color::DrawBuf;
use std::sync::ledger::Ledger;

// Each parameter by itself, as in all calls of this library: callers have them from different places.
/// Mixes a colour with an opacity from 0 to 255 over the pixels of the buffer that are in the clip and among
/// the outermost `width` pixels of the area at each side.
pub fn ring<L: Ledger>(
    buf: &mut DrawBuf,
    clip: Area,
    area: Area,
    width: u8,
    fg: Rgb565,
    opa: u8,
    steps: &mut Steps<L>,
)
    ensures { Draws buf.old buf.new steps.old steps.new
        (within (rect_of clip) (ring_coat (rect_of area) width fg opa)) }
{
    if width == 0 {
        return;
    }
    if is_thick(area, width) {
        fill(buf, clip, area, fg, opa, steps);
        return;
    }
    fill(buf, clip, top(area, width), fg, opa, steps);
    fill(buf, clip, bottom(area, width), fg, opa, steps);
    fill(buf, clip, left(area, width), fg, opa, steps);
    fill(buf, clip, right(area, width), fg, opa, steps);
}

/// Whether a ring leaves nothing of the area.
fn is_thick(area: Area, width: u8) -> bool
    ensures { MatchBool result (IsThick (rect_of area) width) (IsThin (rect_of area) width) }
{
    let both = 2 * u32::from(width);
    area.width() <= both || area.height() <= both
}

/// The first lines of an area.
fn top(area: Area, width: u8) -> Area
    requires some { 0 < width }
    requires thin { IsThin (rect_of area) width }
    ensures { rect_of result ≡ top_band (rect_of area) width }
{
    Area {
        x1: area.x1,
        y1: area.y1,
        x2: area.x2,
        y2: first_end(area.y1, area.y2, width),
    }
}

/// Its last lines.
fn bottom(area: Area, width: u8) -> Area
    requires some { 0 < width }
    requires thin { IsThin (rect_of area) width }
    ensures { rect_of result ≡ bottom_band (rect_of area) width }
{
    Area {
        x1: area.x1,
        y1: last_start(area.y1, area.y2, width),
        x2: area.x2,
        y2: area.y2,
    }
}

/// Its first columns, in the lines between those.
fn left(area: Area, width: u8) -> Area
    requires some { 0 < width }
    requires thin { IsThin (rect_of area) width }
    ensures { rect_of result ≡ left_band (rect_of area) width }
{
    Area {
        x1: area.x1,
        y1: middle_start(area.y1, area.y2, width),
        x2: first_end(area.x1, area.x2, width),
        y2: middle_end(area.y1, area.y2, width),
    }
}

/// Its last columns, in the lines between those.
fn right(area: Area, width: u8) -> Area
    requires some { 0 < width }
    requires thin { IsThin (rect_of area) width }
    ensures { rect_of result ≡ right_band (rect_of area) width }
{
    Area {
        x1: last_start(area.x1, area.x2, width),
        y1: middle_start(area.y1, area.y2, width),
        x2: area.x2,
        y2: middle_end(area.y1, area.y2, width),
    }
}

/// The last of the first `n` numbers from one to another.
fn first_end(low: i32, high: i32, n: u8) -> i32
    requires coordinates { IsCoordinate low × IsCoordinate high }
    requires some { 0 < n }
    requires few { 2 * n < count_between low high }
    ensures value { result ≡ (low +ℤ pos n) -ℤ pos 1 }
    ensures fits { IsCoordinate result }
{
    low + i32::from(n) - 1
}

/// The first of the last `n`.
fn last_start(low: i32, high: i32, n: u8) -> i32
    requires coordinates { IsCoordinate low × IsCoordinate high }
    requires some { 0 < n }
    requires few { 2 * n < count_between low high }
    ensures value { result ≡ (high -ℤ pos n) +ℤ pos 1 }
    ensures fits { IsCoordinate result }
{
    high - i32::from(n) + 1
}

/// The first of those that neither the first `n` nor the last `n` are.
fn middle_start(low: i32, high: i32, n: u8) -> i32
    requires coordinates { IsCoordinate low × IsCoordinate high }
    requires few { 2 * n < count_between low high }
    ensures value { result ≡ low +ℤ pos n }
    ensures fits { IsCoordinate result }
{
    low + i32::from(n)
}

/// The last of those.
fn middle_end(low: i32, high: i32, n: u8) -> i32
    requires coordinates { IsCoordinate low × IsCoordinate high }
    requires few { 2 * n < count_between low high }
    ensures value { result ≡ high -ℤ pos n }
    ensures fits { IsCoordinate result }
{
    high - i32::from(n)
}
