//! Parts of areas.
ghost use Rattle.std.specs.Prelude.{◌≡◌, ◌≤◌, ◌+◌, pos, ◌+ℤ◌, ◌-ℤ◌};
ghost use Rattle.gui_base.specs.Area.{IsCoordinate, area_at};
ghost use Rattle.gui_base.specs.Corners.{rect_of};
ghost use Rattle.gui_widgets.specs.Bounds.{most_of};
ghost use Rattle.gui_widgets.specs.Nears.{IsPlace, IsContent, Reaches};
ghost use Rattle.widget_defs.specs.Items.{content_of, inset};
ghost use Rattle.widget_defs.specs.Looks.{AreValues, value_in};

use crate::values::number;
use gui_base::{Area, Prop};
use widget_defs::Values;

/// Border and pad at one side.
fn inset(values: &Values, pad: Prop) -> u32
    requires values { AreValues (value_in values.now) }
    requires pad { most_of pad ≤ 1000 }
    ensures value { result ≡ inset (value_in values.now) pad }
    ensures most { result ≤ 1100 }
{
    number(values, Prop::BorderWidth) + number(values, pad)
}

/// The content area of an object that stands in a place: without border and pad at each side.
pub(crate) fn content_of(place: Area, values: &Values) -> Area
    requires values { AreValues (value_in values.now) }
    requires place { IsPlace (rect_of place) }
    ensures area { rect_of result ≡ content_of (rect_of place) (value_in values.now) }
    ensures near { IsContent (rect_of result) }
{
    let left = inset(values, Prop::PadLeft);
    let right = inset(values, Prop::PadRight);
    let top = inset(values, Prop::PadTop);
    let bottom = inset(values, Prop::PadBottom);
    let width = place.width().saturating_sub(left + right);
    let height = place.height().saturating_sub(top + bottom);
    part_at(place, left, top, width, height)
}

/// A part of an area: so many pixels from its left and from its top, and of these sizes.
pub(crate) fn part_at(area: Area, left: u32, top: u32, width: u32, height: u32) -> Area
    requires across { Reaches area.x1 (left + width) }
    requires down { Reaches area.y1 (top + height) }
    ensures { rect_of result ≡ area_at (area.x1 +ℤ pos left) (area.y1 +ℤ pos top) width height }
{
    let x = moved(area.x1, left);
    let y = moved(area.y1, top);
    Area {
        x1: x,
        y1: y,
        x2: last(x, width),
        y2: last(y, height),
    }
}

/// The area that begins at a corner and has these sizes.
pub(crate) fn area_from(x: i32, y: i32, width: u32, height: u32) -> Area
    requires across { Reaches x width }
    requires down { Reaches y height }
    ensures { rect_of result ≡ area_at x y width height }
{
    Area {
        x1: x,
        y1: y,
        x2: last(x, width),
        y2: last(y, height),
    }
}

/// A coordinate so many pixels further on.
pub(crate) fn moved(from: i32, by: u32) -> i32
    requires { Reaches from by }
    ensures { result ≡ from +ℤ pos by }
{
    from + by as i32
}

/// The last of so many pixels from a coordinate on.
fn last(from: i32, n: u32) -> i32
    requires { Reaches from n }
    ensures value { result ≡ (from +ℤ pos n) -ℤ pos 1 }
    ensures fits { IsCoordinate result }
{
    from + n as i32 - 1
}

/// A part of an area from its top left on, of these sizes.
pub(crate) fn first_part(area: Area, width: u32, height: u32) -> Area
    requires across { Reaches area.x1 width }
    requires down { Reaches area.y1 height }
    ensures { rect_of result ≡ area_at area.x1 area.y1 width height }
{
    part_at(area, 0, 0, width, height)
}

/// A part of an area from its top on, so many pixels from its left, of these sizes.
pub(crate) fn later_part(area: Area, left: u32, width: u32, height: u32) -> Area
    requires across { Reaches area.x1 (left + width) }
    requires down { Reaches area.y1 height }
    ensures { rect_of result ≡ area_at (area.x1 +ℤ pos left) area.y1 width height }
{
    part_at(area, left, 0, width, height)
}
