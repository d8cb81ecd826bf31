//! The bars that objects show over their children.
ghost use Rattle.std.specs.Prelude.{◌≡◌, ◌≤◌, ◌<◌, ◌+◌, ◌-◌, pos, ◌+ℤ◌, ◌-ℤ◌, [], ◌∷◌};
ghost use Rattle.gui_base.specs.Area.{area_at, common, height_of, width_of};
ghost use Rattle.gui_base.specs.Corners.{rect_of};
ghost use Rattle.gui_widgets.specs.Looks.{IsLook, widget_of, items_of};
ghost use Rattle.gui_widgets.specs.Nears.{IsPlace, IsPlaced, Reaches};
ghost use Rattle.widget_defs.specs.Items.{bars, bar_if, bar_length, bar_start, right_bar, bottom_bar};
ghost use Rattle.widget_defs.specs.Looks.{AreValues, value_in};

use crate::areas::{area_from, content_of, moved};
use crate::look::{Item, Look};
use crate::painting::fill;
use arrayvec::ArrayVec;
use gui_base::Area;
use widget_defs::Values;

/// The bars that an object in a place shows over its children, from back to front. It shows none if it is not
/// scrollable, and else one for each direction in which the children do not fit.
pub fn bars(look: &Look<'_>, place: Area) -> ArrayVec<Item, 2>
    requires look { IsLook look.now }
    requires place { IsPlace (rect_of place) }
    ensures { items_of result.items ≡ bars (widget_of look.now) (rect_of place) }
{
    let mut bars = ArrayVec::new();
    if !look.scrollable {
        return bars;
    }
    let (across, down) = look.reach;
    if down != 0 {
        bars.push(fill(right_bar(look, place), &look.scrollbar));
    }
    if across != 0 {
        bars.push(fill(bottom_bar(look, place), &look.scrollbar));
    }
    bars
}

/// How long the bar of a direction is in which an object, and in it its content area, are so large, and its
/// children reach so far.
fn bar_length(size: u32, inner: u32, reach: u32) -> u32
    requires { 0 < reach }
    ensures value { result ≡ bar_length size inner reach }
    ensures within { result ≤ size }
{
    let share = size as u64 * inner as u64 / (inner as u64 + reach as u64);
    (size as u64).min(8.max(share)) as u32
}

/// Where it begins, if it is so long and the children are moved so far.
fn bar_start(size: u32, length: u32, reach: u32, offset: u32) -> u32
    requires length { length ≤ size }
    requires reach { 0 < reach }
    requires offset { offset ≤ reach }
    ensures value { result ≡ bar_start size length reach offset }
    ensures within { result ≤ size - length }
{
    ((size - length) as u64 * offset as u64 / reach as u64) as u32
}

/// The bar at the right of an object, four pixels wide and cut to the object.
fn right_bar(look: &Look<'_>, place: Area) -> Area
    requires look { IsLook look.now }
    requires place { IsPlace (rect_of place) }
    requires reach { 0 < (widget_of look.now).reach.1 }
    ensures { rect_of result ≡ right_bar (widget_of look.now) (rect_of place) }
{
    let high = place.height();
    let inner = content_of(place, &look.main).height();
    let reach = look.reach.1;
    let length = bar_length(high, inner, reach);
    let start = bar_start(high, length, reach, look.offset.1);
    right_part(place, start, length)
}

/// The bar at the bottom of an object, four pixels high and cut to the object.
fn bottom_bar(look: &Look<'_>, place: Area) -> Area
    requires look { IsLook look.now }
    requires place { IsPlace (rect_of place) }
    requires reach { 0 < (widget_of look.now).reach.0 }
    ensures { rect_of result ≡ bottom_bar (widget_of look.now) (rect_of place) }
{
    let wide = place.width();
    let inner = content_of(place, &look.main).width();
    let reach = look.reach.0;
    let length = bar_length(wide, inner, reach);
    let start = bar_start(wide, length, reach, look.offset.0);
    bottom_part(place, start, length)
}

/// Of the last four columns of a place so many lines, from so far down on.
fn right_part(place: Area, start: u32, length: u32) -> Area
    requires place { IsPlace (rect_of place) }
    requires within { start + length ≤ height_of (rect_of place) }
    ensures { rect_of result
        ≡ common (rect_of place) (area_at (place.x2 -ℤ pos 3) (place.y1 +ℤ pos start) 4 length) }
{
    place.meet(area_from(before(place.x2), moved(place.y1, start), 4, length))
}

/// Of the last four lines of a place so many columns, from so far to the right on.
fn bottom_part(place: Area, start: u32, length: u32) -> Area
    requires place { IsPlace (rect_of place) }
    requires within { start + length ≤ width_of (rect_of place) }
    ensures { rect_of result
        ≡ common (rect_of place) (area_at (place.x1 +ℤ pos start) (place.y2 -ℤ pos 3) length 4) }
{
    place.meet(area_from(moved(place.x1, start), before(place.y2), length, 4))
}

/// Where four pixels begin of which the last is at a coordinate.
fn before(last: i32) -> i32
    requires { IsPlaced last }
    ensures value { result ≡ last -ℤ pos 3 }
    ensures reaches { Reaches result 4 }
{
    last - 3
}
