//! What is kept of the bars of an object, beside its place.
ghost use Rattle.std.specs.Prelude.{◌≡◌, ◌-ℤ◌, pos, option_map};
ghost use Rattle.std.specs.Int.{int_max};
ghost use Rattle.gui_base.specs.Area.{IsCoordinate};
ghost use Rattle.gui_base.specs.Corners.{rect_of};
ghost use Rattle.gui_debts.specs.Bars.{kept_in};
ghost use Rattle.gui_debts.specs.Kept.{bottom_of, crossed, first_of, narrow, packed_in, right_of, second_of, wide};

use crate::bars::Bars;
use gui_base::{Area, Rgb565};

/// How many bars an object shows.
#[derive(Clone, Copy)]
pub enum ShownBars {
    /// None.
    Nothing,
    /// One, in an area of its own.
    One,
    /// One at the right of the place, and one at its bottom.
    Two,
}

/// What is kept of the bars of an object, beside its place. Of two, the one stands at the right of the place and
/// the other at its bottom.
#[derive(Clone, Copy)]
pub struct KeptBars {
    /// Of one bar its area. Of two, the lines of the one at the right and the columns of the one at the bottom.
    pub area: Area,
    /// Their colour.
    pub color: Rgb565,
    /// Their opacity.
    pub opa: u8,
    /// How many there are.
    pub shown: ShownBars,
}

/// The lines of one area, and the columns of another.
fn crossed(lines: Area, columns: Area) -> Area
    ensures { rect_of result ≡ crossed (rect_of lines) (rect_of columns) }
{
    Area {
        x1: columns.x1,
        y1: lines.y1,
        x2: columns.x2,
        y2: lines.y2,
    }
}

/// Where the last four pixels of a place begin, cut to the place.
fn last_four(first: i32, last: i32) -> i32
    requires first { IsCoordinate first }
    requires last { IsCoordinate last }
    ensures value { result ≡ int_max first (last -ℤ pos 3) }
    ensures fits { IsCoordinate result }
{
    let from = last - 3;
    if first < from { from } else { first }
}

/// Of the last four columns of a place these lines.
fn right_of(place: Area, lines: Area) -> Area
    ensures { rect_of result ≡ right_of (rect_of place) (rect_of lines) }
{
    Area {
        x1: last_four(place.x1, place.x2),
        y1: lines.y1,
        x2: place.x2,
        y2: lines.y2,
    }
}

/// Of the last four lines of a place these columns.
fn bottom_of(place: Area, columns: Area) -> Area
    ensures { rect_of result ≡ bottom_of (rect_of place) (rect_of columns) }
{
    Area {
        x1: columns.x1,
        y1: last_four(place.y1, place.y2),
        x2: columns.x2,
        y2: place.y2,
    }
}

/// The first bar of what is kept beside a place.
fn first_of(shown: ShownBars, area: Area, place: Option<Area>) -> Option<Area>
    ensures { option_map rect_of result ≡ first_of shown (rect_of area) (option_map rect_of place) }
{
    match shown {
        ShownBars::Nothing => None,
        ShownBars::One => Some(area),
        ShownBars::Two => match place {
            Some(place) => Some(right_of(place, area)),
            None => None,
        },
    }
}

/// The second.
fn second_of(shown: ShownBars, area: Area, place: Option<Area>) -> Option<Area>
    ensures { option_map rect_of result ≡ second_of shown (rect_of area) (option_map rect_of place) }
{
    match shown {
        ShownBars::Nothing => None,
        ShownBars::One => None,
        ShownBars::Two => match place {
            Some(place) => Some(bottom_of(place, area)),
            None => None,
        },
    }
}

/// What is kept of bars.
pub(crate) fn keep(bars: Bars) -> KeptBars
    ensures { packed_in result ≡ narrow (kept_in bars) }
{
    let Bars {
        first,
        second,
        color,
        opa,
    } = bars;
    match (first, second) {
        (None, _) => KeptBars {
            area: Area {
                x1: 0,
                y1: 0,
                x2: 0,
                y2: 0,
            },
            color,
            opa,
            shown: ShownBars::Nothing,
        },
        (Some(bar), None) => KeptBars {
            area: bar,
            color,
            opa,
            shown: ShownBars::One,
        },
        (Some(right), Some(bottom)) => KeptBars {
            area: crossed(right, bottom),
            color,
            opa,
            shown: ShownBars::Two,
        },
    }
}

impl KeptBars {
    /// The bars, if they are kept beside this place.
    pub(crate) fn beside(&self, place: Option<Area>) -> Bars
        ensures { kept_in result ≡ wide (packed_in self.now) (option_map rect_of place) }
    {
        Bars {
            first: first_of(self.shown, self.area, place),
            second: second_of(self.shown, self.area, place),
            color: self.color,
            opa: self.opa,
        }
    }
}
