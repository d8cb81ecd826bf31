//! Boxes.
ghost use Rattle.std.specs.Prelude.{◌≡◌, ℕ};
ghost use Rattle.gui_boxes.specs.Views.{box_of, no_box};
ghost use Rattle.layout_defs.specs.Boxes.{course_of, side_across, side_down, wraps, is_reversed};

use crate::axis::Axis;
use crate::layout_box::LayoutBox;
use gui_base::Length;
use gui_base::words::{Align, Flow, Placing};
use gui_flex::FlexPlaces;
use layout_defs::{Course, Side};

/// What an object of no size wants in one direction.
const NO_AXIS: Axis = Axis {
    size: Length::Pixels(0),
    wanted: 0,
    before: 0,
    after: 0,
    gap: 0,
    side: Side::Near,
    scroll: 0,
};

/// A box of no size.
pub fn empty_box() -> LayoutBox
    ensures { (h : ℕ) → box_of h result ≡ no_box h }
{
    LayoutBox {
        across: NO_AXIS,
        down: NO_AXIS,
        own_width: 0,
        own_height: 0,
        hidden: false,
        flow: Flow::Free,
        places: FlexPlaces {
            main: Placing::Start,
            cross: Placing::Start,
            track: Placing::Start,
        },
        grow: 0,
        scrollable: false,
    }
}

/// The direction in which a flow runs.
pub fn course_of(flow: Flow) -> Course
    ensures { result ≡ course_of flow }
{
    match flow {
        Flow::Free => Course::Free,
        Flow::Row | Flow::RowWrap | Flow::RowReverse | Flow::RowWrapReverse => Course::Across,
        Flow::Column | Flow::ColumnWrap | Flow::ColumnReverse | Flow::ColumnWrapReverse => {
            Course::Down
        }
    }
}

/// The side that an alignment means across.
pub fn side_across(align: Align) -> Side
    ensures { result ≡ side_across align }
{
    match align {
        Align::TopLeft | Align::LeftMid | Align::BottomLeft => Side::Near,
        Align::TopMid | Align::Center | Align::BottomMid => Side::Middle,
        Align::TopRight | Align::RightMid | Align::BottomRight => Side::Far,
    }
}

/// Whether a flow goes on in another track where one is full.
pub fn wraps(flow: Flow) -> bool
    ensures { result ≡ wraps flow }
{
    matches!(
        flow,
        Flow::RowWrap | Flow::ColumnWrap | Flow::RowWrapReverse | Flow::ColumnWrapReverse
    )
}

/// Whether a flow takes the children from the last to the first.
pub fn is_reversed(flow: Flow) -> bool
    ensures { result ≡ is_reversed flow }
{
    matches!(
        flow,
        Flow::RowReverse | Flow::ColumnReverse | Flow::RowWrapReverse | Flow::ColumnWrapReverse
    )
}

/// The side that an alignment means down.
pub fn side_down(align: Align) -> Side
    ensures { result ≡ side_down align }
{
    match align {
        Align::TopLeft | Align::TopMid | Align::TopRight => Side::Near,
        Align::LeftMid | Align::Center | Align::RightMid => Side::Middle,
        Align::BottomLeft | Align::BottomMid | Align::BottomRight => Side::Far,
    }
}
