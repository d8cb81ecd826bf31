//! Objects whose place does not go by what stands in them.
ghost use Rattle.std.specs.Prelude.{◌≡◌, ℕ, true};
ghost use Rattle.gui_boxes.specs.Frames.{StandsNearby};
ghost use Rattle.gui_boxes.specs.Settled.{is_content, is_free, is_steady, IsSteady};
ghost use Rattle.gui_boxes.specs.Slots.{slot_of};
ghost use Rattle.gui_boxes.specs.Views.{box_of};

use crate::boxes::course_of;
use crate::layout_box::LayoutBox;
use crate::position::Position;
use gui_base::Length;
use layout_defs::Course;

/// How far from the panel's corner an object may stand so that trees of any height have room in it.
const NEARBY: i32 = 8_000_000;

/// Whether a size is that of the content.
fn is_content(size: Length) -> bool
    ensures { result ≡ is_content size }
{
    matches!(size, Length::Content)
}

/// Whether children stand by themselves.
fn is_free(course: Course) -> bool
    ensures { result ≡ is_free course }
{
    matches!(course, Course::Free)
}

/// Whether the natural sizes of an object do not go by its children, which stand by themselves and are not moved.
pub fn is_steady(own: &LayoutBox) -> bool
    ensures value { (h : ℕ) → result ≡ is_steady (box_of h own.now) }
    ensures steady { result ≡ true → (h : ℕ) → IsSteady (box_of h own.now) }
{
    is_free(course_of(own.flow))
        && (!own.scrollable && (!is_content(own.across.size) && !is_content(own.down.size)))
}

/// Whether trees of any height have room in an object that stands there.
pub fn is_nearby(position: Position) -> bool
    ensures near { result ≡ true → StandsNearby (slot_of position) }
    ensures far { StandsNearby (slot_of position) → result ≡ true }
{
    (-NEARBY <= position.x && position.x <= NEARBY)
        && (-NEARBY <= position.y && position.y <= NEARBY)
}
