//! How large children are together along an axis.
ghost use Rattle.std.specs.Prelude.{◌≡◌, ◌≤◌, ◌<◌, ◌+◌, ℕ, if◌then◌else◌, ◌==◌};
ghost use Rattle.layout_defs.specs.Boxes.{inset};
ghost use Rattle.layout_defs.specs.Solving.{reach, natural_size};
ghost use Rattle.gui_boxes.specs.Views.{axis_of, box_of};
ghost use Rattle.gui_boxes.specs.Totals.{total_of, run_across, run_down, with_kid, with_gaps};

use crate::axis::Axis;
use crate::layout_box::LayoutBox;
use crate::total::Total;
use gui_base::Length;
use layout_defs::{Course, Side};

/// How the flow of an object runs, as one of its axes sees it.
#[derive(Clone, Copy)]
pub enum Run {
    /// There is none: children stand by themselves.
    Apart,
    /// Along the axis: children stand behind one another.
    Along,
    /// Across the axis: children stand side by side.
    Crossing,
}

/// How a flow runs, as the axis across sees it.
pub fn run_across(course: Course) -> Run
    ensures { result ≡ run_across course }
{
    match course {
        Course::Free => Run::Apart,
        Course::Across => Run::Along,
        Course::Down => Run::Crossing,
    }
}

/// How a flow runs, as the axis down sees it.
pub fn run_down(course: Course) -> Run
    ensures { result ≡ run_down course }
{
    match course {
        Course::Free => Run::Apart,
        Course::Across => Run::Crossing,
        Course::Down => Run::Along,
    }
}

/// No children.
pub fn no_kids() -> Total
    ensures { total_of result ≡ record { size = 0; count = 0 } }
{
    Total { size: 0, count: 0 }
}

/// How far a child reaches from its parent's near side, without flex.
fn reach(axis: &Axis, natural: u16) -> u32
    ensures value { result ≡ reach axis.now.side axis.now.wanted natural }
    ensures small { result ≤ 70000 }
{
    match axis.side {
        Side::Near => (i32::from(natural) + i32::from(axis.wanted)).max(0) as u32,
        _ => u32::from(natural),
    }
}

/// A child's natural size in a sum along the flow.
fn flowing(grow: u8, natural: u16) -> u32
    ensures value { result ≡ (if grow == 0 then natural else 0) }
    ensures small { result ≤ 65535 }
{
    if grow > 0 { 0 } else { u32::from(natural) }
}

/// The natural size of a parent after one more child, which its box and its axis give. A hidden child takes no
/// part.
pub fn with_kid(total: Total, run: Run, kid: &LayoutBox, axis: &Axis, natural: u16) -> Total
    requires count { total.count < 4000 }
    ensures value { (h : ℕ) → total_of result ≡ with_kid run (total_of total)
        (record { box = box_of h kid.now; axis = axis_of axis.now; natural = natural }) }
    ensures count { result.count ≤ total.count + 1 }
{
    if kid.hidden {
        return total;
    }
    let size = match run {
        Run::Apart => total.size.max(reach(axis, natural)),
        Run::Along => total.size + flowing(kid.grow, natural),
        Run::Crossing => total.size.max(u32::from(natural)),
    };
    Total {
        size,
        count: total.count + 1,
    }
}

/// How large children are together that are so large, with the gaps between them where they stand behind one
/// another.
pub fn with_gaps(total: Total, run: Run, gap: u16) -> u32
    requires gap { gap ≤ 1000 }
    ensures value { result ≡ with_gaps run gap (total_of total) }
    ensures small { result ≤ 500000000 }
{
    match run {
        Run::Along => total.size + u32::from(gap) * total.count.saturating_sub(1),
        _ => total.size,
    }
}

/// The natural size along an axis of an object with so much inside its insets.
pub fn natural_size(axis: &Axis, inside: u32) -> u16
    requires inside { inside ≤ 1000000000 }
    ensures value { result ≡ natural_size axis.now.size (inset (axis_of axis.now)) inside }
    ensures small { result ≤ 8191 }
{
    let border = u32::from(axis.before) + u32::from(axis.after);
    match axis.size {
        Length::Pixels(n) => n.min(8191),
        Length::Percent(_) => 0,
        Length::Content => (border + inside).min(8191) as u16,
    }
}
