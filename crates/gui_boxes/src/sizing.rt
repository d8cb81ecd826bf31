//! What items have of children.
use layout_defs::Course;

/// What the items of a flow have of its children.
#[derive(Clone, Copy)]
pub enum Sizing {
    /// Their own widths, in a content area so wide.
    Widths(u16),
    /// Their widths, and their natural heights.
    Naturals,
    /// Their sizes in a flow that runs so, in a content area so high.
    Sizes(Course, u16),
}
