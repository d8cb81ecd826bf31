//! What an object stands in by itself.
use crate::inside::Inside;
use crate::size::Size;

/// What an object stands in by itself, without a flow.
#[derive(Clone, Copy)]
pub enum Frame {
    /// The panel, which a root fills: its width and its height.
    Panel(Size, Size),
    /// The content area of its parent.
    Content(Inside),
}
