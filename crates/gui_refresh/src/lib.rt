//! How a picture comes to a panel: what is pending is painted and sent, slice by slice, through two buffers.
//! One may be drawn while the other is in flight.
#![tactic(auto)]

pub mod laws;
mod listed;
mod refresher;
mod spares;

pub use owed_defs::Pumped;
pub use refresher::Refresher;

/// How a refresh ended.
#[derive(Clone, Copy, Debug, PartialEq, Eq)]
pub enum Refreshed {
    /// Nothing is pending, drawn or in flight, and the panel shows the picture.
    Done,
    /// A start or a transfer failed. Its slice is pending again, and what came after it was not sent.
    Fault,
}
