//! How far a mark goes.

/// How far the mark of an object goes.
#[derive(Clone, Copy, Drop)]
pub enum Mark {
    /// Anything may have changed.
    All,
    /// Its list of children alone may be another.
    Children,
    /// So it is, and the object's place may go by them.
    Raised,
    /// What it concerns is settled.
    Settled,
}
