//! From what places may be settled. The function does nothing: its contract is a law, which is proved.
ghost use Rattle.gui_layout.specs.Laws.{DifferingMaySettle, SettledMaySettle, UnmarkedMaySettle};

/// What [`Places::settle`](crate::Places::settle) asks of places follows from what its caller can know: a scene
/// differs from the store's in what is marked alone, and the objects of the marked trees were solved for it, their
/// kept boxes among that; or all were; or nothing is marked.
pub fn marked_trees_may_be_settled()
    ensures differing { DifferingMaySettle }
    ensures settled { SettledMaySettle }
    ensures unmarked { UnmarkedMaySettle }
{}
