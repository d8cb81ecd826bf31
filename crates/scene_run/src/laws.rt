//! What follows from the clause of a run. The function does nothing: its contract is a law, which is proved.
ghost use Rattle.scene_run.specs.Laws.{RunsAreComplete};

/// Suppose the words have limits, the script is not too long and no count of faults rose. Then a run comes to
/// the end of its script, but for want of memory. Each frame is done, and the status is `Done` exactly if
/// nothing was refused.
pub fn runs_are_complete()
    ensures { RunsAreComplete }
{}
