//! Which object hides all that lies below it in an area, and how many steps painting from there on may take.
//! There is no code here: each function does nothing, and its contract is a law.
#![tactic(auto)]

ghost use Rattle.cover_defs.specs.Examples.{CoversAreWorked, StepsAreWorked};
ghost use Rattle.cover_defs.specs.Laws.{OpaqueFrom252, CoverHidesAll, EachIsCounted};
ghost use Rattle.cover_defs.specs.Laws.{RememberedIsLast, WaitedIsUncovered};

/// What lies below a cover is not seen: painting it and what comes after it, over black, gives each pixel of
/// the area its paint.
pub fn covers_hide_what_is_below()
    ensures opaque { OpaqueFrom252 }
    ensures hides { CoverHidesAll }
{}

/// What is shown is there: no more objects, and no more characters in their texts.
pub fn what_is_shown_is_counted()
    ensures { EachIsCounted }
{}

/// A walk that remembers the last cover finds it, and one that waits for it meets what is not covered.
pub fn walks_begin_at_covers()
    ensures remembered { RememberedIsLast }
    ensures waited { WaitedIsUncovered }
{}

/// Covers and steps that were worked out by hand.
pub fn worked_examples()
    ensures covers { CoversAreWorked }
    ensures steps { StepsAreWorked }
{}
