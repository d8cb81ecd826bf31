//! What follows from the definitions. Each function does nothing: its contract is a law, which is proved.
ghost use Rattle.play_defs.specs.Examples.{AnimationsAreWorked, PressesAreWorked, KeysAreWorked};
ghost use Rattle.play_defs.specs.Examples.{PushesAreWorked, FocusIsWorked, HandlersAreWorked};
ghost use Rattle.play_defs.specs.Laws.{ValuesLieBetween};

/// Every value of an animation lies between its ends.
pub fn values_lie_between()
    ensures { ValuesLieBetween }
{}

/// Values, presses, keys and focus that were worked out by hand.
#[tactic(auto, unfolding(crate::specs::Animation::in_round))]
pub fn worked_examples()
    ensures animations { AnimationsAreWorked }
    ensures presses { PressesAreWorked }
    ensures keys { KeysAreWorked }
    ensures pushes { PushesAreWorked }
    ensures focus { FocusIsWorked }
    ensures handlers { HandlersAreWorked }
{}
