//! Laws of a run: what goes on holding as the rules of the machine are played, and what its lines owe. They owe
//! the areas of its commands, the windows between its done frames, and what may be sent for them. There is no
//! code here: each function does nothing, and its contract is a law.
#![tactic(auto)]

ghost use Rattle.run_laws.specs.Accounts.{RunOpens, LineKeepsAccount, AccountBounds};
ghost use Rattle.run_laws.specs.Animated.{FirstAnimatedAreThere, StepsKeepAnimated};
ghost use Rattle.run_laws.specs.Debts.{CommandWithinPanel, RefusedOwesNothing, OwedHoldsAllThatChanges};
ghost use Rattle.run_laws.specs.Examples.{WindowsAreWorked, PumpsAreWorked};
ghost use Rattle.run_laws.specs.Held.{FirstAreHeld, StepsKeepHeld};
ghost use Rattle.run_laws.specs.Keeping.{ActKeepsHandlers, DeleteRemovesAllBelow, StepsKeepScenesValid};
ghost use Rattle.run_laws.specs.Keeping.{AnimatingRunsOn};
ghost use Rattle.run_laws.specs.Members.{FirstAreJoined, StepsKeepMembers, OneMoreFits};
ghost use Rattle.run_laws.specs.Pools.{FirstFitsPools, StepsKeepPools};
ghost use Rattle.run_laws.specs.Pumping.{LineKeepsFlight, FlightsBound};
ghost use Rattle.run_laws.specs.Telling.{EventsTellOfTheirPaths};

/// An object that is still there after an action of its own has its handlers, so that the next of them runs.
#[tactic(auto, using(crate::proofs::Keeps::act_keeps))]
pub fn actions_keep_handlers()
    ensures { ActKeepsHandlers }
{}

/// What an event writes into the log: lines that tell of it and of an object on its path, and of actions that
/// were refused.
#[tactic(auto, using(crate::proofs::Telling::events_tell))]
pub fn events_tell_of_their_paths()
    ensures { EventsTellOfTheirPaths }
{}

/// What a delete removes, in a scene that is in order.
#[tactic(auto, using(crate::proofs::Scenes::removes_all_below))]
pub fn deletes_remove_all_below()
    ensures { DeleteRemovesAllBelow }
{}

/// A command leaves a scene in order.
pub fn steps_keep_scenes_valid()
    ensures { StepsKeepScenesValid }
{}

/// Each member of a group is there, in one group only, and there is room for each object that is in none.
pub fn members_are_there()
    ensures first { FirstAreJoined }
    ensures step { StepsKeepMembers }
    ensures room { OneMoreFits }
{}

/// The object that has the focus of a group is a member of it. What is held on a device, what a drag scrolls, and
/// each object with handlers is there: a deletion lets go of all that it removes.
pub fn held_objects_are_there()
    ensures first { FirstAreHeld }
    ensures step { StepsKeepHeld }
{}

/// What animations give their objects leaves the animations and the time as they are.
#[tactic(auto, using(crate::proofs::Animated::animating_runs_on))]
pub fn animating_runs_on()
    ensures { AnimatingRunsOn }
{}

/// An animation runs only for an object that is there: a deletion ends those of all that it removes.
pub fn animated_are_there()
    ensures first { FirstAnimatedAreThere }
    ensures step { StepsKeepAnimated }
{}

/// No pool of a machine is over its count: the handlers, the groups and the animations are at most as many as
/// their slots.
pub fn machines_fit_their_pools()
    ensures first { FirstFitsPools }
    ensures step { StepsKeepPools }
{}

/// If the panel consists of whole blocks, what a command owes lies in it. A refused one owes nothing. A pixel
/// that a command does not owe keeps its paint.
pub fn commands_owe_what_they_change()
    ensures within { CommandWithinPanel }
    ensures refused { RefusedOwesNothing }
    ensures frame { OwedHoldsAllThatChanges }
{}

/// What was sent and what is pending stays within what the lines owe: before the first line, and over each line
/// that lists what it owes, or sends what is pending. So no more was sent than may be, also if further lines
/// were not reached.
pub fn runs_are_accounted()
    ensures opens { RunOpens }
    ensures line { LineKeepsAccount }
    ensures bound { AccountBounds }
{}

/// The windows of a run that were worked out by hand.
pub fn worked_examples()
    ensures windows { WindowsAreWorked }
    ensures pumps { PumpsAreWorked }
{}

/// The pumps of a run answer as what its lines owe allows, over each line, and so also if further lines were
/// not reached.
pub fn pumps_are_accounted()
    ensures line { LineKeepsFlight }
    ensures bound { FlightsBound }
{}
