//! What may be sent to a panel in a run: windows from one done frame to the next, what is owed in each, and
//! why no run sends more. There is no code here: each function does nothing, and its contract is a law.
#![tactic(auto)]

ghost use Rattle.owed_defs.specs.Accounts.{OpensAccounts, ChangeKeepsAccounts, DoneEndsWindow};
ghost use Rattle.owed_defs.specs.Accounts.{FaultKeepsWindow, PumpKeepsWindow};
ghost use Rattle.owed_defs.specs.Runs.{SendsAsOwed, LaterDebtsRaise};
ghost use Rattle.owed_defs.specs.Flights.{FlightsGoOn, FlightsClaim, FlightsClaimOn};
ghost use Rattle.owed_defs.specs.PumpLaws.{OpensObeyed, ChangeObeys, DoneObeys, FaultObeys, PumpObeys, FewMoves};
ghost use Rattle.owed_defs.specs.Examples.{OverflowsAreWorked, WindowsAreWorked, AllowancesAreWorked};
ghost use Rattle.owed_defs.specs.Examples.{PumpStatesAreWorked, PumpsAreWorked, MovesAreWorked, NoFaultIsFirst};

/// What a pump came to.
#[derive(Clone, Copy, Debug, PartialEq, Eq)]
pub enum Pumped {
    /// Nothing was pending, drawn or in flight.
    Idle,
    /// A slice was drawn, was started, or arrived.
    Moved,
    /// A transfer is in flight, and nothing else could be done.
    Waiting,
    /// A start or a transfer failed. Its slice is pending again.
    Fault,
}

/// What was sent and what is pending stays within what is owed: at the opening, after a change, after a frame
/// that was done, after one that faulted, and after a pump.
pub fn accounts_are_kept()
    ensures opened { OpensAccounts }
    ensures changed { ChangeKeepsAccounts }
    ensures done { DoneEndsWindow }
    ensures faulted { FaultKeepsWindow }
    ensures pumped { PumpKeepsWindow }
{}

/// A run sends no more than its windows owe, the whole panel for each time that the list can have overflowed,
/// and a slice and the whole panel for each start or transfer that failed.
pub fn sends_as_owed()
    ensures { SendsAsOwed }
{}

/// Debts that come after what was sent raise what may be sent.
pub fn later_debts_raise()
    ensures { LaterDebtsRaise }
{}

/// Windows that were worked out by hand.
pub fn worked_examples()
    ensures overflows { OverflowsAreWorked }
    ensures windows { WindowsAreWorked }
    ensures allowances { AllowancesAreWorked }
    ensures states { PumpStatesAreWorked }
    ensures pumps { PumpsAreWorked }
    ensures moves { MovesAreWorked }
    ensures faults { NoFaultIsFirst }
{}

/// Each pump of a run answers as the pump state before it allows, and how the machine and its panel stand
/// goes on as the state does. There are at most three moved pumps for each pixel asked for, and one.
pub fn pumps_answer_as_states()
    ensures opened { OpensObeyed }
    ensures changed { ChangeObeys }
    ensures done { DoneObeys }
    ensures faulted { FaultObeys }
    ensures pumped { PumpObeys }
    ensures moves { FewMoves }
{}

/// How the transfers stand goes on over each happening, and so the pumps of a run stay within what was asked
/// of the panel.
pub fn flights_go_on()
    ensures on { FlightsGoOn }
    ensures claim { FlightsClaim }
    ensures claim_on { FlightsClaimOn }
{}
