//! What a change of a scene owes: the areas that are to be painted anew, and why no other pixel changes.
//! The only code is what code and definitions share, what a change is about, and laws: each function does
//! nothing, and its contract is proved.
#![tactic(auto)]

ghost use Rattle.debt_defs.specs.Concerns.{OthersAreSame, OthersLookSame};
ghost use Rattle.debt_defs.specs.Examples.{DebtsAreWorked, ConcernsAreWorked, ScrollingIsWorked};
ghost use Rattle.debt_defs.specs.Frame.{FrameOfLooks};
ghost use Rattle.debt_defs.specs.Laws.{FrameOfScenes, PaintedByLook, RefusedOwesNothing, DebtWithinPanel};
ghost use Rattle.debt_defs.specs.Laws.{DebtIsRound};
ghost use Rattle.debt_defs.specs.Orders.{OthersKeepOrder, SettersKeepOrder, SeenInsideAbove};
ghost use Rattle.debt_defs.specs.TooLittle.{TooLittleIsOwed};
ghost use Rattle.widget_defs.specs.Items.{Item};

mod subject;

pub use subject::{Reach, Subject};

/// A pixel keeps its paint if no area of a change's debt has it. It holds for any look of scenes whose objects
/// keep their order but for what is seen inside the named one.
pub fn debt_holds_all_that_changes()
    ensures scenes { FrameOfScenes }
    ensures looks { FrameOfLooks Item }
    ensures painted { PaintedByLook }
{}

/// What a change neither names nor moves along with it keeps its order in the paint. If a change leaves the
/// trees, all does. An object is seen only inside of what is seen of those above it.
pub fn others_keep_their_order()
    ensures others { OthersKeepOrder }
    ensures setters { SettersKeepOrder }
    ensures inside { SeenInsideAbove }
{}

/// A refused change owes nothing. Each area of a debt has a pixel, lies in the panel, and consists of whole
/// blocks.
pub fn debts_lie_in_the_panel()
    ensures refused { RefusedOwesNothing }
    ensures within { DebtWithinPanel }
    ensures blocks { DebtIsRound }
{}

/// Debts, and what changes concern, worked out by hand.
pub fn worked_examples()
    ensures debts { DebtsAreWorked }
    ensures concerned { ConcernsAreWorked }
    ensures scrolling { ScrollingIsWorked }
{}

/// Why no part of a debt may be left out. Each of these lesser debts would miss a pixel that a change paints:
/// the new places alone, the named object alone, one user of a style, and the objects that differ alone.
pub fn less_is_too_little()
    ensures { TooLittleIsOwed }
{}

/// What a change does not concern is the same after it: its row, its text, its children, and all values of
/// its properties. So are the items that it shows in the same place, and only what a change concerns has to
/// be looked at again.
pub fn others_stay_the_same()
    ensures same { OthersAreSame }
    ensures looks { OthersLookSame }
{}
