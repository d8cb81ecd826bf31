//! What follows from the definitions. Each function does nothing: its contract is a law, which is proved.
ghost use Rattle.style_defs.specs.Laws.{WinnerIsGreatest, NoneWinsOfNone};
ghost use Rattle.style_defs.specs.Laws.{SetWins, NothingAbove, FromAbove, ValuesInRange};
ghost use Rattle.style_defs.specs.Examples.{CascadesAreWorked, ValuesAreWorked};

/// What wins is the greatest of all that applies: by its states, then local over shared, then by its place.
/// Nothing wins exactly if nothing applies.
pub fn winner_is_greatest()
    ensures winner { WinnerIsGreatest }
    ensures none { NoneWinsOfNone }
{}

/// What wins for a part is its value. Only an inherited property depends on what stands above.
pub fn nearest_value_holds()
    ensures set { SetWins }
    ensures apart { NothingAbove }
    ensures inherited { FromAbove }
{}

/// If each value that is set is one of its property's, the value of a property is.
pub fn values_in_range()
    ensures { ValuesInRange }
{}

/// Cascades and values that were worked out by hand.
pub fn worked_examples()
    ensures cascades { CascadesAreWorked }
    ensures values { ValuesAreWorked }
{}
