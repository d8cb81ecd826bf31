//! What follows from the definitions. Each function does nothing: its contract is a law, which is proved.
ghost use Rattle.widget_defs.specs.Laws.{SharesFollowValues, KnobsStayInside, CheckboxTextsStayWhole, BarsFollowOffsets};
ghost use Rattle.widget_defs.specs.Reference.{ReferenceBars, ReferenceItems, ReferenceSizes};
ghost use Rattle.widget_defs.specs.Examples.{ItemsAreWorked, BarsAreWorked, SizesAreWorked, KindsAreThese};

/// The filled share of a bar is empty at the least value and whole at the greatest. A greater value never fills
/// less.
pub fn shares_follow_values()
    ensures { SharesFollowValues }
{}

/// The knob of a slider lies inside its content area, whatever the value.
pub fn knobs_stay_inside()
    ensures { KnobsStayInside }
{}

/// The bars of a scrollable object lie in its place, along its right edge and its bottom. Each begins at the
/// first line if the children are not moved, ends at the last one if they are moved as far as they reach, and
/// never goes back if they are moved further.
pub fn bars_follow_offsets()
    ensures { BarsFollowOffsets }
{}

/// The text of a checkbox is broken at newlines alone.
pub fn checkbox_texts_stay_whole()
    ensures { CheckboxTextsStayWhole }
{}

/// What each kind is, row by row.
pub fn kinds_are_these()
    ensures { KindsAreThese }
{}

/// Items and sizes that were worked out by hand.
pub fn worked_examples()
    ensures items { ItemsAreWorked }
    ensures bars { BarsAreWorked }
    ensures sizes { SizesAreWorked }
{}

/// Seventy-five objects have the items that a reference implementation gives, twenty the bars, and thirty the own sizes.
pub fn reference_items()
    ensures items { ReferenceItems }
    ensures bars { ReferenceBars }
    ensures sizes { ReferenceSizes }
{}
