//! What follows from the definitions. Each function does nothing: its contract is a law, which is proved.
ghost use Rattle.scene_defs.specs.Laws.{ChangeKeepsLimits, RefusedChangesNothing, RangeComesFirst};
ghost use Rattle.scene_defs.specs.Finished.{FontsStay, ImagesStay, FontsOfTextsAreFinished};
ghost use Rattle.scene_defs.specs.Laws.{FullWithoutRoom, DoneWithRoom, RefusedWhateverLimits};
ghost use Rattle.scene_defs.specs.Laws.{SetsRowAlone, SlotsAddUp};
ghost use Rattle.scene_defs.specs.Valid.{FirstIsValid, ChangeKeepsValid, ValidIsShowable};
ghost use Rattle.scene_defs.specs.Values.{ValuesInRange};
ghost use Rattle.scene_defs.specs.Walk.{ShownByWalk, NothingBelowNothing, WalkedInside, ShownInside};

/// A change leaves the limits.
#[tactic(auto, using(crate::proofs::Changes::change_keeps_limits))]
pub fn change_keeps_limits()
    ensures { ChangeKeepsLimits }
{}

/// A refused change leaves the scene, and a number outside its interval is refused before all else.
#[tactic(auto, using(crate::proofs::Changes::refusals))]
pub fn refusals_change_nothing()
    ensures nothing { RefusedChangesNothing }
    ensures range { RangeComesFirst }
{}

/// A change is refused for a full pool if it needs more slots than are free. All other refusals come before,
/// and do not look at the limits.
pub fn full_by_count()
    ensures without_room { FullWithoutRoom }
    ensures with_room { DoneWithRoom }
    ensures others { RefusedWhateverLimits }
{}

/// A change takes from each pool the slots that it needs, and gives back those that it frees.
#[tactic(auto, using(crate::proofs::Validity::slots_add_up))]
pub fn slots_add_up()
    ensures { SlotsAddUp }
{}

/// A change that sets the row of an object does nothing else.
#[tactic(auto, using(crate::proofs::Changes::sets_row_alone))]
pub fn setters_set_one_row()
    ensures { SetsRowAlone }
{}

/// The value of a property lies in its interval.
pub fn values_are_in_range()
    ensures { ValuesInRange }
{}

/// One walk down the trees meets what is shown, in its order, and goes no further if nothing is seen.
#[tactic(auto, using(crate::proofs::Walks::shown_by_walk, crate::proofs::Walks::nothing_below_nothing))]
pub fn shown_by_walk()
    ensures same { ShownByWalk }
    ensures nothing { NothingBelowNothing }
{}

/// What is shown lies inside the panel, and what a walk meets inside its clip.
#[tactic(auto, using(crate::proofs::Walks::shown_inside, crate::proofs::Walks::walked_inside))]
pub fn shown_inside()
    ensures shown { ShownInside }
    ensures walked { WalkedInside }
{}

/// The first scene is in order, a change keeps a scene so, and one walk meets what is shown of it.
pub fn scenes_are_valid()
    ensures first { FirstIsValid }
    ensures changed { ChangeKeepsValid }
    ensures showable { ValidIsShowable }
{}

/// A finished font, and an image that has all its rows, stay as they are.
pub fn finished_stays()
    ensures fonts { FontsStay }
    ensures images { ImagesStay }
{}

/// The font that a text names is finished.
#[tactic(auto, using(crate::proofs::Ready::fonts_of_texts))]
pub fn fonts_of_texts_are_finished()
    ensures { FontsOfTextsAreFinished }
{}
