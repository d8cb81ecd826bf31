//! What the changes of scenes do to a store. Each function does nothing: its contract is a law, which is proved.
ghost use Rattle.scene_check.specs.Examples.{TreesAreWorked};
ghost use Rattle.scene_check.specs.Fielded.{LinesAreFielded};
ghost use Rattle.scene_check.specs.Fitting.{ChangesFit};
ghost use Rattle.scene_check.specs.Growing.{HandlesGrow};
ghost use Rattle.scene_check.specs.Ids.{IdsSay};
ghost use Rattle.scene_check.specs.Integers.{IntegersAreShort};
ghost use Rattle.scene_check.specs.Made.{TreesAreMade};
ghost use Rattle.scene_check.specs.Outlines.{ScenesAreOutlined};
ghost use Rattle.scene_check.specs.Own.{OwnWordsSay};
ghost use Rattle.scene_check.specs.Scenes.{ScenesAreMade};
ghost use Rattle.scene_check.specs.Trees.{TreesGrow};

/// The changes of scenes are refused for a full pool alone, if what they name is there.
#[tactic(auto, using(crate::proofs::Fitting::changes_fit))]
pub fn scene_changes_fit()
    ensures { ChangesFit }
{}

/// The changes of scenes keep the handles, or add one that is the last child of its parent.
#[tactic(auto, using(crate::proofs::Growing::handles_grow))]
pub fn scene_changes_grow()
    ensures { HandlesGrow }
{}

/// A line that asks for a change asks for the one that its words say as fields.
#[tactic(auto, using(crate::proofs::Fielded::lines_are_fielded))]
pub fn scene_lines_are_fielded()
    ensures { LinesAreFielded }
{}

/// Changes that name what is there are refused for a full pool alone, and if none is refused, the objects stand
/// as the changes say.
#[tactic(auto, using(crate::proofs::Outlines::scenes_are_outlined))]
pub fn scenes_are_outlined()
    ensures { ScenesAreOutlined }
{}

/// Trees grow as they are wanted below an object that is there, if none of theirs is made twice or too deep.
#[tactic(auto, using(crate::proofs::Trees::trees_grow))]
pub fn wanted_trees_grow()
    ensures { TreesGrow }
{}

/// The changes that make trees on a store as opened are refused for a full pool alone, and if none is refused,
/// the children of the first screen are these trees.
#[tactic(auto, using(crate::proofs::Made::trees_are_made))]
pub fn wanted_trees_are_made()
    ensures { TreesAreMade }
{}

/// The changes that the lines of a scene in JSON ask for are those that make its trees. On a store as opened a
/// full pool alone refuses them. If none is refused, the trees of the scene are what stands on the first
/// screen.
#[tactic(auto, using(crate::proofs::Scenes::scenes_are_made))]
pub fn scene_lines_make_trees()
    ensures { ScenesAreMade }
{}

/// The trees of a scene that was worked out by hand.
#[tactic(auto, using(crate::proofs::Worked::trees_are_worked))]
pub fn worked_trees()
    ensures { TreesAreWorked }
{}

/// The integers of what is read of JSON fit 64 bits.
#[tactic(auto, using(crate::proofs::Integers::integers_are_short))]
pub fn integers_are_short()
    ensures { IntegersAreShort }
{}

/// The number of an object, as it is printed, says the handle that it is.
#[tactic(auto, using(crate::proofs::Ids::ids_say))]
pub fn printed_ids_say()
    ensures { IdsSay }
{}

/// A kind that has a text by its word has one, and a font that is taken is the built-in one.
#[tactic(auto, using(crate::proofs::Own::own_words_say))]
pub fn own_words_say()
    ensures { OwnWordsSay }
{}
