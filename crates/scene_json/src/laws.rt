//! What follows from the definitions. Each function does nothing: its contract is a law, which is proved.
ghost use Rattle.scene_json.specs.Asked.{LinesAsk};
ghost use Rattle.scene_json.specs.Examples.{ScenesAreWorked};

/// Scenes that were worked out by hand.
#[tactic(auto, using(crate::proofs::Worked::scenes_are_worked))]
pub fn worked_scenes()
    ensures { ScenesAreWorked }
{}

/// Each line of the text of a scene asks for a change of the scene, which a store may be asked for.
#[tactic(auto, using(crate::proofs::Asking::lines_ask))]
pub fn scene_lines_ask()
    ensures { LinesAsk }
{}
