//! What is shown of a scene.
ghost use Rattle.gui_store.specs.Views.{scene_of};
ghost use Rattle.gui_layout.specs.Solved.{AreReached, AreSolved};

use gui_layout::Places;
use gui_store::Store;

/// The picture of a scene: the active screen, and the two layers over it.
#[derive(Clone, Copy)]
pub struct Shown<'a> {
    pub store: &'a Store,
    /// The places of its objects, solved for this store.
    pub places: &'a Places,
    ghost solved: { AreSolved places.now (scene_of store.now) },
    ghost reached: { AreReached places.now (scene_of store.now) },
}
