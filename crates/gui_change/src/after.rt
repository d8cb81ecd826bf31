//! A scene after a change.
ghost use Rattle.gui_layout.specs.Solved.{AreReached, AreSolved};
ghost use Rattle.gui_store.specs.Views.{scene_of};

use gui_concerns::Concerned;
use gui_layout::Places;
use gui_store::Store;

/// A scene after a change, with its places.
#[derive(Clone, Copy)]
pub(crate) struct After<'a> {
    pub(crate) store: &'a Store,
    /// The places of its objects, solved for this store.
    pub(crate) places: &'a Places,
    /// Those that the change may concern.
    pub(crate) concerned: Concerned,
    /// Of these those that may paint something else where they stand. What is known of others may be kept.
    pub(crate) painted: Concerned,
    ghost solved: { AreSolved places.now (scene_of store.now) },
    ghost reached: { AreReached places.now (scene_of store.now) },
}
