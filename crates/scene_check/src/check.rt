//! Changes one after another, up to the first that is refused.
ghost use Rattle.gui_base.specs.Refusing.{result_of};
ghost use Rattle.gui_store.specs.Views.{scene_of};
ghost use Rattle.scene_check.specs.Checking.{after_one, changed_by_all, refusal_of, refusal_of_all};
ghost use Rattle.scene_check.specs.Scenes.{MakesScenes};
ghost use Rattle.scene_defs.specs.Valid.{IsChange};
ghost use Rattle.std.specs.Prelude.{◌≡◌, All};

use gui_base::Refusal;
use gui_store::{Change, Store};

/// Does the changes in order, up to the first refusal. Suppose the store is as it was opened, and the changes
/// are those of a scene in JSON. Then only a full pool refuses one, and if none is refused, the trees of the
/// scene stand on the first screen.
#[tactic(auto, using(crate::proofs::Scenes::makes_scenes))]
pub fn check_scene(lines: &[Change], store: &mut Store) -> Result<(), Refusal>
    requires { All IsChange lines.now }
    ensures answer { result ≡ result_of (refusal_of_all (scene_of store.old) lines.now) }
    ensures after { scene_of store.new ≡ changed_by_all (scene_of store.old) lines.now }
    ensures scenes { MakesScenes (scene_of store.old) lines.now result (scene_of store.new) }
{
    apply_all(lines, store)
}

/// Does the changes in order, up to the first refusal.
fn apply_all(lines: &[Change], store: &mut Store) -> Result<(), Refusal>
    requires { All IsChange lines.now }
    ensures answer { result ≡ result_of (refusal_of_all (scene_of store.old) lines.now) }
    ensures after { scene_of store.new ≡ changed_by_all (scene_of store.old) lines.now }
{
    for change in lines {
        apply(change, store)?;
    }
    Ok(())
}

/// Does one change.
#[tactic(auto, unfolding(crate::specs::Checking::refusal_of, crate::specs::Checking::after_one))]
fn apply(change: &Change, store: &mut Store) -> Result<(), Refusal>
    requires { IsChange change.now }
    ensures answer { result ≡ result_of (refusal_of (scene_of store.old) change.now) }
    ensures after { scene_of store.new ≡ after_one (scene_of store.old) change.now }
{
    store.apply(change)
}
