//! Which objects a change marks that leaves them all: those that may stand elsewhere after it.
ghost use Rattle.std.specs.Prelude.{◌≡◌, List, ℕ, true, false};
ghost use Rattle.gui_boxes.specs.Marks.{is_changed, is_marked, most_marks};
ghost use Rattle.gui_store.specs.Views.{scene_of};
ghost use Rattle.gui_change.specs.Marking.{BoxesStay, MarksTell};
ghost use Rattle.gui_concerns.specs.Concerned.{may_be};
ghost use Rattle.gui_concerns.specs.Edits.{is_gone};
ghost use Rattle.gui_concerns.specs.Marking.{AreUnmarked};
ghost use Rattle.gui_concerns.specs.Moving.{moves_nobody};
ghost use Rattle.scene_defs.specs.Scene.{is_there};
ghost use Rattle.gui_concerns.specs.declared.edit.Edit.{Edit};

use gui_boxes::marks::Marks;
use gui_concerns::{Concerned, mark_concerned, moves_nobody};
use gui_store::Store;
use scene_defs::Change;

/// Marks the objects that may stand elsewhere after a change from which none goes: those that it may concern,
/// where layout goes by what it sets.
pub(crate) fn mark_moved(marks: &mut Marks, store: &Store, change: &Change, concerned: Concerned)
    requires none { AreUnmarked marks.old (scene_of store.now).limits.objects }
    ensures tell { (edit : Edit) (removed : List ℕ) → is_gone edit ≡ false →
        MarksTell marks.new (scene_of store.now) edit change.now concerned removed }
    ensures boxes { (edit : Edit) (removed : List ℕ) → is_gone edit ≡ false →
        BoxesStay marks.new (scene_of store.now) edit change.now concerned removed }
    ensures whole { (k : ℕ) → is_marked marks.new k ≡ true → is_changed marks.new k ≡ true }
    ensures all { moves_nobody change.now ≡ false → (k : ℕ) → is_there (scene_of store.now) k ≡ true →
        may_be (scene_of store.now) concerned k ≡ true → is_changed marks.new k ≡ true }
    ensures most { most_marks marks.new ≡ most_marks marks.old }
{
    if moves_nobody(change) {
        return;
    }
    // For the proof alone: `tree` says that the scene is in order.
    let _tree = store.tree();
    mark_concerned(marks, store, concerned);
}
