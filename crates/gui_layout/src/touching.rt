//! Objects that the passes are to visit.
ghost use Rattle.std.specs.Prelude.{◌≡◌, ◌<◌, ℕ, Bool, true, false};
ghost use Rattle.gui_boxes.specs.Listing.{times};
ghost use Rattle.gui_base.specs.Forest.{StandsOnce, has};
ghost use Rattle.gui_boxes.specs.Frames.{Encloses};
ghost use Rattle.gui_boxes.specs.Layouts.{ButTold, ButTouched};
ghost use Rattle.gui_boxes.specs.Tables.{IsListed, listing_of, told};
ghost use Rattle.gui_boxes.specs.Touched.{IsAtRest, is_touched};
ghost use Rattle.gui_layout.specs.Calm.{IsClosedBut, IsClosedUp, StandsOver, is_up};

use gui_base::Handle;
use gui_boxes::entry::Entry;
use gui_boxes::tables::{is_touched, let_rest, touch};
use gui_pool::Table;
use gui_tree::Tree;

/// Touches an object and all above it, up to the first that is touched already: those above that are, where all was
/// closed upward but for this one.
pub(crate) fn touch_up(tree: &Tree, entries: &mut Table<Entry>, h: Handle)
    requires once { StandsOnce tree.now.forest }
    requires there { has tree.now.forest h.0 ≡ true }
    requires listed { (k : ℕ) → Encloses tree.now.forest k h.0 → has tree.now.forest k ≡ true →
        IsListed (listing_of entries.old) k }
    ensures closed { (s : ℕ → Bool) → IsClosedBut tree.now.forest s (is_touched (told entries.old)) h.0 →
        IsClosedUp tree.now.forest s (is_touched (told entries.new)) }
    ensures own { is_touched (told entries.new) h.0 ≡ true }
    ensures more { (k : ℕ) → is_touched (told entries.old) k ≡ true →
        is_touched (told entries.new) k ≡ true }
    ensures above { (k : ℕ) → is_touched (told entries.old) k ≡ false →
        is_touched (told entries.new) k ≡ true → is_up tree.now.forest k h.0 ≡ true }
    ensures rest { ButTouched (told entries.old) (told entries.new) }
    ensures listed { listing_of entries.new ≡ listing_of entries.old }
{
    if is_touched(entries, h) {
        return;
    }
    touch(entries, h);
    if let Some(parent) = tree.parent(h) {
        touch_up(tree, entries, parent);
    }
}

/// Touches an object and all above it, if it is there.
fn touch_there(tree: &Tree, entries: &mut Table<Entry>, h: Handle)
    requires once { StandsOnce tree.now.forest }
    requires listed { has tree.now.forest h.0 ≡ true → (k : ℕ) → Encloses tree.now.forest k h.0 →
        has tree.now.forest k ≡ true → IsListed (listing_of entries.old) k }
    ensures closed { (s : ℕ → Bool) → IsClosedUp tree.now.forest s (is_touched (told entries.old)) →
        IsClosedUp tree.now.forest s (is_touched (told entries.new)) }
    ensures own { has tree.now.forest h.0 ≡ true → is_touched (told entries.new) h.0 ≡ true }
    ensures more { (k : ℕ) → is_touched (told entries.old) k ≡ true →
        is_touched (told entries.new) k ≡ true }
    ensures there { (k : ℕ) → is_touched (told entries.old) k ≡ false →
        is_touched (told entries.new) k ≡ true → has tree.now.forest h.0 ≡ true }
    ensures above { (k : ℕ) → is_touched (told entries.old) k ≡ false →
        is_touched (told entries.new) k ≡ true → is_up tree.now.forest k h.0 ≡ true }
    ensures rest { ButTouched (told entries.old) (told entries.new) }
    ensures listed { listing_of entries.new ≡ listing_of entries.old }
{
    if tree.has(h) {
        touch_up(tree, entries, h);
    }
}

/// Touches the marked objects that are there, and all above them.
pub(crate) fn touch_marked(tree: &Tree, entries: &mut Table<Entry>, marked: &[Handle])
    requires once { StandsOnce tree.now.forest }
    requires listed { (h : ℕ) → 0 < times marked.now h → has tree.now.forest h ≡ true → (k : ℕ) →
        Encloses tree.now.forest k h → has tree.now.forest k ≡ true → IsListed (listing_of entries.old) k }
    ensures closed { (s : ℕ → Bool) → IsClosedUp tree.now.forest s (is_touched (told entries.old)) →
        IsClosedUp tree.now.forest s (is_touched (told entries.new)) }
    ensures own { (h : ℕ) → 0 < times marked.now h → has tree.now.forest h ≡ true →
        is_touched (told entries.new) h ≡ true }
    ensures more { (k : ℕ) → is_touched (told entries.old) k ≡ true →
        is_touched (told entries.new) k ≡ true }
    ensures above { (k : ℕ) → is_touched (told entries.old) k ≡ false →
        is_touched (told entries.new) k ≡ true → StandsOver tree.now.forest marked.now k }
    ensures rest { ButTouched (told entries.old) (told entries.new) }
    ensures listed { listing_of entries.new ≡ listing_of entries.old }
{
    for h in marked {
        touch_there(tree, entries, *h);
    }
}

/// Touches all listed objects.
pub(crate) fn touch_all(entries: &mut Table<Entry>, listed: &[Handle])
    requires { (k : ℕ) → 0 < times listed.now k → IsListed (listing_of entries.old) k }
    ensures own { (k : ℕ) → 0 < times listed.now k → is_touched (told entries.new) k ≡ true }
    ensures rest { ButTouched (told entries.old) (told entries.new) }
    ensures listed { listing_of entries.new ≡ listing_of entries.old }
{
    for h in listed {
        touch(entries, *h);
    }
}

/// Lets go of all listed objects: they count as told as they stand.
pub(crate) fn rest_all(entries: &mut Table<Entry>, listed: &[Handle])
    requires { (k : ℕ) → 0 < times listed.now k → IsListed (listing_of entries.old) k }
    ensures own { (k : ℕ) → 0 < times listed.now k → IsAtRest (told entries.new) k }
    ensures rest { ButTold (told entries.old) (told entries.new) }
    ensures listed { listing_of entries.new ≡ listing_of entries.old }
{
    for h in listed {
        let_rest(entries, *h);
    }
}
