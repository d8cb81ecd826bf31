//! The keys of local properties.
ghost use Rattle.run_defs.specs.Selectors.{is_plus};
ghost use Rattle.scene_json.specs.Words.{are_states, is_selector};
ghost use Rattle.std.specs.List.{slice_split, before_first, after_first, list_any};
ghost use Rattle.std.specs.Option.{option_map_or};
ghost use Rattle.std.specs.Prelude.{◌≡◌, ◌==◌, [], ◌∷◌, IfSome, is_some, position};

use gui_base::words::{PARTS, STATES};
use gui_base::{Bits, named};

/// Whether it is a selector that names no state twice.
pub(crate) fn is_selector(word: &[u8]) -> bool
    ensures { result ≡ is_selector word.now }
{
    let (part, names) = cut(word, b':');
    if named(&PARTS, part).is_none() {
        return false;
    }
    match names {
        None => true,
        Some(names) => are_states(names),
    }
}

/// Whether the names between plus signs name states, and none of them twice.
#[tactic(auto, unfolding(run_defs::specs::Selectors::state_named))]
fn are_states(names: &[u8]) -> bool
    ensures { result ≡ are_states (slice_split is_plus names.now) }
{
    let mut set = Bits(0);
    let mut rest = Some(names);
    while let Some(names) = rest {
        let (name, others) = cut(names, b'+');
        let Some(state) = named(&STATES, name) else {
            return false;
        };
        if set.has(state.bit()) {
            return false;
        }
        set = set.with(state.bit(), true);
        rest = others;
    }
    true
}

/// What stands before the first such byte, and what stands behind it, if there is one.
#[tactic(auto, using(scene_script::proofs::WordLemmas::cuts))]
fn cut(bytes: &[u8], at: u8) -> (&[u8], Option<&[u8]>)
    ensures before { result.0.now ≡ before_first (λ b. b == at) bytes.now }
    ensures behind { IfSome result.1 (λ rest. rest.now ≡ after_first (λ b. b == at) bytes.now) }
    ensures found { is_some result.1 ≡ list_any (λ b. b == at) bytes.now }
    ensures pieces { slice_split (λ b. b == at) bytes.now
        ≡ result.0.now ∷ option_map_or (λ rest. slice_split (λ b. b == at) rest.now) result.1 [] }
{
    match position(bytes, at) {
        None => (bytes, None),
        Some(end) => (&bytes[..end], Some(&bytes[end + 1..])),
    }
}

/// Where the first such byte stands.
fn position(bytes: &[u8], at: u8) -> Option<usize>
    ensures { result ≡ position (λ b. b == at) bytes.now }
{
    bytes.iter().position(|b| *b == at)
}
