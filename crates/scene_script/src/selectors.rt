//! What a word says as a selector.
ghost use Rattle.std.specs.Prelude.{◌≡◌};
ghost use Rattle.std.specs.List.{slice_split};
ghost use Rattle.run_defs.specs.Selectors.{is_plus, with_states, selector_named};

use crate::words::cut;
use gui_base::words::{PARTS, STATES};
use gui_base::{Bits, Part, Selector, named};

/// A selector: a part alone, or a part, a colon, and names of states with a plus sign between each two.
pub(crate) fn selector(word: &[u8]) -> Option<Selector>
    ensures { result ≡ selector_named word.now }
{
    match word {
        b"main" => Some(Selector {
            part: Part::Main,
            states: 0,
        }),
        _ => part_and_states(word),
    }
}

/// A part, and the states after its colon if it has one.
#[tactic(auto, unfolding(run_defs::specs::Selectors::selector_named))]
fn part_and_states(word: &[u8]) -> Option<Selector>
    ensures { result ≡ selector_named word.now }
{
    let (part, states) = cut(word, b':');
    let part = named(&PARTS, part)?;
    let states = match states {
        None => 0,
        Some(names) => states_of(names)?,
    };
    Some(Selector { part, states })
}

/// The set of the states with these names: one that is named twice counts once.
#[tactic(auto, unfolding(run_defs::specs::Selectors::state_named))]
fn states_of(names: &[u8]) -> Option<u16>
    ensures { result ≡ with_states 0 (slice_split is_plus names.now) }
{
    let mut states = Bits(0);
    let mut rest = Some(names);
    while let Some(names) = rest {
        let (name, others) = cut(names, b'+');
        states = states.with(named(&STATES, name)?.bit(), true);
        rest = others;
    }
    Some(states.0)
}
