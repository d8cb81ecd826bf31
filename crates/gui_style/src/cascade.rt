//! What an entry gives, and which of two candidates wins.
ghost use Rattle.std.specs.Prelude.{◌≡◌, Some};
ghost use Rattle.style_defs.specs.Cascade.{applies, of_entry, selector_of, stronger};

use gui_base::{Part, Prop, Selector};
use style_defs::{Candidate, Entry};

/// What a local entry is set for.
pub fn selector_of(entry: &Entry) -> Selector
    ensures { result ≡ selector_of entry.now }
{
    Selector {
        part: entry.part,
        states: entry.states,
    }
}

/// Whether what is set for a selector applies to a part of an object in these states.
pub fn applies(selector: Selector, part: Part, states: u16) -> bool
    ensures { result ≡ applies part states selector }
{
    selector.part == part && selector.states & states == selector.states
}

/// The one that wins of the winner so far and the next candidate.
pub fn stronger(best: Option<Candidate>, next: Candidate) -> Candidate
    ensures { Some result ≡ stronger best (Some next) }
{
    match best {
        Some(best) if next.states < best.states => best,
        _ => next,
    }
}

/// What a local entry gives a property of a part, for an object in these states.
pub fn given_by(entry: &Entry, part: Part, states: u16, prop: Prop) -> Option<Candidate>
    ensures { result ≡ of_entry part states prop entry.now }
{
    if entry.prop == prop && applies(selector_of(entry), part, states) {
        Some(Candidate {
            states: entry.states,
            value: entry.value,
        })
    } else {
        None
    }
}
