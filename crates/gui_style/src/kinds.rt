//! What each kind of object sets by itself, read off the tables of the definitions.
ghost use Rattle.std.specs.Prelude.{◌≡◌};
ghost use Rattle.style_defs.specs.Kinds.{kind_rows, part_rows, entry_in, kind_value, default_in};

use crate::cascade::{given_by, stronger};
use gui_base::{Kind, Part, Prop};
use style_defs::Entry;
use style_defs::kinds::{BAR, BUTTON, CHECKBOX, KindRow, LIST, SCREEN, SCROLLBAR, SLIDER};

/// What a kind sets.
fn kind_rows(kind: Kind) -> &'static [KindRow]
    ensures { result.now ≡ kind_rows kind }
{
    match kind {
        Kind::Screen => &SCREEN,
        Kind::Button => &BUTTON,
        Kind::Bar => &BAR,
        Kind::Slider => &SLIDER,
        Kind::Checkbox => &CHECKBOX,
        Kind::List => &LIST,
        Kind::Layer | Kind::Obj | Kind::Label | Kind::Image => &[],
    }
}

/// What a kind sets for a part: all have the same bars.
fn part_rows(kind: Kind, part: Part) -> &'static [KindRow]
    ensures { result.now ≡ part_rows kind part }
{
    match part {
        Part::Scrollbar => &SCROLLBAR,
        Part::Main | Part::Indicator | Part::Knob => kind_rows(kind),
    }
}

fn entry_in(row: &KindRow) -> Entry
    ensures { result ≡ entry_in row.now }
{
    let (part, states, prop, value) = *row;
    Entry {
        part,
        prop,
        states,
        value,
    }
}

/// What a kind gives a property of a part, for an object in these states: `None` exactly if it sets nothing
/// that applies.
pub fn kind_value(kind: Kind, part: Part, states: u16, prop: Prop) -> Option<i32>
    ensures { result ≡ kind_value kind part states prop }
{
    let mut best = None;
    for row in part_rows(kind, part) {
        if let Some(given) = given_by(&entry_in(row), part, states, prop) {
            best = Some(stronger(best, given));
        }
    }
    Some(best?.value)
}

/// What a part of an object has if nothing is set and nothing is inherited.
pub fn default_in(kind: Kind, part: Part, states: u16, prop: Prop) -> i32
    ensures { result ≡ default_in kind part states prop }
{
    kind_value(kind, part, states, prop).unwrap_or(prop.default_value())
}
