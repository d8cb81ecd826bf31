//! What a kind of object is, read off its row in the definitions.
#![tactic(auto)]

ghost use Rattle.std.specs.Prelude.{◌≡◌};
ghost use Rattle.widget_defs.specs.Kinds.{facts, shows, first_flags, first_width, first_height};
ghost use Rattle.widget_defs.specs.Kinds.{first_flow, is_something, has_indicator, has_knob, has_size};

use gui_base::{Flow, Kind, Length};
use widget_defs::kinds::{
    BAR, BUTTON, CHECKBOX, IMAGE, KindFacts, LABEL, LAYER, LIST, OBJ, SCREEN, SLIDER, Shown,
};

/// The row of a kind.
pub fn facts(kind: Kind) -> &'static KindFacts
    ensures { result.now ≡ facts kind }
{
    match kind {
        Kind::Screen => &SCREEN,
        Kind::Layer => &LAYER,
        Kind::Obj => &OBJ,
        Kind::Label => &LABEL,
        Kind::Button => &BUTTON,
        Kind::Image => &IMAGE,
        Kind::Bar => &BAR,
        Kind::Slider => &SLIDER,
        Kind::Checkbox => &CHECKBOX,
        Kind::List => &LIST,
    }
}

/// What objects of a kind paint in their content area.
pub fn shows(kind: Kind) -> Shown
    ensures { result ≡ shows kind }
{
    facts(kind).shows
}

/// The flags that are on, a bit for each, as [`gui_base::Flag::bit`] says.
pub fn first_flags(kind: Kind) -> u8
    ensures { result ≡ first_flags kind }
{
    facts(kind).flags
}

/// The wanted width. Roots have the panel's size, whatever theirs is.
pub fn first_width(kind: Kind) -> Length
    ensures { result ≡ first_width kind }
{
    facts(kind).width
}

/// The wanted height.
pub fn first_height(kind: Kind) -> Length
    ensures { result ≡ first_height kind }
{
    facts(kind).height
}

/// The flow: only a list has one.
pub fn first_flow(kind: Kind) -> Flow
    ensures { result ≡ first_flow kind }
{
    facts(kind).flow
}

/// Whether anything is painted in the content area.
pub fn is_something(shown: Shown) -> bool
    ensures { result ≡ is_something shown }
{
    !matches!(shown, Shown::Nothing)
}

/// Whether the indicator is a part of what is painted there.
pub fn has_indicator(shown: Shown) -> bool
    ensures { result ≡ has_indicator shown }
{
    matches!(
        shown,
        Shown::Share | Shown::ShareAndKnob | Shown::BoxAndText
    )
}

/// Whether the knob is.
pub fn has_knob(shown: Shown) -> bool
    ensures { result ≡ has_knob shown }
{
    matches!(shown, Shown::ShareAndKnob)
}

/// Whether it has a size of its own. A text and a picture have one, and a share is as large as the area makes
/// it.
pub fn has_size(shown: Shown) -> bool
    ensures { result ≡ has_size shown }
{
    matches!(shown, Shown::Text | Shown::Picture | Shown::BoxAndText)
}
