//! Changes that leave every object its box, or what it paints where it stands, whatever the scene.
ghost use Rattle.std.specs.Prelude.{◌≡◌};
ghost use Rattle.gui_concerns.specs.Moving.{goes_by, goes_by_flag, goes_by_set, is_nobody, moves_nobody, painted_by, sets_no_paint};

use crate::concerned::Concerned;
use debt_defs::Subject;
use gui_base::{Flag, Part, Prop, Selector};
use gui_store::subject_of;
use scene_defs::Change;

/// Whether layout depends on the value of a property of the main part. It depends on all but colours, opacities
/// and how the lines of a text are aligned.
fn goes_by(prop: Prop) -> bool
    ensures { result ≡ goes_by prop }
{
    match prop {
        Prop::BgColor | Prop::BgOpa | Prop::BorderColor | Prop::BorderOpa => false,
        Prop::ImgRecolor | Prop::ImgOpa => false,
        Prop::TextColor | Prop::TextOpa | Prop::TextAlign => false,
        _ => true,
    }
}

/// Whether layout depends on what is set for a selector.
fn goes_by_set(selector: Selector, prop: Prop) -> bool
    ensures { result ≡ goes_by_set selector prop }
{
    selector.part == Part::Main && goes_by(prop)
}

/// Whether layout depends on a flag.
fn goes_by_flag(flag: Flag) -> bool
    ensures { result ≡ goes_by_flag flag }
{
    match flag {
        Flag::Hidden | Flag::Scrollable => true,
        Flag::Clickable | Flag::Checkable | Flag::Bubble => false,
    }
}

/// Whether a change is about no object.
fn is_nobody(subject: Subject) -> bool
    ensures { result ≡ is_nobody subject }
{
    matches!(subject, Subject::Nobody)
}

/// Whether a change leaves the trees, and every object its box. Any other setter may move something.
pub fn moves_nobody(change: &Change) -> bool
    ensures { result ≡ moves_nobody change.now }
{
    match *change {
        Change::Load(_) | Change::Value(_, _) | Change::Range(_, _, _) => true,
        Change::Flag(_, flag, _) => !goes_by_flag(flag),
        Change::Set(_, prop, _) | Change::Unset(_, prop) => !goes_by(prop),
        Change::Local(_, selector, prop, _) => !goes_by_set(selector, prop),
        Change::Unlocal(_, selector, prop) => !goes_by_set(selector, prop),
        _ => is_nobody(subject_of(change)),
    }
}

/// Whether a change sets where an object stands and is seen, and nothing that it paints by. Any other may change
/// what something paints.
fn sets_no_paint(change: &Change) -> bool
    ensures { result ≡ sets_no_paint change.now }
{
    matches!(
        change,
        Change::Flag(_, _, _)
            | Change::Pos(_, _, _)
            | Change::Align(_, _, _, _)
            | Change::Size(_, _, _)
            | Change::Scroll(_, _, _)
            | Change::Flex(_, _)
            | Change::Places(_, _, _, _)
            | Change::Grow(_, _)
    )
}

/// Of the objects that a change may concern those that may paint something else where they stand.
pub fn painted_by(change: &Change, concerned: Concerned) -> Concerned
    ensures { result ≡ painted_by change.now concerned }
{
    if sets_no_paint(change) {
        Concerned::Nobody
    } else {
        concerned
    }
}
