//! What changes are about.
ghost use Rattle.std.specs.Prelude.{◌≡◌};
ghost use Rattle.debt_defs.specs.Subject.{subject_of};

use crate::setter::setter_of;
use debt_defs::{Reach, Subject};
use scene_defs::Change;

/// What a change is about: much that is asked of it depends on that alone.
pub fn subject_of(change: &Change) -> Subject
    ensures { result ≡ subject_of change.now }
{
    match *change {
        Change::Screen(n) => Subject::Made(n),
        Change::New(n, parent, _) => Subject::Comes(n, parent),
        Change::Delete(h) => Subject::Goes(h),
        Change::Parent(h, parent) => Subject::Moves(h, parent),
        Change::Index(h, _) | Change::Front(h) | Change::Back(h) => Subject::Among(h),
        Change::Load(h) => Subject::Loads(h),
        Change::State(h, _, _) => Subject::Spread(h),
        Change::Text(h, _) => Subject::Own(h),
        Change::Set(s, prop, _) | Change::Unset(s, prop) => Subject::Shared(s, prop),
        Change::Use(h, s, _) | Change::Unuse(h, s, _) => Subject::Styled(h, Reach::OfStyle(s)),
        Change::Local(h, _, prop, _) => Subject::Styled(h, Reach::OfProp(prop)),
        Change::Unlocal(h, _, prop) => Subject::Styled(h, Reach::OfProp(prop)),
        _ => match setter_of(change) {
            Some(setter) => Subject::Own(setter.handle),
            None => Subject::Nobody,
        },
    }
}
