//! The object that a change names first.
ghost use Rattle.std.specs.Prelude.{◌≡◌, option_map};
ghost use Rattle.debt_defs.specs.Named.{named};
ghost use Rattle.gui_concerns.specs.Handles.{number_of};

use debt_defs::Subject;
use gui_base::Handle;
use gui_store::subject_of;
use scene_defs::Change;

/// The object that a change names first, if it names one.
pub fn named_by(change: &Change) -> Option<Handle>
    ensures { option_map number_of result ≡ named change.now }
{
    match subject_of(change) {
        Subject::Own(h) | Subject::Spread(h) | Subject::Styled(h, _) => Some(h),
        Subject::Made(h) | Subject::Comes(h, _) | Subject::Goes(h) => Some(h),
        Subject::Moves(h, _) | Subject::Among(h) | Subject::Loads(h) => Some(h),
        Subject::Shared(_, _) | Subject::Nobody => None,
    }
}
