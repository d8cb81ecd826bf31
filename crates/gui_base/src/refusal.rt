//! Why a line of the script, or a change of the scene, is refused.
use crate::limits::Pool;

/// Why a call is refused. If several apply, the first in this order is answered, and all stays as it was.
#[derive(Clone, Copy, Debug, PartialEq, Eq)]
pub enum Refusal {
    /// A line of more than 4,096 bytes.
    Long,
    /// A line that has no form of the language.
    Syntax,
    /// A number outside its interval, or a text that is too long.
    Range,
    /// Something named is not there.
    Unknown,
    /// A new name is in use, or what is added is there already.
    Taken,
    /// The object's kind has no such value.
    Kind,
    /// The place does not allow it.
    Place,
    /// The pool has fewer spare slots than are needed.
    Full(Pool),
}
