//! The checks that all tests make. Each expansion of `assert_eq!` costs seconds to prove, and a call of a
//! function next to nothing.
use std::fmt::Debug;
use std::process::Abort;

/// Whether two values are the same.
pub(crate) fn same<T: PartialEq + Debug>(rt: &impl Abort, value: &T, wanted: &T) {
    assert_eq!(rt; value, wanted);
}

/// Whether something is so.
pub(crate) fn holds(rt: &impl Abort, is_so: bool) {
    assert!(rt; is_so);
}
