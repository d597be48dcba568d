//! Compares what is found with what is wanted.

use std::fmt::Debug;
use std::process::Abort;

/// Ends the process where the two differ, and tells which row it was.
pub(crate) fn assert_same<T: PartialEq + Debug, D: Debug>(
    rt: &impl Abort,
    found: &T,
    wanted: &T,
    row: &D,
) {
    assert_eq!(rt; *found, *wanted, "{row:?}");
}
