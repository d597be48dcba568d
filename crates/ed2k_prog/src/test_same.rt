//! What tests assert, by calls: an assertion in the body of a test is proved with all that the test met before.

use std::fmt::Debug;
use std::process::Abort;

/// Ends the process where a fact doesn't hold, and tells what it is.
pub(crate) fn assert_that(rt: &impl Abort, fact: bool, what: &str) {
    assert!(rt; fact, "{what}");
}

/// Ends the process where the two differ, and tells what they are.
pub(crate) fn assert_same<T: PartialEq + Debug>(
    rt: &impl Abort,
    found: &T,
    wanted: &T,
    what: &str,
) {
    assert_eq!(rt; *found, *wanted, "{what}");
}
