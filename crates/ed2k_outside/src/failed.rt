//! A call of the outside that failed.

use std::error::Error;
use std::fmt;

/// A call of the outside did not happen as asked. It comes only where the count of faults of the
/// object that was called rose in that call.
#[derive(Clone, Copy, Debug, PartialEq, Eq, Hash)]
pub struct Failed;

impl fmt::Display for Failed {
    fn fmt<W: fmt::Write>(&self, f: &mut fmt::Formatter<W>) -> fmt::Result {
        f.write_str("failed")
    }
}

impl Error for Failed {}
