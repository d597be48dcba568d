//! What peers see of a part file.

use reserve_core::Entry;

/// What the peers of a part file see of it, one after another. No value of it is made.
pub enum Noted {
    /// An entry of the log.
    Entry(Entry),
    /// The mark of a broken part file, behind all entries.
    Broken,
}
