//! What a log file records.

use part_sizes::{Bits, Hash, Hashes, Spans};

/// What a log file records.
#[derive(Debug, Drop)]
pub enum Record {
    /// The hash set is kept.
    Set(Hashes),
    /// The spans are filled.
    Filled(Spans),
    /// A part is judged: its number, and the MD4 of its bytes.
    Judged(u16, Hash),
    /// A failed part is recovered: its number, and for each of its blocks whether it was kept.
    Recovered(u16, Bits),
    /// A failed part is dropped whole.
    Dropped(u16),
}
