//! Why no store is made.

/// Why a part file isn't made.
#[derive(Clone, Copy, Debug, PartialEq, Eq)]
pub enum StoreFault {
    /// A call of the vault failed.
    Fault,
    /// Memory was wanted and refused.
    NoMemory,
}
