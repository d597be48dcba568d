//! What a call asked of a file, and how it is undone.

/// A call since the last sync.
#[derive(Clone, Copy, Debug, PartialEq, Eq)]
pub(crate) enum Asked {
    /// A write from a place on, of so many bytes.
    Write(usize, usize),
    /// A new length.
    Length(usize),
}

/// What was asked, the length before it, and the bytes that it took away from a place on.
#[derive(Debug, Drop)]
pub(crate) struct Step {
    pub(crate) asked: Asked,
    pub(crate) len: usize,
    pub(crate) at: usize,
    pub(crate) lost: Vec<u8>,
}
