//! The file that is wanted.

/// An MD4 hash, as its 16 bytes.
pub type Hash = [u8; 16];

/// A root of an AICH tree, as the 20 bytes of a SHA-1 hash.
pub type Root = [u8; 20];

/// The file that is wanted.
#[derive(Clone, Copy, Debug, PartialEq, Eq)]
pub struct Aim {
    /// The number of bytes.
    pub size: u64,
    /// The file's hash.
    pub hash: Hash,
    /// The root of the file's AICH tree, where it is known.
    pub root: Option<Root>,
}
