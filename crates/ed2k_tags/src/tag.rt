//! A tag and its value.

use crate::name::TagName;
use ed2k_outside::Bytes;

/// A named value.
#[derive(Debug, Drop)]
pub struct Tag {
    /// One byte for a name that the network knows by a number, or a text.
    pub name: TagName,
    /// What the tag says.
    pub value: Value,
}

/// What a tag says.
#[derive(Debug, Drop)]
pub enum Value {
    /// A hash.
    Id([u8; 16]),
    /// A text, in whatever encoding.
    Text(Bytes),
    /// A number of 8, 16, 32 or 64 bits.
    Number(u64),
    /// Four bytes that are kept unread.
    Raw4([u8; 4]),
    /// Bytes that are kept unread.
    Blob(Bytes),
}
