//! The list types of the network. Contracts see the lists alone.

use crate::span::Span;
use plain_list::List;

/// An MD4 hash, as its 16 bytes.
pub type Hash = [u8; 16];

/// A SHA-1 hash of an AICH tree, as its 20 bytes.
pub type Root = [u8; 20];

/// A part of a file, by its number, and an MD4 digest of it.
#[derive(Clone, Copy, Debug, PartialEq, Eq)]
pub struct Pair {
    /// The part's number, from 0.
    pub part: u16,
    /// The digest.
    pub digest: Hash,
}

/// A list of bits.
pub type Bits = List<bool>;

/// A list of MD4 hashes.
pub type Hashes = List<Hash>;

/// A list of pairs.
pub type Pairs = List<Pair>;

/// A list of SHA-1 hashes.
pub type Roots = List<Root>;

/// A list of spans.
pub type Spans = List<Span>;
