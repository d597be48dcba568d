//! The parts and blocks of a file, spans of positions, and the small list types of the network. A `size` is
//! a file's, from 1 to `SIZE_LIMIT` bytes. Positions, parts and blocks count from 0, blocks anew in each
//! part.
#![tactic(auto)]

mod block;
pub mod numbers;
mod part;
mod small_lists;
mod span;

pub use block::{BLOCK, block_count, block_of, block_range};
pub use part::{PART, SIZE_LIMIT, data_parts, hash_count, part_count, part_of, part_range};
pub use small_lists::{Bits, Hash, Hashes, Pair, Pairs, Root, Roots, Spans};
pub use span::Span;

#[cfg(test)]
mod tests;
