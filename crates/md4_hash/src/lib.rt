//! The hash function MD4 (RFC 1320), of bytes at once or piece by piece.
//!
//! MD4 is broken as a cryptographic hash. It is here because the eDonkey2000 network names files by it.
#![tactic(auto)]

ghost use Rattle.std.specs.Prelude.{◌≡◌};
ghost use Rattle.md4_hash.specs.Md4.{md4};

mod block;
mod hasher;
mod message;

pub use block::{RoundConstants, add_turned, round_1, round_2, round_3};
pub use hasher::Md4;
use message::{BLOCK_LEN, START};

/// The MD4 of `bytes`.
pub fn md4(bytes: &[u8]) -> [u8; 16]
    ensures { result ≡ md4 bytes.now }
{
    let constants = RoundConstants::new();
    let (blocks, rest) = bytes.split_at(bytes.len() - bytes.len() % BLOCK_LEN);
    let mut registers = START;
    message::take_blocks(&mut registers, blocks, &constants);
    message::finish(registers, rest, bytes.len() as u64, &constants)
}

#[cfg(test)]
mod tests;
