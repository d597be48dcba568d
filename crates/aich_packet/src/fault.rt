//! The refusals of recovery data.

use std::alloc::{AllocError, AllocFailed};
use thiserror::Error;

/// Why recovery data isn't taken.
#[derive(Clone, Copy, Debug, PartialEq, Eq, Error)]
pub enum PacketFault {
    /// The bytes end within the count or a pair, or one byte follows the pairs.
    #[error("the bytes end too early")]
    Cut,
    /// There are so many pairs, and the part's path has another number.
    #[error("{found} hashes in place of {wanted}")]
    Count { found: u32, wanted: u32 },
    /// This identifier stands in an earlier pair too.
    #[error("two hashes of node {0}")]
    Twice(u32),
    /// This identifier isn't on the part's path.
    #[error("a hash of node {0}, which isn't on the path")]
    WrongIdent(u32),
    /// The hashes give this root, which isn't the file's.
    #[error("the hashes give another root")]
    RootDiffers([u8; 20]),
    /// Memory was wanted and refused.
    #[error("out of memory")]
    NoMemory,
}

impl From<AllocError> for PacketFault {
    ghost use Rattle.std.specs.Prelude.{◌≡◌};
    ghost use Rattle.aich_packet.specs.declared.fault.PacketFault.TheVariants.{NoMemory};

    ghost from_gives = { λ _ fault. fault ≡ NoMemory };

    fn from(_refused: AllocError) -> Self {
        PacketFault::NoMemory
    }
}
