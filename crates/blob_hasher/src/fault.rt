//! Why a blob isn't hashed.
use ed2k_outside::{Failed, NoMemory};
use std::alloc::AllocError;

/// Why a blob isn't hashed.
#[derive(Clone, Copy, Debug, PartialEq, Eq)]
pub enum HashFault {
    /// The blob has no bytes, or more than `SIZE_LIMIT`.
    BadSize,
    /// The blob failed, or a read of it gave nothing.
    Blob,
    /// Memory was wanted and refused.
    NoMemory,
}

impl From<Failed> for HashFault {
    ghost use Rattle.std.specs.Prelude.{◌≡◌};
    ghost use Rattle.blob_hasher.specs.declared.fault.HashFault.TheVariants.{Blob};

    ghost from_gives = { λ _ fault. fault ≡ Blob };

    fn from(_failed: Failed) -> Self {
        HashFault::Blob
    }
}

impl From<AllocError> for HashFault {
    ghost use Rattle.std.specs.Prelude.{◌≡◌};
    ghost use Rattle.blob_hasher.specs.declared.fault.HashFault.TheVariants.{NoMemory};

    ghost from_gives = { λ _ fault. fault ≡ NoMemory };

    fn from(_refused: AllocError) -> Self {
        HashFault::NoMemory
    }
}

impl From<NoMemory> for HashFault {
    ghost use Rattle.std.specs.Prelude.{◌≡◌};
    ghost use Rattle.blob_hasher.specs.declared.fault.HashFault.TheVariants.{NoMemory};

    ghost from_gives = { λ _ fault. fault ≡ NoMemory };

    fn from(_refused: NoMemory) -> Self {
        HashFault::NoMemory
    }
}
