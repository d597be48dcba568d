//! Why a blob isn't shared, or isn't read.
use ed2k_outside::Failed;
use std::alloc::AllocError;

/// Why a blob isn't shared, or isn't read.
#[derive(Clone, Copy, Debug, PartialEq, Eq)]
pub enum ShareFault {
    /// The blob has this number of bytes: none, or more than `SIZE_LIMIT`.
    BadSize(u64),
    /// The blob failed, or a read of it gave nothing.
    BlobFault,
    /// Memory was wanted and refused.
    NoMemory,
}

impl From<Failed> for ShareFault {
    ghost use Rattle.std.specs.Prelude.{◌≡◌};
    ghost use Rattle.share_list.specs.declared.fault.ShareFault.TheVariants.{BlobFault};

    ghost from_gives = { λ _ fault. fault ≡ BlobFault };

    fn from(_failed: Failed) -> Self {
        ShareFault::BlobFault
    }
}

impl From<AllocError> for ShareFault {
    ghost use Rattle.std.specs.Prelude.{◌≡◌};
    ghost use Rattle.share_list.specs.declared.fault.ShareFault.TheVariants.{NoMemory};

    ghost from_gives = { λ _ fault. fault ≡ NoMemory };

    fn from(_refused: AllocError) -> Self {
        ShareFault::NoMemory
    }
}
