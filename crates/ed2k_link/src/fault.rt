//! The faults of a link.

use std::alloc::{AllocError, AllocFailed};
use thiserror::Error;

/// Why a text is no link to a file: the first of these that holds of it.
#[derive(Clone, Copy, Debug, PartialEq, Eq, Error)]
pub enum LinkFault {
    /// The text does not begin with `ed2k://|file|`.
    #[error("not a link to a file")]
    NotFile,
    /// The name, with its escapes read, is empty, longer than `NAME_LIMIT` or not UTF-8.
    #[error("bad name")]
    BadName,
    /// The size is not 1 to 20 decimal digits, or not 1 to `SIZE_LIMIT`.
    #[error("bad size")]
    BadSize,
    /// The hash is not 32 hexadecimal digits.
    #[error("bad hash")]
    BadHash,
    /// A field `p=` has a piece between its colons that is not 32 hexadecimal digits, or is the
    /// second such field.
    #[error("bad part hashes")]
    BadParts,
    /// A field `h=` is not 32 letters of base 32, or is the second such field.
    #[error("bad root hash")]
    BadRoot,
    /// No item after the hash is a lone `/`.
    #[error("no end")]
    BadEnd,
    /// Memory was wanted and refused.
    #[error("out of memory")]
    NoMemory,
}

impl From<AllocError> for LinkFault {
    ghost use Rattle.std.specs.Prelude.{◌≡◌};
    ghost use Rattle.ed2k_link.specs.declared.fault.LinkFault.TheVariants.{NoMemory};

    ghost from_gives = { λ _ fault. fault ≡ NoMemory };

    fn from(_refused: AllocError) -> Self {
        LinkFault::NoMemory
    }
}

impl<T: Drop> From<AllocFailed<T>> for LinkFault {
    ghost use Rattle.std.specs.Prelude.{◌≡◌};
    ghost use Rattle.ed2k_link.specs.declared.fault.LinkFault.TheVariants.{NoMemory};

    ghost from_gives = { λ _ fault. fault ≡ NoMemory };

    fn from(_refused: AllocFailed<T>) -> Self {
        LinkFault::NoMemory
    }
}
