//! The refusals of a list of tags, and of one tag.

use crate::fields::Short;
use std::alloc::{AllocError, AllocFailed};
use thiserror::Error;

/// Why a list of tags isn't read.
#[derive(Clone, Copy, Debug, PartialEq, Eq, Error)]
pub enum TagFault {
    /// The list counts this many tags, which is above `TAG_LIMIT`.
    #[error("{0} tags")]
    TooMany(u32),
    /// The bytes end within the count, or within the tag, that begins at this place.
    #[error("the bytes end within the tag at {0}")]
    Cut(usize),
    /// A tag has this type, which isn't read.
    #[error("bad tag type {0}")]
    BadType(u8),
    /// Memory was wanted and refused.
    #[error("out of memory")]
    NoMemory,
}

impl From<AllocError> for TagFault {
    ghost use Rattle.std.specs.Prelude.{◌≡◌};
    ghost use Rattle.ed2k_tags.specs.declared.fault.TagFault.TheVariants.{NoMemory};

    ghost from_gives = { λ _ fault. fault ≡ NoMemory };

    fn from(_refused: AllocError) -> Self {
        TagFault::NoMemory
    }
}

/// Why one tag isn't read.
#[derive(Clone, Copy, Debug, PartialEq, Eq)]
pub(crate) enum Stop {
    /// The bytes end within it.
    Short,
    /// It has this type, which isn't read.
    BadType(u8),
    /// Memory was wanted and refused.
    NoMemory,
}

impl Stop {
    ghost use Rattle.std.specs.Prelude.{◌≡◌};
    ghost use Rattle.ed2k_tags.specs.Reading.{placed};

    /// What it is in a list whose tag begins at this place.
    pub(crate) fn at(self, place: usize) -> TagFault
        ensures { result ≡ placed place self }
    {
        match self {
            Stop::Short => TagFault::Cut(place),
            Stop::BadType(kind) => TagFault::BadType(kind),
            Stop::NoMemory => TagFault::NoMemory,
        }
    }
}

impl From<AllocError> for Stop {
    ghost use Rattle.std.specs.Prelude.{◌≡◌};
    ghost use Rattle.ed2k_tags.specs.declared.fault.Stop.TheVariants.{NoMemory};

    ghost from_gives = { λ _ stop. stop ≡ NoMemory };

    fn from(_refused: AllocError) -> Self {
        Stop::NoMemory
    }
}

impl From<Short> for Stop {
    ghost use Rattle.std.specs.Prelude.{◌≡◌};
    ghost use Rattle.ed2k_tags.specs.declared.fault.Stop.TheVariants.{Short};

    ghost from_gives = { λ _ stop. stop ≡ Short };

    fn from(_short: crate::fields::Short) -> Self {
        Stop::Short
    }
}

impl<T: Drop> From<AllocFailed<T>> for TagFault {
    ghost use Rattle.std.specs.Prelude.{◌≡◌};
    ghost use Rattle.ed2k_tags.specs.declared.fault.TagFault.TheVariants.{NoMemory};

    ghost from_gives = { λ _ fault. fault ≡ NoMemory };

    fn from(_refused: AllocFailed<T>) -> Self {
        TagFault::NoMemory
    }
}
