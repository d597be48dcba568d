//! The faults of a stream of frames.

use std::alloc::{AllocError, AllocFailed};
use thiserror::Error;

/// Why a stream gives no further frame.
#[derive(Clone, Copy, Debug, PartialEq, Eq, Error)]
pub enum FrameFault {
    /// A packed frame begins, which isn't read.
    #[error("a packed frame")]
    Packed,
    /// This byte stands in a protocol byte's place.
    #[error("bad protocol byte {0}")]
    BadProtocol(u8),
    /// This length stands in a frame's head: 0, or above `FRAME_LIMIT`.
    #[error("bad frame length {0}")]
    BadLength(u32),
    /// Memory was wanted and refused. The reader is as before, and may be asked again.
    #[error("out of memory")]
    NoMemory,
}

impl From<AllocError> for FrameFault {
    ghost use Rattle.std.specs.Prelude.{◌≡◌};
    ghost use Rattle.ed2k_frame.specs.declared.fault.FrameFault.TheVariants.{NoMemory};

    ghost from_gives = { λ _ fault. fault ≡ NoMemory };

    fn from(_refused: AllocError) -> Self {
        FrameFault::NoMemory
    }
}

impl<T: Drop> From<AllocFailed<T>> for FrameFault {
    ghost use Rattle.std.specs.Prelude.{◌≡◌};
    ghost use Rattle.ed2k_frame.specs.declared.fault.FrameFault.TheVariants.{NoMemory};

    ghost from_gives = { λ _ fault. fault ≡ NoMemory };

    fn from(_refused: AllocFailed<T>) -> Self {
        FrameFault::NoMemory
    }
}

impl From<ed2k_outside::NoMemory> for FrameFault {
    ghost use Rattle.std.specs.Prelude.{◌≡◌};
    ghost use Rattle.ed2k_frame.specs.declared.fault.FrameFault.TheVariants.{NoMemory};

    ghost from_gives = { λ _ fault. fault ≡ NoMemory };

    fn from(_refused: ed2k_outside::NoMemory) -> Self {
        FrameFault::NoMemory
    }
}
