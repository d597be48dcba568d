//! The refusals of a reader and of a writer of messages.

use ed2k_tags::TagFault;
use ed2k_tags::fields::Short;
use std::alloc::{AllocError, AllocFailed};
use thiserror::Error;

/// Why a frame isn't read as a message.
#[derive(Clone, Copy, Debug, PartialEq, Eq, Error)]
pub enum MsgFault {
    /// It brings a compressed part, which isn't read.
    #[error("a compressed part")]
    Compressed,
    /// The payload ends within the message's fields, tags apart.
    #[error("a cut message")]
    Cut,
    /// The tags aren't read. Places are counted from the start of the payload.
    #[error("bad tags: {0}")]
    BadTag(TagFault),
    /// The end of a sending part isn't its start and the number of its bytes.
    #[error("a part whose range doesn't fit its bytes")]
    BadRange,
    /// Memory was wanted and refused.
    #[error("out of memory")]
    NoMemory,
}

impl From<AllocError> for MsgFault {
    ghost use Rattle.std.specs.Prelude.{◌≡◌};
    ghost use Rattle.client_msgs.specs.declared.fault.MsgFault.TheVariants.{NoMemory};

    ghost from_gives = { λ _ fault. fault ≡ NoMemory };

    fn from(_refused: AllocError) -> Self {
        MsgFault::NoMemory
    }
}

impl<T: Drop> From<AllocFailed<T>> for MsgFault {
    ghost use Rattle.std.specs.Prelude.{◌≡◌};
    ghost use Rattle.client_msgs.specs.declared.fault.MsgFault.TheVariants.{NoMemory};

    ghost from_gives = { λ _ fault. fault ≡ NoMemory };

    fn from(_refused: AllocFailed<T>) -> Self {
        MsgFault::NoMemory
    }
}

impl From<Short> for MsgFault {
    ghost use Rattle.std.specs.Prelude.{◌≡◌};
    ghost use Rattle.client_msgs.specs.declared.fault.MsgFault.TheVariants.{Cut};

    ghost from_gives = { λ _ fault. fault ≡ Cut };

    fn from(_short: Short) -> Self {
        MsgFault::Cut
    }
}

/// Why a message isn't written.
#[derive(Clone, Copy, Debug, PartialEq, Eq, Error)]
pub enum MsgTooLong {
    /// The payload would have this many bytes, which no frame has room for, or a list of the message
    /// doesn't fit the count that is written before it.
    #[error("a payload of {0} bytes is too long")]
    Long(u64),
    /// Memory was wanted and refused.
    #[error("out of memory")]
    NoMemory,
}

impl From<AllocError> for MsgTooLong {
    ghost use Rattle.std.specs.Prelude.{◌≡◌};
    ghost use Rattle.client_msgs.specs.declared.fault.MsgTooLong.TheVariants.{NoMemory};

    ghost from_gives = { λ _ fault. fault ≡ NoMemory };

    fn from(_refused: AllocError) -> Self {
        MsgTooLong::NoMemory
    }
}
