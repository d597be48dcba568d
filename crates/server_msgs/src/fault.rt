//! Why a frame isn't read as a message, and why a message isn't written.
use ed2k_tags::TagFault;
use ed2k_tags::fields::Short;
use search_expr::ExprFault;
use std::alloc::{AllocError, AllocFailed};
use thiserror::Error;

/// Why a frame isn't read as a message.
#[derive(Clone, Copy, Debug, PartialEq, Eq, Error)]
pub enum MsgFault {
    /// It brings a compressed part, which no server is sent and none sends.
    #[error("a compressed part")]
    Compressed,
    /// The payload ends within the message's fields, tags and expressions apart, or the message counts more
    /// than `FILE_LIMIT` files.
    #[error("a cut message")]
    Cut,
    /// The tags aren't read. Places are counted from the start of the payload.
    #[error("bad tags: {0}")]
    BadTag(TagFault),
    /// The expression isn't read. Places are counted from the start of the payload.
    #[error("bad expression: {0}")]
    BadExpr(ExprFault),
    /// Memory was wanted and refused.
    #[error("out of memory")]
    NoMemory,
}

impl From<AllocError> for MsgFault {
    ghost use Rattle.std.specs.Prelude.{◌≡◌};
    ghost use Rattle.server_msgs.specs.declared.fault.MsgFault.TheVariants.{NoMemory};

    ghost from_gives = { λ _ fault. fault ≡ NoMemory };

    fn from(_refused: AllocError) -> Self {
        MsgFault::NoMemory
    }
}

impl<T: Drop> From<AllocFailed<T>> for MsgFault {
    ghost use Rattle.std.specs.Prelude.{◌≡◌};
    ghost use Rattle.server_msgs.specs.declared.fault.MsgFault.TheVariants.{NoMemory};

    ghost from_gives = { λ _ fault. fault ≡ NoMemory };

    fn from(_refused: AllocFailed<T>) -> Self {
        MsgFault::NoMemory
    }
}

impl From<Short> for MsgFault {
    ghost use Rattle.std.specs.Prelude.{◌≡◌};
    ghost use Rattle.server_msgs.specs.declared.fault.MsgFault.TheVariants.{Cut};

    ghost from_gives = { λ _ fault. fault ≡ Cut };

    fn from(_short: Short) -> Self {
        MsgFault::Cut
    }
}

/// Why a message isn't written.
#[derive(Clone, Copy, Debug, PartialEq, Eq, Error)]
pub enum MsgTooLong {
    /// The payload would have this many bytes, which no frame has room for, or a list or a text of the message
    /// doesn't fit the count that is written before it.
    #[error("a payload of {0} bytes is too long")]
    Long(u64),
    /// Memory was wanted and refused.
    #[error("out of memory")]
    NoMemory,
}

impl From<AllocError> for MsgTooLong {
    ghost use Rattle.std.specs.Prelude.{◌≡◌};
    ghost use Rattle.server_msgs.specs.declared.fault.MsgTooLong.TheVariants.{NoMemory};

    ghost from_gives = { λ _ fault. fault ≡ NoMemory };

    fn from(_refused: AllocError) -> Self {
        MsgTooLong::NoMemory
    }
}
