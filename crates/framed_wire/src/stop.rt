//! Why no further frame comes.
ghost use Rattle.std.specs.Prelude.{◌≡◌};
ghost use Rattle.framed_wire.specs.Stops.{stop_of};

use ed2k_frame::FrameFault;
use thiserror::Error;

/// Why no further frame comes.
#[derive(Clone, Copy, Debug, PartialEq, Eq, Error)]
pub enum Stop {
    /// The bytes end, within a frame or before one.
    #[error("the connection ended")]
    Ended,
    /// A read failed.
    #[error("the connection failed")]
    WireFault,
    /// This fault stands in the next frame's place. It is never `FrameFault::NoMemory`.
    #[error("bad frame: {0}")]
    BadFrame(FrameFault),
    /// As many bytes were taken as may be, and less than a frame of them is left.
    #[error("too many bytes came")]
    Spent,
    /// Memory was wanted and refused.
    #[error("out of memory")]
    NoMemory,
}

/// What a fault of a frame is to a reader of a wire.
pub(crate) fn stop_of(fault: FrameFault) -> Stop
    ensures { result ≡ stop_of fault }
{
    match fault {
        FrameFault::NoMemory => Stop::NoMemory,
        fault => Stop::BadFrame(fault),
    }
}
