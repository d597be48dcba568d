//! The refusals of a download's calls.

ghost use Rattle.std.specs.Prelude.{◌≡◌};
ghost use Rattle.reserve_core.specs.Desk.{is_outside};

use part_hashset::{Hash, Root, SetFault};

/// What is wrong with recovery data, as the fault of the same name of `aich_packet` says it. No call answers
/// it yet.
#[derive(Clone, Copy, Debug, PartialEq, Eq)]
pub enum PacketFault {
    /// The bytes end within the count or a pair, or one byte follows the pairs.
    Cut,
    /// There are `found` pairs, and the part's path wants `wanted`.
    Count { found: u32, wanted: u32 },
    /// This identifier stands in an earlier pair too.
    Twice(u32),
    /// This identifier isn't on the part's path.
    WrongIdent(u32),
    /// The pairs fold to this root, which isn't the file's.
    RootDiffers(Root),
}

/// Why a call on a download is refused.
#[derive(Clone, Copy, Debug, PartialEq, Eq)]
pub enum DeskFault {
    /// The store failed in an earlier call.
    Broken,
    /// A file of less than one part has no hash set.
    NotNeeded,
    /// A hash set is kept already.
    AlreadySet,
    /// The hash set isn't valid, for this reason.
    Set(SetFault),
    /// The peer filled a block that recovery opened again. No call recovers a part yet.
    Cheat,
    /// This part failed eight times.
    Worn(u16),
    /// A hash set is needed and none is kept.
    NoSet,
    /// No byte of an offered part is unfilled and free.
    NoBlock,
    /// The peer holds no range that begins with the span and reaches its end.
    NotHeld,
    /// This position of the part isn't filled.
    NotFull(u64),
    /// The part was written into after the last commit.
    NotCommitted,
    /// The part has a verdict, with this digest.
    Already(Hash),
    /// The part isn't failed.
    NotFailed,
    /// The root of the AICH tree isn't known. No call answers it yet.
    NoRoot,
    /// The recovery data is refused. No call answers it yet.
    Packet(PacketFault),
    /// The store failed in this call.
    Fault,
    /// Memory was wanted and refused.
    NoMemory,
}

impl DeskFault {
    /// True exactly where no log tells the cause: the store failed, or memory was wanted.
    pub fn is_outside(&self) -> bool
        ensures { result ≡ is_outside self.now }
    {
        matches!(
            self,
            DeskFault::Broken | DeskFault::Fault | DeskFault::NoMemory
        )
    }
}
