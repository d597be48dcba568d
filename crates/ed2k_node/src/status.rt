//! How a download ends.
ghost use Rattle.std.specs.Prelude.{◌≡◌, ◌≢◌, ◌<◌, Err, IsFalse, IsTrue};
ghost use Rattle.part_sizes.specs.Part.{IsSize};
ghost use Rattle.reserve_core.specs.Events.{events};
ghost use Rattle.reserve_core.specs.Verdicts.{lacks_set};
ghost use Rattle.ed2k_node.specs.Status.{code_of, rank, HasNoWorn, IsAtOnce, IsEarly};
ghost use Rattle.ed2k_node.specs.Status.{IsOfParts, IsWorn, LacksSet, SaysComplete};

use ed2k_outside::Vault;
use part_sizes::PART;
use part_store::PartFile;
use peer_fetch::Cause;
use reserve_core::DeskFault;

/// How a download ended.
#[derive(Clone, Copy, Debug, PartialEq, Eq)]
pub(crate) enum Status {
    /// Each part is verified.
    Complete,
    /// A part isn't verified.
    Incomplete,
    /// The vault failed.
    Vault,
    /// Memory was wanted and refused.
    NoMemory,
    /// The peer couldn't be connected.
    Net,
    /// This part failed eight times.
    BadPart(u16),
    /// A hash set is needed and none is kept.
    NoSet,
}

impl Status {
    /// The number that the program ends with.
    pub(crate) fn code(self) -> u8
        ensures code { result ≡ code_of self }
        ensures late { ¬ IsEarly result }
        ensures other { result ≢ 6 }
    {
        match self {
            Status::Complete => 0,
            Status::Incomplete => 3,
            Status::Vault => 4,
            Status::NoMemory => 5,
            Status::Net => 9,
            Status::BadPart(_) => 10,
            Status::NoSet => 13,
        }
    }
}

/// The least part that failed eight times, or that a part isn't verified.
fn of_parts<V: Vault + Drop>(file: &PartFile<V>) -> Status
    ensures worn { IsWorn file.now.aim file.now.log result }
    ensures late { IsOfParts result }
    ensures short { result ≡ Status.Incomplete → HasNoWorn file.now.aim file.now.log }
{
    match file.first_worn() {
        Some(part) => Status::BadPart(part),
        None => Status::Incomplete,
    }
}

/// The first that applies: memory was wanted where the last round was settled, all is verified, the
/// vault failed, memory was refused to the peer, the hash set is lacking, a part failed too often,
/// a part isn't verified.
pub(crate) fn after_rounds<V: Vault + Drop>(
    file: &PartFile<V>,
    cause: Cause,
    settled: Result<(), DeskFault>,
) -> Status
    ensures complete { SaysComplete file.now.aim file.now.log result }
    ensures vault { result ≡ Status.Vault → IsTrue file.now.broken }
    ensures settled { result ≢ Status.NoMemory → settled ≢ Err DeskFault.NoMemory }
    ensures connected { result ≢ Status.Net }
    ensures worn { IsWorn file.now.aim file.now.log result }
    ensures set { result ≡ Status.NoSet → LacksSet file.now.aim file.now.log }
    ensures works { 1 < rank result → IsFalse file.now.broken × (cause ≢ Cause.NoMemory) }
    ensures kept { 3 < rank result → IsFalse (lacks_set file.now.aim.size (events file.now.log)) }
    ensures unworn { 4 < rank result → HasNoWorn file.now.aim file.now.log }
    ensures stopped { cause ≡ Cause.NoMemory → IsAtOnce result }
{
    if let Err(DeskFault::NoMemory) = settled {
        return Status::NoMemory;
    }
    if file.complete() {
        return Status::Complete;
    }
    if file.broken() {
        return Status::Vault;
    }
    if let Cause::NoMemory = cause {
        return Status::NoMemory;
    }
    if file.aim().size >= PART && !file.has_set() {
        return Status::NoSet;
    }
    of_parts(file)
}
