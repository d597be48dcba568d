//! What a session asks for one peer, and what it is answered.

ghost use Rattle.std.specs.Prelude.{◌≡◌, ◌<◌, length, not, IsFalse};
ghost use Rattle.part_sizes.specs.Part.{data_parts};
ghost use Rattle.reserve_core.specs.Desk.{own};
ghost use Rattle.reserve_core.specs.DeskState.{AnswersAsk, CallsDesk, DeskState, FreesPeer, QuietOnceFailed, SameDesk};
ghost use Rattle.reserve_core.specs.Events.{events};
ghost use Rattle.reserve_core.specs.Held.{is_holder};
ghost use Rattle.part_hashset.specs.Goals.{is_nil};
ghost use Rattle.reserve_core.specs.Verdicts.{kept_set, next_failed};
ghost use Rattle.reserve_core.specs.declared.desk.DeskAsk.TheVariants as ask;
ghost use Rattle.reserve_core.specs.declared.desk.Answer.TheVariants as answer;

use crate::core_state::Written;
use crate::fault::DeskFault;
use crate::verdict::Verdict;
use ed2k_outside::Bytes;
use part_hashset::Aim;
use part_sizes::{Bits, Hashes, Spans};

/// A call on a desk, with its arguments.
#[derive(Drop)]
pub enum DeskAsk {
    /// Whether a hash set is kept.
    HasSet,
    /// Whether the peer holds a range.
    Holds,
    /// The least part at or above this number that is failed.
    NextFailed(u16),
    /// Keep this hash set.
    Hashes(Hashes),
    /// The peer has these parts.
    Offer(Bits),
    /// Reserve ranges for the peer.
    Reserve,
    /// The peer sent these bytes, from this position on.
    Write(u64, Bytes),
    /// The peer holds nothing from now on.
    Release,
    /// Make durable what was written.
    Commit,
    /// Judge this part.
    Verify(u16),
    /// Open all of this part again.
    DropPart(u16),
}

/// What the call of the same name answered.
#[derive(Drop)]
pub enum Answer {
    /// Whether a hash set is kept.
    HasSet(bool),
    /// Whether the peer holds a range.
    Holds(bool),
    /// That part, where there is one.
    NextFailed(Option<u16>),
    /// The set is kept, or why it isn't.
    Hashes(Result<(), DeskFault>),
    /// The offer is recorded, or why it isn't.
    Offer(Result<(), DeskFault>),
    /// The spans that were reserved, or why none were.
    Reserve(Result<Spans, DeskFault>),
    /// What the write came to, or why it was refused.
    Write(Result<Written, DeskFault>),
    /// The release can't be refused.
    Release,
    /// What was written is durable, or why it isn't.
    Commit(Result<(), DeskFault>),
    /// What the part's digest says of it, or why it wasn't judged.
    Verify(Result<Verdict, DeskFault>),
    /// All of the part is open again, or why it isn't.
    DropPart(Result<(), DeskFault>),
}

/// The download of one file, as it serves one peer beside others.
///
/// A call sees what the others added before it, answers by the log as it is then, and adds its own entry
/// at the end, or none. No call waits.
///
/// A refused call adds no entry. The refusals are those that [`crate::Core`] names with each call, in its
/// order; or `Broken`, only where the store failed before; `Fault`, only where it failed in this call; and
/// `NoMemory`. `release` can't be refused.
pub trait FileDesk {
    /// What the desk tells.
    ghost state: { Self → DeskState };

    /// The file that is wanted.
    fn aim(&self) -> Aim
        ensures { result ≡ (state self.now).wanted };

    /// The number of the peer.
    fn number(&self) -> u64
        ensures { result ≡ (state self.now).peer };

    /// True exactly where a hash set is kept.
    fn has_set(&self) -> bool
        ensures { result ≡ not (is_nil (kept_set (events (state self.now).seen))) };

    /// True exactly where the peer holds a range.
    fn holds(&self) -> bool
        ensures { result ≡ is_holder (events (state self.now).seen) (state self.now).peer };

    /// The least part at or above a number that is failed.
    fn next_failed(&self, from: u16) -> Option<u16>
        ensures { result ≡ next_failed (state self.now).wanted (events (state self.now).seen) from };

    /// Keeps a hash set.
    fn hashes(&mut self, set: Hashes) -> Result<(), DeskFault>
        ensures answers { AnswersAsk (ask.Hashes set) (answer.Hashes result) result (state self.old) (state self.new) };

    /// Records which parts the peer has, one bit for each part that holds bytes.
    fn offer(&mut self, bits: Bits) -> Result<(), DeskFault>
        requires { length bits ≡ data_parts (state self.old).wanted.size }
        ensures answers { AnswersAsk (ask.Offer bits) (answer.Offer result) result (state self.old) (state self.new) };

    /// Reserves for the peer the first free run of each block of the parts that it offers, the rarest part
    /// first: one to three runs.
    fn reserve(&mut self) -> Result<Spans, DeskFault>
        ensures answers { AnswersAsk ask.Reserve (answer.Reserve result) result (state self.old) (state self.new) };

    /// Writes the bytes of a piece, from a position on.
    fn write(&mut self, at: u64, piece: &[u8]) -> Result<Written, DeskFault>
        ensures answers { AnswersAsk (ask.Write at piece.now) (answer.Write result) result (state self.old) (state self.new) };

    /// Takes back all that the peer holds. On a store that failed it adds nothing of the peer's.
    fn release(&mut self)
        ensures same { SameDesk (state self.old) (state self.new) }
        ensures served { CallsDesk ask.Release answer.Release (state self.old) (state self.new) }
        ensures quiet { QuietOnceFailed (state self.old) (state self.new) }
        ensures free { FreesPeer (state self.old) (state self.new) }
        ensures faults { (state self.new).store_faults ≡ (state self.old).store_faults };

    /// Makes durable what was written.
    fn commit(&mut self) -> Result<(), DeskFault>
        ensures answers { AnswersAsk ask.Commit (answer.Commit result) result (state self.old) (state self.new) };

    /// Judges a part that is full and durable by the MD4 of its bytes.
    fn verify(&mut self, part: u16) -> Result<Verdict, DeskFault>
        requires { part < data_parts (state self.old).wanted.size }
        ensures answers { AnswersAsk (ask.Verify part) (answer.Verify result) result (state self.old) (state self.new) };

    /// Opens all of a failed part again.
    fn drop_part(&mut self, part: u16) -> Result<(), DeskFault>
        requires { part < data_parts (state self.old).wanted.size }
        ensures answers { AnswersAsk (ask.DropPart part) (answer.DropPart result) result (state self.old) (state self.new) };
}
