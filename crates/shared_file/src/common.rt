//! The part file as its peers pass it round.
ghost use Rattle.std.specs.Prelude.{◌≡◌, ◌≢◌, ◌<◌, ◌-◌, Err, length, find, not, IsFalse};
ghost use Rattle.std.specs.List.{list_all, range_with_len};
ghost use Rattle.part_hashset.specs.Goals.{is_nil};
ghost use Rattle.part_sizes.specs.Part.{IsSize, data_parts};
ghost use Rattle.part_store.specs.Origin.{origin_code, origin_of};
ghost use Rattle.reserve_core.specs.Events.{events};
ghost use Rattle.reserve_core.specs.Held.{is_holder};
ghost use Rattle.reserve_core.specs.Moved.{moved};
ghost use Rattle.reserve_core.specs.Verdicts.{is_failed, is_verified, kept_set, parts};
ghost use Rattle.reserve_core.specs.declared.desk.Answer.TheVariants as answer;
ghost use Rattle.reserve_core.specs.declared.desk.DeskAsk.TheVariants as ask;
ghost use Rattle.shared_file.specs.Turns.{Marks, Steps};

use crate::noted::Noted;
use ed2k_outside::Vault;
use part_hashset::Aim;
use part_sizes::{Bits, Hashes, Spans};
use part_store::PartFile;
use reserve_core::{DeskFault, Event, Verdict, Written};
use turn_lock::Booked;

/// A part file as its peers pass it round. What they see of it is its log, and behind it a mark where it is
/// broken.
///
/// Each call is that of the part file by the peer with the number.
#[derive(Drop)]
pub struct Common<V: Vault> {
    /// The part file.
    pub file: PartFile<V>,
}

impl<V: Vault + Drop> Booked for Common<V> {
    ghost use Rattle.part_store.specs.Origin.{origin_code, origin_of};
    ghost use Rattle.reserve_core.specs.Desk.{own};
    ghost use Rattle.reserve_core.specs.Events.{events};
    ghost use Rattle.shared_file.specs.Notes.{noted};

    type Entry = Noted;

    type Item = Event;

    ghost birth = { λ c. origin_code (origin_of V.Vault c.file) };

    ghost log = { λ c. noted c.file.log c.file.broken };

    ghost rows = { λ c n. own (events c.file.log) n };

    fn booked(&self) -> u64 {
        let entries = self.file.log().len() as u64;
        if self.file.broken() {
            entries + 1
        } else {
            entries
        }
    }
}

impl<V: Vault + Drop> Common<V> {
    /// Keeps a hash set.
    pub(crate) fn hashes(&mut self, _number: u64, set: Hashes) -> Result<(), DeskFault>
        ensures birth { origin_code (origin_of V.Vault self.new.file) ≡ origin_code (origin_of V.Vault self.old.file) }
        ensures steps { Steps _number (ask.Hashes set) (answer.Hashes result) self.old.file self.new.file }
        ensures marks { Marks result self.old.file.broken self.new.file.broken }
    {
        self.file.hashes(set)
    }

    /// Records what a peer offers.
    pub(crate) fn offer(&mut self, number: u64, bits: Bits) -> Result<(), DeskFault>
        requires { length bits ≡ data_parts self.old.file.aim.size }
        ensures birth { origin_code (origin_of V.Vault self.new.file) ≡ origin_code (origin_of V.Vault self.old.file) }
        ensures steps { Steps number (ask.Offer bits) (answer.Offer result) self.old.file self.new.file }
        ensures marks { Marks result self.old.file.broken self.new.file.broken }
    {
        self.file.offer(number, bits)
    }

    /// Reserves ranges for a peer.
    pub(crate) fn reserve(&mut self, number: u64) -> Result<Spans, DeskFault>
        ensures birth { origin_code (origin_of V.Vault self.new.file) ≡ origin_code (origin_of V.Vault self.old.file) }
        ensures steps { Steps number ask.Reserve (answer.Reserve result) self.old.file self.new.file }
        ensures marks { Marks result self.old.file.broken self.new.file.broken }
    {
        self.file.reserve(number)
    }

    /// Writes a piece of a peer.
    pub(crate) fn write(&mut self, number: u64, at: u64, piece: &[u8]) -> Result<Written, DeskFault>
        ensures birth { origin_code (origin_of V.Vault self.new.file) ≡ origin_code (origin_of V.Vault self.old.file) }
        ensures steps { Steps number (ask.Write at piece.now) (answer.Write result) self.old.file self.new.file }
        ensures marks { Marks result self.old.file.broken self.new.file.broken }
    {
        self.file.write(number, at, piece)
    }

    /// Makes durable what was written.
    pub(crate) fn commit(&mut self, _number: u64) -> Result<(), DeskFault>
        ensures birth { origin_code (origin_of V.Vault self.new.file) ≡ origin_code (origin_of V.Vault self.old.file) }
        ensures steps { Steps _number ask.Commit (answer.Commit result) self.old.file self.new.file }
        ensures marks { Marks result self.old.file.broken self.new.file.broken }
    {
        self.file.commit()
    }

    /// Judges a part.
    pub(crate) fn verify(&mut self, _number: u64, part: u16) -> Result<Verdict, DeskFault>
        requires { part < data_parts self.old.file.aim.size }
        ensures birth { origin_code (origin_of V.Vault self.new.file) ≡ origin_code (origin_of V.Vault self.old.file) }
        ensures steps { Steps _number (ask.Verify part) (answer.Verify result) self.old.file self.new.file }
        ensures marks { Marks result self.old.file.broken self.new.file.broken }
        ensures memory { result ≢ Err DeskFault.NoMemory }
    {
        self.file.verify(part)
    }

    /// Opens a failed part again.
    pub(crate) fn drop_part(&mut self, _number: u64, part: u16) -> Result<(), DeskFault>
        requires { part < data_parts self.old.file.aim.size }
        ensures birth { origin_code (origin_of V.Vault self.new.file) ≡ origin_code (origin_of V.Vault self.old.file) }
        ensures steps { Steps _number (ask.DropPart part) (answer.DropPart result) self.old.file self.new.file }
        ensures marks { Marks result self.old.file.broken self.new.file.broken }
        ensures memory { result ≢ Err DeskFault.NoMemory }
    {
        self.file.drop_part(part)
    }

    /// Takes back all that a peer holds.
    pub(crate) fn release(&mut self, number: u64)
        ensures birth { origin_code (origin_of V.Vault self.new.file) ≡ origin_code (origin_of V.Vault self.old.file) }
        ensures steps { Steps number ask.Release answer.Release self.old.file self.new.file }
        ensures free { IsFalse self.new.file.broken → IsFalse (is_holder (events self.new.file.log) number) }
    {
        self.file.release(number);
    }
}
