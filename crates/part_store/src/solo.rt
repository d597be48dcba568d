//! A download in a vault as the desk of one peer.
ghost use Rattle.std.specs.Prelude.{◌≡◌};
ghost use Rattle.reserve_core.specs.declared.event.Entry.{Entry};

use crate::part_file::PartFile;
use ed2k_outside::Vault;
use part_hashset::Aim;
use part_sizes::{Bits, Hashes, Spans};
use reserve_core::{DeskFault, FileDesk, Verdict, Written};

/// The number of the one peer.
const NUMBER: u64 = 0;

/// A part file as the desk of one peer, whose number is 0. Nobody else uses the file, and its body is told
/// where the vault tells its files.
#[derive(Drop)]
pub struct Solo<V: Vault> {
    /// The download.
    pub file: PartFile<V>,
}

impl<V: Vault + Drop> FileDesk for Solo<V> {
    ghost use Rattle.std.specs.Prelude.{true};
    ghost use Rattle.part_store.specs.Body.{Stored, body_of};
    ghost use Rattle.part_store.specs.Origin.{origin_code, origin_of};
    ghost use Rattle.part_store.specs.Solo.{faults_of, solo_number};

    ghost state = { λ desk. record {
      wanted = desk.file.aim;
      peer = solo_number;
      origin = origin_code (origin_of V.Vault desk.file);
      alone = true;
      body = body_of (V.files desk.file.vault);
      seen = desk.file.log;
      store_faults = faults_of desk.file.broken;
    } };

    fn aim(&self) -> Aim {
        self.file.aim()
    }

    fn number(&self) -> u64 {
        NUMBER
    }

    fn has_set(&self) -> bool {
        self.file.has_set()
    }

    fn holds(&self) -> bool {
        self.file.holds(NUMBER)
    }

    fn next_failed(&self, from: u16) -> Option<u16> {
        self.file.next_failed(from)
    }

    fn hashes(&mut self, set: Hashes) -> Result<(), DeskFault> {
        self.file.hashes(set)
    }

    fn offer(&mut self, bits: Bits) -> Result<(), DeskFault> {
        self.file.offer(NUMBER, bits)
    }

    fn reserve(&mut self) -> Result<Spans, DeskFault> {
        self.file.reserve(NUMBER)
    }

    fn write(&mut self, at: u64, piece: &[u8]) -> Result<Written, DeskFault> {
        self.file.write(NUMBER, at, piece)
    }

    fn release(&mut self) {
        self.file.release(NUMBER);
    }

    fn commit(&mut self) -> Result<(), DeskFault> {
        self.file.commit()
    }

    fn verify(&mut self, part: u16) -> Result<Verdict, DeskFault> {
        self.file.verify(part)
    }

    fn drop_part(&mut self, part: u16) -> Result<(), DeskFault> {
        self.file.drop_part(part)
    }
}
