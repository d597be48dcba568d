//! Adding to a log file.
ghost use Rattle.std.specs.Prelude.{◌≡◌, ◌+◌, ◌<◌, ◌≤◌, ◌^◌, ℕ, List, length, OnOk, IfSome, IsTrue};
ghost use Rattle.ed2k_outside.specs.Causes.{HasCause};
ghost use Rattle.ed2k_outside.specs.Crashes.{IsDurable};
ghost use Rattle.ed2k_outside.specs.Runs.{Ran};
ghost use Rattle.journal_core.specs.Appends.{IsMeant, MayHave, body_of};
ghost use Rattle.journal_core.specs.Gates.{Grown};

use ed2k_outside::{Failed, Vault, Which};

/// The place where the next record of a log file is written.
#[derive(Clone, Copy, Debug)]
pub struct Journal {
    /// Where the gate stands that ends the log.
    pub gate: u64,
}

impl Journal {
    /// Adds a record, given as its kind, length, payload and a closed gate, to a log file that ends at this
    /// gate. It makes four calls of the vault and takes no memory.
    ///
    /// A crash at any moment of it leaves the records before, or these and the new one. After a call that
    /// failed either may stand in the log, so it is loaded again before anything else is added.
    pub fn append<V: Vault>(&mut self, vault: &mut V, spelled: &[u8]) -> Result<(), Failed>
        requires meant { (front : List ℕ) × (text : List ℕ)
            × IsMeant self.old.gate spelled.now (V.files vault.old) front text }
        requires low { self.old.gate + 1 < 2 ^ 64 }
        requires durable { IsTrue (V.honest vault.old)
            → IsDurable Which.Log (V.files vault.old) (V.crash vault.old) }
        ensures gate { OnOk result (self.new.gate ≡ self.old.gate + length spelled.now) }
        ensures low { OnOk result (self.new.gate + 1 < 2 ^ 64) }
        ensures grown { (front text : List ℕ)
            → IsMeant self.old.gate spelled.now (V.files vault.old) front text
            → OnOk result (IfSome (V.files vault.new) (λ files. Grown front text files.log)) }
        ensures durable { OnOk result (IsTrue (V.honest vault.old)
            → IsDurable Which.Log (V.files vault.new) (V.crash vault.new)) }
        ensures torn { (front text : List ℕ)
            → IsMeant self.old.gate spelled.now (V.files vault.old) front text
            → IsTrue (V.honest vault.old)
            → Ran (V.made vault.old) (V.crash vault.old) (V.crash vault.new)
            (MayHave (V.crash vault.old) front text) (MayHave (V.crash vault.old) front text) }
        ensures body { body_of (V.files vault.new) ≡ body_of (V.files vault.old) }
        ensures cause { HasCause (V.faults vault.old) (V.faults vault.new) result }
        ensures clean { OnOk result (V.faults vault.new ≡ V.faults vault.old) }
        ensures made { OnOk result (V.made vault.new ≡ V.made vault.old + 4) }
        ensures later { V.made vault.old ≤ V.made vault.new }
        ensures at_most_four { V.made vault.new ≤ V.made vault.old + 4 }
        ensures placed { V.placed vault.new ≡ V.placed vault.old }
        ensures body_reads { V.body_reads vault.new ≡ V.body_reads vault.old }
        ensures honest { V.honest vault.new ≡ V.honest vault.old }
    {
        vault.write_at(Which::Log, self.gate + 1, spelled)?;
        vault.sync(Which::Log)?;
        vault.write_at(Which::Log, self.gate, &[1])?;
        vault.sync(Which::Log)?;
        self.gate += spelled.len() as u64;
        Ok(())
    }
}
