//! Loading a log file.
ghost use Rattle.std.specs.Prelude.{◌≡◌, ◌≤◌, ◌<◌, ◌+◌, ◌^◌, Err, IfErr, IfOk, IfSome, IsTrue, OnOk};
ghost use Rattle.ed2k_outside.specs.Causes.{Rose};
ghost use Rattle.ed2k_outside.specs.Crashes.{IsDurable};
ghost use Rattle.journal_core.specs.Faults.{IsKept};
ghost use Rattle.journal_core.specs.Loads.{IsLoaded, Refuses};
ghost use Rattle.journal_core.specs.Looks.{OnlyLooks};

use crate::header::Header;
use crate::journal::Journal;
use crate::parsing::{Parsed, parse};
use crate::probing::{Probe, look, settle};
use crate::reading::fill;
use crate::record::Record;
use ed2k_outside::{Failed, NoMemory, Vault, Which};
use std::alloc::{AllocError, Global};

/// The most bytes that are read at a time.
const READ_SIZE: u64 = 32_768;

/// Why a log file isn't loaded.
#[derive(Clone, Copy, Debug, PartialEq, Eq)]
pub enum LoadFault {
    /// No store was made in it.
    Fresh,
    /// It contradicts the format at this place.
    NotOurs(u64),
    /// A call of the vault failed.
    Fault,
    /// Memory was wanted and refused.
    NoMemory,
}

impl From<Failed> for LoadFault {
    ghost use Rattle.std.specs.Prelude.{◌≡◌};
    ghost use Rattle.journal_core.specs.declared.loading.LoadFault.TheVariants.{Fault};

    ghost from_gives = { λ _ fault. fault ≡ Fault };

    fn from(_failed: Failed) -> Self {
        LoadFault::Fault
    }
}

impl From<NoMemory> for LoadFault {
    ghost use Rattle.std.specs.Prelude.{◌≡◌};
    ghost use Rattle.journal_core.specs.declared.loading.LoadFault.TheVariants.{NoMemory};

    ghost from_gives = { λ _ fault. fault ≡ NoMemory };

    fn from(_refused: NoMemory) -> Self {
        LoadFault::NoMemory
    }
}

impl From<AllocError> for LoadFault {
    ghost use Rattle.std.specs.Prelude.{◌≡◌};
    ghost use Rattle.journal_core.specs.declared.loading.LoadFault.TheVariants.{NoMemory};

    ghost from_gives = { λ _ fault. fault ≡ NoMemory };

    fn from(_refused: AllocError) -> Self {
        LoadFault::NoMemory
    }
}

/// The bytes of the log, read in pieces.
fn read_log<V: Vault>(alloc: Global, vault: &mut V) -> Result<Vec<u8>, LoadFault>
    ensures bytes { IfOk result (λ log. IfSome (V.files vault.old) (λ f. log.items ≡ f.log)) }
    ensures refused { IfErr result (λ fault. IfSome (V.files vault.old) (λ f. Refuses fault f.log)) }
    ensures looks { OnlyLooks V.Vault vault.old vault.new }
    ensures later { V.faults vault.old ≤ V.faults vault.new }
    ensures fault { result ≡ Err LoadFault.Fault → Rose (V.faults vault.old) (V.faults vault.new) }
    ensures clean { OnOk result (V.faults vault.new ≡ V.faults vault.old) }
{
    let len = vault.len(Which::Log)?;
    let mut log = Vec::new(alloc);
    let mut piece = [0; READ_SIZE as usize];
    let mut at = 0;
    'reading: while at < len {
        let n = READ_SIZE.min(len - at);
        let front = &mut piece[..n as usize];
        fill(vault, at, front)?;
        log.extend_from_slice(front)?;
        at += n;
    }
    Ok(log)
}

/// Reads a log that is kept.
fn load_kept<V: Vault>(
    alloc: Global,
    vault: &mut V,
) -> Result<(Journal, Header, Vec<Record>), LoadFault>
    requires { IfSome (V.files vault.old) (λ f. IsKept f.log) }
    ensures loaded { IfOk result (λ found. IfSome (V.files vault.old) (λ f.
        IsLoaded found.1 found.2.items found.0.gate f.log)) }
    ensures refused { IfErr result (λ fault. IfSome (V.files vault.old) (λ f. Refuses fault f.log)) }
    ensures low { IfOk result (λ found. found.0.gate + 1 < 2 ^ 64) }
    ensures looks { OnlyLooks V.Vault vault.old vault.new }
    ensures later { V.faults vault.old ≤ V.faults vault.new }
    ensures fault { result ≡ Err LoadFault.Fault → Rose (V.faults vault.old) (V.faults vault.new) }
    ensures clean { OnOk result (V.faults vault.new ≡ V.faults vault.old) }
{
    let log = read_log(alloc, vault)?;
    match parse(alloc, &log)? {
        Parsed::Log(header, records, gate) => Ok((Journal { gate }, header, records)),
        Parsed::NotOurs(at) => Err(LoadFault::NotOurs(at)),
    }
}

impl Journal {
    /// Syncs both files and reads the log: where it ends, its header, and its records from the oldest on. It
    /// changes no byte and reads nothing of the body. A crash within it leaves what one before it might have
    /// left.
    ///
    /// `Fresh` comes exactly where no store was made in the log, `NotOurs` exactly where the log contradicts the
    /// format, with the first such place, and `Fault` only where a call of the vault failed.
    pub fn load<V: Vault>(
        alloc: Global,
        vault: &mut V,
    ) -> Result<(Journal, Header, Vec<Record>), LoadFault>
        ensures loaded { IfOk result (λ found. IfSome (V.files vault.old) (λ f.
            IsLoaded found.1 found.2.items found.0.gate f.log)) }
        ensures refused { IfErr result (λ fault. IfSome (V.files vault.old) (λ f. Refuses fault f.log)) }
        ensures low { IfOk result (λ found. found.0.gate + 1 < 2 ^ 64) }
        ensures body { OnOk result (IsTrue (V.honest vault.old)
            → IsDurable Which.Body (V.files vault.new) (V.crash vault.new)) }
        ensures log { OnOk result (IsTrue (V.honest vault.old)
            → IsDurable Which.Log (V.files vault.new) (V.crash vault.new)) }
        ensures looks { OnlyLooks V.Vault vault.old vault.new }
        ensures later { V.faults vault.old ≤ V.faults vault.new }
        ensures fault { result ≡ Err LoadFault.Fault → Rose (V.faults vault.old) (V.faults vault.new) }
        ensures clean { OnOk result (V.faults vault.new ≡ V.faults vault.old) }
    {
        settle(vault)?;
        match look(vault)? {
            Probe::Fresh => Err(LoadFault::Fresh),
            Probe::Foreign(at) => Err(LoadFault::NotOurs(at)),
            Probe::Kept => load_kept(alloc, vault),
        }
    }
}
