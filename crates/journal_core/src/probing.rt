//! Telling what a log file is.
ghost use Rattle.std.specs.Prelude.{◌≡◌, ◌<◌, ℕ, List, length, take, OnOk, IfOk, IfSome, IsTrue};
ghost use Rattle.ed2k_outside.specs.Causes.{HasCause};
ghost use Rattle.ed2k_outside.specs.Crashes.{IsDurable};
ghost use Rattle.journal_core.specs.Looks.{OnlyLooks};
ghost use Rattle.journal_core.specs.Probes.{IsProbed};

use crate::journal::Journal;
use crate::reading::fill;
use ed2k_outside::{Failed, Vault, Which};

/// The bytes that a log file begins with.
const MAGIC: [u8; 8] = *b"ED2KPF01";

/// What a log file is.
#[derive(Clone, Copy, Debug, PartialEq, Eq)]
pub enum Probe {
    /// No store was made in it.
    Fresh,
    /// It is the log of a store.
    Kept,
    /// It is of another format, which shows at this place first.
    Foreign(u64),
}

/// What a log of more than nine bytes is, by the first nine.
fn probe_front(front: &[u8; 9]) -> Probe
    ensures { (log : List ℕ) → 9 < length log → take 9 log ≡ front.now → IsProbed result log }
{
    for place in 0..8 {
        if front[place] != MAGIC[place] {
            return Probe::Foreign(place as u64);
        }
    }
    if front[8] == 1 {
        Probe::Kept
    } else {
        Probe::Fresh
    }
}

/// Tells what the log is, and changes no byte.
pub(crate) fn look<V: Vault>(vault: &mut V) -> Result<Probe, Failed>
    ensures found { IfOk result (λ probe. IfSome (V.files vault.old) (λ f. IsProbed probe f.log)) }
    ensures looks { OnlyLooks V.Vault vault.old vault.new }
    ensures cause { HasCause (V.faults vault.old) (V.faults vault.new) result }
    ensures clean { OnOk result (V.faults vault.new ≡ V.faults vault.old) }
{
    if vault.len(Which::Log)? <= 9 {
        return Ok(Probe::Fresh);
    }
    let mut front = [0; 9];
    fill(vault, 0, &mut front)?;
    Ok(probe_front(&front))
}

/// Syncs both files. After it a crash leaves what a read gives.
pub(crate) fn settle<V: Vault>(vault: &mut V) -> Result<(), Failed>
    ensures body { OnOk result (IsTrue (V.honest vault.old)
        → IsDurable Which.Body (V.files vault.new) (V.crash vault.new)) }
    ensures log { OnOk result (IsTrue (V.honest vault.old)
        → IsDurable Which.Log (V.files vault.new) (V.crash vault.new)) }
    ensures looks { OnlyLooks V.Vault vault.old vault.new }
    ensures cause { HasCause (V.faults vault.old) (V.faults vault.new) result }
    ensures clean { OnOk result (V.faults vault.new ≡ V.faults vault.old) }
{
    vault.sync(Which::Body)?;
    vault.sync(Which::Log)
}

impl Journal {
    /// Syncs both files and tells what the log is. It changes no byte, reads nothing of the body, and takes
    /// no memory. A crash within it leaves what one before it might have left.
    ///
    /// A log is fresh where it has at most nine bytes, or the magic bytes and a closed gate. It is foreign
    /// where it has more than nine bytes and differs from the magic ones, and else it is kept.
    pub fn probe<V: Vault>(vault: &mut V) -> Result<Probe, Failed>
        ensures found { IfOk result (λ probe. IfSome (V.files vault.old) (λ f. IsProbed probe f.log)) }
        ensures body { OnOk result (IsTrue (V.honest vault.old)
            → IsDurable Which.Body (V.files vault.new) (V.crash vault.new)) }
        ensures log { OnOk result (IsTrue (V.honest vault.old)
            → IsDurable Which.Log (V.files vault.new) (V.crash vault.new)) }
        ensures looks { OnlyLooks V.Vault vault.old vault.new }
        ensures cause { HasCause (V.faults vault.old) (V.faults vault.new) result }
        ensures clean { OnOk result (V.faults vault.new ≡ V.faults vault.old) }
    {
        settle(vault)?;
        look(vault)
    }
}
