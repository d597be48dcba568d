//! Reads of a log file.
ghost use Rattle.std.specs.Prelude.{◌≡◌, ◌+◌, ◌<◌, ◌≤◌, ◌^◌, length, take, drop, OnOk, IfOk, IfSome};
ghost use Rattle.ed2k_outside.specs.Causes.{HasCause};
ghost use Rattle.journal_core.specs.Looks.{OnlyLooks};

use ed2k_outside::{Failed, Vault, Which};

/// Reads some of the log's bytes from `at` on. No byte is a fault.
fn read_some<V: Vault>(vault: &mut V, at: u64, buffer: &mut [u8]) -> Result<usize, Failed>
    requires some { 0 < length buffer.old }
    requires within { IfSome (V.files vault.old) (λ f. at + length buffer.old ≤ length f.log) }
    ensures bound { IfOk result (λ n. (0 < n) × (n ≤ length buffer.new)) }
    ensures content { IfOk result (λ n. IfSome (V.files vault.old) (λ f.
        take n buffer.new ≡ take n (drop at f.log))) }
    ensures looks { OnlyLooks V.Vault vault.old vault.new }
    ensures cause { HasCause (V.faults vault.old) (V.faults vault.new) result }
    ensures clean { OnOk result (V.faults vault.new ≡ V.faults vault.old) }
{
    match vault.read(Which::Log, at, buffer) {
        Ok(0) => Err(Failed),
        answer => answer,
    }
}

/// Fills the buffer with the log's bytes from `at` on.
pub(crate) fn fill<V: Vault>(vault: &mut V, at: u64, buffer: &mut [u8]) -> Result<(), Failed>
    requires within { IfSome (V.files vault.old) (λ f. at + length buffer.old ≤ length f.log) }
    requires fits { at + length buffer.old < 2 ^ 64 }
    ensures content { OnOk result (IfSome (V.files vault.old) (λ f.
        buffer.new ≡ take (length buffer.old) (drop at f.log))) }
    ensures looks { OnlyLooks V.Vault vault.old vault.new }
    ensures cause { HasCause (V.faults vault.old) (V.faults vault.new) result }
    ensures clean { OnOk result (V.faults vault.new ≡ V.faults vault.old) }
{
    let mut filled = 0;
    'filling: while filled < buffer.len() {
        filled += read_some(vault, at + filled as u64, &mut buffer[filled..])?;
    }
    Ok(())
}
