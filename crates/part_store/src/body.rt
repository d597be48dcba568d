//! The body of a download in a vault.
ghost use Rattle.std.specs.Prelude.{◌≡◌, ◌+◌, ◌-◌, ◌<◌, ◌≤◌, length, take, drop, OnOk, IfOk, IfSome, IsTrue};
ghost use Rattle.md4_hash.specs.Md4.{md4};
ghost use Rattle.ed2k_outside.specs.Causes.{HasCause, IfKnown};
ghost use Rattle.ed2k_outside.specs.Crashes.{IsDurable};
ghost use Rattle.part_store.specs.Body.{Blanks, log_of};
ghost use Rattle.part_store.specs.Calls.{OnlyReads};

use ed2k_outside::{Failed, Vault, Which};
use md4_hash::Md4;
use part_hashset::Hash;
use part_sizes::Span;

/// The most bytes that are read at a time.
const READ_SIZE: usize = 32_768;

/// Makes a body of `size` zero bytes, and syncs it.
pub(crate) fn make<V: Vault>(vault: &mut V, size: u64) -> Result<(), Failed>
    ensures body { OnOk result (IfKnown (Blanks size) (V.files vault.old) (V.files vault.new)) }
    ensures durable { OnOk result (IsTrue (V.honest vault.old) → IsDurable Which.Body (V.files vault.new) (V.crash vault.new)) }
    ensures honest { V.honest vault.new ≡ V.honest vault.old }
    ensures placed { V.placed vault.new ≡ V.placed vault.old }
    ensures log_file { log_of (V.files vault.new) ≡ log_of (V.files vault.old) }
    ensures cause { HasCause (V.faults vault.old) (V.faults vault.new) result }
    ensures clean { OnOk result (V.faults vault.new ≡ V.faults vault.old) }
    ensures made { OnOk result (V.made vault.new ≡ V.made vault.old + 3) }
    ensures at_most_thrice { V.made vault.new ≤ V.made vault.old + 3 }
{
    vault.set_len(Which::Body, 0)?;
    vault.set_len(Which::Body, size)?;
    vault.sync(Which::Body)
}

/// Reads some of the `left` bytes of the body that stand from `at` on.
fn read_some<V: Vault>(
    vault: &mut V,
    at: u64,
    left: u64,
    buffer: &mut [u8],
) -> Result<usize, Failed>
    requires within { IfSome (V.files vault.old) (λ files. at + left ≤ length files.body) }
    requires some { (0 < left) × (0 < length buffer.old) }
    ensures bound { IfOk result (λ n. (0 < n) × (n ≤ left) × (n ≤ length buffer.new)) }
    ensures content { IfOk result (λ n. IfSome (V.files vault.new) (λ files. take n buffer.new ≡ take n (drop at files.body))) }
    ensures files { V.files vault.new ≡ V.files vault.old }
    ensures made { V.made vault.old ≤ V.made vault.new }
    ensures reads { OnOk result (OnlyReads V.made V.body_reads vault.old vault.new) }
    ensures honest { V.honest vault.new ≡ V.honest vault.old }
    ensures placed { V.placed vault.new ≡ V.placed vault.old }
    ensures cause { HasCause (V.faults vault.old) (V.faults vault.new) result }
    ensures clean { OnOk result (V.faults vault.new ≡ V.faults vault.old) }
{
    let room = buffer
        .len()
        .min(usize::try_from(left).unwrap_or(usize::MAX));
    match vault.read(Which::Body, at, &mut buffer[..room]) {
        Ok(0) => Err(Failed),
        answer => answer,
    }
}

/// The MD4 of the bytes of the body in a span. It takes no memory.
pub(crate) fn hash<V: Vault>(vault: &mut V, span: Span) -> Result<Hash, Failed>
    requires ordered { span.s ≤ span.e }
    requires within { IfSome (V.files vault.old) (λ files. span.e ≤ length files.body) }
    ensures hash { IfOk result (λ hash. IfSome (V.files vault.new) (λ files. hash ≡ md4 (take (span.e - span.s) (drop span.s files.body)))) }
    ensures files { V.files vault.new ≡ V.files vault.old }
    ensures made { V.made vault.old ≤ V.made vault.new }
    ensures reads { OnOk result (OnlyReads V.made V.body_reads vault.old vault.new) }
    ensures honest { V.honest vault.new ≡ V.honest vault.old }
    ensures placed { V.placed vault.new ≡ V.placed vault.old }
    ensures cause { HasCause (V.faults vault.old) (V.faults vault.new) result }
    ensures clean { OnOk result (V.faults vault.new ≡ V.faults vault.old) }
{
    let mut hasher = Md4::new();
    let mut buffer = [0u8; READ_SIZE];
    let mut at = span.s;
    'reading: while at < span.e {
        let n = read_some(vault, at, span.e - at, &mut buffer)?;
        hasher.update(&buffer[..n]);
        at += n as u64;
    }
    Ok(hasher.finalize())
}
