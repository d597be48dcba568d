//! Reads that fill a buffer.
ghost use Rattle.std.specs.Prelude.{◌≡◌, ◌+◌, ◌<◌, ◌≤◌, length, take, drop, IfOk, IfSome, OnOk};
ghost use Rattle.ed2k_outside.specs.Causes.{HasCause};
ghost use Rattle.part_sizes.specs.declared.part.TheConstants.{SIZE_LIMIT};

use ed2k_outside::{Blob, Failed};

/// Reads some of the blob's bytes from `at` on. No byte is a fault.
fn read_some<B: Blob>(blob: &mut B, at: u64, buffer: &mut [u8]) -> Result<usize, Failed>
    requires { 0 < length buffer.old }
    ensures bound { IfOk result (λ n. (0 < n) × (n ≤ length buffer.new)) }
    ensures content { IfOk result (λ n. IfSome (B.bytes blob.new) (λ bytes. take n buffer.new ≡ take n (drop at bytes))) }
    ensures bytes { B.bytes blob.new ≡ B.bytes blob.old }
    ensures cause { HasCause (B.blob_faults blob.old) (B.blob_faults blob.new) result }
{
    match blob.read(at, buffer) {
        Ok(0) => Err(Failed),
        answer => answer,
    }
}

/// Fills the buffer with the blob's bytes from `at` on. It fails only where the blob's count of faults rose in
/// this call. It takes no memory.
pub fn fill<B: Blob>(blob: &mut B, at: u64, buffer: &mut [u8]) -> Result<(), Failed>
    requires { at + length buffer.old ≤ SIZE_LIMIT }
    ensures content { OnOk result (IfSome (B.bytes blob.new) (λ bytes. buffer.new ≡ take (length buffer.old) (drop at bytes))) }
    ensures bytes { B.bytes blob.new ≡ B.bytes blob.old }
    ensures cause { HasCause (B.blob_faults blob.old) (B.blob_faults blob.new) result }
{
    let mut filled = 0;
    'filling: while filled < buffer.len() {
        filled += read_some(blob, at + filled as u64, &mut buffer[filled..])?;
    }
    Ok(())
}
