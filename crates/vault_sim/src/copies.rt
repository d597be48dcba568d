//! Bytes that are copied out of a list of them, or written over it.
ghost use Rattle.std.specs.Prelude.{◌≡◌, ◌+◌, ◌-◌, ◌≤◌, ℕ, length, min, take, drop, IfOk, OnErr, OnOk};
ghost use Rattle.ed2k_outside.specs.Files.{overwritten};

use std::alloc::{AllocError, Global};

/// Writes the piece over what stands from a place on, and past the end.
pub(crate) fn overwrite(file: &mut Vec<u8>, at: usize, piece: &[u8]) -> Result<(), AllocError>
    requires { at ≤ length file.old.items }
    ensures ok { OnOk result (file.new.items ≡ overwritten file.old.items at piece.now) }
    ensures err { OnErr result (file.new.items ≡ file.old.items) }
{
    let within = piece.len().min(file.len() - at);
    file.extend_from_slice(&piece[within..])?;
    file[at..at + within].copy_from_slice(&piece[..within]);
    Ok(())
}

/// A copy of the bytes from a place on, of at most so many.
pub(crate) fn copied(
    alloc: Global,
    bytes: &[u8],
    at: usize,
    n: usize,
) -> Result<Vec<u8>, AllocError>
    requires { at ≤ length bytes.now }
    ensures { IfOk result (λ copy. copy.items ≡ take n (drop at bytes.now)) }
{
    let count = n.min(bytes.len() - at);
    let mut copy = Vec::new(alloc);
    copy.extend_from_slice(&bytes[at..at + count])?;
    Ok(copy)
}
