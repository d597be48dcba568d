//! A blob that is hashed whole.
ghost use Rattle.std.specs.Prelude.{◌≡◌, ◌≢◌, ◌*◌, ◌≤◌, min, length, vec_len, Err, IfOk, IfSome, OnOk};
ghost use Rattle.part_sizes.specs.Part.{IsSize};
ghost use Rattle.part_sizes.specs.declared.block.TheConstants.{BLOCK};
ghost use Rattle.blob_hasher.specs.Hashes.{HasBlobCause, HashesBlob};
ghost use Rattle.blob_hasher.specs.Parts.{IsFile};

use crate::fault::HashFault;
use crate::file::{FileHasher, Hashed};
use crate::four_parts::hash_four_parts;
use crate::part::{FOUR_LEN, hash_part};
use ed2k_outside::Blob;
use part_sizes::{PART, SIZE_LIMIT};
use std::alloc::{AllocError, Global};

/// The number of a blob's bytes, where a file may have so many.
fn file_size<B: Blob>(blob: &mut B) -> Result<u64, HashFault>
    ensures size { IfOk result (λ size. IsSize size) }
    ensures told { IfOk result (λ size. IfSome (B.bytes blob.old) (λ bytes. length bytes ≡ size)) }
    ensures refused { result ≡ Err HashFault.BadSize → IfSome (B.bytes blob.old) (λ bytes. ¬ IsSize (length bytes)) }
    ensures bytes { B.bytes blob.new ≡ B.bytes blob.old }
    ensures cause { HasBlobCause (B.blob_faults blob.old) (B.blob_faults blob.new) result }
{
    let size = blob.len()?;
    if size < 1 || size > SIZE_LIMIT {
        return Err(HashFault::BadSize);
    }
    Ok(size)
}

fn zeros(alloc: Global, len: usize) -> Result<Vec<u8>, AllocError>
    ensures { IfOk result (λ bytes. vec_len bytes ≡ len) }
{
    vec![in alloc; 0u8; len]
}

/// Reads all of the blob's bytes, by way of the buffer: four parts at a time, and part by part what is left.
fn read_whole<B: Blob>(
    alloc: Global,
    blob: &mut B,
    size: u64,
    buffer: &mut [u8],
    file: &mut FileHasher,
) -> Result<(), HashFault>
    requires sized { IsSize size }
    requires room { min size (4 * BLOCK) ≤ length buffer.old }
    requires file { IsFile (B.bytes blob.old) size 0 file.old }
    ensures file { OnOk result (IsFile (B.bytes blob.old) size size file.new) }
    ensures fits { result ≢ Err HashFault.BadSize }
    ensures bytes { B.bytes blob.new ≡ B.bytes blob.old }
    ensures cause { HasBlobCause (B.blob_faults blob.old) (B.blob_faults blob.new) result }
{
    let mut at = 0;
    'fours: while size - at >= 4 * PART {
        hash_four_parts(alloc, blob, at, buffer, file)?;
        at += 4 * PART;
    }
    'parts: while at < size {
        let len = PART.min(size - at);
        let part = hash_part(alloc, blob, at, len as usize, buffer)?;
        file.append(part, len as usize)?;
        at += len;
    }
    Ok(())
}

/// The hashes of a blob's bytes, which are read once, where the blob has told that it has so many.
///
/// `Blob` comes only where the blob's count of faults rose in this call. Beside the answer it takes at most
/// 1 MiB of memory.
pub fn hash_sized<B: Blob>(alloc: Global, blob: &mut B, size: u64) -> Result<Hashed, HashFault>
    requires sized { IsSize size }
    requires told { IfSome (B.bytes blob.old) (λ bytes. length bytes ≡ size) }
    ensures hashes { IfOk result (HashesBlob (B.bytes blob.old)) }
    ensures fits { result ≢ Err HashFault.BadSize }
    ensures bytes { B.bytes blob.new ≡ B.bytes blob.old }
    ensures cause { HasBlobCause (B.blob_faults blob.old) (B.blob_faults blob.new) result }
{
    let mut buffer = zeros(alloc, (FOUR_LEN as u64).min(size) as usize)?;
    let mut file = FileHasher::new(alloc, size);
    read_whole(alloc, blob, size, &mut buffer, &mut file)?;
    Ok(file.finish()?)
}

/// The file hash, the hash set and the tree of a blob's bytes, which are read once.
///
/// `BadSize` comes where they are none or more than `SIZE_LIMIT`, `Blob` only where the blob's count of faults
/// rose in this call. Beside the answer it takes at most 1 MiB of memory.
pub fn hash_blob<B: Blob>(alloc: Global, blob: &mut B) -> Result<Hashed, HashFault>
    ensures hashes { IfOk result (HashesBlob (B.bytes blob.old)) }
    ensures refused { result ≡ Err HashFault.BadSize → IfSome (B.bytes blob.old) (λ bytes. ¬ IsSize (length bytes)) }
    ensures bytes { B.bytes blob.new ≡ B.bytes blob.old }
    ensures cause { HasBlobCause (B.blob_faults blob.old) (B.blob_faults blob.new) result }
{
    let size = file_size(blob)?;
    hash_sized(alloc, blob, size)
}
