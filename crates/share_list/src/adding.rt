//! Blobs that are hashed and put behind the files of a list.
ghost use Rattle.std.specs.Prelude.{◌≡◌, ℕ, ◌<◌, ◌≤◌, length, vec_len, vec_capacity, IfErr, IfOk, IfSome, OnErr, OnOk};
ghost use Rattle.blob_hasher.specs.Hashes.{HashesBlob};
ghost use Rattle.ed2k_outside.specs.Causes.{Rose};
ghost use Rattle.part_sizes.specs.Part.{IsSize};
ghost use Rattle.share_list.specs.Calls.{Adds, Refuses, Stays};

use crate::fault::ShareFault;
use crate::file::SharedFile;
use blob_hasher::{HashFault, Hashed, hash_sized};
use ed2k_outside::{Blob, Bytes};
use part_sizes::{Hash, SIZE_LIMIT};
use std::alloc::Global;

/// The number of a blob's bytes, where a file may have so many.
fn file_size<B: Blob>(blob: &mut B) -> Result<u64, ShareFault>
    ensures size { IfOk result IsSize }
    ensures told { IfOk result (λ size. IfSome (B.bytes blob.old) (λ bytes. length bytes ≡ size)) }
    ensures refused { IfErr result (Refuses B.bytes B.blob_faults blob.old blob.new) }
    ensures stays { Stays B.bytes B.blob_faults blob.old blob.new }
{
    let size = blob.len()?;
    if size < 1 || size > SIZE_LIMIT {
        return Err(ShareFault::BadSize(size));
    }
    Ok(size)
}

/// The hashes of a blob of this size.
fn hash<B: Blob>(alloc: Global, blob: &mut B, size: u64) -> Result<Hashed, ShareFault>
    requires sized { IsSize size }
    requires told { IfSome (B.bytes blob.old) (λ bytes. length bytes ≡ size) }
    ensures hashes { IfOk result (HashesBlob (B.bytes blob.old)) }
    ensures refused { IfErr result (Refuses B.bytes B.blob_faults blob.old blob.new) }
    ensures stays { Stays B.bytes B.blob_faults blob.old blob.new }
{
    match hash_sized(alloc, blob, size) {
        Ok(hashed) => Ok(hashed),
        Err(HashFault::NoMemory) => Err(ShareFault::NoMemory),
        Err(_) => Err(ShareFault::BlobFault),
    }
}

/// Takes the room for one file more, and answers its name and its hashes.
fn prepare<B: Blob>(
    alloc: Global,
    files: &mut Vec<SharedFile<B>>,
    name: &str,
    blob: &mut B,
) -> Result<(Bytes, Hashed), ShareFault>
    ensures files { files.new.items ≡ files.old.items }
    ensures room { OnOk result (vec_len files.new < vec_capacity files.new) }
    ensures name { IfOk result (λ found. found.0 ≡ name.now) }
    ensures hashes { IfOk result (λ found. HashesBlob (B.bytes blob.old) found.1) }
    ensures refused { IfErr result (Refuses B.bytes B.blob_faults blob.old blob.new) }
    ensures stays { Stays B.bytes B.blob_faults blob.old blob.new }
{
    let size = file_size(blob)?;
    let name = Bytes::new(Vec::from_slice(alloc, name.as_bytes())?);
    files.reserve(1)?;
    let hashed = hash(alloc, blob, size)?;
    Ok((name, hashed))
}

/// Puts a blob behind the files under a name, and answers its hash.
pub fn add<B: Blob + Drop>(
    alloc: Global,
    files: &mut Vec<SharedFile<B>>,
    name: &str,
    blob: B,
) -> Result<Hash, (B, ShareFault)>
    ensures added { IfOk result (λ hash. Adds B.bytes B.blob_faults name.now blob hash files.old.items files.new.items) }
    ensures refused { IfErr result (λ refused. Refuses B.bytes B.blob_faults blob refused.0 refused.1) }
    ensures files { OnErr result (files.new.items ≡ files.old.items) }
{
    let mut blob = blob;
    match prepare(alloc, files, name, &mut blob) {
        Ok((name, hashed)) => {
            let file = SharedFile::new(name, hashed, blob);
            let hash = file.hash();
            files.push_reserved(file);
            Ok(hash)
        }
        Err(fault) => Err((blob, fault)),
    }
}
