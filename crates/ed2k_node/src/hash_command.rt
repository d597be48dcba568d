//! `hash NAME`: the link of a blob, whose bytes are read once.
ghost use Rattle.std.specs.Prelude.{◌≡◌, [], length, Err, Some, OnOk, IfOk, IfSome, IsTrue};
ghost use Rattle.blob_hasher.specs.Hashes.{HasBlobCause};
ghost use Rattle.ed2k_link.specs.Name.{is_name};
ghost use Rattle.part_sizes.specs.Part.{IsSize};
ghost use Rattle.ed2k_node.specs.Answers.{HasBlobFault, IsHashAnswer};
ghost use Rattle.ed2k_node.specs.Commands.{is_blob_name};
ghost use Rattle.ed2k_node.specs.Hashed.{DigestsBlob, DigestsFetched, HashesBlob, IsUnfit, RefusesUnfit};

use crate::answer::{Reply, line};
use blob_hasher::{HashFault, hash_blob};
use ed2k_link::{FileLink, LinkFault, print_link};
use ed2k_outside::{Blob, Blobs, Bytes, NoMemory};
use part_sizes::Hashes;
use std::alloc::Global;

/// An MD4 digest.
type Hash = [u8; 16];

/// The root of an AICH tree.
type Root = [u8; 20];

/// What a link says of a file's bytes.
#[derive(Clone, Copy, Debug)]
pub(crate) struct Digest {
    /// The number of bytes, from 1 to `SIZE_LIMIT`.
    pub(crate) size: u64,
    /// The file's hash.
    pub(crate) hash: Hash,
    /// The root of the file's AICH tree.
    pub(crate) root: Root,
}

/// The size and the hashes of a blob's bytes.
fn digest_blob<B: Blob>(alloc: Global, blob: &mut B) -> Result<Digest, HashFault>
    ensures size { IfOk result (λ digest. IsSize digest.size) }
    ensures digest { IfOk result (DigestsBlob (B.bytes blob.old)) }
    ensures refused { result ≡ Err HashFault.BadSize → IsUnfit (B.bytes blob.old) }
    ensures bytes { B.bytes blob.new ≡ B.bytes blob.old }
    ensures cause { HasBlobCause (B.blob_faults blob.old) (B.blob_faults blob.new) result }
{
    let found = hash_blob(alloc, blob)?;
    let size = found.tree.size();
    let hash = found.hash;
    let root = found.tree.root();
    Ok(Digest { size, hash, root })
}

/// The size and the hashes of the blob of a name, which is given back.
fn digest_named<B: Blobs>(alloc: Global, blobs: &mut B, name: &str) -> Result<Digest, HashFault>
    ensures size { IfOk result (λ digest. IsSize digest.size) }
    ensures digest { IfOk result (DigestsFetched name.now (B.list blobs.old) (B.list blobs.new)) }
    ensures refused { RefusesUnfit name.now (B.list blobs.old) (B.list blobs.new) result }
    ensures cause { HasBlobCause (B.blobs_faults blobs.old) (B.blobs_faults blobs.new) result }
{
    match blobs.fetch(name) {
        Ok(blob) => {
            let mut blob = blob;
            let digest = digest_blob(alloc, &mut blob);
            blobs.close(blob);
            digest
        }
        Err(_) => Err(HashFault::Blob),
    }
}

/// The name of a blob as that of a file.
fn file_name(alloc: Global, name: &str) -> Result<Bytes, NoMemory>
    requires named { IsTrue (is_blob_name name.now) }
    ensures same { IfOk result (λ bytes. bytes ≡ name.now) }
    ensures legal { OnOk result (IsTrue (is_name name.now)) }
{
    Ok(Bytes::new(Vec::from_slice(alloc, name.as_bytes())?))
}

/// The link of a file of this name, without part hashes.
fn link_of(alloc: Global, name: Bytes, digest: &Digest) -> FileLink
    requires named { IsTrue (is_name name) }
    requires sized { IsSize digest.now.size }
    ensures name { result.name ≡ name }
    ensures size { result.size ≡ digest.now.size }
    ensures hash { result.hash ≡ digest.now.hash }
    ensures root { result.root ≡ Some digest.now.root }
    ensures parts { result.parts ≡ [] }
{
    let size = digest.size;
    let hash = digest.hash;
    let root = digest.root;
    FileLink {
        name,
        size,
        hash,
        parts: Hashes::new(Vec::new(alloc)),
        root: Some(root),
    }
}

/// The line with the link of the blob of a name.
fn hash_line<B: Blobs>(alloc: Global, blobs: &mut B, name: &str) -> Result<Bytes, HashFault>
    requires named { IsTrue (is_blob_name name.now) }
    ensures line { IfOk result (HashesBlob name.now (B.list blobs.old) (B.list blobs.new)) }
    ensures refused { RefusesUnfit name.now (B.list blobs.old) (B.list blobs.new) result }
    ensures cause { HasBlobCause (B.blobs_faults blobs.old) (B.blobs_faults blobs.new) result }
{
    let digest = digest_named(alloc, blobs, name)?;
    let file_name = file_name(alloc, name)?;
    let link = link_of(alloc, file_name, &digest);
    Ok(line(print_link(alloc, &link)?)?)
}

/// The answer to `hash NAME`.
pub(crate) fn hash<B: Blobs>(alloc: Global, blobs: &mut B, name: &str) -> Reply
    requires named { IsTrue (is_blob_name name.now) }
    ensures right { IsHashAnswer name.now (B.list blobs.old) (B.list blobs.new) result }
    ensures blob { HasBlobFault (B.blobs_faults blobs.old) (B.blobs_faults blobs.new) result }
{
    match hash_line(alloc, blobs, name) {
        Ok(text) => Reply::Line(text),
        Err(HashFault::BadSize) => Reply::Refused(LinkFault::BadSize),
        Err(HashFault::Blob) => Reply::Blob,
        Err(HashFault::NoMemory) => Reply::NoMemory,
    }
}
