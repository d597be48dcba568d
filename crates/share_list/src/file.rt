//! A file that is shared.
ghost use Rattle.std.specs.Prelude.{◌≡◌, ◌-◌, ◌≤◌, ◌||◌, false, length, take, drop, is_err, IfSome, OnErr, OnOk};
ghost use Rattle.std.specs.Str.{bytes_eq};
ghost use Rattle.blob_hasher.specs.Hashes.{HashesBlob};
ghost use Rattle.ed2k_outside.specs.Causes.{HasCause};
ghost use Rattle.part_hashset.specs.HashSet.{ed2k, set_of};
ghost use Rattle.part_sizes.specs.Part.{IsSize};
ghost use Rattle.share_list.specs.Shares.{Shared, IsShared, IsLater};

use aich_tree::Tree;
use blob_hasher::{self, Hashed};
use ed2k_outside::{Blob, Bytes, Failed};
use part_sizes::{Hash, Hashes, Span};
use std::marker::Model;
use std::snapshot::Snapshot;

/// A blob that is shared, with its name and the hashes of its bytes.
///
/// A clause sees it as its name, the bytes that were hashed, the blob as it was added and as it is now, and
/// whether a read has failed since. Where the blob tells its bytes, they are those that were hashed.
#[derive(Drop)]
pub struct SharedFile<B: Blob> {
    name: Bytes,
    size: u64,
    hashed: Hashed,
    blob: B,
    first: Snapshot<B>,
    failed: bool,
}

impl<B: Blob> Model for SharedFile<B> {
    ghost use Rattle.share_list.specs.Shares.{Shared, Keeps};

    ghost Value = { Shared B };

    ghost view = { λ f. record {
      name = f.name;
      bytes = f.hashed.tree;
      first = f.first.value;
      blob = f.blob;
      failed = f.failed;
    } };

    ghost invariant = { λ f. Keeps f.size f.hashed (B.bytes f.blob) (B.blob_faults f.first.value) (B.blob_faults f.blob) f.failed };
}

impl<B: Blob + Drop> SharedFile<B> {
    /// A blob that was hashed, under a name.
    pub(crate) fn new(name: Bytes, hashed: Hashed, blob: B) -> Self
        requires { HashesBlob (B.bytes blob) hashed }
        ensures is { result ≡ record { name = name; bytes = hashed.tree; first = blob; blob = blob; failed = false } }
        ensures shared { IsShared (B.bytes blob) (B.blob_faults blob) (B.blob_faults blob) hashed.tree false }
    {
        let size = hashed.tree.size();
        let first = Snapshot::of(&blob);
        SharedFile {
            name,
            size,
            hashed,
            blob,
            first,
            failed: false,
        }
    }

    /// The name that it is shared under.
    pub fn name(&self) -> &[u8]
        ensures { result.now ≡ self.now.name }
    {
        self.name.as_slice()
    }

    /// The number of its bytes.
    pub fn size(&self) -> u64
        ensures value { result ≡ length self.now.bytes }
        ensures limits { IsSize result }
    {
        self.size
    }

    /// Its hash.
    pub fn hash(&self) -> Hash
        ensures { result ≡ ed2k self.now.bytes }
    {
        self.hashed.hash
    }

    /// Its hash set: the hash of each part, with that of the empty part at the end of a whole multiple of parts;
    /// none below one part.
    pub fn set(&self) -> &Hashes
        ensures { result.now ≡ set_of self.now.bytes }
    {
        &self.hashed.set
    }

    /// Its AICH tree.
    pub fn tree(&self) -> &Tree
        ensures { result.now ≡ self.now.bytes }
    {
        &self.hashed.tree
    }

    /// Whether a read of it has failed. The blob's count of faults has risen then since the file was added.
    pub fn has_failed(&self) -> bool
        ensures { result ≡ self.now.failed }
    {
        self.failed
    }

    /// What is true of every shared file, for callers' proofs: the function is there for its clause alone.
    pub fn is_shared(&self)
        ensures { IsShared (B.bytes self.now.blob) (B.blob_faults self.now.first) (B.blob_faults self.now.blob) self.now.bytes self.now.failed }
    {
        let _ = &self.failed;
    }

    /// Whether it has this hash.
    pub(crate) fn has_hash(&self, hash: &Hash) -> bool
        ensures { result ≡ bytes_eq (ed2k self.now.bytes) hash.now }
    {
        self.hashed.hash == *hash
    }

    /// Fills the buffer with the bytes of a span.
    pub(crate) fn read(&mut self, span: Span, buffer: &mut [u8]) -> Result<(), Failed>
        requires span { span.e ≤ length self.old.bytes }
        requires forward { span.s ≤ span.e }
        requires buffer { length buffer.old ≡ span.e - span.s }
        ensures content { OnOk result (IfSome (B.bytes self.old.blob) (λ bytes. buffer.new ≡ take (span.e - span.s) (drop span.s bytes))) }
        ensures same { IsLater B.bytes self.old self.new }
        ensures failed { self.new.failed ≡ (self.old.failed || is_err result) }
        ensures cause { HasCause (B.blob_faults self.old.blob) (B.blob_faults self.new.blob) result }
    {
        let answer = blob_hasher::fill(&mut self.blob, span.s, buffer);
        if answer.is_err() {
            self.failed = true;
        }
        answer
    }

    /// Gives its blob back.
    pub(crate) fn into_blob(self) -> B
        ensures { result ≡ self.blob }
    {
        self.blob
    }
}
