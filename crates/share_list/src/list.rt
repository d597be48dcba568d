//! The list of the files that are shared.
ghost use Rattle.std.specs.Prelude.{◌≡◌, ◌≢◌, ℕ, ◌-◌, ◌<◌, ◌≤◌, [], length, None, Some, slice_get, IfErr, IfOk, IfSome, OnErr};
ghost use Rattle.std.specs.List.{position};
ghost use Rattle.std.specs.Str.{bytes_eq};
ghost use Rattle.part_hashset.specs.HashSet.{ed2k};
ghost use Rattle.share_list.specs.Calls.{Adds, Pops, Reads, Refuses};

use crate::adding;
use crate::fault::ShareFault;
use crate::file::SharedFile;
use ed2k_outside::Blob;
use part_sizes::{Hash, Span};
use std::alloc::Global;
use std::marker::Model;

/// The files that are shared, in the order in which they were added. A place counts from 0.
///
/// A clause sees it as the list of the files.
#[derive(Drop)]
pub struct ShareList<B: Blob> {
    alloc: Global,
    files: Vec<SharedFile<B>>,
}

impl<B: Blob> Model for ShareList<B> {
    ghost use Rattle.std.specs.Prelude.{List};
    ghost use Rattle.share_list.specs.Shares.{Shared};

    ghost Value = { List (Shared B) };

    ghost view = { λ l. l.files.items };
}

impl<B: Blob + Drop> ShareList<B> {
    /// No files. It takes no memory.
    pub fn new(alloc: Global) -> Self
        ensures { result ≡ [] }
    {
        ShareList {
            alloc,
            files: Vec::new(alloc),
        }
    }

    /// The number of files.
    pub fn len(&self) -> usize
        ensures { result ≡ length self.now }
    {
        self.files.len()
    }

    /// The file at a place.
    pub fn file(&self, k: usize) -> &SharedFile<B>
        requires { k < length self.now }
        ensures { slice_get self.now k ≡ Some result.now }
    {
        &self.files[k]
    }

    /// Adds a blob under a name behind the other files, and answers its hash. Its bytes are read once.
    ///
    /// Refusals: `BadSize` with the number of bytes that the blob tells, where a file can't have so many;
    /// `BlobFault`, only where the blob's count of faults rose in this call; `NoMemory`, never of a blob whose
    /// size is refused. The blob comes back then, and the list is as it was.
    pub fn add(&mut self, name: &str, blob: B) -> Result<Hash, (B, ShareFault)>
        ensures added { IfOk result (λ hash. Adds B.bytes B.blob_faults name.now blob hash self.old self.new) }
        ensures refused { IfErr result (λ refused. Refuses B.bytes B.blob_faults blob refused.0 refused.1) }
        ensures list { OnErr result (self.new ≡ self.old) }
    {
        adding::add(self.alloc, &mut self.files, name, blob)
    }

    /// The least place of a file that has this hash; `None` exactly where no file has it.
    pub fn find(&self, hash: &Hash) -> Option<usize>
        ensures { result ≡ position (λ file. bytes_eq (ed2k file.bytes) hash.now) self.now }
    {
        self.files.iter().position(|file| file.has_hash(hash))
    }

    /// Fills the buffer with the bytes of a span of the file at a place. It takes no memory. It answers
    /// `BlobFault` only where the blob's count of faults rose in this call, and the file keeps then that a read
    /// has failed.
    pub fn read(&mut self, k: usize, span: Span, buffer: &mut [u8]) -> Result<(), ShareFault>
        requires file { k < length self.old }
        requires span { IfSome (slice_get self.old k) (λ file. span.e ≤ length file.bytes) }
        requires forward { span.s ≤ span.e }
        requires buffer { length buffer.old ≡ span.e - span.s }
        ensures read { Reads B.bytes B.blob_faults k span self.old self.new result buffer.new }
    {
        self.files[k].read(span, buffer)?;
        Ok(())
    }

    /// Takes the last file out, and gives its blob; `None` exactly where there is no file. It takes no memory.
    pub fn pop(&mut self) -> Option<B>
        ensures last { IfSome result (Pops self.old self.new) }
        ensures none { result ≡ None → (self.old ≡ []) × (self.new ≡ []) }
    {
        Some(self.files.pop()?.into_blob())
    }
}
