//! Blobs in memory, and a list of them by name.
ghost use Rattle.std.specs.Prelude.{◌≡◌, ◌+◌, ◌-◌, ◌<◌, ◌≤◌, length, min, position, string_bytes, bytes_eq, IfOk, MatchResult, OnErr, Some};
ghost use Rattle.std.specs.Io.{ReadsAtMost};
ghost use Rattle.ed2k_outside.specs.Blobs.{ReadsAt, Fetches, IsAbsent};
ghost use Rattle.ed2k_outside.specs.Causes.{HasCause, NoneIsFault, Rose};
ghost use Rattle.ed2k_outside.specs.Scripts.{IsUnused, IsCalled, IsNextFailing, CountsFault, CountsBlobRead};

use crate::copies::copy_from;
use crate::script::Script;
use crate::{Blob, Blobs, Failed};

/// Bytes in memory. The calls are numbered from 1, and those whose numbers are given fail. Each failure
/// counts as a fault, and so does a read at or past the end into a buffer that isn't empty.
#[derive(Debug, Drop)]
pub struct MemBlob {
    script: Script,
    bytes: Vec<u8>,
    faults: u64,
}

impl MemBlob {
    ghost use Rattle.ed2k_outside.specs.MemBlobs.{blob_bytes, blob_script, blob_count};

    /// A blob of these bytes. It takes no memory.
    pub fn new(bytes: Vec<u8>, fails: Vec<u64>) -> Self
        ensures bytes { blob_bytes result ≡ bytes.items }
        ensures calls { IsUnused (blob_script result) fails.items }
        ensures faults { blob_count result ≡ 0 }
    {
        MemBlob {
            script: Script::new(fails),
            bytes,
            faults: 0,
        }
    }
}

impl Blob for MemBlob {
    ghost use Rattle.ed2k_outside.specs.MemBlobs.{blob_bytes, blob_script, blob_count};

    ghost bytes = { λ blob. Some (blob_bytes blob) };

    ghost blob_faults = { blob_count };

    fn len(&mut self) -> Result<u64, Failed>
        ensures call { IsCalled (blob_script self.old) (blob_script self.new) result }
        ensures only { OnErr result (IsNextFailing (blob_script self.old)) }
        ensures number { IfOk result (λ n. n ≡ length (blob_bytes self.old)) }
        ensures bytes { blob_bytes self.new ≡ blob_bytes self.old }
        ensures cause { HasCause (blob_count self.old) (blob_count self.new) result }
        ensures faults { CountsFault (blob_count self.old) (blob_count self.new) result }
    {
        if self.script.fails_next() {
            self.faults = self.faults.saturating_add(1);
            return Err(Failed);
        }
        Ok(self.bytes.len() as u64)
    }

    fn read(&mut self, at: u64, buf: &mut [u8]) -> Result<usize, Failed>
        ensures call { IsCalled (blob_script self.old) (blob_script self.new) result }
        ensures only { OnErr result (IsNextFailing (blob_script self.old)) }
        ensures bound { ReadsAtMost result buf.new }
        ensures number { IfOk result (λ n. n ≡ min (length buf.new) (length (blob_bytes self.old) - at)) }
        ensures content { ReadsAt (blob_bytes self.old) at result buf.new }
        ensures bytes { blob_bytes self.new ≡ blob_bytes self.old }
        ensures cause { HasCause (blob_count self.old) (blob_count self.new) result }
        ensures none { NoneIsFault (blob_count self.old) (blob_count self.new) result buf.new }
        ensures faults { CountsBlobRead (blob_count self.old) (blob_count self.new) result buf.new }
    {
        if self.script.fails_next() {
            self.faults = self.faults.saturating_add(1);
            return Err(Failed);
        }
        let count = copy_from(&self.bytes, at, buf);
        if count == 0 && !buf.is_empty() {
            self.faults = self.faults.saturating_add(1);
        }
        Ok(count)
    }
}

/// Blobs in memory, each of which is handed out once. A name that isn't there counts as a fault, and so
/// does a blob with faults that is given back.
#[derive(Debug, Drop)]
pub struct MemBlobs {
    list: Vec<(String, MemBlob)>,
    faults: u64,
}

impl MemBlobs {
    ghost use Rattle.ed2k_outside.specs.MemBlobs.{blobs_list, named_blobs, blobs_count};

    /// These blobs. It takes no memory.
    pub fn new(list: Vec<(String, MemBlob)>) -> Self
        ensures list { blobs_list result ≡ named_blobs list.items }
        ensures faults { blobs_count result ≡ 0 }
    {
        MemBlobs { list, faults: 0 }
    }
}

impl Blobs for MemBlobs {
    type Blob = MemBlob;

    ghost use Rattle.ed2k_outside.specs.MemBlobs.{blob_bytes, blob_count, blobs_list, blobs_count};

    ghost list = { λ blobs. Some (blobs_list blobs) };

    ghost blobs_faults = { blobs_count };

    fn fetch(&mut self, name: &str) -> Result<MemBlob, Failed>
        ensures list { MatchResult result
            (λ blob. Fetches name.now (Some (blob_bytes blob)) (blobs_list self.old) (blobs_list self.new))
            (λ _. blobs_list self.new ≡ blobs_list self.old) }
        ensures only { OnErr result (IsAbsent name.now (blobs_list self.old)) }
        ensures cause { HasCause (blobs_count self.old) (blobs_count self.new) result }
        ensures faults { CountsFault (blobs_count self.old) (blobs_count self.new) result }
    {
        match place_of(&self.list, name) {
            None => {
                self.faults = self.faults.saturating_add(1);
                Err(Failed)
            }
            Some(index) => {
                let (_, blob) = self.list.remove(index);
                Ok(blob)
            }
        }
    }

    fn close(&mut self, blob: MemBlob)
        ensures list { blobs_list self.new ≡ blobs_list self.old }
        ensures faults { blobs_count self.old ≤ blobs_count self.new }
        ensures passed_on { 0 < blob_count blob → Rose (blobs_count self.old) (blobs_count self.new) }
        ensures none { blob_count blob ≡ 0 → blobs_count self.new ≡ blobs_count self.old }
        ensures once { blobs_count self.new ≤ blobs_count self.old + 1 }
    {
        if blob.faults > 0 {
            self.faults = self.faults.saturating_add(1);
        }
    }
}

/// The index of the first blob that has the name.
fn place_of(list: &[(String, MemBlob)], name: &str) -> Option<usize>
    ensures { result ≡ position (λ entry. bytes_eq (string_bytes entry.0) name.now) list.now }
{
    list.iter().position(|(own, _)| own.as_str() == name)
}
