//! Bytes that stay as they are, and what they are fetched from by name.
ghost use Rattle.std.specs.Prelude.{◌≡◌, ◌<◌, ◌≤◌, List, ℕ, length, IfOk, IfSome};
ghost use Rattle.std.specs.declared.option.Option.{Option};
ghost use Rattle.std.specs.Io.{ReadsAtMost};
ghost use Rattle.ed2k_outside.specs.Causes.{HasCause, ChangesOnOk, NoneIsFault, Rose};
ghost use Rattle.ed2k_outside.specs.Blobs.{Named, ReadsAt, Fetches};

use crate::Failed;

/// Bytes that never change.
pub trait Blob {
    /// The bytes, where the blob tells them.
    ghost bytes: { Self → Option (List ℕ) };

    /// How often a call failed, or a read gave nothing to a buffer that isn't empty. It never falls.
    ghost blob_faults: { Self → ℕ };

    /// The number of bytes.
    fn len(&mut self) -> Result<u64, Failed>
        ensures number { IfOk result (λ n. IfSome (bytes self.old) (λ bytes. n ≡ length bytes)) }
        ensures bytes { bytes self.new ≡ bytes self.old }
        ensures cause { HasCause (blob_faults self.old) (blob_faults self.new) result };

    /// Copies some of the bytes from `at` on into the buffer, and answers how many.
    fn read(&mut self, at: u64, buf: &mut [u8]) -> Result<usize, Failed>
        ensures bound { ReadsAtMost result buf.new }
        ensures content { IfSome (bytes self.old) (λ bytes. ReadsAt bytes at result buf.new) }
        ensures bytes { bytes self.new ≡ bytes self.old }
        ensures cause { HasCause (blob_faults self.old) (blob_faults self.new) result }
        ensures none { NoneIsFault (blob_faults self.old) (blob_faults self.new) result buf.new };
}

/// Blobs by name.
pub trait Blobs {
    /// The bytes that a name stands for.
    type Blob: Blob;

    /// The names and bytes of the blobs left, where they are told.
    ghost list: { Self → Option (List Named) };

    /// How often a call failed, or a blob with faults was given back. It never falls.
    ghost blobs_faults: { Self → ℕ };

    /// The first blob left that has the name, which is then no longer left. A name that isn't there is a
    /// fault.
    fn fetch(&mut self, name: &str) -> Result<Self::Blob, Failed>
        ensures list { ChangesOnOk (λ blob. Fetches name.now (Self.Blob.bytes blob)) result (list self.old) (list self.new) }
        ensures cause { HasCause (blobs_faults self.old) (blobs_faults self.new) result };

    /// Takes a blob back. It can't fail and takes no memory. A blob with faults counts as a fault.
    fn close(&mut self, blob: Self::Blob)
        ensures list { list self.new ≡ list self.old }
        ensures faults { blobs_faults self.old ≤ blobs_faults self.new }
        ensures passed_on { 0 < Self.Blob.blob_faults blob → Rose (blobs_faults self.old) (blobs_faults self.new) };
}
