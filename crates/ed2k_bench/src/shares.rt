//! Files that are shared, for the memory that they take.
ghost use Rattle.std.specs.Prelude.{None};

use ed2k_outside::{Blob, Failed, NoMemory};
use share_list::ShareList;
use std::alloc::Global;

/// The number of a file's bytes: a gibibyte.
const FILE: u64 = 1_073_741_824;

/// A blob of as many bytes as a file has, which are those that its reader's buffer had. It takes no memory.
#[derive(Drop)]
struct Blank {
    size: u64,
}

impl Blob for Blank {
    ghost bytes = { λ _. None };

    ghost blob_faults = { λ _. 0 };

    fn len(&mut self) -> Result<u64, Failed> {
        Ok(self.size)
    }

    fn read(&mut self, _at: u64, buf: &mut [u8]) -> Result<usize, Failed> {
        Ok(buf.len())
    }
}

/// Shares so many bytes in files of a gibibyte, and tells how many files there are.
pub(crate) fn share(alloc: Global, size: u64) -> Result<usize, NoMemory> {
    let mut list = ShareList::new(alloc);
    for _ in 0..size / FILE {
        if list.add("generated", Blank { size: FILE }).is_err() {
            return Err(NoMemory);
        }
    }
    Ok(list.len())
}
