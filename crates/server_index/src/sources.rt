//! Where a file can be had.
ghost use Rattle.std.specs.Prelude.{◌≡◌, IfOk};
ghost use Rattle.server_index.specs.Found.{sources};

use crate::files::Files;
use crate::postings::Hash;
use ed2k_outside::NoMemory;
use plain_list::List;
use std::alloc::Global;

/// Ids and ports of sessions.
pub type Places = List<(u32, u16)>;

/// The most sources that are told.
const MOST: usize = 255;

/// The id and port of each session that has a hash, by number.
pub fn find_sources(alloc: Global, files: &Files, hash: &Hash) -> Result<Vec<(u32, u16)>, NoMemory>
    ensures { IfOk result (λ out. out.items ≡ sources hash.now files.now.live.entries) }
{
    let mut out = Vec::new(alloc);
    for (spot, file) in files.live.range((*hash, 0)..) {
        if spot.0 != *hash {
            break;
        }
        if out.len() == MOST {
            break;
        }
        out.push(file.place())?;
    }
    Ok(out)
}
