//! The order of parts.
ghost use Rattle.std.specs.Prelude.{◌≡◌, ℕ, ◌<◌, ◌≤◌, length, All, IfOk, IsPermutation, IsSorted, slice_index};
ghost use Rattle.std.specs.List.{range_with_len};
ghost use Rattle.part_picker.specs.Order.{by_count, count_then_number};

use ed2k_outside::NoMemory;
use std::alloc::Global;

/// The numbers of the parts, those with a lesser count first, and in one count the lesser number
/// first. `counts` has at each part's number how many peers have it; there are at most 65,536 parts.
pub fn order(alloc: Global, counts: &[u64]) -> Result<Vec<u16>, NoMemory>
    requires { length counts.now ≤ 65536 }

    // For each count from 0 up, the parts with that count, ascending; whatever bound the counts are below.
    ensures by_count { IfOk result (λ parts. (bound : ℕ)
        → All (λ count. count < bound) counts.now
        → parts.items ≡ by_count counts.now bound) }
    ensures numbers { IfOk result (λ parts. IsPermutation (range_with_len 0 (length counts.now)) parts.items) }
    ensures sorted { IfOk result (λ parts. IsSorted (count_then_number counts.now) parts.items) }
{
    let mut parts = Vec::with_capacity(alloc, counts.len())?;
    for part in 0..counts.len() {
        parts.push(part as u16)?;
    }
    parts.sort_by_key(|part| count_of(counts, *part))?;
    Ok(parts)
}

/// The count at a number, and 0 behind the last.
fn count_of(counts: &[u64], part: u16) -> u64
    ensures { result ≡ slice_index counts.now part }
{
    counts.get(usize::from(part)).copied().unwrap_or(0)
}
