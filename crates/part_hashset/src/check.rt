//! A hash set that comes from outside is checked against the file's hash.
ghost use Rattle.std.specs.Prelude.{◌≡◌, ◌↔◌, ◌≤◌, None, Some, MatchResult, IsOk, length, take};
ghost use Rattle.md4_hash.specs.Md4.{md4};
ghost use Rattle.part_sizes.specs.Part.{IsSize};
ghost use Rattle.part_hashset.specs.HashSet.{ValidSet, joined, set_fault};

use crate::Hash;
use md4_hash::{Md4, md4};
use part_sizes::{PART, hash_count};

/// What is wrong with a hash set. Each carries what was found.
#[derive(Clone, Copy, Debug, PartialEq, Eq)]
pub enum SetFault {
    /// There are `found` members, and the size wants `wanted`.
    Count { found: u64, wanted: u64 },
    /// The size is a whole multiple of a part, and the last member isn't the hash of the empty part.
    EmptyPart { found: Hash },
    /// The concatenated members have this hash, which isn't the file's.
    Mismatch { found: Hash },
}

/// The MD4 of the concatenated members.
pub fn joined_hash(set: &[Hash]) -> Hash
    ensures { result ≡ md4 (joined set.now) }
{
    let mut hasher = Md4::new();
    for member in set {
        hasher.update(member);
    }
    hasher.finalize()
}

/// Tells whether a hash set is valid for a file of this size and hash. It takes no memory.
///
/// Below one part the empty set is the valid one. Of several faults the first is answered, in the order
/// of `SetFault`.
pub fn check_set(size: u64, hash: Hash, set: &[Hash]) -> Result<(), SetFault>
    requires { IsSize size }
    ensures valid { IsOk result ↔ ValidSet size hash set.now }
    ensures fault { MatchResult result (λ _. set_fault size hash set.now ≡ None) (λ fault. set_fault size hash set.now ≡ Some fault) }
{
    let found = set.len() as u64;
    let wanted = u64::from(hash_count(size));
    if found != wanted {
        return Err(SetFault::Count { found, wanted });
    }
    if size < PART {
        return Ok(());
    }
    let last = set[set.len() - 1];
    if size % PART == 0 && last != md4(&[]) {
        return Err(SetFault::EmptyPart { found: last });
    }
    let found = joined_hash(set);
    if found == hash {
        Ok(())
    } else {
        Err(SetFault::Mismatch { found })
    }
}
