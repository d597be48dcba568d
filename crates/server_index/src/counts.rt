//! How many postings each key has, so that a search goes by the shortest list. A count is a hint: a search finds
//! the same whatever the counts are.
ghost use Rattle.std.specs.Prelude.{◌≡◌, ◌<◌, ◌≤◌, ◌+◌, ◌-◌, ℕ, true, false, min, None, length, slice_index};
ghost use Rattle.std.specs.HashMap.{IsUnchanged};
ghost use Rattle.server_index.specs.Counts as said;

use std::collections::HashMap;

/// How many postings each key has.
pub type Counts = HashMap<u64, u32>;

/// Counts a posting that is new. Where memory is refused the count stays too low.
pub fn count_up(counts: &mut Counts, key: u64, is_new: bool)
    ensures old { is_new ≡ false → IsUnchanged counts.old counts.new }
    ensures more { said.count_of counts.old key ≤ said.count_of counts.new key }
    ensures most { said.count_of counts.new key ≤ said.count_of counts.old key + 1 }
    ensures known { is_new ≡ true → 0 < said.count_of counts.old key
        → said.count_of counts.new key ≡ min (said.count_of counts.old key + 1) 4294967295 }
    ensures others { said.KeepsOthers counts.old counts.new key }
{
    if !is_new {
        return;
    }
    if let Some(count) = counts.get_mut(&key) {
        *count = count.saturating_add(1);
        return;
    }
    let _ = counts.insert(key, 1);
}

/// Counts a posting that was there and is gone. No memory.
pub fn count_down(counts: &mut Counts, key: u64, was_there: bool)
    ensures old { was_there ≡ false → IsUnchanged counts.old counts.new }
    ensures less { was_there ≡ true
        → said.count_of counts.new key ≡ said.count_of counts.old key - 1 }
    ensures none { was_there ≡ true → said.count_of counts.new key ≡ 0
        → said.count_at counts.new key ≡ None }
    ensures others { said.KeepsOthers counts.old counts.new key }
{
    if !was_there {
        return;
    }
    if let Some(count) = counts.get_mut(&key) {
        if *count > 1 {
            *count -= 1;
            return;
        }
    }
    counts.remove(&key);
}

/// About how many postings a key has.
pub fn count_of(counts: &Counts, key: u64) -> u32
    ensures { result ≡ said.count_of counts.now key }
{
    counts.get(&key).copied().unwrap_or(0)
}

/// Where the key stands that has the fewest postings.
pub fn rarest(counts: &Counts, keys: &[u64]) -> usize
    requires { 0 < length keys.now }
    ensures there { result < length keys.now }
    ensures least { (i : ℕ) → i < length keys.now
        → said.count_of counts.now (slice_index keys.now result)
        ≤ said.count_of counts.now (slice_index keys.now i) }
{
    let mut best = 0;
    for i in 1..keys.len() {
        if count_of(counts, keys[i]) < count_of(counts, keys[best]) {
            best = i;
        }
    }
    best
}
