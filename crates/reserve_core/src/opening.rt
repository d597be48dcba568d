//! What the state that a log begins with is kept as.

ghost use Rattle.std.specs.Prelude.{◌≡◌, ℕ, ◌+◌, ◌<◌, ◌≤◌, ◌||◌, false, length, slice_index_or, IfOk, vec_len};
ghost use Rattle.std.specs.FinSet as set;
ghost use Rattle.std.specs.List.{list_any};
ghost use Rattle.byte_ranges.specs.Spans.{IsApart};
ghost use Rattle.part_sizes.specs.Span.{has};
ghost use Rattle.part_hashset.specs.Goals.{digest_in};
ghost use Rattle.reserve_core.specs.declared.part_state.PartState.{PartState};

use crate::part_state::PartState;
use byte_ranges::Ranges;
use part_hashset::Hash;
use part_sizes::{Pair, Span};
use std::alloc::{AllocError, Global};

/// Adds all the spans, into room that was taken.
pub fn fill_all(filled: &mut Ranges, spans: &[Span])
    requires apart { IsApart 0 (filled.old.size + 1) spans.now }
    requires spare { length spans.now ≤ filled.old.spare }
    ensures set { (x : ℕ) → set.contains filled.new.set x ≡ (set.contains filled.old.set x || list_any (λ r. has r x) spans.now) }
    ensures size { filled.new.size ≡ filled.old.size }
    ensures spare { filled.old.spare ≤ filled.new.spare + length spans.now }
{
    for span in spans {
        filled.add(*span);
    }
}

/// The digest of the first pair of a part.
fn digest_in(pairs: &[Pair], part: u16) -> Option<Hash>
    ensures { result ≡ digest_in pairs.now part }
{
    for pair in pairs {
        if pair.part == part {
            return Some(pair.digest);
        }
    }
    None
}

/// The state of each part by the verdicts that a log begins with.
pub fn states(alloc: Global, parts: u16, pairs: &[Pair]) -> Result<Vec<PartState>, AllocError>
    ensures len { IfOk result (λ v. length v.items ≡ parts) }
    ensures each { IfOk result (λ v. (i : ℕ) (d : PartState)
        → i < parts
        → slice_index_or v.items i d ≡ record { verdict = digest_in pairs.now i; uncommitted = false; failures = 0 }) }
{
    let mut states = Vec::new(alloc);
    for part in 0..parts {
        states.push(PartState {
            verdict: digest_in(pairs, part),
            uncommitted: false,
            failures: 0,
        })?;
    }
    Ok(states)
}
