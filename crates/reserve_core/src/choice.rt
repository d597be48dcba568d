//! The free runs of what is kept as filled and held, and the first of them over the parts of an offer.

ghost use Rattle.std.specs.Prelude.{◌≡◌, ℕ, ◌<◌, ◌≤◌, ◌+◌, ◌++◌, [], ◌∷◌, not, false, find, get_or, if◌then◌else◌, length, take, unwrap_or, nat_le, vec_len, vec_capacity, IfOk, MatchOption};
ghost use Rattle.std.specs.List.{cons_option, list_any};
ghost use Rattle.byte_ranges.specs.RangeSet.{IsWithin};
ghost use Rattle.part_sizes.specs.Part.{IsSize, data_parts};
ghost use Rattle.part_sizes.specs.Span.{positions};
ghost use Rattle.reserve_core.specs.Choice.{first_run};
ghost use Rattle.reserve_core.specs.Free.{HoldsTo, IsUnheld, has_any, is_clear, is_kept, pick_by, runs_in};

use crate::hold::{Hold, Holder};
use byte_ranges::Ranges;
use ed2k_outside::NoMemory;
use part_sizes::{Span, block_count, block_range, part_range};
use std::alloc::Global;

/// How many spans are reserved at once.
pub const SPANS: usize = 3;

/// Where the range of a peer ends that has a position.
fn range_end(ranges: &[Hold], position: u64) -> Option<u64>
    ensures { MatchOption result (has_any ranges.now position ≡ false) (λ end. HoldsTo (has_any ranges.now) position end) }
{
    for hold in ranges {
        if hold.from <= position && position < hold.whole.e {
            return Some(hold.whole.e);
        }
    }
    None
}

/// Where a range of some peer ends that has a position.
fn held_end(holders: &[Holder], position: u64) -> Option<u64>
    ensures { MatchOption result (is_kept holders.now position ≡ false) (λ end. HoldsTo (is_kept holders.now) position end) }
{
    for holder in holders {
        if let Some(end) = range_end(&holder.ranges, position) {
            return Some(end);
        }
    }
    None
}

/// The least of a position and where a range goes on or begins from a place.
fn before_hold(hold: &Hold, start: u64, end: u64) -> u64
    requires { start ≤ end }
    ensures { IsUnheld (has_any (hold.now ∷ [])) (record { s = start; e = end }) result }
{
    let begin = start.max(hold.from);
    if begin < hold.whole.e && begin < end {
        begin
    } else {
        end
    }
}

/// The least position of a span that a range of a peer has, or its end.
fn range_from(ranges: &[Hold], span: Span) -> u64
    requires { span.s ≤ span.e }
    ensures { IsUnheld (has_any ranges.now) span result }
{
    let mut end = span.e;
    for hold in ranges {
        end = before_hold(hold, span.s, end);
    }
    end
}

/// The least position of a span that a range of some peer has, or its end.
fn held_from(holders: &[Holder], span: Span) -> u64
    requires { span.s ≤ span.e }
    ensures { IsUnheld (is_kept holders.now) span result }
{
    let mut end = span.e;
    for holder in holders {
        end = range_from(&holder.ranges, Span { s: span.s, e: end });
    }
    end
}

/// The least position of a span that is neither filled nor held. It goes from run to run: one search of
/// the filled spans and one pass over the holders and their ranges for each run that it meets.
pub fn first_free(filled: &Ranges, holders: &[Holder], span: Span) -> Option<u64>
    requires { IsWithin span filled.now.size }
    ensures { result ≡ find (is_clear filled.now.set holders.now) (positions span) }
{
    let mut at = span.s;
    while at < span.e {
        let start = match filled.first_out(Span { s: at, e: span.e }) {
            None => return None,
            Some(start) => start,
        };
        match held_end(holders, start) {
            None => return Some(start),
            Some(end) => at = end,
        }
    }
    None
}

/// The least position of a span that is filled or held, or its end.
fn free_end(filled: &Ranges, holders: &[Holder], span: Span) -> u64
    requires { IsWithin span filled.now.size }
    ensures { result ≡ unwrap_or (find (λ x. not (is_clear filled.now.set holders.now x)) (positions span)) span.e }
{
    let end = held_from(holders, span);
    filled.first_in(Span { s: span.s, e: end }).unwrap_or(end)
}

/// The first free run of a span.
fn first_run(filled: &Ranges, holders: &[Holder], span: Span) -> Option<Span>
    requires { IsWithin span filled.now.size }
    ensures { result ≡ first_run (is_clear filled.now.set holders.now) span }
{
    match first_free(filled, holders, span) {
        None => None,
        Some(start) => {
            let end = free_end(
                filled,
                holders,
                Span {
                    s: start,
                    e: span.e,
                },
            );
            Some(Span { s: start, e: end })
        }
    }
}

/// Puts a span behind the others, if there is one.
fn push_some(spans: &mut Vec<Span>, run: Option<Span>)
    requires { vec_len spans.old < vec_capacity spans.old }
    ensures items { spans.new.items ≡ spans.old.items ++ cons_option run [] }
    ensures capacity { vec_capacity spans.new ≡ vec_capacity spans.old }
    ensures len { vec_len spans.new ≤ vec_len spans.old + 1 }
{
    if let Some(run) = run {
        spans.push_reserved(run);
    }
}

/// Adds the first free run of each block of a part, up to three runs in all. A part without a free
/// position costs one search, whatever the number of its blocks.
fn add_runs(filled: &Ranges, holders: &[Holder], size: u64, part: u16, spans: &mut Vec<Span>)
    requires size { IsSize size }
    requires same { filled.now.size ≡ size }
    requires exists { part < data_parts size }
    requires room { vec_capacity spans.old ≡ 3 }
    requires few { length spans.old.items ≤ 3 }
    ensures items { spans.new.items ≡ take 3 (spans.old.items ++ runs_in size (is_clear filled.now.set holders.now) part) }
    ensures capacity { vec_capacity spans.new ≡ 3 }
{
    if first_free(filled, holders, part_range(size, part)).is_none() {
        return;
    }
    for block in 0..block_count(size, part) {
        if spans.as_slice().len() == SPANS {
            return;
        }
        let run = first_run(filled, holders, block_range(size, part, block));
        push_some(spans, run);
    }
}

/// True exactly where the bit of a part is set.
pub fn is_set(bits: &[bool], part: u16) -> bool
    ensures { result ≡ get_or bits.now part false }
{
    bits.get(usize::from(part)).copied().unwrap_or(false)
}

/// Adds the runs of a part whose bit is set.
fn add_offered(
    filled: &Ranges,
    holders: &[Holder],
    size: u64,
    part: u16,
    bits: &[bool],
    spans: &mut Vec<Span>,
)
    requires size { IsSize size }
    requires same { filled.now.size ≡ size }
    requires exists { part < data_parts size }
    requires room { vec_capacity spans.old ≡ 3 }
    requires few { length spans.old.items ≤ 3 }
    ensures items { spans.new.items ≡ take 3 (spans.old.items ++ (if get_or bits.now part false then runs_in size (is_clear filled.now.set holders.now) part else [])) }
    ensures capacity { vec_capacity spans.new ≡ 3 }
{
    if is_set(bits, part) {
        add_runs(filled, holders, size, part, spans);
    }
}

/// The first three free runs, one of each block, over the parts whose bits are set, in their order.
///
/// It looks at no block of a part whose bit isn't set or that has no free position, and at no part behind
/// the third run.
pub fn pick(
    alloc: Global,
    filled: &Ranges,
    holders: &[Holder],
    size: u64,
    parts: &[u16],
    bits: &[bool],
) -> Result<Vec<Span>, NoMemory>
    requires size { IsSize size }
    requires same { filled.now.size ≡ size }
    requires exist { list_any (λ i. nat_le (data_parts size) i) parts.now ≡ false }
    ensures { IfOk result (λ spans. spans.items ≡ pick_by size (is_clear filled.now.set holders.now) bits.now parts.now) }
{
    let mut spans = Vec::with_capacity(alloc, SPANS)?;
    for part in parts {
        if spans.as_slice().len() == SPANS {
            return Ok(spans);
        }
        add_offered(filled, holders, size, *part, bits, &mut spans);
    }
    Ok(spans)
}
