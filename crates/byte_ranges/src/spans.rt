//! Lists of spans that are not empty, ascend and do not touch.

ghost use Rattle.std.specs.Prelude.{◌≡◌, ℕ, ◌+◌, ◌-◌, ◌<◌, ◌≤◌, ◌^◌, ◌↔◌, ◌++◌, IsTrue, MatchOption, length, take, drop, slice_range, vec_len, vec_capacity};
ghost use Rattle.std.specs.FinSet as set;
ghost use Rattle.byte_ranges.specs.RangeSet.{Covers, IsFirstIn, IsFirstOut, Meets, Misses, span_set};
ghost use Rattle.byte_ranges.specs.Spans.{AreApart, Each, IsApart, IsNear, begins_before, hull, run_end, run_start, set_of, total, unless_empty};

use part_sizes::Span;

/// The places of the spans that overlap or touch a span, and the least span round it and them.
struct Near {
    start: usize,
    end: usize,
    whole: Span,
}

/// Puts a span in the place of those that overlap or touch it.
pub fn put(spans: &mut Vec<Span>, span: Span)
    requires filled { span.s < span.e }
    requires room { vec_len spans.old < vec_capacity spans.old }
    requires apart { AreApart spans.old.items }
    ensures set { set_of spans.new.items ≡ set.union (set_of spans.old.items) (span_set span) }
    ensures apart { (high : ℕ)
        → span.e < high → IsApart 0 high spans.old.items → IsApart 0 high spans.new.items }
    ensures len { vec_len spans.new ≤ vec_len spans.old + 1 }
    ensures capacity { vec_capacity spans.new ≡ vec_capacity spans.old }
{
    let Near { start, end, whole } = find_near(spans, span);
    remove(spans, start, end);
    insert(spans, start, whole);
}

/// Leaves of the spans that overlap a span what is not in it.
pub fn cut(spans: &mut Vec<Span>, span: Span)
    requires filled { span.s < span.e }
    requires room { vec_len spans.old < vec_capacity spans.old }
    requires apart { AreApart spans.old.items }
    ensures set { set_of spans.new.items ≡ set.difference (set_of spans.old.items) (span_set span) }
    ensures apart { (high : ℕ)
        → span.e < high → IsApart 0 high spans.old.items → IsApart 0 high spans.new.items }
    ensures len { vec_len spans.new ≤ vec_len spans.old + 1 }
    ensures capacity { vec_capacity spans.new ≡ vec_capacity spans.old }
{
    let Near { start, end, whole } = find_near(spans, span);
    if start == end {
        return;
    }
    let left = Span {
        s: whole.s,
        e: span.s,
    };
    let right = Span {
        s: span.e,
        e: whole.e,
    };
    remove(spans, start, end);
    insert(spans, start, right);
    insert(spans, start, left);
}

/// The first position of a span that no span of the list has.
pub fn first_out(spans: &[Span], span: Span) -> Option<u64>
    requires { AreApart spans.now }
    ensures { MatchOption result (Covers (set_of spans.now) span)
        (λ x. IsFirstOut (set_of spans.now) span x) }
{
    if span.is_empty() {
        return None;
    }
    let start = ended(spans, span.s + 1);
    let end = run_end(&spans[start..], span.s);
    (end < span.e).then_some(end)
}

/// The first position of a span that some span of the list has.
pub fn first_in(spans: &[Span], span: Span) -> Option<u64>
    requires { AreApart spans.now }
    ensures { MatchOption result (Misses (set_of spans.now) span)
        (λ x. IsFirstIn (set_of spans.now) span x) }
{
    if span.is_empty() {
        return None;
    }
    let start = ended(spans, span.s + 1);
    run_start(&spans[start..], span)
}

/// True exactly where some span of the list has a position of the span.
pub fn meets(spans: &[Span], span: Span) -> bool
    requires { AreApart spans.now }
    ensures { IsTrue result ↔ Meets (set_of spans.now) span }
{
    if span.is_empty() {
        return false;
    }
    let start = ended(spans, span.s + 1);
    begins_before(&spans[start..], span.e)
}

/// The number of positions of all the spans.
pub fn total(spans: &[Span]) -> u64
    requires { total spans.now < 2 ^ 64 }
    ensures { result ≡ total spans.now }
{
    spans.iter().map(|span| span.len()).sum()
}

fn find_near(spans: &[Span], span: Span) -> Near
    requires { AreApart spans.now }
    ensures order { result.start ≤ result.end }
    ensures within { result.end ≤ length spans.now }
    ensures near { IsNear span (take result.start spans.now)
        (slice_range spans.now result.start result.end) (drop result.end spans.now) }
    ensures whole { result.whole ≡ hull span (slice_range spans.now result.start result.end) }
{
    let start = ended(spans, span.s);
    let end = start + begun(&spans[start..], span.e);
    let whole = hull(&spans[start..end], span);
    Near { start, end, whole }
}

/// How many spans end before a position.
fn ended(spans: &[Span], position: u64) -> usize
    requires { AreApart spans.now }
    ensures within { result ≤ length spans.now }
    ensures before { Each (λ q. q.e < position) (take result spans.now) }
    ensures behind { Each (λ q. position ≤ q.e) (drop result spans.now) }
{
    spans.partition_point(|span| span.e < position)
}

/// How many spans begin at or before a position.
fn begun(spans: &[Span], position: u64) -> usize
    requires { AreApart spans.now }
    ensures within { result ≤ length spans.now }
    ensures before { Each (λ q. q.s ≤ position) (take result spans.now) }
    ensures behind { Each (λ q. position < q.s) (drop result spans.now) }
{
    spans.partition_point(|span| span.s <= position)
}

/// The least span that has a span and those of the list.
fn hull(spans: &[Span], span: Span) -> Span
    ensures { result ≡ hull span spans.now }
{
    spans.iter().fold(
        span,
        |whole, next| Span {
            s: whole.s.min(next.s),
            e: whole.e.max(next.e),
        },
    )
}

/// Removes the spans from one place up to another.
fn remove(spans: &mut Vec<Span>, start: usize, end: usize)
    requires order { start ≤ end }
    requires within { end ≤ vec_len spans.old }
    ensures items { spans.new.items ≡ take start spans.old.items ++ drop end spans.old.items }
    ensures len { vec_len spans.new + (end - start) ≡ vec_len spans.old }
    ensures capacity { vec_capacity spans.new ≡ vec_capacity spans.old }
{
    drop(spans.drain(start..end));
}

/// Inserts a span that has a position, for which there is room.
fn insert(spans: &mut Vec<Span>, at: usize, span: Span)
    requires at { at ≤ vec_len spans.old }
    requires room { vec_len spans.old < vec_capacity spans.old }
    ensures items { spans.new.items
        ≡ take at spans.old.items ++ (unless_empty span ++ drop at spans.old.items) }
    ensures len { vec_len spans.new ≤ vec_len spans.old + 1 }
    ensures capacity { vec_capacity spans.new ≡ vec_capacity spans.old }
{
    if !span.is_empty() {
        let _ = spans.insert(at, span);
    }
}

/// Where the run at a position ends, or the position itself, if the first span does not have it.
fn run_end(spans: &[Span], position: u64) -> u64
    ensures { result ≡ run_end spans.now position }
{
    match spans.first() {
        Some(run) if run.s <= position => run.e,
        _ => position,
    }
}

/// Where the first span begins within a span, if it begins before its end.
fn run_start(spans: &[Span], span: Span) -> Option<u64>
    ensures { result ≡ run_start spans.now span }
{
    match spans.first() {
        Some(run) if run.s < span.e => Some(run.s.max(span.s)),
        _ => None,
    }
}

/// True exactly where the first span begins before a position.
fn begins_before(spans: &[Span], position: u64) -> bool
    ensures { result ≡ begins_before spans.now position }
{
    spans.first().is_some_and(|run| run.s < position)
}
