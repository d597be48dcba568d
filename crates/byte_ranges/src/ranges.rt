//! The set, with its room for edits.
ghost use Rattle.std.specs.Prelude.{◌≡◌, ℕ, ◌+◌, ◌-◌, ◌^◌, ◌<◌, ◌≤◌, ◌↔◌, IsTrue, IsOk, OnOk, OnErr, IfOk, MatchOption, vec_len, vec_capacity};
ghost use Rattle.std.specs.FinSet as set;
ghost use Rattle.byte_ranges.specs.RangeSet.{RangeSet, range_set_code, IsWithin, Covers, Meets, IsFirstIn, IsFirstOut, Misses, span_set};
ghost use Rattle.byte_ranges.specs.Spans.{set_of, IsApart};

use crate::spans;
use ed2k_outside::NoMemory;
use part_sizes::{Span, Spans};
use std::alloc::Global;
use std::marker::Model;

/// A set of positions below a size.
#[derive(Debug, Drop)]
pub struct Ranges {
    size: u64,
    spans: Vec<Span>,
}

impl Model for Ranges {
    ghost Value = { RangeSet };

    ghost coded = { range_set_code };

    ghost view = { λ r. record {
      size = r.size;
      set = set_of r.spans.items;
      spare = vec_capacity r.spans - vec_len r.spans;
    } };

    ghost invariant = { λ r. IsApart 0 (r.size + 1) r.spans.items × (r.size < 2 ^ 64) };
}

impl Ranges {
    /// The empty set, of positions below a size. It takes no memory.
    pub fn new(alloc: Global, size: u64) -> Self
        ensures size { result.size ≡ size }
        ensures set { result.set ≡ set.empty }
    {
        Ranges {
            size,
            spans: Vec::new(alloc),
        }
    }

    /// Makes room for at least as many edits. After a refusal the set is as before.
    pub fn reserve(&mut self, edits: usize) -> Result<(), NoMemory>
        ensures ok { OnOk result (edits ≤ self.new.spare) }
        ensures size { self.new.size ≡ self.old.size }
        ensures set { self.new.set ≡ self.old.set }
        ensures spare { self.old.spare ≤ self.new.spare }
        ensures refused { OnErr result (self.new ≡ self.old) }
        ensures enough { edits ≤ self.old.spare → IsOk result }
    {
        self.spans.reserve(edits)?;
        Ok(())
    }

    /// Adds the positions of a span. It uses up the room of at most one edit, which has to be there.
    pub fn add(&mut self, span: Span)
        requires within { IsWithin span self.old.size }
        requires spare { 1 ≤ self.old.spare }
        ensures set { self.new.set ≡ set.union self.old.set (span_set span) }
        ensures size { self.new.size ≡ self.old.size }
        ensures spare { self.old.spare ≤ self.new.spare + 1 }
    {
        if !span.is_empty() {
            spans::put(&mut self.spans, span);
        }
    }

    /// Takes the positions of a span away. It uses up the room of at most one edit, which has to be there.
    pub fn take(&mut self, span: Span)
        requires within { IsWithin span self.old.size }
        requires spare { 1 ≤ self.old.spare }
        ensures set { self.new.set ≡ set.difference self.old.set (span_set span) }
        ensures size { self.new.size ≡ self.old.size }
        ensures spare { self.old.spare ≤ self.new.spare + 1 }
    {
        if !span.is_empty() {
            spans::cut(&mut self.spans, span);
        }
    }

    /// Takes all positions away. The room for edits stays.
    pub fn clear(&mut self)
        ensures set { self.new.set ≡ set.empty }
        ensures size { self.new.size ≡ self.old.size }
        ensures spare { self.old.spare ≤ self.new.spare }
    {
        self.spans.clear();
    }

    /// The spans that make up the set, in order. They are not empty and do not touch.
    pub fn spans(&self) -> Result<Spans, NoMemory>
        ensures apart { IfOk result (λ spans. IsApart 0 (self.now.size + 1) spans) }
        ensures set { IfOk result (λ spans. set_of spans ≡ self.now.set) }
    {
        let spans = Vec::from_slice(*self.spans.allocator(), self.spans.as_slice())?;
        Ok(Spans::new(spans))
    }

    /// True exactly where the set has each position of the span.
    pub fn covers(&self, span: Span) -> bool
        requires { IsWithin span self.now.size }
        ensures { IsTrue result ↔ Covers self.now.set span }
    {
        self.first_out(span).is_none()
    }

    /// True exactly where the set has a position of the span.
    pub fn meets(&self, span: Span) -> bool
        requires { IsWithin span self.now.size }
        ensures { IsTrue result ↔ Meets self.now.set span }
    {
        spans::meets(&self.spans, span)
    }

    /// The least position of the span that the set does not have; `None` exactly where there is
    /// none.
    pub fn first_out(&self, span: Span) -> Option<u64>
        requires { IsWithin span self.now.size }
        ensures { MatchOption result (Covers self.now.set span) (λ x. IsFirstOut self.now.set span x) }
    {
        spans::first_out(&self.spans, span)
    }

    /// The least position of the span that the set has; `None` exactly where there is none.
    pub fn first_in(&self, span: Span) -> Option<u64>
        requires { IsWithin span self.now.size }
        ensures { MatchOption result (Misses self.now.set span) (λ x. IsFirstIn self.now.set span x) }
    {
        spans::first_in(&self.spans, span)
    }

    /// The number of positions in the set, which are all below the size.
    pub fn count(&self) -> u64
        ensures count { result ≡ set.len self.now.set }
        ensures below { (x : ℕ) → IsTrue (set.contains self.now.set x) → x < self.now.size }
    {
        spans::total(&self.spans)
    }
}
