//! Writes and commits.

ghost use Rattle.std.specs.Prelude.{◌≡◌, ◌↔◌, ◌<◌, ◌≤◌, ◌&&◌, [], if◌then◌else◌, is_ok, IsFalse, IsTrue, OnOk, OnErr, IfOk, Err};
ghost use Rattle.reserve_core.specs.Events.{events};
ghost use Rattle.reserve_core.specs.Filled.{AreUnsettled, IsFullPart, is_uncommitted};
ghost use Rattle.reserve_core.specs.Held.{may_write};
ghost use Rattle.reserve_core.specs.Seen.{Answers, Adds, NeedsNone, added, log_after_commit, newest_calls};
ghost use Rattle.reserve_core.specs.declared.event.Event.TheVariants.{Commit, Write};

use super::{Core, Written};
use crate::event::{Entry, Event};
use crate::fault::DeskFault;
use crate::part_state::{commit_all, open_part};
use crate::{holders, holds};
use ed2k_outside::NoMemory;
use part_sizes::{Span, Spans, part_of};

impl Core {
    /// Makes sure that `write` with these arguments, called next, is Ok and needs no memory. It is
    /// refused as `write` is, or with `NoMemory`, and adds no entry.
    pub fn ready_write(&mut self, peer: u64, span: Span) -> Result<(), DeskFault>
        ensures aim { self.new.aim ≡ self.old.aim }
        ensures log { self.new.log ≡ self.old.log }
        ensures answer { Answers self.old (Write peer span) result }
        ensures entry { OnOk result (IsTrue self.new.can_add) }
        ensures fill { OnOk result (IsTrue self.new.can_fill) }
        ensures room { IsTrue self.old.can_add → IsTrue self.old.can_fill → NeedsNone result }
    {
        if !self.may_write(peer, span) {
            return Err(DeskFault::NotHeld);
        }
        self.reserve_entry()?;
        self.reserve_fill()
    }

    /// Records that a peer filled a span. It is refused with `NotHeld` where the span is empty or no range
    /// that the peer holds begins with it and reaches its end; or with `NoMemory`, which doesn't come right
    /// after a `ready_write` that was Ok. It finds the peer by a binary search, and looks at no range of
    /// another.
    pub fn write(&mut self, peer: u64, span: Span, calls: u64) -> Result<Written, DeskFault>
        requires { newest_calls 0 self.old.log ≤ calls }
        ensures aim { self.new.aim ≡ self.old.aim }
        ensures answer { Answers self.old (Write peer span) result }
        ensures log { Adds self.old self.new calls (Write peer span) result }
        ensures full { IfOk result (λ written. IsFullPart self.new.aim.size (events self.new.log) span.s written.full) }
        ensures room { IsTrue self.old.can_add → IsTrue self.old.can_fill → NeedsNone result }
        ensures newest { newest_calls 0 self.new.log ≤ calls }
    {
        self.ready_write(peer, span)?;
        self.fill(peer, span, calls);
        let full = self.full_part(span.s);
        Ok(Written { full })
    }

    /// True exactly where the peer may write the span.
    fn may_write(&self, peer: u64, span: Span) -> bool
        ensures { result ≡ may_write (events self.now.log) peer span }
    {
        !span.is_empty() && holds::reaches(holders::ranges_of(&self.holders, peer), span)
    }

    /// Records a span that the peer may write, into room that was taken.
    fn fill(&mut self, peer: u64, span: Span, calls: u64)
        requires held { IsTrue (may_write (events self.old.log) peer span) }
        requires calls { newest_calls 0 self.old.log ≤ calls }
        requires entry { IsTrue self.old.can_add }
        requires room { IsTrue self.old.can_fill }
        ensures aim { self.new.aim ≡ self.old.aim }
        ensures log { self.new.log ≡ added self.old.log calls (Write peer span) }
        ensures within { span.s < self.new.aim.size }
        ensures newest { newest_calls 0 self.new.log ≤ calls }
    {
        let part = part_of(self.aim.size, span.s);
        self.log.push_reserved(Entry {
            calls,
            event: Event::Write(peer, span),
        });
        self.moved_end = self.log.as_slice().len();
        self.filled.add(span);
        self.fresh.add(span);
        holders::advance(&mut self.holders, peer, span);
        open_part(&mut self.states, usize::from(part));
        self.uncommitted = true;
    }

    /// The part of a position, where it is full.
    fn full_part(&self, position: u64) -> Option<u16>
        requires { position < self.now.aim.size }
        ensures { IsFullPart self.now.aim.size (events self.now.log) position result }
    {
        let part = part_of(self.aim.size, position);
        let is_full = self.first_unfilled(part).is_none();
        is_full.then_some(part)
    }

    /// Makes sure that `commit`, called next, is Ok and needs no memory, and answers what it will make
    /// durable: the maximal runs of the positions that are filled and not yet durable. It is refused only
    /// for want of memory, and adds no entry.
    pub fn ready_commit(&mut self) -> Result<Spans, DeskFault>
        ensures aim { self.new.aim ≡ self.old.aim }
        ensures log { self.new.log ≡ self.old.log }
        ensures refused { OnErr result (result ≡ Err DeskFault.NoMemory) }
        ensures entry { OnOk result (IsTrue self.new.can_add) }
        ensures spans { IfOk result (λ spans. AreUnsettled self.old.aim.size (events self.old.log) spans) }
        ensures none { IfOk result (λ spans. (spans ≡ []) ↔ IsFalse (is_uncommitted (events self.old.log))) }
    {
        self.reserve_entry()?;
        match self.fresh.spans() {
            Ok(spans) => Ok(spans),
            Err(_) => Err(DeskFault::NoMemory),
        }
    }

    /// Records that all that was written is durable, where something was written since the last commit.
    /// It is refused only for want of memory, and not right after a `ready_commit` that was Ok.
    pub fn commit(&mut self, calls: u64) -> Result<(), DeskFault>
        requires { newest_calls 0 self.old.log ≤ calls }
        ensures aim { self.new.aim ≡ self.old.aim }
        ensures refused { OnErr result (result ≡ Err DeskFault.NoMemory) }
        ensures log { self.new.log ≡ log_after_commit (is_ok result) self.old.log calls }
        ensures room { IsTrue self.old.can_add → NeedsNone result }
        ensures newest { newest_calls 0 self.new.log ≤ calls }
    {
        if !self.uncommitted {
            return Ok(());
        }
        self.reserve_entry()?;
        self.log.push_reserved(Entry {
            calls,
            event: Event::Commit,
        });
        self.fresh.clear();
        self.uncommitted = false;
        commit_all(&mut self.states);
        Ok(())
    }
}
