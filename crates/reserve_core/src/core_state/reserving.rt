//! Offers, and the ranges that peers hold.

ghost use Rattle.std.specs.Prelude.{◌≡◌, true, [], ◌<◌, ◌≤◌, if◌then◌else◌, IsTrue, OnOk, OnErr, IfOk, unwrap_or, length, Err};
ghost use Rattle.part_sizes.specs.Part.{data_parts};
ghost use Rattle.reserve_core.specs.Events.{events, latest};
ghost use Rattle.reserve_core.specs.Choice.{offer_by, pick_of};
ghost use Rattle.reserve_core.specs.Held.{is_holder};
ghost use Rattle.reserve_core.specs.Legal.{MayReserve};
ghost use Rattle.reserve_core.specs.Seen.{Answers, Adds, NeedsNone, added, log_after_release, newest_calls};
ghost use Rattle.reserve_core.specs.Verdicts.{cheats};
ghost use Rattle.reserve_core.specs.declared.event.Event.TheVariants.{Offer, Release};
ghost use Rattle.reserve_core.specs.declared.event.Event.TheVariants as event;

use super::Core;
use crate::choice::pick;
use crate::event::{Entry, Event};
use crate::fault::DeskFault;
use crate::holders;
use crate::offers::{self, bits_in};
use ed2k_outside::NoMemory;
use part_picker::order;
use part_sizes::{Bits, Span, Spans, data_parts};

impl Core {
    /// Records what a peer offers. The newest offer of a peer counts. It is refused only for want of
    /// memory.
    pub fn offer(&mut self, peer: u64, bits: Bits, calls: u64) -> Result<(), DeskFault>
        requires bits { length bits ≡ data_parts self.old.aim.size }
        requires calls { newest_calls 0 self.old.log ≤ calls }
        ensures aim { self.new.aim ≡ self.old.aim }
        ensures answer { Answers self.old (Offer peer bits) result }
        ensures log { Adds self.old self.new calls (Offer peer bits) result }
        ensures room { IsTrue self.old.can_add → NeedsNone result }
        ensures newest { newest_calls 0 self.new.log ≤ calls }
    {
        self.reserve_entry()?;
        let place = self.log.as_slice().len();
        self.log.push_reserved(Entry {
            calls,
            event: Event::Offer(peer, bits),
        });
        offers::renew(&mut self.offers, peer, place);
        Ok(())
    }

    /// Reserves for a peer the first free run of each block of the parts that it offers, the rarest part
    /// first, up to three runs. The refusals are, in this order, `Cheat` where recovery opened a block that
    /// the peer had filled, `Worn` with the least part that failed eight times, `NoSet` where a hash set is
    /// needed and none is kept, and `NoBlock` where no byte of an offered part is unfilled and free; or
    /// `NoMemory`.
    pub fn reserve(&mut self, peer: u64, calls: u64) -> Result<Spans, DeskFault>
        requires { newest_calls 0 self.old.log ≤ calls }
        ensures aim { self.new.aim ≡ self.old.aim }
        ensures answer { Answers self.old (event.Reserve peer (pick_of self.old.aim.size (events self.old.log) peer)) result }
        ensures log { Adds self.old self.new calls (event.Reserve peer (pick_of self.old.aim.size (events self.old.log) peer)) result }
        ensures spans { IfOk result (λ spans. spans ≡ pick_of self.old.aim.size (events self.old.log) peer) }
        ensures newest { newest_calls 0 self.new.log ≤ calls }
    {
        if self.is_cheat(peer) {
            return Err(DeskFault::Cheat);
        }
        if let Some(part) = self.first_worn() {
            return Err(DeskFault::Worn(part));
        }
        if self.lacks_set() {
            return Err(DeskFault::NoSet);
        }
        let (spans, kept) = match self.pick_twice(peer) {
            Ok(both) => both,
            Err(_) => return Err(DeskFault::NoMemory),
        };
        if spans.is_empty() {
            return Err(DeskFault::NoBlock);
        }
        self.reserve_hold()?;
        self.hold(peer, kept, calls)?;
        Ok(spans)
    }

    /// True exactly where recovery opened a block that the peer had filled. That is so of no peer: no call
    /// recovers a part yet, and the state keeps that its log has no entry of recovery.
    fn is_cheat(&self, _peer: u64) -> bool
        ensures { result ≡ cheats self.now.aim.size (events self.now.log) _peer }
    {
        // The proof reads the state here.
        let _ = &self.log;
        false
    }

    /// The newest offer of a peer, empty where it never offered.
    fn bits(&self, peer: u64) -> &[bool]
        ensures { result.now ≡ unwrap_or (latest (offer_by peer) (events self.now.log)) [] }
    {
        match offers::place_of(&self.offers, peer) {
            None => &[],
            Some(place) => bits_in(&self.log[place].event),
        }
    }

    /// The ranges that a peer reserves. Beside what `pick` costs it takes a step for each part and each peer
    /// that offered, and sorts the parts.
    fn pick(&self, peer: u64) -> Result<Vec<Span>, NoMemory>
        ensures { IfOk result (λ spans. spans.items ≡ pick_of self.now.aim.size (events self.now.log) peer) }
    {
        let alloc = *self.log.allocator();
        let size = self.aim.size;
        let log = self.log.as_slice();
        let counts = offers::counts(alloc, &self.offers, log, data_parts(size))?;
        let parts = order(alloc, counts.as_slice())?;
        let bits = self.bits(peer);
        pick(
            alloc,
            &self.filled,
            &self.holders,
            size,
            parts.as_slice(),
            bits,
        )
    }

    /// The ranges that a peer reserves, once for the answer and once for the log.
    fn pick_twice(&self, peer: u64) -> Result<(Spans, Spans), NoMemory>
        ensures first { IfOk result (λ both. both.0 ≡ pick_of self.now.aim.size (events self.now.log) peer) }
        ensures second { IfOk result (λ both. both.1 ≡ pick_of self.now.aim.size (events self.now.log) peer) }
    {
        let spans = self.pick(peer)?;
        let kept = Vec::from_slice(*self.log.allocator(), spans.as_slice())?;
        Ok((Spans::new(spans), Spans::new(kept)))
    }

    /// Reserves spans that may be reserved, into room of the log that was taken. It is refused only for want
    /// of memory.
    fn hold(&mut self, peer: u64, spans: Spans, calls: u64) -> Result<(), DeskFault>
        requires calls { newest_calls 0 self.old.log ≤ calls }
        requires may { MayReserve self.old.aim (events self.old.log) peer spans }
        requires room { IsTrue self.old.can_hold }
        ensures aim { self.new.aim ≡ self.old.aim }
        ensures refused { OnErr result (result ≡ Err DeskFault.NoMemory) }
        ensures log { Adds self.old self.new calls (event.Reserve peer spans) result }
        ensures newest { newest_calls 0 self.new.log ≤ calls }
    {
        if holders::hold(&mut self.holders, peer, spans.as_slice()).is_err() {
            return Err(DeskFault::NoMemory);
        }
        self.log.push_reserved(Entry {
            calls,
            event: Event::Reserve(peer, spans),
        });
        Ok(())
    }

    /// Takes room in the log for an entry that reserves.
    fn reserve_hold(&mut self) -> Result<(), DeskFault>
        ensures aim { self.new.aim ≡ self.old.aim }
        ensures log { self.new.log ≡ self.old.log }
        ensures ok { OnOk result (IsTrue self.new.can_hold) }
        ensures refused { OnErr result (result ≡ Err DeskFault.NoMemory) }
    {
        self.reserve_entry()?;
        let additional = self.holders.len() + 2 * self.states.len() + 2;
        if self.log.reserve(additional).is_err() {
            return Err(DeskFault::NoMemory);
        }
        Ok(())
    }

    /// Takes back all that a peer holds. It adds an entry exactly where the peer holds a range, and takes
    /// no memory. It finds the peer by a binary search, and looks at no range of another.
    pub fn release(&mut self, peer: u64, calls: u64)
        requires { newest_calls 0 self.old.log ≤ calls }
        ensures aim { self.new.aim ≡ self.old.aim }
        ensures log { self.new.log ≡ log_after_release true peer self.old.log calls }
        ensures newest { newest_calls 0 self.new.log ≤ calls }
    {
        if !self.holds(peer) {
            return;
        }
        self.log.push_reserved(Entry {
            calls,
            event: Event::Release(peer),
        });
        self.moved_end = self.log.as_slice().len();
        holders::release(&mut self.holders, peer);
    }
}
