//! A download of three bytes. Each of its calls compares what the core answers with what is wanted.

ghost use Rattle.std.specs.Prelude.{◌≡◌, ◌≤◌};
ghost use Rattle.reserve_core.specs.Seen.{newest_calls};

use crate::{Core, DeskFault, Opened, Verdict, Written};
use ed2k_outside::NoMemory;
use part_hashset::Aim;
use part_sizes::{Bits, Hashes, Pairs, Span, Spans};
use std::alloc::Global;
use std::process::Abort;

/// The digest that is wanted of the one part.
pub const HASH: [u8; 16] = [7; 16];

/// All of the file.
pub const WHOLE: Span = Span { s: 0, e: 3 };

const AIM: Aim = Aim {
    size: 3,
    hash: HASH,
    root: None,
};

/// A download of three bytes that makes no device call.
#[derive(Debug, Drop)]
pub struct Small {
    core: Core,
    ghost size: { core.aim.size ≡ 3 },
    ghost calls: { newest_calls 0 core.log ≤ 0 },
}

impl Small {
    /// All of the file is filled.
    pub fn full(alloc: Global) -> Result<Self, NoMemory> {
        let mut filled = Vec::new(alloc);
        filled.push(WHOLE)?;
        let opened = Opened {
            set: Hashes::new(Vec::new(alloc)),
            filled: Spans::new(filled),
            verdicts: Pairs::new(Vec::new(alloc)),
        };
        let core = Core::new(alloc, AIM, opened, 0)?;
        Ok(Small { core })
    }

    /// Nothing of the file is filled.
    pub fn empty(alloc: Global) -> Result<Self, NoMemory> {
        let opened = Opened {
            set: Hashes::new(Vec::new(alloc)),
            filled: Spans::new(Vec::new(alloc)),
            verdicts: Pairs::new(Vec::new(alloc)),
        };
        let core = Core::new(alloc, AIM, opened, 0)?;
        Ok(Small { core })
    }

    /// The log has as many entries.
    pub fn has_entries(&self, rt: &impl Abort, count: usize) {
        assert_eq!(rt; self.core.log().len(), count);
    }

    /// An entry at this place or later moves something, and none behind it.
    pub fn moved_last_at(&self, rt: &impl Abort, place: u64) {
        assert!(rt; self.core.moved(place));
        assert!(rt; !self.core.moved(place.saturating_add(1)));
    }

    /// The file and its part are verified, or they aren't.
    pub fn assert_complete(&self, rt: &impl Abort, wanted: bool) {
        assert_eq!(rt; self.core.complete(), wanted);
        assert_eq!(rt; self.core.verified(0), wanted);
    }

    /// This is the least part from a number on that is failed.
    pub fn fails_next(&self, rt: &impl Abort, from: u16, wanted: Option<u16>) {
        assert_eq!(rt; self.core.next_failed(from), wanted, "from {from}");
    }

    /// A hash set is refused.
    pub fn refuses_a_set(&mut self, rt: &impl Abort, alloc: Global) {
        let set = Hashes::new(Vec::new(alloc));
        assert_eq!(rt; self.core.ready_hashes(&set), Err(DeskFault::NotNeeded));
        assert_eq!(rt; self.core.hashes(set, 0), Err(DeskFault::NotNeeded));
    }

    /// No hash set is kept.
    pub fn has_no_set(&self, rt: &impl Abort) {
        assert!(rt; !self.core.has_set());
    }

    /// A peer offers the part.
    pub fn offers(&mut self, rt: &impl Abort, alloc: Global, peer: u64) -> Result<(), NoMemory> {
        let mut bits = Vec::new(alloc);
        bits.push(true)?;
        assert_eq!(rt; self.core.offer(peer, Bits::new(bits), 0), Ok(()), "{peer}");
        Ok(())
    }

    /// A peer holds a range, or it doesn't.
    pub fn holds(&self, rt: &impl Abort, peer: u64, wanted: bool) {
        assert_eq!(rt; self.core.holds(peer), wanted, "{peer}");
    }

    /// A peer reserves, and holds a range then, or it is refused so.
    pub fn reserves(&mut self, rt: &impl Abort, peer: u64, refusal: Option<DeskFault>) {
        assert_eq!(rt; self.core.reserve(peer, 0).err(), refusal, "{peer}");
        self.holds(rt, peer, refusal.is_none());
    }

    /// A peer's write comes to this, and the call that makes sure of it is refused as it is.
    pub fn writes(
        &mut self,
        rt: &impl Abort,
        peer: u64,
        span: Span,
        wanted: Result<Written, DeskFault>,
    ) {
        assert_eq!(rt;
            self.core.ready_write(peer, span).err(),
            wanted.err(),
            "{peer} {span:?}"
        );
        assert_eq!(rt; self.core.write(peer, span, 0), wanted, "{peer} {span:?}");
    }

    /// A peer holds nothing from now on.
    pub fn releases(&mut self, rt: &impl Abort, peer: u64) {
        self.core.release(peer, 0);
        self.holds(rt, peer, false);
    }

    /// These spans are to be committed, and are.
    pub fn commits(&mut self, rt: &impl Abort, spans: &[Span]) -> Result<(), DeskFault> {
        assert_eq!(rt; self.core.uncommitted(), !spans.is_empty());
        let found = self.core.ready_commit()?;
        assert_eq!(rt; found.as_slice(), spans);
        assert_eq!(rt; self.core.commit(0), Ok(()));
        Ok(())
    }

    /// The part's digest is found, and says this.
    pub fn judges(&mut self, rt: &impl Abort, digest: [u8; 16], wanted: Verdict) {
        assert_eq!(rt; self.core.verdict(0, digest, 0), Ok(wanted));
    }

    /// The part isn't opened again.
    pub fn refuses_to_drop(&mut self, rt: &impl Abort) {
        assert_eq!(rt; self.core.ready_drop(0), Err(DeskFault::NotFailed));
        assert_eq!(rt; self.core.drop_part(0, 0), Err(DeskFault::NotFailed));
    }
}
