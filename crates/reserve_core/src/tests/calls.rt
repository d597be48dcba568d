//! Calls from a table, each compared with what the definition answers.

ghost use Rattle.std.specs.Prelude.{◌<◌, ◌≤◌};
ghost use Rattle.part_sizes.specs.Part.{IsSize};
ghost use Rattle.reserve_core.specs.Seen.{newest_calls};

use super::plain::{pick, refusal};
use crate::{Core, DeskFault, Event, Opened};
use ed2k_outside::NoMemory;
use part_hashset::Aim;
use part_sizes::{Bits, Hashes, Pairs, Span, Spans, data_parts};
use std::alloc::Global;
use std::process::Abort;

/// A call of a table: members of a set, the parts that a peer has, a peer's span, a part and each byte of
/// its digest.
#[derive(Clone, Copy, Debug)]
pub enum Call {
    Hashes([[u8; 16]; 3]),
    Offer(u64, [bool; 3]),
    Reserve(u64),
    Write(u64, u64, u64),
    Release(u64),
    Commit,
    Verdict(u16, u8),
    Dropped(u16),
}

/// A call is refused as is wanted, or not refused.
fn assert_refused(
    rt: &impl Abort,
    call: Call,
    found: Option<DeskFault>,
    wanted: Option<DeskFault>,
) {
    assert_eq!(rt; found, wanted, "{call:?}");
}

/// A call reserves these spans.
fn assert_reserved(rt: &impl Abort, call: Call, found: &[Span], wanted: &[Span]) {
    assert_eq!(rt; found, wanted, "{call:?}");
}

/// A call leaves the log as long as it was.
fn assert_as_long(rt: &impl Abort, call: Call, found: usize, wanted: usize) {
    assert_eq!(rt; found, wanted, "{call:?}");
}

/// A download that makes no device call.
#[derive(Debug, Drop)]
pub struct Download {
    core: Core,
    ghost size: { IsSize core.aim.size },
    ghost calls: { newest_calls 0 core.log ≤ 0 },
}

impl Download {
    /// A file of which one span is filled.
    pub fn new(alloc: Global, size: u64, hash: [u8; 16], filled: Span) -> Result<Self, NoMemory>
        requires size { IsSize size }
        requires some { filled.s < filled.e }
        requires within { filled.e ≤ size }
    {
        let aim = Aim {
            size,
            hash,
            root: None,
        };
        let mut spans = Vec::new(alloc);
        spans.push(filled)?;
        let opened = Opened {
            set: Hashes::new(Vec::new(alloc)),
            filled: Spans::new(spans),
            verdicts: Pairs::new(Vec::new(alloc)),
        };
        let core = Core::new(alloc, aim, opened, 0)?;
        Ok(Download { core })
    }

    fn hashes(&mut self, alloc: Global, set: &[[u8; 16]]) -> Result<(), DeskFault> {
        match Vec::from_slice(alloc, set) {
            Ok(members) => self.core.hashes(Hashes::new(members), 0),
            Err(_) => Err(DeskFault::NoMemory),
        }
    }

    fn offer(
        &mut self,
        rt: &impl Abort,
        alloc: Global,
        peer: u64,
        bits: [bool; 3],
    ) -> Result<(), DeskFault> {
        let parts = usize::from(data_parts(self.core.aim().size));
        let Ok(mut items) = Vec::from_slice(alloc, &bits) else {
            return Err(DeskFault::NoMemory);
        };
        items.truncate(parts);
        let bits = Bits::new(items);
        assert!(rt; bits.len() == parts);
        self.core.offer(peer, bits, 0)
    }

    // The refusal of the call that makes sure of another one. A `reserve` and an `offer` have none.
    fn ready(
        &mut self,
        rt: &impl Abort,
        alloc: Global,
        call: Call,
        wanted: Option<DeskFault>,
    ) -> Result<Option<DeskFault>, NoMemory> {
        let parts = data_parts(self.core.aim().size);
        match call {
            Call::Hashes(set) => {
                let set = Hashes::new(Vec::from_slice(alloc, &set)?);
                Ok(self.core.ready_hashes(&set).err())
            }
            Call::Write(peer, s, e) => Ok(self.core.ready_write(peer, Span { s, e }).err()),
            Call::Commit => Ok(self.core.ready_commit().err()),
            Call::Verdict(part, _) => {
                assert!(rt; part < parts);
                Ok(self.core.ready_verdict(part).err())
            }
            Call::Dropped(part) => {
                assert!(rt; part < parts);
                Ok(self.core.ready_drop(part).err())
            }
            _ => Ok(wanted),
        }
    }

    // The refusal of a call, if any.
    fn make(&mut self, rt: &impl Abort, alloc: Global, call: Call) -> Option<DeskFault> {
        let parts = data_parts(self.core.aim().size);
        match call {
            Call::Hashes(set) => self.hashes(alloc, &set).err(),
            Call::Offer(peer, bits) => self.offer(rt, alloc, peer, bits).err(),
            Call::Reserve(peer) => self.core.reserve(peer, 0).err(),
            Call::Write(peer, s, e) => self.core.write(peer, Span { s, e }, 0).err(),
            Call::Release(peer) => {
                self.core.release(peer, 0);
                None
            }
            Call::Commit => self.core.commit(0).err(),
            Call::Verdict(part, byte) => {
                assert!(rt; part < parts);
                self.core.verdict(part, [byte; 16], 0).err()
            }
            Call::Dropped(part) => {
                assert!(rt; part < parts);
                self.core.drop_part(part, 0).err()
            }
        }
    }

    // The spans that the newest entry reserves.
    fn reserved(&self) -> &[Span] {
        match self.core.log().last() {
            Some(entry) => match &entry.event {
                Event::Reserve(_, spans) => spans.as_slice(),
                _ => &[],
            },
            None => &[],
        }
    }

    // The spans that a call is to reserve, by the definition.
    fn picked(&self, alloc: Global, call: Call) -> Result<Vec<Span>, NoMemory> {
        match call {
            Call::Reserve(peer) => pick(alloc, self.core.aim().size, self.core.log(), peer),
            _ => Ok(Vec::new(alloc)),
        }
    }

    // The refusal of a call, by the definition.
    fn wanted(&self, alloc: Global, call: Call) -> Result<Option<DeskFault>, NoMemory> {
        refusal(alloc, self.core.aim(), self.core.log(), call)
    }

    // Makes sure of a call, and makes it: both are refused as is wanted.
    fn ask(
        &mut self,
        rt: &impl Abort,
        alloc: Global,
        call: Call,
        wanted: Option<DeskFault>,
    ) -> Result<(), NoMemory> {
        let ready = self.ready(rt, alloc, call, wanted)?;
        assert_refused(rt, call, ready, wanted);
        let found = self.make(rt, alloc, call);
        assert_refused(rt, call, found, wanted);
        Ok(())
    }

    // Makes a call, and compares its refusal, and what it reserves, with what the definition says. It
    // gives the refusal.
    fn check(
        &mut self,
        rt: &impl Abort,
        alloc: Global,
        call: Call,
    ) -> Result<Option<DeskFault>, NoMemory> {
        let entries = self.core.log().len();
        let wanted = self.wanted(alloc, call)?;
        let spans = self.picked(alloc, call)?;
        self.ask(rt, alloc, call, wanted)?;
        if wanted.is_some() {
            assert_as_long(rt, call, self.core.log().len(), entries);
        } else if let Call::Reserve(_) = call {
            assert_reserved(rt, call, self.reserved(), spans.as_slice());
        }
        Ok(wanted)
    }

    /// Checks calls in turn, each of which is refused as beside it.
    pub fn check_in_turn(
        &mut self,
        rt: &impl Abort,
        alloc: Global,
        rows: &[(Call, Option<DeskFault>)],
    ) -> Result<(), NoMemory> {
        for (call, refusal) in rows {
            let found = self.check(rt, alloc, *call)?;
            assert_refused(rt, *call, found, *refusal);
        }
        Ok(())
    }

    /// Checks that a peer reserves the spans between these positions.
    pub fn check_spans(
        &mut self,
        rt: &impl Abort,
        alloc: Global,
        peer: u64,
        ends: [(u64, u64); 3],
    ) -> Result<(), NoMemory> {
        let call = Call::Reserve(peer);
        self.check_in_turn(rt, alloc, &[(call, None)])?;
        let spans = ends.map(|(s, e)| Span { s, e });
        assert_reserved(rt, call, self.reserved(), spans.as_slice());
        Ok(())
    }
}
