//! Frames read from a wire, within a budget.
ghost use Rattle.std.specs.Prelude.{◌≡◌, ◌<◌, ◌≤◌, [], max, None, Some, IfErr, IfOk, OnOk};
ghost use Rattle.ed2k_frame.specs.Front.{IsPartial};
ghost use Rattle.framed_wire.specs.Inlet.{inlet, intake_of, to_come};
ghost use Rattle.framed_wire.specs.Reads.{Reads, TakesMore};
ghost use Rattle.framed_wire.specs.Stops.{StopsBy};

use crate::stop::{Stop, stop_of};
use ed2k_frame::{Frame, FrameReader};
use ed2k_outside::{Failed, Source};
use std::alloc::Global;
use std::marker::Model;

/// The most bytes that are taken at a time.
const PIECE: usize = 16_384;

/// What is kept between two frames.
#[derive(Drop)]
pub(crate) struct Intake {
    pub(crate) reader: FrameReader,
    /// Where bytes are read to.
    buf: [u8; PIECE],
    /// How many bytes were taken.
    pub(crate) taken: u64,
}

impl Intake {
    /// Takes a piece of the source into the reader, which has less than a frame, as far as the budget goes.
    fn take_more<S: Source>(&mut self, source: &mut S, budget: u64) -> Result<(), Stop>
        requires unsaid { self.old.reader.said ≡ None }
        requires partial { IsPartial self.old.reader.rest }
        ensures more { OnOk result (TakesMore (inlet S.Source source.old (intake_of self.old)) (inlet S.Source source.new (intake_of self.new))) }
        ensures some { OnOk result (self.old.taken < self.new.taken) }
        ensures unsaid { OnOk result (self.new.reader.said ≡ None) }
        ensures stop { IfErr result (λ stop. StopsBy budget stop (inlet S.Source source.old (intake_of self.old)) (inlet S.Source source.new (intake_of self.new))) }
        ensures within { self.new.taken ≤ max self.old.taken budget }
        ensures beside { S.beside_left source.new ≡ S.beside_left source.old }
    {
        if self.taken >= budget {
            return Err(Stop::Spent);
        }
        let room = usize::try_from(budget - self.taken)
            .unwrap_or(PIECE)
            .min(PIECE);
        match source.read(&mut self.buf[..room]) {
            Err(Failed) => Err(Stop::WireFault),
            Ok(0) => Err(Stop::Ended),
            Ok(n) => {
                self.taken += n as u64;
                match self.reader.feed(&self.buf[..n]) {
                    Ok(()) => Ok(()),
                    Err(fault) => Err(stop_of(fault)),
                }
            }
        }
    }

    /// The next frame.
    fn next_frame<S: Source>(&mut self, source: &mut S, budget: u64) -> Result<Frame, Stop>
        ensures reads { Reads budget result (inlet S.Source source.old (intake_of self.old)) (inlet S.Source source.new (intake_of self.new)) }
        ensures within { self.new.taken ≤ max self.old.taken budget }
        ensures fewer { OnOk result (to_come budget (intake_of self.new) < to_come budget (intake_of self.old)) }
        ensures beside { S.beside_left source.new ≡ S.beside_left source.old }
    {
        'frames: loop {
            match self.reader.next() {
                Ok(Some(frame)) => return Ok(frame),
                Ok(None) => self.take_more(source, budget)?,
                Err(fault) => return Err(stop_of(fault)),
            }
        }
    }
}

/// Reads frames from a wire, or from any other source of bytes, which is lent to each call. Contracts see how
/// many bytes were taken of it, `taken`, and those of them that stand in no frame that was given, `unread`.
#[derive(Drop)]
pub struct WireReader {
    intake: Intake,
}

impl Model for WireReader {
    ghost use Rattle.framed_wire.specs.Inlet.{intake_of};
    ghost use Rattle.framed_wire.specs.Intake.{Intake};

    ghost Value = { Intake };

    ghost view = { λ reader. intake_of reader.intake };
}

impl WireReader {
    /// A reader that has taken nothing. It takes no memory.
    pub fn new(alloc: Global) -> Self
        ensures { result ≡ record { taken = 0; unread = [] } }
    {
        WireReader {
            intake: Intake {
                reader: FrameReader::new(alloc),
                buf: [0; PIECE],
                taken: 0,
            },
        }
    }

    /// How many bytes were taken.
    pub fn taken(&self) -> u64
        ensures { result ≡ self.now.taken }
    {
        self.intake.taken
    }

    /// The next frame of the source, of which no more bytes are taken once as many as the budget were, all
    /// calls together. It reads only where what it has is less than a frame, and a read may wait.
    ///
    /// `Ended` comes only where a read gave nothing, `WireFault` only where one failed, and `BadFrame` where
    /// this fault stands in the next frame's place. `Spent` comes where the budget is used up and less than
    /// a frame is left of what was taken. After these the next call goes on from there. `NoMemory` may lose
    /// bytes that were taken; they are counted.
    pub fn next_frame<S: Source>(&mut self, source: &mut S, budget: u64) -> Result<Frame, Stop>
        ensures reads { Reads budget result (inlet S.Source source.old self.old) (inlet S.Source source.new self.new) }
        ensures within { self.new.taken ≤ max self.old.taken budget }
        ensures fewer { OnOk result (to_come budget self.new < to_come budget self.old) }
        ensures beside { S.beside_left source.new ≡ S.beside_left source.old }
    {
        self.intake.next_frame(source, budget)
    }
}
