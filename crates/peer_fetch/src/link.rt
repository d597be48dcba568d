//! A session over a wire: it reads and writes the wire until the desk is to be asked or the session ended.
ghost use Rattle.std.specs.Prelude.{◌≡◌, ◌<◌, ◌≤◌, ◌-◌, [], length, None, IfErr, IfOk, IsSome, IsTrue, OnOk, ℕ};
ghost use Rattle.std.specs.Io.{ReadsAtMost};
ghost use Rattle.std.specs.Io.KnownBytes.{IsAtEnd};
ghost use Rattle.ed2k_frame.specs.Front.{IsPartial};
ghost use Rattle.ed2k_outside.specs.Causes.{HasCause};
ghost use Rattle.ed2k_outside.specs.Halves.{Takes};
ghost use Rattle.framed_wire.specs.Sending.{SendsFront};
ghost use Rattle.client_msgs.specs.Spelling.{HasForm};
ghost use Rattle.part_sizes.specs.Part.{IsSize};
ghost use Rattle.peer_fetch.specs.Machine.{IsOfTheWire, MayEnter, is_ready, is_saying, rank};
ghost use Rattle.peer_fetch.specs.Moves.{BeginsCall, Draws, Enters, SendsOnly, IsLighter, IsMessage, Looks, Receives, SendsMsg, StopsBy, TakesSome, TakesTurn, as_next, bytes_to_come, frame_cause, msg_cause, outside, state_of};
ghost use Rattle.peer_fetch.specs.Wires.{Fills, inlet};

use crate::cause::Cause;
use crate::machine::{FetchCore, Next, SessionState};
use client_msgs::{MsgFault, PeerMsg, read_peer, write_peer};
use ed2k_frame::{Frame, FrameFault, FrameReader};
use ed2k_outside::{Failed, NoMemory, Wire};
use framed_wire::send_all;
use part_hashset::Aim;
use part_sizes::Bits;
use reserve_core::{Answer, DeskAsk};
use std::alloc::Global;
use std::mem;

/// The most bytes that are taken of a wire at a time.
const PIECE: usize = 65_536;

pub(crate) fn frame_cause(fault: FrameFault) -> Cause
    ensures { result ≡ frame_cause fault }
{
    match fault {
        FrameFault::NoMemory => Cause::NoMemory,
        fault => Cause::BadFrame(fault),
    }
}

pub(crate) fn msg_cause(fault: MsgFault) -> Cause
    ensures { result ≡ msg_cause fault }
{
    match fault {
        MsgFault::NoMemory => Cause::NoMemory,
        fault => Cause::BadMsg(fault),
    }
}

/// Reads some bytes of the wire, and leaves its other half.
fn read_some<W: Wire>(wire: &mut W, buf: &mut [u8]) -> Result<usize, Failed>
    ensures bound { ReadsAtMost result buf.new }
    ensures bytes { Takes (W.left wire.old) (W.left wire.new) result buf.new }
    ensures end { IfOk result (λ n. n ≡ 0 → 0 < length buf.new → IsAtEnd (W.left wire.old)) }
    ensures cause { HasCause (W.read_faults wire.old) (W.read_faults wire.new) result }
    ensures sent { W.sent wire.new ≡ W.sent wire.old }
    ensures write_faults { W.write_faults wire.new ≡ W.write_faults wire.old }
{
    wire.read(buf)
}

/// Sends bytes whole, and leaves the wire's other half. On a failure a front of them was sent.
fn send_whole<W: Wire>(wire: &mut W, bytes: &[u8]) -> Result<(), Failed>
    ensures left { W.left wire.new ≡ W.left wire.old }
    ensures read_faults { W.read_faults wire.new ≡ W.read_faults wire.old }
    ensures sent { SendsFront result bytes.now (W.sent wire.old) (W.sent wire.new) }
    ensures cause { HasCause (W.write_faults wire.old) (W.write_faults wire.new) result }
{
    send_all(wire, bytes)
}

/// Takes some bytes of the wire into the reader, which has less than a frame, by way of `buf`, and at most
/// `left`; answers how many were taken, which the reader has unless memory was wanted.
pub(crate) fn fill<W: Wire>(
    wire: &mut W,
    buf: &mut [u8; PIECE],
    reader: &mut FrameReader,
    left: u64,
) -> (u64, Result<(), Cause>)
    requires some { 0 < left }
    requires unsaid { reader.old.said ≡ None }
    requires partial { IsPartial reader.old.rest }
    ensures sent { W.sent wire.new ≡ W.sent wire.old }
    ensures write_faults { W.write_faults wire.new ≡ W.write_faults wire.old }
    ensures read_faults { W.read_faults wire.old ≤ W.read_faults wire.new }
    ensures fills { Fills left result.0 result.1 (inlet W.Wire wire.old reader.old) (inlet W.Wire wire.new reader.new) }
    ensures unsaid { OnOk result.1 (reader.new.said ≡ None) }
{
    let room = usize::try_from(left).unwrap_or(PIECE).min(PIECE);
    match read_some(wire, &mut buf[..room]) {
        Err(Failed) => (0, Err(Cause::WireFault)),
        Ok(0) => (0, Err(Cause::Ended)),
        Ok(n) => match reader.feed(&buf[..n]) {
            Ok(()) => (n as u64, Ok(())),
            Err(fault) => (n as u64, Err(frame_cause(fault))),
        },
    }
}

/// The message that a frame is.
fn message_of(alloc: Global, frame: &Frame) -> Result<PeerMsg, Cause>
    ensures { IsMessage result frame.now }
{
    match read_peer(alloc, frame) {
        Ok(msg) => Ok(msg),
        Err(fault) => Err(msg_cause(fault)),
    }
}

/// A session with a peer over a wire.
#[derive(Drop)]
pub(crate) struct LinkCore<W> {
    pub(crate) alloc: Global,
    pub(crate) wire: W,
    pub(crate) core: FetchCore,
    pub(crate) reader: FrameReader,
    /// Where bytes of the wire are read to.
    pub(crate) buf: [u8; PIECE],
    /// How many bytes were taken of the wire.
    pub(crate) taken: u64,
}

/// What a session over a wire wants next.
#[derive(Drop)]
pub(crate) enum Step {
    /// Ask the desk, and tell its answer.
    Ask(DeskAsk),
    /// Nothing more: the session ended.
    End(Cause),
}

impl<W: Wire> LinkCore<W> {
    /// A session that has not begun. It takes no memory.
    pub(crate) fn new(alloc: Global, wire: W, aim: Aim) -> Self
        requires { IsSize aim.size }
        ensures wire { result.wire ≡ wire }
        ensures core { (result.core.session.aim ≡ aim) × (result.core.session.offered ≡ []) × (result.core.at ≡ SessionState.Fresh) }
        ensures reader { result.reader ≡ record { rest = []; said = None } }
        ensures taken { result.taken ≡ 0 }
    {
        LinkCore {
            alloc,
            wire,
            core: FetchCore::new(alloc, aim),
            reader: FrameReader::new(alloc),
            buf: [0; PIECE],
            taken: 0,
        }
    }

    /// Moves out what the peer offered. No later call of the session may begin.
    pub(crate) fn take_offered(&mut self) -> Bits
        ensures outside { (outside W.Wire self.new) ≡ (outside W.Wire self.old) }
        ensures offered { result ≡ self.old.core.session.offered }
        ensures aim { self.new.core.session.aim ≡ self.old.core.session.aim }
        ensures over { self.new.core.at ≡ SessionState.Over Cause.NoMemory }
    {
        let alloc = self.alloc;
        self.core.at = SessionState::Over(Cause::NoMemory);
        mem::replace(&mut self.core.session.offered, Bits::new(Vec::new(alloc)))
    }

    /// Sends a message. Where that fails, a front of its bytes was sent.
    fn send(&mut self, msg: &PeerMsg) -> Result<(), Cause>
        requires { HasForm msg.now }
        ensures core { self.new.core ≡ self.old.core }
        ensures reader { self.new.reader ≡ self.old.reader }
        ensures holds { SendsOnly (outside W.Wire self.old) (outside W.Wire self.new) }
        ensures sends { SendsMsg msg.now result (outside W.Wire self.old) (outside W.Wire self.new) }
    {
        let bytes = match write_peer(self.alloc, msg) {
            Ok(bytes) => bytes,
            Err(_) => return Err(Cause::NoMemory),
        };
        match send_whole(&mut self.wire, bytes.as_slice()) {
            Ok(()) => Ok(()),
            Err(Failed) => Err(Cause::WireFault),
        }
    }

    /// Takes more bytes of the wire into the reader, which has less than a frame, as far as the budget goes.
    fn take_more(&mut self, budget: u64) -> Result<(), Cause>
        requires unsaid { self.old.reader.said ≡ None }
        requires partial { IsPartial self.old.reader.rest }
        ensures core { self.new.core ≡ self.old.core }
        ensures unsaid { OnOk result (self.new.reader.said ≡ None) }
        ensures looks { Looks budget (outside W.Wire self.old) (outside W.Wire self.new) }
        ensures draws { Draws (outside W.Wire self.old) (outside W.Wire self.new) }
        ensures some { OnOk result (TakesSome budget (outside W.Wire self.old) (outside W.Wire self.new)) }
        ensures stops { IfErr result (λ cause. StopsBy budget cause (outside W.Wire self.old) (outside W.Wire self.new)) }
    {
        if self.taken >= budget {
            return Err(Cause::Spent);
        }
        let (n, filled) = fill(
            &mut self.wire,
            &mut self.buf,
            &mut self.reader,
            budget - self.taken,
        );
        self.taken += n;
        filled
    }

    /// Takes the next message of the peer's bytes.
    fn receive(&mut self, budget: u64) -> Result<PeerMsg, Cause>
        ensures core { self.new.core ≡ self.old.core }
        ensures looks { Looks budget (outside W.Wire self.old) (outside W.Wire self.new) }
        ensures draws { Draws (outside W.Wire self.old) (outside W.Wire self.new) }
        ensures receives { Receives budget result (outside W.Wire self.old) (outside W.Wire self.new) }
    {
        'frames: loop {
            match self.reader.next() {
                Ok(Some(frame)) => return message_of(self.alloc, &frame),
                Ok(None) => self.take_more(budget)?,
                Err(fault) => return Err(frame_cause(fault)),
            }
        }
    }

    /// Sends a message, and tells what is next. A failure stops the session.
    fn say(&mut self, msg: PeerMsg) -> Next
        requires form { HasForm msg }
        requires saying { IsTrue (is_saying self.old.core.at) }
        ensures turn { (budget : ℕ) → TakesTurn budget (Next.Send msg) (state_of W.Wire self.old) (state_of W.Wire self.new) result }
    {
        match self.send(&msg) {
            Ok(()) => self.core.go().unwrap(),
            Err(cause) => self.core.on_stop(cause),
        }
    }

    /// Takes the next message, and tells what is next. Where none comes, this stops the session.
    fn hear(&mut self, budget: u64) -> Next
        ensures turn { TakesTurn budget Next.Read (state_of W.Wire self.old) (state_of W.Wire self.new) result }
    {
        match self.receive(budget) {
            Ok(msg) => match self.core.on_message(msg) {
                Ok(next) => next,
                Err(NoMemory) => self.core.on_stop(Cause::NoMemory),
            },
            Err(cause) => self.core.on_stop(cause),
        }
    }

    /// Begins a call of the session. Want of memory stops it.
    fn begin(&mut self) -> Next
        requires { IsTrue (is_ready self.old.core.at) }
        ensures outside { (outside W.Wire self.old) ≡ (outside W.Wire self.new) }
        ensures begins { (budget : ℕ) → BeginsCall budget (state_of W.Wire self.old) (state_of W.Wire self.new) result }
    {
        match self.core.go() {
            Ok(next) => next,
            Err(NoMemory) => self.core.on_stop(Cause::NoMemory),
        }
    }

    /// Takes an answer of the desk, or begins a call of the session where none is given.
    fn enter(&mut self, answer: Option<Answer>) -> Next
        requires { MayEnter self.old.core.session.aim self.old.core.at answer }
        ensures outside { (outside W.Wire self.new) ≡ (outside W.Wire self.old) }
        ensures enters { (budget : ℕ) → Enters budget answer (state_of W.Wire self.old) (state_of W.Wire self.new) result }
        ensures lighter { IsSome answer → rank self.new.core.at < rank self.old.core.at }
        ensures heavy { IsSome answer → IsOfTheWire result → 3 ≤ rank self.old.core.at }
    {
        match answer {
            None => self.begin(),
            Some(answer) => self.core.on_answer(answer),
        }
    }

    /// Reads and writes the wire until the desk is to be asked or the session ended. The answer is that to
    /// the last ask, and none begins a call of the session: this may be done where none was made yet or the
    /// last ended with `NoBlock`. At most as many bytes as the budget are taken of the wire, all calls
    /// together.
    pub(crate) fn step(&mut self, answer: Option<Answer>, budget: u64) -> Step
        requires { MayEnter self.old.core.session.aim self.old.core.at answer }
        ensures enters { Enters budget answer (state_of W.Wire self.old) (state_of W.Wire self.new) (as_next result) }
        ensures lighter { IsLighter budget answer (state_of W.Wire self.old) (state_of W.Wire self.new) }
    {
        let mut next = self.enter(answer);
        'turns: loop {
            match next {
                Next::Ask(ask) => return Step::Ask(ask),
                Next::End(cause) => return Step::End(cause),
                Next::Send(msg) => next = self.say(msg),
                Next::Read => next = self.hear(budget),
            }
        }
    }
}
