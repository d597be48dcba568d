//! What the session does in each row of its table.
ghost use Rattle.std.specs.Prelude.{IfSome, ◌≡◌, ◌<◌, IsFalse, IsTrue, IfOk, OnErr, map, length, None, Some, get_or, false, unwrap_or, ◌==◌, ◌||◌};
ghost use Rattle.part_sizes.specs.Part.{IsSize, data_parts};
ghost use Rattle.peer_fetch.specs.Machine.{Gives, IsFitting, IsLastAt, IsOfferAt, StepKeeps, MayAsk, due, has_part, is_asking, cause_of, has_table_cause, is_released, is_last, may_end_with, is_refusal, is_store_fault, offers, on_answer, rank};
ghost use Rattle.peer_fetch.specs.Plan.{Ask, Ended, Last, Read, Send};
ghost use Rattle.client_msgs.specs.Spelling.{HasForm};
ghost use Rattle.client_msgs.specs.declared.msg.PeerMsg.TheVariants as msgs;
ghost use Rattle.peer_fetch.specs.Steps.{Finishes, IsAskable, Steps, StepsOrFails, StepsTo};
ghost use Rattle.peer_fetch.specs.Table as table;

use crate::cause::Cause;
use crate::machine::{FetchCore, Next, SessionState};
use crate::session::Place;
use client_msgs::{Hash, PeerMsg};
use ed2k_outside::{Bytes, NoMemory};
use part_sizes::{Bits, Hashes, PART, data_parts, part_count};
use reserve_core::{Answer, DeskAsk, DeskFault, Verdict};
use std::alloc::Global;

/// The cause of an end that a refusal by the store or by memory is.
fn ends_by(fault: DeskFault) -> Option<Cause>
    ensures cause { result ≡ table.ends_by fault }
    ensures may_end { IsTrue (may_end_with (is_store_fault fault) result) }
{
    match fault {
        DeskFault::Fault | DeskFault::Broken => Some(Cause::StoreFault),
        DeskFault::NoMemory => Some(Cause::NoMemory),
        _ => None,
    }
}

/// The same for the answer to the last commit.
pub(crate) fn commit_cause(answer: &Answer) -> Option<Cause>
    ensures cause { result ≡ table.commit_cause answer.now }
    ensures may_end { IsTrue (may_end_with (is_refusal answer.now) result) }
{
    match answer {
        Answer::Commit(Err(fault)) => ends_by(*fault),
        _ => None,
    }
}

/// True exactly where a status says that the peer has a part.
fn names(count: u16, bits: &[bool], part: u16) -> bool
    ensures { result ≡ (count == 0 || get_or bits.now part false) }
{
    match bits.get(usize::from(part)) {
        Some(bit) => count == 0 || *bit,
        None => count == 0,
    }
}

/// For each part that holds bytes whether a status says that the peer has it.
fn has_parts(alloc: Global, size: u64, count: u16, bits: &Bits) -> Result<Bits, NoMemory>
    requires { IsSize size }
    ensures { IfOk result (λ named. named ≡ table.has_parts size count bits.now) }
{
    let parts = data_parts(size);
    let mut named = Vec::with_capacity(alloc, usize::from(parts))?;
    for part in 0..parts {
        named.push(names(count, bits.as_slice(), part))?;
    }
    Ok(Bits::new(named))
}

impl FetchCore {
    /// Waits for a message.
    pub(crate) fn wait(&mut self) -> Next
        ensures { Steps (Read self.old.session) 0 self.old self.new result }
    {
        self.at = SessionState::Waits;
        Next::Read
    }

    /// Sends a message, and then waits for one at a place.
    pub(crate) fn say_at(&mut self, place: Place, msg: PeerMsg) -> Next
        requires { HasForm msg }
        ensures { Steps (Send msg (Read (table.goes_to place self.old.session))) 1 self.old self.new result }
    {
        self.session.place = place;
        self.at = SessionState::Sent;
        Next::Send(msg)
    }

    /// Asks the desk.
    fn ask(&mut self, at: SessionState, ask: DeskAsk) -> Next
        requires { IsAskable self.old.session.aim at ask }
        ensures { Steps (Ask ask (on_answer self.old.session at)) (rank at) self.old self.new result }
    {
        self.at = at;
        Next::Ask(ask)
    }

    /// Asks the desk for one of the two calls at the end.
    pub(crate) fn ask_last(&mut self, at: SessionState, ask: DeskAsk) -> Next
        requires last { IsTrue (is_last at) }
        requires asking { IsTrue (is_asking at) }
        requires offer { IsOfferAt at ask }
        requires end { IsLastAt at ask }
        requires may { MayAsk self.old.session.aim ask }
        ensures steps { StepsTo (Last ask (on_answer self.old.session at)) (rank at) self.old self.new result }
        ensures at { self.new.at ≡ at }
    {
        self.at = at;
        Next::Ask(ask)
    }

    /// Begins to end.
    pub(crate) fn finish(&mut self, cause: Cause) -> Next
        ensures { Finishes cause self.old self.new result }
    {
        self.ask_last(SessionState::EndReleases(cause), DeskAsk::Release)
    }

    /// Begins to end, so that a later call may go on.
    fn pause(&mut self) -> Next
        ensures { Steps (table.pause self.old.session) 2 self.old self.new result }
    {
        self.ask_last(SessionState::PauseReleases, DeskAsk::Release)
    }

    /// Ends.
    pub(crate) fn end(&mut self, cause: Cause) -> Next
        ensures steps { StepsTo (Ended cause) 0 self.old self.new result }
        ensures at { self.new.at ≡ SessionState.Over cause }
    {
        self.at = SessionState::Over(cause);
        Next::End(cause)
    }

    /// Ends, unless the last commit is a cause of its own.
    pub(crate) fn end_unless(&mut self, cause: Cause, answer: &Answer) -> Next
        ensures steps { StepsTo (Ended (unwrap_or (table.commit_cause answer.now) cause)) 0 self.old self.new result }
        ensures kept { IsFalse (may_end_with (is_refusal answer.now) (cause_of self.new.at)) → cause_of self.new.at ≡ Some cause }
    {
        match commit_cause(answer) {
            Some(found) => self.end(found),
            None => self.end(cause),
        }
    }

    /// Ends so that a later call may go on, unless the last commit is a cause of its own.
    pub(crate) fn end_pause(&mut self, cause: Option<Cause>) -> Next
        ensures steps { StepsTo (table.end_pause self.old.session cause) 0 self.old self.new result }
        ensures cause { cause_of self.new.at ≡ cause }
    {
        match cause {
            Some(cause) => self.end(cause),
            None => {
                self.at = SessionState::Paused;
                Next::End(Cause::NoBlock)
            }
        }
    }

    /// Ends on a refusal by the store or by memory, and else waits.
    fn wait_unless(&mut self, fault: DeskFault) -> Next
        ensures { StepsOrFails (is_store_fault fault) (table.end_or (Read self.old.session) fault) 2 self.old self.new result }
    {
        match ends_by(fault) {
            Some(cause) => self.finish(cause),
            None => self.wait(),
        }
    }

    /// Ends on a refusal by the store or by memory, and else looks whether the peer holds a range.
    fn look_unless(&mut self, fault: DeskFault) -> Next
        ensures { StepsOrFails (is_store_fault fault) (table.end_or (table.look self.old.session) fault) 4 self.old self.new result }
    {
        match ends_by(fault) {
            Some(cause) => self.finish(cause),
            None => self.look(),
        }
    }

    /// Place `hello`: behind `HelloAnswer` the file is named. Any other message is ignored.
    pub(crate) fn on_hello(&mut self, msg: PeerMsg) -> Next
        ensures { Steps (table.on_hello self.old.session msg) 8 self.old self.new result }
    {
        match msg {
            PeerMsg::HelloAnswer(_) => self.name_file(),
            _ => self.wait(),
        }
    }

    /// Asks for the name of the file, and names it then.
    fn name_file(&mut self) -> Next
        ensures { Steps (table.name_file self.old.session) 2 self.old self.new result }
    {
        let hash = self.session.aim.hash;
        self.at = SessionState::Named;
        Next::Send(PeerMsg::NameRequest { hash })
    }

    /// Place `status`: `FileStatus` or `NoFile`. Any other message is ignored.
    pub(crate) fn on_status(&mut self, alloc: Global, msg: PeerMsg) -> Result<Next, NoMemory>
        ensures ok { IfOk result (Steps (table.on_status self.old.session msg) 8 self.old self.new) }
        ensures err { OnErr result (self.new ≡ self.old) }
    {
        match msg {
            PeerMsg::FileStatus { hash, count, bits } => self.file_status(
                alloc, hash, count, &bits,
            ),
            PeerMsg::NoFile { hash } => Ok(self.no_file(hash)),
            _ => Ok(self.wait()),
        }
    }

    fn is_ours(&self, hash: Hash) -> bool
        ensures { result ≡ table.is_ours self.now.session hash }
    {
        hash == self.session.aim.hash
    }

    fn is_count(&self, count: u16) -> bool
        ensures { result ≡ table.is_count self.now.session count }
    {
        count == 0 || count == part_count(self.session.aim.size)
    }

    /// Offers the parts that the peer has, where the status fits the file.
    fn file_status(
        &mut self,
        alloc: Global,
        hash: Hash,
        count: u16,
        bits: &Bits,
    ) -> Result<Next, NoMemory>
        ensures ok { IfOk result (Steps (table.file_status self.old.session hash count bits.now) 8 self.old self.new) }
        ensures err { OnErr result (self.new ≡ self.old) }
    {
        if !self.is_ours(hash) {
            return Ok(self.wait());
        }
        if !self.is_count(count) {
            return Ok(self.finish(Cause::BadStatus(count)));
        }
        let size = self.session.aim.size;
        let offered = has_parts(alloc, size, count, bits)?;
        let kept = has_parts(alloc, size, count, bits)?;
        Ok(self.ask(SessionState::Offers(kept), DeskAsk::Offer(offered)))
    }

    fn no_file(&mut self, hash: Hash) -> Next
        ensures { Steps (table.no_file self.old.session hash) 2 self.old self.new result }
    {
        if self.is_ours(hash) {
            self.finish(Cause::NoFile)
        } else {
            self.wait()
        }
    }

    pub(crate) fn offer_answered(&mut self, bits: Bits, answer: Answer) -> Next
        ensures next { Gives (table.offer_answered self.old.session bits answer) result self.new.session self.new.at }
        ensures keeps { StepKeeps self.old.session.aim 3 result self.new.session self.new.at }
        ensures on { IsFalse (is_released self.new.at) }
        ensures offers { self.new.session.offered ≡ offers self.old.session.offered (SessionState.Offers bits) answer }
        ensures may_end { IsTrue (may_end_with (is_refusal answer) (cause_of self.new.at)) }
    {
        match answer {
            Answer::Offer(Ok(())) => self.keep_offer(bits),
            Answer::Offer(Err(fault)) => self.wait_unless(fault),
            _ => self.wait(),
        }
    }

    /// IfKnown on behind an offer: from one part on a hash set is needed.
    fn keep_offer(&mut self, bits: Bits) -> Next
        ensures next { Gives (table.offer_answered self.old.session bits (Answer.Offer (Ok tt))) result self.new.session self.new.at }
        ensures keeps { StepKeeps self.old.session.aim 3 result self.new.session self.new.at }
        ensures on { IsFalse (is_released self.new.at) }
        ensures offers { self.new.session.offered ≡ bits }
        ensures table_cause { IsTrue (has_table_cause self.new.at) }
    {
        self.session.offered = bits;
        if self.session.aim.size >= PART {
            self.ask(SessionState::AsksSet, DeskAsk::HasSet)
        } else {
            self.start_upload()
        }
    }

    /// The answer whether a hash set is kept: where none is, it is asked for.
    pub(crate) fn has_set_answered(&mut self, answer: Answer) -> Next
        ensures { Steps (table.has_set_answered self.old.session answer) 2 self.old self.new result }
    {
        match answer {
            Answer::HasSet(true) => self.start_upload(),
            Answer::HasSet(false) => {
                let hash = self.session.aim.hash;
                self.say_at(Place::Set, PeerMsg::SetRequest { hash })
            }
            _ => self.wait(),
        }
    }

    /// Asks for an upload slot.
    pub(crate) fn start_upload(&mut self) -> Next
        ensures { Steps (table.start_upload self.old.session) 1 self.old self.new result }
    {
        let hash = self.session.aim.hash;
        self.say_at(Place::Slot, PeerMsg::StartUpload { hash })
    }

    /// Place `set`: `SetAnswer` or `NoFile`. Any other message is ignored.
    pub(crate) fn on_set(&mut self, msg: PeerMsg) -> Next
        ensures { Steps (table.on_set self.old.session msg) 8 self.old self.new result }
    {
        match msg {
            PeerMsg::SetAnswer { hash, set } => self.set_answer(hash, set),
            PeerMsg::NoFile { hash } => self.no_file(hash),
            _ => self.wait(),
        }
    }

    /// The set is given to keep, where it is of the file that is wanted.
    fn set_answer(&mut self, hash: Hash, set: Hashes) -> Next
        ensures { Steps (table.set_answer self.old.session hash set) 3 self.old self.new result }
    {
        if self.is_ours(hash) {
            self.ask(SessionState::Sets, DeskAsk::Hashes(set))
        } else {
            self.wait()
        }
    }

    /// The answer to the set that was given to keep.
    pub(crate) fn hashes_answered(&mut self, answer: Answer) -> Next
        ensures { StepsOrFails (is_refusal answer) (table.hashes_answered self.old.session answer) 2 self.old self.new result }
    {
        match answer {
            Answer::Hashes(Ok(())) => self.start_upload(),
            Answer::Hashes(Err(fault)) => self.set_refused(fault),
            _ => self.wait(),
        }
    }

    /// A set that is there already is as good.
    fn set_refused(&mut self, fault: DeskFault) -> Next
        ensures { StepsOrFails (is_store_fault fault) (table.hashes_answered self.old.session (Answer.Hashes (Err fault))) 2 self.old self.new result }
    {
        match fault {
            DeskFault::AlreadySet => self.start_upload(),
            DeskFault::Set(found) => self.finish(Cause::BadSet(found)),
            fault => self.wait_unless(fault),
        }
    }

    /// Place `slot`: `Accept` or `NoFile`. Any other message is ignored.
    pub(crate) fn on_slot(&mut self, msg: PeerMsg) -> Next
        ensures { Steps (table.on_slot self.old.session msg) 8 self.old self.new result }
    {
        match msg {
            PeerMsg::Accept => self.turn(),
            PeerMsg::NoFile { hash } => self.no_file(hash),
            _ => self.wait(),
        }
    }

    /// Reserves ranges.
    pub(crate) fn turn(&mut self) -> Next
        ensures { Steps (table.turn self.old.session) 3 self.old self.new result }
    {
        self.ask(SessionState::Reserves, DeskAsk::Reserve)
    }

    /// Asks the peer for what was reserved.
    pub(crate) fn reserve_answered(&mut self, answer: Answer) -> Next
        requires { IsFitting self.old.session.aim answer }
        ensures { StepsOrFails (is_refusal answer) (table.reserve_answered self.old.session answer) 2 self.old self.new result }
    {
        match answer {
            Answer::Reserve(Ok(spans)) => {
                let hash = self.session.aim.hash;
                self.say_at(Place::Pieces, PeerMsg::RequestParts { hash, spans })
            }
            Answer::Reserve(Err(fault)) => self.not_reserved(fault),
            _ => self.wait(),
        }
    }

    /// No range was reserved, and this is why.
    fn not_reserved(&mut self, fault: DeskFault) -> Next
        ensures { StepsOrFails (is_store_fault fault) (table.reserve_answered self.old.session (Answer.Reserve (Err fault))) 2 self.old self.new result }
    {
        match fault {
            DeskFault::NoBlock => self.pause(),
            DeskFault::Cheat => self.finish(Cause::Cheat),
            DeskFault::Worn(part) => self.finish(Cause::Worn(part)),
            fault => self.wait_unless(fault),
        }
    }

    /// Place `pieces`: `SendingPart` or `OutOfParts`. Any other message is ignored.
    pub(crate) fn on_pieces(&mut self, msg: PeerMsg) -> Next
        ensures { Steps (table.on_pieces self.old.session msg) 8 self.old self.new result }
    {
        match msg {
            PeerMsg::SendingPart {
                hash,
                start,
                piece,
                ..
            } => self.sending_part(hash, start, piece),
            PeerMsg::OutOfParts => self.ask(SessionState::Releases, DeskAsk::Release),
            _ => self.wait(),
        }
    }

    /// The piece is written, where it is of the file that is wanted.
    fn sending_part(&mut self, hash: Hash, start: u32, piece: Bytes) -> Next
        ensures { Steps (table.sending_part self.old.session hash start piece) 8 self.old self.new result }
    {
        if self.is_ours(hash) {
            self.ask(
                SessionState::Writes,
                DeskAsk::Write(u64::from(start), piece),
            )
        } else {
            self.wait()
        }
    }

    /// The answer to a write: a part that is full now is committed.
    pub(crate) fn write_answered(&mut self, answer: Answer) -> Next
        requires { IsFitting self.old.session.aim answer }
        ensures { StepsOrFails (is_refusal answer) (table.write_answered self.old.session answer) 7 self.old self.new result }
    {
        match answer {
            Answer::Write(Ok(written)) => self.part_filled(written.full),
            Answer::Write(Err(fault)) => self.wait_unless(fault),
            _ => self.wait(),
        }
    }

    /// Judges a part that is full now, once it is durable.
    fn part_filled(&mut self, full: Option<u16>) -> Next
        requires { IfSome full (λ part. part < data_parts self.old.session.aim.size) }
        ensures { Steps (table.part_filled self.old.session full) 7 self.old self.new result }
    {
        match full {
            Some(part) => self.ask(SessionState::Commits(part), DeskAsk::Commit),
            None => self.look(),
        }
    }

    /// Looks whether the peer holds a range.
    fn look(&mut self) -> Next
        ensures { Steps (table.look self.old.session) 4 self.old self.new result }
    {
        self.ask(SessionState::Looks, DeskAsk::Holds)
    }

    /// The answer to the commit of a full part, which is judged then.
    pub(crate) fn commit_answered(&mut self, part: u16, answer: Answer) -> Next
        requires { part < data_parts self.old.session.aim.size }
        ensures { StepsOrFails (is_refusal answer) (table.commit_answered self.old.session part answer) 6 self.old self.new result }
    {
        match answer {
            Answer::Commit(Ok(())) => self.ask(SessionState::Verifies(part), DeskAsk::Verify(part)),
            Answer::Commit(Err(fault)) => self.look_unless(fault),
            _ => self.wait(),
        }
    }

    /// The answer to the verdict on a full part.
    pub(crate) fn verify_answered(&mut self, part: u16, answer: Answer) -> Next
        requires { part < data_parts self.old.session.aim.size }
        ensures { StepsOrFails (is_refusal answer) (table.verify_answered self.old.session part answer) 5 self.old self.new result }
    {
        match answer {
            Answer::Verify(Ok(Verdict::Failed)) => self.part_failed(part),
            Answer::Verify(Ok(Verdict::Verified)) => self.look(),
            Answer::Verify(Err(fault)) => self.look_unless(fault),
            _ => self.wait(),
        }
    }

    /// Opens a failed part again, unless the root of the hash tree is known.
    fn part_failed(&mut self, part: u16) -> Next
        requires { part < data_parts self.old.session.aim.size }
        ensures { Steps (table.part_failed self.old.session part) 5 self.old self.new result }
    {
        if self.session.aim.root.is_none() {
            self.ask(SessionState::Drops, DeskAsk::DropPart(part))
        } else {
            self.look()
        }
    }

    /// The answer to the drop of a failed part.
    pub(crate) fn drop_answered(&mut self, answer: Answer) -> Next
        ensures { StepsOrFails (is_refusal answer) (table.drop_answered self.old.session answer) 4 self.old self.new result }
    {
        match answer {
            Answer::DropPart(Ok(())) => self.look(),
            Answer::DropPart(Err(fault)) => self.look_unless(fault),
            _ => self.wait(),
        }
    }

    /// The answer whether the peer holds a range: where it holds none, a turn begins.
    pub(crate) fn holds_answered(&mut self, answer: Answer) -> Next
        ensures { Steps (table.holds_answered self.old.session answer) 3 self.old self.new result }
    {
        match answer {
            Answer::Holds(false) => self.turn(),
            _ => self.wait(),
        }
    }
}
