//! The hash set, verdicts and drops of parts.

ghost use Rattle.std.specs.Prelude.{◌≡◌, [], ◌<◌, ◌≤◌, if◌then◌else◌, IsTrue, OnOk, IfOk, MatchResult, Some, None, Err};
ghost use Rattle.part_sizes.specs.Part.{data_parts};
ghost use Rattle.reserve_core.specs.Events.{events};
ghost use Rattle.reserve_core.specs.Desk.{verdict_on};
ghost use Rattle.reserve_core.specs.Legal.{MayHash};
ghost use Rattle.reserve_core.specs.Seen.{Answers, AnswersByLog, Adds, NeedsNone, added, newest_calls};
ghost use Rattle.reserve_core.specs.Refusals.{refusal};
ghost use Rattle.part_hashset.specs.Goals.{is_wanted};
ghost use Rattle.reserve_core.specs.Verdicts.{goal, is_failed};
ghost use Rattle.reserve_core.specs.declared.event.Event.TheVariants as event;

use super::Core;
use crate::event::{Entry, Event};
use crate::fault::DeskFault;
use crate::part_state::{clear_part, judge_part};
use crate::verdict::Verdict;
use part_hashset::{Hash, check_set, is_wanted};
use part_sizes::{Hashes, PART, part_range};

/// The place behind the newest entry that moves something.
fn moved_end_after(moves: bool, len: usize, moved_end: usize) -> usize
    ensures { result ≡ (if moves then len else moved_end) }
{
    if moves { len } else { moved_end }
}

impl Core {
    /// Makes sure that `hashes` with this set, called next, is Ok and needs no memory. It is refused as
    /// `hashes` is, or with `NoMemory`, and adds no entry.
    pub fn ready_hashes(&mut self, set: &Hashes) -> Result<(), DeskFault>
        ensures aim { self.new.aim ≡ self.old.aim }
        ensures log { self.new.log ≡ self.old.log }
        ensures answer { Answers self.old (event.Hashes set.now) result }
        ensures entry { OnOk result (IsTrue self.new.can_add) }
        ensures valid { OnOk result (MayHash self.old.aim (events self.old.log) set.now) }
        ensures room { IsTrue self.old.can_add → NeedsNone result }
    {
        if self.aim.size < PART {
            return Err(DeskFault::NotNeeded);
        }
        if self.has_set() {
            return Err(DeskFault::AlreadySet);
        }
        match check_set(self.aim.size, self.aim.hash, set.as_slice()) {
            Ok(()) => self.reserve_entry(),
            Err(fault) => Err(DeskFault::Set(fault)),
        }
    }

    /// Keeps a hash set. The refusals are, in this order, `NotNeeded` below one part, `AlreadySet` where a
    /// set is kept, and `Set` with what is wrong with the set; or `NoMemory`, which doesn't come right after
    /// a `ready_hashes` that was Ok.
    pub fn hashes(&mut self, set: Hashes, calls: u64) -> Result<(), DeskFault>
        requires { newest_calls 0 self.old.log ≤ calls }
        ensures aim { self.new.aim ≡ self.old.aim }
        ensures answer { Answers self.old (event.Hashes set) result }
        ensures log { Adds self.old self.new calls (event.Hashes set) result }
        ensures room { IsTrue self.old.can_add → NeedsNone result }
        ensures newest { newest_calls 0 self.new.log ≤ calls }
    {
        self.ready_hashes(&set)?;
        self.keep_set(set, calls);
        Ok(())
    }

    /// Keeps a hash set that may be kept, into room that was taken.
    fn keep_set(&mut self, set: Hashes, calls: u64)
        requires calls { newest_calls 0 self.old.log ≤ calls }
        requires may { MayHash self.old.aim (events self.old.log) set }
        requires entry { IsTrue self.old.can_add }
        ensures aim { self.new.aim ≡ self.old.aim }
        ensures log { self.new.log ≡ added self.old.log calls (event.Hashes set) }
        ensures newest { newest_calls 0 self.new.log ≤ calls }
    {
        let place = self.log.as_slice().len();
        self.log.push_reserved(Entry {
            calls,
            event: Event::Hashes(set),
        });
        self.set_place = place;
    }

    /// Tells whether `verdict` of this part, called next, is Ok. It is refused as `verdict` is, and takes
    /// no memory.
    pub fn ready_verdict(&self, part: u16) -> Result<(), DeskFault>
        requires { part < data_parts self.now.aim.size }
        ensures { AnswersByLog self.now (event.Verdict part []) result }
    {
        if let Some(position) = self.first_unfilled(part) {
            return Err(DeskFault::NotFull(position));
        }
        let state = self.state(part);
        if state.uncommitted {
            return Err(DeskFault::NotCommitted);
        }
        if self.lacks_set() {
            return Err(DeskFault::NoSet);
        }
        match state.verdict {
            Some(digest) => Err(DeskFault::Already(digest)),
            None => Ok(()),
        }
    }

    /// Records the digest of a part's bytes. The refusals are, in this order, `NotFull` with the least
    /// position of the part that isn't filled, `NotCommitted` where the part was written into after the last
    /// commit, `NoSet` where a hash set is needed and none is kept, and `Already` with the digest of the
    /// verdict that the part has. It takes no memory.
    pub fn verdict(&mut self, part: u16, digest: Hash, calls: u64) -> Result<Verdict, DeskFault>
        requires exists { part < data_parts self.old.aim.size }
        requires calls { newest_calls 0 self.old.log ≤ calls }
        ensures aim { self.new.aim ≡ self.old.aim }
        ensures answer { AnswersByLog self.old (event.Verdict part digest) result }
        ensures log { Adds self.old self.new calls (event.Verdict part digest) result }
        ensures verdict { IfOk result (λ verdict. verdict ≡ verdict_on self.old.aim (events self.old.log) part digest) }
        ensures newest { newest_calls 0 self.new.log ≤ calls }
    {
        self.ready_verdict(part)?;
        let is_wanted = is_wanted(self.goal(part), digest);
        self.judge(part, digest, calls);
        if is_wanted {
            Ok(Verdict::Verified)
        } else {
            Ok(Verdict::Failed)
        }
    }

    /// Records the digest of a part that may be judged.
    fn judge(&mut self, part: u16, digest: Hash, calls: u64)
        requires exists { part < data_parts self.old.aim.size }
        requires calls { newest_calls 0 self.old.log ≤ calls }
        requires ready { refusal self.old.aim (events self.old.log) (event.Verdict part []) ≡ None }
        ensures aim { self.new.aim ≡ self.old.aim }
        ensures log { self.new.log ≡ added self.old.log calls (event.Verdict part digest) }
        ensures newest { newest_calls 0 self.new.log ≤ calls }
    {
        let failed = !is_wanted(self.goal(part), digest);
        self.log.push_reserved(Entry {
            calls,
            event: Event::Verdict(part, digest),
        });
        self.moved_end = moved_end_after(failed, self.log.as_slice().len(), self.moved_end);
        judge_part(&mut self.states, usize::from(part), digest, failed);
    }

    /// Tells whether `drop_part` of this part, called next, is Ok. It is refused as `drop_part` is, and takes no
    /// memory.
    pub fn ready_drop(&self, part: u16) -> Result<(), DeskFault>
        requires { part < data_parts self.now.aim.size }
        ensures { AnswersByLog self.now (event.Dropped part) result }
    {
        if self.failed(part) {
            Ok(())
        } else {
            Err(DeskFault::NotFailed)
        }
    }

    /// Opens all of a failed part again. It is refused with `NotFailed` where the part isn't failed, and
    /// takes no memory.
    pub fn drop_part(&mut self, part: u16, calls: u64) -> Result<(), DeskFault>
        requires exists { part < data_parts self.old.aim.size }
        requires calls { newest_calls 0 self.old.log ≤ calls }
        ensures aim { self.new.aim ≡ self.old.aim }
        ensures answer { AnswersByLog self.old (event.Dropped part) result }
        ensures log { Adds self.old self.new calls (event.Dropped part) result }
        ensures newest { newest_calls 0 self.new.log ≤ calls }
    {
        if !self.failed(part) {
            return Err(DeskFault::NotFailed);
        }
        self.open_again(part, calls);
        Ok(())
    }

    /// Opens all of a failed part again.
    fn open_again(&mut self, part: u16, calls: u64)
        requires exists { part < data_parts self.old.aim.size }
        requires calls { newest_calls 0 self.old.log ≤ calls }
        requires failed { IsTrue (is_failed self.old.aim (events self.old.log) part) }
        ensures aim { self.new.aim ≡ self.old.aim }
        ensures log { self.new.log ≡ added self.old.log calls (event.Dropped part) }
        ensures newest { newest_calls 0 self.new.log ≤ calls }
    {
        self.log.push_reserved(Entry {
            calls,
            event: Event::Dropped(part),
        });
        self.moved_end = self.log.as_slice().len();
        let range = part_range(self.aim.size, part);
        self.filled.take(range);
        self.fresh.take(range);
        clear_part(&mut self.states, usize::from(part));
    }
}
