//! The state of a download, and the questions to it. The calls that add to its log stand by subject in the
//! files below.
ghost use Rattle.std.specs.Prelude.{◌≡◌, [], ◌<◌, ◌≤◌, IsTrue, IsOk, OnOk, OnErr, IfOk, find, not, ◌-◌, length, min, None, Err};
ghost use Rattle.std.specs.List.{list_all};
ghost use Rattle.part_sizes.specs.Part.{IsSize, data_parts};
ghost use Rattle.reserve_core.specs.Events.{events};
ghost use Rattle.reserve_core.specs.Filled.{first_unfilled, is_uncommitted};
ghost use Rattle.reserve_core.specs.Held.{is_holder};
ghost use Rattle.reserve_core.specs.Legal.{IsLegal, IsState};
ghost use Rattle.reserve_core.specs.Moved.{moved};
ghost use Rattle.reserve_core.specs.Seen.{added, newest_calls};
ghost use Rattle.reserve_core.specs.Tells.{part_state};
ghost use Rattle.part_hashset.specs.Goals.{is_nil};
ghost use Rattle.reserve_core.specs.Verdicts.{goal, is_failed, is_unjudged, is_verified, is_worn, kept_set, lacks_set, next_failed, next_unjudged, parts};
ghost use Rattle.reserve_core.specs.declared.event.Event.TheVariants as event;

mod judging;
mod reserving;
mod writing;

use crate::event::{Entry, Event, Opened};
use crate::fault::DeskFault;
use crate::hold::Holder;
use crate::holders;
use crate::offers::{self, Offerer};
use crate::opening::{fill_all, states};
use crate::part_state::{PartState, WORN};
use crate::verdict::{Verdict, set_in};
use byte_ranges::Ranges;
use ed2k_outside::NoMemory;
use part_hashset::{Aim, Hash, fails, passes};
use part_sizes::{PART, data_parts, part_range};
use std::alloc::Global;
use std::marker::Model;

/// Makes room in two sets for as many edits.
fn reserve_both(filled: &mut Ranges, fresh: &mut Ranges, edits: usize) -> Result<(), NoMemory>
    ensures ok { OnOk result (edits ≤ min filled.new.spare fresh.new.spare) }
    ensures filled_size { filled.new.size ≡ filled.old.size }
    ensures filled_set { filled.new.set ≡ filled.old.set }
    ensures fresh_size { fresh.new.size ≡ fresh.old.size }
    ensures fresh_set { fresh.new.set ≡ fresh.old.set }
    ensures spare { min filled.old.spare fresh.old.spare ≤ min filled.new.spare fresh.new.spare }
    ensures enough { edits ≤ min filled.old.spare fresh.old.spare → IsOk result }
{
    filled.reserve(edits)?;
    fresh.reserve(edits)
}

/// What a write came to.
#[derive(Clone, Copy, Debug, PartialEq, Eq)]
pub struct Written {
    /// The part that was written into, where it is full now.
    pub full: Option<u16>,
}

/// The state of a download: its log, and what the log says, kept so that no call looks back through it.
#[derive(Debug, Drop)]
pub struct Core {
    aim: Aim,
    log: Vec<Entry>,
    filled: Ranges,
    fresh: Ranges,
    holders: Vec<Holder>,
    states: Vec<PartState>,
    offers: Vec<Offerer>,
    set_place: usize,
    moved_end: usize,
    uncommitted: bool,
}

impl Model for Core {
    ghost use Rattle.std.specs.Prelude.{◌-◌, length, min, vec_len, vec_capacity};
    ghost use Rattle.reserve_core.specs.Seen.{Seen};
    ghost use Rattle.reserve_core.specs.Tells.{CoreKeeps, has_entry, has_fill, has_hold};

    ghost Value = { Seen };

    ghost view = { λ c. record {
      aim = c.aim;
      log = c.log.items;
      can_add = has_entry (vec_len c.log) (length c.holders.items) (length c.states.items) (vec_capacity c.log)
          (min c.filled.spare c.fresh.spare) (vec_capacity c.offers - vec_len c.offers);
      can_fill = has_fill (length c.states.items) (min c.filled.spare c.fresh.spare);
      can_hold = has_hold (vec_len c.log) (length c.holders.items) (length c.states.items) (vec_capacity c.log)
          (min c.filled.spare c.fresh.spare) (vec_capacity c.offers - vec_len c.offers);
    } };

    ghost invariant = { λ c. CoreKeeps c.aim c.log.items c.filled c.fresh c.holders.items
        c.states.items c.offers.items c.set_place c.moved_end c.uncommitted (vec_len c.log) (vec_capacity c.log) };
}

impl Core {
    /// The state that a log with this first entry says.
    pub fn new(alloc: Global, aim: Aim, opened: Opened, calls: u64) -> Result<Self, NoMemory>
        requires size { IsSize aim.size }
        requires state { IsState aim opened }
        ensures aim { IfOk result (λ core. core.aim ≡ aim) }
        ensures log { IfOk result (λ core. core.log ≡ added [] calls (event.Opened opened)) }
        ensures newest { IfOk result (λ core. newest_calls 0 core.log ≤ calls) }
    {
        let parts = data_parts(aim.size);
        let entries = 2 * usize::from(parts);
        let mut filled = Ranges::new(alloc, aim.size);
        filled.reserve(opened.filled.len() + entries)?;
        fill_all(&mut filled, opened.filled.as_slice());
        let mut fresh = Ranges::new(alloc, aim.size);
        fresh.reserve(entries)?;
        let states = states(alloc, parts, opened.verdicts.as_slice())?;
        let mut log = Vec::with_capacity(alloc, entries + 1)?;
        log.push_reserved(Entry {
            calls,
            event: Event::Opened(opened),
        });
        Ok(Core {
            aim,
            log,
            filled,
            fresh,
            holders: Vec::new(alloc),
            states,
            offers: Vec::new(alloc),
            set_place: 0,
            moved_end: 0,
            uncommitted: false,
        })
    }

    /// The file that is wanted.
    pub fn aim(&self) -> Aim
        ensures { result ≡ self.now.aim }
    {
        self.aim
    }

    /// The log, oldest entry first. It is legal.
    pub fn log(&self) -> &[Entry]
        ensures log { result.now ≡ self.now.log }
        ensures legal { IsLegal self.now.aim self.now.log }
    {
        self.log.as_slice()
    }

    /// Gives back the log, oldest entry first. It is legal.
    pub fn into_log(self) -> Vec<Entry>
        ensures log { result.items ≡ self.log }
        ensures legal { IsLegal self.aim self.log }
    {
        self.log
    }

    /// True exactly where the peer holds a range.
    pub fn holds(&self, peer: u64) -> bool
        ensures { result ≡ is_holder (events self.now.log) peer }
    {
        !holders::ranges_of(&self.holders, peer).is_empty()
    }

    /// True exactly where something was written after the last commit.
    pub fn uncommitted(&self) -> bool
        ensures { result ≡ is_uncommitted (events self.now.log) }
    {
        self.uncommitted
    }

    /// True exactly where an entry at this place of the log or later is a Write, a Release, a Recovered, a
    /// Dropped, or a Verdict that differs from its part's expected digest. Places count from 0.
    pub fn moved(&self, from: u64) -> bool
        ensures { result ≡ moved self.now.aim (events self.now.log) from }
    {
        from < self.moved_end as u64
    }

    /// True exactly where a hash set is kept.
    pub fn has_set(&self) -> bool
        ensures { result ≡ not (is_nil (kept_set (events self.now.log))) }
    {
        !self.set().is_empty()
    }

    /// True exactly where the newest verdict of a part still stands and is the expected digest.
    pub fn verified(&self, part: u16) -> bool
        requires { part < data_parts self.now.aim.size }
        ensures { result ≡ is_verified self.now.aim (events self.now.log) part }
    {
        passes(self.goal(part), self.state(part).verdict)
    }

    /// True exactly where every part is verified.
    pub fn complete(&self) -> bool
        ensures { result ≡ list_all (is_verified self.now.aim (events self.now.log)) (parts self.now.aim.size) }
    {
        for part in 0..data_parts(self.aim.size) {
            if !self.verified(part) {
                return false;
            }
        }
        true
    }

    /// The least part at or above a number that is failed: its verdict differs from the expected digest.
    pub fn next_failed(&self, from: u16) -> Option<u16>
        ensures { result ≡ next_failed self.now.aim (events self.now.log) from }
    {
        for part in from..data_parts(self.aim.size) {
            if self.failed(part) {
                return Some(part);
            }
        }
        None
    }

    /// True exactly where a part has a verdict that differs from the expected digest.
    fn failed(&self, part: u16) -> bool
        requires { part < data_parts self.now.aim.size }
        ensures { result ≡ is_failed self.now.aim (events self.now.log) part }
    {
        fails(self.goal(part), self.state(part).verdict)
    }

    /// The least part at or above a number that is full and has no verdict.
    pub fn next_unjudged(&self, from: u16) -> Option<u16>
        ensures { result ≡ next_unjudged self.now.aim.size (events self.now.log) from }
    {
        for part in from..data_parts(self.aim.size) {
            if self.unjudged(part) {
                return Some(part);
            }
        }
        None
    }

    /// True exactly where a part is full and has no verdict.
    fn unjudged(&self, part: u16) -> bool
        requires { part < data_parts self.now.aim.size }
        ensures { result ≡ is_unjudged self.now.aim.size (events self.now.log) part }
    {
        let is_full = self.first_unfilled(part).is_none();
        is_full && self.state(part).verdict.is_none()
    }

    /// The kept hash set, empty where none is kept.
    fn set(&self) -> &[Hash]
        ensures { result.now ≡ kept_set (events self.now.log) }
    {
        set_in(&self.log[self.set_place].event)
    }

    /// True exactly where a hash set is needed and none is kept.
    fn lacks_set(&self) -> bool
        ensures { result ≡ lacks_set self.now.aim.size (events self.now.log) }
    {
        PART <= self.aim.size && !self.has_set()
    }

    /// The expected digest of a part, where it is known.
    fn goal(&self, part: u16) -> Option<Hash>
        ensures { result ≡ goal self.now.aim (events self.now.log) part }
    {
        if self.aim.size < PART {
            Some(self.aim.hash)
        } else {
            self.set().get(usize::from(part)).copied()
        }
    }

    /// What is known of a part.
    fn state(&self, part: u16) -> PartState
        requires { part < data_parts self.now.aim.size }
        ensures { result ≡ part_state self.now.aim (events self.now.log) part }
    {
        self.states[usize::from(part)]
    }

    /// The least part that failed eight times.
    pub fn first_worn(&self) -> Option<u16>
        ensures { result ≡ find (is_worn self.now.aim (events self.now.log)) (parts self.now.aim.size) }
    {
        for part in 0..data_parts(self.aim.size) {
            if self.worn(part) {
                return Some(part);
            }
        }
        None
    }

    /// True exactly where a part failed eight times.
    fn worn(&self, part: u16) -> bool
        requires { part < data_parts self.now.aim.size }
        ensures { result ≡ is_worn self.now.aim (events self.now.log) part }
    {
        WORN <= self.state(part).failures
    }

    /// The least position of a part that isn't filled.
    fn first_unfilled(&self, part: u16) -> Option<u64>
        requires { part < data_parts self.now.aim.size }
        ensures { result ≡ first_unfilled self.now.aim.size (events self.now.log) part }
    {
        self.filled.first_out(part_range(self.aim.size, part))
    }

    /// Takes room for one more filled span.
    fn reserve_fill(&mut self) -> Result<(), DeskFault>
        ensures aim { self.new.aim ≡ self.old.aim }
        ensures log { self.new.log ≡ self.old.log }
        ensures entry { IsTrue self.old.can_add → IsTrue self.new.can_add }
        ensures ok { OnOk result (IsTrue self.new.can_fill) }
        ensures refused { OnErr result (result ≡ Err DeskFault.NoMemory) }
        ensures enough { IsTrue self.old.can_fill → IsOk result }
    {
        let edits = 2 * self.states.len() + 1;
        if reserve_both(&mut self.filled, &mut self.fresh, edits).is_err() {
            return Err(DeskFault::NoMemory);
        }
        Ok(())
    }

    /// Takes room for one more entry.
    fn reserve_entry(&mut self) -> Result<(), DeskFault>
        ensures aim { self.new.aim ≡ self.old.aim }
        ensures log { self.new.log ≡ self.old.log }
        ensures fill { IsTrue self.old.can_fill → IsTrue self.new.can_fill }
        ensures ok { OnOk result (IsTrue self.new.can_add) }
        ensures refused { OnErr result (result ≡ Err DeskFault.NoMemory) }
        ensures enough { IsTrue self.old.can_add → IsOk result }
    {
        let entries = 2 * self.states.len();
        if reserve_both(&mut self.filled, &mut self.fresh, entries).is_err() {
            return Err(DeskFault::NoMemory);
        }
        let additional = self.holders.len() + entries + 1;
        if self.log.reserve(additional).is_err() || self.offers.reserve(1).is_err() {
            return Err(DeskFault::NoMemory);
        }
        Ok(())
    }
}
