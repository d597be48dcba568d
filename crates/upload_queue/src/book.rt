//! The book of uploads.

ghost use Rattle.std.specs.Prelude.{◌≡◌, ◌+◌, ◌≤◌, ◌<◌, length, false, Some, IfOk, OnOk, OnErr};
ghost use Rattle.upload_queue.specs.Book.{IsBook, IsOut, KeepsOthers, credit_of, empty, entry_of, has_slot};
ghost use Rattle.upload_queue.specs.Bytes.{count};
ghost use Rattle.upload_queue.specs.Order.{comes_before, rank_of, rank, score};
ghost use Rattle.upload_queue.specs.Slots.{Answers, IsIn, asked, entered, granted, left};

use crate::bytes::{self, Sums};
use crate::waiting::{self, Hash, Waiting};
use arrayvec::ArrayVec;
use ed2k_outside::NoMemory;
use std::alloc::Global;
use std::cmp::Ordering;
use std::collections::BTreeMap;
use std::marker::Model;

/// How many numbers have a slot at most.
pub const SLOTS: usize = 4;

/// What a number that asks is answered.
#[derive(Clone, Copy, Debug, PartialEq, Eq)]
pub enum Place {
    /// It has a slot.
    Granted,
    /// It waits; the next has rank 1.
    Rank(u64),
}

/// Who has a slot and who waits for one, and the bytes that each user gave and was given.
///
/// A session is known by a number and its user by a hash. Seconds are those of one clock.
#[derive(Debug, Drop)]
pub struct UploadBook {
    received: Sums,
    given: Sums,
    slots: ArrayVec<u64, SLOTS>,
    waiting: Vec<Waiting>,
}

impl Model for UploadBook {
    ghost use Rattle.upload_queue.specs.Book.{Book, IsSound};

    ghost Value = { Book };

    ghost view = { λ b. record {
      received = b.received.entries;
      given = b.given.entries;
      slots = b.slots.items;
      waiting = b.waiting.items;
    } };

    ghost invariant = { λ b. IsSound b.slots.items b.waiting.items };
}

impl UploadBook {
    /// The book in which nobody waits and nothing was counted. It takes no memory.
    pub fn new(alloc: Global) -> UploadBook
        ensures empty { result ≡ empty }
        ensures sound { IsBook result }
    {
        UploadBook {
            received: BTreeMap::new(alloc),
            given: BTreeMap::new(alloc),
            slots: ArrayVec::new(),
            waiting: Vec::new(alloc),
        }
    }

    /// Counts bytes that a user gave. A sum stops at the greatest u64. Where memory is refused the book is
    /// as before.
    pub fn received(&mut self, user: Hash, bytes: u64) -> Result<(), NoMemory>
        ensures ok { OnOk result (self.new ≡ record self.old { received = count self.old.received user bytes }) }
        ensures refused { OnErr result (self.new ≡ self.old) }
        ensures sound { IsBook self.new }
    {
        bytes::count(&mut self.received, user, bytes)
    }

    /// Counts bytes that a user was given. A sum stops at the greatest u64. Where memory is refused the book
    /// is as before.
    pub fn count_bytes(&mut self, user: Hash, bytes: u64) -> Result<(), NoMemory>
        ensures ok { OnOk result (self.new ≡ record self.old { given = count self.old.given user bytes }) }
        ensures refused { OnErr result (self.new ≡ self.old) }
        ensures sound { IsBook self.new }
    {
        bytes::count(&mut self.given, user, bytes)
    }

    /// The credit of a user, from 100 to 1,000. It takes no memory.
    pub fn credit(&self, user: &Hash) -> u32
        ensures { result ≡ credit_of self.now user.now }
    {
        let received = bytes::bytes_of(&self.received, user);
        let given = bytes::bytes_of(&self.given, user);
        bytes::credit(received, given)
    }

    /// The seconds that it waited times its user's credit.
    fn score(&self, entry: &Waiting, now: u64) -> u128
        ensures { result ≡ score self.now now entry.now }
    {
        u128::from(now.saturating_sub(entry.since)) * u128::from(self.credit(&entry.user))
    }

    /// The rank of an entry: 1 and the number of those that come before it.
    fn rank_of(&self, entry: &Waiting, now: u64) -> u64
        ensures { result ≡ rank_of self.now now entry.now }
    {
        let own = self.score(entry, now);
        let mut rank = 1;
        for other in &self.waiting {
            let order = own
                .cmp(&self.score(other, now))
                .then(other.since.cmp(&entry.since))
                .then(other.number.cmp(&entry.number));
            if order == Ordering::Less {
                rank += 1;
            }
        }
        rank
    }

    /// The rank of a number, 1 for the next; `None` exactly where it isn't waiting. It takes no memory.
    pub fn rank(&self, number: u64, now: u64) -> Option<u64>
        ensures { result ≡ rank self.now now number }
    {
        let entry = waiting::find(&self.waiting, number)?;
        Some(self.rank_of(&entry, now))
    }

    /// The entry of a number without a slot. Where it doesn't wait it gets one now, with this user and second.
    fn enter(&mut self, number: u64, user: Hash, now: u64) -> Result<Waiting, NoMemory>
        requires { has_slot self.old number ≡ false }
        ensures book { OnOk result (self.new ≡ entered self.old number user now) }
        ensures out { OnOk result (has_slot self.new number ≡ false) }
        ensures number { IfOk result (λ entry. entry.number ≡ number) }
        ensures waits { IfOk result (λ entry. entry_of self.new number ≡ Some entry) }
        ensures refused { OnErr result (self.new ≡ self.old) }
    {
        if let Some(entry) = waiting::find(&self.waiting, number) {
            return Ok(entry);
        }
        let entry = Waiting {
            number,
            user,
            since: now,
        };
        waiting::enter(&mut self.waiting, entry)?;
        Ok(entry)
    }

    /// Gives a slot to a number that waited.
    fn grant(&mut self, number: u64)
        requires free { length self.old.slots < 4 }
        requires out { has_slot self.old number ≡ false }
        ensures book { self.new ≡ granted self.old number }
        ensures sound { IsBook self.new }
    {
        waiting::leave(&mut self.waiting, number);
        self.slots.push(number);
    }

    /// Answers a number that waits, and gives it a slot where one is free and it is the next.
    fn answer(&mut self, entry: &Waiting, now: u64) -> Place
        requires out { has_slot self.old entry.now.number ≡ false }
        requires waits { entry_of self.old entry.now.number ≡ Some entry.now }
        ensures place { Answers self.old now entry.now.number result }
        ensures book { self.new ≡ asked self.old now entry.now.number }
        ensures sound { IsBook self.new }
    {
        let rank = self.rank_of(entry, now);
        if rank == 1 && !self.slots.is_full() {
            self.grant(entry.number);
            return Place::Granted;
        }
        Place::Rank(rank)
    }

    /// A number asks for a slot. Where it has none and doesn't wait, it waits from now on, for this user.
    ///
    /// It is granted a slot exactly where it has one, or where fewer than four have one and it is the next;
    /// else it is told its rank. Where memory is refused the book is as before.
    pub fn ask(&mut self, number: u64, user: Hash, now: u64) -> Result<Place, NoMemory>
        ensures place { IfOk result (Answers (entered self.old number user now) now number) }
        ensures book { OnOk result (self.new ≡ asked (entered self.old number user now) now number) }
        ensures refused { OnErr result (self.new ≡ self.old) }

        // What follows from these clauses, for callers.
        ensures itself { IfOk result (IsIn self.new number) }
        ensures others { KeepsOthers self.old self.new number }
        ensures sound { IsBook self.new }
    {
        if self.slots.contains(&number) {
            return Ok(Place::Granted);
        }
        let entry = self.enter(number, user, now)?;
        Ok(self.answer(&entry, now))
    }

    /// Takes a number out, so that its slot is free or it waits no more. Where it asks again it is new. It
    /// takes no memory.
    pub fn leave(&mut self, number: u64)
        ensures book { self.new ≡ left self.old number }
        ensures itself { IsOut self.new number }
        ensures others { KeepsOthers self.old self.new number }
        ensures sound { IsBook self.new }
    {
        self.slots.retain(|other| *other != number);
        waiting::leave(&mut self.waiting, number);
    }
}
