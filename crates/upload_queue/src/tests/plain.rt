//! The book by plain lists: each place is found by a sort of all who wait.

use crate::Place;
use std::alloc::Global;
use std::test::Fail;

/// A number that waits, with the user and the second of its first ask. A user is a number below 5.
type Waiting = (u64, u8, u64);

#[derive(Debug, Drop)]
pub struct Plain {
    received: [u64; 5],
    given: [u64; 5],
    slots: Vec<u64>,
    waiting: Vec<Waiting>,
}

/// The greatest number up to 1,000 whose square is at most this.
fn root(square: u64) -> u64 {
    let mut root: u64 = 0;
    for next in 1..=1_000_u64 {
        if next.saturating_mul(next) > square {
            return root;
        }
        root = next;
    }
    root
}

fn add(sums: &mut [u64], user: u8, bytes: u64) {
    if let Some(sum) = sums.get_mut(usize::from(user)) {
        *sum = sum.saturating_add(bytes);
    }
}

fn sum(sums: &[u64], user: u8) -> u64 {
    sums.get(usize::from(user)).copied().unwrap_or(0)
}

impl Plain {
    pub fn new(alloc: Global) -> Plain {
        Plain {
            received: [0; 5],
            given: [0; 5],
            slots: Vec::new(alloc),
            waiting: Vec::new(alloc),
        }
    }

    pub fn received(&mut self, user: u8, bytes: u64) {
        add(&mut self.received, user, bytes);
    }

    pub fn count_bytes(&mut self, user: u8, bytes: u64) {
        add(&mut self.given, user, bytes);
    }

    pub fn credit(&self, user: u8) -> u64 {
        let received = sum(&self.received, user);
        let given = sum(&self.given, user);
        if received < 1_048_576 {
            return 100;
        }
        let ratio = if given == 0 {
            1_000
        } else {
            received.saturating_mul(200) / given
        };
        let reach = root(
            (received / 1_048_576)
                .saturating_add(2)
                .saturating_mul(10_000),
        );
        ratio.min(reach).max(100).min(1_000)
    }

    /// Those who wait, the next first: what they are sorted by, the number last.
    fn queue(&self, alloc: Global, now: u64) -> Result<Vec<(u64, u64, u64)>, Fail> {
        let mut queue = Vec::new(alloc);
        for (number, user, since) in &self.waiting {
            let score = now
                .saturating_sub(*since)
                .saturating_mul(self.credit(*user));
            queue.push((u64::MAX - score, *since, *number))?;
        }
        queue.sort()?;
        Ok(queue)
    }

    pub fn rank(&self, alloc: Global, number: u64, now: u64) -> Result<Option<u64>, Fail> {
        let mut rank: u64 = 0;
        for (_, _, other) in &self.queue(alloc, now)? {
            rank = rank.saturating_add(1);
            if *other == number {
                return Ok(Some(rank));
            }
        }
        Ok(None)
    }

    pub fn ask(&mut self, alloc: Global, number: u64, user: u8, now: u64) -> Result<Place, Fail> {
        if self.slots.contains(&number) {
            return Ok(Place::Granted);
        }
        if self.rank(alloc, number, now)?.is_none() {
            self.waiting.push((number, user, now))?;
        }
        let rank = self.rank(alloc, number, now)?.unwrap_or(0);
        if rank == 1 && self.slots.len() < 4 {
            self.leave(number);
            self.slots.push(number)?;
            return Ok(Place::Granted);
        }
        Ok(Place::Rank(rank))
    }

    pub fn leave(&mut self, number: u64) {
        self.slots.retain(|other| *other != number);
        self.waiting.retain(|entry| entry.0 != number);
    }
}
