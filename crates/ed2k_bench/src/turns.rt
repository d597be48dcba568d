//! Turns at the ticketed lock, and at std's.
ghost use Rattle.std.specs.Prelude.{◌≡◌, ℕ, [], All, replicate};
ghost use Rattle.turn_lock.specs.Views.{BeginsWith, IsFree};

use ed2k_outside::NoMemory;
use std::alloc::Global;
use std::sync::{Mutex, Wait};
use std::thread;
use std::thread::Threads;
use std::time::{Clock, Duration};
use turn_lock::{Booked, Pass, Turn};

/// How many turns were taken. Its log has a zero for each.
#[derive(Drop)]
struct Tally {
    turns: u64,
}

impl Booked for Tally {
    type Entry = u8;

    type Item = u8;

    ghost birth = { λ tally. [] };

    ghost log = { λ tally. replicate tally.turns 0 };

    ghost rows = { λ tally n. [] };

    fn booked(&self) -> u64 {
        self.turns
    }
}

impl Tally {
    fn note(&mut self)
        ensures { BeginsWith {E = ℕ} (replicate self.new.turns 0) (replicate self.old.turns 0) }
    {
        if self.turns < u64::MAX {
            self.turns += 1;
        }
    }
}

/// Takes so many turns, and holds each for a while.
fn turn_often<R: Wait + Clock>(
    rt: &R,
    lock: &Turn<Tally>,
    pass: &mut Pass<Tally>,
    times: u64,
    hold: Option<Duration>,
)
    requires own { pass.old.seat.table_id ≡ lock.now.board.shared.table_id }
    requires free { IsFree pass.old.seat }
    ensures own { pass.new.seat.table_id ≡ lock.now.board.shared.table_id }
    ensures free { IsFree pass.new.seat }
{
    for _ in 0..times {
        let mut tally = lock.take(rt, pass);
        tally.note();
        if let Some(hold) = hold {
            thread::sleep(rt, hold);
        }
        lock.give(pass, tally);
    }
}

/// The first pass, and so many more, split off it.
fn split_often<R: Wait>(
    rt: &R,
    lock: &Turn<Tally>,
    mut first: Pass<Tally>,
    passes: &mut Vec<Pass<Tally>>,
    more: usize,
) -> Result<(), NoMemory>
    requires own { first.seat.table_id ≡ lock.now.board.shared.table_id }
    requires free { IsFree first.seat }
    requires none { passes.old.items ≡ [] }
    ensures { All (λ p. (p.seat.table_id ≡ lock.now.board.shared.table_id) × IsFree p.seat) passes.new.items }
{
    for _ in 0..more {
        let other = lock.split(rt, &mut first);
        passes.push(other)?;
    }
    passes.push(first)?;
    Ok(())
}

/// Each pass takes so many turns, in a thread of its own.
fn turn_in_threads<R: Threads + Wait + Clock + Sync>(
    rt: &R,
    lock: &Turn<Tally>,
    passes: &mut [Pass<Tally>],
    times: u64,
    hold: Option<Duration>,
)
    requires { All (λ p. (p.seat.table_id ≡ lock.now.board.shared.table_id) × IsFree p.seat) passes.old }
{
    let threads = passes.len().max(1);
    thread::for_each_mut(
        rt,
        passes,
        threads,
        &|_, pass: &mut Pass<Tally>|
            requires { (pass.now.seat.table_id ≡ lock.now.board.shared.table_id) × IsFree pass.now.seat }
        { turn_often(rt, lock, pass, times, hold) },
    );
}

/// So many passes take so many turns each. The answer is how many were taken.
pub(crate) fn take_turns<R: Threads + Wait + Clock + Sync>(
    rt: &R,
    alloc: Global,
    passes: usize,
    times: u64,
    hold: Option<Duration>,
) -> Result<u64, NoMemory> {
    let Ok((lock, mut first)) = Turn::new(alloc, Tally { turns: 0 }) else {
        return Err(NoMemory);
    };
    let last = lock.split(rt, &mut first);
    let mut all = Vec::new(alloc);
    split_often(rt, &lock, first, &mut all, passes.saturating_sub(1))?;
    turn_in_threads(rt, &lock, all.as_mut_slice(), times, hold);
    Ok(lock.close(rt, last).turns)
}

fn lock_often<R: Wait>(rt: &R, lock: &Mutex<Tally>, times: u64) {
    for _ in 0..times {
        lock.lock(rt).note();
    }
}

/// So many threads take std's lock so many times each. The answer is how often it was taken.
pub(crate) fn take_locks<R: Threads + Wait + Sync>(
    rt: &R,
    alloc: Global,
    threads: usize,
    times: u64,
) -> Result<u64, NoMemory> {
    let lock = Mutex::new(Tally { turns: 0 });
    let mut hands = vec![in alloc; 0u8; threads]?;
    thread::for_each_mut(
        rt,
        hands.as_mut_slice(),
        threads.max(1),
        &|_, _: &mut u8| { lock_often(rt, &lock, times) },
    );
    Ok(lock.into_inner().turns)
}
