//! Passes of many threads that take turns, and what a pass counts.
ghost use Rattle.std.specs.Prelude.{◌≡◌, ◌≢◌, ℕ, ◌==◌, ◌<◌, [], ◌∷◌, ◌++◌, All, IfSome, OnOk};
ghost use Rattle.std.specs.List.{filter};
ghost use Rattle.turn_lock.specs.Views.{BeginsWith, IsFree, row_of, seen_of};

use crate::{Booked, Pass, Turn};
use std::alloc::{AllocError, Global};
use std::sync::Wait;
use std::test::Fail;
use std::thread;
use std::thread::Threads;

// The numbers of the passes that wrote here, in order.
#[derive(Drop)]
struct Tally {
    entries: Vec<u64>,
}

impl Booked for Tally {
    type Entry = u64;

    type Item = u64;

    ghost birth = { λ tally. [] };

    ghost log = { λ tally. tally.entries.items };

    ghost rows = { λ tally n. filter (λ e. e == n) tally.entries.items };

    fn booked(&self) -> u64 {
        self.entries.len() as u64
    }
}

impl Tally {
    fn append(&mut self, number: u64) -> Result<(), AllocError>
        ensures log { BeginsWith self.new.entries.items self.old.entries.items }
        ensures rows { (n : ℕ) → n ≢ number → filter (λ e. e == n) self.new.entries.items ≡ filter (λ e. e == n) self.old.entries.items }
        ensures done { OnOk result (self.new.entries.items ≡ self.old.entries.items ++ number ∷ []) }
        ensures own { OnOk result (filter (λ e. e == number) self.new.entries.items ≡ filter (λ e. e == number) self.old.entries.items ++ number ∷ []) }
    {
        self.entries.push(number)?;
        Ok(())
    }
}

// Appends the pass's number, in a turn of its own.
fn append<R: Wait>(rt: &R, lock: &Turn<Tally>, pass: &mut Pass<Tally>) -> Result<(), AllocError>
    requires own { pass.old.seat.table_id ≡ lock.now.board.shared.table_id }
    requires free { IsFree pass.old.seat }
    ensures own { pass.new.seat.table_id ≡ pass.old.seat.table_id }
    ensures free { IsFree pass.new.seat }
    ensures log { OnOk result (BeginsWith (seen_of pass.new.seat) (seen_of pass.old.seat)) }
    ensures row { OnOk result (row_of pass.new.seat ≡ row_of pass.old.seat ++ pass.old.number ∷ []) }
{
    let mut tally = lock.take(rt, pass);
    let done = tally.append(pass.number());
    lock.give(pass, tally);
    done
}

fn append_often<R: Wait>(rt: &R, lock: &Turn<Tally>, pass: &mut Pass<Tally>, times: u32)
    requires own { pass.old.seat.table_id ≡ lock.now.board.shared.table_id }
    requires free { IsFree pass.old.seat }
    ensures own { pass.new.seat.table_id ≡ lock.now.board.shared.table_id }
    ensures free { IsFree pass.new.seat }
{
    for _ in 0..times {
        if append(rt, lock, pass).is_err() {
            return;
        }
    }
}

fn split_often<R: Wait>(
    rt: &R,
    lock: &Turn<Tally>,
    first: Pass<Tally>,
    passes: &mut Vec<Pass<Tally>>,
    count: usize,
) -> Result<(), AllocError>
    requires own { first.seat.table_id ≡ lock.now.board.shared.table_id }
    requires free { IsFree first.seat }
    requires passes { passes.old.items ≡ [] }
    ensures { All (λ p. (p.seat.table_id ≡ lock.now.board.shared.table_id) × IsFree p.seat) passes.new.items }
{
    let mut first = first;
    for _ in 1..count {
        let other = lock.split(rt, &mut first);
        passes.push(other)?;
    }
    passes.push(first)?;
    Ok(())
}

fn append_in_threads<R: Threads + Wait + Sync>(
    rt: &R,
    lock: &Turn<Tally>,
    passes: &mut [Pass<Tally>],
    times: u32,
)
    requires { All (λ p. (p.seat.table_id ≡ lock.now.board.shared.table_id) × IsFree p.seat) passes.old }
    ensures { All (λ p. (p.seat.table_id ≡ lock.now.board.shared.table_id) × IsFree p.seat) passes.new }
{
    let threads = passes.len().max(1);
    thread::for_each_mut(
        rt,
        passes,
        threads,
        &|_, pass: &mut Pass<Tally>|
            requires { (pass.now.seat.table_id ≡ lock.now.board.shared.table_id) × IsFree pass.now.seat }
            ensures { (pass.exit.now.seat.table_id ≡ lock.entry.now.board.shared.table_id) × IsFree pass.exit.now.seat }
        { append_often(rt, lock, pass, times) },
    );
}

fn join_all(lock: &Turn<Tally>, passes: Vec<Pass<Tally>>) -> Option<Pass<Tally>>
    requires { All (λ p. (p.seat.table_id ≡ lock.now.board.shared.table_id) × IsFree p.seat) passes.items }
    ensures { IfSome result (λ p. (p.seat.table_id ≡ lock.now.board.shared.table_id) × IsFree p.seat) }
{
    let mut passes = passes;
    let mut first = passes.pop()?;
    while let Some(other) = passes.pop() {
        lock.join(&mut first, other);
    }
    Some(first)
}

// So many passes append their numbers side by side, and the log is handed back at the end.
fn append_side_by_side<R: Threads + Wait + Sync>(
    rt: &R,
    alloc: Global,
    count: usize,
    times: u32,
) -> Result<Vec<u64>, Fail> {
    let tally = Tally {
        entries: Vec::new(alloc),
    };
    let Ok((lock, first)) = Turn::new(alloc, tally) else {
        return Err("no memory".into());
    };
    let mut passes = Vec::new(alloc);
    split_often(rt, &lock, first, &mut passes, count)?;
    append_in_threads(rt, &lock, passes.as_mut_slice(), times);
    let Some(first) = join_all(&lock, passes) else {
        return Err("no pass".into());
    };
    let Tally { entries } = lock.close(rt, first);
    Ok(entries)
}

fn each_stands_often(entries: &[u64], count: u64, times: usize) -> bool {
    (0..count).all(|number| entries.iter().filter(|entry| **entry == number).count() == times)
}

#[test]
fn passes_take_turns_side_by_side(rt: HostRuntime) -> Result<(), Fail> {
    for (passes, times) in [(1, 1_000), (2, 1_000), (4, 1_000), (64, 1_000)] {
        let entries = append_side_by_side(&rt, rt.alloc(), passes, times)?;
        assert_eq!(rt; entries.len(), passes * times as usize);
        assert!(rt; each_stands_often(entries.as_slice(), passes as u64, times as usize));
    }
    Ok(())
}

#[test]
fn a_pass_counts_what_another_gave(rt: HostRuntime) -> Result<(), Fail> {
    let tally = Tally {
        entries: Vec::new(rt.alloc()),
    };
    let Ok((lock, mut first)) = Turn::new(rt.alloc(), tally) else {
        return Err("no memory".into());
    };
    let mut second = lock.split(&rt, &mut first);
    assert!(rt; first.number() == 0 && second.number() == 1);
    assert_eq!(rt; lock.count(&mut first), 0);
    append(&rt, &lock, &mut second)?;
    assert_eq!(rt; lock.count(&mut first), 1);
    append(&rt, &lock, &mut first)?;
    lock.join(&mut first, second);
    assert_eq!(rt; lock.count(&mut first), 2);
    let tally = lock.close(&rt, first);
    assert!(rt; tally.entries.as_slice() == [1, 0].as_slice());
    Ok(())
}
