//! An index with many sessions: offers, searches, sources and leaves, each with the processor time that it took.
use crate::rows::{EACH, Numbers, file_of, hash_of, row, words_of};
use ed2k_outside::{Addr, Bytes, NoMemory};
use search_expr::{Expr, FileRow};
use server_index::{Found, Hash, Index};
use std::alloc::Global;
use std::time::{CpuClock, Duration};

/// How many searches there are of each kind.
const SEARCHES: u64 = 1_000;

/// How many searches there are that go through all files.
const WHOLE: u64 = 10;

/// How many times sources are asked for.
const ASKED: u64 = 100_000;

/// How many sessions leave.
const LEAVES: u64 = 100;

/// What answers came to: how many there were, and a number of all of them.
#[derive(Clone, Copy)]
struct Tally {
    count: u64,
    sum: u64,
}

impl Tally {
    fn nothing() -> Self {
        Tally { count: 0, sum: 0 }
    }

    fn add(&mut self, value: u64) {
        self.count = self.count.wrapping_add(1);
        self.sum = self.sum.wrapping_mul(31).wrapping_add(value);
    }

    fn add_hash(&mut self, hash: &Hash) {
        let mut value: u64 = 0;
        for byte in hash[..8].iter() {
            value = value.wrapping_mul(256).wrapping_add(u64::from(*byte));
        }
        self.add(value);
    }

    fn add_found(&mut self, found: &[Found]) {
        for one in found {
            self.add_hash(&one.row.hash);
            self.add(one.row.size.wrapping_add(u64::from(one.id)));
        }
    }
}

/// A line of the report: what was done, how often, the processor time of all, and what the answers came to.
fn line(
    alloc: Global,
    name: &str,
    times: u64,
    spent: Duration,
    tally: Tally,
) -> anyhow::Result<String> {
    let micros = spent.as_micros();
    let Tally { count, sum } = tally;
    Ok(format!(in alloc; "{name} {times} {micros} {count} {sum:x}\n")?)
}

fn rows_of(alloc: Global, session: u64) -> Result<Vec<FileRow>, NoMemory> {
    let mut rows = Vec::with_capacity(alloc, EACH as usize)?;
    for place in 0..EACH {
        rows.push(row(alloc, file_of(session, place))?)?;
    }
    Ok(rows)
}

fn join(index: &mut Index, session: u64, rows: Vec<FileRow>) -> Result<u64, NoMemory> {
    let addr = Addr {
        ip: [10, 0, 0, 1],
        port: 4662,
    };
    if index.login(session, [0; 16], addr, 4662, false).is_err() {
        return Err(NoMemory);
    }
    match index.offer(session, rows) {
        Ok(taken) => Ok(u64::from(taken)),
        Err(_) => Err(NoMemory),
    }
}

/// Fills an index.
fn fill<R: CpuClock>(
    rt: &R,
    alloc: Global,
    index: &mut Index,
    sessions: u64,
) -> anyhow::Result<String> {
    let mut spent = Duration::ZERO;
    let mut tally = Tally::nothing();
    for session in 0..sessions {
        let rows = rows_of(alloc, session)?;
        let start = rt.process_cpu_time()?;
        tally.add(join(index, session, rows)?);
        let end = rt.process_cpu_time()?;
        spent = spent.saturating_add(end.saturating_sub(start));
    }
    line(alloc, "offers", sessions.wrapping_mul(EACH), spent, tally)
}

/// A file that a session offers, drawn.
fn drawn(numbers: &mut Numbers, sessions: u64) -> u64 {
    let session = numbers.next() % sessions.max(1);
    file_of(session, numbers.next() % EACH)
}

/// Searches for so many words of files' names.
fn search<R: CpuClock>(
    rt: &R,
    alloc: Global,
    index: &Index,
    sessions: u64,
    words: u8,
) -> anyhow::Result<String> {
    let mut spent = Duration::ZERO;
    let mut tally = Tally::nothing();
    let mut numbers = Numbers(u64::from(words));
    for _ in 0..SEARCHES {
        let text = words_of(alloc, drawn(&mut numbers, sessions), words)?;
        let expr = Expr::Word(Bytes::new(text));
        let start = rt.process_cpu_time()?;
        let found = index.search(&expr, None)?;
        let end = rt.process_cpu_time()?;
        spent = spent.saturating_add(end.saturating_sub(start));
        tally.add_found(&found);
    }
    let name = format!(in alloc; "words_{words}")?;
    line(alloc, &name, SEARCHES, spent, tally)
}

/// Searches by a size that no file has, which goes through all of them.
fn search_whole<R: CpuClock>(rt: &R, alloc: Global, index: &Index) -> anyhow::Result<String> {
    let mut tally = Tally::nothing();
    let expr = Expr::Number {
        value: u32::MAX,
        most: false,
        name: Bytes::new(vec![in alloc; 2u8; 1]?),
    };
    let start = rt.process_cpu_time()?;
    for _ in 0..WHOLE {
        tally.add_found(&index.search(&expr, None)?);
    }
    let spent = rt.process_cpu_time()?.saturating_sub(start);
    line(alloc, "whole", WHOLE, spent, tally)
}

/// Asks where files can be had.
fn ask<R: CpuClock>(rt: &R, alloc: Global, index: &Index, sessions: u64) -> anyhow::Result<String> {
    let mut tally = Tally::nothing();
    let mut numbers = Numbers(9);
    let start = rt.process_cpu_time()?;
    for _ in 0..ASKED {
        let places = index.sources(&hash_of(drawn(&mut numbers, sessions)))?;
        for (id, port) in places.as_slice() {
            tally.add(u64::from(*id).wrapping_add(u64::from(*port)));
        }
    }
    let spent = rt.process_cpu_time()?.saturating_sub(start);
    line(alloc, "sources", ASKED, spent, tally)
}

/// Lets sessions leave, and tells what is left.
fn leave<R: CpuClock>(rt: &R, alloc: Global, index: &mut Index) -> anyhow::Result<String> {
    let mut tally = Tally::nothing();
    let start = rt.process_cpu_time()?;
    for session in 0..LEAVES {
        index.logout(session.wrapping_mul(7));
    }
    let spent = rt.process_cpu_time()?.saturating_sub(start);
    let (sessions, files) = index.status();
    tally.add(u64::from(sessions));
    tally.add(u64::from(files));
    line(alloc, "logouts", LEAVES, spent, tally)
}

/// An index of about so many files, a thousand a session, and what is asked of it.
pub(crate) fn run_index<R: CpuClock>(rt: &R, alloc: Global, files: u64) -> anyhow::Result<String> {
    let sessions = files / EACH;
    let mut index = Index::new(alloc);
    let mut report = fill(rt, alloc, &mut index, sessions)?;
    for words in 1..4 {
        report.push_str(&search(rt, alloc, &index, sessions, words)?)?;
    }
    report.push_str(&search_whole(rt, alloc, &index)?)?;
    report.push_str(&ask(rt, alloc, &index, sessions)?)?;
    report.push_str(&leave(rt, alloc, &mut index)?)?;
    Ok(report)
}

/// Whether a byte is of a word, and no letter that is lowered.
fn is_plain(byte: u8) -> bool {
    byte.is_ascii_digit() || byte.is_ascii_lowercase() || byte >= 0x80
}

/// A name of words of two bytes each, none twice, as long as a name may be.
fn hostile_name(alloc: Global) -> anyhow::Result<Vec<u8>> {
    let mut name = Vec::with_capacity(alloc, 65_535)?;
    for high in 48u8..255 {
        for low in 48u8..255 {
            if name.len() <= 65_532 && is_plain(high) && is_plain(low) {
                name.push(high)?;
                name.push(low)?;
                name.push(b' ')?;
            }
        }
    }
    Ok(name)
}

/// Eight sessions that each offer so many files with names as long and as full of words as can be.
pub(crate) fn run_hostile<R: CpuClock>(rt: &R, alloc: Global, each: u64) -> anyhow::Result<String> {
    let mut index = Index::new(alloc);
    let mut spent = Duration::ZERO;
    let mut tally = Tally::nothing();
    for session in 0..8 {
        let mut rows = Vec::new(alloc);
        for place in 0..each {
            let name = hostile_name(alloc)?;
            if name.len() > 65_535 {
                return Err(NoMemory.into());
            }
            rows.push(FileRow {
                hash: hash_of(place.wrapping_mul(8).wrapping_add(session)),
                name: Bytes::new(name),
                size: place,
                kind: Bytes::new(Vec::new(alloc)),
            })?;
        }
        let start = rt.process_cpu_time()?;
        tally.add(join(&mut index, session, rows)?);
        spent = spent.saturating_add(rt.process_cpu_time()?.saturating_sub(start));
    }
    line(alloc, "hostile", each.wrapping_mul(8), spent, tally)
}
