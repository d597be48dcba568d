//! The jobs by name, and what each prints.
use crate::logs::Order;
use crate::{frames, hashes, indexes, logs, searches, sessions, shares, turns};
use std::alloc::Global;
use std::sync::Wait;
use std::thread::Threads;
use std::time::{Clock, CpuClock, Duration};

/// How long a slow turn is held, in milliseconds.
const SLOW: u64 = 1;

/// What is timed at a lock.
#[derive(Clone, Copy)]
pub(crate) enum LockJob {
    /// Turns at a lock, by so many passes.
    Turns(usize),
    /// The same, each held for a while.
    SlowTurns(usize),
    /// The same with std's `Mutex`, by so many threads.
    Locks(usize),
}

impl LockJob {
    /// Does the job, and says what came of it.
    fn report<R: Threads + Wait + Clock + Sync>(
        self,
        rt: &R,
        alloc: Global,
        count: u64,
    ) -> anyhow::Result<String> {
        match self {
            LockJob::Turns(passes) => {
                let taken = turns::take_turns(rt, alloc, passes, count, None)?;
                Ok(format!(in alloc; "turns {count} {passes} {taken}")?)
            }
            LockJob::SlowTurns(passes) => {
                let held = Duration::from_millis(SLOW);
                let taken = turns::take_turns(rt, alloc, passes, count, Some(held))?;
                Ok(format!(in alloc; "slow_turns {count} {passes} {taken}")?)
            }
            LockJob::Locks(threads) => {
                let taken = turns::take_locks(rt, alloc, threads, count)?;
                Ok(format!(in alloc; "locks {count} {threads} {taken}")?)
            }
        }
    }
}

/// What is timed.
#[derive(Clone, Copy)]
pub(crate) enum Job {
    Md4,
    Sha1,
    Hash,
    Frames,
    Messages,
    /// What a session needs, and the session itself where this is true.
    Session(bool),
    /// A log with its spans in this order, and its load where this is true.
    Load(Order, bool),
    /// File names.
    Names,
    /// The search of two words in them, which more of them have where this is true.
    Search(bool),
    Offers,
    /// An index of so many files, and one of eight sessions with long names.
    Index,
    Hostile,
    /// So many bytes that are shared.
    Shares,
    /// What is timed at a lock.
    Lock(LockJob),
}

impl Job {
    pub(crate) fn named(name: &str) -> Option<Self> {
        match name {
            "md4" => Some(Job::Md4),
            "sha1" => Some(Job::Sha1),
            "hash" => Some(Job::Hash),
            "frames" => Some(Job::Frames),
            "messages" => Some(Job::Messages),
            "session" => Some(Job::Session(true)),
            "session_ready" => Some(Job::Session(false)),
            "load" => Some(Job::Load(Order::Ascending, true)),
            "load_worst" => Some(Job::Load(Order::Worst, true)),
            "load_ready" => Some(Job::Load(Order::Ascending, false)),
            "names" => Some(Job::Names),
            "search" => Some(Job::Search(false)),
            "search_often" => Some(Job::Search(true)),
            "offers" => Some(Job::Offers),
            "index" => Some(Job::Index),
            "hostile" => Some(Job::Hostile),
            "shares" => Some(Job::Shares),
            "turns" => Some(Job::Lock(LockJob::Turns(1))),
            "turns_by_8" => Some(Job::Lock(LockJob::Turns(8))),
            "turns_by_64" => Some(Job::Lock(LockJob::Turns(64))),
            "slow_turns_by_64" => Some(Job::Lock(LockJob::SlowTurns(64))),
            "locks" => Some(Job::Lock(LockJob::Locks(1))),
            "locks_by_8" => Some(Job::Lock(LockJob::Locks(8))),
            "locks_by_64" => Some(Job::Lock(LockJob::Locks(64))),
            _ => None,
        }
    }

    /// Does the job, and says what came of it.
    pub(crate) fn report<R: Threads + Wait + Clock + CpuClock + Sync>(
        self,
        rt: &R,
        alloc: Global,
        size: u64,
    ) -> anyhow::Result<String> {
        match self {
            Job::Md4 => {
                let hash = hashes::hash_md4(alloc, size)?;
                Ok(format!(in alloc; "md4 {size} {hash}")?)
            }
            Job::Sha1 => {
                let hash = hashes::hash_sha1(alloc, size)?;
                Ok(format!(in alloc; "sha1 {size} {hash}")?)
            }
            Job::Hash => {
                let (hash, root) = hashes::hash_file(alloc, size)?;
                Ok(format!(in alloc; "hash {size} {hash} {root}")?)
            }
            Job::Frames => {
                let (frames, bytes) = frames::read_frames(alloc, size)?;
                Ok(format!(in alloc; "frames {size} {frames} {bytes}")?)
            }
            Job::Messages => {
                let (messages, bytes) = frames::read_messages(alloc, size)?;
                Ok(format!(in alloc; "messages {size} {messages} {bytes}")?)
            }
            Job::Session(downloads) => {
                let (bytes, complete) = sessions::run_session(alloc, size, downloads)?;
                Ok(format!(in alloc; "session {size} {bytes} {complete}")?)
            }
            Job::Load(order, loads) => {
                let (records, bytes) = logs::load_log(alloc, size, order, loads)?;
                Ok(format!(in alloc; "load {size} {records} {bytes}")?)
            }
            Job::Names => searches::names(alloc, size),
            Job::Search(often) => {
                let (found, spent) = searches::count_matches(rt, alloc, size, often)?;
                let asked = searches::asked(alloc, often)?;
                let words = String::from_utf8_lossy(alloc, &asked)?;
                let micros = spent.as_micros();
                Ok(format!(in alloc; "search {size} {micros} {found} {words}")?)
            }
            Job::Offers => {
                let (files, bytes, spent) = searches::read_offers(rt, alloc, size)?;
                let micros = spent.as_micros();
                Ok(format!(in alloc; "offers {size} {micros} {files} {bytes}")?)
            }
            Job::Index => indexes::run_index(rt, alloc, size),
            Job::Hostile => indexes::run_hostile(rt, alloc, size),
            Job::Shares => {
                let files = shares::share(alloc, size)?;
                Ok(format!(in alloc; "shares {size} {files}")?)
            }
            Job::Lock(job) => job.report(rt, alloc, size),
        }
    }
}
