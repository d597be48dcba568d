//! How far a file has come, as a terminal shows it.

use crate::console::Console;
use crate::sizes::{Size, Span};
use std::fmt;
use std::rt::Clock;
use std::time::{Duration, Instant};

/// The least number of milliseconds between two lines.
const RENEWAL: u128 = 200;

/// How far a file has come. Where standard error isn't a terminal it does nothing.
#[derive(Drop)]
pub(crate) struct Progress {
    done: u64,
    total: u64,
    began: Option<Instant>,
    renewed: Option<Instant>,
}

impl Progress {
    /// Nothing is done, and of how much isn't known.
    pub(crate) fn new() -> Self {
        Progress {
            done: 0,
            total: 0,
            began: None,
            renewed: None,
        }
    }

    /// Notes the number of all bytes.
    pub(crate) fn set_total(&mut self, total: u64) {
        self.total = total;
    }

    /// Notes so many bytes more, and shows them where the last line is old enough.
    pub(crate) fn advance<R: Eprint + Clock>(&mut self, console: &Console<'_, R>, n: u64) {
        if !console.has_person() {
            return;
        }
        self.done = self.done.saturating_add(n);
        if let Ok(now) = Instant::now(console.rt) {
            self.renew(console, now);
        }
    }

    fn renew<R: Eprint>(&mut self, console: &Console<'_, R>, now: Instant) {
        let (Some(began), Some(renewed)) = (self.began, self.renewed) else {
            self.began = Some(now);
            self.renewed = Some(now);
            return;
        };
        if now.saturating_duration_since(renewed).as_millis() >= RENEWAL {
            self.renewed = Some(now);
            console.show(&self.line(now.saturating_duration_since(began)));
        }
    }

    /// The line after so long a time.
    pub(crate) fn line(&self, passed: Duration) -> Line {
        Line {
            done: self.done,
            total: self.total,
            rate: rate(self.done, passed),
        }
    }
}

/// Bytes a second, and 0 where no time has passed.
fn rate(done: u64, passed: Duration) -> u64 {
    let millis = passed.as_millis();
    if millis == 0 {
        return 0;
    }
    u64::try_from(u128::from(done) * 1_000 / millis).unwrap_or(u64::MAX)
}

/// A line of progress: bytes done of all, bytes a second, and the time that is left at this rate.
#[derive(Clone, Copy, Debug, PartialEq, Eq)]
pub(crate) struct Line {
    done: u64,
    total: u64,
    rate: u64,
}

impl fmt::Display for Line {
    fn fmt<W: fmt::Write>(&self, f: &mut fmt::Formatter<W>) -> fmt::Result {
        let done = Size(self.done);
        let rate = Size(self.rate);
        if self.total <= self.done {
            return write!(f, "{done}, {rate}/s");
        }
        let total = Size(self.total);
        write!(f, "{done} of {total}, {rate}/s")?;
        if self.rate > 0 {
            let left = Span((self.total - self.done) / self.rate);
            write!(f, ", {left} left")?;
        }
        Ok(())
    }
}
