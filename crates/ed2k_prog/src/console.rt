//! Standard error, as all adapters share it.

use crate::reason::Reason;
use std::fmt::Display;
use std::io;
use std::sync::atomic::{AtomicBool, Ordering};

/// Who reads standard error.
#[derive(Clone, Copy, Debug, PartialEq, Eq)]
pub(crate) enum Reader {
    /// Nobody: it is closed, and its number may be that of a file of the download.
    Nobody,
    /// A file or another program.
    Script,
    /// A person at a terminal.
    Person,
}

/// Standard error: a line for each call that failed and, where it is a terminal, one line of progress that is
/// renewed in place.
#[derive(Drop)]
pub(crate) struct Console<'a, R> {
    pub(crate) rt: &'a R,
    reader: Reader,
    shows_progress: AtomicBool,
}

impl<'a, R: Eprint> Console<'a, R> {
    pub(crate) fn new(rt: &'a R, reader: Reader) -> Self {
        Console {
            rt,
            reader,
            shows_progress: AtomicBool::new(false),
        }
    }

    /// Whether a line of progress is seen.
    pub(crate) fn has_person(&self) -> bool {
        self.reader == Reader::Person
    }

    /// Tells in one line what failed, and what the system said. A line that can't be written is lost.
    pub(crate) fn tell<D: Display>(&self, of: &D, why: &io::Error) {
        if self.reader == Reader::Nobody {
            return;
        }
        self.clear();
        let reason = Reason::of(why);
        let _lost = eprintln!(self.rt; "ed2k_node: {of}: {reason}");
    }

    /// Prints a text of lines.
    pub(crate) fn print<D: Display>(&self, text: &D) {
        if self.reader != Reader::Nobody {
            let _lost = eprint!(self.rt; "{text}");
        }
    }

    /// Shows a line of progress in place of the one before, if there is a terminal.
    pub(crate) fn show<D: Display>(&self, line: &D) {
        if self.has_person() {
            self.shows_progress.store(true, Ordering::SeqCst);
            let _lost = eprint!(self.rt; "\r{line}\x1b[K");
        }
    }

    /// Takes the line of progress away.
    pub(crate) fn clear(&self) {
        if self.shows_progress.swap(false, Ordering::SeqCst) {
            let _lost = eprint!(self.rt; "\r\x1b[K");
        }
    }
}
