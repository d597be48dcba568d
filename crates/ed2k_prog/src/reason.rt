//! What the system said of a failure, as a person reads it.
ghost use Rattle.std.specs.Prelude.{◌≤◌, length};

use std::fmt::Write;
use std::{fmt, io, str};

/// The longest text that is kept.
const LIMIT: usize = 256;

/// What stands between the text of an error and its number.
const NUMBER: &str = " (os error ";

/// The text of an error of the system, without the number.
#[derive(Drop)]
pub(crate) struct Reason {
    text: [u8; LIMIT],
    len: usize,
    ghost fits: { len ≤ length text },
}

impl Reason {
    pub(crate) fn of(error: &io::Error) -> Self {
        let mut reason = Reason {
            text: [0; LIMIT],
            len: 0,
        };
        // A text that is too long is cut.
        let _cut = write!(reason, "{error}");
        reason
    }

    /// The text as far as it is kept, up to the number.
    fn text(&self) -> &str {
        let whole = str::from_utf8(&self.text[..self.len]).unwrap_or("");
        match whole.find(NUMBER) {
            Some(end) => whole.get(..end).unwrap_or(whole),
            None => whole,
        }
    }
}

impl fmt::Write for Reason {
    fn write_str(&mut self, piece: &str) -> fmt::Result {
        let bytes = piece.as_bytes();
        let room = LIMIT - self.len;
        if bytes.len() > room {
            return Err(fmt::Error);
        }
        self.text[self.len..self.len + bytes.len()].copy_from_slice(bytes);
        self.len += bytes.len();
        Ok(())
    }
}

impl fmt::Display for Reason {
    fn fmt<W: fmt::Write>(&self, f: &mut fmt::Formatter<W>) -> fmt::Result {
        f.write_str(self.text())
    }
}
