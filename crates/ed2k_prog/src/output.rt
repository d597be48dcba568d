//! Standard output.
ghost use Rattle.std.specs.Prelude.{None};

use crate::console::Console;
use crate::faults::{counted, told_fault};
use ed2k_outside::{Failed, Sink};
use std::io;
use std::io::{ErrorKind, Write};

const NAME: &str = "standard output";

/// Standard output. It tells nothing of what was sent.
#[derive(Drop)]
pub(crate) struct StandardOutput<'a, R> {
    console: &'a Console<'a, R>,
    /// Whether it was closed and its number may be that of another file.
    is_lost: bool,
    faults: u64,
}

impl<'a, R> StandardOutput<'a, R> {
    pub(crate) fn new(console: &'a Console<'a, R>, is_lost: bool) -> Self {
        StandardOutput {
            console,
            is_lost,
            faults: 0,
        }
    }
}

impl<R: Print + Eprint> Sink for StandardOutput<'_, R> {
    ghost sent = { λ _. None };

    ghost write_faults = { λ out. out.faults };

    ghost beside_sent = { λ _. record { bytes = None; ports = None; half_faults = 0; port_faults = 0 } };

    fn write(&mut self, piece: &[u8]) -> Result<usize, Failed> {
        if self.is_lost {
            let why = io::Error::other("closed");
            return Err(told_fault(self.console, &mut self.faults, &NAME, &why));
        }
        self.console.clear();
        let answer = io::writer(self.console.rt).write(piece);
        let n = counted(self.console, &mut self.faults, &NAME, answer)?;
        if n == 0 && !piece.is_empty() {
            let why = io::Error::from(ErrorKind::WriteZero);
            return Err(told_fault(self.console, &mut self.faults, &NAME, &why));
        }
        Ok(n)
    }
}
