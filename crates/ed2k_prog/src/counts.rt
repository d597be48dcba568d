//! What a vault counts.
ghost use Rattle.std.specs.Prelude.{◌≡◌, ◌≤◌, ◌<◌, OnOk};
ghost use Rattle.ed2k_outside.specs.Causes.{CountsCall, HasCause};
ghost use Rattle.ed2k_outside.specs.Files.{CountsRead};

use crate::faults::fault;
use ed2k_outside::{Failed, Which};

/// What a vault counts.
#[derive(Drop)]
pub(crate) struct Counts {
    pub(crate) calls: u64,
    pub(crate) body_reads: u64,
    ghost reads_made: { body_reads ≤ calls },
}

impl Counts {
    pub(crate) fn new() -> Self {
        Counts {
            calls: 0,
            body_reads: 0,
        }
    }

    /// Counts a call, which fails where no number is left.
    pub(crate) fn begin(&mut self, faults: &mut u64) -> Result<(), Failed>
        ensures calls { CountsCall self.old.calls self.new.calls result }
        ensures cause { HasCause faults.old faults.new result }
        ensures clean { OnOk result (faults.new ≡ faults.old) }
        ensures body_reads { self.new.body_reads ≡ self.old.body_reads }
        ensures read { OnOk result (self.new.body_reads < self.new.calls) }
    {
        if self.calls == u64::MAX {
            return Err(fault(faults));
        }
        self.calls += 1;
        Ok(())
    }

    /// Counts a read, of which those of the body count once more.
    pub(crate) fn begin_read(&mut self, which: Which, faults: &mut u64) -> Result<(), Failed>
        ensures calls { CountsCall self.old.calls self.new.calls result }
        ensures cause { HasCause faults.old faults.new result }
        ensures clean { OnOk result (faults.new ≡ faults.old) }
        ensures body_reads { CountsRead which self.old.body_reads self.new.body_reads result }
    {
        self.begin(faults)?;
        if which == Which::Body {
            self.body_reads += 1;
        }
        Ok(())
    }
}
