//! A sink in memory.
ghost use Rattle.std.specs.Prelude.{◌≡◌, [], length, IfOk, Some, None};
ghost use Rattle.ed2k_outside.specs.Scripts.{IsUnused, IsCalled, CountsFault};
ghost use Rattle.ed2k_outside.specs.Causes.{HasCause};
ghost use Rattle.ed2k_outside.specs.Halves.{Sends};

use crate::script::Script;
use crate::{Failed, Sink};
use std::alloc::Global;

/// A sink in memory. Its writes are numbered from 1, and those whose numbers are given fail, as does one
/// that finds no memory. Each failure counts as a fault.
#[derive(Debug, Drop)]
pub struct MemOut {
    script: Script,
    sent: Vec<u8>,
    faults: u64,
}

impl MemOut {
    ghost use Rattle.ed2k_outside.specs.MemWires.{out_sent, out_script, out_count};

    /// A sink that nothing was sent to. It takes no memory.
    pub fn new(alloc: Global, fails: Vec<u64>) -> Self
        ensures sent { out_sent result ≡ [] }
        ensures calls { IsUnused (out_script result) fails.items }
        ensures faults { out_count result ≡ 0 }
    {
        MemOut {
            script: Script::new(fails),
            sent: Vec::new(alloc),
            faults: 0,
        }
    }

    /// The bytes sent.
    pub fn sent(&self) -> &[u8]
        ensures { result.now ≡ out_sent self.now }
    {
        &self.sent
    }
}

impl Sink for MemOut {
    ghost use Rattle.ed2k_outside.specs.MemWires.{out_sent, out_script, out_count};

    ghost sent = { λ out. Some (out_sent out) };

    ghost write_faults = { out_count };

    ghost beside_sent = { λ _. record { bytes = None; ports = None; half_faults = 0; port_faults = 0 } };

    fn write(&mut self, piece: &[u8]) -> Result<usize, Failed>
        ensures call { IsCalled (out_script self.old) (out_script self.new) result }
        ensures bytes { Sends (Some (out_sent self.old)) (Some (out_sent self.new)) result piece.now }
        ensures whole { IfOk result (λ n. n ≡ length piece.now) }
        ensures cause { HasCause (out_count self.old) (out_count self.new) result }
        ensures faults { CountsFault (out_count self.old) (out_count self.new) result }
    {
        if self.script.fails_next() {
            self.faults = self.faults.saturating_add(1);
            return Err(Failed);
        }
        match self.sent.extend_from_slice(piece) {
            Ok(()) => Ok(piece.len()),
            Err(_) => {
                self.faults = self.faults.saturating_add(1);
                Err(Failed)
            }
        }
    }
}
