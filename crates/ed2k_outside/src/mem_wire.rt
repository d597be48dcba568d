//! A wire in memory: its input comes in the given cuts, and its output is kept.
ghost use Rattle.std.specs.Prelude.{◌≡◌, ◌+◌, ◌<◌, ◌≤◌, ◌↔◌, [], ◌++◌, length, min, take, drop, Contains, IfOk, IsTrue, MatchResult, OnErr, Some};
ghost use Rattle.std.specs.Io.{ReadsAtMost};
ghost use Rattle.std.specs.Vec.Iter.{into_iter_items};
ghost use Rattle.ed2k_outside.specs.Scripts.{IsUnused, IsCalled, IsNextFailing, CountsFault};
ghost use Rattle.ed2k_outside.specs.Causes.{HasCause};
ghost use Rattle.ed2k_outside.specs.Halves.{Takes, Sends};
ghost use Rattle.ed2k_outside.specs.Cuts.{most_taken};

use crate::copies::copy_from;
use crate::script::Script;
use crate::{Failed, NoMemory, Sink, Source, Wire};
use std::alloc::Global;
use std::vec;

/// A wire in memory: the bytes that come in are given, and those that go out are kept.
///
/// Its calls are numbered from 1, and those whose numbers are given fail, as does a write that finds no
/// memory. Each failure counts as a fault of the half that was called, or of `reach`.
#[derive(Debug, Drop)]
pub struct MemWire {
    script: Script,
    input: Vec<u8>,
    taken: usize,
    cuts: vec::IntoIter<usize>,
    sent: Vec<u8>,
    ports: Vec<u16>,
    read_faults: u64,
    write_faults: u64,
    reach_faults: u64,
    ghost in_input: { taken ≤ length input.items },
}

impl MemWire {
    ghost use Rattle.ed2k_outside.specs.MemWires.{wire_left, wire_sent, wire_ports, wire_cuts, wire_script, wire_read_count, wire_write_count, wire_reach_count};

    /// A wire that `input` comes in on, of which each read takes at most the next number of `cuts`, and
    /// whole buffers once they are used up. A cut of 0 counts as 1. It reaches the listed ports.
    pub fn new(
        alloc: Global,
        input: Vec<u8>,
        cuts: Vec<usize>,
        fails: Vec<u64>,
        ports: Vec<u16>,
    ) -> Result<Self, NoMemory>
        ensures left { IfOk result (λ wire. wire_left wire ≡ input.items) }
        ensures sent { IfOk result (λ wire. wire_sent wire ≡ []) }
        ensures cuts { IfOk result (λ wire. wire_cuts wire ≡ cuts.items) }
        ensures ports { IfOk result (λ wire. wire_ports wire ≡ ports.items) }
        ensures calls { IfOk result (λ wire. IsUnused (wire_script wire) fails.items) }
        ensures read_faults { IfOk result (λ wire. wire_read_count wire ≡ 0) }
        ensures write_faults { IfOk result (λ wire. wire_write_count wire ≡ 0) }
        ensures reach_faults { IfOk result (λ wire. wire_reach_count wire ≡ 0) }
    {
        Ok(MemWire {
            script: Script::new(fails),
            input,
            taken: 0,
            cuts: cuts.into_iter(),
            sent: Vec::new(alloc),
            ports,
            read_faults: 0,
            write_faults: 0,
            reach_faults: 0,
        })
    }

    /// The bytes sent.
    pub fn sent(&self) -> &[u8]
        ensures { result.now ≡ wire_sent self.now }
    {
        &self.sent
    }
}

/// How much the next read takes at most, of a buffer with this room.
fn next_most(cuts: &mut vec::IntoIter<usize>, room: usize) -> usize
    ensures most { result ≡ most_taken (into_iter_items cuts.old) room }
    ensures bound { result ≤ room }
    ensures some { 0 < room → 0 < result }
    ensures rest { into_iter_items cuts.new ≡ drop 1 (into_iter_items cuts.old) }
{
    match cuts.next() {
        None => room,
        Some(cut) => cut.max(1).min(room),
    }
}

fn contains(ports: &[u16], port: u16) -> bool
    ensures { IsTrue result ↔ Contains ports.now port }
{
    ports.contains(&port)
}

/// Copies the bytes behind those that were taken, as many as there are and the buffer has room for.
fn take_from(input: &[u8], taken: usize, buf: &mut [u8]) -> usize
    requires { taken ≤ length input.now }
    ensures number { result ≡ min (length buf.new) (length (drop taken input.now)) }
    ensures bytes { drop taken input.now ≡ take result buf.new ++ drop (taken + result) input.now }
{
    copy_from(input, taken as u64, buf)
}

impl Source for MemWire {
    ghost use Rattle.ed2k_outside.specs.MemWires.{wire_left, wire_beside_left, wire_cuts, wire_script, wire_read_count};

    ghost left = { λ wire. Some (wire_left wire) };

    ghost read_faults = { wire_read_count };

    ghost beside_left = { wire_beside_left };

    fn read(&mut self, buf: &mut [u8]) -> Result<usize, Failed>
        ensures call { IsCalled (wire_script self.old) (wire_script self.new) result }
        ensures only { OnErr result (IsNextFailing (wire_script self.old)) }
        ensures bound { ReadsAtMost result buf.new }
        ensures number { IfOk result
            (λ n. n ≡ min (most_taken (wire_cuts self.old) (length buf.new)) (length (wire_left self.old))) }
        ensures cuts { MatchResult result
            (λ _. wire_cuts self.new ≡ drop 1 (wire_cuts self.old))
            (λ _. wire_cuts self.new ≡ wire_cuts self.old) }
        ensures bytes { Takes (Some (wire_left self.old)) (Some (wire_left self.new)) result buf.new }
        ensures end { IfOk result (λ n. n ≡ 0 → 0 < length buf.new → wire_left self.old ≡ []) }
        ensures cause { HasCause (wire_read_count self.old) (wire_read_count self.new) result }
        ensures faults { CountsFault (wire_read_count self.old) (wire_read_count self.new) result }
        ensures beside { wire_beside_left self.new ≡ wire_beside_left self.old }
    {
        if self.script.fails_next() {
            self.read_faults = self.read_faults.saturating_add(1);
            return Err(Failed);
        }
        let most = next_most(&mut self.cuts, buf.len());
        let count = take_from(&self.input, self.taken, &mut buf[..most]);
        self.taken += count;
        Ok(count)
    }
}

impl Sink for MemWire {
    ghost use Rattle.ed2k_outside.specs.MemWires.{wire_sent, wire_beside_sent, wire_cuts, wire_script, wire_write_count};

    ghost sent = { λ wire. Some (wire_sent wire) };

    ghost write_faults = { wire_write_count };

    ghost beside_sent = { wire_beside_sent };

    fn write(&mut self, piece: &[u8]) -> Result<usize, Failed>
        ensures call { IsCalled (wire_script self.old) (wire_script self.new) result }
        ensures bytes { Sends (Some (wire_sent self.old)) (Some (wire_sent self.new)) result piece.now }
        ensures whole { IfOk result (λ n. n ≡ length piece.now) }
        ensures cause { HasCause (wire_write_count self.old) (wire_write_count self.new) result }
        ensures faults { CountsFault (wire_write_count self.old) (wire_write_count self.new) result }
        ensures beside { wire_beside_sent self.new ≡ wire_beside_sent self.old }
        ensures cuts { wire_cuts self.new ≡ wire_cuts self.old }
    {
        if self.script.fails_next() {
            self.write_faults = self.write_faults.saturating_add(1);
            return Err(Failed);
        }
        match self.sent.extend_from_slice(piece) {
            Ok(()) => Ok(piece.len()),
            Err(_) => {
                self.write_faults = self.write_faults.saturating_add(1);
                Err(Failed)
            }
        }
    }
}

impl Wire for MemWire {
    ghost use Rattle.std.specs.Prelude.{refl};
    ghost use Rattle.ed2k_outside.specs.MemWires.{wire_left, wire_sent, wire_ports, wire_cuts, wire_script, wire_read_count, wire_write_count, wire_reach_count};

    ghost ports = { λ wire. Some (wire_ports wire) };

    ghost reach_faults = { wire_reach_count };

    ghost left_beside = { λ _. refl };

    ghost sent_beside = { λ _. refl };

    ghost tells_ports = { λ _. refl };

    fn reach(&mut self, port: u16) -> Result<bool, Failed>
        ensures call { IsCalled (wire_script self.old) (wire_script self.new) result }
        ensures only { OnErr result (IsNextFailing (wire_script self.old)) }
        ensures reaches { IfOk result (λ answer. IsTrue answer ↔ Contains (wire_ports self.old) port) }
        ensures cause { HasCause (wire_reach_count self.old) (wire_reach_count self.new) result }
        ensures faults { CountsFault (wire_reach_count self.old) (wire_reach_count self.new) result }
        ensures ports { wire_ports self.new ≡ wire_ports self.old }
        ensures left { wire_left self.new ≡ wire_left self.old }
        ensures sent { wire_sent self.new ≡ wire_sent self.old }
        ensures cuts { wire_cuts self.new ≡ wire_cuts self.old }
        ensures read_faults { wire_read_count self.new ≡ wire_read_count self.old }
        ensures write_faults { wire_write_count self.new ≡ wire_write_count self.old }
    {
        if self.script.fails_next() {
            self.reach_faults = self.reach_faults.saturating_add(1);
            return Err(Failed);
        }
        Ok(contains(&self.ports, port))
    }
}
