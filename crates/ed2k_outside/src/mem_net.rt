//! A net in memory: wires that are handed out in their order.
ghost use Rattle.std.specs.Prelude.{◌≡◌, ◌⊎◌, ◌+◌, ◌≤◌, [], length, vec_len, IfOk, MatchOption, MatchResult, None, OnErr, OnOk, Some, slice_get};
ghost use Rattle.std.specs.Option.{option_copied};
ghost use Rattle.std.specs.Vec.{vec_capacity};
ghost use Rattle.std.specs.Vec.Iter.{into_iter_len};
ghost use Rattle.ed2k_outside.specs.Causes.{HasCause};
ghost use Rattle.ed2k_outside.specs.Nets.{Listens, Connects, Accepts, Closes, IsOver, uncalled};
ghost use Rattle.ed2k_outside.specs.Scripts.{IsUnused, IsCalled, IsNextFailing, CountsFault};

use crate::script::Script;
use crate::{Addr, Failed, Net, NoMemory, Wire};
use std::alloc::Global;
use std::vec;

/// A net in memory, which hands its wires out in order, to `connect` and `accept` alike, and keeps those
/// that are given back.
///
/// Its calls but for `close` are numbered from 1, and those whose numbers are given fail, as does a
/// `connect` after the last wire. Each failure counts as a fault.
#[derive(Debug, Drop)]
pub struct MemNet<W> {
    script: Script,
    left: vec::IntoIter<(W, Addr)>,
    closed: Vec<W>,
    handed: usize,
    reached: Vec<Addr>,
    listened: Option<u16>,
    faults: u64,
    ghost handed_first: { length closed.items ≤ handed },
    ghost closed_room: { handed + into_iter_len left ≤ vec_capacity closed },
    ghost reached_room: { vec_len reached + into_iter_len left ≤ vec_capacity reached },
}

impl<W: Wire + Drop> MemNet<W> {
    ghost use Rattle.ed2k_outside.specs.MemNets.{net_told, net_script, net_count};

    /// A net of these wires, each with the address that `accept` answers beside it. It takes the room for
    /// all wires that come back and for the addresses of its connects.
    pub fn new(alloc: Global, wires: Vec<(W, Addr)>, fails: Vec<u64>) -> Result<Self, NoMemory>
        ensures told { IfOk result (λ net. net_told net ≡ uncalled wires.items) }
        ensures calls { IfOk result (λ net. IsUnused (net_script net) fails.items) }
        ensures faults { IfOk result (λ net. net_count net ≡ 0) }
    {
        let closed = Vec::with_capacity(alloc, wires.len())?;
        let reached = Vec::with_capacity(alloc, wires.len())?;
        Ok(MemNet {
            script: Script::new(fails),
            left: wires.into_iter(),
            closed,
            handed: 0,
            reached,
            listened: None,
            faults: 0,
        })
    }

    /// Wire `k` of those given back, and `None` exactly where at most `k` were given back.
    pub fn closed(&self, k: usize) -> Option<&W>
        ensures { option_copied result ≡ slice_get (net_told self.now).closed k }
    {
        self.closed.get(k)
    }
}

impl<W: Wire + Drop> Net for MemNet<W> {
    type Wire = W;

    ghost use Rattle.ed2k_outside.specs.MemNets.{net_told, net_script, net_count};

    ghost told = { λ net. Some (net_told net) };

    ghost net_faults = { net_count };

    ghost handed_first = { λ net. net.handed_first };

    fn listen(&mut self, port: u16) -> Result<(), Failed>
        ensures call { IsCalled (net_script self.old) (net_script self.new) result }
        ensures only { OnErr result (IsNextFailing (net_script self.old)) }
        ensures told { MatchResult result
            (λ _. Listens port (net_told self.old) (net_told self.new))
            (λ _. net_told self.new ≡ net_told self.old) }
        ensures cause { HasCause (net_count self.old) (net_count self.new) result }
        ensures faults { CountsFault (net_count self.old) (net_count self.new) result }
        ensures clean { OnOk result (net_count self.new ≡ net_count self.old) }
    {
        if self.script.fails_next() {
            self.faults = self.faults.saturating_add(1);
            return Err(Failed);
        }
        self.listened = Some(port);
        Ok(())
    }

    fn connect(&mut self, to: Addr) -> Result<W, Failed>
        ensures call { IsCalled (net_script self.old) (net_script self.new) result }
        ensures only { OnErr result (IsNextFailing (net_script self.old) ⊎ ((net_told self.old).left ≡ [])) }
        ensures told { MatchResult result
            (λ wire. Connects to wire (net_told self.old) (net_told self.new))
            (λ _. net_told self.new ≡ net_told self.old) }
        ensures cause { HasCause (net_count self.old) (net_count self.new) result }
        ensures faults { CountsFault (net_count self.old) (net_count self.new) result }
        ensures clean { OnOk result (net_count self.new ≡ net_count self.old) }
    {
        if self.script.fails_next() {
            self.faults = self.faults.saturating_add(1);
            return Err(Failed);
        }
        match self.left.next() {
            None => {
                self.faults = self.faults.saturating_add(1);
                Err(Failed)
            }
            Some((wire, _)) => {
                self.handed += 1;
                let _ = self.reached.push(to);
                Ok(wire)
            }
        }
    }

    fn accept(&mut self) -> Result<Option<(W, Addr)>, Failed>
        ensures call { IsCalled (net_script self.old) (net_script self.new) result }
        ensures only { OnErr result (IsNextFailing (net_script self.old)) }
        ensures told { MatchResult result
            (λ next. MatchOption next (IsOver (Some (net_told self.old)) (Some (net_told self.new)))
            (λ pair. Accepts pair (net_told self.old) (net_told self.new)))
            (λ _. net_told self.new ≡ net_told self.old) }
        ensures cause { HasCause (net_count self.old) (net_count self.new) result }
        ensures faults { CountsFault (net_count self.old) (net_count self.new) result }
        ensures clean { OnOk result (net_count self.new ≡ net_count self.old) }
    {
        if self.script.fails_next() {
            self.faults = self.faults.saturating_add(1);
            return Err(Failed);
        }
        let next = self.left.next();
        if next.is_some() {
            self.handed += 1;
        }
        Ok(next)
    }

    fn close(&mut self, wire: W)
        ensures told { Closes wire (net_told self.old) (net_told self.new) }
        ensures calls { net_script self.new ≡ net_script self.old }
        ensures faults { net_count self.new ≡ net_count self.old }
    {
        if self.closed.len() < self.handed {
            let _ = self.closed.push(wire);
        }
    }
}
