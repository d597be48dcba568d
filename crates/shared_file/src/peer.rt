//! A peer of a shared file.
ghost use Rattle.std.specs.Prelude.{◌≡◌, true};
ghost use Rattle.reserve_core.specs.Desk.{own};
ghost use Rattle.reserve_core.specs.Events.{events};
ghost use Rattle.shared_file.specs.Peers.{HasRow, HasStart, at_rest};

use crate::common::Common;
use crate::noted::Noted;
use ed2k_outside::Vault;
use reserve_core::Event;
use turn_lock::{Booked, Pass};

/// A peer of a shared file. It has a number of its own, and knows how much of the file's log it has seen.
///
/// Between its calls the log that it has seen has all of its own events: nobody else adds one of them.
#[derive(Drop)]
pub struct Peer<V: Vault + Drop>
where
    Common<V>: Booked<Entry = Noted, Item = Event>,
{
    /// The peer's pass of the lock.
    pub pass: Pass<Common<V>>,
    ghost rests: { at_rest pass.seat ≡ true },
    ghost kept: { HasRow pass.seat pass.number },
    ghost started: { HasStart (λ c n. own (events c.file.log) n) pass.seat },
}

impl<V: Vault + Drop> Peer<V> {
    /// The peer's number, which no other peer of the file has.
    pub fn number(&self) -> u64
        ensures { result ≡ self.now.pass.number }
    {
        self.pass.number()
    }
}
