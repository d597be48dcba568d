//! A net: connections that are made, taken and given back.
ghost use Rattle.std.specs.Prelude.{◌≡◌, ◌≤◌, ℕ, length, IfSome, OnOk, MatchOption, MatchResult};
ghost use Rattle.std.specs.declared.option.Option.{Option};
ghost use Rattle.ed2k_outside.specs.Causes.{HasCause, ChangesOnOk, IfKnown};
ghost use Rattle.ed2k_outside.specs.Nets.{Told, Listens, Connects, Accepts, Closes, IsOver};

use crate::{Addr, Failed, Wire};

/// Connections that are made, taken and given back. `connect` and `accept` may wait, as long as the net lets
/// them; a call that meets a limit of time fails.
pub trait Net {
    /// A connection.
    type Wire: Wire;

    /// The wires left, given back and handed out, the addresses reached and the port, where the net tells
    /// them.
    ghost told: { Self → Option (Told Self.Wire) };

    /// How often a call failed. It never falls, and no other call changes it.
    ghost net_faults: { Self → ℕ };

    /// Takes connections at the port from now on.
    fn listen(&mut self, port: u16) -> Result<(), Failed>
        ensures clean { OnOk result (net_faults self.new ≡ net_faults self.old) }
        ensures told { ChangesOnOk (λ _. Listens port) result (told self.old) (told self.new) }
        ensures cause { HasCause (net_faults self.old) (net_faults self.new) result };

    /// Connects to an address.
    fn connect(&mut self, to: Addr) -> Result<Self::Wire, Failed>
        ensures clean { OnOk result (net_faults self.new ≡ net_faults self.old) }
        ensures told { ChangesOnOk (λ wire. Connects to wire) result (told self.old) (told self.new) }
        ensures cause { HasCause (net_faults self.old) (net_faults self.new) result };

    /// The next connection, with the address that it comes from. `None` where no further one will come,
    /// which a net that doesn't tell its wires never answers.
    fn accept(&mut self) -> Result<Option<(Self::Wire, Addr)>, Failed>
        ensures clean { OnOk result (net_faults self.new ≡ net_faults self.old) }
        ensures told { MatchResult result
            (λ next. MatchOption next (IsOver (told self.old) (told self.new))
            (λ pair. IfKnown (Accepts pair) (told self.old) (told self.new)))
            (λ _. told self.new ≡ told self.old) }
        ensures cause { HasCause (net_faults self.old) (net_faults self.new) result };

    /// Takes a wire back. It can't fail, so it counts no fault, and takes no memory.
    fn close(&mut self, wire: Self::Wire)
        ensures told { IfKnown (Closes wire) (told self.old) (told self.new) }
        ensures faults { net_faults self.new ≡ net_faults self.old };

    /// No more wires are given back than were handed out.
    ghost handed_first: { (net : Self) → IfSome (told net) (λ told. length told.closed ≤ told.handed) };
}
