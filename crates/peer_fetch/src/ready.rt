//! Which states of a session wait for the desk.
ghost use Rattle.std.specs.Prelude.{◌≡◌};
ghost use Rattle.peer_fetch.specs.Machine.{is_ready};

use crate::link::LinkCore;
use crate::machine::SessionState;
use ed2k_outside::Wire;

impl<W: Wire> LinkCore<W> {
    /// True exactly where a call of the session may begin: none was made yet, or the last one ended because
    /// nothing was left to reserve.
    pub fn is_ready(&self) -> bool
        ensures { result ≡ is_ready self.now.core.at }
    {
        match self.core.at {
            SessionState::Fresh | SessionState::Paused => true,
            _ => false,
        }
    }
}
