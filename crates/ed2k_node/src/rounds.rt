//! The rounds of a download from one peer: each is a call of the session, and what is settled after
//! it.
ghost use Rattle.std.specs.Prelude.{◌≡◌, [], ℕ};
ghost use Rattle.part_sizes.specs.Part.{IsSize};
ghost use Rattle.peer_fetch.specs.Linked.{IsReady, wanted_by};
ghost use Rattle.reserve_core.specs.Desk.{own};
ghost use Rattle.reserve_core.specs.Events.{events};
ghost use Rattle.ed2k_node.specs.IsRound.{AreRounds, IsRound, is_due};
ghost use Rattle.peer_fetch.specs.declared.machine.SessionState.TheVariants as SessionState;

use crate::settle::settle;
use ed2k_outside::{Vault, Wire};
use part_store::{PartFile, Solo};
use peer_fetch::{Cause, PeerEnd, PeerLink, fetch};
use reserve_core::DeskFault;

/// The most bytes that are taken of a wire.
pub(crate) const BUDGET: u64 = 1_099_511_627_776;

/// What a round came to.
#[derive(Drop)]
pub(crate) struct Round {
    /// What became of the peer.
    pub(crate) end: PeerEnd,
    /// Whether all that was there to settle is settled.
    pub(crate) settled: Result<(), DeskFault>,
    /// The number of the log's entries as the round began.
    pub(crate) from: u64,
}

/// Runs a round: a call of the session, and then what it left is settled. The log is legal, as the
/// part file says of it.
fn run_round<W: Wire, V: Vault + Drop>(link: &mut PeerLink<W>, desk: &mut Solo<V>) -> Round
    requires aim { wanted_by link.old ≡ desk.old.file.aim }
    requires size { IsSize desk.old.file.aim.size }
    requires ready { IsReady link.old }
    ensures round { IsRound W.Wire V.Vault link.old link.new desk.old.file desk.new.file result }
{
    let from = desk.file.log().len() as u64;
    let end = fetch(link, desk, BUDGET);
    let settled = settle(&mut desk.file);
    let _log = desk.file.log();
    Round { end, settled, from }
}

/// Tells whether a next round is due: the peer is alive, a part isn't verified, the store isn't
/// broken, and since the last round began something was added that gives the peer something to do.
fn is_due<V: Vault + Drop>(round: &Round, file: &PartFile<V>) -> bool
    ensures { result ≡ is_due round.now file.now }
{
    round.end.alive
        && round.settled.is_ok()
        && !file.broken()
        && !file.complete()
        && file.moved(round.from)
}

/// Runs rounds with a peer as long as a next one is due. A round behind which one is due has taken
/// a message, so there are no more of them than the wire may give bytes.
pub(crate) fn run_rounds<W: Wire, V: Vault + Drop>(
    link: &mut PeerLink<W>,
    desk: &mut Solo<V>,
) -> Round
    requires aim { wanted_by link.old ≡ desk.old.file.aim }
    requires size { IsSize desk.old.file.aim.size }
    requires fresh { link.old.at ≡ SessionState.Fresh }
    requires untaken { link.old.taken ≡ 0 }
    requires unowned { (p : ℕ) → own (events desk.old.file.log) p ≡ [] }
    ensures rounds { AreRounds W.Wire V.Vault link.old link.new desk.old.file desk.new.file result }
{
    'rounds: loop {
        let round = run_round(link, desk);
        if !is_due(&round, &desk.file) {
            return round;
        }
    }
}
