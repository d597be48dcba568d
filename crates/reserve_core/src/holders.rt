//! The ranges of each peer that ever reserved, found by the peer.

ghost use Rattle.std.specs.Prelude.{◌≡◌, [], ◌++◌, ◌+◌, ◌≤◌, map, length, IfOk, IfErr, OnOk, OnErr, vec_len};
ghost use Rattle.std.specs.List.{filter};
ghost use Rattle.reserve_core.specs.Held.{hold_after, is_open};
ghost use Rattle.reserve_core.specs.Holders.{Ascends, IsAt, IsGap, Replaces, kept_for};
ghost use Rattle.reserve_core.specs.Steps.{past};

use crate::hold::{Hold, Holder};
use crate::holds;
use ed2k_outside::NoMemory;
use part_sizes::Span;

/// The place of a peer's holder, or the one where it would go.
fn find(holders: &[Holder], peer: u64) -> Result<usize, usize>
    requires { Ascends 0 holders.now }
    ensures found { IfOk result (IsAt holders.now peer) }
    ensures absent { IfErr result (IsGap holders.now peer) }
{
    holders.binary_search_by_key(&peer, |holder| holder.peer)
}

/// The ranges of a peer, none where it never reserved.
pub fn ranges_of(holders: &[Holder], peer: u64) -> &[Hold]
    requires { Ascends 0 holders.now }
    ensures { result.now ≡ kept_for holders.now peer }
{
    match find(holders, peer) {
        Ok(place) => holders[place].ranges.as_slice(),
        Err(_) => &[],
    }
}

/// Takes a peer's ranges away.
pub fn release(holders: &mut [Holder], peer: u64)
    requires { Ascends 0 holders.old }
    ensures { Replaces holders.old holders.new peer [] }
{
    if let Ok(place) = find(holders, peer) {
        let holder = &mut holders[place];
        holder.ranges.clear();
    }
}

/// Moves the start of the peer's ranges that a span lies in which it wrote, and leaves out those that are
/// empty then.
pub fn advance(holders: &mut [Holder], peer: u64, span: Span)
    requires { Ascends 0 holders.old }
    ensures { Replaces holders.old holders.new peer (filter is_open (map (past span) (kept_for holders.old peer))) }
{
    if let Ok(place) = find(holders, peer) {
        let holder = &mut holders[place];
        holds::advance(&mut holder.ranges, span);
    }
}

/// The place of a peer's holder, which is a new one where it never reserved.
fn place_for(holders: &mut Vec<Holder>, peer: u64) -> Result<usize, NoMemory>
    requires { Ascends 0 holders.old.items }
    ensures same { Replaces holders.old.items holders.new.items peer (kept_for holders.old.items peer) }
    ensures len { vec_len holders.new ≤ vec_len holders.old + 1 }
    ensures place { IfOk result (IsAt holders.new.items peer) }
{
    match find(holders, peer) {
        Ok(place) => Ok(place),
        Err(place) => {
            let ranges = Vec::new(*holders.allocator());
            holders.insert(place, Holder { peer, ranges })?;
            Ok(place)
        }
    }
}

/// Adds a range of the peer for each span, or none where memory is refused.
pub fn hold(holders: &mut Vec<Holder>, peer: u64, spans: &[Span]) -> Result<(), NoMemory>
    requires { Ascends 0 holders.old.items }
    ensures ok { OnOk result (Replaces holders.old.items holders.new.items peer (kept_for holders.old.items peer ++ map (hold_after peer []) spans.now)) }
    ensures refused { OnErr result (Replaces holders.old.items holders.new.items peer (kept_for holders.old.items peer)) }
    ensures len { vec_len holders.new ≤ vec_len holders.old + 1 }
{
    let place = place_for(holders, peer)?;
    let holder = &mut holders[place];
    holds::hold_all(&mut holder.ranges, peer, spans)
}
