//! A session with a peer over a wire, as its callers see it.
ghost use Rattle.std.specs.Prelude.{◌≡◌};
ghost use Rattle.part_sizes.specs.Part.{IsSize};
ghost use Rattle.peer_fetch.specs.IsFetch.{IsFetch};
ghost use Rattle.peer_fetch.specs.Linked.{IsFresh, IsReady, wanted_by};

use crate::desk_access::{DeskAccess, Direct};
use crate::fetch_call::fetch_core;
use crate::link::LinkCore;
use crate::peer_end::PeerEnd;
use ed2k_outside::Wire;
use part_hashset::Aim;
use reserve_core::FileDesk;
use std::alloc::Global;
use std::marker::Model;

/// A session with a peer over a wire.
#[derive(Drop)]
pub struct PeerLink<W> {
    core: LinkCore<W>,
}

impl<W> Model for PeerLink<W> {
    ghost use Rattle.peer_fetch.specs.Linked.{Linked, linked_by};

    ghost Value = { Linked W };

    ghost view = { λ link. linked_by link.core };
}

impl<W: Wire> PeerLink<W> {
    /// A session that has not begun. It takes no memory.
    pub fn new(alloc: Global, wire: W, aim: Aim) -> Self
        requires { IsSize aim.size }
        ensures { IsFresh wire aim result }
    {
        PeerLink {
            core: LinkCore::new(alloc, wire, aim),
        }
    }

    /// Gives the wire back.
    pub fn into_wire(self) -> W
        ensures { result ≡ self.wire }
    {
        let core = self.core;
        core.wire
    }
}

/// Downloads from one peer, as [`fetch`] does, with the desk reached by `access`. What is said of `fetch` holds
/// of it.
pub fn fetch_through<W: Wire, A: DeskAccess>(
    link: &mut PeerLink<W>,
    access: &A,
    desk: &mut A::Desk,
    budget: u64,
) -> PeerEnd
    requires reaches { A.reaches access.now desk.old }
    requires aim { wanted_by link.old ≡ (A.state desk.old).wanted }
    requires size { IsSize (A.state desk.old).wanted.size }
    requires ready { IsReady link.old }
    ensures reaches { A.reaches access.now desk.new }
    ensures fetch { IsFetch W.Wire budget link.old link.new (A.state desk.old) (A.state desk.new) result }
{
    fetch_core(&mut link.core, access, desk, budget)
}

/// Downloads from one peer: reads and writes its wire and asks the desk until the session ends. At most as
/// many bytes as the budget are taken of the wire, all calls together.
///
/// The session begins, or goes on where its last call ended with `NoBlock`. At each end the peer's ranges
/// are given back, and then what was written is made durable; where this last commit is refused, the refusal
/// is the cause. Where the peer is told to be alive, a later call may go on, and it begins with what was due
/// at the end of this one. What the peer offered is copied for the answer; where no memory is there for that,
/// the cause is `NoMemory`, and no later call may go on.
///
/// Each cause comes only where what [`Cause`](crate::Cause) says of it holds, and `NoLink` never. Where a
/// message is due and what is said of `Spent` holds, the session stops with it, unless memory was wanted.
/// Where the desk's count of store faults is 0 afterwards, the peer holds no range.
pub fn fetch<W: Wire, D: FileDesk>(link: &mut PeerLink<W>, desk: &mut D, budget: u64) -> PeerEnd
    requires aim { wanted_by link.old ≡ (D.state desk.old).wanted }
    requires size { IsSize (D.state desk.old).wanted.size }
    requires ready { IsReady link.old }
    ensures fetch { IsFetch W.Wire budget link.old link.new (D.state desk.old) (D.state desk.new) result }
{
    fetch_through(link, &Direct::<D>::new(), desk, budget)
}
