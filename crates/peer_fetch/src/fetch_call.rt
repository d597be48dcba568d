//! A call of a session over a wire and a desk.
ghost use Rattle.std.specs.Prelude.{◌≡◌, ◌↔◌, IfOk, IsTrue};
ghost use Rattle.part_sizes.specs.Part.{IsSize};
ghost use Rattle.peer_fetch.specs.IsFetch.{IsFetch, RunsOn};
ghost use Rattle.peer_fetch.specs.Linked.{IsReady, linked_by};

use crate::cause::Cause;
use crate::desk_access::DeskAccess;
use crate::link::{LinkCore, Step};
use crate::peer_end::PeerEnd;
use ed2k_outside::{NoMemory, Wire};
use part_sizes::Bits;
use std::alloc::Global;

/// IfKnown on with the session until it ends.
fn run<W: Wire, A: DeskAccess>(
    link: &mut LinkCore<W>,
    access: &A,
    desk: &mut A::Desk,
    budget: u64,
) -> Cause
    requires reaches { A.reaches access.now desk.old }
    requires aim { link.old.core.session.aim ≡ (A.state desk.old).wanted }
    requires size { IsSize (A.state desk.old).wanted.size }
    requires ready { IsReady (linked_by link.old) }
    ensures reaches { A.reaches access.now desk.new }
    ensures run { RunsOn W.Wire budget (linked_by link.old) (linked_by link.new) (A.state desk.old) (A.state desk.new) result }
{
    let mut step = link.step(None, budget);
    'asks: loop {
        match step {
            Step::End(cause) => return cause,
            Step::Ask(ask) => {
                let answer = access.ask(desk, ask);
                step = link.step(Some(answer), budget);
            }
        }
    }
}

fn is_alive(cause: Cause) -> bool
    ensures { IsTrue result ↔ (cause ≡ Cause.NoBlock) }
{
    match cause {
        Cause::NoBlock => true,
        _ => false,
    }
}

fn copy(alloc: Global, bits: &[bool]) -> Result<Bits, NoMemory>
    ensures { IfOk result (λ copy. copy ≡ bits.now) }
{
    Ok(Bits::new(Vec::from_slice(alloc, bits)?))
}

/// Downloads from one peer: reads and writes its wire and asks the desk until the session ends. At most as
/// many bytes as the budget are taken of the wire, all calls together.
///
/// The session begins, or goes on where its last call ended with `NoBlock`. At each end the peer's ranges
/// are given back, and then what was written is made durable; where this last commit is refused, the refusal
/// is the cause. What the peer offered is copied for the answer. Where no memory is there for that, it is
/// moved out of the session, the cause is `NoMemory`, and no later call may go on. Where the peer is told to
/// be alive, a later call may go on, and it begins with what was due at the end of this one.
///
/// Each cause comes only where what [`Cause`] says of it holds, and `NoLink` never. Where a message is due
/// and what is said of `Spent` holds, the session stops with it, unless memory was wanted. Where the desk's
/// count of store faults is 0 afterwards, the peer holds no range.
pub(crate) fn fetch_core<W: Wire, A: DeskAccess>(
    link: &mut LinkCore<W>,
    access: &A,
    desk: &mut A::Desk,
    budget: u64,
) -> PeerEnd
    requires reaches { A.reaches access.now desk.old }
    requires aim { link.old.core.session.aim ≡ (A.state desk.old).wanted }
    requires size { IsSize (A.state desk.old).wanted.size }
    requires ready { IsReady (linked_by link.old) }
    ensures reaches { A.reaches access.now desk.new }
    ensures fetch { IsFetch W.Wire budget (linked_by link.old) (linked_by link.new) (A.state desk.old) (A.state desk.new) result }
{
    let cause = run(link, access, desk, budget);
    let number = Some(access.number(desk));
    let asked = Vec::new(link.alloc);
    match copy(link.alloc, link.core.session.offered.as_slice()) {
        Ok(offered) => PeerEnd {
            number,
            cause,
            asked,
            offered,
            alive: is_alive(cause),
        },
        Err(NoMemory) => PeerEnd {
            number,
            cause: Cause::NoMemory,
            asked,
            offered: link.take_offered(),
            alive: false,
        },
    }
}
