//! How a session reaches the desk that answers it.
ghost use Rattle.std.specs.Prelude.{◌≡◌};
ghost use Rattle.reserve_core.specs.DeskState.{DeskState};
ghost use Rattle.peer_fetch.specs.AsksDesk.{AsksDesk};
ghost use Rattle.peer_fetch.specs.Machine.{MayAsk};

use reserve_core::{Answer, DeskAsk, FileDesk};
use std::marker::PhantomData;

/// How a session reaches the desk of its peer: the desk answers by itself, or it is what a peer keeps of a
/// download that is shared.
///
/// A call sees what the others added before it, answers by the log as it is then, and adds its own entry
/// at the end, or none.
pub trait DeskAccess {
    /// What is kept for the peer.
    type Desk;

    /// The desk can be reached by this.
    ghost reaches: { Self → Self.Desk → Type 0 };

    /// What the desk tells.
    ghost state: { Self.Desk → DeskState };

    /// The number of the peer.
    fn number(&self, desk: &Self::Desk) -> u64
        ensures { result ≡ (state desk.now).peer };

    /// Asks the desk.
    fn ask(&self, desk: &mut Self::Desk, ask: DeskAsk) -> Answer
        requires reaches { reaches self.now desk.old }
        requires may { MayAsk (state desk.old).wanted ask }
        ensures reaches { reaches self.now desk.new }
        ensures asked { AsksDesk ask result (state desk.old) (state desk.new) };
}

/// A desk that answers by itself.
#[derive(Drop)]
pub struct Direct<D> {
    desk: PhantomData<D>,
}

impl<D> Direct<D> {
    /// The way to a desk of this type.
    pub fn new() -> Self {
        Direct { desk: PhantomData }
    }
}

impl<D: FileDesk> DeskAccess for Direct<D> {
    type Desk = D;

    ghost reaches = { λ _ _. Unit {0} };

    ghost state = { λ desk. D.state desk };

    fn number(&self, desk: &D) -> u64 {
        desk.number()
    }

    fn ask(&self, desk: &mut D, ask: DeskAsk) -> Answer {
        match ask {
            DeskAsk::HasSet => Answer::HasSet(desk.has_set()),
            DeskAsk::Holds => Answer::Holds(desk.holds()),
            DeskAsk::NextFailed(from) => Answer::NextFailed(desk.next_failed(from)),
            DeskAsk::Hashes(set) => Answer::Hashes(desk.hashes(set)),
            DeskAsk::Offer(bits) => Answer::Offer(desk.offer(bits)),
            DeskAsk::Reserve => Answer::Reserve(desk.reserve()),
            DeskAsk::Write(at, piece) => Answer::Write(desk.write(at, piece.as_slice())),
            DeskAsk::Release => {
                desk.release();
                Answer::Release
            }
            DeskAsk::Commit => Answer::Commit(desk.commit()),
            DeskAsk::Verify(part) => Answer::Verify(desk.verify(part)),
            DeskAsk::DropPart(part) => Answer::DropPart(desk.drop_part(part)),
        }
    }
}
