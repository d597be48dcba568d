//! The session without its wire and its desk: it is told messages and answers, and tells what to send, what
//! to ask and when to read.
ghost use Rattle.std.specs.Prelude.{◌≡◌, [], IsTrue};
ghost use Rattle.part_sizes.specs.Part.{IsSize};
ghost use Rattle.peer_fetch.specs.Machine.{has_part};

use crate::cause::Cause;
use crate::session::{Place, Session};
use client_msgs::PeerMsg;
use part_hashset::Aim;
use part_sizes::Bits;
use reserve_core::DeskAsk;
use std::alloc::Global;

/// What a session wants next.
#[derive(Drop)]
pub enum Next {
    /// Send this message, and go on.
    Send(PeerMsg),
    /// Ask the desk, and tell its answer.
    Ask(DeskAsk),
    /// Tell the next message.
    Read,
    /// Nothing more: the session ended.
    End(Cause),
}

/// What a session is at.
#[derive(Drop)]
pub(crate) enum SessionState {
    /// Nothing was done.
    Fresh,
    /// A message is to come.
    Waits,
    /// A message was given to send, and one is to come.
    Sent,
    /// The request for the name was given to send.
    Named,
    /// These parts were offered.
    Offers(Bits),
    /// It was asked whether a set is kept.
    AsksSet,
    /// A set was given to keep.
    Sets,
    /// Ranges are to be reserved.
    Reserves,
    /// A piece was given to write.
    Writes,
    /// What was written is to be durable, and then this part to be judged.
    Commits(u16),
    /// This part is to be judged.
    Verifies(u16),
    /// A part is to be opened again.
    Drops,
    /// It was asked whether the peer holds a range.
    Looks,
    /// The peer's ranges are given back for a while.
    Releases,
    /// At the end the peer's ranges are given back.
    EndReleases(Cause),
    /// At the end what was written is made durable.
    EndCommits(Cause),
    /// The same two where a later call may go on.
    PauseReleases,
    /// The second of them.
    PauseCommits,
    /// A later call may go on.
    Paused,
    /// The session ended.
    Over(Cause),
}

/// A download session with one peer, without its wire and its desk.
#[derive(Drop)]
pub struct FetchCore {
    pub(crate) alloc: Global,
    pub(crate) session: Session,
    pub(crate) at: SessionState,
    ghost size: { IsSize session.aim.size },
    ghost part: { IsTrue (has_part session.aim at) },
}

impl FetchCore {
    /// A session that has not begun. It takes no memory.
    pub fn new(alloc: Global, aim: Aim) -> Self
        requires { IsSize aim.size }
        ensures aim { result.session.aim ≡ aim }
        ensures offered { result.session.offered ≡ [] }
        ensures fresh { result.at ≡ SessionState.Fresh }
    {
        FetchCore {
            alloc,
            session: Session {
                aim,
                place: Place::Hello,
                offered: Bits::new(Vec::new(alloc)),
            },
            at: SessionState::Fresh,
        }
    }
}
