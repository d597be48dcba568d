//! How the session goes on: with what it said, what it is told and what is answered.
ghost use Rattle.std.specs.Prelude.{◌≡◌, ◌<◌, ◌||◌, IfOk, IsOk, IsTrue, OnErr};
ghost use Rattle.peer_fetch.specs.Machine.{IsFitting, begun, due, is_asking, is_ready, is_saying, rank};
ghost use Rattle.peer_fetch.specs.Steps.{Finishes, Steps, TakesAnswer};
ghost use Rattle.peer_fetch.specs.Table.{row};

use crate::cause::Cause;
use crate::machine::{FetchCore, Next, SessionState};
use crate::rows::commit_cause;
use crate::session::Place;
use client_msgs::{PeerMsg, own_hello};
use ed2k_outside::NoMemory;
use reserve_core::{Answer, DeskAsk};
use std::mem;

impl FetchCore {
    /// Begins a call of the session, where none was made or the last ended with `NoBlock`, and goes on after
    /// each `Send`. Only the hello wants memory; a refusal leaves the session as it was.
    pub fn go(&mut self) -> Result<Next, NoMemory>
        requires { IsTrue (is_ready self.old.at || is_saying self.old.at) }
        ensures ok { IfOk result (Steps (begun (due self.old.session self.old.at)) 3 self.old self.new) }
        ensures rank { IsTrue (is_saying self.old.at) → IfOk result (λ _. rank self.new.at < rank self.old.at) }
        ensures goes_on { IsTrue (is_saying self.old.at) → IsOk result }
        ensures memory { OnErr result ((self.old.at ≡ SessionState.Fresh) × (self.new ≡ self.old)) }
    {
        match &self.at {
            SessionState::Fresh => {
                let hello = own_hello(self.alloc)?;
                Ok(self.say_at(Place::Hello, PeerMsg::Hello(hello)))
            }
            SessionState::Named => {
                let hash = self.session.aim.hash;
                Ok(self.say_at(Place::Status, PeerMsg::SetFile { hash }))
            }
            SessionState::Paused => Ok(self.turn()),
            _ => Ok(self.wait()),
        }
    }

    /// Takes the message that came. A refusal leaves the session as it was.
    pub fn on_message(&mut self, msg: PeerMsg) -> Result<Next, NoMemory>
        ensures ok { IfOk result (Steps (row self.old.session msg) 8 self.old self.new) }
        ensures err { OnErr result (self.new ≡ self.old) }
    {
        match self.session.place {
            Place::Hello => Ok(self.on_hello(msg)),
            Place::Status => self.on_status(self.alloc, msg),
            Place::Set => Ok(self.on_set(msg)),
            Place::Slot => Ok(self.on_slot(msg)),
            Place::Pieces => Ok(self.on_pieces(msg)),
        }
    }

    /// Takes the answer to what was asked last. It takes no memory. The answer of another call leaves the
    /// session waiting for a message; in the place of a release's or of the last commit's it counts as an
    /// Ok.
    pub fn on_answer(&mut self, answer: Answer) -> Next
        requires asking { IsTrue (is_asking self.old.at) }
        requires fitting { IsFitting self.old.session.aim answer }
        ensures { TakesAnswer answer self.old self.new result }
    {
        match mem::replace(&mut self.at, SessionState::Waits) {
            SessionState::Offers(bits) => self.offer_answered(bits, answer),
            SessionState::AsksSet => self.has_set_answered(answer),
            SessionState::Sets => self.hashes_answered(answer),
            SessionState::Reserves => self.reserve_answered(answer),
            SessionState::Writes => self.write_answered(answer),
            SessionState::Commits(part) => self.commit_answered(part, answer),
            SessionState::Verifies(part) => self.verify_answered(part, answer),
            SessionState::Drops => self.drop_answered(answer),
            SessionState::Looks => self.holds_answered(answer),
            SessionState::Releases => self.start_upload(),
            SessionState::EndReleases(cause) => self.ask_last(
                SessionState::EndCommits(cause),
                DeskAsk::Commit,
            ),
            SessionState::EndCommits(cause) => self.end_unless(cause, &answer),
            SessionState::PauseReleases => self.ask_last(
                SessionState::PauseCommits,
                DeskAsk::Commit,
            ),
            SessionState::PauseCommits => self.end_pause(commit_cause(&answer)),
            _ => self.wait(),
        }
    }

    /// The wire, its bytes, the budget or memory ended the session. It takes no memory, and asks for the
    /// first of the two calls at the end.
    pub fn on_stop(&mut self, cause: Cause) -> Next
        ensures { Finishes cause self.old self.new result }
    {
        self.finish(cause)
    }
}
