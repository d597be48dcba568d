//! A part file that many peers take turns with.
ghost use Rattle.std.specs.Prelude.{◌≡◌, ◌≢◌, ◌<◌, ◌-◌, ◌∷◌, ◌++◌, [], Err, IfErr, IfOk, IsFalse, IsTrue, find, length, ℕ};
ghost use Rattle.std.specs.List.{list_all, range_with_len};
ghost use Rattle.part_sizes.specs.Part.{IsSize, data_parts};
ghost use Rattle.part_store.specs.Origin.{origin_code, origin_in, origin_of};
ghost use Rattle.reserve_core.specs.Desk.{own};
ghost use Rattle.reserve_core.specs.Events.{events};
ghost use Rattle.reserve_core.specs.Held.{is_holder};
ghost use Rattle.reserve_core.specs.Moved.{moved};
ghost use Rattle.reserve_core.specs.Verdicts.{is_verified, next_failed, parts};
ghost use Rattle.reserve_core.specs.declared.desk.Answer.TheVariants as answer;
ghost use Rattle.reserve_core.specs.declared.desk.DeskAsk.TheVariants as ask;
ghost use Rattle.shared_file.specs.Notes.{noted};
ghost use Rattle.shared_file.specs.Peers.{IsOf, Looks, SeesMark, Serves, seen_log, seen_marks, wanted_of};
ghost use Rattle.turn_lock.specs.Views.{Agrees, AllBelow, BeginsWith, IsOnce, IsSamePass, OnlySees, birth_of, owned_of, seen_of, start_of, start_row};

use crate::common::Common;
use crate::peer::Peer;
use ed2k_outside::{NoMemory, Vault};
use part_hashset::Aim;
use part_sizes::{Bits, Hashes, Spans};
use part_store::PartFile;
use reserve_core::{DeskFault, Verdict, Written};
use std::alloc::Global;
use std::sync::Wait;
use turn_lock::Turn;

/// A part file that many peers take turns with.
///
/// A call of a peer waits for its turn. It sees what the others did before it, answers as the part file does at that
/// place of the one log, and adds its own entry there, or none. Which peer's turn comes first, and when, isn't said.
#[derive(Drop)]
pub struct SharedFile<V: Vault + Drop> {
    /// The lock that the part file is passed round by.
    pub turn: Turn<Common<V>>,
}

impl<V: Vault + Drop> SharedFile<V> {
    /// A part file for many peers, and the first of them, which has number 0 and has seen the file's log. Where memory
    /// is refused, the part file comes back.
    pub fn new(
        alloc: Global,
        file: PartFile<V>,
    ) -> Result<(SharedFile<V>, Peer<V>), (PartFile<V>, NoMemory)>
        ensures own { IfOk result (λ made. IsOf made.0.turn.board.shared.table_id made.1.pass.seat) }
        ensures number { IfOk result (λ made. made.1.pass.number ≡ 0) }
        ensures log { IfOk result (λ made. seen_of made.1.pass.seat ≡ noted file.log file.broken) }
        ensures birth { IfOk result (λ made. birth_of made.1.pass.seat ≡ origin_code (origin_of V.Vault file)) }
        ensures rows { IfOk result (λ made. owned_of made.1.pass.seat ≡ (0, own (events file.log) 0) ∷ []) }
        ensures start { IfOk result (λ made. (n : ℕ) → start_row (λ c n. own (events c.file.log) n) (start_of made.1.pass.seat) n ≡ own (events file.log) n) }
        ensures refused { IfErr result (λ refusal. refusal.0 ≡ file) }
    {
        match Turn::new(alloc, Common { file }) {
            Ok((turn, pass)) => Ok((SharedFile { turn }, Peer { pass })),
            Err((common, NoMemory)) => Err((common.file, NoMemory)),
        }
    }

    /// Keeps a hash set. The refusals that the log tells are, in this order: `NotNeeded` below one part, `AlreadySet`
    /// where a set is kept, and `Set` with what is wrong with the set.
    pub fn hashes<R: Wait>(&self, rt: &R, peer: &mut Peer<V>, set: Hashes) -> Result<(), DeskFault>
        requires own { IsOf self.now.turn.board.shared.table_id peer.old.pass.seat }
        ensures serves { Serves peer.old.pass.number (ask.Hashes set) (answer.Hashes result) peer.old.pass.seat peer.new.pass.seat }
        ensures number { peer.new.pass.number ≡ peer.old.pass.number }
        ensures mark { SeesMark result peer.old.pass.seat peer.new.pass.seat }
    {
        let number = peer.pass.number;
        let mut common = self.turn.take(rt, &mut peer.pass);
        let answer = common.hashes(number, set);
        self.turn.give(&mut peer.pass, common);
        answer
    }

    /// Records what the peer offers, one bit for each part that holds bytes. The newest offer counts. The log tells no
    /// refusal.
    pub fn offer<R: Wait>(&self, rt: &R, peer: &mut Peer<V>, bits: Bits) -> Result<(), DeskFault>
        requires own { IsOf self.now.turn.board.shared.table_id peer.old.pass.seat }
        requires asked { length bits ≡ data_parts (wanted_of peer.old.pass.seat).size }
        ensures serves { Serves peer.old.pass.number (ask.Offer bits) (answer.Offer result) peer.old.pass.seat peer.new.pass.seat }
        ensures number { peer.new.pass.number ≡ peer.old.pass.number }
        ensures mark { SeesMark result peer.old.pass.seat peer.new.pass.seat }
    {
        let number = peer.pass.number;
        let mut common = self.turn.take(rt, &mut peer.pass);
        let answer = common.offer(number, bits);
        self.turn.give(&mut peer.pass, common);
        answer
    }

    /// Reserves for the peer the first free run of each block of the parts that it offers, the rarest part first, up to
    /// three runs. The refusals that the log tells are, in this order: `Cheat`, `Worn`, `NoSet` and `NoBlock`, as
    /// `PartFile::reserve` says them.
    pub fn reserve<R: Wait>(&self, rt: &R, peer: &mut Peer<V>) -> Result<Spans, DeskFault>
        requires own { IsOf self.now.turn.board.shared.table_id peer.old.pass.seat }
        ensures serves { Serves peer.old.pass.number ask.Reserve (answer.Reserve result) peer.old.pass.seat peer.new.pass.seat }
        ensures number { peer.new.pass.number ≡ peer.old.pass.number }
        ensures mark { SeesMark result peer.old.pass.seat peer.new.pass.seat }
    {
        let number = peer.pass.number;
        let mut common = self.turn.take(rt, &mut peer.pass);
        let answer = common.reserve(number);
        self.turn.give(&mut peer.pass, common);
        answer
    }

    /// Writes a piece from a position on. It is refused with `NotHeld` where the piece is empty or no range that the peer
    /// holds begins at the position and reaches the piece's end.
    pub fn write<R: Wait>(
        &self,
        rt: &R,
        peer: &mut Peer<V>,
        at: u64,
        piece: &[u8],
    ) -> Result<Written, DeskFault>
        requires own { IsOf self.now.turn.board.shared.table_id peer.old.pass.seat }
        ensures serves { Serves peer.old.pass.number (ask.Write at piece.now) (answer.Write result) peer.old.pass.seat peer.new.pass.seat }
        ensures number { peer.new.pass.number ≡ peer.old.pass.number }
        ensures mark { SeesMark result peer.old.pass.seat peer.new.pass.seat }
    {
        let number = peer.pass.number;
        let mut common = self.turn.take(rt, &mut peer.pass);
        let answer = common.write(number, at, piece);
        self.turn.give(&mut peer.pass, common);
        answer
    }

    /// Makes durable what was written. Where nothing was written since the last commit, it adds no entry. The log tells no
    /// refusal.
    pub fn commit<R: Wait>(&self, rt: &R, peer: &mut Peer<V>) -> Result<(), DeskFault>
        requires own { IsOf self.now.turn.board.shared.table_id peer.old.pass.seat }
        ensures serves { Serves peer.old.pass.number ask.Commit (answer.Commit result) peer.old.pass.seat peer.new.pass.seat }
        ensures number { peer.new.pass.number ≡ peer.old.pass.number }
        ensures mark { SeesMark result peer.old.pass.seat peer.new.pass.seat }
    {
        let number = peer.pass.number;
        let mut common = self.turn.take(rt, &mut peer.pass);
        let answer = common.commit(number);
        self.turn.give(&mut peer.pass, common);
        answer
    }

    /// Judges a part by the MD4 of its bytes in the body. The refusals that the log tells are, in this order: `NotFull`,
    /// `NotCommitted`, `NoSet` and `Already`, as `PartFile::verify` says them. It takes no memory.
    pub fn verify<R: Wait>(
        &self,
        rt: &R,
        peer: &mut Peer<V>,
        part: u16,
    ) -> Result<Verdict, DeskFault>
        requires own { IsOf self.now.turn.board.shared.table_id peer.old.pass.seat }
        requires asked { part < data_parts (wanted_of peer.old.pass.seat).size }
        ensures serves { Serves peer.old.pass.number (ask.Verify part) (answer.Verify result) peer.old.pass.seat peer.new.pass.seat }
        ensures number { peer.new.pass.number ≡ peer.old.pass.number }
        ensures mark { SeesMark result peer.old.pass.seat peer.new.pass.seat }
        ensures memory { result ≢ Err DeskFault.NoMemory }
    {
        let number = peer.pass.number;
        let mut common = self.turn.take(rt, &mut peer.pass);
        let answer = common.verify(number, part);
        self.turn.give(&mut peer.pass, common);
        answer
    }

    /// Opens all of a failed part again. It is refused with `NotFailed` where the part isn't failed, and takes no memory.
    pub fn drop_part<R: Wait>(&self, rt: &R, peer: &mut Peer<V>, part: u16) -> Result<(), DeskFault>
        requires own { IsOf self.now.turn.board.shared.table_id peer.old.pass.seat }
        requires asked { part < data_parts (wanted_of peer.old.pass.seat).size }
        ensures serves { Serves peer.old.pass.number (ask.DropPart part) (answer.DropPart result) peer.old.pass.seat peer.new.pass.seat }
        ensures number { peer.new.pass.number ≡ peer.old.pass.number }
        ensures mark { SeesMark result peer.old.pass.seat peer.new.pass.seat }
        ensures memory { result ≢ Err DeskFault.NoMemory }
    {
        let number = peer.pass.number;
        let mut common = self.turn.take(rt, &mut peer.pass);
        let answer = common.drop_part(number, part);
        self.turn.give(&mut peer.pass, common);
        answer
    }

    /// Takes back all that the peer holds. It takes no memory. On a broken file it does nothing.
    pub fn release<R: Wait>(&self, rt: &R, peer: &mut Peer<V>)
        requires own { IsOf self.now.turn.board.shared.table_id peer.old.pass.seat }
        ensures serves { Serves peer.old.pass.number ask.Release answer.Release peer.old.pass.seat peer.new.pass.seat }
        ensures number { peer.new.pass.number ≡ peer.old.pass.number }
        ensures free { seen_marks peer.new.pass.seat ≡ 0 → IsFalse (is_holder (events (seen_log peer.new.pass.seat)) peer.old.pass.number) }
    {
        let number = peer.pass.number;
        let mut common = self.turn.take(rt, &mut peer.pass);
        common.release(number);
        self.turn.give(&mut peer.pass, common);
    }

    /// True exactly where a hash set is kept.
    pub fn has_set<R: Wait>(&self, rt: &R, peer: &mut Peer<V>) -> bool
        requires own { IsOf self.now.turn.board.shared.table_id peer.old.pass.seat }
        ensures serves { Serves peer.old.pass.number ask.HasSet (answer.HasSet result) peer.old.pass.seat peer.new.pass.seat }
        ensures number { peer.new.pass.number ≡ peer.old.pass.number }
    {
        let common = self.turn.take(rt, &mut peer.pass);
        let answer = common.file.has_set();
        self.turn.give(&mut peer.pass, common);
        answer
    }

    /// True exactly where the peer holds a range.
    pub fn holds<R: Wait>(&self, rt: &R, peer: &mut Peer<V>) -> bool
        requires own { IsOf self.now.turn.board.shared.table_id peer.old.pass.seat }
        ensures serves { Serves peer.old.pass.number ask.Holds (answer.Holds result) peer.old.pass.seat peer.new.pass.seat }
        ensures number { peer.new.pass.number ≡ peer.old.pass.number }
    {
        let number = peer.pass.number;
        let common = self.turn.take(rt, &mut peer.pass);
        let answer = common.file.holds(number);
        self.turn.give(&mut peer.pass, common);
        answer
    }

    /// True exactly where every part is verified.
    pub fn complete<R: Wait>(&self, rt: &R, peer: &mut Peer<V>) -> bool
        requires own { IsOf self.now.turn.board.shared.table_id peer.old.pass.seat }
        ensures complete { result ≡ list_all (is_verified (wanted_of peer.old.pass.seat) (events (seen_log peer.new.pass.seat))) (parts (wanted_of peer.old.pass.seat).size) }
        ensures looks { Looks peer.old.pass.number peer.old.pass.seat peer.new.pass.seat }
        ensures number { peer.new.pass.number ≡ peer.old.pass.number }
    {
        let common = self.turn.take(rt, &mut peer.pass);
        let answer = common.file.complete();
        self.turn.give(&mut peer.pass, common);
        answer
    }

    /// The least part at or above a number that is failed: its verdict differs from the expected digest.
    pub fn next_failed<R: Wait>(&self, rt: &R, peer: &mut Peer<V>, from: u16) -> Option<u16>
        requires own { IsOf self.now.turn.board.shared.table_id peer.old.pass.seat }
        ensures failed { result ≡ next_failed (wanted_of peer.old.pass.seat) (events (seen_log peer.new.pass.seat)) from }
        ensures looks { Looks peer.old.pass.number peer.old.pass.seat peer.new.pass.seat }
        ensures number { peer.new.pass.number ≡ peer.old.pass.number }
    {
        let common = self.turn.take(rt, &mut peer.pass);
        let answer = common.file.next_failed(from);
        self.turn.give(&mut peer.pass, common);
        answer
    }

    /// True exactly where an entry at this place of the log or later is a Write, a Release, a Recovered, a Dropped, or a
    /// Verdict that differs from its part's expected digest. Places count from 0.
    pub fn moved<R: Wait>(&self, rt: &R, peer: &mut Peer<V>, from: u64) -> bool
        requires own { IsOf self.now.turn.board.shared.table_id peer.old.pass.seat }
        ensures moved { result ≡ moved (wanted_of peer.old.pass.seat) (events (seen_log peer.new.pass.seat)) from }
        ensures looks { Looks peer.old.pass.number peer.old.pass.seat peer.new.pass.seat }
        ensures number { peer.new.pass.number ≡ peer.old.pass.number }
    {
        let common = self.turn.take(rt, &mut peer.pass);
        let answer = common.file.moved(from);
        self.turn.give(&mut peer.pass, common);
        answer
    }

    /// The file that is wanted, whose size is in the limits.
    pub fn aim<R: Wait>(&self, rt: &R, peer: &mut Peer<V>) -> Aim
        requires own { IsOf self.now.turn.board.shared.table_id peer.old.pass.seat }
        ensures is { result ≡ (wanted_of peer.old.pass.seat) }
        ensures size { IsSize result.size }
        ensures looks { Looks peer.old.pass.number peer.old.pass.seat peer.new.pass.seat }
        ensures number { peer.new.pass.number ≡ peer.old.pass.number }
    {
        let common = self.turn.take(rt, &mut peer.pass);
        let answer = common.file.aim();
        self.turn.give(&mut peer.pass, common);
        answer
    }

    /// The number of what the peers see of the file, with the mark of a broken one, which the peer has seen from then
    /// on. It waits for no one.
    pub fn progress(&self, peer: &mut Peer<V>) -> u64
        requires own { IsOf self.now.turn.board.shared.table_id peer.old.pass.seat }
        ensures count { result ≡ length (seen_of peer.new.pass.seat) }
        ensures log { BeginsWith (seen_of peer.new.pass.seat) (seen_of peer.old.pass.seat) }
        ensures once { IsOnce (owned_of peer.new.pass.seat) }
        ensures same { OnlySees peer.old.pass.seat peer.new.pass.seat }
        ensures number { peer.new.pass.number ≡ peer.old.pass.number }
    {
        self.turn.count(&mut peer.pass)
    }

    /// A further peer, which has seen as much as this one. Its number is greater than all that this one has.
    pub fn split<R: Wait>(&self, rt: &R, peer: &mut Peer<V>) -> Peer<V>
        requires own { IsOf self.now.turn.board.shared.table_id peer.old.pass.seat }
        ensures own { IsOf self.now.turn.board.shared.table_id result.pass.seat }
        ensures log { seen_of result.pass.seat ≡ seen_of peer.old.pass.seat }
        ensures birth { (birth_of result.pass.seat ≡ birth_of peer.old.pass.seat) × (start_of result.pass.seat ≡ start_of peer.old.pass.seat) }
        ensures number { AllBelow result.pass.number (owned_of peer.old.pass.seat) }
        ensures rows { owned_of result.pass.seat ≡ (result.pass.number, start_row (λ c n. own (events c.file.log) n) (start_of peer.old.pass.seat) result.pass.number) ∷ [] }
        ensures same { (peer.new.pass.seat.table_id ≡ peer.old.pass.seat.table_id) × (peer.new.pass.seat.me ≡ peer.old.pass.seat.me) × (peer.new.pass.number ≡ peer.old.pass.number) }
    {
        let pass = self.turn.split(rt, &mut peer.pass);
        Peer { pass }
    }

    /// Takes another peer in. The peer has then seen a log that begins with what either had seen, and has the other's
    /// numbers and rows behind its own, none of them twice.
    pub fn join(&self, peer: &mut Peer<V>, other: Peer<V>)
        requires own { IsOf self.now.turn.board.shared.table_id peer.old.pass.seat }
        requires other { IsOf self.now.turn.board.shared.table_id other.pass.seat }
        ensures log { BeginsWith (seen_of peer.new.pass.seat) (seen_of peer.old.pass.seat) }
        ensures others { BeginsWith (seen_of peer.new.pass.seat) (seen_of other.pass.seat) }
        ensures rows { owned_of peer.new.pass.seat ≡ owned_of peer.old.pass.seat ++ owned_of other.pass.seat }
        ensures once { IsOnce (owned_of peer.new.pass.seat) }
        ensures same { IsSamePass peer.old.pass.seat peer.new.pass.seat }
        ensures number { peer.new.pass.number ≡ peer.old.pass.number }
    {
        let Peer { pass } = other;
        self.turn.join(&mut peer.pass, pass);
    }

    /// Gives the part file back. It was made with what the one that was put in was made with. Its log begins with all
    /// that the peer saw, and for each number that the peer has, its own events are the row that is noted with it.
    /// Where the peer saw a mark, the part file is broken. Other peers that are left can't be used any more.
    pub fn close<R: Wait>(self, rt: &R, peer: Peer<V>) -> PartFile<V>
        requires own { IsOf self.turn.board.shared.table_id peer.pass.seat }
        ensures log { BeginsWith (noted result.log result.broken) (seen_of peer.pass.seat) }
        ensures birth { origin_code (origin_of V.Vault result) ≡ birth_of peer.pass.seat }
        ensures origin { origin_of V.Vault result ≡ origin_in (birth_of peer.pass.seat) }
        ensures rows { Agrees (λ n. own (events result.log) n) (owned_of peer.pass.seat) }
        ensures broken { 0 < seen_marks peer.pass.seat → IsTrue result.broken }
    {
        let Peer { pass } = peer;
        let SharedFile { turn } = self;
        let Common { file } = turn.close(rt, pass);
        file
    }
}
