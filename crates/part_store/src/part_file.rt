//! A download in a vault.
ghost use Rattle.std.specs.Prelude.{◌≡◌, ◌≢◌, ◌↔◌, ℕ, List, [], ◌<◌, ◌≤◌, ◌&&◌, ◌+◌, ◌-◌, false, not, if◌then◌else◌, is_ok, IsTrue, IsFalse, OnOk, OnErr, IfOk, IfErr, IfSome, MatchResult, find, length, Ok, Err};
ghost use Rattle.std.specs.List.{list_all};
ghost use Rattle.ed2k_outside.specs.Causes.{IfKnown, Rose};
ghost use Rattle.ed2k_outside.specs.Crashes.{IsDurable};
ghost use Rattle.part_sizes.specs.Part.{IsSize, data_parts};
ghost use Rattle.reserve_core.specs.Choice.{pick_of};
ghost use Rattle.reserve_core.specs.Desk.{is_outside, span_at};
ghost use Rattle.reserve_core.specs.Events.{events};
ghost use Rattle.reserve_core.specs.Filled.{IsFullPart, is_uncommitted};
ghost use Rattle.reserve_core.specs.Held.{is_holder};
ghost use Rattle.reserve_core.specs.Legal.{IsLegal};
ghost use Rattle.reserve_core.specs.Moved.{moved};
ghost use Rattle.reserve_core.specs.Seen.{added, log_after_commit, log_after_release};
ghost use Rattle.part_hashset.specs.Goals.{is_nil};
ghost use Rattle.reserve_core.specs.Verdicts.{is_verified, is_worn, kept_set, next_failed, next_unjudged, parts};
ghost use Rattle.reserve_core.specs.declared.event.Event.TheVariants as event;
ghost use Rattle.part_store.specs.Body.{BodyFits, Blanks, WritesPiece, body_of, log_file_after, log_of};
ghost use Rattle.part_store.specs.Calls.{BreaksBy, CallsOnce, IsSame, Judges, Logs, OnlyReads, Replies, Spares, VerifiesExactly, reservation};

use crate::body;
use crate::fault::StoreFault;
use ed2k_outside::{NoMemory, Vault, Which};
use part_hashset::Aim;
use part_sizes::{Bits, Hashes, Pairs, Span, Spans, part_range};
use reserve_core::{Core, DeskFault, Entry, Opened, Verdict, Written};
use std::alloc::Global;
use std::marker::Model;
use std::snapshot::Snapshot;

/// A download in a vault: its state, and the bytes that it speaks of.
///
/// The body has the size of the file, and each verdict of the log is the MD4 of that part's bytes in it.
/// A call that answers `Fault` leaves the log as it is, and the part file is broken from then on: each later
/// call that can be refused answers `Broken`, `release` does nothing, and questions are answered as ever.
///
/// Each call that can be refused answers `Broken` exactly where the part file is broken, and `Fault` only
/// where the vault failed in that call; an Ok says that it didn't fail. `NoMemory` may come from all of them
/// but `drop_part` and `verify`. Their other refusals are told by the log alone. A refused call adds no
/// entry.
#[derive(Drop)]
pub struct PartFile<V: Vault> {
    core: Core,
    vault: V,
    broken: bool,
    initial: Snapshot<V>,
}

impl<V: Vault> Model for PartFile<V> {
    ghost use Rattle.part_store.specs.Body.{Stored, FileKeeps, body_of, identity};

    ghost Value = { Stored V };

    ghost view = { λ f. record {
      aim = f.core.aim;
      log = f.core.log;
      broken = f.broken;
      initial = f.initial.value;
      vault = f.vault;
    } };

    ghost invariant = { λ f. FileKeeps f.core.aim f.core.log f.broken (V.faults f.initial.value) (V.faults f.vault)
        (V.made f.vault) (body_of (V.files f.initial.value)) (V.files f.vault) (identity V.Vault f.initial.value) (identity V.Vault f.vault) };
}

impl<V: Vault + Drop> PartFile<V> {
    /// Makes the body of a new download, of which nothing is filled. What the body held is lost: it has zero
    /// bytes of the file's size, synced. The log file stays as it is. `Fault` comes only where the vault
    /// failed. Where the call is refused, the vault comes back, and its body may have changed. It is called
    /// three times at most.
    pub fn create(alloc: Global, mut vault: V, aim: Aim) -> Result<Self, (V, StoreFault)>
        requires { IsSize aim.size }
        ensures aim { IfOk result (λ file. file.aim ≡ aim) }
        ensures log { IfOk result (λ file. file.log ≡ added [] (V.made file.vault) (event.Opened (record { set = []; filled = []; verdicts = [] }))) }
        ensures calls { IfOk result (λ file. V.made file.vault ≡ V.made vault + 3) }
        ensures body { IfOk result (λ file. IfKnown (Blanks aim.size) (V.files vault) (V.files file.vault)) }
        ensures durable { IfOk result (λ file. IsTrue (V.honest vault) → IsDurable Which.Body (V.files file.vault) (V.crash file.vault)) }
        ensures initial { IfOk result (λ file. (file.initial ≡ file.vault) × (file.broken ≡ false)) }
        ensures honest { MatchResult result (λ file. V.honest file.vault ≡ V.honest vault) (λ refused. V.honest refused.0 ≡ V.honest vault) }
        ensures placed { MatchResult result (λ file. V.placed file.vault ≡ V.placed vault) (λ refused. V.placed refused.0 ≡ V.placed vault) }
        ensures log_file { MatchResult result (λ file. log_of (V.files file.vault) ≡ log_file_after file.log (log_of (V.files vault))) (λ refused. log_of (V.files refused.0) ≡ log_of (V.files vault)) }
        ensures clean { IfOk result (λ file. V.faults file.vault ≡ V.faults vault) }
        ensures later { MatchResult result (λ file. V.faults vault ≤ V.faults file.vault) (λ refused. V.faults vault ≤ V.faults refused.0) }
        ensures memory { IfErr result (λ refused. refused.1 ≡ StoreFault.NoMemory → IfKnown (Blanks aim.size) (V.files vault) (V.files refused.0)) }
        ensures memory_durable { IfErr result (λ refused. refused.1 ≡ StoreFault.NoMemory → IsTrue (V.honest vault) → IsDurable Which.Body (V.files refused.0) (V.crash refused.0)) }
        ensures at_most_thrice { IfErr result (λ refused. V.made refused.0 ≤ V.made vault + 3) }
        ensures fault { IfErr result (λ refused. refused.1 ≡ StoreFault.Fault → Rose (V.faults vault) (V.faults refused.0)) }
    {
        if body::make(&mut vault, aim.size).is_err() {
            return Err((vault, StoreFault::Fault));
        }
        let opened = Opened {
            set: Hashes::new(Vec::new(alloc)),
            filled: Spans::new(Vec::new(alloc)),
            verdicts: Pairs::new(Vec::new(alloc)),
        };
        match Core::new(alloc, aim, opened, vault.calls()) {
            Ok(core) => {
                let initial = Snapshot::of(&vault);
                Ok(PartFile {
                    core,
                    vault,
                    broken: false,
                    initial,
                })
            }
            Err(NoMemory) => Err((vault, StoreFault::NoMemory)),
        }
    }

    /// Gives back the vault, and the log, oldest entry first. The log is legal and fits the body.
    pub fn into_parts(self) -> (V, Vec<Entry>)
        ensures vault { result.0 ≡ self.vault }
        ensures log { result.1.items ≡ self.log }
        ensures legal { IsLegal self.aim self.log }
        ensures fits { BodyFits self.aim self.log (body_of (V.files self.initial)) (V.files self.vault) }
        ensures honest { V.honest self.vault ≡ V.honest self.initial }
        ensures placed { V.placed self.vault ≡ V.placed self.initial }
        ensures log_file { log_of (V.files self.vault) ≡ log_file_after self.log (log_of (V.files self.initial)) }
        ensures later { V.faults self.initial ≤ V.faults self.vault }
        ensures failed { IsTrue self.broken → Rose (V.faults self.initial) (V.faults self.vault) }
        ensures works { IsFalse self.broken → V.faults self.vault ≡ V.faults self.initial }
    {
        (self.vault, self.core.into_log())
    }

    /// The file that is wanted, whose size is in the limits.
    pub fn aim(&self) -> Aim
        ensures is { result ≡ self.now.aim }
        ensures size { IsSize result.size }
    {
        self.core.aim()
    }

    /// The log, oldest entry first. It is legal, and it fits the body.
    pub fn log(&self) -> &[Entry]
        ensures log { result.now ≡ self.now.log }
        ensures legal { IsLegal self.now.aim self.now.log }
        ensures fits { BodyFits self.now.aim self.now.log (body_of (V.files self.now.initial)) (V.files self.now.vault) }
    {
        self.core.log()
    }

    /// True exactly where a call answered `Fault`.
    pub fn broken(&self) -> bool
        ensures { result ≡ self.now.broken }
    {
        self.broken
    }

    /// True exactly where the peer holds a range.
    pub fn holds(&self, peer: u64) -> bool
        ensures { result ≡ is_holder (events self.now.log) peer }
    {
        self.core.holds(peer)
    }

    /// True exactly where something was written after the last commit.
    pub fn uncommitted(&self) -> bool
        ensures { result ≡ is_uncommitted (events self.now.log) }
    {
        self.core.uncommitted()
    }

    /// True exactly where a hash set is kept.
    pub fn has_set(&self) -> bool
        ensures { result ≡ not (is_nil (kept_set (events self.now.log))) }
    {
        self.core.has_set()
    }

    /// True exactly where the newest verdict of a part still stands and is the expected digest.
    pub fn verified(&self, part: u16) -> bool
        requires { part < data_parts self.now.aim.size }
        ensures { result ≡ is_verified self.now.aim (events self.now.log) part }
    {
        self.core.verified(part)
    }

    /// True exactly where every part is verified.
    pub fn complete(&self) -> bool
        ensures { result ≡ list_all (is_verified self.now.aim (events self.now.log)) (parts self.now.aim.size) }
    {
        self.core.complete()
    }

    /// The least part at or above a number that is failed: its verdict differs from the expected digest.
    pub fn next_failed(&self, from: u16) -> Option<u16>
        ensures { result ≡ next_failed self.now.aim (events self.now.log) from }
    {
        self.core.next_failed(from)
    }

    /// The least part at or above a number that is full and has no verdict.
    pub fn next_unjudged(&self, from: u16) -> Option<u16>
        ensures { result ≡ next_unjudged self.now.aim.size (events self.now.log) from }
    {
        self.core.next_unjudged(from)
    }

    /// The least part that failed eight times.
    pub fn first_worn(&self) -> Option<u16>
        ensures { result ≡ find (is_worn self.now.aim (events self.now.log)) (parts self.now.aim.size) }
    {
        self.core.first_worn()
    }

    /// True exactly where an entry at this place of the log or later is a Write, a Release, a Recovered, a
    /// Dropped, or a Verdict that differs from its part's expected digest. Places count from 0.
    pub fn moved(&self, from: u64) -> bool
        ensures { result ≡ moved self.now.aim (events self.now.log) from }
    {
        self.core.moved(from)
    }

    /// Keeps a hash set. The refusals that the log tells are, in this order: `NotNeeded` below one part,
    /// `AlreadySet` where a set is kept, and `Set` with what is wrong with the set.
    pub fn hashes(&mut self, set: Hashes) -> Result<(), DeskFault>
        ensures same { IsSame self.old self.new }
        ensures answer { Replies self.old.aim self.old.log (event.Hashes set) result }
        ensures log { Logs self.old.log self.new.log (V.made self.new.vault) (event.Hashes set) result }
        ensures store { BreaksBy V.faults self.old self.new result }
        ensures files { V.files self.new.vault ≡ V.files self.old.vault }
        ensures vault { self.new.vault ≡ self.old.vault }
    {
        self.usable()?;
        self.core.hashes(set, self.vault.calls())
    }

    /// Records what a peer offers, one bit for each part that holds bytes. The newest offer of a peer
    /// counts. The log tells no refusal.
    pub fn offer(&mut self, peer: u64, bits: Bits) -> Result<(), DeskFault>
        requires { length bits ≡ data_parts self.old.aim.size }
        ensures same { IsSame self.old self.new }
        ensures answer { Replies self.old.aim self.old.log (event.Offer peer bits) result }
        ensures log { Logs self.old.log self.new.log (V.made self.new.vault) (event.Offer peer bits) result }
        ensures store { BreaksBy V.faults self.old self.new result }
        ensures files { V.files self.new.vault ≡ V.files self.old.vault }
        ensures vault { self.new.vault ≡ self.old.vault }
    {
        self.usable()?;
        self.core.offer(peer, bits, self.vault.calls())
    }

    /// Reserves for a peer the first free run of each block of the parts that it offers, the rarest part
    /// first, up to three runs. The refusals that the log tells are, in this order: `Cheat` where recovery
    /// opened a block that the peer had filled, `Worn` with the least part that failed eight times, `NoSet`
    /// where a hash set is needed and none is kept, and `NoBlock` where no byte of an offered part is
    /// unfilled and free.
    pub fn reserve(&mut self, peer: u64) -> Result<Spans, DeskFault>
        ensures same { IsSame self.old self.new }
        ensures answer { Replies self.old.aim self.old.log (reservation self.old peer) result }
        ensures spans { IfOk result (λ spans. spans ≡ pick_of self.old.aim.size (events self.old.log) peer) }
        ensures log { Logs self.old.log self.new.log (V.made self.new.vault) (reservation self.old peer) result }
        ensures store { BreaksBy V.faults self.old self.new result }
        ensures files { V.files self.new.vault ≡ V.files self.old.vault }
        ensures vault { self.new.vault ≡ self.old.vault }
    {
        self.usable()?;
        self.core.reserve(peer, self.vault.calls())
    }

    /// Takes back all that a peer holds. It takes no memory. A broken part file does nothing.
    pub fn release(&mut self, peer: u64)
        ensures same { IsSame self.old self.new }
        ensures log { self.new.log ≡ log_after_release (not self.old.broken) peer self.old.log (V.made self.new.vault) }
        ensures store { self.new.broken ≡ self.old.broken }
        ensures vault { self.new.vault ≡ self.old.vault }
    {
        if !self.broken {
            self.core.release(peer, self.vault.calls());
        }
    }

    /// Opens all of a failed part again: none of it is filled then. It is refused with `NotFailed` where the
    /// part isn't failed, and takes no memory.
    pub fn drop_part(&mut self, part: u16) -> Result<(), DeskFault>
        requires { part < data_parts self.old.aim.size }
        ensures same { IsSame self.old self.new }
        ensures answer { Replies self.old.aim self.old.log (event.Dropped part) result }
        ensures memory { result ≢ Err DeskFault.NoMemory }
        ensures log { Logs self.old.log self.new.log (V.made self.new.vault) (event.Dropped part) result }
        ensures store { BreaksBy V.faults self.old self.new result }
        ensures files { V.files self.new.vault ≡ V.files self.old.vault }
        ensures vault { self.new.vault ≡ self.old.vault }
    {
        self.usable()?;
        self.core.drop_part(part, self.vault.calls())
    }

    /// Writes a piece from a position on, as a peer's. It is refused with `NotHeld` where the piece is empty
    /// or no range that the peer holds begins at the position and reaches the piece's end. After an Ok the
    /// piece stands in the body; a `Fault` leaves any bytes in its span, which is not filled then.
    pub fn write(&mut self, peer: u64, at: u64, piece: &[u8]) -> Result<Written, DeskFault>
        ensures same { IsSame self.old self.new }
        ensures answer { Replies self.old.aim self.old.log (event.Write peer (span_at at piece.now)) result }
        ensures full { IfOk result (λ written. IsFullPart self.old.aim.size (events self.new.log) at written.full) }
        ensures log { Logs self.old.log self.new.log (V.made self.new.vault) (event.Write peer (span_at at piece.now)) result }
        ensures body { WritesPiece at piece.now result (V.files self.old.vault) (V.files self.new.vault) }
        ensures store { BreaksBy V.faults self.old self.new result }
        ensures clean { OnOk result (V.faults self.new.vault ≡ V.faults self.old.vault) }
        ensures calls { CallsOnce V.made self.old.vault self.new.vault result }
    {
        self.usable()?;
        let Some(end) = at.checked_add(piece.len() as u64) else {
            return Err(DeskFault::NotHeld);
        };
        let span = Span { s: at, e: end };
        self.core.ready_write(peer, span)?;
        if self.vault.write_at(Which::Body, at, piece).is_err() {
            self.broken = true;
            return Err(DeskFault::Fault);
        }
        self.core.write(peer, span, self.vault.calls())
    }

    /// Makes durable what was written: it syncs the body. Where nothing was written since the last commit,
    /// it doesn't call the vault and adds no entry. The log tells no refusal.
    pub fn commit(&mut self) -> Result<(), DeskFault>
        ensures same { IsSame self.old self.new }
        ensures refused { IfErr result (λ fault. IsTrue (is_outside fault)) }
        ensures log { self.new.log ≡ log_after_commit (is_ok result) self.old.log (V.made self.new.vault) }
        ensures durable { IsTrue (is_uncommitted (events self.old.log)) → OnOk result (IsTrue (V.honest self.old.vault) → IsDurable Which.Body (V.files self.new.vault) (V.crash self.new.vault)) }
        ensures clean { OnOk result (V.faults self.new.vault ≡ V.faults self.old.vault) }
        ensures calls { IsTrue (is_uncommitted (events self.old.log)) → CallsOnce V.made self.old.vault self.new.vault result }
        ensures idle { IsFalse (is_uncommitted (events self.old.log)) → self.new.vault ≡ self.old.vault }
        ensures files { V.files self.new.vault ≡ V.files self.old.vault }
        ensures store { BreaksBy V.faults self.old self.new result }
    {
        self.usable()?;
        if !self.core.uncommitted() {
            return Ok(());
        }
        let _unsettled = self.core.ready_commit()?;
        if self.vault.sync(Which::Body).is_err() {
            self.broken = true;
            return Err(DeskFault::Fault);
        }
        self.core.commit(self.vault.calls())
    }

    /// Judges a part by the MD4 of its bytes in the body. The refusals that the log tells are, in this
    /// order: `NotFull` with the least position of the part that isn't filled, `NotCommitted` where the
    /// part was written into after the last commit, `NoSet` where a hash set is needed and none is kept,
    /// and `Already` with the digest of the verdict that the part has. It takes no memory.
    pub fn verify(&mut self, part: u16) -> Result<Verdict, DeskFault>
        requires { part < data_parts self.old.aim.size }
        ensures same { IsSame self.old self.new }
        ensures answer { Replies self.old.aim self.old.log (event.Verdict part []) result }
        ensures memory { result ≢ Err DeskFault.NoMemory }
        ensures judged { Judges self.old.aim part (V.files self.old.vault) (V.made self.new.vault) self.old.log self.new.log result }
        ensures verified { IfSome (V.files self.old.vault) (λ files. VerifiesExactly self.old part files.body result) }
        ensures files { V.files self.new.vault ≡ V.files self.old.vault }
        ensures store { BreaksBy V.faults self.old self.new result }
        ensures spared { Spares self.old.vault self.new.vault result }
        ensures clean { OnOk result (V.faults self.new.vault ≡ V.faults self.old.vault) }
        ensures reads { OnOk result (OnlyReads V.made V.body_reads self.old.vault self.new.vault) }
    {
        self.usable()?;
        self.core.ready_verdict(part)?;
        let span = part_range(self.core.aim().size, part);
        let Ok(digest) = body::hash(&mut self.vault, span) else {
            self.broken = true;
            return Err(DeskFault::Fault);
        };
        self.core.verdict(part, digest, self.vault.calls())
    }

    /// Refuses each call on a broken part file. The log is legal, as the core says of its log.
    fn usable(&self) -> Result<(), DeskFault>
        ensures broken { MatchResult result (λ _. IsFalse self.now.broken) (λ fault. (fault ≡ DeskFault.Broken) × IsTrue self.now.broken) }
        ensures legal { IsLegal self.now.aim self.now.log }
    {
        let _log = self.core.log();
        if self.broken {
            Err(DeskFault::Broken)
        } else {
            Ok(())
        }
    }
}
