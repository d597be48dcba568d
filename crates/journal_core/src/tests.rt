//! Records byte for byte, and logs that are loaded: whole, cut short, changed, and of every kind of record.
ghost use Rattle.std.specs.Prelude.{IfOk, IfSome};
ghost use Rattle.journal_core.specs.Records.{HasFewBits, IsSmall};

use crate::{Header, Journal, LoadFault, Probe, Record, spell, spell_small};
use ed2k_outside::{Vault, Which};
use part_sizes::{Bits, Hash, Hashes, Span, Spans};
use std::alloc::Global;
use std::test::Fail;
use vault_sim::MemVault;

/// The MD4 of `abc`, which is also its file hash.
const ABC: u128 = 0xA448017AAF21D8525FC10AE87AA6729D;

/// A file of one whole part: its part hash, the hash of no bytes, and the file's hash, by another
/// implementation.
const PART_HASH: u128 = 0x0c9de707b2556b056b481b6c098d1aa7;

const NO_BYTES: u128 = 0x31d6cfe0d16ae931b73c59d7e0c089c0;

const FILE_HASH: u128 = 0x2863584e52d45719545f0a4134c3b0e0;

const PART: u64 = 9_728_000;

/// What came of a load: so many records, or a refusal.
#[derive(Clone, Copy, Debug, PartialEq, Eq)]
enum Outcome {
    Loaded(usize),
    Refused(LoadFault),
}

fn refused_at(place: u64) -> Outcome {
    Outcome::Refused(LoadFault::NotOurs(place))
}

fn is_same(found: &[u8], wanted: &[u8]) -> bool {
    found == wanted
}

fn set(alloc: Global, hashes: &[u128]) -> Result<Record, Fail>
    ensures { IfOk result (λ rec. HasFewBits rec) }
{
    let mut set: Vec<Hash> = Vec::new(alloc);
    for hash in hashes {
        set.push(hash.to_be_bytes())?;
    }
    Ok(Record::Set(Hashes::new(set)))
}

fn filled(alloc: Global, s: u64, e: u64) -> Result<Record, Fail>
    ensures { IfOk result (λ rec. HasFewBits rec) }
{
    Ok(Record::Filled(Spans::new(vec![in alloc; Span { s, e }]?)))
}

fn judged(digest: u128) -> Record
    ensures bits { HasFewBits result }
    ensures small { IsSmall result }
{
    Record::Judged(0, digest.to_be_bytes())
}

/// The front of a log, which ends with a closed gate.
fn front(alloc: Global, size: u64, hash: u128) -> Result<Vec<u8>, Fail> {
    let mut log = Vec::from_slice(alloc, b"ED2KPF01\x01")?;
    log.extend_from_slice(&size.to_le_bytes())?;
    log.extend_from_slice(&hash.to_be_bytes())?;
    log.extend_from_slice(&[0; 22])?;
    Ok(log)
}

/// Opens the last gate, and puts the record behind it.
fn put(log: &mut Vec<u8>, spelled: &[u8]) -> Result<(), Fail> {
    if let Some(gate) = log.last_mut() {
        *gate = 1;
    }
    log.extend_from_slice(spelled)?;
    Ok(())
}

/// The log of a download of `abc`.
fn small_log(alloc: Global) -> Result<Vec<u8>, Fail> {
    let mut log = front(alloc, 3, ABC)?;
    put(&mut log, spell(alloc, &filled(alloc, 0, 3)?)?.as_slice())?;
    let (bytes, len) = spell_small(&judged(ABC));
    put(&mut log, &bytes[..len])?;
    Ok(log)
}

fn load(alloc: Global, log: &[u8]) -> Result<Outcome, Fail> {
    let mut vault = MemVault::new(alloc);
    vault.write_at(Which::Log, 0, log)?;
    match Journal::load(alloc, &mut vault) {
        Ok((_, _, records)) => Ok(Outcome::Loaded(records.len())),
        Err(fault) => Ok(Outcome::Refused(fault)),
    }
}

#[test]
fn each_kind_is_spelled_byte_for_byte(rt: HostRuntime) -> Result<(), Fail> {
    let alloc = rt.alloc();
    let spelled = spell(alloc, &set(alloc, &[ABC])?)?;
    let mut wanted = vec![in alloc; 1, 18, 0, 0, 0, 1, 0]?;
    wanted.extend_from_slice(&ABC.to_be_bytes())?;
    wanted.push(0)?;
    assert!(rt; is_same(spelled.as_slice(), &wanted));

    let spelled = spell(alloc, &filled(alloc, 1, 258)?)?;
    let wanted = [
        2, 20, 0, 0, 0, 1, 0, 0, 0, 1, 0, 0, 0, 0, 0, 0, 0, 2, 1, 0, 0, 0, 0, 0, 0, 0,
    ];
    assert!(rt; is_same(spelled.as_slice(), &wanted));

    let bits = vec![in alloc; true, false, false, true, false, false, false, false, true]?;
    let (bytes, len) = spell_small(&Record::Recovered(258, Bits::new(bits)));
    let wanted = [4, 9, 0, 0, 0, 2, 1, 9, 1, 0, 0, 0, 0, 0, 0];
    assert!(rt; is_same(&bytes[..len], &wanted));

    let (bytes, len) = spell_small(&Record::Dropped(3));
    assert!(rt; is_same(&bytes[..len], &[5, 2, 0, 0, 0, 3, 0, 0]));

    let (bytes, len) = spell_small(&judged(0x0102));
    let wanted = [
        3, 18, 0, 0, 0, 0, 0, 0, 0, 0, 0, 0, 0, 0, 0, 0, 0, 0, 0, 0, 0, 1, 2, 0,
    ];
    assert!(rt; is_same(&bytes[..len], &wanted));
    Ok(())
}

/// What the small log comes to when it is cut to so many bytes.
fn cut_outcome(len: usize) -> Outcome {
    match len {
        0..=9 => Outcome::Refused(LoadFault::Fresh),
        10..=54 => refused_at(33),
        55..=79 => refused_at(54),
        80..=103 => refused_at(80),
        104 => refused_at(104),
        _ => Outcome::Loaded(2),
    }
}

#[test]
fn a_log_that_is_cut_short(rt: HostRuntime) -> Result<(), Fail> {
    let alloc = rt.alloc();
    let log = small_log(alloc)?;
    assert_eq!(rt; log.len(), 105);
    let mut front = Vec::new(alloc);
    for byte in &log {
        assert_eq!(rt; load(alloc, &front)?, cut_outcome(front.len()));
        front.push(*byte)?;
    }
    assert_eq!(rt; load(alloc, &front)?, Outcome::Loaded(2));
    Ok(())
}

/// What the small log comes to when one of its bytes has another value.
fn changed_outcome(place: usize, value: u8) -> Outcome {
    match (place, value) {
        (0..=7, _) => refused_at(place as u64),
        (8, _) => Outcome::Refused(LoadFault::Fresh),
        (9, 0) | (13..=16, _) => refused_at(9),
        (9, 1..=2) => refused_at(54),
        (9..=12, _) => refused_at(80),
        (33, 2..=255) => refused_at(33),
        (17..=53, _) => Outcome::Loaded(2),
        (54, _) => Outcome::Loaded(0),
        (64 | 72, 1..=2) => refused_at(80),
        (55..=79, _) => refused_at(54),
        (80, _) => Outcome::Loaded(1),
        (81..=87, _) => refused_at(80),
        (104, 1) => refused_at(104),
        _ => Outcome::Loaded(2),
    }
}

/// A copy with another value at one place.
fn with_byte(alloc: Global, log: &[u8], place: usize, value: u8) -> Result<Vec<u8>, Fail> {
    let mut copy = Vec::new(alloc);
    for (at, byte) in log.iter().enumerate() {
        copy.push(if at == place { value } else { *byte })?;
    }
    Ok(copy)
}

#[test]
fn a_log_with_one_byte_changed(rt: HostRuntime) -> Result<(), Fail> {
    let alloc = rt.alloc();
    let log = small_log(alloc)?;
    for (place, byte) in log.iter().enumerate() {
        for mask in [1, 0x55, 0xFF] {
            let value = *byte ^ mask;
            let changed = with_byte(alloc, &log, place, value)?;
            let outcome = load(alloc, &changed)?;
            assert_eq!(rt; outcome, changed_outcome(place, value), "{place} {value}");
        }
    }
    Ok(())
}

/// A log with every kind of record: a part is filled, fails, is recovered and fails again, is dropped, and
/// passes at last.
fn long_log(alloc: Global) -> Result<Vec<u8>, Fail> {
    let mut log = front(alloc, PART, FILE_HASH)?;
    put(
        &mut log,
        spell(alloc, &set(alloc, &[PART_HASH, NO_BYTES])?)?.as_slice(),
    )?;
    put(&mut log, spell(alloc, &filled(alloc, 0, PART)?)?.as_slice())?;
    put(&mut log, spell(alloc, &judged(ABC))?.as_slice())?;
    let mut kept = vec![in alloc; true; 53]?;
    if let Some(first) = kept.first_mut() {
        *first = false;
    }
    let (bytes, len) = spell_small(&Record::Recovered(0, Bits::new(kept)));
    put(&mut log, &bytes[..len])?;
    put(
        &mut log,
        spell(alloc, &filled(alloc, 0, 184_320)?)?.as_slice(),
    )?;
    put(&mut log, spell(alloc, &judged(ABC))?.as_slice())?;
    put(&mut log, spell(alloc, &Record::Dropped(0))?.as_slice())?;
    put(&mut log, spell(alloc, &filled(alloc, 0, PART)?)?.as_slice())?;
    put(&mut log, spell(alloc, &judged(PART_HASH))?.as_slice())?;
    Ok(log)
}

#[test]
fn every_kind_of_record_is_loaded(rt: HostRuntime) -> Result<(), Fail> {
    let alloc = rt.alloc();
    let log = long_log(alloc)?;
    assert_eq!(rt; load(alloc, &log)?, Outcome::Loaded(9));
    let more = [
        set(alloc, &[PART_HASH, NO_BYTES])?,
        filled(alloc, 0, 1)?,
        judged(PART_HASH),
        Record::Dropped(0),
        Record::Dropped(1),
    ];
    for rec in &more {
        let mut longer = Vec::from_slice(alloc, &log)?;
        put(&mut longer, spell(alloc, rec)?.as_slice())?;
        let gate = log.len().saturating_sub(1) as u64;
        assert_eq!(rt; load(alloc, &longer)?, refused_at(gate));
    }
    Ok(())
}

/// A part of a file of one part, which is filled from a place on: up to where, how it was judged, and what is
/// drawn next.
#[derive(Drop)]
struct Play {
    at: u64,
    end: u64,
    verdict: Option<bool>,
    seed: u64,
}

impl Play {
    /// A number below 2^31 that looks drawn at random.
    fn draw(&mut self) -> u64 {
        self.seed = self
            .seed
            .wrapping_mul(6_364_136_223_846_793_005)
            .wrapping_add(1_442_695_040_888_963_407);
        self.seed >> 33
    }

    /// The next bytes are filled, up to two million.
    fn fill(&mut self, alloc: Global) -> Result<Record, Fail>
        ensures { IfOk result (λ rec. HasFewBits rec) }
    {
        let s = self.at;
        self.at = s.saturating_add(1 + self.draw() % 2_000_000).min(self.end);
        filled(alloc, s, self.at)
    }

    /// The part fails, or once in eight times passes.
    fn judge(&mut self) -> Record
        ensures { HasFewBits result }
    {
        let is_good = self.draw() % 8 == 0;
        self.verdict = Some(is_good);
        judged(if is_good { PART_HASH } else { ABC })
    }

    /// The failed part is opened again: all of it, or its first block.
    fn open(&mut self, alloc: Global) -> Result<Record, Fail>
        ensures { IfOk result (λ rec. HasFewBits rec) }
    {
        self.verdict = None;
        self.at = 0;
        if self.draw() % 2 == 0 {
            self.end = PART;
            return Ok(Record::Dropped(0));
        }
        self.end = 184_320;
        let mut kept = vec![in alloc; true; 53]?;
        if let Some(first) = kept.first_mut() {
            *first = false;
        }
        Ok(Record::Recovered(0, Bits::new(kept)))
    }

    /// A record that may come next, and none once the part is verified.
    fn next(&mut self, alloc: Global) -> Result<Option<Record>, Fail>
        ensures { IfOk result (λ found. IfSome found (λ rec. HasFewBits rec)) }
    {
        match self.verdict {
            Some(true) => Ok(None),
            Some(false) => Ok(Some(self.open(alloc)?)),
            None if self.at < self.end => Ok(Some(self.fill(alloc)?)),
            None => Ok(Some(self.judge())),
        }
    }
}

/// A record in numbers: its kind, where its first span ends, and how it begins.
fn gist(rec: &Record) -> (u8, u64, u64) {
    match rec {
        Record::Set(hashes) => (1, hashes.as_slice().len() as u64, 0),
        Record::Filled(spans) => match spans.as_slice().first() {
            Some(span) => (2, span.e, span.s),
            None => (2, 0, 0),
        },
        Record::Judged(part, digest) => (3, u64::from(*part), u64::from(digest[0])),
        Record::Recovered(part, kept) => (4, u64::from(*part), kept.as_slice().len() as u64),
        Record::Dropped(part) => (5, u64::from(*part), 0),
    }
}

/// A log of records that are drawn until the part is verified, and what they say.
fn drawn_log(alloc: Global, seed: u64) -> Result<(Vec<u8>, Vec<(u8, u64, u64)>), Fail> {
    let mut log = front(alloc, PART, FILE_HASH)?;
    let mut gists = Vec::new(alloc);
    let hashes = set(alloc, &[PART_HASH, NO_BYTES])?;
    put(&mut log, spell(alloc, &hashes)?.as_slice())?;
    gists.push(gist(&hashes))?;
    let mut play = Play {
        at: 0,
        end: PART,
        verdict: None,
        seed,
    };
    for _ in 0..1_000 {
        let Some(rec) = play.next(alloc)? else { break };
        put(&mut log, spell(alloc, &rec)?.as_slice())?;
        gists.push(gist(&rec))?;
    }
    Ok((log, gists))
}

/// What the records of a log say.
fn loaded(alloc: Global, log: &[u8]) -> Result<Vec<(u8, u64, u64)>, Fail> {
    let mut vault = MemVault::new(alloc);
    vault.write_at(Which::Log, 0, log)?;
    let mut gists = Vec::new(alloc);
    if let Ok((_, _, records)) = Journal::load(alloc, &mut vault) {
        for rec in &records {
            gists.push(gist(rec))?;
        }
    }
    Ok(gists)
}

#[test]
fn records_drawn_in_a_legal_order_are_loaded_back(rt: HostRuntime) -> Result<(), Fail> {
    let alloc = rt.alloc();
    for seed in 0..32 {
        let (log, wanted) = drawn_log(alloc, seed)?;
        let found = loaded(alloc, &log)?;
        assert_eq!(rt; found.as_slice(), wanted.as_slice(), "{seed}");
    }
    Ok(())
}

#[test]
fn a_store_is_made_in_a_fresh_log(rt: HostRuntime) -> Result<(), Fail> {
    let alloc = rt.alloc();
    let mut vault = MemVault::new(alloc);
    let header = Header {
        size: 3,
        hash: ABC.to_be_bytes(),
        root: Some([9; 20]),
    };
    match Journal::probe(&mut vault)? {
        Probe::Fresh => {
            let journal = Journal::create(&mut vault, &header)?;
            assert_eq!(rt; journal.gate, 54);
        }
        _ => assert!(rt; false),
    }
    assert_eq!(rt; vault.len(Which::Body)?, 3);
    assert_eq!(rt; Journal::probe(&mut vault)?, Probe::Kept);
    match Journal::load(alloc, &mut vault) {
        Ok((journal, found, records)) => {
            assert_eq!(rt; journal.gate, 54);
            assert_eq!(rt; found, header);
            assert_eq!(rt; records.len(), 0);
        }
        Err(_) => assert!(rt; false),
    }
    Ok(())
}

#[test]
fn each_call_that_fails_is_a_fault(rt: HostRuntime) -> Result<(), Fail> {
    let alloc = rt.alloc();
    let log = small_log(alloc)?;
    for call in 2..8 {
        let mut vault = MemVault::failing(alloc, vec![in alloc; call]?);
        vault.write_at(Which::Log, 0, &log)?;
        let failed = Journal::load(alloc, &mut vault).err();
        assert_eq!(rt; failed, Some(LoadFault::Fault), "{call}");
    }
    Ok(())
}
