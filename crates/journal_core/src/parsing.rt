//! Reading the bytes of a log file.
ghost use Rattle.std.specs.Prelude.{◌≡◌, ◌≤◌, length, get_or, take, IfOk, OnOk, MatchResult};
ghost use Rattle.journal_core.specs.Faults.{IsKept};
ghost use Rattle.journal_core.specs.Headers.{IsHead, IsKeptSize, IsRoot};
ghost use Rattle.journal_core.specs.Loads.{HasRoom, IsBadAt, IsRead};

use crate::fields::{read_hash, read_u64};
use crate::header::{Header, SIZE_LIMIT};
use crate::record::Record;
use crate::walking::{Ending, walk};
use ed2k_outside::NoMemory;
use part_sizes::Root;
use std::alloc::Global;

/// The place of the size in the header.
const SIZE_PLACE: u64 = 9;

/// The place of the flag that says whether a root is kept.
const FLAG_PLACE: u64 = 33;

/// The bytes of the header, without the first record's gate.
const HEADER_LEN: usize = 54;

/// What the bytes of a log are.
#[derive(Debug, Drop)]
pub enum Parsed {
    /// A header, legal records, and where the gate stands that ends them.
    Log(Header, Vec<Record>, u64),
    /// Bytes that contradict the format at this place.
    NotOurs(u64),
}

/// A flag, and the root where it is 1.
fn read_root(bytes: &[u8]) -> Option<Root>
    requires long { 21 ≤ length bytes.now }
    requires flag { get_or bytes.now 0 0 ≤ 1 }
    ensures { IsRoot result (take 21 bytes.now) }
{
    if bytes[0] == 0 {
        return None;
    }
    let mut root = [0; 20];
    root.copy_from_slice(&bytes[1..21]);
    Some(root)
}

/// The header of a kept log, or the place where it contradicts the format.
fn read_header(log: &[u8]) -> Result<Header, u64>
    ensures sized { IfOk result (λ header. IsKeptSize header.size) }
    ensures long { OnOk result (55 ≤ length log.now) }
    ensures read { IsKept log.now
        → MatchResult result (λ header. IsHead header (take 54 log.now)) (λ at. IsBadAt log.now at) }
{
    if log.len() < 17 {
        return Err(FLAG_PLACE);
    }
    let size = read_u64(&log[9..]);
    if size < 1 || SIZE_LIMIT < size {
        return Err(SIZE_PLACE);
    }
    if log.len() <= HEADER_LEN || 1 < log[33] {
        return Err(FLAG_PLACE);
    }
    Ok(Header {
        size,
        hash: read_hash(&log[17..]),
        root: read_root(&log[33..]),
    })
}

/// What the bytes of a kept log are.
pub fn parse(alloc: Global, log: &[u8]) -> Result<Parsed, NoMemory>
    ensures read { IsKept log.now → IfOk result (λ parsed. IsRead parsed log.now) }
    ensures room { IfOk result (λ parsed. HasRoom parsed) }
{
    let header = match read_header(log) {
        Ok(header) => header,
        Err(at) => return Ok(Parsed::NotOurs(at)),
    };
    match walk(alloc, &header, &log[HEADER_LEN..])? {
        Ending::Whole(records, at) => { Ok(Parsed::Log(header, records, (HEADER_LEN + at) as u64)) }
        Ending::Broken(at) => Ok(Parsed::NotOurs((HEADER_LEN + at) as u64)),
    }
}
