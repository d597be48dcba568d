//! Reading records one behind another.
ghost use Rattle.std.specs.Prelude.{◌≡◌, ◌≤◌, length, IfOk, MatchOption};
ghost use Rattle.journal_core.specs.Folds.{IsSized, told};
ghost use Rattle.journal_core.specs.Headers.{IsKeptSize};
ghost use Rattle.journal_core.specs.LogFile.{aim_of};
ghost use Rattle.journal_core.specs.Walks.{IsCut, IsNext, IsUncut, IsWalked};

use crate::fields::read_u32;
use crate::folded::Folded;
use crate::header::Header;
use crate::payload::read_record;
use crate::record::Record;
use ed2k_outside::NoMemory;
use std::alloc::Global;

/// The value of an open gate. No other value opens one.
const OPEN: u8 = 1;

/// Where the records of a log end.
#[derive(Debug, Drop)]
pub enum Ending {
    /// With a closed gate at this place.
    Whole(Vec<Record>, usize),
    /// Without one, or with an open one behind which no record may stand.
    Broken(usize),
}

/// The kind and the payload of the record at the front.
fn cut(bytes: &[u8]) -> Option<(u8, &[u8])>
    ensures { MatchOption result (IsUncut bytes.now) (λ found. IsCut bytes.now found.0 found.1.now) }
{
    if bytes.len() < 5 {
        return None;
    }
    let len = read_u32(&bytes[1..]) as usize;
    if bytes.len() - 5 < len {
        return None;
    }
    Some((bytes[0], &bytes[5..5 + len]))
}

/// The record at the front, where it may follow, and the number of its bytes.
fn next(
    alloc: Global,
    header: &Header,
    folded: &Folded,
    bytes: &[u8],
) -> Result<Option<(Record, usize)>, NoMemory>
    requires sized { IsSized folded.now }
    requires aim { folded.now.aim ≡ aim_of header.now }
    ensures { IfOk result (λ found. IsNext header.now (told folded.now) bytes.now found) }
{
    let Some((kind, payload)) = cut(bytes) else {
        return Ok(None);
    };
    let Some(rec) = read_record(alloc, header.size, kind, payload)? else {
        return Ok(None);
    };
    if folded.may_follow(&rec) {
        Ok(Some((rec, 5 + payload.len())))
    } else {
        Ok(None)
    }
}

/// The records from the first gate on.
pub fn walk(alloc: Global, header: &Header, bytes: &[u8]) -> Result<Ending, NoMemory>
    requires { IsKeptSize header.now.size }
    ensures { IfOk result (λ ending. IsWalked header.now bytes.now ending) }
{
    let mut folded = Folded::new(alloc, header.aim())?;
    let mut records = Vec::new(alloc);
    let mut at = 0;
    'walking: while at < bytes.len() && bytes[at] == OPEN {
        let Some((rec, len)) = next(alloc, header, &folded, &bytes[at + 1..])? else {
            return Ok(Ending::Broken(at));
        };
        folded.add(alloc, &rec)?;
        records.push(rec)?;
        at += 1 + len;
    }
    if at == bytes.len() {
        return Ok(Ending::Broken(at));
    }
    Ok(Ending::Whole(records, at))
}
