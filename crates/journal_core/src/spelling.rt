//! A record as it is written behind its gate.
ghost use Rattle.std.specs.Prelude.{◌≡◌, ◌+◌, ◌*◌, ◌<◌, ◌≤◌, ◌++◌, ◌^◌, [], ◌∷◌, length, take, IfOk, OnOk};
ghost use Rattle.byteorder.specs.Endian.{little_bytes};
ghost use Rattle.journal_core.specs.Records.{AreHashes, AreSpans, Spells, HasFewBits, IsSmall, bit_of, byte_of, bitmap, spell_hashes, spell_spans};

use crate::record::Record;
use byteorder::{ByteOrder, LittleEndian};
use ed2k_outside::{Bytes, NoMemory};
use part_sizes::{Hash, Span};
use std::alloc::{AllocError, Global};

/// The most hashes of a set that a record has room for.
const SET_LIMIT: usize = 65_535;

/// The most spans that a payload of 4,294,967,295 bytes has room for.
const SPAN_LIMIT: usize = 268_435_455;

/// The bytes of a record as they stand behind its gate: kind, length of the payload, payload, and a closed
/// gate.
///
/// `NoMemory` comes for want of memory, and also where a set has more than 65,535 hashes or the payload
/// would pass 4,294,967,295 bytes.
pub fn spell(alloc: Global, rec: &Record) -> Result<Bytes, NoMemory>
    requires { HasFewBits rec.now }
    ensures { IfOk result (λ bytes. Spells rec.now bytes) }
{
    match rec {
        Record::Set(set) => Ok(Bytes::new(spell_set(alloc, set.as_slice())?)),
        Record::Filled(spans) => Ok(Bytes::new(spell_filled(alloc, spans.as_slice())?)),
        small => {
            let (bytes, len) = spell_small(small);
            Ok(Bytes::new(Vec::from_slice(alloc, &bytes[..len])?))
        }
    }
}

/// The bytes of a small record, as [`spell`] gives them, and their number. It takes no memory.
pub fn spell_small(rec: &Record) -> ([u8; 32], usize)
    requires bits { HasFewBits rec.now }
    requires small { IsSmall rec.now }
    ensures within { result.1 ≤ 32 }
    ensures written { Spells rec.now (take result.1 result.0) }
{
    match rec {
        Record::Judged(part, digest) => put_small(3, *part, digest),
        Record::Recovered(part, kept) => put_small(4, *part, &map_of(kept.as_slice())),
        Record::Dropped(part) => put_small(5, *part, &[]),
        _ => unreachable!(),
    }
}

fn spell_set(alloc: Global, set: &[Hash]) -> Result<Vec<u8>, NoMemory>
    ensures few { OnOk result (length set.now ≤ 65535) }
    ensures hashes { OnOk result (AreHashes set.now) }
    ensures written { IfOk result (λ out. out.items
        ≡ 1 ∷ (little_bytes 4 (2 + 16 * length set.now)
        ++ (little_bytes 2 (length set.now) ++ spell_hashes set.now)) ++ 0 ∷ []) }
{
    if set.len() > SET_LIMIT {
        return Err(NoMemory);
    }
    let mut out = head(alloc, 1, (2 + 16 * set.len()) as u32)?;
    let mut count = [0; 2];
    LittleEndian::write_u16(&mut count, set.len() as u16);
    out.extend_from_slice(&count)?;
    append_hashes(&mut out, set)?;
    out.push(0)?;
    Ok(out)
}

fn spell_filled(alloc: Global, spans: &[Span]) -> Result<Vec<u8>, NoMemory>
    ensures few { OnOk result (length spans.now ≤ 268435455) }
    ensures spans { OnOk result (AreSpans spans.now) }
    ensures written { IfOk result (λ out. out.items
        ≡ 2 ∷ (little_bytes 4 (4 + 16 * length spans.now)
        ++ (little_bytes 4 (length spans.now) ++ spell_spans spans.now)) ++ 0 ∷ []) }
{
    if spans.len() > SPAN_LIMIT {
        return Err(NoMemory);
    }
    let mut out = head(alloc, 2, (4 + 16 * spans.len()) as u32)?;
    append_u32(&mut out, spans.len() as u32)?;
    append_spans(&mut out, spans)?;
    out.push(0)?;
    Ok(out)
}

/// A record's kind and the length of its payload, with room for the rest.
fn head(alloc: Global, kind: u8, len: u32) -> Result<Vec<u8>, AllocError>
    ensures { IfOk result (λ out. out.items ≡ kind ∷ little_bytes 4 len) }
{
    let mut out = Vec::with_capacity(alloc, 6 + len as usize)?;
    out.push(kind)?;
    append_u32(&mut out, len)?;
    Ok(out)
}

fn append_u32(out: &mut Vec<u8>, number: u32) -> Result<(), AllocError>
    ensures { OnOk result (out.new.items ≡ out.old.items ++ little_bytes 4 number) }
{
    let mut field = [0; 4];
    LittleEndian::write_u32(&mut field, number);
    out.extend_from_slice(&field)
}

fn append_u64(out: &mut Vec<u8>, number: u64) -> Result<(), AllocError>
    ensures fits { number < 2 ^ 64 }
    ensures written { OnOk result (out.new.items ≡ out.old.items ++ little_bytes 8 number) }
{
    let mut field = [0; 8];
    LittleEndian::write_u64(&mut field, number);
    out.extend_from_slice(&field)
}

fn append_hashes(out: &mut Vec<u8>, set: &[Hash]) -> Result<(), AllocError>
    ensures hashes { OnOk result (AreHashes set.now) }
    ensures written { OnOk result (out.new.items ≡ out.old.items ++ spell_hashes set.now) }
{
    for hash in set {
        out.extend_from_slice(hash)?;
    }
    Ok(())
}

fn append_spans(out: &mut Vec<u8>, spans: &[Span]) -> Result<(), AllocError>
    ensures spans { OnOk result (AreSpans spans.now) }
    ensures written { OnOk result (out.new.items ≡ out.old.items ++ spell_spans spans.now) }
{
    for span in spans {
        append_u64(out, span.s)?;
        append_u64(out, span.e)?;
    }
    Ok(())
}

/// A small record: kind, length, part, and the rest of the payload.
fn put_small(kind: u8, part: u16, rest: &[u8]) -> ([u8; 32], usize)
    requires { length rest.now ≤ 16 }
    ensures within { result.1 ≤ 32 }
    ensures written { take result.1 result.0
        ≡ kind ∷ (little_bytes 4 (2 + length rest.now) ++ (little_bytes 2 part ++ rest.now)) ++ 0 ∷ [] }
{
    let mut len = [0; 4];
    LittleEndian::write_u32(&mut len, 2 + rest.len() as u32);
    let mut number = [0; 2];
    LittleEndian::write_u16(&mut number, part);
    let mut bytes = [0; 32];
    let mut end = put(&mut bytes, 0, &[kind]);
    end = put(&mut bytes, end, &len);
    end = put(&mut bytes, end, &number);
    end = put(&mut bytes, end, rest);
    end = put(&mut bytes, end, &[0]);
    (bytes, end)
}

/// Puts a piece at a place, and answers the place behind it.
fn put(bytes: &mut [u8; 32], at: usize, piece: &[u8]) -> usize
    requires { at + length piece.now ≤ 32 }
    ensures end { result ≡ at + length piece.now }
    ensures written { take result bytes.new ≡ take at bytes.old ++ piece.now }
{
    let end = at + piece.len();
    bytes[at..end].copy_from_slice(piece);
    end
}

/// Seven bytes of bits, the lowest first. Bits past the end are 0.
fn map_of(kept: &[bool]) -> [u8; 7]
    ensures { result ≡ bitmap kept.now }
{
    [
        byte_at(kept, 0),
        byte_at(kept, 1),
        byte_at(kept, 2),
        byte_at(kept, 3),
        byte_at(kept, 4),
        byte_at(kept, 5),
        byte_at(kept, 6),
    ]
}

fn byte_at(kept: &[bool], k: usize) -> u8
    requires { k ≤ 6 }
    ensures { result ≡ byte_of kept.now k }
{
    let place = 8 * k;
    bit_at(kept, place)
        + 2 * bit_at(kept, place + 1)
        + 4 * bit_at(kept, place + 2)
        + 8 * bit_at(kept, place + 3)
        + 16 * bit_at(kept, place + 4)
        + 32 * bit_at(kept, place + 5)
        + 64 * bit_at(kept, place + 6)
        + 128 * bit_at(kept, place + 7)
}

fn bit_at(kept: &[bool], place: usize) -> u8
    ensures is { result ≡ bit_of kept.now place }
    ensures small { result ≤ 1 }
{
    match kept.get(place) {
        Some(true) => 1,
        _ => 0,
    }
}
