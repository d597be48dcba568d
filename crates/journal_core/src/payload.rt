//! A record as it is read from its payload.
ghost use Rattle.std.specs.Prelude.{◌≡◌, ℕ, ◌+◌, ◌*◌, ◌≤◌, length, IfOk, vec_len};
ghost use Rattle.part_sizes.specs.Part.{IsSize};
ghost use Rattle.journal_core.specs.Parses.{IsParsed};
ghost use Rattle.journal_core.specs.Records.{AreHashes, AreSpans, IsMap, spell_hashes, spell_spans};

use crate::fields::{read_hash, read_u16, read_u32, read_u64};
use crate::record::Record;
use ed2k_outside::NoMemory;
use part_sizes::{Bits, Hash, Hashes, Span, Spans, block_count, data_parts};
use std::alloc::Global;

/// The record that a payload of this kind is, in the log of a file of this size.
pub fn read_record(
    alloc: Global,
    size: u64,
    kind: u8,
    payload: &[u8],
) -> Result<Option<Record>, NoMemory>
    requires { IsSize size }
    ensures { IfOk result (λ found. IsParsed size kind payload.now found) }
{
    match kind {
        1 => read_set(alloc, payload),
        2 => read_filled(alloc, payload),
        3 => Ok(read_judged(payload)),
        4 => read_recovered(alloc, size, payload),
        5 => Ok(read_dropped(payload)),
        _ => Ok(None),
    }
}

fn read_set(alloc: Global, payload: &[u8]) -> Result<Option<Record>, NoMemory>
    ensures { (n : ℕ) → IfOk result (λ found. IsParsed n 1 payload.now found) }
{
    if payload.len() < 2 {
        return Ok(None);
    }
    let count = read_u16(payload) as usize;
    if payload.len() != 2 + 16 * count {
        return Ok(None);
    }
    let hashes = read_hashes(alloc, &payload[2..], count)?;
    Ok(Some(Record::Set(Hashes::new(hashes))))
}

fn read_filled(alloc: Global, payload: &[u8]) -> Result<Option<Record>, NoMemory>
    ensures { (n : ℕ) → IfOk result (λ found. IsParsed n 2 payload.now found) }
{
    if payload.len() < 4 {
        return Ok(None);
    }
    let count = read_u32(payload) as usize;
    if payload.len() != 4 + 16 * count {
        return Ok(None);
    }
    let spans = read_spans(alloc, &payload[4..], count)?;
    Ok(Some(Record::Filled(Spans::new(spans))))
}

fn read_judged(payload: &[u8]) -> Option<Record>
    ensures { (n : ℕ) → IsParsed n 3 payload.now result }
{
    if payload.len() != 18 {
        return None;
    }
    Some(Record::Judged(read_u16(payload), read_hash(&payload[2..])))
}

fn read_recovered(alloc: Global, size: u64, payload: &[u8]) -> Result<Option<Record>, NoMemory>
    requires { IsSize size }
    ensures { IfOk result (λ found. IsParsed size 4 payload.now found) }
{
    if payload.len() != 9 {
        return Ok(None);
    }
    let part = read_u16(payload);
    if part >= data_parts(size) {
        return Ok(None);
    }
    let kept = read_bits(alloc, &payload[2..], block_count(size, part))?;
    Ok(Some(Record::Recovered(part, Bits::new(kept))))
}

fn read_dropped(payload: &[u8]) -> Option<Record>
    ensures { (n : ℕ) → IsParsed n 5 payload.now result }
{
    if payload.len() != 2 {
        return None;
    }
    Some(Record::Dropped(read_u16(payload)))
}

fn read_hashes(alloc: Global, bytes: &[u8], count: usize) -> Result<Vec<Hash>, NoMemory>
    requires { length bytes.now ≡ 16 * count }
    ensures count { IfOk result (λ hashes. vec_len hashes ≡ count) }
    ensures long { IfOk result (λ hashes. AreHashes hashes.items) }
    ensures spelled { IfOk result (λ hashes. bytes.now ≡ spell_hashes hashes.items) }
{
    let mut hashes = Vec::with_capacity(alloc, count)?;
    let mut rest = bytes;
    for _ in 0..count {
        hashes.push(read_hash(rest))?;
        let (_, behind) = rest.split_at(16);
        rest = behind;
    }
    Ok(hashes)
}

fn read_spans(alloc: Global, bytes: &[u8], count: usize) -> Result<Vec<Span>, NoMemory>
    requires { length bytes.now ≡ 16 * count }
    ensures count { IfOk result (λ spans. vec_len spans ≡ count) }
    ensures fit { IfOk result (λ spans. AreSpans spans.items) }
    ensures spelled { IfOk result (λ spans. bytes.now ≡ spell_spans spans.items) }
{
    let mut spans = Vec::with_capacity(alloc, count)?;
    let mut rest = bytes;
    for _ in 0..count {
        let span = Span {
            s: read_u64(rest),
            e: read_u64(&rest[8..]),
        };
        spans.push(span)?;
        let (_, behind) = rest.split_at(16);
        rest = behind;
    }
    Ok(spans)
}

/// So many bits of seven bytes, the lowest of each byte first.
fn read_bits(alloc: Global, map: &[u8], count: u16) -> Result<Vec<bool>, NoMemory>
    requires long { length map.now ≡ 7 }
    requires few { count ≤ 53 }
    ensures count { IfOk result (λ kept. vec_len kept ≡ count) }
    ensures bits { IfOk result (λ kept. IsMap kept.items map.now) }
{
    let mut kept = Vec::with_capacity(alloc, count as usize)?;
    for place in 0..count as usize {
        kept.push(map[place / 8] >> (place % 8) & 1 == 1)?;
    }
    Ok(kept)
}
