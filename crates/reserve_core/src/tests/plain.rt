//! What each call answers by its definition, worked out anew from the whole log. The logs of these tests
//! open without verdicts.

ghost use Rattle.std.specs.Prelude.{◌<◌};
ghost use Rattle.part_sizes.specs.Part.{IsSize, data_parts};

use super::calls::Call;
use crate::{DeskFault, Entry, Event};
use ed2k_outside::NoMemory;
use part_hashset::{Aim, check_set};
use part_sizes::{PART, Span, block_count, block_range, data_parts, part_range};
use std::alloc::Global;

fn kept_set(log: &[Entry]) -> &[[u8; 16]] {
    let mut set: &[[u8; 16]] = &[];
    for entry in log {
        match &entry.event {
            Event::Opened(opened) => set = opened.set.as_slice(),
            Event::Hashes(hashes) => set = hashes.as_slice(),
            _ => {}
        }
    }
    set
}

fn lacks_set(aim: Aim, log: &[Entry]) -> bool {
    PART <= aim.size && kept_set(log).is_empty()
}

fn goal(aim: Aim, log: &[Entry], part: u16) -> Option<[u8; 16]> {
    if aim.size < PART {
        Some(aim.hash)
    } else {
        kept_set(log).get(usize::from(part)).copied()
    }
}

fn verdict_of(log: &[Entry], part: u16) -> Option<[u8; 16]> {
    let mut verdict = None;
    for entry in log {
        match &entry.event {
            Event::Verdict(judged, digest) if *judged == part => verdict = Some(*digest),
            Event::Dropped(opened) if *opened == part => verdict = None,
            _ => {}
        }
    }
    verdict
}

fn is_failed(aim: Aim, log: &[Entry], part: u16) -> bool {
    let verdict = verdict_of(log, part);
    verdict.is_some() && verdict != goal(aim, log, part)
}

fn is_worn(aim: Aim, log: &[Entry], part: u16) -> bool {
    let goal = goal(aim, log, part);
    let mut failures = 0_u32;
    for entry in log {
        match &entry.event {
            Event::Verdict(judged, digest) if *judged == part && Some(*digest) != goal => {
                failures = failures.saturating_add(1);
            }
            _ => {}
        }
    }
    failures >= 8
}

fn first_worn(aim: Aim, log: &[Entry]) -> Option<u16>
    requires { IsSize aim.size }
{
    for part in 0..data_parts(aim.size) {
        if is_worn(aim, log, part) {
            return Some(part);
        }
    }
    None
}

fn is_filled(log: &[Entry], position: u64) -> bool {
    let mut filled = false;
    for entry in log {
        match &entry.event {
            Event::Opened(opened) => {
                filled = opened
                    .filled
                    .as_slice()
                    .iter()
                    .any(|span| span.has(position));
            }
            Event::Write(_, span) if span.has(position) => filled = true,
            Event::Dropped(part) if position / PART == u64::from(*part) => filled = false,
            _ => {}
        }
    }
    filled
}

fn is_uncommitted(log: &[Entry], range: Span) -> bool {
    let mut uncommitted = false;
    for entry in log {
        match &entry.event {
            Event::Write(_, span) if span.s.max(range.s) < span.e.min(range.e) => {
                uncommitted = true;
            }
            Event::Commit => uncommitted = false,
            _ => {}
        }
    }
    uncommitted
}

// What is left of a span that is reserved at a place of the log.
fn left_of(log: &[Entry], place: usize, peer: u64, span: Span) -> Span {
    let mut from = span.s;
    for entry in log.iter().skip(place) {
        match &entry.event {
            Event::Release(other) if *other == peer => from = span.e,
            Event::Write(other, written)
                if *other == peer && span.s <= written.s && written.e <= span.e => {
                from = from.max(written.e);
            }
            _ => {}
        }
    }
    Span { s: from, e: span.e }
}

fn held(alloc: Global, log: &[Entry]) -> Result<Vec<(u64, Span)>, NoMemory> {
    let mut held = Vec::new(alloc);
    for (place, entry) in log.iter().enumerate() {
        if let Event::Reserve(peer, spans) = &entry.event {
            for span in spans.as_slice() {
                let left = left_of(log, place, *peer, *span);
                if !left.is_empty() {
                    held.push((*peer, left))?;
                }
            }
        }
    }
    Ok(held)
}

fn may_write(held: &[(u64, Span)], peer: u64, span: Span) -> bool {
    !span.is_empty()
        && held.iter().any(|(holder, left)| *holder == peer && left.s == span.s && span.e <= left.e)
}

fn add_bounds(bounds: &mut Vec<u64>, spans: &[Span]) -> Result<(), NoMemory> {
    for span in spans {
        bounds.push(span.s)?;
        bounds.push(span.e)?;
    }
    Ok(())
}

// The bounds of all spans of the log: within a part, what is filled or held changes nowhere else.
fn bounds(alloc: Global, log: &[Entry]) -> Result<Vec<u64>, NoMemory> {
    let mut bounds = Vec::new(alloc);
    for entry in log {
        match &entry.event {
            Event::Opened(opened) => add_bounds(&mut bounds, opened.filled.as_slice())?,
            Event::Reserve(_, spans) => add_bounds(&mut bounds, spans.as_slice())?,
            Event::Write(_, span) => add_bounds(&mut bounds, &[*span])?,
            _ => {}
        }
    }
    Ok(bounds)
}

fn is_free(log: &[Entry], held: &[(u64, Span)], position: u64) -> bool {
    !is_filled(log, position) && !held.iter().any(|(_, left)| left.has(position))
}

// The least position of a span that is free, or that is not, or the span's end.
fn first(log: &[Entry], held: &[(u64, Span)], bounds: &[u64], span: Span, free: bool) -> u64 {
    if is_free(log, held, span.s) == free {
        return span.s;
    }
    let mut first = span.e;
    for bound in bounds {
        if span.has(*bound) && is_free(log, held, *bound) == free {
            first = first.min(*bound);
        }
    }
    first
}

/// The least position of a range that isn't filled after a log, if there is one.
pub fn first_unfilled(alloc: Global, log: &[Entry], range: Span) -> Result<Option<u64>, NoMemory> {
    let bounds = bounds(alloc, log)?;
    let first = first(log, &[], bounds.as_slice(), range, true);
    Ok((first < range.e).then_some(first))
}

fn is_offered(log: &[Entry], peer: u64, part: u16) -> bool {
    let mut offered = false;
    for entry in log {
        match &entry.event {
            Event::Offer(other, bits) if *other == peer => {
                offered = bits.as_slice().get(usize::from(part)) == Some(&true);
            }
            _ => {}
        }
    }
    offered
}

// The peers of these tests have the numbers 0 to 3.
fn offer_count(log: &[Entry], part: u16) -> u8 {
    let mut count = 0_u8;
    for peer in 0..4 {
        if is_offered(log, peer, part) {
            count = count.saturating_add(1);
        }
    }
    count
}

fn add_runs(
    log: &[Entry],
    held: &[(u64, Span)],
    bounds: &[u64],
    size: u64,
    part: u16,
    spans: &mut Vec<Span>,
) -> Result<(), NoMemory>
    requires size { IsSize size }
    requires exists { part < data_parts size }
{
    for number in 0..block_count(size, part) {
        let block = block_range(size, part, number);
        let start = first(log, held, bounds, block, true);
        if start < block.e && spans.len() < 3 {
            let rest = Span {
                s: start,
                e: block.e,
            };
            let end = first(log, held, bounds, rest, false);
            spans.push(Span { s: start, e: end })?;
        }
    }
    Ok(())
}

/// The spans that a peer is to reserve after a log: the first free run of each block of the parts that it
/// offers, the rarest part first, up to three.
pub fn pick(alloc: Global, size: u64, log: &[Entry], peer: u64) -> Result<Vec<Span>, NoMemory>
    requires { IsSize size }
{
    let held = held(alloc, log)?;
    let bounds = bounds(alloc, log)?;
    let mut spans = Vec::new(alloc);
    for count in 0..5 {
        for part in 0..data_parts(size) {
            if is_offered(log, peer, part) && offer_count(log, part) == count {
                add_runs(
                    log,
                    held.as_slice(),
                    bounds.as_slice(),
                    size,
                    part,
                    &mut spans,
                )?;
            }
        }
    }
    Ok(spans)
}

fn hashes(aim: Aim, log: &[Entry], set: &[[u8; 16]]) -> Option<DeskFault>
    requires { IsSize aim.size }
{
    if aim.size < PART {
        return Some(DeskFault::NotNeeded);
    }
    if !kept_set(log).is_empty() {
        return Some(DeskFault::AlreadySet);
    }
    match check_set(aim.size, aim.hash, set) {
        Ok(()) => None,
        Err(fault) => Some(DeskFault::Set(fault)),
    }
}

fn reserve(alloc: Global, aim: Aim, log: &[Entry], peer: u64) -> Result<Option<DeskFault>, NoMemory>
    requires { IsSize aim.size }
{
    if let Some(part) = first_worn(aim, log) {
        return Ok(Some(DeskFault::Worn(part)));
    }
    if lacks_set(aim, log) {
        return Ok(Some(DeskFault::NoSet));
    }
    let spans = pick(alloc, aim.size, log, peer)?;
    Ok(spans.is_empty().then_some(DeskFault::NoBlock))
}

fn verdict(alloc: Global, aim: Aim, log: &[Entry], part: u16) -> Result<Option<DeskFault>, NoMemory>
    requires size { IsSize aim.size }
    requires exists { part < data_parts aim.size }
{
    let range = part_range(aim.size, part);
    if let Some(position) = first_unfilled(alloc, log, range)? {
        return Ok(Some(DeskFault::NotFull(position)));
    }
    if is_uncommitted(log, range) {
        return Ok(Some(DeskFault::NotCommitted));
    }
    if lacks_set(aim, log) {
        return Ok(Some(DeskFault::NoSet));
    }
    match verdict_of(log, part) {
        Some(digest) => Ok(Some(DeskFault::Already(digest))),
        None => Ok(None),
    }
}

/// Why a call is refused after a log.
pub fn refusal(
    alloc: Global,
    aim: Aim,
    log: &[Entry],
    call: Call,
) -> Result<Option<DeskFault>, NoMemory>
    requires { IsSize aim.size }
{
    match call {
        Call::Hashes(set) => Ok(hashes(aim, log, &set)),
        Call::Reserve(peer) => reserve(alloc, aim, log, peer),
        Call::Write(peer, s, e) => {
            let held = held(alloc, log)?;
            let may = may_write(held.as_slice(), peer, Span { s, e });
            Ok((!may).then_some(DeskFault::NotHeld))
        }
        Call::Verdict(part, _) if part < data_parts(aim.size) => verdict(alloc, aim, log, part),
        Call::Dropped(part) => { Ok((!is_failed(aim, log, part)).then_some(DeskFault::NotFailed)) }
        _ => Ok(None),
    }
}
