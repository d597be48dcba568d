//! A search, by the list of one word or through all files.
ghost use Rattle.std.specs.Prelude.{◌≡◌, ◌+◌, ◌^◌, ◌<◌, ◌≤◌, ◌||◌, ℕ, true, List, [], ◌∷◌, ◌++◌, length, filter, OnOk, IfOk, nat_eq};
ghost use Rattle.std.specs.List.{list_any, list_all};
ghost use Rattle.std.specs.BTreeSet.{contains};
ghost use Rattle.std.specs.BTreeMap.Range.{IsLeBy, IsLtBy, range_contains};
ghost use Rattle.std.specs.Range.Bound.{IsForward};
ghost use Rattle.search_expr.specs.Query.{query};
ghost use Rattle.server_index.specs.Live.{File};
ghost use Rattle.server_index.specs.Asked.{Drives, Needs, asks};
ghost use Rattle.server_index.specs.Files.{IsListed};
ghost use Rattle.server_index.specs.Found as found;
ghost use Rattle.server_index.specs.Order.{posting_cmp};

use crate::file::{File, Found};
use crate::files::Files;
use crate::postings::{Hash, Posting, Spot};
use ed2k_outside::{Bytes, NoMemory};
use search_expr::{Expr, FileRow, matches_file};
use std::alloc::{AllocError, Global};
use std::collections::BTreeSet;
use std::ops::Bound;

/// The most files that a search finds.
pub const MOST: usize = 200;

/// Whether a live file is asked for.
fn matches(expr: &Expr, file: &File) -> bool
    ensures { result ≡ asks (query expr.now) file.now }
{
    matches_file(expr, file.name(), file.size(), file.kind())
}

fn is_above(after: &Option<Hash>, hash: &Hash) -> bool
    ensures { result ≡ found.is_above after.now hash.now }
{
    match after {
        Some(after) => after.cmp(hash).is_lt(),
        None => true,
    }
}

fn is_hash(last: &Option<Hash>, hash: &Hash) -> bool
    ensures { result ≡ found.is_hash last.now hash.now }
{
    match last {
        Some(last) => *last == *hash,
        None => false,
    }
}

fn copy(alloc: Global, bytes: &[u8]) -> Result<Bytes, AllocError>
    ensures { IfOk result (λ copied. copied ≡ bytes.now) }
{
    Ok(Bytes::new(bytes.to_vec(alloc)?))
}

/// What is told of a live file.
fn copy_row(alloc: Global, hash: Hash, file: &File) -> Result<FileRow, AllocError>
    ensures { IfOk result (λ row. row ≡ found.row_of hash file.now) }
{
    Ok(FileRow {
        hash,
        name: copy(alloc, file.name())?,
        size: file.size(),
        kind: copy(alloc, file.kind())?,
    })
}

fn tell(alloc: Global, spot: &Spot, file: &File) -> Result<Found, AllocError>
    ensures { IfOk result (λ told. told ≡ found.found_of (spot.now, file.now)) }
{
    let (id, port) = file.place();
    Ok(Found {
        row: copy_row(alloc, spot.0, file)?,
        id,
        port,
    })
}

/// Adds a live file to what was found, where it is asked for and its hash isn't told yet.
pub fn consider(
    alloc: Global,
    expr: &Expr,
    after: &Option<Hash>,
    last: &mut Option<Hash>,
    out: &mut Vec<Found>,
    spot: &Spot,
    file: &File,
) -> Result<(), AllocError>
    requires room { length out.old.items < 200 }
    ensures full { length out.new.items ≤ 200 }
    ensures ok { let is_hit = found.is_hit (asks (query expr.now)) after.now in
        OnOk result ((hits : List ((List ℕ × ℕ) × File)) → found.goes_on out.new.items last.new hits
        ≡ found.goes_on out.old.items last.old
        (filter is_hit ((spot.now, file.now) ∷ []) ++ hits)) }
{
    if is_above(after, &spot.0) && !is_hash(last, &spot.0) && matches(expr, file) {
        out.push(tell(alloc, spot, file)?)?;
        *last = Some(spot.0);
    }
    Ok(())
}

/// The part of the postings that has all spots of a word above a hash.
pub fn window(key: u64, after: &Option<Hash>) -> (Bound<Posting>, Bound<Posting>)
    requires low { 0 < key }
    requires high { key + 1 < 2 ^ 64 }
    ensures forward { IsForward (IsLeBy posting_cmp) (IsLtBy posting_cmp) result.0 result.1 }
    ensures reaches { (q : List ℕ × ℕ) → found.is_above after.now q.0 ≡ true
        → range_contains posting_cmp result.0 result.1 (key, q) ≡ true }
{
    let low = match after {
        Some(after) => (key, (*after, u64::MAX)),
        None => (key - 1, ([255; 16], u64::MAX)),
    };
    (
        Bound::Excluded(low),
        Bound::Excluded((key + 1, ([0; 16], 0))),
    )
}

/// Whether a spot stands in the list of each of these words. It is known to stand in that of `key`.
fn has_all(postings: &BTreeSet<Posting>, key: u64, others: &[u64], spot: Spot) -> bool
    ensures { result ≡ list_all
        (λ other. nat_eq other key || contains posting_cmp postings.now (other, spot)) others.now }
{
    others.iter().all(|other| *other == key || postings.contains(&(*other, spot)))
}

/// What is found by the list of a word that each file has which is asked for. Each has the words of `needed` too.
pub fn search_word(
    alloc: Global,
    files: &Files,
    expr: &Expr,
    key: u64,
    needed: &[u64],
    after: &Option<Hash>,
) -> Result<Vec<Found>, NoMemory>
    requires listed { IsListed files.now.live.entries files.now.postings.set }
    requires driven { Drives (query expr.now) (key ∷ []) }
    requires needed { Needs (query expr.now) needed.now }
    requires low { 0 < key }
    requires high { key + 1 < 2 ^ 64 }
    ensures ok { IfOk result (λ out. out.items
        ≡ found.found (asks (query expr.now)) after.now files.now.live.entries) }
{
    // A call that tells that the files are in order, which the proof needs.
    let _count = files.live.len();
    let mut out = Vec::new(alloc);
    let mut last = None;
    for posting in files.postings.set.range(window(key, after)) {
        if out.len() == MOST {
            break;
        }
        let (word, spot) = *posting;
        if word != key {
            continue;
        }
        if !has_all(&files.postings.set, key, needed, spot) {
            continue;
        }
        if let Some(file) = files.live.get(&spot) {
            consider(alloc, expr, after, &mut last, &mut out, &spot, file)?;
        }
    }
    Ok(out)
}

/// What is found among all files.
pub fn search_all(
    alloc: Global,
    files: &Files,
    expr: &Expr,
    after: &Option<Hash>,
) -> Result<Vec<Found>, NoMemory>
    ensures ok { IfOk result (λ out. out.items
        ≡ found.found (asks (query expr.now)) after.now files.now.live.entries) }
{
    let mut out = Vec::new(alloc);
    let mut last = None;
    for (spot, file) in files.live.iter() {
        if out.len() == MOST {
            break;
        }
        consider(alloc, expr, after, &mut last, &mut out, spot, file)?;
    }
    Ok(out)
}
