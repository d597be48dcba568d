//! A search by the lists of several words, of which each file that is asked for has one.
ghost use Rattle.std.specs.Prelude.{◌≡◌, ◌+◌, ◌^◌, ◌<◌, ℕ, Some, true, List, OnOk, IfOk};
ghost use Rattle.std.specs.BTreeSet.{IsSubset, contains};
ghost use Rattle.search_expr.specs.Query.{query};
ghost use Rattle.server_index.specs.Live.{File};
ghost use Rattle.server_index.specs.Asked.{Drives, asks};
ghost use Rattle.server_index.specs.Files.{IsListed, file_at};
ghost use Rattle.server_index.specs.Found.{found, is_above, is_hit};
ghost use Rattle.server_index.specs.Order.{posting_cmp};

use crate::file::Found;
use crate::files::Files;
use crate::postings::{Hash, Posting};
use crate::search::{MOST, consider, search_all, window};
use ed2k_outside::NoMemory;
use search_expr::Expr;
use std::alloc::{AllocError, Global};
use std::collections::BTreeSet;

/// The key of all spots of several lists as one.
const MERGED: u64 = 1;

/// Adds the spots above a hash that a word has to a merged list.
fn collect(
    list: &mut BTreeSet<Posting>,
    postings: &BTreeSet<Posting>,
    key: u64,
    after: &Option<Hash>,
) -> Result<(), AllocError>
    requires low { 0 < key }
    requires high { key + 1 < 2 ^ 64 }
    ensures grown { OnOk result (IsSubset posting_cmp list.old list.new) }
    ensures all { OnOk result ((q : List ℕ × ℕ) → is_above after.now q.0 ≡ true
        → contains posting_cmp postings.now (key, q) ≡ true
        → contains posting_cmp list.new (1, q) ≡ true) }
{
    for posting in postings.range(window(key, after)) {
        list.insert((MERGED, posting.1))?;
    }
    Ok(())
}

/// What is found by a merged list that has the spot of each file that is asked for.
fn search_list(
    alloc: Global,
    files: &Files,
    expr: &Expr,
    list: &BTreeSet<Posting>,
    after: &Option<Hash>,
) -> Result<Vec<Found>, NoMemory>
    requires reached { (q : List ℕ × ℕ) (f : File) → file_at files.now.live.entries q ≡ Some f
        → is_hit (asks (query expr.now)) after.now (q, f) ≡ true
        → contains posting_cmp list.now (1, q) ≡ true }
    ensures ok { IfOk result (λ out. out.items
        ≡ found (asks (query expr.now)) after.now files.now.live.entries) }
{
    // Calls that tell that the files and the list are in order, which the proof needs.
    let _count = files.live.len();
    let _spots = list.len();
    let mut out = Vec::new(alloc);
    let mut last = None;
    for posting in list.iter() {
        if out.len() == MOST {
            break;
        }
        let (word, spot) = *posting;
        if word != MERGED {
            continue;
        }
        if let Some(file) = files.live.get(&spot) {
            consider(alloc, expr, after, &mut last, &mut out, &spot, file)?;
        }
    }
    Ok(out)
}

/// What is found by the lists of these keys, of which each file that is asked for has one.
pub fn search_any(
    alloc: Global,
    files: &Files,
    expr: &Expr,
    keys: &[u64],
    after: &Option<Hash>,
) -> Result<Vec<Found>, NoMemory>
    requires listed { IsListed files.now.live.entries files.now.postings.set }
    requires driven { Drives (query expr.now) keys.now }
    ensures ok { IfOk result (λ out. out.items
        ≡ found (asks (query expr.now)) after.now files.now.live.entries) }
{
    let mut list = BTreeSet::new(alloc);
    for key in keys {
        if *key == 0 || *key == u64::MAX {
            return search_all(alloc, files, expr, after);
        }
        collect(&mut list, &files.postings.set, *key, after)?;
    }
    search_list(alloc, files, expr, &list, after)
}
