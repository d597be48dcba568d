//! A search by an expression: by the lists of the fewest words of which each file that it asks for has one, or
//! through all files where it needs no word.
ghost use Rattle.std.specs.Prelude.{◌≡◌, ◌++◌, ◌<◌, length, map, OnOk, IfOk, IfSome};
ghost use Rattle.search_expr.specs.Query.{query};
ghost use Rattle.search_expr.specs.Needs.{needs};
ghost use Rattle.server_index.specs.Asked.{Drives, Needs, asks};
ghost use Rattle.server_index.specs.Files.{IsListed};
ghost use Rattle.server_index.specs.Found.{found};
ghost use Rattle.server_index.specs.Words.{key_of, keys};

use crate::counts::{Counts, count_of, rarest};
use crate::file::Found;
use crate::files::Files;
use crate::merged::search_any;
use crate::postings::Hash;
use crate::search::{search_all, search_word};
use crate::words::next_word;
use ed2k_outside::NoMemory;
use search_expr::{Expr, laws};
use std::alloc::{AllocError, Global};

fn add_keys(out: &mut Vec<u64>, text: &[u8]) -> Result<(), AllocError>
    ensures { OnOk result (out.new.items ≡ out.old.items ++ keys text.now) }
{
    let mut at = 0;
    while let Some(word) = next_word(text, at) {
        out.push(word.key)?;
        at = word.end;
    }
    Ok(())
}

/// Adds the keys of the words that each file has which is asked for.
fn add_needed(out: &mut Vec<u64>, expr: &Expr) -> Result<(), AllocError>
    ensures { OnOk result (out.new.items ≡ out.old.items ++ map key_of (needs (query expr.now))) }
{
    match expr {
        Expr::And(left, right) => {
            add_needed(out, left)?;
            add_needed(out, right)
        }
        Expr::Not(left, _) => add_needed(out, left),
        Expr::Word(text) => add_keys(out, text.as_slice()),
        Expr::TagText { value, name } if name.as_slice() == [1].as_slice() => {
            add_keys(out, value.as_slice())
        }
        _ => Ok(()),
    }
}

/// The rarest of the words that each file has which is asked for, if there is one.
fn rarest_needed(
    alloc: Global,
    counts: &Counts,
    expr: &Expr,
) -> Result<Option<Vec<u64>>, AllocError>
    ensures { IfOk result (λ some. IfSome some (λ keys. Drives (query expr.now) keys.items)) }
{
    let mut needed = Vec::new(alloc);
    add_needed(&mut needed, expr)?;
    laws::needs_keys();
    let keys = needed.as_slice();
    if keys.is_empty() {
        return Ok(None);
    }
    let mut out = Vec::new(alloc);
    out.push(keys[rarest(counts, keys)])?;
    Ok(Some(out))
}

/// Keys and more keys.
fn joined(keys: Vec<u64>, more: Vec<u64>) -> Result<Option<Vec<u64>>, AllocError>
    ensures { IfOk result (λ some. IfSome some (λ all. all.items ≡ keys.items ++ more.items)) }
{
    let mut all = keys;
    all.extend_from_slice(more.as_slice())?;
    Ok(Some(all))
}

/// A few keys of which each file has one which is asked for, if words tell it.
fn drivers(alloc: Global, counts: &Counts, expr: &Expr) -> Result<Option<Vec<u64>>, AllocError>
    ensures { IfOk result (λ some. IfSome some (λ keys. Drives (query expr.now) keys.items)) }
{
    match rarest_needed(alloc, counts, expr) {
        Err(refused) => return Err(refused),
        Ok(Some(keys)) => return Ok(Some(keys)),
        Ok(None) => {}
    }
    match expr {
        Expr::And(left, right) => match drivers(alloc, counts, left) {
            Err(refused) => Err(refused),
            Ok(Some(keys)) => Ok(Some(keys)),
            Ok(None) => drivers(alloc, counts, right),
        },
        Expr::Or(left, right) => match drivers(alloc, counts, left) {
            Err(refused) => Err(refused),
            Ok(None) => Ok(None),
            Ok(Some(keys)) => match drivers(alloc, counts, right) {
                Err(refused) => Err(refused),
                Ok(None) => Ok(None),
                Ok(Some(more)) => joined(keys, more),
            },
        },
        Expr::Not(left, _) => drivers(alloc, counts, left),
        _ => Ok(None),
    }
}

/// Whether the lists of these keys come to less than half of the files.
fn is_short(files: &Files, keys: &[u64]) -> bool {
    let mut total: u64 = 0;
    for key in keys {
        total = total.saturating_add(u64::from(count_of(&files.postings.counts, *key)));
    }
    total < files.live.len() as u64 / 2
}

/// What an expression finds.
pub fn search_expr(
    alloc: Global,
    files: &Files,
    expr: &Expr,
    after: &Option<Hash>,
) -> Result<Vec<Found>, NoMemory>
    requires listed { IsListed files.now.live.entries files.now.postings.set }
    ensures ok { IfOk result (λ out. out.items
        ≡ found (asks (query expr.now)) after.now files.now.live.entries) }
{
    let mut needed = Vec::new(alloc);
    add_needed(&mut needed, expr)?;
    laws::needs_keys();
    let keys = needed.as_slice();
    if !keys.is_empty() {
        let key = keys[rarest(&files.postings.counts, keys)];
        if 0 < key && key < u64::MAX {
            return search_word(alloc, files, expr, key, keys, after);
        }
    }
    if let Some(some) = drivers(alloc, &files.postings.counts, expr)? {
        if is_short(files, some.as_slice()) {
            return search_any(alloc, files, expr, some.as_slice(), after);
        }
    }
    search_all(alloc, files, expr, after)
}
