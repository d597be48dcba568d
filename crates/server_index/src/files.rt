//! The live files and their postings, one file at a time.
ghost use Rattle.std.specs.Prelude.{◌≡◌, ◌||◌, ℕ, true, IfOk, IfErr, OnErr, IfSome, OnOk, None, Some, List, [], not, nat_eq};
ghost use Rattle.std.specs.BTreeMap.{insert_entry};
ghost use Rattle.std.specs.BTreeSet.{IsSubset, contains};
ghost use Rattle.server_index.specs.Order.{spot_cmp, posting_cmp};
ghost use Rattle.server_index.specs.Files.{IsListed, IsKept, IsSwept, file_at};
ghost use Rattle.server_index.specs.Found.{absent};
ghost use Rattle.server_index.specs.Offers.{replaced};
ghost use Rattle.server_index.specs.Postings.{has_word, is_of, names};

use crate::file::File;
use crate::postings::{Hash, Postings, Spot, add_words, drop_words};
use std::alloc::Global;
use std::collections::BTreeMap;

/// The live files by hash and then by number, the postings of their names, and the number of their hashes.
#[derive(Drop)]
pub struct Files {
    pub live: BTreeMap<Spot, File>,
    pub postings: Postings,
    pub hashes: u64,
}

impl Files {
    /// No files. No memory.
    pub fn new(alloc: Global) -> Self
        ensures empty { result.live.entries ≡ [] }
        ensures kept { IsKept result }
        ensures swept { IsSwept result.live.entries result.postings.set [] }
    {
        Files {
            live: BTreeMap::new(alloc),
            postings: Postings::new(alloc),
            hashes: 0,
        }
    }
}

/// 1 where no live file has this hash, else 0.
pub fn absent(live: &BTreeMap<Spot, File>, hash: &Hash) -> u64
    ensures { result ≡ absent hash.now live.now.entries }
{
    match live.range((*hash, 0)..).next() {
        Some((spot, _)) => { if spot.0 == *hash { 0 } else { 1 } }
        None => 1,
    }
}

/// Puts a file at its spot, and answers the one that was there. After a refusal the file comes back, some words
/// of its name may have the spot, and all else is as it was.
pub fn put(files: &mut Files, spot: Spot, file: File) -> Result<Option<File>, File>
    requires kept { IsKept files.old }
    ensures kept { IsKept files.new }
    ensures grown { IsSubset posting_cmp files.old.postings.set files.new.postings.set }
    ensures added { (q : ℕ × (List ℕ × ℕ)) → contains posting_cmp files.new.postings.set q ≡ true
        → (contains posting_cmp files.old.postings.set q || is_of spot file.name q) ≡ true }
    ensures old { IfOk result (λ old. old ≡ file_at files.old.live.entries spot) }
    ensures ok { OnOk result (files.new.live.entries
        ≡ insert_entry spot_cmp files.old.live.entries spot file) }
    ensures updates { OnOk result ((q : List ℕ × ℕ) → file_at files.new.live.entries q
        ≡ replaced (file_at files.old.live.entries) spot (Some file) q) }
    ensures err { OnErr result (files.new.live.entries ≡ files.old.live.entries) }
    ensures back { IfErr result (λ refused. refused ≡ file) }
{
    if add_words(&mut files.postings, file.name(), spot).is_err() {
        return Err(file);
    }
    let new_hashes = absent(&files.live, &spot.0);
    match files.live.insert(spot, file) {
        Ok(old) => {
            let _count = files.live.len();
            files.hashes += new_hashes;
            Ok(old)
        }
        Err(refused) => {
            let (_, file) = refused.value;
            Err(file)
        }
    }
}

/// Takes the spot away from the words of a name that the file there, if any, doesn't have. No memory.
pub fn withdraw(live: &BTreeMap<Spot, File>, postings: &mut Postings, name: &[u8], spot: Spot)
    requires listed { IsListed live.now.entries postings.old.set }
    ensures listed { IsListed live.now.entries postings.new.set }
    ensures gone { (key : ℕ) → has_word name.now key ≡ true
        → contains posting_cmp postings.new.set (key, spot) ≡ true
        → names (file_at live.now.entries spot) key ≡ true }
    ensures fewer { IsSubset posting_cmp postings.new.set postings.old.set }
{
    match live.get(&spot) {
        Some(file) => drop_words(postings, name, file.name(), spot),
        None => drop_words(postings, name, &[], spot),
    }
}

/// Takes a file away. No memory.
pub fn remove(files: &mut Files, spot: Spot)
    requires kept { IsKept files.old }
    requires swept { IsSwept files.old.live.entries files.old.postings.set [] }
    ensures kept { IsKept files.new }
    ensures swept { IsSwept files.new.live.entries files.new.postings.set [] }
    ensures updates { (q : List ℕ × ℕ) → file_at files.new.live.entries q
        ≡ replaced (file_at files.old.live.entries) spot None q }
{
    if let Some(file) = files.live.remove(&spot) {
        withdraw(&files.live, &mut files.postings, file.name(), spot);
        files.hashes -= absent(&files.live, &spot.0);
    }
}
