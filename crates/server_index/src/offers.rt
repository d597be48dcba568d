//! An offer of a session: all of its files, or none where memory is refused.
ghost use Rattle.std.specs.Prelude.{vec_len, vec_capacity, ◌≡◌, ◌≤◌, ◌<◌, ◌+◌, ◌||◌, ◌++◌, [], nat_lt, true, false, None, ℕ, List, reverse, OnErr, OnOk, IfOk, IsSome, filter, not, nat_eq, length, take, ◌∷◌, if◌then◌else◌};
ghost use Rattle.std.specs.BTreeSet.{BTreeSet, IsSubset};
ghost use Rattle.search_expr.specs.declared.expr.FileRow.{FileRow};
ghost use Rattle.server_index.specs.Order.{posting_cmp};
ghost use Rattle.server_index.specs.Files.{IsKept, IsListed, IsSwept, file_at};
ghost use Rattle.server_index.specs.Offers.{offered, replaced, undone, IsUndoable, IsOwned, files_of, held, live};

use crate::file::File;
use crate::files::{Files, put, remove, withdraw};
use crate::postings::{Hash, Postings, Spot};
use ed2k_outside::NoMemory;
use search_expr::FileRow;
use std::alloc::Global;
use std::collections::BTreeMap;

/// The most files of a session.
const MOST: usize = 10_000;

/// Who offers: the number of the session, its id and its port.
#[derive(Clone, Copy)]
pub struct Owner {
    pub number: u64,
    pub id: u32,
    pub port: u16,
}

/// A spot that changed, and the file that stood there.
type Change = (Spot, Option<File>);

/// Puts a file, or none, in the stead of the one that is there, and gives that out. No memory.
fn put_back(live: &mut BTreeMap<Spot, File>, spot: Spot, old: Option<File>) -> Option<File>
    requires there { IsSome (file_at live.old.entries spot) }
    ensures gives { result ≡ file_at live.old.entries spot }
    ensures replaced { (q : List ℕ × ℕ) → file_at live.new.entries q
        ≡ replaced (file_at live.old.entries) spot old q }
{
    match old {
        None => live.remove(&spot),
        Some(file) => match live.insert(spot, file) {
            Ok(current) => current,
            Err(refused) => {
                let (_, file) = refused.value;
                Some(file)
            }
        },
    }
}

/// Keeps a file that was there for later, where there is room.
fn note(displaced: &mut Vec<Change>, spot: Spot, current: Option<File>)
    requires room { vec_len displaced.old < vec_capacity displaced.old }
    ensures noted { displaced.new.items ≡ displaced.old.items ++ (spot, current) ∷ [] }
    ensures len { vec_len displaced.new ≡ vec_len displaced.old + 1 }
    ensures capacity { vec_capacity displaced.old ≤ vec_capacity displaced.new }
{
    let _ = displaced.push((spot, current));
}

/// Takes the changes back, the newest first. No memory. The files that they had put are given out.
fn roll_back(
    live: &mut BTreeMap<Spot, File>,
    changes: &mut Vec<Change>,
    displaced: &mut Vec<Change>,
)
    requires undoable { IsUndoable (reverse changes.old.items) (file_at live.old.entries) }
    requires room { vec_len displaced.old + vec_len changes.old ≤ vec_capacity displaced.old }
    ensures noted { (postings : BTreeSet (ℕ × (List ℕ × ℕ)))
        → IsSwept live.old.entries postings (changes.old.items ++ displaced.old.items)
        → IsSwept live.new.entries postings displaced.new.items }
    ensures restored { (q : List ℕ × ℕ) → file_at live.new.entries q
        ≡ undone (reverse changes.old.items) (file_at live.old.entries) q }
{
    while let Some((spot, old)) = changes.pop() {
        let current = put_back(live, spot, old);
        note(displaced, spot, current);
    }
}

/// Takes the spots of files that are gone away from the words that the files now there don't have. No memory.
fn settle(live: &BTreeMap<Spot, File>, postings: &mut Postings, gone: &mut Vec<Change>)
    requires listed { IsListed live.now.entries postings.old.set }
    requires swept { IsSwept live.now.entries postings.old.set gone.old.items }
    ensures listed { IsListed live.now.entries postings.new.set }
    ensures swept { IsSwept live.now.entries postings.new.set [] }
{
    while let Some((spot, old)) = gone.pop() {
        if let Some(file) = old {
            withdraw(live, postings, file.name(), spot);
        }
    }
}

/// Whether a session that holds so many files takes one, whose hash it has or not.
fn takes(present: bool, held: usize) -> bool
    ensures { result ≡ (present || nat_lt held 10000) }
{
    present || held < MOST
}

/// Takes one file of an offer, or passes it over where the session has its most. A refusal changes nothing.
fn take_row(
    alloc: Global,
    files: &mut Files,
    changes: &mut Vec<Change>,
    displaced: &mut Vec<Change>,
    hashes: &mut Vec<Hash>,
    owner: Owner,
    row: FileRow,
) -> Result<bool, NoMemory>
    requires kept { IsKept files.old }
    requires undoable { IsUndoable (reverse changes.old.items) (file_at files.old.live.entries) }
    requires owned { IsOwned owner.number hashes.old.items files.old.live.entries }
    requires counted { length hashes.old.items ≡ held owner.number files.old.live.entries }
    requires room { vec_len displaced.old < vec_capacity displaced.old }
    requires swept { let gone = changes.old.items ++ displaced.old.items in
        IsSwept files.old.live.entries files.old.postings.set gone }
    ensures swept { let gone = changes.new.items ++ displaced.new.items in
        IsSwept files.new.live.entries files.new.postings.set gone }
    ensures room { vec_capacity displaced.old ≤ vec_capacity displaced.new }
    ensures noted { vec_len displaced.new ≤ vec_len displaced.old + 1 }
    ensures changes { vec_len changes.new ≤ vec_len changes.old + 1 }
    ensures kept { IsKept files.new }
    ensures undoable { IsUndoable (reverse changes.new.items) (file_at files.new.live.entries) }
    ensures owned { IsOwned owner.number hashes.new.items files.new.live.entries }
    ensures counted { length hashes.new.items ≡ held owner.number files.new.live.entries }
    ensures grown { IsSubset posting_cmp files.old.postings.set files.new.postings.set }
    ensures undone { (q : List ℕ × ℕ) → undone (reverse changes.new.items) (file_at files.new.live.entries) q
        ≡ undone (reverse changes.old.items) (file_at files.old.live.entries) q }
    ensures others { (q : List ℕ × ℕ) → nat_eq q.1 owner.number ≡ false
        → file_at files.new.live.entries q ≡ file_at files.old.live.entries q }
    ensures begins { take (length hashes.old.items) hashes.new.items ≡ hashes.old.items }
    ensures longer { length hashes.old.items ≤ length hashes.new.items }
    ensures unchanged { OnErr result (changes.new.items ≡ changes.old.items) }
    ensures none { OnOk result (displaced.new.items ≡ displaced.old.items) }
    ensures ok { IfOk result (λ took. (taken : ℕ) (rest : List FileRow) →
        offered owner (if took then taken + 1 else taken) files.new.live.entries rest
        ≡ offered owner taken files.old.live.entries (row ∷ rest)) }
{
    let hash = row.hash;
    let spot = (hash, owner.number);
    let _count = files.live.len();
    let present = files.live.contains_key(&spot);
    if !takes(present, hashes.len()) {
        return Ok(false);
    }
    changes.reserve(1)?;
    hashes.reserve(1)?;
    let file = File::new(alloc, owner, row)?;
    let old = match put(files, spot, file) {
        Ok(old) => old,
        Err(file) => {
            note(displaced, spot, Some(file));
            return Err(NoMemory);
        }
    };
    changes.push((spot, old))?;
    if !present {
        hashes.push(hash)?;
    }
    Ok(true)
}

/// Takes the files of an offer in order, and answers how many. After a refusal all is as it was.
pub fn offer_rows(
    alloc: Global,
    files: &mut Files,
    hashes: &mut Vec<Hash>,
    owner: Owner,
    rows: Vec<FileRow>,
) -> Result<u64, NoMemory>
    requires kept { IsKept files.old }
    requires owned { IsOwned owner.number hashes.old.items files.old.live.entries }
    requires counted { length hashes.old.items ≡ held owner.number files.old.live.entries }
    requires swept { IsSwept files.old.live.entries files.old.postings.set [] }
    ensures kept { IsKept files.new }
    ensures owned { IsOwned owner.number hashes.new.items files.new.live.entries }
    ensures counted { length hashes.new.items ≡ held owner.number files.new.live.entries }
    ensures swept { IsSwept files.new.live.entries files.new.postings.set [] }
    ensures others { (q : List ℕ × ℕ) → nat_eq q.1 owner.number ≡ false
        → file_at files.new.live.entries q ≡ file_at files.old.live.entries q }
    ensures other_files { (n : ℕ) → nat_eq n owner.number ≡ false
        → files_of n files.new.live.entries ≡ files_of n files.old.live.entries }
    ensures ok { IfOk result (λ taken. (taken, files.new.live.entries)
        ≡ offered owner 0 files.old.live.entries rows.items) }
    ensures err { OnErr result (files.new.live.entries ≡ files.old.live.entries) }
    ensures err_hashes { OnErr result (hashes.new.items ≡ hashes.old.items) }
{
    let _count = files.live.len();
    let held = hashes.len();
    let hash_count = files.hashes;
    // Room for what each file displaces, and for one that is refused.
    let mut displaced = Vec::with_capacity(alloc, rows.len().saturating_add(1))?;
    let mut changes = Vec::new(alloc);
    let mut taken = 0;
    for row in rows {
        match take_row(
            alloc,
            files,
            &mut changes,
            &mut displaced,
            hashes,
            owner,
            row,
        ) {
            Ok(true) => taken += 1,
            Ok(false) => {}
            Err(refused) => {
                roll_back(&mut files.live, &mut changes, &mut displaced);
                settle(&files.live, &mut files.postings, &mut displaced);
                files.hashes = hash_count;
                hashes.truncate(held);
                let _count = files.live.len();
                return Err(refused);
            }
        }
    }
    settle(&files.live, &mut files.postings, &mut changes);
    let _left = files.live.len();
    Ok(taken)
}

/// Takes all files of a session away. No memory.
pub fn remove_all(files: &mut Files, hashes: &[Hash], number: u64)
    requires kept { IsKept files.old }
    requires owned { IsOwned number hashes.now files.old.live.entries }
    requires swept { IsSwept files.old.live.entries files.old.postings.set [] }
    ensures kept { IsKept files.new }
    ensures swept { IsSwept files.new.live.entries files.new.postings.set [] }
    ensures others { (q : List ℕ × ℕ) → nat_eq q.1 number ≡ false
        → file_at files.new.live.entries q ≡ file_at files.old.live.entries q }
    ensures other_files { (n : ℕ) → nat_eq n number ≡ false
        → files_of n files.new.live.entries ≡ files_of n files.old.live.entries }
    ensures none { (q : List ℕ × ℕ) → nat_eq q.1 number ≡ true → file_at files.new.live.entries q ≡ None }
    ensures gone { files.new.live.entries ≡ filter (λ x. not (nat_eq x.0.1 number)) files.old.live.entries }
{
    let _count = files.live.len();
    for hash in hashes {
        remove(files, (*hash, number));
    }
    let _left = files.live.len();
}
