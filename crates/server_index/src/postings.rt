//! Which spots have a file with a word in its name.
ghost use Rattle.std.specs.Prelude.{◌≡◌, ◌||◌, ℕ, true, false, OnOk, List};
ghost use Rattle.std.specs.Ordering.{is_eq, nat_cmp};
ghost use Rattle.std.specs.BTreeSet.{IsSubset, contains};
ghost use Rattle.std.specs.BTreeSet as sets;
ghost use Rattle.std.specs.HashMap as counts;
ghost use Rattle.server_index.specs.Order.{spot_cmp, posting_cmp};
ghost use Rattle.server_index.specs.Postings.{has_word, is_of, lists};

use crate::counts::{Counts, count_down, count_up};
use crate::words::next_word;
use std::alloc::{AllocError, Global};
use std::collections::{BTreeSet, HashMap};

/// An MD4 hash.
pub type Hash = search_expr::Hash;

/// Where a live file stands: its hash, and the number of the session that offers it.
pub type Spot = (Hash, u64);

/// The key of a word, and the spot of a file that has the word in its name.
pub type Posting = (u64, Spot);

/// Postings in their order, and how many each key has. A count is a hint that may be too low.
#[derive(Drop)]
pub struct Postings {
    pub set: BTreeSet<Posting>,
    pub counts: Counts,
}

impl Postings {
    /// No postings. No memory.
    pub fn new(alloc: Global) -> Self
        ensures empty { sets.IsEmpty result.set }
        ensures uncounted { counts.IsEmpty result.counts }
    {
        Postings {
            set: BTreeSet::new(alloc),
            counts: HashMap::new(alloc),
        }
    }
}

/// Whether a word of the text has this key.
pub fn has_key(text: &[u8], key: u64) -> bool
    ensures { result ≡ has_word text.now key }
{
    let mut at = 0;
    while let Some(word) = next_word(text, at) {
        if key == word.key {
            return true;
        }
        at = word.end;
    }
    false
}

/// Puts a spot under each word of a name. On a refusal some words may have it.
pub fn add_words(postings: &mut Postings, name: &[u8], spot: Spot) -> Result<(), AllocError>
    ensures grown { IsSubset posting_cmp postings.old.set postings.new.set }
    ensures ok { OnOk result (lists postings.new.set name.now spot ≡ true) }
    ensures added { (q : ℕ × (List ℕ × ℕ)) → contains posting_cmp postings.new.set q ≡ true
        → (contains posting_cmp postings.old.set q || is_of spot name.now q) ≡ true }
{
    let mut at = 0;
    while let Some(word) = next_word(name, at) {
        let is_new = postings.set.insert((word.key, spot))?;
        count_up(&mut postings.counts, word.key, is_new);
        at = word.end;
    }
    Ok(())
}

/// Takes a spot away from each word of a name, but not from the words of `kept`. No memory.
pub fn drop_words(postings: &mut Postings, name: &[u8], kept: &[u8], spot: Spot)
    ensures kept { (key : ℕ) → has_word kept.now key ≡ true
        → contains posting_cmp postings.new.set (key, spot)
        ≡ contains posting_cmp postings.old.set (key, spot) }
    ensures gone { (key : ℕ) → has_word name.now key ≡ true → has_word kept.now key ≡ false
        → contains posting_cmp postings.new.set (key, spot) ≡ false }
    ensures fewer { IsSubset posting_cmp postings.new.set postings.old.set }
    ensures others { (q : ℕ × (List ℕ × ℕ)) → is_eq (spot_cmp spot q.1) ≡ false
        → contains posting_cmp postings.new.set q ≡ contains posting_cmp postings.old.set q }
{
    let mut at = 0;
    while let Some(word) = next_word(name, at) {
        if !has_key(kept, word.key) {
            let was_there = postings.set.remove(&(word.key, spot));
            count_down(&mut postings.counts, word.key, was_there);
        }
        at = word.end;
    }
}
