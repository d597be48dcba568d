//! Where the newest offer of each peer stands in the log.

ghost use Rattle.std.specs.Prelude.{◌≡◌, ℕ, not, ◌==◌, ◌++◌, [], ◌∷◌, find, length, slice_index_or, count_by, vec_len, vec_capacity, ◌<◌, ◌≤◌, IfOk};
ghost use Rattle.std.specs.List.{All, filter};
ghost use Rattle.std.specs.Option.{option_map};
ghost use Rattle.reserve_core.specs.Choice.{offers_part};
ghost use Rattle.reserve_core.specs.Events.{events};
ghost use Rattle.reserve_core.specs.Tells.{OfferStands, bits_in};
ghost use Rattle.reserve_core.specs.declared.offers.Offerer.{Offerer};

use crate::choice::is_set;
use crate::event::{Entry, Event};
use ed2k_outside::NoMemory;
use std::alloc::Global;

/// A peer that offered, and the place of its newest offer in the log.
#[derive(Clone, Copy, Debug)]
pub struct Offerer {
    pub peer: u64,
    pub place: usize,
}

/// Puts the peer behind the others, with the place of its offer.
pub fn renew(offers: &mut Vec<Offerer>, peer: u64, place: usize)
    requires { vec_len offers.old < vec_capacity offers.old }
    ensures items { offers.new.items ≡ filter (λ offer. not (offer.peer == peer)) offers.old.items ++ record { peer = peer; place = place } ∷ [] }
{
    offers.retain(|offer| offer.peer != peer);
    offers.push_reserved(Offerer { peer, place });
}

/// The place of the peer's newest offer.
pub fn place_of(offers: &[Offerer], peer: u64) -> Option<usize>
    ensures { result ≡ option_map (λ offer. offer.place) (find (λ offer. offer.peer == peer) offers.now) }
{
    for offer in offers {
        if offer.peer == peer {
            return Some(offer.place);
        }
    }
    None
}

/// The bits of an offer.
pub fn bits_in(event: &Event) -> &[bool]
    ensures { result.now ≡ bits_in event.now }
{
    match event {
        Event::Offer(_, bits) => bits.as_slice(),
        _ => &[],
    }
}

/// How many peers have a part in their newest offer.
pub fn count(offers: &[Offerer], log: &[Entry], part: u16) -> u64
    requires { All (OfferStands log.now) offers.now }
    ensures { result ≡ count_by (λ offer. offers_part (events log.now) offer.peer part) offers.now }
{
    let mut count = 0;
    for offer in offers {
        if is_set(bits_in(&log[offer.place].event), part) {
            count += 1;
        }
    }
    count
}

/// These numbers, part by part. It takes a step for each peer and part.
pub fn counts(
    alloc: Global,
    offers: &[Offerer],
    log: &[Entry],
    parts: u16,
) -> Result<Vec<u64>, NoMemory>
    requires { All (OfferStands log.now) offers.now }
    ensures len { IfOk result (λ counts. length counts.items ≡ parts) }
    ensures each { IfOk result (λ counts. (i : ℕ) (d : ℕ)
        → i < parts
        → slice_index_or counts.items i d ≡ count_by (λ offer. offers_part (events log.now) offer.peer i) offers.now) }
{
    let mut counts = Vec::with_capacity(alloc, usize::from(parts))?;
    for part in 0..parts {
        counts.push(count(offers, log, part))?;
    }
    Ok(counts)
}
