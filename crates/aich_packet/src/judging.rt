//! What is wrong with the pairs of recovery data.
ghost use Rattle.std.specs.Prelude.{◌≡◌, ◌≢◌, ◌<◌, ◌==◌, [], None, Some, map, IfOk, MatchResult};
ghost use Rattle.std.specs.List.{list_any};
ghost use Rattle.part_sizes.specs.Part.{IsSize, data_parts};
ghost use Rattle.aich_packet.specs.Judging.{first_twice, first_wrong, idents_fault, packet_fault};
ghost use Rattle.aich_packet.specs.Layout.{pairs_of};
ghost use Rattle.aich_packet.specs.Packet.{hash_of, idents_of};
ghost use Rattle.aich_packet.specs.Way.{leaves_on};

use crate::fault::PacketFault;
use crate::layout::{Pair, count_pairs, read_pairs};
use crate::{folding, way};
use part_sizes::{Roots, block_count};
use std::alloc::Global;

/// True exactly where a pair has this identifier.
fn have(pairs: &[Pair], ident: u32) -> bool
    ensures { result ≡ list_any (λ pair. pair.ident == ident) pairs.now }
{
    pairs.iter().any(|pair| pair.ident == ident)
}

/// The identifier of the first pair that stands in an earlier pair too.
fn find_twice(pairs: &[Pair]) -> Option<u32>
    ensures { result ≡ first_twice [] (idents_of pairs.now) }
{
    for (place, pair) in pairs.iter().enumerate() {
        if have(&pairs[..place], pair.ident) {
            return Some(pair.ident);
        }
    }
    None
}

/// The identifier of the first pair that isn't on the path.
fn find_wrong(path: &[u32], pairs: &[Pair]) -> Option<u32>
    ensures { result ≡ first_wrong path.now (idents_of pairs.now) }
{
    for pair in pairs {
        if !path.contains(&pair.ident) {
            return Some(pair.ident);
        }
    }
    None
}

/// Judges recovery data, and answers the leaves' hashes.
pub fn judge(
    alloc: Global,
    size: u64,
    root: [u8; 20],
    part: u16,
    packet: &[u8],
) -> Result<Roots, PacketFault>
    requires size { IsSize size }
    requires exists { part < data_parts size }
    ensures fault { MatchResult result
        (λ _. packet_fault size root part packet.now ≡ None)
        (λ fault. fault ≢ PacketFault.NoMemory → packet_fault size root part packet.now ≡ Some fault) }
    ensures leaves { IfOk result (λ leaves. leaves ≡ map (hash_of (pairs_of packet.now)) (leaves_on size part)) }
{
    let Some(found) = count_pairs(packet) else {
        return Err(PacketFault::Cut);
    };
    let path = way::path(alloc, size, part)?;
    let wanted = path.len() as u32;
    if found != wanted {
        return Err(PacketFault::Count { found, wanted });
    }
    let pairs = read_pairs(alloc, packet, found)?;
    judge_pairs(&path, &pairs)?;
    let folded = folding::fold(&pairs, size, part);
    if folded != root {
        return Err(PacketFault::RootDiffers(folded));
    }
    let leaves = &path[path.len() - usize::from(block_count(size, part))..];
    Ok(Roots::new(folding::hashes_of(alloc, &pairs, leaves)?))
}

/// Judges the identifiers of pairs that are as many as those of the path.
fn judge_pairs(path: &[u32], pairs: &[Pair]) -> Result<(), PacketFault>
    ensures { MatchResult result
        (λ _. idents_fault path.now pairs.now ≡ None)
        (λ fault. idents_fault path.now pairs.now ≡ Some fault) }
{
    if let Some(ident) = find_twice(pairs) {
        return Err(PacketFault::Twice(ident));
    }
    match find_wrong(path, pairs) {
        Some(ident) => Err(PacketFault::WrongIdent(ident)),
        None => Ok(()),
    }
}
