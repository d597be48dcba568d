//! Recovery data of a part, taken or refused.
ghost use Rattle.std.specs.Prelude.{◌≡◌, ◌≢◌, ◌<◌, List, ℕ, None, Some, length, IfOk, MatchResult};
ghost use Rattle.part_sizes.specs.Block.{block_count};
ghost use Rattle.part_sizes.specs.Part.{IsSize, data_parts};
ghost use Rattle.aich_packet.specs.Judging.{packet_fault};
ghost use Rattle.aich_packet.specs.Packet.{Packet};

use crate::fault::PacketFault;
use crate::judging;
use part_sizes::Roots;
use std::alloc::Global;

/// The hashes of a part's leaves, from left to right, out of recovery data that gives this root of a file
/// of this size.
///
/// The data is a u16 count and so many pairs of a u16 identifier and a hash, in any order; two bytes and
/// more behind them are ignored. The refusals are those of [`PacketFault`], of which the first that applies
/// is answered, in its order. `NoMemory` may come in place of any answer.
///
/// The count is compared with the bytes and then with the path, which has at most 62 identifiers, before
/// memory is taken for pairs. So a pair is compared with at most 61 others, and the work is linear in the
/// data.
pub fn prove(
    alloc: Global,
    size: u64,
    root: [u8; 20],
    part: u16,
    packet: &[u8],
) -> Result<Roots, PacketFault>
    requires size { IsSize size }
    requires exists { part < data_parts size }
    // What is taken is recovery data under the root.
    ensures found { IfOk result (λ leaves. Packet size root part packet.now leaves) }
    ensures count { IfOk result (λ leaves. length leaves ≡ block_count size part) }
    // Recovery data under the root is taken, unless memory is refused.
    ensures only { (leaves : List (List ℕ)) → Packet size root part packet.now leaves →
        MatchResult result (λ found. found ≡ leaves) (λ fault. fault ≡ PacketFault.NoMemory) }
    // Which fault it is.
    ensures fault { MatchResult result
        (λ _. packet_fault size root part packet.now ≡ None)
        (λ fault. fault ≢ PacketFault.NoMemory → packet_fault size root part packet.now ≡ Some fault) }
{
    judging::judge(alloc, size, root, part, packet)
}
