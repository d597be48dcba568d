//! Recovery data of another implementation, and what is made here.
ghost use Rattle.std.specs.Prelude.{◌≡◌, length, IfOk};
ghost use Rattle.part_sizes.specs.Part.{IsSize};

use super::{PacketFault, make_packet, prove};
use crate::way;
use aich_tree::{Tree, TreeHasher};
use ed2k_outside::NoMemory;
use part_sizes::{SIZE_LIMIT, data_parts};
use std::alloc::{AllocError, Global};
use std::process::Abort;
use std::test::Fail;

// Recovery data of part 2 of a file of 20,000,000 bytes in which the hash of node `x` is the SHA-1 of `x`
// in decimal digits, and the root that it gives, by another implementation.
const PACKET: [u8; 92] = [
    0x04, 0x00, 0x03, 0x00, 0x77, 0xde, 0x68, 0xda, 0xec, 0xd8, 0x23, 0xba, 0xbb, 0xb5, 0x8e, 0xdb,
    0x1c, 0x8e, 0x14, 0xd7, 0x10, 0x6e, 0x83, 0xbb, 0x05, 0x00, 0xac, 0x34, 0x78, 0xd6, 0x9a, 0x3c,
    0x81, 0xfa, 0x62, 0xe6, 0x0f, 0x5c, 0x36, 0x96, 0x16, 0x5a, 0x4e, 0x5e, 0x6a, 0xc4, 0x09, 0x00,
    0x0a, 0xde, 0x7c, 0x2c, 0xf9, 0x7f, 0x75, 0xd0, 0x09, 0x97, 0x5f, 0x4d, 0x72, 0x0d, 0x1f, 0xa6,
    0xc1, 0x9f, 0x48, 0x97, 0x08, 0x00, 0xfe, 0x5d, 0xbb, 0xce, 0xa5, 0xce, 0x7e, 0x29, 0x88, 0xb8,
    0xc6, 0x9b, 0xcf, 0xdf, 0xde, 0x89, 0x04, 0xaa, 0xbc, 0x1f, 0x00, 0x00,
];

const ROOT: [u8; 20] = [
    0xd3, 0x94, 0xce, 0x69, 0x5c, 0xb9, 0x00, 0x6d, 0x8d, 0xc6, 0xa5, 0xbe, 0xf0, 0x98, 0xe1, 0xce,
    0x6f, 0x84, 0x14, 0x09,
];

const SIZE: u64 = 20_000_000;

#[test]
fn data_of_a_last_part(rt: HostRuntime) -> Result<(), Fail> {
    let leaves = prove(rt.alloc(), SIZE, ROOT, 2, &PACKET)?;
    assert_eq!(rt; leaves.len(), 3);
    let rows: [(usize, usize); 3] = [(0, 26), (1, 48), (2, 70)];
    for (leaf, place) in rows {
        assert!(rt; leaf < leaves.len());
        assert_eq!(rt;
            leaves.as_slice()[leaf].as_slice(),
            &PACKET[place..place + 20]
        );
    }
    // A byte in place of another, and the fault.
    let faults: [(usize, u8, PacketFault); 7] = [
        (46, 5, PacketFault::Twice(5)),
        (46, 7, PacketFault::WrongIdent(7)),
        (47, 1, PacketFault::WrongIdent(265)),
        (
            0,
            3,
            PacketFault::Count {
                found: 3,
                wanted: 4,
            },
        ),
        (
            0,
            0,
            PacketFault::Count {
                found: 0,
                wanted: 4,
            },
        ),
        (0, 5, PacketFault::Cut),
        (1, 1, PacketFault::Cut),
    ];
    for (place, byte, fault) in faults {
        let mut packet = PACKET;
        assert!(rt; place < 92);
        packet[place] = byte;
        let answer = prove(rt.alloc(), SIZE, ROOT, 2, &packet);
        assert_eq!(rt; answer.err(), Some(fault));
    }
    Ok(())
}

#[test]
fn data_that_ends_early(rt: HostRuntime) {
    let rows: [(usize, bool); 8] = [
        (0, false),
        (1, false),
        (20, false),
        (89, false),
        (90, true),
        (91, false),
        (92, true),
        (2, false),
    ];
    for (end, whole) in rows {
        assert!(rt; end <= 92);
        let answer = prove(rt.alloc(), SIZE, ROOT, 2, &PACKET[..end]);
        assert_eq!(rt; answer.is_ok(), whole, "{end}");
        if !whole {
            assert_eq!(rt; answer.err(), Some(PacketFault::Cut), "{end}");
        }
    }
}

// The pairs from the last to the first, and nothing behind them.
fn reversed(alloc: Global) -> Result<Vec<u8>, AllocError> {
    let mut packet = Vec::from_slice(alloc, &PACKET[..2])?;
    for pair in [
        &PACKET[68..90],
        &PACKET[46..68],
        &PACKET[24..46],
        &PACKET[2..24],
    ] {
        packet.extend_from_slice(pair)?;
    }
    Ok(packet)
}

#[test]
fn pairs_in_another_order(rt: HostRuntime) -> Result<(), Fail> {
    let packet = reversed(rt.alloc())?;
    let leaves = prove(rt.alloc(), SIZE, ROOT, 2, &packet)?;
    let first = prove(rt.alloc(), SIZE, ROOT, 2, &PACKET)?;
    assert_eq!(rt; leaves.as_slice(), first.as_slice());
    Ok(())
}

// A copy in which one bit is another.
fn flipped(alloc: Global, bytes: &[u8], place: usize, bit: u8) -> Result<Vec<u8>, AllocError> {
    let mut copy = Vec::from_slice(alloc, bytes)?;
    if let Some(byte) = copy.get_mut(place) {
        *byte ^= bit;
    }
    Ok(copy)
}

#[test]
fn another_bit_gives_another_root(rt: HostRuntime) -> Result<(), Fail> {
    for place in [4, 23, 26, 45, 48, 89] {
        for bit in [1, 128] {
            let packet = flipped(rt.alloc(), &PACKET, place, bit)?;
            let answer = prove(rt.alloc(), SIZE, ROOT, 2, &packet);
            assert!(rt;
                matches!(&answer, Err(PacketFault::RootDiffers(_))),
                "{place}"
            );
        }
    }
    Ok(())
}

#[test]
fn paths(rt: HostRuntime) -> Result<(), Fail> {
    // Sizes and parts; how many identifiers, the first three and the last, by another implementation.
    let rows: [(u64, u16, usize, [u32; 3], u32); 9] = [
        (184_321, 0, 2, [3, 2, 0], 2),
        (9_728_000, 0, 53, [127, 126, 125], 64),
        (9_728_001, 0, 54, [2, 255, 254], 192),
        (20_000_000, 0, 55, [2, 6, 511], 448),
        (20_000_000, 1, 55, [2, 7, 447], 384),
        (734_003_200, 0, 60, [2, 6, 14], 16_320),
        (734_003_200, 75, 31, [3, 5, 9], 4_096),
        (4_290_048_000, 255, 62, [3, 4, 10], 46_592),
        (4_290_048_000, 440, 62, [3, 5, 9], 32_768),
    ];
    for (size, part, count, first, last) in rows {
        assert!(rt; size >= 1 && size <= SIZE_LIMIT);
        assert!(rt; part < data_parts(size));
        let idents = way::path(rt.alloc(), size, part)?;
        assert_eq!(rt; idents.len(), count);
        for (place, ident) in first.iter().enumerate() {
            assert_eq!(rt; idents.get(place).copied().unwrap_or(0), *ident);
        }
        assert_eq!(rt; idents.last().copied(), Some(last));
    }
    Ok(())
}

// The eight bytes of a word of the generated file of seed 1.
fn generated(word: u64) -> [u8; 8] {
    let mixed = word
        .wrapping_mul(1_442_695_040_888_963_407)
        .wrapping_add(6_364_136_223_846_793_005);
    let mixed = (mixed ^ (mixed >> 33)).wrapping_mul(0xff51_afd7_ed55_8ccd);
    (mixed ^ (mixed >> 33)).to_le_bytes()
}

fn generated_file(alloc: Global, size: usize) -> Result<Vec<u8>, NoMemory> {
    let mut bytes = Vec::with_capacity(alloc, size)?;
    for word in 0..size as u64 / 8 + 1 {
        bytes.extend_from_slice(&generated(word))?;
    }
    bytes.truncate(size);
    Ok(bytes)
}

fn tree_of(alloc: Global, bytes: &[u8]) -> Result<Tree, NoMemory>
    requires { IsSize (length bytes.now) }
    ensures { IfOk result (λ tree. tree ≡ bytes.now) }
{
    let mut hasher = TreeHasher::new(alloc, bytes.len() as u64);
    hasher.feed(bytes)?;
    match hasher.finish() {
        Ok(tree) => Ok(tree),
        Err((_, refused)) => Err(refused),
    }
}

// Data of each part is taken back, and with any bit of its count or its pairs changed it isn't.
fn check_parts(rt: &(impl Abort + AllocGlobal), size: usize) -> Result<(), Fail> {
    let bytes = generated_file(rt.alloc(), size)?;
    assert!(rt; bytes.len() >= 1 && bytes.len() as u64 <= SIZE_LIMIT);
    let tree = tree_of(rt.alloc(), &bytes)?;
    for part in 0..data_parts(tree.size()) {
        let packet = make_packet(rt.alloc(), &tree, part)?;
        let taken = prove(
            rt.alloc(),
            tree.size(),
            tree.root(),
            part,
            packet.as_slice(),
        )?;
        let leaves = tree.leaves(rt.alloc(), part)?;
        assert_eq!(rt; taken.as_slice(), leaves.as_slice());
        for place in 0..packet.len().saturating_sub(2) {
            for bit in [1, 2, 4, 8, 16, 32, 64, 128] {
                let other = flipped(rt.alloc(), packet.as_slice(), place, bit)?;
                let answer = prove(rt.alloc(), tree.size(), tree.root(), part, &other);
                assert!(rt; answer.is_err(), "{size} {part} {place}");
            }
        }
    }
    Ok(())
}

#[test]
fn each_bit_of_few_blocks_counts(rt: HostRuntime) -> Result<(), Fail> {
    for size in [1, 184_320, 184_321] {
        check_parts(&rt, size)?;
    }
    Ok(())
}

#[test]
fn each_bit_of_one_part_counts(rt: HostRuntime) -> Result<(), Fail> {
    check_parts(&rt, 9_728_000)
}

#[test]
fn each_bit_of_two_parts_counts(rt: HostRuntime) -> Result<(), Fail> {
    check_parts(&rt, 9_728_001)
}

#[test]
fn each_bit_of_three_parts_counts(rt: HostRuntime) -> Result<(), Fail> {
    check_parts(&rt, 20_000_000)
}
