//! Roots and nodes of files that other programs hashed too.
ghost use Rattle.std.specs.Prelude.{◌≡◌, length, IfOk};
ghost use Rattle.part_sizes.specs.Part.{IsSize};

use super::{Tree, TreeHasher, ident_range};
use ed2k_outside::NoMemory;
use part_sizes::{SIZE_LIMIT, Span};
use std::alloc::Global;
use std::test::Fail;

// A byte of the generated file of seed 1.
fn generated(place: u64) -> u8 {
    let word = (place / 8)
        .wrapping_mul(1_442_695_040_888_963_407)
        .wrapping_add(6_364_136_223_846_793_005);
    let mixed = (word ^ (word >> 33)).wrapping_mul(0xff51_afd7_ed55_8ccd);
    let bytes = (mixed ^ (mixed >> 33)).to_le_bytes();
    bytes[(place % 8) as usize]
}

fn generated_file(alloc: Global, size: u64) -> Result<Vec<u8>, NoMemory> {
    let mut bytes = Vec::with_capacity(alloc, size as usize)?;
    for place in 0..size {
        bytes.push(generated(place))?;
    }
    Ok(bytes)
}

// The tree over bytes that are fed in two pieces.
fn tree_of(alloc: Global, bytes: &[u8], cut: usize) -> Result<Tree, NoMemory>
    requires { IsSize (length bytes.now) }
    ensures { IfOk result (λ tree. tree ≡ bytes.now) }
{
    let (front, behind) = bytes.split_at(cut.min(bytes.len()));
    let mut hasher = TreeHasher::new(alloc, bytes.len() as u64);
    hasher.feed(front)?;
    hasher.feed(behind)?;
    match hasher.finish() {
        Ok(tree) => Ok(tree),
        Err((_, refused)) => Err(refused),
    }
}

// A root in two words, as digits are read: sixteen bytes and the last four.
fn digits(hash: [u8; 20]) -> (u128, u32) {
    let [a, b, c, d, e, f, g, h, i, j, k, l, m, n, o, p, q, r, s, t] = hash;
    (
        u128::from_be_bytes([a, b, c, d, e, f, g, h, i, j, k, l, m, n, o, p]),
        u32::from_be_bytes([q, r, s, t]),
    )
}

#[test]
fn roots(rt: HostRuntime) -> Result<(), Fail> {
    // Sizes and roots, by another implementation.
    let rows: [(u64, (u128, u32)); 6] = [
        (184_320, (0xfa4ce8f5ae01ac6b0edd493a2a2f5c0d, 0xa869732f)),
        (184_321, (0xdc6a7e7aaf5ec119501cfa59565d3f8f, 0x969f45e5)),
        (552_960, (0x99f4fe58ddbba64d85a0358645d12c8b, 0xd0b9314e)),
        (1_000_000, (0x3024b426216b516e9aa082fb6137eb95, 0x39c64562)),
        (9_728_000, (0x8cfcf77e982168f5ea97940404479542, 0x19752f54)),
        (9_728_001, (0x8e2bfa825598dc631ed2b38b17602c1c, 0x8bf114c6)),
    ];
    for (size, root) in rows {
        let bytes = generated_file(rt.alloc(), size)?;
        assert!(rt; bytes.len() >= 1 && bytes.len() as u64 <= SIZE_LIMIT);
        for cut in [0, 184_321] {
            let tree = tree_of(rt.alloc(), &bytes, cut)?;
            assert_eq!(rt; digits(tree.root()), root, "{size}");
        }
    }
    Ok(())
}

#[test]
fn a_block_and_a_part_hashed_elsewhere(rt: HostRuntime) -> Result<(), Fail> {
    let bytes = generated_file(rt.alloc(), 184_320)?;
    assert_eq!(rt; bytes.len(), 184_320);
    let [hash, _, _, _] = sha1_lanes::digests(&bytes, &bytes, &bytes, &bytes);
    let mut part = TreeHasher::new(rt.alloc(), 184_320);
    part.feed_hashed(&bytes, hash)?;
    let mut hasher = TreeHasher::new(rt.alloc(), 184_320);
    hasher.append(part)?;
    let root = hasher.finish().ok().map(|tree| digits(tree.root()));
    assert_eq!(rt;
        root,
        Some((0xfa4ce8f5ae01ac6b0edd493a2a2f5c0d, 0xa869732f))
    );
    Ok(())
}

#[test]
fn nodes(rt: HostRuntime) -> Result<(), Fail> {
    let bytes = generated_file(rt.alloc(), 1_000_000)?;
    assert_eq!(rt; bytes.len(), 1_000_000);
    let tree = tree_of(rt.alloc(), &bytes, 65_536)?;
    // Identifiers and hashes, by another implementation.
    let rows: [(u32, (u128, u32)); 5] = [
        (3, (0x99f4fe58ddbba64d85a0358645d12c8b, 0xd0b9314e)),
        (2, (0x3cda19d0e673f75e208d66fc28ce6179, 0xdf4fbd8e)),
        (7, (0x47b204888bde9cefe8279ddd8d0b0b50, 0xe2cf0d70)),
        (14, (0xb9c216ac40bea15dd7825d543355a56c, 0xa7ef1c21)),
        (8, (0x4bfede2b859f1a8b28ec573b83cce5e9, 0x5be8d28b)),
    ];
    for (ident, hash) in rows {
        assert_eq!(rt; tree.node(ident).map(digits), Some(hash), "{ident}");
    }
    assert!(rt; tree.node(0).is_none() && tree.node(16).is_none());
    let leaves = tree.leaves(rt.alloc(), 0)?;
    assert_eq!(rt; leaves.len(), 6);
    Ok(())
}

#[test]
fn ranges(rt: HostRuntime) {
    let size = 20_000_000;
    let rows: [(u32, Option<(u64, u64)>); 10] = [
        (0, None),
        (1, Some((0, 20_000_000))),
        (3, Some((0, 19_456_000))),
        (2, Some((19_456_000, 20_000_000))),
        (7, Some((0, 9_728_000))),
        (6, Some((9_728_000, 19_456_000))),
        (5, Some((19_456_000, 19_640_320))),
        (9, Some((19_640_320, 19_824_640))),
        (8, Some((19_824_640, 20_000_000))),
        (10, None),
    ];
    for (ident, ends) in rows {
        let wanted = ends.map(|(s, e)| Span { s, e });
        assert_eq!(rt; ident_range(size, ident), wanted, "{ident}");
    }
}
