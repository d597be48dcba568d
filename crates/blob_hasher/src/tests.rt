//! The hashes of a blob beside those of its bytes, fed one after the other.

use super::{HashFault, hash_blob};
use ed2k_outside::{MemBlob, NoMemory};
use std::alloc::Global;
use std::test::Fail;

// A byte of the generated file of seed 1.
fn generated(place: u64) -> u8 {
    let word = (place / 8)
        .wrapping_mul(1_442_695_040_888_963_407)
        .wrapping_add(6_364_136_223_846_793_005);
    let mixed = (word ^ (word >> 33)).wrapping_mul(0xff51_afd7_ed55_8ccd);
    let bytes = (mixed ^ (mixed >> 33)).to_le_bytes();
    bytes[(place % 8) as usize]
}

// A blob of the first bytes of the generated file, whose calls of these numbers fail.
fn generated_blob(alloc: Global, size: u64, fails: &[u64]) -> Result<MemBlob, NoMemory> {
    let mut bytes = Vec::with_capacity(alloc, size as usize)?;
    for place in 0..size {
        bytes.push(generated(place))?;
    }
    Ok(MemBlob::new(bytes, Vec::from_slice(alloc, fails)?))
}

// A root in two words, as digits are read: sixteen bytes and the last four.
fn digits(hash: [u8; 20]) -> (u128, u32) {
    let [a, b, c, d, e, f, g, h, i, j, k, l, m, n, o, p, q, r, s, t] = hash;
    (
        u128::from_be_bytes([a, b, c, d, e, f, g, h, i, j, k, l, m, n, o, p]),
        u32::from_be_bytes([q, r, s, t]),
    )
}

#[test]
fn sizes_around_four_blocks_and_four_parts(rt: HostRuntime) -> Result<(), Fail> {
    // Sizes, file hashes and roots by another implementation, and the number of part hashes.
    let rows: [(u64, u128, (u128, u32), usize); 7] = [
        (
            1,
            0x15da1fdc79921cb05b8ba2f4c244e3bb,
            (0xfe5dbbcea5ce7e2988b8c69bcfdfde89, 0x04aabc1f),
            0,
        ),
        (
            184_321,
            0xab8b498a5a1baeb681a2f4412d4d22a1,
            (0xdc6a7e7aaf5ec119501cfa59565d3f8f, 0x969f45e5),
            0,
        ),
        (
            737_279,
            0x99203e90548993235269e9a387e1261d,
            (0x2d5e640ca1aa4069f61e856930b105b4, 0xf3c1aa5c),
            0,
        ),
        (
            737_280,
            0xd5053db98f8271751ebc59ad7d610280,
            (0x75a3aa74eb37ad35fb185e410fdf0fc6, 0x7c68a248),
            0,
        ),
        (
            737_281,
            0xea3fd616690539701504b6f76e21ec60,
            (0xb1d167fc4394a5912da16eda76a96b02, 0x846abd52),
            0,
        ),
        (
            9_728_000,
            0x2863584e52d45719545f0a4134c3b0e0,
            (0x8cfcf77e982168f5ea97940404479542, 0x19752f54),
            2,
        ),
        (
            39_649_281,
            0x892d14ea738d623a2a0b84d75f1aea40,
            (0x8b95c721ee3a29c751f8baa20c71061f, 0xd93d8fc5),
            5,
        ),
    ];
    for (size, hash, root, members) in rows {
        let mut blob = generated_blob(rt.alloc(), size, &[])?;
        match hash_blob(rt.alloc(), &mut blob) {
            Ok(found) => {
                assert_eq!(rt; u128::from_be_bytes(found.hash), hash, "{size}");
                assert_eq!(rt; digits(found.tree.root()), root, "{size}");
                assert_eq!(rt; found.set.len(), members, "{size}");
                assert_eq!(rt; found.tree.size(), size);
            }
            Err(fault) => assert!(rt; false, "{size}: {fault:?}"),
        }
    }
    Ok(())
}

#[test]
fn refusals(rt: HostRuntime) -> Result<(), Fail> {
    let mut none = generated_blob(rt.alloc(), 0, &[])?;
    assert_eq!(rt;
        hash_blob(rt.alloc(), &mut none).err(),
        Some(HashFault::BadSize)
    );
    let mut failing = generated_blob(rt.alloc(), 737_281, &[3])?;
    assert_eq!(rt;
        hash_blob(rt.alloc(), &mut failing).err(),
        Some(HashFault::Blob)
    );
    Ok(())
}
