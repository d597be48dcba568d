//! Hash sets of files that other programs hashed too, and sets that lie.
ghost use Rattle.std.specs.Prelude.{◌<◌};

use super::{Hash, SetFault, SetHasher, check_set};
use ed2k_outside::NoMemory;
use md4_hash::Md4;
use part_sizes::{Hashes, SIZE_LIMIT};
use std::alloc::Global;
use std::test::Fail;

// A file of one whole part: its part hash, the hash of no bytes, and the file's hash, by another
// implementation.
const PART_HASH: u128 = 0x0c9de707b2556b056b481b6c098d1aa7;

const NO_BYTES: u128 = 0x31d6cfe0d16ae931b73c59d7e0c089c0;

const FILE_HASH: u128 = 0x2863584e52d45719545f0a4134c3b0e0;
// The hash over the part hash and sixteen bytes 7.
const FORGED_HASH: u128 = 0x9e11c0e1725bcbb2f9538872003dc9c8;

#[test]
fn sets_of_one_whole_part(rt: HostRuntime) {
    let part = PART_HASH.to_be_bytes();
    let file = FILE_HASH.to_be_bytes();
    let right = [part, NO_BYTES.to_be_bytes()];
    assert_eq!(rt; check_set(9_728_000, file, &right), Ok(()));

    let forged = check_set(9_728_000, FORGED_HASH.to_be_bytes(), &[part, [7; 16]]);
    assert_eq!(rt; forged, Err(SetFault::EmptyPart { found: [7; 16] }));

    let one = check_set(9_728_000, file, &right[..1]);
    assert_eq!(rt;
        one,
        Err(SetFault::Count {
            found: 1,
            wanted: 2
        })
    );

    let other = (FILE_HASH ^ (1 << 127)).to_be_bytes();
    let mismatch = check_set(9_728_000, other, &right);
    assert_eq!(rt; mismatch, Err(SetFault::Mismatch { found: file }));
}

#[test]
fn sets_of_a_wrong_number(rt: HostRuntime) {
    let rows: [(u64, u64); 10] = [
        (1, 0),
        (184_320, 0),
        (184_321, 0),
        (9_727_999, 0),
        (9_728_000, 2),
        (9_728_001, 2),
        (20_000_000, 3),
        (734_003_200, 76),
        (4_290_047_999, 441),
        (4_290_048_000, 442),
    ];
    for (size, wanted) in rows {
        assert!(rt; size >= 1 && size <= SIZE_LIMIT);
        let one = check_set(size, [0; 16], &[[0; 16]]);
        assert_eq!(rt; one, Err(SetFault::Count { found: 1, wanted }), "{size}");
        assert_eq!(rt;
            check_set(size, [0; 16], &[]).is_ok(),
            wanted == 0,
            "{size}"
        );
    }
}

// A byte of the generated file of seed 1.
fn generated(place: u64) -> u8 {
    let word = (place / 8)
        .wrapping_mul(1_442_695_040_888_963_407)
        .wrapping_add(6_364_136_223_846_793_005);
    let mixed = (word ^ (word >> 33)).wrapping_mul(0xff51_afd7_ed55_8ccd);
    let bytes = (mixed ^ (mixed >> 33)).to_le_bytes();
    bytes[(place % 8) as usize]
}

fn hashed(alloc: Global, bytes: &[u8], step: usize) -> Result<(Hash, Hashes), NoMemory>
    requires { 0 < step }
{
    let mut hasher = SetHasher::new(alloc);
    for piece in bytes.chunks(step) {
        hasher.feed(piece)?;
    }
    match hasher.finish() {
        Ok(found) => Ok(found),
        Err((_, refused)) => Err(refused),
    }
}

#[test]
fn generated_files(rt: HostRuntime) -> Result<(), Fail> {
    // The size, the file's hash by another implementation, and the number of members.
    let rows: [(u64, u128, usize); 4] = [
        (0, NO_BYTES, 0),
        (1_000_000, 0x830483b81a69d4d388295f2a37bae061, 0),
        (9_728_000, FILE_HASH, 2),
        (9_728_001, 0xa149690790e35c2b6fcb86ce5124f7c9, 2),
    ];
    for (size, wanted, members) in rows {
        let mut bytes = Vec::new(rt.alloc());
        for place in 0..size {
            bytes.push(generated(place))?;
        }
        for step in [65_536, 9_000_001, 10_000_000] {
            assert!(rt; step > 0);
            let (hash, set) = hashed(rt.alloc(), &bytes, step)?;
            assert_eq!(rt; u128::from_be_bytes(hash), wanted, "{size}");
            assert_eq!(rt; set.len(), members, "{size}");
        }
    }
    Ok(())
}

#[test]
fn a_part_hashed_elsewhere(rt: HostRuntime) -> Result<(), Fail> {
    let mut part = Md4::new();
    part.update(b"abc");
    let mut hasher = SetHasher::new(rt.alloc());
    hasher.append(part, 3)?;
    let hash = hasher
        .finish()
        .ok()
        .map(|found| u128::from_be_bytes(found.0));
    assert_eq!(rt; hash, Some(0xa448017aaf21d8525fc10ae87aa6729d));
    Ok(())
}
