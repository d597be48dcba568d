//! Blobs that are shared, read and taken out again, and blobs that aren't.

use super::{ShareFault, ShareList};
use ed2k_outside::{MemBlob, NoMemory};
use part_sizes::Span;
use std::alloc::Global;
use std::test::Fail;

// A byte of the generated file of seed 1.
fn generated(place: u64) -> u8 {
    let word = (place / 8)
        .wrapping_mul(1_442_695_040_888_963_407)
        .wrapping_add(6_364_136_223_846_793_005);
    let mixed = (word ^ (word >> 33)).wrapping_mul(0xff51_afd7_ed55_8ccd);
    let bytes = (mixed ^ (mixed >> 33)).to_le_bytes();
    bytes[(place % 8) as usize]
}

// A blob of the first bytes of the generated file, whose calls of these numbers fail.
fn generated_blob(alloc: Global, size: u64, fails: &[u64]) -> Result<MemBlob, NoMemory> {
    let mut bytes = Vec::with_capacity(alloc, size as usize)?;
    for place in 0..size {
        bytes.push(generated(place))?;
    }
    Ok(MemBlob::new(bytes, Vec::from_slice(alloc, fails)?))
}

#[test]
fn files_of_a_byte_a_part_and_a_byte_more(rt: HostRuntime) -> Result<(), Fail> {
    // Sizes, and file hashes by another implementation.
    let rows: [(u64, u128); 3] = [
        (1, 0x15da1fdc79921cb05b8ba2f4c244e3bb),
        (9_728_000, 0x2863584e52d45719545f0a4134c3b0e0),
        (9_728_001, 0xa149690790e35c2b6fcb86ce5124f7c9),
    ];
    for (size, wanted) in rows {
        let mut list = ShareList::new(rt.alloc());
        let blob = generated_blob(rt.alloc(), size, &[])?;
        match list.add("some name", blob) {
            Ok(hash) => {
                assert_eq!(rt; u128::from_be_bytes(hash), wanted, "{size}");
                assert_eq!(rt; list.find(&hash), Some(0));
            }
            Err((_, fault)) => assert!(rt; false, "{size}: {fault:?}"),
        }
        assert!(rt; list.pop().is_some() && list.len() == 0);
    }
    Ok(())
}

#[test]
fn blobs_that_are_refused(rt: HostRuntime) -> Result<(), Fail> {
    // Sizes, the call that fails, and the refusal: the first call asks for the size.
    let rows: [(u64, u64, ShareFault); 3] = [
        (0, 9, ShareFault::BadSize(0)),
        (7, 2, ShareFault::BlobFault),
        (737_281, 3, ShareFault::BlobFault),
    ];
    let mut list = ShareList::new(rt.alloc());
    for (size, failing, wanted) in rows {
        let blob = generated_blob(rt.alloc(), size, &[failing])?;
        match list.add("some name", blob) {
            Ok(_) => assert!(rt; false, "{size}"),
            Err((_, fault)) => assert_eq!(rt; fault, wanted, "{size}"),
        }
    }
    assert!(rt; list.pop().is_none());
    Ok(())
}
