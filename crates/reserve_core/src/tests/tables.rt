//! Downloads of several parts, as tables of calls and answers.

use super::calls::{Call, Download};
use crate::DeskFault;
use part_hashset::SetFault;
use part_sizes::Span;
use std::test::Fail;

// The members of a set, and the file's hash over them by another implementation.
const SET: [[u8; 16]; 3] = [[1; 16], [2; 16], [3; 16]];

const SET_HASH: u128 = 0x45cccdb8402ea302ae3c87bcb7af03bd;

// A set of another file, and the hash over it.
const OTHER_SET: [[u8; 16]; 3] = [[1; 16], [2; 16], [2; 16]];

const OTHER_HASH: [u8; 16] = [
    0x26, 0x5e, 0x14, 0x5c, 0xe5, 0x53, 0x6e, 0x08, 0xa8, 0x69, 0xb2, 0x0b, 0x11, 0x31, 0x70, 0xd0,
];

// Calls in turn, and the refusal of each.
const REFUSALS: [(Call, Option<DeskFault>); 34] = [
    (Call::Verdict(0, 1), Some(DeskFault::NotFull(9_727_997))),
    (Call::Reserve(1), Some(DeskFault::NoSet)),
    (
        Call::Hashes(OTHER_SET),
        Some(DeskFault::Set(SetFault::Mismatch { found: OTHER_HASH })),
    ),
    (Call::Hashes(SET), None),
    (Call::Hashes(OTHER_SET), Some(DeskFault::AlreadySet)),
    (Call::Reserve(1), Some(DeskFault::NoBlock)),
    (Call::Offer(1, [true, false, false]), None),
    (Call::Offer(2, [true, false, false]), None),
    (Call::Reserve(1), None),
    (Call::Reserve(2), Some(DeskFault::NoBlock)),
    (
        Call::Write(1, 9_727_998, 9_728_000),
        Some(DeskFault::NotHeld),
    ),
    (
        Call::Write(1, 9_727_997, 9_728_001),
        Some(DeskFault::NotHeld),
    ),
    (
        Call::Write(2, 9_727_997, 9_727_998),
        Some(DeskFault::NotHeld),
    ),
    (Call::Write(1, 9_727_997, 9_727_998), None),
    (
        Call::Write(1, 9_727_997, 9_727_998),
        Some(DeskFault::NotHeld),
    ),
    (Call::Release(1), None),
    (
        Call::Write(1, 9_727_998, 9_728_000),
        Some(DeskFault::NotHeld),
    ),
    (Call::Reserve(2), None),
    (Call::Verdict(0, 1), Some(DeskFault::NotFull(9_727_998))),
    (Call::Write(2, 9_727_998, 9_728_000), None),
    (Call::Verdict(0, 1), Some(DeskFault::NotCommitted)),
    (Call::Commit, None),
    (Call::Dropped(0), Some(DeskFault::NotFailed)),
    (Call::Verdict(0, 9), None),
    (Call::Verdict(0, 1), Some(DeskFault::Already([9; 16]))),
    (Call::Dropped(0), None),
    (Call::Dropped(0), Some(DeskFault::NotFailed)),
    (Call::Verdict(0, 1), Some(DeskFault::NotFull(0))),
    (Call::Reserve(1), None),
    (Call::Reserve(1), None),
    (Call::Release(1), None),
    (Call::Release(1), None),
    (Call::Commit, None),
    (Call::Reserve(2), None),
];

#[test]
fn each_refusal_in_its_place(rt: HostRuntime) -> Result<(), Fail> {
    let filled = Span { s: 0, e: 9_727_997 };
    let hash = SET_HASH.to_be_bytes();
    let mut download = Download::new(rt.alloc(), 19_456_003, hash, filled)?;
    download.check_in_turn(&rt, rt.alloc(), &REFUSALS)?;
    Ok(())
}

// The set, and what three peers have.
const OFFERS: [(Call, Option<DeskFault>); 4] = [
    (Call::Hashes(SET), None),
    (Call::Offer(1, [true, true, false]), None),
    (Call::Offer(2, [true, false, true]), None),
    (Call::Offer(3, [true, true, true]), None),
];

// What comes before a peer reserves, the peer, and the start and end of the three runs that it gets then.
const CHOICES: [(Call, u64, [(u64, u64); 3]); 6] = [
    // The rarest parts first, and of those the least.
    (
        Call::Commit,
        3,
        [
            (9_728_000, 9_912_320),
            (9_912_320, 10_096_640),
            (10_096_640, 10_280_960),
        ],
    ),
    // Three runs out of four.
    (
        Call::Release(3),
        2,
        [
            (19_456_000, 19_640_320),
            (19_640_320, 19_824_640),
            (19_824_640, 20_008_960),
        ],
    ),
    // A newer offer counts, and the first run of the block with a gap.
    (
        Call::Offer(1, [true, false, false]),
        1,
        [(0, 500), (184_320, 368_640), (368_640, 552_960)],
    ),
    // The last block of part 2, and what is neither filled nor held of part 0.
    (
        Call::Write(2, 19_456_000, 19_500_000),
        2,
        [(20_008_960, 20_009_060), (600, 184_320), (552_960, 737_280)],
    ),
    // Part 2 is held whole.
    (
        Call::Offer(3, [true, false, true]),
        3,
        [
            (737_280, 921_600),
            (921_600, 1_105_920),
            (1_105_920, 1_290_240),
        ],
    ),
    // What was written stays, and all else of the peer is free again.
    (
        Call::Release(2),
        2,
        [
            (19_500_000, 19_640_320),
            (19_640_320, 19_824_640),
            (19_824_640, 20_008_960),
        ],
    ),
];

#[test]
fn three_peers_and_their_offers(rt: HostRuntime) -> Result<(), Fail> {
    // Part 0 has a gap in its first block, and part 2 has four blocks.
    let filled = Span { s: 500, e: 600 };
    let hash = SET_HASH.to_be_bytes();
    let mut download = Download::new(rt.alloc(), 20_009_060, hash, filled)?;
    download.check_in_turn(&rt, rt.alloc(), &OFFERS)?;
    for (call, peer, ends) in CHOICES {
        download.check_in_turn(&rt, rt.alloc(), &[(call, None)])?;
        download.check_spans(&rt, rt.alloc(), peer, ends)?;
    }
    Ok(())
}

// What comes before a part of three bytes is judged.
const FIRST: [(Call, Option<DeskFault>); 2] = [
    (Call::Hashes(SET), Some(DeskFault::NotNeeded)),
    (Call::Offer(1, [true; 3]), None),
];

// The part fails, and is filled again.
const FAILURE: [(Call, Option<DeskFault>); 6] = [
    (Call::Verdict(0, 8), None),
    (Call::Reserve(1), Some(DeskFault::NoBlock)),
    (Call::Dropped(0), None),
    (Call::Reserve(1), None),
    (Call::Write(1, 0, 3), None),
    (Call::Commit, None),
];

// The part fails once more than it may.
const WORN: [(Call, Option<DeskFault>); 4] = [
    (Call::Verdict(0, 8), None),
    (Call::Reserve(1), Some(DeskFault::Worn(0))),
    (Call::Dropped(0), None),
    (Call::Reserve(2), Some(DeskFault::Worn(0))),
];

#[test]
fn a_part_is_worn_at_eight(rt: HostRuntime) -> Result<(), Fail> {
    let filled = Span { s: 0, e: 3 };
    let mut download = Download::new(rt.alloc(), 3, [7; 16], filled)?;
    download.check_in_turn(&rt, rt.alloc(), &FIRST)?;
    for _ in 0..7 {
        download.check_in_turn(&rt, rt.alloc(), &FAILURE)?;
    }
    download.check_in_turn(&rt, rt.alloc(), &WORN)?;
    Ok(())
}
