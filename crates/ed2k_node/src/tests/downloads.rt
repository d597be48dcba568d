//! `get` of files of one and of three parts, from one peer in memory.

use crate::tests::runs::{FROM, Seen, seen_of_get};
use crate::tests::same::assert_same;
use crate::tests::streams::{
    ABC, Say, append_bytes, counted_bytes, file_stream, hash_set, opcodes, talk_then,
};
use client_msgs::{Hash, MsgFault};
use part_hashset::SetFault;
use part_sizes::PART;
use peer_fetch::Cause;
use std::alloc::Global;
use std::process::Abort;
use std::test::Fail;

const SMALL: &str = "ed2k://|file|abc|3|A448017AAF21D8525FC10AE87AA6729D|/";

/// A file of 0 to 250 again and again; its hash and those of its parts are by another
/// implementation.
const LARGE: &str = "ed2k://|file|counted|19456007|E7B9077AC276CF453936BE559C950284|/";

const LARGE_WITH_PARTS: &str = concat!(
    "ed2k://|file|counted|19456007|E7B9077AC276CF453936BE559C950284|p=91C008DFF530BE53D16BDF71EE9BA342:",
    "54F7576746E704FD5C2903DDB7E96ACB:989D5B1A7DAEB574D247F2DE92BBC306|/",
);

/// Its hash.
const COUNTED: Hash = [
    0xE7, 0xB9, 0x07, 0x7A, 0xC2, 0x76, 0xCF, 0x45, 0x39, 0x36, 0xBE, 0x55, 0x9C, 0x95, 0x02, 0x84,
];

/// The size of the file of three parts.
const LARGE_SIZE: usize = 19_456_007;

/// The opcode of a request for a hash set.
const SET_REQUEST: u8 = 0x51;

const NO_SET: Cause = Cause::BadSet(SetFault::Count {
    found: 0,
    wanted: 3,
});

const COMPRESSED: Cause = Cause::BadMsg(MsgFault::Compressed);

/// Downloads the file of a link from one peer that says these bytes. Nothing fails.
fn get(alloc: Global, link: &str, stream: Vec<u8>) -> Result<Seen, Fail> {
    seen_of_get(alloc, &["get", link, "p", FROM], stream)
}

/// Downloads the file of three parts from a peer that says these hashes, if any.
fn downloads(
    rt: &impl Abort,
    alloc: Global,
    link: &str,
    said: &[Hash],
    bytes: &[u8],
) -> Result<(), Fail> {
    let seen = get(alloc, link, file_stream(alloc, COUNTED, said, bytes)?)?;
    assert_same(rt, &seen.status, &0, &link);
    assert!(rt; seen.body.as_slice() == bytes, "{link}");
    assert_same(rt, &seen.cause, &Some(Cause::NoBlock), &link);
    let sent = seen.sent.ok_or("the wire wasn't given back")?;
    let asks = opcodes(alloc, &sent)?.contains(&SET_REQUEST);
    assert_same(rt, &asks, &(!said.is_empty()), &link);
    Ok(())
}

#[test]
fn downloads_a_file_of_three_parts(rt: HostRuntime) -> Result<(), Fail> {
    let alloc = rt.alloc();
    let bytes = counted_bytes(alloc, LARGE_SIZE)?;
    let (hash, set) = hash_set(alloc, &bytes)?;
    assert_eq!(rt; hash, COUNTED);
    downloads(&rt, alloc, LARGE, set.as_slice(), &bytes)?;
    downloads(&rt, alloc, LARGE_WITH_PARTS, &[], &bytes)
}

/// Where a wrong piece is sent so often, and then the right one, this is left.
fn asks_again(
    rt: &impl Abort,
    alloc: Global,
    times: usize,
    status: u8,
    log: &[u8],
) -> Result<(), Fail> {
    let mut says = vec![in alloc; Say::Piece(ABC, 0, b"abd"); times]?;
    says.push(Say::Piece(ABC, 0, b"abc"))?;
    let seen = get(alloc, SMALL, talk_then(alloc, 4, &says)?)?;
    assert_same(rt, &seen.status, &status, &times);
    assert_same(rt, &seen.letters.as_slice(), &log, &times);
    let is_right = seen.body.as_slice() == b"abc".as_slice();
    assert_same(rt, &is_right, &(status == 0), &times);
    Ok(())
}

#[test]
fn asks_again_for_a_part_that_failed(rt: HostRuntime) -> Result<(), Fail> {
    let alloc = rt.alloc();
    asks_again(&rt, alloc, 0, 0, b"Oorwcv")?;
    asks_again(&rt, alloc, 1, 0, b"Oorwcvdrwcv")?;
    let seven = b"Oorwcvdrwcvdrwcvdrwcvdrwcvdrwcvdrwcvdrwcv";
    asks_again(&rt, alloc, 7, 0, seven)?;
    let eight = b"Oorwcvdrwcvdrwcvdrwcvdrwcvdrwcvdrwcvdrwcvd";
    asks_again(&rt, alloc, 8, 10, eight)
}

/// A peer that has a wrong byte in the middle of three parts, and then sends that part rightly.
fn wrong_middle(alloc: Global, bytes: &[u8]) -> Result<Vec<u8>, Fail> {
    let (hash, set) = hash_set(alloc, bytes)?;
    let mut wrong = bytes.to_vec(alloc)?;
    if let Some(byte) = wrong.get_mut(PART as usize + 500_000) {
        *byte ^= 1;
    }
    let mut stream = file_stream(alloc, hash, set.as_slice(), &wrong)?;
    let middle = bytes
        .get(PART as usize..2 * PART as usize)
        .ok_or("a short file")?;
    append_bytes(alloc, &mut stream, hash, PART as u32, middle)?;
    Ok(stream)
}

/// Of a log's letters those of verdicts and of what was dropped.
fn judged(alloc: Global, letters: &[u8]) -> Result<Vec<u8>, Fail> {
    let mut judged = Vec::new(alloc);
    for letter in letters {
        if *letter == b'v' || *letter == b'd' {
            judged.push(*letter)?;
        }
    }
    Ok(judged)
}

#[test]
fn asks_again_for_the_middle_of_three_parts(rt: HostRuntime) -> Result<(), Fail> {
    let alloc = rt.alloc();
    let bytes = counted_bytes(alloc, LARGE_SIZE)?;
    let seen = get(alloc, LARGE, wrong_middle(alloc, &bytes)?)?;
    assert_eq!(rt; seen.status, 0);
    let judged = judged(alloc, &seen.letters)?;
    assert_eq!(rt; judged.as_slice(), b"vvdvv".as_slice());
    assert!(rt; seen.body.as_slice() == bytes.as_slice());
    Ok(())
}

/// Behind a hello the peer says this, and a status and a cause come of it.
fn lacks(
    rt: &impl Abort,
    alloc: Global,
    link: &str,
    says: &[Say],
    status: u8,
    why: Cause,
) -> Result<(), Fail> {
    let seen = get(alloc, link, talk_then(alloc, 1, says)?)?;
    assert_same(rt, &seen.status, &status, &says);
    assert_same(rt, &seen.cause, &Some(why), &says);
    Ok(())
}

#[test]
fn tells_that_a_hash_set_is_lacking(rt: HostRuntime) -> Result<(), Fail> {
    const ROWS: [(&[Say], Cause); 4] = [
        (&[Say::Status(COUNTED, &[])], Cause::Ended),
        (&[Say::Status(COUNTED, &[]), Say::Accept], Cause::Ended),
        (
            &[Say::Status(COUNTED, &[]), Say::NoFile(COUNTED)],
            Cause::NoFile,
        ),
        (&[Say::Status(COUNTED, &[]), Say::Set(COUNTED, &[])], NO_SET),
    ];
    for (says, why) in ROWS {
        lacks(&rt, rt.alloc(), LARGE, says, 13, why)?;
    }
    Ok(())
}

#[test]
fn tells_that_parts_are_lacking(rt: HostRuntime) -> Result<(), Fail> {
    const ROWS: [(&[Say], Cause); 2] = [
        (&[Say::Status(COUNTED, &[]), Say::Accept], Cause::Ended),
        (
            &[Say::Status(COUNTED, &[false; 3]), Say::Accept],
            Cause::NoBlock,
        ),
    ];
    for (says, why) in ROWS {
        lacks(&rt, rt.alloc(), LARGE_WITH_PARTS, says, 3, why)?;
    }
    Ok(())
}

#[test]
fn tells_that_a_small_file_is_lacking(rt: HostRuntime) -> Result<(), Fail> {
    const ROWS: [(&[Say], Cause); 5] = [
        (&[], Cause::Ended),
        (&[Say::NoFile(ABC)], Cause::NoFile),
        (&[Say::Status(ABC, &[]), Say::EMule(0x40, &[])], COMPRESSED),
        (&[Say::Status(ABC, &[false]), Say::Accept], Cause::NoBlock),
        (&[Say::Status(ABC, &[true, true])], Cause::BadStatus(2)),
    ];
    for (says, why) in ROWS {
        lacks(&rt, rt.alloc(), SMALL, says, 3, why)?;
    }
    Ok(())
}
