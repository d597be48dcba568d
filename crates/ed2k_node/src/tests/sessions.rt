//! Sessions over a wire in memory, with a part file in memory as the desk.

use crate::tests::same::assert_same;
use crate::tests::small_sessions::{Outside, SMOOTH, Seen, session, small_session};
use crate::tests::streams::{ABC, Say, counted_bytes, file_stream, hash_set, talk_then, talk_with};
use client_msgs::{Hash, MsgFault};
use ed2k_frame::FrameFault;
use part_hashset::SetFault;
use peer_fetch::Cause;
use std::alloc::Global;
use std::process::Abort;
use std::test::Fail;

/// The hash of another file than the one that is wanted.
const OTHER: Hash = [7; 16];

/// The MD4 of [`OTHER`] twice.
const TWICE_OTHER: Hash = [
    0x75, 0x7D, 0x54, 0x87, 0x29, 0xD2, 0x3D, 0x3B, 0xAF, 0x55, 0x0D, 0x89, 0x0C, 0x0F, 0xBC, 0xBB,
];

/// The hash of a file of 9,728,001 bytes, 0 to 250 again and again, by another implementation.
const TWO_PARTS: Hash = [
    0x07, 0x14, 0x9B, 0x89, 0xEF, 0xA2, 0x48, 0xC0, 0x3D, 0x7E, 0x2C, 0x5E, 0x73, 0x4D, 0x2D, 0x88,
];

/// The hashes of its parts.
const TWO_PARTS_SET: [Hash; 2] = [
    [
        0x91, 0xC0, 0x08, 0xDF, 0xF5, 0x30, 0xBE, 0x53, 0xD1, 0x6B, 0xDF, 0x71, 0xEE, 0x9B, 0xA3,
        0x42,
    ],
    [
        0xF2, 0xAF, 0xB5, 0x4A, 0x09, 0x4C, 0x03, 0x97, 0xE9, 0x96, 0x39, 0x74, 0x59, 0xE0, 0xD7,
        0xBB,
    ],
];

/// A status of it that counts two parts; its map is `FD`.
const LONG_MAP: [u8; 19] = [
    0x07, 0x14, 0x9B, 0x89, 0xEF, 0xA2, 0x48, 0xC0, 0x3D, 0x7E, 0x2C, 0x5E, 0x73, 0x4D, 0x2D, 0x88,
    0x02, 0x00, 0xFD,
];

/// The hash of such a file of 19,456,007 bytes.
const THREE_PARTS: Hash = [
    0xE7, 0xB9, 0x07, 0x7A, 0xC2, 0x76, 0xCF, 0x45, 0x39, 0x36, 0xBE, 0x55, 0x9C, 0x95, 0x02, 0x84,
];

/// The size of [`TWO_PARTS`].
const TWO_PARTS_SIZE: u64 = 9_728_001;

/// Read in pieces of this length, the smallest download ends with this log.
fn ends_alike(rt: &impl Abort, alloc: Global, piece: usize, log: &str) -> Result<(), Fail> {
    let seen = small_session(alloc, 5, &[], Outside { piece, ..SMOOTH })?;
    assert_same(rt, &seen.cause, &Cause::NoBlock, &piece);
    assert_same(rt, &seen.body.as_slice(), &b"abc".as_slice(), &piece);
    assert_same(rt, &seen.log.as_str(), &log, &piece);
    Ok(())
}

#[test]
fn ends_alike_over_pieces_of_every_length(rt: HostRuntime) -> Result<(), Fail> {
    let alloc = rt.alloc();
    let whole = small_session(alloc, 5, &[], SMOOTH)?;
    assert_eq!(rt; whole.letters.as_slice(), b"Oorwcv".as_slice());
    let len = talk_then(alloc, 5, &[])?.len();
    for piece in 1..=len {
        ends_alike(&rt, alloc, piece, whole.log.as_str())?;
    }
    Ok(())
}

/// Behind the first so many messages this is said; the opcodes that are sent, and the log.
fn goes(
    rt: &impl Abort,
    alloc: Global,
    count: usize,
    says: &[Say],
    sent: &[u8],
    log: &[u8],
) -> Result<(), Fail> {
    let seen = small_session(alloc, count, says, SMOOTH)?;
    assert_same(rt, &seen.opcodes.as_slice(), &sent, &count);
    assert_same(rt, &seen.letters.as_slice(), &log, &count);
    Ok(())
}

#[test]
fn goes_from_place_to_place(rt: HostRuntime) -> Result<(), Fail> {
    // So many messages are said; the opcodes that are sent, and the log.
    const ROWS: [(usize, &[u8], &[u8]); 6] = [
        (0, &[0x01], b"O"),
        (1, &[0x01, 0x58, 0x4F], b"O"),
        (2, &[0x01, 0x58, 0x4F], b"O"),
        (3, &[0x01, 0x58, 0x4F, 0x54], b"Oo"),
        (4, &[0x01, 0x58, 0x4F, 0x54, 0x47], b"Oorl"),
        (5, &[0x01, 0x58, 0x4F, 0x54, 0x47], b"Oorwcv"),
    ];
    for (count, sent, log) in ROWS {
        goes(&rt, rt.alloc(), count, &[], sent, log)?;
    }
    Ok(())
}

#[test]
fn goes_on_by_parts_and_pieces(rt: HostRuntime) -> Result<(), Fail> {
    let alloc = rt.alloc();
    let all = &[0x01, 0x58, 0x4F, 0x54, 0x47];
    let says = &[Say::Status(ABC, &[true]), Say::Accept];
    goes(&rt, alloc, 2, says, all, b"Oorl")?;
    let says = &[Say::Status(ABC, &[false]), Say::Accept];
    goes(&rt, alloc, 2, says, &[0x01, 0x58, 0x4F, 0x54], b"Oo")?;
    let says = &[Say::Piece(ABC, 0, b"a"), Say::Piece(ABC, 1, b"b")];
    goes(&rt, alloc, 4, says, all, b"Oorwwlc")?;
    let again = &[0x01, 0x58, 0x4F, 0x54, 0x47, 0x47];
    goes(
        &rt,
        alloc,
        4,
        &[Say::Piece(ABC, 0, b"abd")],
        again,
        b"Oorwcvdrl",
    )
}

/// Behind the first so many messages this is said, and the session ends for this cause.
fn ends(
    rt: &impl Abort,
    alloc: Global,
    count: usize,
    says: &[Say],
    cause: Cause,
) -> Result<(), Fail> {
    let seen = small_session(alloc, count, says, SMOOTH)?;
    assert_same(rt, &seen.cause, &cause, &count);
    assert_same(rt, &seen.alive, &(cause == Cause::NoBlock), &count);
    Ok(())
}

#[test]
fn tells_that_a_stream_ended(rt: HostRuntime) -> Result<(), Fail> {
    const ROWS: [(usize, &[Say]); 6] = [
        (0, &[]),
        (3, &[]),
        (4, &[]),
        (0, &[Say::Bytes(&[0xE3])]),
        (3, &[Say::Bytes(&[0xE3, 1, 0, 0, 0])]),
        (4, &[Say::Bytes(&[0xE3, 0x1C, 0, 0, 0, 0x46, 0xA4])]),
    ];
    for (count, says) in ROWS {
        ends(&rt, rt.alloc(), count, says, Cause::Ended)?;
    }
    Ok(())
}

#[test]
fn tells_that_no_block_is_left(rt: HostRuntime) -> Result<(), Fail> {
    const ROWS: [(usize, &[Say]); 3] = [
        (5, &[]),
        (5, &[Say::Bytes(&[0xD4])]),
        (4, &[Say::NoFile(ABC), Say::Piece(ABC, 0, b"abc")]),
    ];
    for (count, says) in ROWS {
        ends(&rt, rt.alloc(), count, says, Cause::NoBlock)?;
    }
    Ok(())
}

#[test]
fn tells_why_a_frame_is_refused(rt: HostRuntime) -> Result<(), Fail> {
    const ROWS: [(usize, &[u8], FrameFault); 4] = [
        (0, &[0xD4], FrameFault::Packed),
        (1, b"GET /", FrameFault::BadProtocol(b'G')),
        (3, &[0xE3, 0, 0, 0, 0], FrameFault::BadLength(0)),
        (
            4,
            &[0xE3, 0x81, 0x84, 0x1E, 0],
            FrameFault::BadLength(2_000_001),
        ),
    ];
    for (count, bytes, fault) in ROWS {
        ends(
            &rt,
            rt.alloc(),
            count,
            &[Say::Bytes(bytes)],
            Cause::BadFrame(fault),
        )?;
    }
    Ok(())
}

#[test]
fn tells_why_a_message_is_refused(rt: HostRuntime) -> Result<(), Fail> {
    const ROWS: [(usize, Say, MsgFault); 4] = [
        (0, Say::EDonkey(0x4C, &ABC), MsgFault::Cut),
        (2, Say::EDonkey(0x50, &ABC), MsgFault::Cut),
        (3, Say::EMule(0x40, &[]), MsgFault::Compressed),
        (4, Say::EDonkey(0x46, &[0; 25]), MsgFault::BadRange),
    ];
    for (count, say, fault) in ROWS {
        ends(&rt, rt.alloc(), count, &[say], Cause::BadMsg(fault))?;
    }
    Ok(())
}

#[test]
fn tells_that_a_peer_lacks_the_file(rt: HostRuntime) -> Result<(), Fail> {
    const ROWS: [(usize, Say, Cause); 4] = [
        (2, Say::NoFile(ABC), Cause::NoFile),
        (3, Say::NoFile(ABC), Cause::NoFile),
        (2, Say::Status(ABC, &[true; 2]), Cause::BadStatus(2)),
        (2, Say::Status(ABC, &[true; 3]), Cause::BadStatus(3)),
    ];
    for (count, say, cause) in ROWS {
        ends(&rt, rt.alloc(), count, &[say], cause)?;
    }
    Ok(())
}

/// Behind a status this is said, where a set is asked for.
fn ends_by_a_set(
    rt: &impl Abort,
    alloc: Global,
    says: &[Say],
    cause: Cause,
    log: &[u8],
) -> Result<(), Fail> {
    let mut stream = talk_then(alloc, 1, &[Say::Status(TWO_PARTS, &[])])?;
    stream.extend_from_slice(talk_then(alloc, 0, says)?.as_slice())?;
    let seen = session(alloc, TWO_PARTS_SIZE, TWO_PARTS, stream, SMOOTH)?;
    assert_same(rt, &seen.cause, &cause, &says);
    assert_same(rt, &seen.letters.as_slice(), &log, &says);
    Ok(())
}

#[test]
fn tells_why_a_session_ends_where_a_set_is_asked_for(rt: HostRuntime) -> Result<(), Fail> {
    const COUNT: SetFault = SetFault::Count {
        found: 0,
        wanted: 2,
    };
    const MISMATCH: SetFault = SetFault::Mismatch { found: TWICE_OTHER };
    // Behind a status this is said.
    const ROWS: [(&[Say], Cause, &[u8]); 7] = [
        (&[], Cause::Ended, b"Oo"),
        (&[Say::NoFile(TWO_PARTS)], Cause::NoFile, b"Oo"),
        (&[Say::Set(TWO_PARTS, &[])], Cause::BadSet(COUNT), b"Oo"),
        (
            &[Say::Set(TWO_PARTS, &[OTHER; 2])],
            Cause::BadSet(MISMATCH),
            b"Oo",
        ),
        (
            &[Say::Set(OTHER, &[]), Say::NoFile(OTHER), Say::Accept],
            Cause::Ended,
            b"Oo",
        ),
        (&[Say::Set(TWO_PARTS, &TWO_PARTS_SET)], Cause::Ended, b"Oos"),
        (
            &[Say::Set(TWO_PARTS, &TWO_PARTS_SET), Say::Accept],
            Cause::Ended,
            b"Oosrl",
        ),
    ];
    for (says, cause, log) in ROWS {
        ends_by_a_set(&rt, rt.alloc(), says, cause, log)?;
    }
    Ok(())
}

/// Where this call of the wire fails, so many messages were sent, and this is the log.
fn fails_at_the_wire(
    rt: &impl Abort,
    alloc: Global,
    wire_fails: u64,
    sent: usize,
    log: &[u8],
) -> Result<(), Fail> {
    let outside = Outside {
        wire_fails,
        ..SMOOTH
    };
    let seen = small_session(alloc, 5, &[], outside)?;
    assert_same(rt, &seen.cause, &Cause::WireFault, &wire_fails);
    assert_same(rt, &seen.opcodes.len(), &sent, &wire_fails);
    assert_same(rt, &seen.letters.as_slice(), &log, &wire_fails);
    Ok(())
}

#[test]
fn tells_where_the_wire_failed(rt: HostRuntime) -> Result<(), Fail> {
    let alloc = rt.alloc();
    // The hello is sent, all is read, and then come a request for the name, one for the file, one to upload,
    // and one for the bytes.
    fails_at_the_wire(&rt, alloc, 1, 0, b"O")?;
    fails_at_the_wire(&rt, alloc, 2, 1, b"O")?;
    fails_at_the_wire(&rt, alloc, 3, 1, b"O")?;
    fails_at_the_wire(&rt, alloc, 4, 2, b"O")?;
    fails_at_the_wire(&rt, alloc, 5, 3, b"Oo")?;
    fails_at_the_wire(&rt, alloc, 6, 4, b"Oorl")
}

/// Where this call of the vault fails at a peer that says this piece, this is the cause, and the
/// log.
fn fails_at_the_vault(
    rt: &impl Abort,
    alloc: Global,
    vault_fails: u64,
    piece: Say,
    cause: Cause,
    log: &[u8],
) -> Result<(), Fail> {
    let outside = Outside {
        vault_fails,
        ..SMOOTH
    };
    let seen = small_session(alloc, 4, &[piece], outside)?;
    assert_same(rt, &seen.cause, &cause, &vault_fails);
    assert_same(rt, &seen.letters.as_slice(), &log, &vault_fails);
    Ok(())
}

#[test]
fn tells_where_the_vault_failed(rt: HostRuntime) -> Result<(), Fail> {
    let alloc = rt.alloc();
    let whole = Say::Piece(ABC, 0, b"abc");
    let start = Say::Piece(ABC, 0, b"a");
    let fault = Cause::StoreFault;
    // The first three calls make the body. Call 4 writes the piece, 5 syncs it and 6 reads the part.
    fails_at_the_vault(&rt, alloc, 4, whole, fault, b"Oor")?;
    fails_at_the_vault(&rt, alloc, 5, whole, fault, b"Oorw")?;
    fails_at_the_vault(&rt, alloc, 6, whole, fault, b"Oorwc")?;
    fails_at_the_vault(&rt, alloc, 7, whole, Cause::NoBlock, b"Oorwcv")?;
    fails_at_the_vault(&rt, alloc, 5, start, fault, b"Oorwl")?;
    fails_at_the_vault(&rt, alloc, 6, start, Cause::Ended, b"Oorwlc")
}

/// With this budget this is the cause, and the log.
fn spends(
    rt: &impl Abort,
    alloc: Global,
    budget: u64,
    cause: Cause,
    log: &[u8],
) -> Result<(), Fail> {
    let seen = small_session(alloc, 5, &[], Outside { budget, ..SMOOTH })?;
    assert_same(rt, &seen.cause, &cause, &budget);
    assert_same(rt, &seen.letters.as_slice(), &log, &budget);
    Ok(())
}

#[test]
fn takes_no_more_than_the_budget(rt: HostRuntime) -> Result<(), Fail> {
    let alloc = rt.alloc();
    let len = talk_then(alloc, 5, &[])?.len() as u64;
    spends(&rt, alloc, 0, Cause::Spent, b"O")?;
    spends(&rt, alloc, 10, Cause::Spent, b"O")?;
    spends(&rt, alloc, len.saturating_sub(1), Cause::Spent, b"Oorl")?;
    spends(&rt, alloc, len, Cause::NoBlock, b"Oorwcv")
}

/// So often a wrong piece is sent. This is the cause, and the log; twelve messages are sent.
fn gives_up(
    rt: &impl Abort,
    alloc: Global,
    times: usize,
    cause: Cause,
    log: &[u8],
) -> Result<(), Fail> {
    let says = vec![in alloc; Say::Piece(ABC, 0, b"abd"); times]?;
    let seen = small_session(alloc, 4, &says, SMOOTH)?;
    assert_same(rt, &seen.cause, &cause, &times);
    assert_same(rt, &seen.letters.as_slice(), &log, &times);
    assert_same(rt, &seen.opcodes.len(), &12, &times);
    Ok(())
}

#[test]
fn gives_a_part_up_that_failed_eight_times(rt: HostRuntime) -> Result<(), Fail> {
    let alloc = rt.alloc();
    let seven = b"Oorwcvdrwcvdrwcvdrwcvdrwcvdrwcvdrwcvdrl";
    gives_up(&rt, alloc, 7, Cause::Ended, seven)?;
    let eight = b"Oorwcvdrwcvdrwcvdrwcvdrwcvdrwcvdrwcvdrwcvd";
    gives_up(&rt, alloc, 8, Cause::Worn(0), eight)?;
    gives_up(&rt, alloc, 9, Cause::Worn(0), eight)
}

/// A first hello again, other files, pieces that aren't held, ranks, the opcodes of client info,
/// identification and source exchange, requests of the peer's own, recovery data, and unknown ones.
const NOISES: [Say; 26] = [
    Say::HelloAnswer,
    Say::Status(OTHER, &[false]),
    Say::Set(OTHER, &[OTHER]),
    Say::Set(ABC, &[]),
    Say::NoFile(OTHER),
    Say::Piece(OTHER, 0, b"xyz"),
    Say::Piece(ABC, 0, b"abcd"),
    Say::Piece(ABC, 0, b""),
    Say::Piece(ABC, 1, b"bc"),
    Say::Accept,
    Say::Rank(7),
    Say::EDonkey(0x5C, &[7, 0, 0, 0]),
    Say::EDonkey(0x49, &ABC),
    Say::EDonkey(0x56, &[]),
    Say::EDonkey(0x58, &ABC),
    Say::EDonkey(0x4F, &ABC),
    Say::EDonkey(0x54, &ABC),
    Say::EDonkey(0xFF, &[]),
    Say::EMule(0x01, &ABC),
    Say::EMule(0x85, &[0; 77]),
    Say::EMule(0x86, &[0; 49]),
    Say::EMule(0x87, &[1, 2, 3, 4, 5]),
    Say::EMule(0x82, &ABC),
    Say::EMule(0x9C, &ABC),
    Say::EMule(0x9E, &ABC),
    Say::EMule(0xA2, &ABC),
];

/// Said twice behind the first so many messages, it changes nothing of the plain session.
fn reads_past(
    rt: &impl Abort,
    alloc: Global,
    noise: Say,
    place: usize,
    plain: &Seen,
) -> Result<(), Fail> {
    let stream = talk_with(alloc, place, &[noise, noise])?;
    let seen = session(alloc, 3, ABC, stream, SMOOTH)?;
    assert_same(rt, &seen.cause, &Cause::NoBlock, &(noise, place));
    assert_same(rt, &seen.log.as_str(), &plain.log.as_str(), &(noise, place));
    assert_same(
        rt,
        &seen.sent.as_slice(),
        &plain.sent.as_slice(),
        &(noise, place),
    );
    assert_same(
        rt,
        &seen.body.as_slice(),
        &b"abc".as_slice(),
        &(noise, place),
    );
    Ok(())
}

/// The same at every place.
fn reads_past_anywhere(
    rt: &impl Abort,
    alloc: Global,
    noise: Say,
    plain: &Seen,
) -> Result<(), Fail> {
    for place in 0..5 {
        reads_past(rt, alloc, noise, place, plain)?;
    }
    Ok(())
}

#[test]
fn reads_past_what_its_place_does_not_name(rt: HostRuntime) -> Result<(), Fail> {
    let alloc = rt.alloc();
    let plain = small_session(alloc, 5, &[], SMOOTH)?;
    for noise in NOISES.iter() {
        reads_past_anywhere(&rt, alloc, *noise, &plain)?;
    }
    Ok(())
}

#[test]
fn leaves_all_as_it_is_at_a_piece_past_its_range(rt: HostRuntime) -> Result<(), Fail> {
    let seen = small_session(rt.alloc(), 4, &[Say::Piece(ABC, 0, b"abcd")], SMOOTH)?;
    assert_same(&rt, &seen.cause, &Cause::Ended, &"cause");
    assert_same(&rt, &seen.letters.as_slice(), &b"Oorl".as_slice(), &"log");
    assert_same(&rt, &seen.body.as_slice(), &[0; 3].as_slice(), &"body");
    assert_same(&rt, &seen.kept.as_slice(), &[].as_slice(), &"kept");
    assert_same(&rt, &seen.calls, &3, &"calls");
    Ok(())
}

/// Behind the first so many messages this is said; how slots and bytes are asked for, and the log.
fn asks(
    rt: &impl Abort,
    alloc: Global,
    count: usize,
    says: &[Say],
    asked: &[u8],
    log: &[u8],
) -> Result<(), Fail> {
    let seen = small_session(alloc, count, says, SMOOTH)?;
    assert_same(rt, &seen.letters.as_slice(), &log, &count);
    assert_same(rt, &seen.opcodes.get(3..), &Some(asked), &count);
    Ok(())
}

#[test]
fn asks_for_a_slot_again_where_it_lost_one(rt: HostRuntime) -> Result<(), Fail> {
    const LOST: Say = Say::OutOfParts;
    const SLOT: Say = Say::Accept;
    const WHOLE: Say = Say::Piece(ABC, 0, b"abc");
    const START: Say = Say::Piece(ABC, 0, b"a");
    const REST: Say = Say::Piece(ABC, 1, b"bc");
    // Behind the first so many messages this is said; how slots and bytes are asked for, and the log.
    const ROWS: [(usize, &[Say], &[u8], &[u8]); 6] = [
        (0, &[LOST, Say::HelloAnswer, LOST], &[], b"O"),
        (3, &[LOST, SLOT, WHOLE], &[0x54, 0x47], b"Oorwcv"),
        (
            4,
            &[LOST, SLOT, WHOLE],
            &[0x54, 0x47, 0x54, 0x47],
            b"Oorlrwcv",
        ),
        (
            4,
            &[LOST, LOST, WHOLE, SLOT, WHOLE],
            &[0x54, 0x47, 0x54, 0x47],
            b"Oorlrwcv",
        ),
        (
            4,
            &[START, LOST, SLOT, REST],
            &[0x54, 0x47, 0x54, 0x47],
            b"Oorwlrwcv",
        ),
        (4, &[LOST, Say::NoFile(ABC)], &[0x54, 0x47, 0x54], b"Oorl"),
    ];
    for (count, says, asked, log) in ROWS {
        asks(&rt, rt.alloc(), count, says, asked, log)?;
    }
    Ok(())
}

/// Behind a hello this is said; the cause, and which parts are offered.
fn offers(
    rt: &impl Abort,
    alloc: Global,
    say: Say,
    cause: Cause,
    offered: &[bool],
) -> Result<(), Fail> {
    let stream = talk_then(alloc, 1, &[say])?;
    let seen = session(alloc, TWO_PARTS_SIZE, TWO_PARTS, stream, SMOOTH)?;
    assert_same(rt, &seen.cause, &cause, &say);
    assert_same(rt, &seen.offered.as_slice(), &offered, &say);
    Ok(())
}

#[test]
fn offers_the_parts_that_a_status_names(rt: HostRuntime) -> Result<(), Fail> {
    // The last map has bits past its count.
    const ROWS: [(Say, Cause, &[bool]); 5] = [
        (Say::Status(TWO_PARTS, &[]), Cause::Ended, &[true, true]),
        (
            Say::Status(TWO_PARTS, &[false, true]),
            Cause::Ended,
            &[false, true],
        ),
        (Say::Status(TWO_PARTS, &[true]), Cause::BadStatus(1), &[]),
        (Say::Status(TWO_PARTS, &[true; 3]), Cause::BadStatus(3), &[]),
        (Say::EDonkey(0x50, &LONG_MAP), Cause::Ended, &[true, false]),
    ];
    for (say, cause, offered) in ROWS {
        offers(&rt, rt.alloc(), say, cause, offered)?;
    }
    Ok(())
}

/// A file of this size has this hash, and is downloaded whole.
fn downloads(rt: &impl Abort, alloc: Global, size: usize, wanted: Hash) -> Result<(), Fail> {
    let bytes = counted_bytes(alloc, size)?;
    let (hash, set) = hash_set(alloc, &bytes)?;
    assert_same(rt, &hash, &wanted, &size);
    let stream = file_stream(alloc, hash, set.as_slice(), &bytes)?;
    let seen = session(alloc, size as u64, hash, stream, SMOOTH)?;
    assert_same(rt, &seen.cause, &Cause::NoBlock, &size);
    assert_same(rt, &seen.complete, &true, &size);
    assert!(rt; seen.body.as_slice() == bytes.as_slice(), "{size}");
    Ok(())
}

#[test]
fn downloads_files_of_several_parts(rt: HostRuntime) -> Result<(), Fail> {
    downloads(&rt, rt.alloc(), 9_728_001, TWO_PARTS)?;
    downloads(&rt, rt.alloc(), 19_456_007, THREE_PARTS)
}
