//! A hello and made streams: whole, a byte at a time, in pieces, and with each fault.

use super::*;
use ed2k_outside::Bytes;
use std::test::Fail;

/// A hello from one client to another, as the protocol's description lays it out.
const HELLO: [u8; 78] = [
    0xE3, 0x49, 0x00, 0x00, 0x00, 0x01, 0x10, 0x65, 0x64, 0x32, 0x6B, 0x2D, 0x6E, 0x6F, 0x64, 0x65,
    0x2D, 0x75, 0x73, 0x65, 0x72, 0x2D, 0x31, 0x00, 0x00, 0x00, 0x00, 0x00, 0x00, 0x04, 0x00, 0x00,
    0x00, 0x02, 0x01, 0x00, 0x01, 0x09, 0x00, 0x65, 0x64, 0x32, 0x6B, 0x5F, 0x6E, 0x6F, 0x64, 0x65,
    0x03, 0x01, 0x00, 0x11, 0x3C, 0x00, 0x00, 0x00, 0x03, 0x01, 0x00, 0xFA, 0x00, 0x00, 0x00, 0x20,
    0x03, 0x01, 0x00, 0xFE, 0x00, 0x00, 0x00, 0x00, 0x00, 0x00, 0x00, 0x00, 0x00, 0x00,
];

#[test]
fn names_each_fault_again(rt: HostRuntime) -> Result<(), Fail> {
    let streams: [(&[u8], FrameFault); 7] = [
        (&[0xE3, 0, 0, 0, 0], FrameFault::BadLength(0)),
        (
            &[0xE3, 0x81, 0x84, 0x1E, 0],
            FrameFault::BadLength(2_000_001),
        ),
        (
            &[0xC5, 0xFF, 0xFF, 0xFF, 0xFF],
            FrameFault::BadLength(u32::MAX),
        ),
        (&[0xD4], FrameFault::Packed),
        (&[0xE4], FrameFault::BadProtocol(228)),
        (&[0xE4, 0, 0, 0, 0], FrameFault::BadProtocol(228)),
        (&[0], FrameFault::BadProtocol(0)),
    ];
    for (bytes, fault) in streams {
        let mut reader = FrameReader::new(rt.alloc());
        reader.feed(bytes)?;
        assert_eq!(rt; reader.next().err(), Some(fault));
        assert_eq!(rt; reader.next().err(), Some(fault), "again");
        assert_eq!(rt; reader.feed(&[0xE3]).err(), Some(fault), "fed again");
        assert_eq!(rt; reader.next().err(), Some(fault), "after a piece");
    }
    Ok(())
}

#[test]
fn judges_a_head_a_byte_at_a_time(rt: HostRuntime) -> Result<(), Fail> {
    let streams: [(&[u8], FrameFault); 4] = [
        (&[0xE3, 0, 0, 0, 0], FrameFault::BadLength(0)),
        (
            &[0xE3, 0x81, 0x84, 0x1E, 0],
            FrameFault::BadLength(2_000_001),
        ),
        (&[0xD4], FrameFault::Packed),
        (&[0xE4], FrameFault::BadProtocol(228)),
    ];
    for (bytes, fault) in streams {
        let mut reader = FrameReader::new(rt.alloc());
        for byte in bytes {
            assert!(rt; reader.next()?.is_none());
            reader.feed(&[*byte])?;
        }
        assert_eq!(rt; reader.next().err(), Some(fault));
        assert_eq!(rt; reader.next().err(), Some(fault), "again");
    }
    Ok(())
}

#[test]
fn reads_a_frame_a_byte_at_a_time(rt: HostRuntime) -> Result<(), Fail> {
    let mut reader = FrameReader::new(rt.alloc());
    for byte in HELLO {
        assert!(rt; reader.next()?.is_none());
        reader.feed(&[byte])?;
    }
    let hello = reader.next()?.ok_or("no frame")?;
    assert_eq!(rt; hello.protocol, EDONKEY);
    assert_eq!(rt; hello.opcode, 1);
    assert_eq!(rt; hello.payload.as_slice(), &HELLO[HEAD..]);
    assert!(rt; reader.next()?.is_none());
    Ok(())
}

#[test]
fn reads_a_stream_in_pieces(rt: HostRuntime) -> Result<(), Fail> {
    let mut pieces = Vec::new(rt.alloc());
    for piece in [&HELLO[..3], &HELLO[3..], &HELLO[..0], &HELLO[..]] {
        pieces.push(Bytes::new(Vec::from_slice(rt.alloc(), piece)?))?;
    }
    let frames = read_frames(rt.alloc(), &pieces)?;
    assert_eq!(rt; frames.len(), 2);
    for frame in &frames {
        assert_eq!(rt; frame.payload.as_slice(), &HELLO[HEAD..]);
    }
    Ok(())
}

#[test]
fn gives_the_frames_before_a_fault(rt: HostRuntime) -> Result<(), Fail> {
    let mut reader = FrameReader::new(rt.alloc());
    for _ in 0..3 {
        reader.feed(&HELLO)?;
    }
    // A frame without payload, and a head whose last byte makes its length too great.
    reader.feed(&[0xC5, 1, 0, 0, 0, 0x55, 0xE3, 0x81, 0x84])?;
    for _ in 0..3 {
        let hello = reader.next()?.ok_or("no frame")?;
        assert_eq!(rt; hello.payload.as_slice(), &HELLO[HEAD..]);
    }
    reader.feed(&[0x1E])?;
    let empty = reader.next()?.ok_or("no frame")?;
    assert_eq!(rt; empty.protocol, EMULE);
    assert_eq!(rt; empty.opcode, 0x55);
    assert!(rt; empty.payload.is_empty());
    assert!(rt; reader.next()?.is_none());
    reader.feed(&[0])?;
    assert_eq!(rt; reader.next().err(), Some(FrameFault::BadLength(2_000_001)));
    Ok(())
}

#[test]
fn writes_a_frame(rt: HostRuntime) -> Result<(), Fail> {
    let payload = Bytes::new(Vec::from_slice(rt.alloc(), &HELLO[HEAD..])?);
    let hello = Frame {
        protocol: EDONKEY,
        opcode: 1,
        payload,
    };
    assert_eq!(rt; hello.payload.len(), 72);
    assert_eq!(rt; write_frame(rt.alloc(), &hello)?.as_slice(), &HELLO[..]);
    Ok(())
}
