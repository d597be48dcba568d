//! Frames over a wire in memory.

use crate::{Stop, WireReader, send_all};
use ed2k_frame::{EDONKEY, EMULE, FrameFault};
use ed2k_outside::{Failed, MemWire};
use std::process::Abort;
use std::test::Fail;

/// A frame with two bytes of payload, a frame with none, and a byte that begins no frame.
const STREAM: [u8; 15] = [0xE3, 3, 0, 0, 0, 0x40, 7, 8, 0xC5, 1, 0, 0, 0, 0x60, 0x55];

/// A wire that the first bytes of the stream come in on, three at a time. The calls of these numbers fail.
fn wire(rt: &(impl Abort + AllocGlobal), len: usize, fails: &[u64]) -> Result<MemWire, Fail> {
    let input = Vec::from_slice(rt.alloc(), STREAM.get(..len).ok_or("too long")?)?;
    let cuts = vec![in rt.alloc(); 3; 9]?;
    let fails = Vec::from_slice(rt.alloc(), fails)?;
    Ok(MemWire::new(rt.alloc(), input, cuts, fails, Vec::new(rt.alloc()))?)
}

#[test]
fn reads_the_frames_and_then_the_fault(rt: HostRuntime) -> Result<(), Fail> {
    let mut wire = wire(&rt, 15, &[])?;
    let mut reader = WireReader::new(rt.alloc());
    let first = reader.next_frame(&mut wire, 100)?;
    assert_eq!(rt; (first.protocol, first.opcode), (EDONKEY, 0x40));
    assert_eq!(rt; first.payload.as_slice(), [7, 8].as_slice());
    assert_eq!(rt; reader.taken(), 9);
    let second = reader.next_frame(&mut wire, 100)?;
    assert_eq!(rt; (second.protocol, second.opcode), (EMULE, 0x60));
    let fault = Stop::BadFrame(FrameFault::BadProtocol(0x55));
    assert_eq!(rt; reader.next_frame(&mut wire, 100).err(), Some(fault));
    assert_eq!(rt;
        reader.next_frame(&mut wire, 100).err(),
        Some(fault),
        "again"
    );
    assert_eq!(rt; reader.taken(), 15);
    Ok(())
}

#[test]
fn stops_within_a_frame_and_goes_on(rt: HostRuntime) -> Result<(), Fail> {
    let mut wire = wire(&rt, 12, &[2])?;
    let mut reader = WireReader::new(rt.alloc());
    assert_eq!(rt;
        reader.next_frame(&mut wire, 7).err(),
        Some(Stop::WireFault)
    );
    assert_eq!(rt; reader.taken(), 3);
    assert_eq!(rt; reader.next_frame(&mut wire, 7).err(), Some(Stop::Spent));
    assert_eq!(rt; reader.taken(), 7);
    let frame = reader.next_frame(&mut wire, 8)?;
    assert_eq!(rt; frame.payload.as_slice(), [7, 8].as_slice());
    assert_eq!(rt; reader.next_frame(&mut wire, 8).err(), Some(Stop::Spent));
    assert_eq!(rt; reader.next_frame(&mut wire, 13).err(), Some(Stop::Ended));
    assert_eq!(rt; reader.taken(), 12);
    Ok(())
}

#[test]
fn sends_bytes(rt: HostRuntime) -> Result<(), Fail> {
    let mut wire = wire(&rt, 0, &[2])?;
    send_all(&mut wire, &STREAM)?;
    assert_eq!(rt; send_all(&mut wire, &STREAM), Err(Failed));
    assert_eq!(rt; wire.sent(), &STREAM[..]);
    Ok(())
}
