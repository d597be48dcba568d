//! With ample memory no call answers for want of it, and what was given comes back.

use crate::{
    Addr, Blob, Blobs, Clock, MemBlob, MemBlobs, MemNet, MemOut, MemWire, Net, SetClock, Sink,
    Source, Wire,
};
use std::test::Fail;

const HOME: Addr = Addr {
    ip: [127, 0, 0, 1],
    port: 4662,
};

#[test]
fn a_wire_gives_its_input_by_its_cuts(rt: HostRuntime) -> Result<(), Fail> {
    let alloc = rt.alloc();
    let mut wire = MemWire::new(
        alloc,
        b"abcde".to_vec(alloc)?,
        vec![in alloc; 2, 0]?,
        vec![in alloc; 4]?,
        vec![in alloc; 4662]?,
    )?;
    let mut buf = [0u8; 8];
    assert_eq!(rt; wire.read(&mut buf)?, 2);
    assert_eq!(rt; wire.read(&mut buf)?, 1);
    assert_eq!(rt; wire.write(b"xyz")?, 3);
    assert!(rt; wire.read(&mut buf).is_err(), "call 4 fails");
    assert_eq!(rt; wire.read(&mut buf)?, 2);
    assert_eq!(rt; wire.read(&mut buf)?, 0);
    assert!(rt; wire.reach(4662)?);
    assert!(rt; !wire.reach(4663)?);
    assert_eq!(rt; wire.sent(), b"xyz".as_slice());
    Ok(())
}

#[test]
fn a_net_keeps_what_is_given_back(rt: HostRuntime) -> Result<(), Fail> {
    let alloc = rt.alloc();
    let wire = MemWire::new(
        alloc,
        Vec::new(alloc),
        Vec::new(alloc),
        Vec::new(alloc),
        Vec::new(alloc),
    )?;
    let mut net = MemNet::new(alloc, vec![in alloc; (wire, HOME)]?, Vec::new(alloc))?;
    net.listen(4661)?;
    let mut wire = net.connect(HOME)?;
    wire.write(b"hello")?;
    net.close(wire);
    assert_eq!(rt; net.closed(0).ok_or("no wire")?.sent(), b"hello".as_slice());
    assert!(rt; net.closed(1).is_none());
    assert!(rt; net.accept()?.is_none());
    assert!(rt; net.connect(HOME).is_err());
    Ok(())
}

#[test]
fn a_sink_keeps_what_is_written(rt: HostRuntime) -> Result<(), Fail> {
    let alloc = rt.alloc();
    let mut out = MemOut::new(alloc, vec![in alloc; 2]?);
    assert_eq!(rt; out.write(b"ab")?, 2);
    assert!(rt; out.write(b"c").is_err());
    assert_eq!(rt; out.write(b"d")?, 1);
    assert_eq!(rt; out.sent(), b"abd".as_slice());
    Ok(())
}

#[test]
fn a_blob_is_handed_out_once(rt: HostRuntime) -> Result<(), Fail> {
    let alloc = rt.alloc();
    let blob = MemBlob::new(b"abc".to_vec(alloc)?, Vec::new(alloc));
    let mut blobs = MemBlobs::new(vec![in alloc; (String::from_str(alloc, "a")?, blob)]?);
    assert!(rt; blobs.fetch("b").is_err());
    let mut blob = blobs.fetch("a")?;
    assert_eq!(rt; blob.len()?, 3);
    let mut buf = [0u8; 8];
    assert_eq!(rt; blob.read(1, &mut buf)?, 2);
    assert_eq!(rt; blob.read(3, &mut buf)?, 0);
    blobs.close(blob);
    assert!(rt; blobs.fetch("a").is_err());
    Ok(())
}

#[test]
fn a_clock_stays_at_its_last_second(rt: HostRuntime) -> Result<(), Fail> {
    let alloc = rt.alloc();
    let mut clock = SetClock::new(vec![in alloc; 5, 7]?);
    assert_eq!(rt;
        [clock.seconds(), clock.seconds(), clock.seconds()],
        [5, 7, 7]
    );
    assert_eq!(rt; SetClock::new(Vec::new(alloc)).seconds(), 0);
    Ok(())
}
