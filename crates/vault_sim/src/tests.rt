//! With ample memory no call answers for want of it, and a crash leaves what its number says.

use crate::{Fuse, MemVault, crash};
use ed2k_outside::{Vault, Which};
use std::alloc::Global;
use std::test::Fail;

/// A body `abcdef` that is synced, a write of `WXYZ` at 3, which makes it longer by one, and a growth to 10.
fn unsettled(alloc: Global) -> Result<MemVault, Fail> {
    let mut vault = MemVault::new(alloc);
    vault.write_at(Which::Body, 0, b"abcdef")?;
    vault.sync(Which::Body)?;
    vault.write_at(Which::Body, 3, b"WXYZ")?;
    vault.set_len(Which::Body, 10)?;
    Ok(vault)
}

/// The body that a crash leaves of it.
fn torn(alloc: Global, pick: u64) -> Result<Vec<u8>, Fail> {
    Ok(
        crash(unsettled(alloc)?, pick)?
            .file(Which::Body)
            .to_vec(alloc)?,
    )
}

/// How far a growth came.
#[derive(Clone, Copy)]
enum Reach {
    Nothing,
    Halfway,
    Whole,
}

/// The bytes, with a growth to 10 that came so far, filled up with this byte.
fn grown(alloc: Global, bytes: &[u8], reach: Reach, filling: u8) -> Result<Vec<u8>, Fail> {
    let missing = 10usize.saturating_sub(bytes.len());
    let more = match reach {
        Reach::Nothing => 0,
        Reach::Halfway => missing / 2,
        Reach::Whole => missing,
    };
    let mut all = bytes.to_vec(alloc)?;
    for _ in 0..more {
        all.push(filling)?;
    }
    Ok(all)
}

#[test]
fn a_vault_keeps_two_files(rt: HostRuntime) -> Result<(), Fail> {
    let alloc = rt.alloc();
    let mut vault = MemVault::failing(alloc, vec![in alloc; 4]?);
    vault.place("a")?;
    vault.set_len(Which::Body, 4)?;
    vault.write_at(Which::Body, 2, b"xyz")?;
    assert!(rt; vault.sync(Which::Body).is_err(), "call 4 fails");
    vault.write_at(Which::Log, 0, b"log")?;
    assert_eq!(rt; vault.len(Which::Body)?, 5);
    let mut buf = [0u8; 2];
    assert_eq!(rt; vault.read(Which::Body, 1, &mut buf)?, 2);
    assert_eq!(rt; buf.as_slice(), [0, b'x'].as_slice());
    assert_eq!(rt;
        vault.file(Which::Body),
        [0, 0, b'x', b'y', b'z'].as_slice()
    );
    assert_eq!(rt; vault.file(Which::Log), b"log".as_slice());
    assert_eq!(rt; vault.calls(), 7);
    Ok(())
}

#[test]
fn numbers_reach_each_class_of_images(rt: HostRuntime) -> Result<(), Fail> {
    let alloc = rt.alloc();
    // by the last digit but one in base 8
    let writes: [&[u8]; 8] = [
        b"abcWXYZ", // whole
        b"abcdef", // nothing
        b"abcWXf", // its front
        b"abcdeYZ", // its end alone
        b"abcdXY\xA5", // its middle alone
        b"abc\xA5\xA5\xA5\xA5", // garbage
        b"abc\xA5\xA5\xA5", // garbage, with a length between
        b"abcWXY", // as far as a length between
    ];
    // by the last digit
    let growths = [
        (Reach::Whole, 0),
        (Reach::Nothing, 0),
        (Reach::Halfway, 0),
        (Reach::Whole, 0),
        (Reach::Whole, 0xA5),
        (Reach::Whole, 0xA5),
        (Reach::Halfway, 0xA5),
        (Reach::Halfway, 0xA5),
    ];
    for pick in 0..256u64 {
        let (reach, filling) = growths[(pick % 8) as usize];
        let image = grown(alloc, writes[(pick / 8 % 8) as usize], reach, filling)?;
        let left = torn(alloc, pick)?;
        assert_eq!(rt; left, image, "{pick}");
    }
    assert_eq!(rt; torn(alloc, u64::MAX)?.as_slice(), b"abcdef".as_slice());
    Ok(())
}

#[test]
fn the_files_are_left_apart(rt: HostRuntime) -> Result<(), Fail> {
    let alloc = rt.alloc();
    for (pick, body, log) in [(0o00, 4, 3), (0o01, 0, 3), (0o10, 4, 0), (0o11, 0, 0)] {
        let mut vault = MemVault::new(alloc);
        vault.write_at(Which::Log, 0, b"log")?;
        vault.write_at(Which::Body, 0, b"body")?;
        let left = crash(vault, pick)?;
        assert_eq!(rt; left.file(Which::Body).len(), body);
        assert_eq!(rt; left.file(Which::Log).len(), log);
    }
    Ok(())
}

#[test]
fn a_call_that_fails_leaves_its_range_unsure(rt: HostRuntime) -> Result<(), Fail> {
    let alloc = rt.alloc();
    let mut vault = MemVault::failing(alloc, vec![in alloc; 3, 5]?);
    vault.write_at(Which::Log, 0, b"abcdef")?;
    vault.sync(Which::Log)?;
    assert!(rt; vault.write_at(Which::Log, 2, b"XY").is_err());
    assert_eq!(rt; vault.file(Which::Log), b"abcdef".as_slice());
    vault.place("here")?;
    assert!(rt; vault.sync(Which::Log).is_err());
    assert_eq!(rt; vault.calls(), 5);
    let mut left = crash(vault, 5)?;
    assert_eq!(rt; left.file(Which::Log), b"ab\xA5\xA5ef".as_slice());
    assert_eq!(rt; left.calls(), 0);
    let mut buf = [0u8; 4];
    assert_eq!(rt; left.len(Which::Log)?, 6);
    assert_eq!(rt; left.read(Which::Log, 3, &mut buf)?, 3);
    Ok(())
}

#[test]
fn a_fuse_passes_its_calls(rt: HostRuntime) -> Result<(), Fail> {
    let mut fuse = Fuse::new(MemVault::new(rt.alloc()), 2);
    fuse.write_at(Which::Body, 0, b"ab")?;
    fuse.sync(Which::Body)?;
    assert!(rt; fuse.write_at(Which::Body, 0, b"XY").is_err());
    assert!(rt; fuse.len(Which::Body).is_err());
    assert_eq!(rt; fuse.calls(), 2);
    assert_eq!(rt; fuse.into_inner().file(Which::Body), b"ab".as_slice());
    Ok(())
}

fn moved<T: Send>(value: T) -> T {
    value
}

#[test]
fn a_vault_may_go_to_another_thread(rt: HostRuntime) -> Result<(), Fail> {
    let vault = moved(MemVault::new(rt.alloc()));
    assert_eq!(rt; vault.calls(), 0);
    Ok(())
}
