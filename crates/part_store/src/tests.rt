//! A file of three bytes, kept in a vault in memory.

ghost use Rattle.std.specs.Prelude.{◌≡◌, true, [], ◌∷◌, IfOk};

use crate::{PartFile, Solo, StoreFault};
use ed2k_outside::{Vault, Which};
use part_hashset::Aim;
use part_sizes::{Bits, Hashes, Span};
use reserve_core::{DeskFault, Event, FileDesk, Verdict};
use std::alloc::{AllocError, Global};
use std::test::Fail;
use vault_sim::MemVault;

/// The MD4 of `abc`.
const HASH: [u8; 16] = [
    0xA4, 0x48, 0x01, 0x7A, 0xAF, 0x21, 0xD8, 0x52, 0x5F, 0xC1, 0x0A, 0xE8, 0x7A, 0xA6, 0x72, 0x9D,
];

const WHOLE: Span = Span { s: 0, e: 3 };

const AIM: Aim = Aim {
    size: 3,
    hash: HASH,
    root: None,
};

/// One part, offered.
fn one_part(alloc: Global) -> Result<Bits, AllocError>
    ensures { IfOk result (λ bits. bits ≡ true ∷ []) }
{
    let mut bits = Vec::new(alloc);
    bits.push(true)?;
    Ok(Bits::new(bits))
}

/// A part file over a vault that fails the listed calls.
fn made(alloc: Global, hash: [u8; 16], fails: Vec<u64>) -> Result<PartFile<MemVault>, Fail>
    ensures { IfOk result (λ file. file.aim.size ≡ 3) }
{
    let aim = Aim {
        size: 3,
        hash,
        root: None,
    };
    match PartFile::create(alloc, MemVault::failing(alloc, fails), aim) {
        Ok(file) => Ok(file),
        Err(_) => Err("not made".into()),
    }
}

/// Takes the file from peer 0, up to its verdict.
fn download(alloc: Global, file: &mut PartFile<MemVault>) -> Result<Verdict, DeskFault>
    requires { file.old.aim.size ≡ 3 }
    ensures { file.new.aim.size ≡ 3 }
{
    let Ok(bits) = one_part(alloc) else {
        return Err(DeskFault::NoMemory);
    };
    file.offer(0, bits)?;
    file.reserve(0)?;
    file.write(0, 0, b"abc")?;
    file.commit()?;
    file.verify(0)
}

fn kind(event: &Event) -> &'static str {
    match event {
        Event::Opened(_) => "opened",
        Event::Offer(_, _) => "offer",
        Event::Reserve(_, _) => "reserve",
        Event::Write(_, _) => "write",
        Event::Commit => "commit",
        Event::Verdict(_, _) => "verdict",
        _ => "another",
    }
}

#[test]
fn a_download_is_a_log_and_a_body(rt: HostRuntime) -> Result<(), Fail> {
    let alloc = rt.alloc();
    let mut file = made(alloc, HASH, Vec::new(alloc))?;
    assert_eq!(rt; download(alloc, &mut file), Ok(Verdict::Verified));
    assert!(rt; file.complete() && file.verified(0) && !file.broken());
    assert!(rt; !file.uncommitted() && !file.holds(0) && !file.has_set());
    assert_eq!(rt; file.verify(0), Err(DeskFault::Already(HASH)));
    let (vault, log) = file.into_parts();
    assert_eq!(rt; vault.file(Which::Body), b"abc".as_slice());
    let wanted = [
        (3, "opened"),
        (3, "offer"),
        (3, "reserve"),
        (4, "write"),
        (5, "commit"),
        (6, "verdict"),
    ];
    assert_eq!(rt; log.len(), wanted.len());
    for (entry, (calls, name)) in log.iter().zip(wanted.iter()) {
        assert_eq!(rt; entry.calls, *calls);
        assert_eq!(rt; kind(&entry.event), *name);
    }
    Ok(())
}

#[test]
fn a_piece_past_the_held_range_is_refused(rt: HostRuntime) -> Result<(), Fail> {
    let alloc = rt.alloc();
    let mut file = made(alloc, HASH, Vec::new(alloc))?;
    file.offer(0, one_part(alloc)?).is_ok();
    let Ok(spans) = file.reserve(0) else {
        return Err("nothing is reserved".into());
    };
    assert_eq!(rt; spans.as_slice(), [WHOLE].as_slice());
    assert!(rt; file.holds(0));
    for (at, piece) in [
        (0, b"abcd".as_slice()),
        (0, b""),
        (1, b"a"),
        (u64::MAX, b"ab"),
    ] {
        assert_eq!(rt; file.write(0, at, piece), Err(DeskFault::NotHeld));
    }
    assert_eq!(rt; file.write(1, 0, b"abc"), Err(DeskFault::NotHeld));
    let (vault, log) = file.into_parts();
    assert_eq!(rt; log.len(), 3);
    assert_eq!(rt; vault.file(Which::Body), [0; 3].as_slice());
    assert_eq!(rt; vault.file(Which::Log), [].as_slice());
    Ok(())
}

#[test]
fn a_failed_call_of_the_vault_breaks_the_file(rt: HostRuntime) -> Result<(), Fail> {
    let alloc = rt.alloc();
    for (call, entries) in [(4, 3), (5, 4), (6, 5)] {
        let mut file = made(alloc, HASH, vec![in alloc; call]?)?;
        assert_eq!(rt; download(alloc, &mut file), Err(DeskFault::Fault));
        assert_eq!(rt; download(alloc, &mut file), Err(DeskFault::Broken));
        let set = Hashes::new(Vec::new(alloc));
        assert_eq!(rt; file.hashes(set), Err(DeskFault::Broken));
        assert!(rt; file.reserve(0).is_err());
        assert_eq!(rt; file.write(0, 0, b"abc"), Err(DeskFault::Broken));
        assert_eq!(rt; file.commit(), Err(DeskFault::Broken));
        assert_eq!(rt; file.verify(0), Err(DeskFault::Broken));
        assert_eq!(rt; file.drop_part(0), Err(DeskFault::Broken));
        file.release(0);
        assert!(rt; file.broken());
        assert_eq!(rt; file.log().len(), entries);
    }
    Ok(())
}

#[test]
fn a_vault_that_fails_comes_back(rt: HostRuntime) -> Result<(), Fail> {
    let alloc = rt.alloc();
    for call in 1..4u64 {
        let vault = MemVault::failing(alloc, vec![in alloc; call]?);
        match PartFile::create(alloc, vault, AIM) {
            Err((vault, StoreFault::Fault)) => assert_eq!(rt; vault.calls(), call),
            _ => return Err("another answer".into()),
        }
    }
    Ok(())
}

#[test]
fn a_failed_part_is_opened_again(rt: HostRuntime) -> Result<(), Fail> {
    let alloc = rt.alloc();
    let mut file = made(alloc, [7; 16], Vec::new(alloc))?;
    assert_eq!(rt; download(alloc, &mut file), Ok(Verdict::Failed));
    assert_eq!(rt; file.next_failed(0), Some(0));
    assert_eq!(rt; file.drop_part(0), Ok(()));
    assert_eq!(rt; file.verify(0), Err(DeskFault::NotFull(0)));
    assert_eq!(rt; download(alloc, &mut file), Ok(Verdict::Failed));
    Ok(())
}

#[test]
fn one_peer_is_served(rt: HostRuntime) -> Result<(), Fail> {
    let alloc = rt.alloc();
    let file = made(alloc, HASH, Vec::new(alloc))?;
    let mut desk = Solo { file };
    assert_eq!(rt; desk.number(), 0);
    assert_eq!(rt; desk.aim(), AIM);
    assert!(rt; !desk.has_set() && !desk.holds());
    assert_eq!(rt; desk.offer(one_part(alloc)?), Ok(()));
    assert!(rt; desk.reserve().is_ok());
    assert!(rt; desk.holds());
    desk.release();
    assert!(rt; !desk.holds());
    assert!(rt; desk.reserve().is_ok());
    assert!(rt; desk.write(0, b"ab").is_ok());
    assert!(rt; desk.write(2, b"c").is_ok());
    assert_eq!(rt; desk.commit(), Ok(()));
    assert_eq!(rt; desk.verify(0), Ok(Verdict::Verified));
    assert_eq!(rt; desk.drop_part(0), Err(DeskFault::NotFailed));
    assert_eq!(rt; desk.next_failed(0), None);
    assert!(rt; desk.file.complete());
    Ok(())
}
