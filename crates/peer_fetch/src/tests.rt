//! Sessions over a wire in memory, with the desk's answers said by hand.

ghost use Rattle.std.specs.Prelude.{◌≡◌, ◌<◌, IfOk};
ghost use Rattle.client_msgs.specs.Spelling.{HasForm};
ghost use Rattle.part_hashset.specs.declared.aim.Aim.{Aim};
ghost use Rattle.part_sizes.specs.Part.{IsSize, data_parts};
ghost use Rattle.peer_fetch.specs.Machine.{IsFitting};

use crate::Cause;
use crate::link::{LinkCore, Step};
use crate::machine::SessionState;
use client_msgs::{PeerMsg, own_hello, write_peer};
use ed2k_outside::{Bytes, MemWire};
use part_hashset::{Aim, SetFault};
use part_sizes::{Bits, Hashes, PART, Span, Spans};
use reserve_core::{Answer, DeskAsk, DeskFault, Verdict, Written};
use std::alloc::Global;
use std::test::Fail;

/// The MD4 of `abc`.
const ABC: [u8; 16] = [
    0xA4, 0x48, 0x01, 0x7A, 0xAF, 0x21, 0xD8, 0x52, 0x5F, 0xC1, 0x0A, 0xE8, 0x7A, 0xA6, 0x72, 0x9D,
];

/// The bytes that may be taken of a wire.
const BUDGET: u64 = 1_000_000;

/// What the desk answers to the first call that reserves: these three bytes, or a refusal.
fn first_answer(alloc: Global, refusal: Option<DeskFault>) -> Result<Answer, Fail>
    ensures { IfOk result (λ answer. (aim : Aim) → IsFitting aim answer) }
{
    if let Some(fault) = refusal {
        return Ok(Answer::Reserve(Err(fault)));
    }
    let mut spans = Vec::new(alloc);
    spans.push(Span { s: 0, e: 3 })?;
    Ok(Answer::Reserve(Ok(Spans::new(spans))))
}

/// What the desk answers to a hash set.
fn kept(refusal: Option<DeskFault>) -> Result<(), DeskFault> {
    match refusal {
        Some(fault) => Err(fault),
        None => Ok(()),
    }
}

/// A desk that keeps no hash set, and verifies a part as soon as anything was written.
fn answer(
    alloc: Global,
    ask: &DeskAsk,
    asked: usize,
    refusal: Option<DeskFault>,
) -> Result<Answer, Fail>
    ensures { IfOk result (λ answer. (aim : Aim) → 0 < data_parts aim.size → IsFitting aim answer) }
{
    match ask {
        DeskAsk::HasSet => Ok(Answer::HasSet(false)),
        DeskAsk::Holds => Ok(Answer::Holds(false)),
        DeskAsk::NextFailed(_) => Ok(Answer::NextFailed(None)),
        DeskAsk::Hashes(_) => Ok(Answer::Hashes(kept(refusal))),
        DeskAsk::Offer(_) => Ok(Answer::Offer(Ok(()))),
        DeskAsk::Reserve if asked > 1 => Ok(Answer::Reserve(Err(DeskFault::NoBlock))),
        DeskAsk::Reserve => first_answer(alloc, refusal),
        DeskAsk::Write(..) => Ok(Answer::Write(Ok(Written { full: Some(0) }))),
        DeskAsk::Release => Ok(Answer::Release),
        DeskAsk::Commit => Ok(Answer::Commit(Ok(()))),
        DeskAsk::Verify(_) => Ok(Answer::Verify(Ok(Verdict::Verified))),
        DeskAsk::DropPart(_) => Ok(Answer::DropPart(Ok(()))),
    }
}

fn letter(ask: &DeskAsk) -> u8 {
    match ask {
        DeskAsk::HasSet => b'k',
        DeskAsk::Holds => b'h',
        DeskAsk::NextFailed(_) => b'n',
        DeskAsk::Hashes(_) => b's',
        DeskAsk::Offer(_) => b'o',
        DeskAsk::Reserve => b'r',
        DeskAsk::Write(..) => b'w',
        DeskAsk::Release => b'l',
        DeskAsk::Commit => b'c',
        DeskAsk::Verify(_) => b'v',
        DeskAsk::DropPart(_) => b'd',
    }
}

/// Adds a message at the end of a stream.
fn append(alloc: Global, stream: &mut Vec<u8>, msg: &PeerMsg) -> Result<(), Fail>
    requires { HasForm msg.now }
{
    stream.extend_from_slice(write_peer(alloc, msg)?.as_slice())?;
    Ok(())
}

/// The stream of a peer that has all of the file: a hello answer, a name answer, and a status with count 0.
fn offer_stream(alloc: Global) -> Result<Vec<u8>, Fail> {
    let mut stream = Vec::new(alloc);
    append(alloc, &mut stream, &PeerMsg::HelloAnswer(own_hello(alloc)?))?;
    let name = Bytes::new(b"abc".to_vec(alloc)?);
    append(alloc, &mut stream, &PeerMsg::NameAnswer { hash: ABC, name })?;
    let bits = Bits::new(Vec::new(alloc));
    let status = PeerMsg::FileStatus {
        hash: ABC,
        count: 0,
        bits,
    };
    append(alloc, &mut stream, &status)?;
    Ok(stream)
}

/// The same, and an accept.
fn slot_stream(alloc: Global) -> Result<Vec<u8>, Fail> {
    let mut stream = offer_stream(alloc)?;
    append(alloc, &mut stream, &PeerMsg::Accept)?;
    Ok(stream)
}

/// A session for a file with the hash of `abc`, over a stream that comes in pieces of seven bytes.
fn link(alloc: Global, size: u64, stream: &[u8]) -> Result<LinkCore<MemWire>, Fail>
    requires { IsSize size }
    ensures { IfOk result (λ link. link.core.at ≡ SessionState.Fresh) }
{
    let cuts = vec![in alloc; 7usize; stream.len()]?;
    let wire = MemWire::new(
        alloc,
        stream.to_vec(alloc)?,
        cuts,
        Vec::new(alloc),
        Vec::new(alloc),
    )?;
    let aim = Aim {
        size,
        hash: ABC,
        root: None,
    };
    Ok(LinkCore::new(alloc, wire, aim))
}

/// Goes on to the end, and answers what was asked and the cause.
fn talk(
    alloc: Global,
    link: &mut LinkCore<MemWire>,
    budget: u64,
    refusal: Option<DeskFault>,
) -> Result<(Vec<u8>, Option<Cause>), Fail>
    requires { link.old.core.at ≡ SessionState.Fresh }
{
    let mut asked = Vec::new(alloc);
    let mut step = link.step(None, budget);
    'asks: loop {
        match step {
            Step::End(cause) => return Ok((asked, Some(cause))),
            Step::Ask(ask) => {
                let said = answer(alloc, &ask, asked.len(), refusal)?;
                asked.push(letter(&ask))?;
                step = link.step(Some(said), budget);
            }
        }
    }
}

/// What a session for a file of this size asks, and why it ends, over a stream and a desk that refuses so.
fn session(
    alloc: Global,
    size: u64,
    stream: &[u8],
    refusal: Option<DeskFault>,
) -> Result<(Vec<u8>, Option<Cause>), Fail>
    requires { IsSize size }
{
    let mut link = link(alloc, size, stream)?;
    talk(alloc, &mut link, BUDGET, refusal)
}

#[test]
fn asks_the_desk_for_a_small_file(rt: HostRuntime) -> Result<(), Fail> {
    let alloc = rt.alloc();
    let mut stream = slot_stream(alloc)?;
    let piece = PeerMsg::SendingPart {
        hash: ABC,
        start: 0,
        end: 3,
        piece: Bytes::new(b"abc".to_vec(alloc)?),
    };
    append(alloc, &mut stream, &piece)?;
    let (asked, cause) = session(alloc, 3, &stream, None)?;
    assert_eq!(rt; asked.as_slice(), b"orwcvhrlc".as_slice());
    assert_eq!(rt; cause, Some(Cause::NoBlock));
    Ok(())
}

#[test]
fn tells_why_the_desk_ends_a_session(rt: HostRuntime) -> Result<(), Fail> {
    const ROWS: [(DeskFault, Cause); 5] = [
        (DeskFault::NoBlock, Cause::NoBlock),
        (DeskFault::Cheat, Cause::Cheat),
        (DeskFault::Worn(0), Cause::Worn(0)),
        (DeskFault::Fault, Cause::StoreFault),
        (DeskFault::Broken, Cause::StoreFault),
    ];
    let alloc = rt.alloc();
    let stream = slot_stream(alloc)?;
    for (refusal, wanted) in ROWS {
        let (asked, cause) = session(alloc, 3, &stream, Some(refusal))?;
        assert_eq!(rt; asked.as_slice(), b"orlc".as_slice());
        assert_eq!(rt; cause, Some(wanted));
    }
    Ok(())
}

/// What a session for a file of one part asks, and why it ends, where a hash set without members comes.
fn ends_by_set(
    alloc: Global,
    refusal: Option<DeskFault>,
) -> Result<(Vec<u8>, Option<Cause>), Fail> {
    let mut stream = offer_stream(alloc)?;
    let set = Hashes::new(Vec::new(alloc));
    append(alloc, &mut stream, &PeerMsg::SetAnswer { hash: ABC, set })?;
    append(alloc, &mut stream, &PeerMsg::Accept)?;
    session(alloc, PART, &stream, refusal)
}

#[test]
fn asks_for_a_hash_set_from_one_part_on(rt: HostRuntime) -> Result<(), Fail> {
    let alloc = rt.alloc();
    let (asked, cause) = ends_by_set(alloc, None)?;
    assert_eq!(rt; asked.as_slice(), b"oksrlc".as_slice());
    assert_eq!(rt; cause, Some(Cause::NoBlock));
    let (asked, cause) = ends_by_set(alloc, Some(DeskFault::AlreadySet))?;
    assert_eq!(rt; asked.as_slice(), b"oksrlc".as_slice());
    assert_eq!(rt; cause, Some(Cause::NoBlock));
    let wrong = SetFault::Count {
        found: 0,
        wanted: 2,
    };
    let (asked, cause) = ends_by_set(alloc, Some(DeskFault::Set(wrong)))?;
    assert_eq!(rt; asked.as_slice(), b"okslc".as_slice());
    assert_eq!(rt; cause, Some(Cause::BadSet(wrong)));
    Ok(())
}

#[test]
fn gives_back_its_ranges_where_the_peer_has_no_slot_more(rt: HostRuntime) -> Result<(), Fail> {
    let alloc = rt.alloc();
    let mut stream = slot_stream(alloc)?;
    append(alloc, &mut stream, &PeerMsg::OutOfParts)?;
    append(alloc, &mut stream, &PeerMsg::Accept)?;
    let (asked, cause) = session(alloc, 3, &stream, None)?;
    assert_eq!(rt; asked.as_slice(), b"orlrlc".as_slice());
    assert_eq!(rt; cause, Some(Cause::NoBlock));
    Ok(())
}
