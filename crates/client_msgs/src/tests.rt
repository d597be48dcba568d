//! Messages by the bytes of the protocol's description, and each fault.
ghost use Rattle.std.specs.Prelude.{◌≡◌, IfOk};
ghost use Rattle.client_msgs.specs.Spelling.{HasForm};

use super::*;
use ed2k_frame::{EDONKEY, EMULE, Frame, HEAD};
use ed2k_outside::Bytes;
use ed2k_tags::TagFault;
use part_sizes::{Bits, Hashes, Span, Spans};
use std::alloc::Global;
use std::process::Abort;
use std::test::Fail;

/// A hello of a client without id and port, as the protocol's description lays it out.
const HELLO: [u8; 78] = [
    0xE3, 0x49, 0x00, 0x00, 0x00, 0x01, 0x10, 0x65, 0x64, 0x32, 0x6B, 0x2D, 0x6E, 0x6F, 0x64, 0x65,
    0x2D, 0x75, 0x73, 0x65, 0x72, 0x2D, 0x31, 0x00, 0x00, 0x00, 0x00, 0x00, 0x00, 0x04, 0x00, 0x00,
    0x00, 0x02, 0x01, 0x00, 0x01, 0x09, 0x00, 0x65, 0x64, 0x32, 0x6B, 0x5F, 0x6E, 0x6F, 0x64, 0x65,
    0x03, 0x01, 0x00, 0x11, 0x3C, 0x00, 0x00, 0x00, 0x03, 0x01, 0x00, 0xFA, 0x00, 0x00, 0x00, 0x20,
    0x03, 0x01, 0x00, 0xFE, 0x00, 0x00, 0x00, 0x00, 0x00, 0x00, 0x00, 0x00, 0x00, 0x00,
];

/// The MD4 of `abc`.
const K: Hash = [
    0xA4, 0x48, 0x01, 0x7A, 0xAF, 0x21, 0xD8, 0x52, 0x5F, 0xC1, 0x0A, 0xE8, 0x7A, 0xA6, 0x72, 0x9D,
];

/// The MD4 of the empty text.
const OTHER: Hash = [
    0x31, 0xD6, 0xCF, 0xE0, 0xD1, 0x6A, 0xE9, 0x31, 0xB7, 0x3C, 0x59, 0xD7, 0xE0, 0xC0, 0x89, 0xC0,
];

const ROOT: Root = *b"twenty bytes of root";

fn frame(alloc: Global, protocol: u8, opcode: u8, pieces: &[&[u8]]) -> Result<Frame, Fail> {
    let mut payload = Vec::new(alloc);
    for piece in pieces {
        payload.extend_from_slice(piece)?;
    }
    Ok(Frame {
        protocol,
        opcode,
        payload: Bytes::new(payload),
    })
}

/// A message is written as this head and payload and read back the same, and each front of the payload that
/// is shorter than its fields need is refused as cut.
fn goes_there_and_back(
    rt: &(impl Abort + AllocGlobal),
    msg: &PeerMsg,
    head: [u8; HEAD],
    pieces: &[&[u8]],
    needed: usize,
) -> Result<(), Fail>
    requires { HasForm msg.now }
{
    let whole = frame(rt.alloc(), head[0], head[5], pieces)?;
    is_written(rt, msg, &head, whole.payload.as_slice())?;
    is_read(rt, &whole, msg)?;
    is_cut_below(rt, &whole, needed)
}

/// A message is written as this head and payload.
fn is_written(
    rt: &(impl Abort + AllocGlobal),
    msg: &PeerMsg,
    head: &[u8; HEAD],
    payload: &[u8],
) -> Result<(), Fail>
    requires { HasForm msg.now }
{
    let written = write_peer(rt.alloc(), msg)?;
    let mut wanted = Vec::from_slice(rt.alloc(), head)?;
    wanted.extend_from_slice(payload)?;
    assert_eq!(rt; written.as_slice(), wanted.as_slice());
    Ok(())
}

/// A frame is read as this message.
fn is_read(rt: &(impl Abort + AllocGlobal), frame: &Frame, msg: &PeerMsg) -> Result<(), Fail> {
    let read = read_peer(rt.alloc(), frame)?;
    let wanted = format!(in rt.alloc(); "{msg:?}")?;
    is_shown(rt, &read, wanted.as_str())
}

/// A message is shown as this text, which has each of its values.
fn is_shown(rt: &(impl Abort + AllocGlobal), msg: &PeerMsg, text: &str) -> Result<(), Fail> {
    let shown = format!(in rt.alloc(); "{msg:?}")?;
    assert_eq!(rt; shown.as_str(), text);
    Ok(())
}

/// Each front of a payload is refused as cut below a length, and read from it on.
fn is_cut_below(rt: &(impl Abort + AllocGlobal), whole: &Frame, needed: usize) -> Result<(), Fail> {
    for len in 0..whole.payload.as_slice().len() {
        is_front_cut_below(rt, whole, len, needed)?;
    }
    Ok(())
}

/// The front of a payload is refused as cut if it is below a length, and else read.
fn is_front_cut_below(
    rt: &(impl Abort + AllocGlobal),
    whole: &Frame,
    len: usize,
    needed: usize,
) -> Result<(), Fail> {
    let payload = whole.payload.as_slice().get(..len).ok_or("no front")?;
    let front = frame(rt.alloc(), whole.protocol, whole.opcode, &[payload])?;
    let found = read_peer(rt.alloc(), &front);
    assert!(rt;
        is_cut_rightly(&found, len, needed),
        "{len} bytes of {}",
        whole.opcode
    );
    Ok(())
}

/// Whether a front of this length is refused as cut if it is below a length, and else read.
fn is_cut_rightly(found: &Result<PeerMsg, MsgFault>, len: usize, needed: usize) -> bool {
    match found {
        Ok(PeerMsg::AichRefused { .. }) => len == 16,
        Ok(_) | Err(MsgFault::BadRange) => len >= needed,
        Err(MsgFault::Cut | MsgFault::BadTag(TagFault::Cut(_))) => len < needed,
        Err(_) => false,
    }
}

/// A frame is refused so.
fn is_refused(
    rt: &(impl Abort + AllocGlobal),
    protocol: u8,
    opcode: u8,
    payload: &[u8],
    fault: MsgFault,
) -> Result<(), Fail> {
    let frame = frame(rt.alloc(), protocol, opcode, &[payload])?;
    let found = read_peer(rt.alloc(), &frame).err();
    assert_eq!(rt; found, Some(fault), "{} bytes of {opcode}", payload.len());
    Ok(())
}

#[test]
fn writes_the_own_hello(rt: HostRuntime) -> Result<(), Fail> {
    let hello = PeerMsg::Hello(own_hello(rt.alloc())?);
    let head = [0xE3, 73, 0, 0, 0, 0x01];
    is_written(&rt, &hello, &head, &HELLO[HEAD..])
}

fn is_own(rt: &impl Abort, hello: &Hello) {
    assert_eq!(rt; hello.user, *b"ed2k-node-user-1");
    assert_eq!(rt; hello.tags.len(), 4);
}

#[test]
fn reads_a_hello(rt: HostRuntime) -> Result<(), Fail> {
    let frame = frame(rt.alloc(), EDONKEY, 0x01, &[&HELLO[HEAD..]])?;
    let PeerMsg::Hello(hello) = read_peer(rt.alloc(), &frame)? else {
        return Err("no hello".into());
    };
    is_own(&rt, &hello);
    Ok(())
}

#[test]
fn refuses_a_hello_cut_anywhere(rt: HostRuntime) -> Result<(), Fail> {
    for len in 0..HELLO.len() - HEAD {
        let fault = match len {
            23..27 => MsgFault::BadTag(TagFault::Cut(23)),
            27..42 => MsgFault::BadTag(TagFault::Cut(27)),
            42..50 => MsgFault::BadTag(TagFault::Cut(42)),
            50..58 => MsgFault::BadTag(TagFault::Cut(50)),
            58..66 => MsgFault::BadTag(TagFault::Cut(58)),
            _ => MsgFault::Cut,
        };
        is_refused(&rt, EDONKEY, 0x01, &HELLO[HEAD..HEAD + len], fault)?;
    }
    Ok(())
}

#[test]
fn names_each_fault(rt: HostRuntime) -> Result<(), Fail> {
    let mut no_hashes = [0xFF; 18];
    no_hashes[0] = 1;
    let mut many_tags = [0; 26];
    many_tags[22] = 1;
    many_tags[23] = 4;
    let too_many = MsgFault::BadTag(TagFault::TooMany(1_025));
    is_refused(&rt, EMULE, 0x40, &[], MsgFault::Compressed)?;
    is_refused(&rt, EDONKEY, 0x48, &K[..15], MsgFault::Cut)?;
    is_refused(&rt, EDONKEY, 0x46, &[0; 25], MsgFault::BadRange)?;
    is_refused(&rt, EDONKEY, 0x52, &no_hashes, MsgFault::Cut)?;
    is_refused(&rt, EDONKEY, 0x50, &no_hashes, MsgFault::Cut)?;
    is_refused(&rt, EDONKEY, 0x47, &[0; 39], MsgFault::Cut)?;
    is_refused(&rt, EMULE, 0x9C, &[0; 17], MsgFault::Cut)?;
    is_refused(&rt, EDONKEY, 0x4C, &many_tags, too_many)
}

/// A status with these bytes after its hash is read as this count and these bits.
fn is_status(
    rt: &(impl Abort + AllocGlobal),
    tail: &[u8],
    count: u16,
    bits: &[bool],
) -> Result<(), Fail> {
    let frame = frame(rt.alloc(), EDONKEY, 0x50, &[&K, tail])?;
    let status = PeerMsg::FileStatus {
        hash: K,
        count,
        bits: Bits::new(Vec::from_slice(rt.alloc(), bits)?),
    };
    is_read(rt, &frame, &status)
}

#[test]
fn reads_a_status(rt: HostRuntime) -> Result<(), Fail> {
    is_status(&rt, &[0, 0], 0, &[])?;
    is_status(&rt, &[2, 0, 0x02], 2, &[false, true])?;
    is_status(&rt, &[3, 0, 0xFC], 3, &[false, false, true])
}

#[test]
fn asks_for_three_bytes(rt: HostRuntime) -> Result<(), Fail> {
    let mut spans = Vec::new(rt.alloc());
    spans.push(Span { s: 0, e: 3 })?;
    let request = PeerMsg::RequestParts {
        hash: K,
        spans: Spans::new(spans),
    };
    let head = [0xE3, 0x29, 0, 0, 0, 0x47];
    let mut wanted = [0; 24];
    wanted[12] = 3;
    goes_there_and_back(&rt, &request, head, &[&K, &wanted], 40)
}

#[test]
fn reads_what_is_left_of_a_rank(rt: HostRuntime) -> Result<(), Fail> {
    let frame = frame(rt.alloc(), EMULE, 0x60, &[&[7, 1]])?;
    is_read(&rt, &frame, &PeerMsg::Rank { place: 263 })?;
    let head = [0xC5, 13, 0, 0, 0, 0x60];
    let payload = [0xFF, 0xFF, 0, 0, 0, 0, 0, 0, 0, 0, 0, 0];
    is_written(&rt, &PeerMsg::Rank { place: 70_000 }, &head, &payload)
}

/// A message of this opcode isn't known.
fn is_unknown(rt: &(impl Abort + AllocGlobal), protocol: u8, opcode: u8) -> Result<(), Fail> {
    let frame = frame(rt.alloc(), protocol, opcode, &[&[1, 2, 3]])?;
    is_read(rt, &frame, &PeerMsg::Other { protocol, opcode })
}

#[test]
fn names_what_it_does_not_know(rt: HostRuntime) -> Result<(), Fail> {
    is_unknown(&rt, EDONKEY, 0x02)?;
    is_unknown(&rt, EMULE, 0x85)?;
    is_unknown(&rt, EMULE, 0xA2)?;
    is_unknown(&rt, EMULE, 0x01)
}

fn hash_alone(
    rt: &(impl Abort + AllocGlobal),
    msg: &PeerMsg,
    protocol: u8,
    opcode: u8,
) -> Result<(), Fail>
    requires { HasForm msg.now }
{
    goes_there_and_back(rt, msg, [protocol, 17, 0, 0, 0, opcode], &[&K], 16)
}

#[test]
fn messages_of_a_hash_go_there_and_back(rt: HostRuntime) -> Result<(), Fail> {
    hash_alone(&rt, &PeerMsg::NoFile { hash: K }, EDONKEY, 0x48)?;
    hash_alone(&rt, &PeerMsg::SetFile { hash: K }, EDONKEY, 0x4F)?;
    hash_alone(&rt, &PeerMsg::SetRequest { hash: K }, EDONKEY, 0x51)?;
    hash_alone(&rt, &PeerMsg::StartUpload { hash: K }, EDONKEY, 0x54)?;
    hash_alone(&rt, &PeerMsg::NameRequest { hash: K }, EDONKEY, 0x58)?;
    hash_alone(&rt, &PeerMsg::AichRefused { hash: K }, EMULE, 0x9C)?;
    hash_alone(&rt, &PeerMsg::RootRequest { hash: K }, EMULE, 0x9E)
}

fn empty(
    rt: &(impl Abort + AllocGlobal),
    msg: &PeerMsg,
    protocol: u8,
    opcode: u8,
) -> Result<(), Fail>
    requires { HasForm msg.now }
{
    goes_there_and_back(rt, msg, [protocol, 1, 0, 0, 0, opcode], &[], 0)
}

#[test]
fn empty_messages_go_there_and_back(rt: HostRuntime) -> Result<(), Fail> {
    empty(&rt, &PeerMsg::Accept, EDONKEY, 0x55)?;
    empty(&rt, &PeerMsg::Cancel, EDONKEY, 0x56)?;
    empty(&rt, &PeerMsg::OutOfParts, EDONKEY, 0x57)?;
    let other = PeerMsg::Other {
        protocol: EMULE,
        opcode: 0xA2,
    };
    empty(&rt, &other, EMULE, 0xA2)
}

fn rank(rt: &(impl Abort + AllocGlobal)) -> Result<(), Fail> {
    let head = [0xC5, 13, 0, 0, 0, 0x60];
    let payload = [7, 1, 0, 0, 0, 0, 0, 0, 0, 0, 0, 0];
    goes_there_and_back(rt, &PeerMsg::Rank { place: 263 }, head, &[&payload], 2)
}

fn aich_request(rt: &(impl Abort + AllocGlobal)) -> Result<(), Fail> {
    let request = PeerMsg::AichRequest {
        hash: K,
        part: 258,
        root: ROOT,
    };
    let head = [0xC5, 39, 0, 0, 0, 0x9B];
    goes_there_and_back(rt, &request, head, &[&K, &[2, 1], &ROOT], 38)
}

fn root_answer(rt: &(impl Abort + AllocGlobal)) -> Result<(), Fail> {
    let root = PeerMsg::RootAnswer {
        hash: K,
        root: ROOT,
    };
    goes_there_and_back(rt, &root, [0xC5, 37, 0, 0, 0, 0x9D], &[&K, &ROOT], 36)
}

#[test]
fn messages_of_numbers_go_there_and_back(rt: HostRuntime) -> Result<(), Fail> {
    rank(&rt)?;
    aich_request(&rt)?;
    root_answer(&rt)
}

fn bytes(alloc: Global, bytes: &[u8]) -> Result<Bytes, Fail>
    ensures { IfOk result (λ copy. copy ≡ bytes.now) }
{
    Ok(Bytes::new(Vec::from_slice(alloc, bytes)?))
}

fn name_answer(rt: &(impl Abort + AllocGlobal)) -> Result<(), Fail> {
    let name = PeerMsg::NameAnswer {
        hash: K,
        name: bytes(rt.alloc(), b"abc")?,
    };
    let head = [0xE3, 22, 0, 0, 0, 0x59];
    goes_there_and_back(rt, &name, head, &[&K, &[3, 0], b"abc"], 21)
}

fn set_answer(rt: &(impl Abort + AllocGlobal)) -> Result<(), Fail> {
    let set = PeerMsg::SetAnswer {
        hash: K,
        set: Hashes::new(Vec::from_slice(rt.alloc(), &[K, OTHER])?),
    };
    let head = [0xE3, 51, 0, 0, 0, 0x52];
    goes_there_and_back(rt, &set, head, &[&K, &[2, 0], &K, &OTHER], 50)
}

fn aich_answer(rt: &(impl Abort + AllocGlobal)) -> Result<(), Fail> {
    let packet = PeerMsg::AichAnswer {
        hash: K,
        part: 258,
        root: ROOT,
        packet: bytes(rt.alloc(), b"abc")?,
    };
    let head = [0xC5, 42, 0, 0, 0, 0x9C];
    goes_there_and_back(rt, &packet, head, &[&K, &[2, 1], &ROOT, b"abc"], 38)
}

#[test]
fn lists_go_there_and_back(rt: HostRuntime) -> Result<(), Fail> {
    name_answer(&rt)?;
    set_answer(&rt)?;
    aich_answer(&rt)
}

fn sending_part(rt: &(impl Abort + AllocGlobal)) -> Result<(), Fail> {
    let piece = PeerMsg::SendingPart {
        hash: K,
        start: 1,
        end: 4,
        piece: bytes(rt.alloc(), b"abc")?,
    };
    let head = [0xE3, 28, 0, 0, 0, 0x46];
    let range = [1, 0, 0, 0, 4, 0, 0, 0];
    goes_there_and_back(rt, &piece, head, &[&K, &range, b"abc"], 24)
}

fn file_status(rt: &(impl Abort + AllocGlobal)) -> Result<(), Fail> {
    let status = PeerMsg::FileStatus {
        hash: K,
        count: 2,
        bits: Bits::new(Vec::from_slice(rt.alloc(), &[false, true])?),
    };
    let head = [0xE3, 20, 0, 0, 0, 0x50];
    goes_there_and_back(rt, &status, head, &[&K, &[2, 0, 2]], 19)
}

#[test]
fn spans_go_there_and_back(rt: HostRuntime) -> Result<(), Fail> {
    sending_part(&rt)?;
    file_status(&rt)
}

fn hello(rt: &(impl Abort + AllocGlobal)) -> Result<(), Fail> {
    let hello = PeerMsg::Hello(own_hello(rt.alloc())?);
    let head = [0xE3, 73, 0, 0, 0, 0x01];
    goes_there_and_back(rt, &hello, head, &[&HELLO[HEAD..]], 72)
}

fn hello_answer(rt: &(impl Abort + AllocGlobal)) -> Result<(), Fail> {
    let answer = PeerMsg::HelloAnswer(own_hello(rt.alloc())?);
    let head = [0xE3, 72, 0, 0, 0, 0x4C];
    goes_there_and_back(rt, &answer, head, &[&HELLO[HEAD + 1..]], 71)
}

#[test]
fn hellos_go_there_and_back(rt: HostRuntime) -> Result<(), Fail> {
    hello(&rt)?;
    hello_answer(&rt)
}

/// A message isn't written, since its payload would have so many bytes.
fn is_too_long(rt: &(impl Abort + AllocGlobal), msg: &PeerMsg, len: u64)
    requires { HasForm msg.now }
{
    let found = write_peer(rt.alloc(), msg).err();
    assert_eq!(rt; found, Some(MsgTooLong::Long(len)));
}

#[test]
fn refuses_a_set_without_room(rt: HostRuntime) -> Result<(), Fail> {
    let mut set = Vec::new(rt.alloc());
    for _ in 0..65_536 {
        set.push(K)?;
    }
    let msg = PeerMsg::SetAnswer {
        hash: K,
        set: Hashes::new(set),
    };
    is_too_long(&rt, &msg, 18 + 16 * 65_536);
    Ok(())
}
