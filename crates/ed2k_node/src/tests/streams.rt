//! What a peer says, as the bytes of a stream, and what a download left, in short.
ghost use Rattle.std.specs.Prelude.{◌≡◌, ◌<◌, length};
ghost use Rattle.client_msgs.specs.Spelling.{HasForm};
ghost use Rattle.ed2k_frame.specs.Frame.{IsProtocol};

use client_msgs::{Hash, PeerMsg, own_hello, write_peer};
use ed2k_frame::{EDONKEY, EMULE, FRAME_LIMIT, Frame, read_frames, write_frame};
use ed2k_outside::Bytes;
use part_hashset::SetHasher;
use part_sizes::{Bits, Hashes};
use reserve_core::{Entry, Event};
use std::alloc::Global;
use std::test::Fail;

/// The MD4 of `abc`.
pub(crate) const ABC: Hash = [
    0xA4, 0x48, 0x01, 0x7A, 0xAF, 0x21, 0xD8, 0x52, 0x5F, 0xC1, 0x0A, 0xE8, 0x7A, 0xA6, 0x72, 0x9D,
];

/// The most bytes of a file in a message of a usual peer.
const PIECE: usize = 10_240;

/// Something that a peer says. Where it names a file, its hash comes first.
#[derive(Clone, Copy, Debug)]
pub(crate) enum Say {
    HelloAnswer,
    Name(Hash),
    /// Which parts the peer has; none at all stands for every part.
    Status(Hash, &'static [bool]),
    Set(Hash, &'static [Hash]),
    NoFile(Hash),
    Accept,
    OutOfParts,
    Rank(u32),
    /// Bytes of the file, from a position on.
    Piece(Hash, u32, &'static [u8]),
    /// An eDonkey frame with this opcode and payload.
    EDonkey(u8, &'static [u8]),
    /// The same of the eMule extension.
    EMule(u8, &'static [u8]),
    /// Bytes as they are.
    Bytes(&'static [u8]),
}

/// The smallest download: a status with count 0, and the three bytes at once.
pub(crate) const TALK: [Say; 5] = [
    Say::HelloAnswer,
    Say::Name(ABC),
    Say::Status(ABC, &[]),
    Say::Accept,
    Say::Piece(ABC, 0, b"abc"),
];

fn append_msg(alloc: Global, stream: &mut Vec<u8>, msg: &PeerMsg) -> Result<(), Fail>
    requires { HasForm msg.now }
{
    stream.extend_from_slice(write_peer(alloc, msg)?.as_slice())?;
    Ok(())
}

fn append_frame(
    alloc: Global,
    stream: &mut Vec<u8>,
    protocol: u8,
    opcode: u8,
    payload: &[u8],
) -> Result<(), Fail>
    requires { IsProtocol protocol }
{
    if payload.len() >= FRAME_LIMIT as usize {
        return Err("a long payload".into());
    }
    let payload = Bytes::new(payload.to_vec(alloc)?);
    let frame = Frame {
        protocol,
        opcode,
        payload,
    };
    stream.extend_from_slice(write_frame(alloc, &frame)?.as_slice())?;
    Ok(())
}

/// Answers the end of the piece.
fn append_piece(
    alloc: Global,
    stream: &mut Vec<u8>,
    hash: Hash,
    start: u32,
    piece: &[u8],
) -> Result<u32, Fail> {
    let end = u32::try_from(piece.len())?
        .checked_add(start)
        .ok_or("a position that doesn't fit")?;
    let piece = Bytes::new(piece.to_vec(alloc)?);
    let msg = PeerMsg::SendingPart {
        hash,
        start,
        end,
        piece,
    };
    append_msg(alloc, stream, &msg)?;
    Ok(end)
}

fn append_status(
    alloc: Global,
    stream: &mut Vec<u8>,
    hash: Hash,
    bits: &[bool],
) -> Result<(), Fail> {
    let count = u16::try_from(bits.len())?;
    let bits = Bits::new(bits.to_vec(alloc)?);
    append_msg(alloc, stream, &PeerMsg::FileStatus { hash, count, bits })
}

fn append_set(alloc: Global, stream: &mut Vec<u8>, hash: Hash, set: &[Hash]) -> Result<(), Fail> {
    let set = Hashes::new(set.to_vec(alloc)?);
    append_msg(alloc, stream, &PeerMsg::SetAnswer { hash, set })
}

/// Adds something at the end of a stream.
fn append(alloc: Global, stream: &mut Vec<u8>, say: Say) -> Result<(), Fail> {
    match say {
        Say::HelloAnswer => { append_msg(alloc, stream, &PeerMsg::HelloAnswer(own_hello(alloc)?)) }
        Say::Name(hash) => {
            let name = Bytes::new(b"abc".to_vec(alloc)?);
            append_msg(alloc, stream, &PeerMsg::NameAnswer { hash, name })
        }
        Say::Status(hash, bits) => append_status(alloc, stream, hash, bits),
        Say::Set(hash, set) => append_set(alloc, stream, hash, set),
        Say::NoFile(hash) => append_msg(alloc, stream, &PeerMsg::NoFile { hash }),
        Say::Accept => append_msg(alloc, stream, &PeerMsg::Accept),
        Say::OutOfParts => append_msg(alloc, stream, &PeerMsg::OutOfParts),
        Say::Rank(place) => append_msg(alloc, stream, &PeerMsg::Rank { place }),
        Say::Piece(hash, start, piece) => {
            append_piece(alloc, stream, hash, start, piece)?;
            Ok(())
        }
        Say::EDonkey(opcode, payload) => append_frame(alloc, stream, EDONKEY, opcode, payload),
        Say::EMule(opcode, payload) => append_frame(alloc, stream, EMULE, opcode, payload),
        Say::Bytes(bytes) => Ok(stream.extend_from_slice(bytes)?),
    }
}

/// The stream of the first so many messages of the smallest download, and then of these.
pub(crate) fn talk_then(alloc: Global, count: usize, says: &[Say]) -> Result<Vec<u8>, Fail> {
    let mut stream = Vec::new(alloc);
    for say in TALK.iter().take(count) {
        append(alloc, &mut stream, *say)?;
    }
    for say in says {
        append(alloc, &mut stream, *say)?;
    }
    Ok(stream)
}

/// The stream of the smallest download, with this put in behind the first so many messages.
pub(crate) fn talk_with(alloc: Global, count: usize, says: &[Say]) -> Result<Vec<u8>, Fail> {
    let mut stream = talk_then(alloc, count, says)?;
    for say in TALK.iter().skip(count) {
        append(alloc, &mut stream, *say)?;
    }
    Ok(stream)
}

/// Adds bytes of a file, from a position on, in pieces of the usual size.
pub(crate) fn append_bytes(
    alloc: Global,
    stream: &mut Vec<u8>,
    hash: Hash,
    start: u32,
    bytes: &[u8],
) -> Result<(), Fail> {
    let mut at = start;
    for piece in bytes.chunks(PIECE) {
        at = append_piece(alloc, stream, hash, at, piece)?;
    }
    Ok(())
}

/// The stream of a peer that has all of a file and sends it once, with its hash set unless that is
/// empty.
pub(crate) fn file_stream(
    alloc: Global,
    hash: Hash,
    set: &[Hash],
    bytes: &[u8],
) -> Result<Vec<u8>, Fail> {
    let mut stream = Vec::new(alloc);
    append(alloc, &mut stream, Say::HelloAnswer)?;
    append(alloc, &mut stream, Say::Name(hash))?;
    append(alloc, &mut stream, Say::Status(hash, &[]))?;
    if !set.is_empty() {
        append_set(alloc, &mut stream, hash, set)?;
    }
    append(alloc, &mut stream, Say::Accept)?;
    append_bytes(alloc, &mut stream, hash, 0, bytes)?;
    Ok(stream)
}

/// The file hash and the hash set of these bytes.
pub(crate) fn hash_set(alloc: Global, bytes: &[u8]) -> Result<(Hash, Hashes), Fail> {
    let mut hasher = SetHasher::new(alloc);
    hasher.feed(bytes)?;
    match hasher.finish() {
        Ok(found) => Ok(found),
        Err((_, refused)) => Err(refused.into()),
    }
}

/// So many bytes: 0 to 250 again and again.
pub(crate) fn counted_bytes(alloc: Global, size: usize) -> Result<Vec<u8>, Fail> {
    let mut bytes = Vec::with_capacity(alloc, size)?;
    for place in 0..size {
        bytes.push((place % 251) as u8)?;
    }
    Ok(bytes)
}

/// The opcodes of what was sent, in order.
pub(crate) fn opcodes(alloc: Global, sent: &[u8]) -> Result<Vec<u8>, Fail> {
    let mut pieces = Vec::new(alloc);
    pieces.push(Bytes::new(sent.to_vec(alloc)?))?;
    let mut opcodes = Vec::new(alloc);
    for frame in read_frames(alloc, &pieces)?.iter() {
        opcodes.push(frame.opcode)?;
    }
    Ok(opcodes)
}

fn letter(event: &Event) -> u8 {
    match event {
        Event::Opened(_) => b'O',
        Event::Hashes(_) => b's',
        Event::Offer(..) => b'o',
        Event::Reserve(..) => b'r',
        Event::Write(..) => b'w',
        Event::Release(_) => b'l',
        Event::Commit => b'c',
        Event::Verdict(..) => b'v',
        Event::Recovered(..) => b'a',
        Event::Dropped(_) => b'd',
    }
}

/// A log with a letter for each entry.
pub(crate) fn letters(alloc: Global, log: &[Entry]) -> Result<Vec<u8>, Fail> {
    let mut letters = Vec::new(alloc);
    for entry in log {
        letters.push(letter(&entry.event))?;
    }
    Ok(letters)
}
