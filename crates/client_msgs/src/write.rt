//! A message written as a frame.
ghost use Rattle.std.specs.Prelude.{◌≡◌, ℕ, ◌<◌, ◌≤◌, ◌^◌, List, ◌∷◌, ◌++◌, length, drop, min, replicate, IfOk, IfErr, OnOk};
ghost use Rattle.std.specs.List.{flat_map};
ghost use Rattle.byteorder.specs.Endian.{little_bytes};
ghost use Rattle.ed2k_tags.specs.Fields.{counted};
ghost use Rattle.client_msgs.specs.Spelling.{spell_hello, range_at, ranges, three, bit_value, byte_of, bitmap, payload_of, protocol_of, opcode_of, spell_msg, counts_fit, HasRoom, IsTooLong, HasForm};

use crate::fault::MsgTooLong;
use crate::msg::{Hash, Hello, PeerMsg, Root};
use crate::opcode::*;
use ed2k_frame::{EDONKEY, EMULE, FRAME_LIMIT, HEAD, frame_head, write_head};
use ed2k_outside::Bytes;
use ed2k_tags::fields::{append_low16, append_low32, append_text, append_u16, append_u32};
use ed2k_tags::{append_tags, have_spelling};
use part_sizes::Span;
use std::alloc::{AllocError, Global};

/// The bytes of a sending part before its piece.
const PIECE_HEAD: usize = 24;

/// The frame of a message, which [`crate::read_peer`] reads again. A rank above 65,535 is written as
/// 65,535, and an `Other` without payload.
///
/// `Long` comes exactly where the payload would pass the 1,999,999 bytes that a frame has room for, or
/// where a list or a text is longer than the count before it can say. It carries the length that the payload
/// would have. `NoMemory` may come in place of either answer.
pub fn write_peer(alloc: Global, msg: &PeerMsg) -> Result<Bytes, MsgTooLong>
    requires { HasForm msg.now }
    ensures written { IfOk result (λ bytes. bytes ≡ spell_msg msg.now) }
    ensures room { IfOk result (λ bytes. HasRoom msg.now) }
    ensures long { IfErr result (λ fault. IsTooLong fault msg.now) }
{
    let mut out = Vec::new(alloc);
    out.extend_from_slice(&[0; HEAD])?;
    append_payload(&mut out, msg)?;
    let len = out.len() - HEAD;
    if len >= FRAME_LIMIT as usize || !lists_fit(msg) {
        return Err(MsgTooLong::Long(len as u64));
    }
    let head = frame_head(protocol(msg), opcode(msg), len as u32);
    write_head(&mut out, &head);
    Ok(Bytes::new(out))
}

fn protocol(msg: &PeerMsg) -> u8
    ensures { result ≡ protocol_of msg.now }
{
    match msg {
        PeerMsg::Rank { .. }
        | PeerMsg::AichRequest { .. }
        | PeerMsg::AichAnswer { .. }
        | PeerMsg::AichRefused { .. }
        | PeerMsg::RootAnswer { .. }
        | PeerMsg::RootRequest { .. } => EMULE,
        PeerMsg::Other { protocol, .. } => *protocol,
        _ => EDONKEY,
    }
}

fn opcode(msg: &PeerMsg) -> u8
    ensures { result ≡ opcode_of msg.now }
{
    match msg {
        PeerMsg::Hello(_) => HELLO,
        PeerMsg::HelloAnswer(_) => HELLO_ANSWER,
        PeerMsg::SendingPart { .. } => SENDING_PART,
        PeerMsg::RequestParts { .. } => REQUEST_PARTS,
        PeerMsg::NoFile { .. } => NO_FILE,
        PeerMsg::SetFile { .. } => SET_FILE,
        PeerMsg::FileStatus { .. } => FILE_STATUS,
        PeerMsg::SetRequest { .. } => SET_REQUEST,
        PeerMsg::SetAnswer { .. } => SET_ANSWER,
        PeerMsg::StartUpload { .. } => START_UPLOAD,
        PeerMsg::Accept => ACCEPT,
        PeerMsg::Cancel => CANCEL,
        PeerMsg::OutOfParts => OUT_OF_PARTS,
        PeerMsg::NameRequest { .. } => NAME_REQUEST,
        PeerMsg::NameAnswer { .. } => NAME_ANSWER,
        PeerMsg::Rank { .. } => RANK,
        PeerMsg::AichRequest { .. } => AICH_REQUEST,
        PeerMsg::AichAnswer { .. } => AICH_ANSWER,
        PeerMsg::AichRefused { .. } => AICH_ANSWER,
        PeerMsg::RootAnswer { .. } => ROOT_ANSWER,
        PeerMsg::RootRequest { .. } => ROOT_REQUEST,
        PeerMsg::Other { opcode, .. } => *opcode,
    }
}

/// True exactly where each list fits the count that is written before it.
fn lists_fit(msg: &PeerMsg) -> bool
    ensures { result ≡ counts_fit msg.now }
{
    match msg {
        PeerMsg::Hello(hello) | PeerMsg::HelloAnswer(hello) => have_spelling(hello.tags.as_slice()),
        PeerMsg::SetAnswer { set, .. } => set.len() < 0x1_0000,
        PeerMsg::NameAnswer { name, .. } => name.len() < 0x1_0000,
        _ => true,
    }
}

/// Adds the payload of a message at the end.
#[tactic(auto, unfolding(crate::specs::Spelling::payload_of))]
fn append_payload(out: &mut Vec<u8>, msg: &PeerMsg) -> Result<(), AllocError>
    requires { HasForm msg.now }
    ensures { OnOk result (out.new.items ≡ out.old.items ++ payload_of msg.now) }
{
    match msg {
        PeerMsg::Hello(hello) => append_greeting(out, hello),
        PeerMsg::HelloAnswer(hello) => append_hello(out, hello),
        PeerMsg::SendingPart {
            hash,
            start,
            end,
            piece,
        } => append_piece(out, hash, *start, *end, piece.as_slice()),
        PeerMsg::RequestParts { hash, spans } => append_request(out, hash, spans.as_slice()),
        PeerMsg::NoFile { hash }
        | PeerMsg::SetFile { hash }
        | PeerMsg::SetRequest { hash }
        | PeerMsg::StartUpload { hash }
        | PeerMsg::NameRequest { hash }
        | PeerMsg::AichRefused { hash }
        | PeerMsg::RootRequest { hash } => out.extend_from_slice(hash),
        PeerMsg::FileStatus { hash, count, bits } => {
            append_status(out, hash, *count, bits.as_slice())
        }
        PeerMsg::SetAnswer { hash, set } => append_set(out, hash, set.as_slice()),
        PeerMsg::Accept | PeerMsg::Cancel | PeerMsg::OutOfParts | PeerMsg::Other { .. } => Ok(()),
        PeerMsg::NameAnswer { hash, name } => append_name(out, hash, name.as_slice()),
        PeerMsg::Rank { place } => append_rank(out, *place),
        PeerMsg::AichRequest { hash, part, root } => append_part(out, hash, *part, root),
        PeerMsg::AichAnswer {
            hash,
            part,
            root,
            packet,
        } => append_packet(out, hash, *part, root, packet.as_slice()),
        PeerMsg::RootAnswer { hash, root } => append_root(out, hash, root),
    }
}

/// Adds a hello, whose first byte is read past.
fn append_greeting(out: &mut Vec<u8>, hello: &Hello) -> Result<(), AllocError>
    ensures { OnOk result (out.new.items ≡ out.old.items ++ 0x10 ∷ spell_hello hello.now) }
{
    out.push(0x10)?;
    append_hello(out, hello)
}

fn append_hello(out: &mut Vec<u8>, hello: &Hello) -> Result<(), AllocError>
    ensures { OnOk result (out.new.items ≡ out.old.items ++ spell_hello hello.now) }
{
    out.extend_from_slice(&hello.user)?;
    append_u32(out, hello.id)?;
    append_u16(out, hello.port)?;
    append_tags(out, hello.tags.as_slice())?;
    append_u32(out, hello.server_ip)?;
    append_u16(out, hello.server_port)
}

fn append_piece(
    out: &mut Vec<u8>,
    hash: &Hash,
    start: u32,
    end: u32,
    piece: &[u8],
) -> Result<(), AllocError>
    ensures { OnOk result (out.new.items ≡ out.old.items ++ (hash.now ++ little_bytes 4 start ++ little_bytes 4 end ++ piece.now)) }
{
    out.reserve(PIECE_HEAD + piece.len())?;
    out.extend_from_slice(hash)?;
    append_u32(out, start)?;
    append_u32(out, end)?;
    out.extend_from_slice(piece)
}

fn append_request(out: &mut Vec<u8>, hash: &Hash, spans: &[Span]) -> Result<(), AllocError>
    ensures { OnOk result (out.new.items ≡ out.old.items ++ (hash.now ++ ranges spans.now)) }
{
    out.extend_from_slice(hash)?;
    append_ranges(out, spans)
}

/// Adds three starts and three ends, of which unused ones are 0.
#[tactic(auto, unfolding(crate::specs::Spelling::ranges))]
fn append_ranges(out: &mut Vec<u8>, spans: &[Span]) -> Result<(), AllocError>
    ensures { OnOk result (out.new.items ≡ out.old.items ++ ranges spans.now) }
{
    let first = span_at(spans, 0);
    let second = span_at(spans, 1);
    let third = span_at(spans, 2);
    append_three(out, first.s, second.s, third.s)?;
    append_three(out, first.e, second.e, third.e)
}

fn append_three(out: &mut Vec<u8>, a: u64, b: u64, c: u64) -> Result<(), AllocError>
    ensures { OnOk result (out.new.items ≡ out.old.items ++ three a b c) }
{
    append_low32(out, a)?;
    append_low32(out, b)?;
    append_low32(out, c)
}

fn span_at(spans: &[Span], place: usize) -> Span
    ensures { result ≡ range_at spans.now place }
{
    match spans.get(place) {
        Some(span) => *span,
        None => Span { s: 0, e: 0 },
    }
}

fn append_status(
    out: &mut Vec<u8>,
    hash: &Hash,
    count: u16,
    bits: &[bool],
) -> Result<(), AllocError>
    requires { length bits.now < 2 ^ 16 }
    ensures { OnOk result (out.new.items ≡ out.old.items ++ (hash.now ++ little_bytes 2 count ++ bitmap bits.now)) }
{
    out.extend_from_slice(hash)?;
    append_u16(out, count)?;
    append_bitmap(out, bits)
}

fn append_bitmap(out: &mut Vec<u8>, bits: &[bool]) -> Result<(), AllocError>
    requires { length bits.now < 2 ^ 16 }
    ensures { OnOk result (out.new.items ≡ out.old.items ++ bitmap bits.now) }
{
    for k in 0..bits.len().div_ceil(8) {
        out.push(byte_at(bits, k))?;
    }
    Ok(())
}

/// Eight bits of a bitmap, the lowest first. Bits past the end are 0.
#[tactic(auto, unfolding(crate::specs::Spelling::byte_of))]
fn byte_at(bits: &[bool], k: usize) -> u8
    requires { k ≤ 8192 }
    ensures { result ≡ byte_of bits.now k }
{
    let place = 8 * k;
    bit_at(bits, place)
        + 2 * bit_at(bits, place + 1)
        + 4 * bit_at(bits, place + 2)
        + 8 * bit_at(bits, place + 3)
        + 16 * bit_at(bits, place + 4)
        + 32 * bit_at(bits, place + 5)
        + 64 * bit_at(bits, place + 6)
        + 128 * bit_at(bits, place + 7)
}

fn bit_at(bits: &[bool], place: usize) -> u8
    ensures is { result ≡ bit_value bits.now place }
    ensures small { result ≤ 1 }
{
    match bits.get(place) {
        Some(true) => 1,
        _ => 0,
    }
}

fn append_set(out: &mut Vec<u8>, hash: &Hash, set: &[Hash]) -> Result<(), AllocError>
    ensures { OnOk result (out.new.items ≡ out.old.items ++ (hash.now ++ little_bytes 2 (length set.now) ++ flat_map (λ (part : List ℕ). part) set.now)) }
{
    out.extend_from_slice(hash)?;
    append_low16(out, set.len() as u64)?;
    for part in set {
        out.extend_from_slice(part)?;
    }
    Ok(())
}

fn append_name(out: &mut Vec<u8>, hash: &Hash, name: &[u8]) -> Result<(), AllocError>
    ensures { OnOk result (out.new.items ≡ out.old.items ++ (hash.now ++ counted 2 name.now)) }
{
    out.extend_from_slice(hash)?;
    append_text(out, name)
}

/// Adds a rank's place and ten bytes of 0.
fn append_rank(out: &mut Vec<u8>, place: u32) -> Result<(), AllocError>
    ensures { OnOk result (out.new.items ≡ out.old.items ++ (little_bytes 2 (min place 65535) ++ replicate 10 0)) }
{
    append_u16(out, place.min(65_535) as u16)?;
    out.extend_from_slice(&[0; 10])
}

/// Adds a part of a file under a root.
fn append_part(out: &mut Vec<u8>, hash: &Hash, part: u16, root: &Root) -> Result<(), AllocError>
    ensures { OnOk result (out.new.items ≡ out.old.items ++ (hash.now ++ little_bytes 2 part ++ root.now)) }
{
    out.extend_from_slice(hash)?;
    append_u16(out, part)?;
    out.extend_from_slice(root)
}

/// Adds the recovery data of a part of a file under a root.
fn append_packet(
    out: &mut Vec<u8>,
    hash: &Hash,
    part: u16,
    root: &Root,
    packet: &[u8],
) -> Result<(), AllocError>
    ensures { OnOk result (out.new.items ≡ out.old.items ++ (hash.now ++ little_bytes 2 part ++ root.now ++ packet.now)) }
{
    append_part(out, hash, part, root)?;
    out.extend_from_slice(packet)
}

fn append_root(out: &mut Vec<u8>, hash: &Hash, root: &Root) -> Result<(), AllocError>
    ensures { OnOk result (out.new.items ≡ out.old.items ++ (hash.now ++ root.now)) }
{
    out.extend_from_slice(hash)?;
    out.extend_from_slice(root)
}
