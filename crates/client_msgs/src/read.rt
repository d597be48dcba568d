//! A frame read as a message.
ghost use Rattle.std.specs.Prelude.{◌≡◌};
ghost use Rattle.ed2k_tags.specs.Fields.{Finds, bytes_at, number_at};
ghost use Rattle.ed2k_tags.specs.Reading.{Gives, list_at};
ghost use Rattle.client_msgs.specs.Reading.{tagged, alone, hello_at, greeting, hello_answer, sending_part, request_parts, file_status, set_answer, name_answer, long_rank, rank, aich_request, aich_answer, root_answer, edonkey, emule, message};

use crate::fault::MsgFault;
use crate::lists::{HASH, push_used, take_bits, take_hashes};
use crate::msg::{Hash, Hello, PeerMsg};
use crate::opcode::*;
use ed2k_frame::{EDONKEY, EMULE, Frame};
use ed2k_tags::fields::{
    Short, copied, read_array, read_bytes, read_text, read_u8, read_u16, read_u32,
};
use ed2k_tags::{TagFault, Tags, tags_at};
use part_sizes::Spans;
use std::alloc::Global;

/// The message that a frame is.
///
/// Bytes after the message's fields are ignored, and a message of another opcode or protocol is `Other`.
/// The fields are read in their order, and the first fault is answered: `Compressed` where the frame brings
/// a compressed part, `Cut` where the payload ends within a field other than the tags, `BadTag` where the
/// tags aren't read, with their fault, and `BadRange` where a sending part's end isn't its start and the
/// number of its bytes. `NoMemory` may come in place of any answer.
pub fn read_peer(alloc: Global, frame: &Frame) -> Result<PeerMsg, MsgFault>
    ensures { Gives MsgFault.NoMemory (λ msg. msg) result (message frame.now) }
{
    let payload = frame.payload.as_slice();
    match frame.protocol {
        EDONKEY => read_edonkey(alloc, frame.opcode, payload),
        EMULE => read_emule(alloc, frame.opcode, payload),
        protocol => Ok(PeerMsg::Other {
            protocol,
            opcode: frame.opcode,
        }),
    }
}

fn read_edonkey(alloc: Global, opcode: u8, payload: &[u8]) -> Result<PeerMsg, MsgFault>
    ensures { Gives MsgFault.NoMemory (λ msg. msg) result (edonkey opcode payload.now) }
{
    match opcode {
        HELLO => read_greeting(alloc, payload),
        SENDING_PART => read_sending_part(alloc, payload),
        REQUEST_PARTS => read_request_parts(alloc, payload),
        NO_FILE => Ok(PeerMsg::NoFile {
            hash: hash_alone(payload)?,
        }),
        HELLO_ANSWER => read_hello_answer(alloc, payload),
        SET_FILE => Ok(PeerMsg::SetFile {
            hash: hash_alone(payload)?,
        }),
        FILE_STATUS => read_file_status(alloc, payload),
        SET_REQUEST => Ok(PeerMsg::SetRequest {
            hash: hash_alone(payload)?,
        }),
        SET_ANSWER => read_set_answer(alloc, payload),
        START_UPLOAD => Ok(PeerMsg::StartUpload {
            hash: hash_alone(payload)?,
        }),
        ACCEPT => Ok(PeerMsg::Accept),
        CANCEL => Ok(PeerMsg::Cancel),
        OUT_OF_PARTS => Ok(PeerMsg::OutOfParts),
        NAME_REQUEST => Ok(PeerMsg::NameRequest {
            hash: hash_alone(payload)?,
        }),
        NAME_ANSWER => read_name_answer(alloc, payload),
        LONG_RANK => read_long_rank(payload),
        opcode => Ok(PeerMsg::Other {
            protocol: EDONKEY,
            opcode,
        }),
    }
}

fn read_emule(alloc: Global, opcode: u8, payload: &[u8]) -> Result<PeerMsg, MsgFault>
    ensures { Gives MsgFault.NoMemory (λ msg. msg) result (emule opcode payload.now) }
{
    match opcode {
        COMPRESSED_PART => Err(MsgFault::Compressed),
        RANK => read_rank(payload),
        AICH_REQUEST => read_aich_request(payload),
        AICH_ANSWER => read_aich_answer(alloc, payload),
        ROOT_ANSWER => read_root_answer(payload),
        ROOT_REQUEST => Ok(PeerMsg::RootRequest {
            hash: hash_alone(payload)?,
        }),
        opcode => Ok(PeerMsg::Other {
            protocol: EMULE,
            opcode,
        }),
    }
}

/// The hash that a payload begins with.
fn hash_alone(payload: &[u8]) -> Result<Hash, Short>
    ensures { Finds (λ hash. hash) result (alone (bytes_at 16 payload.now)) }
{
    let (hash, _) = read_array(payload)?;
    Ok(hash)
}

/// The tags at the front of bytes that end where the payload does.
fn read_tags_field(alloc: Global, bytes: &[u8], end: usize) -> Result<(Tags, &[u8]), MsgFault>
    ensures { Gives MsgFault.NoMemory (λ x. (x.0, x.1.now)) result (tagged (list_at end bytes.now)) }
{
    match tags_at(alloc, bytes, end) {
        Ok((tags, rest)) => Ok((Tags::new(tags), rest)),
        Err(TagFault::NoMemory) => Err(MsgFault::NoMemory),
        Err(fault) => Err(MsgFault::BadTag(fault)),
    }
}

/// What a client says of itself, in bytes that end where the payload does.
#[tactic(auto, unfolding(crate::specs::Reading::hello_at))]
fn read_hello(alloc: Global, bytes: &[u8], end: usize) -> Result<Hello, MsgFault>
    ensures { Gives MsgFault.NoMemory (λ hello. hello) result (hello_at end bytes.now) }
{
    let (user, rest) = read_array(bytes)?;
    let (id, rest) = read_u32(rest)?;
    let (port, rest) = read_u16(rest)?;
    let (tags, rest) = read_tags_field(alloc, rest, end)?;
    let (server_ip, rest) = read_u32(rest)?;
    let (server_port, _) = read_u16(rest)?;
    Ok(Hello {
        user,
        id,
        port,
        tags,
        server_ip,
        server_port,
    })
}

/// A hello, whose first byte is ignored.
#[tactic(auto, unfolding(crate::specs::Reading::greeting))]
fn read_greeting(alloc: Global, payload: &[u8]) -> Result<PeerMsg, MsgFault>
    ensures { Gives MsgFault.NoMemory (λ msg. msg) result (greeting payload.now) }
{
    let (_, rest) = read_u8(payload)?;
    let hello = read_hello(alloc, rest, payload.len())?;
    Ok(PeerMsg::Hello(hello))
}

#[tactic(auto, unfolding(crate::specs::Reading::hello_answer))]
fn read_hello_answer(alloc: Global, payload: &[u8]) -> Result<PeerMsg, MsgFault>
    ensures { Gives MsgFault.NoMemory (λ msg. msg) result (hello_answer payload.now) }
{
    let hello = read_hello(alloc, payload, payload.len())?;
    Ok(PeerMsg::HelloAnswer(hello))
}

#[tactic(auto, unfolding(crate::specs::Reading::sending_part))]
fn read_sending_part(alloc: Global, payload: &[u8]) -> Result<PeerMsg, MsgFault>
    ensures { Gives MsgFault.NoMemory (λ msg. msg) result (sending_part payload.now) }
{
    let (hash, rest) = read_array(payload)?;
    let (start, rest) = read_u32(rest)?;
    let (end, piece) = read_u32(rest)?;
    if end as usize != start as usize + piece.len() {
        return Err(MsgFault::BadRange);
    }
    let piece = copied(alloc, piece)?;
    Ok(PeerMsg::SendingPart {
        hash,
        start,
        end,
        piece,
    })
}

#[tactic(auto, unfolding(crate::specs::Reading::request_parts))]
fn read_request_parts(alloc: Global, payload: &[u8]) -> Result<PeerMsg, MsgFault>
    ensures { Gives MsgFault.NoMemory (λ msg. msg) result (request_parts payload.now) }
{
    let (hash, rest) = read_array(payload)?;
    let (first_start, rest) = read_u32(rest)?;
    let (second_start, rest) = read_u32(rest)?;
    let (third_start, rest) = read_u32(rest)?;
    let (first_end, rest) = read_u32(rest)?;
    let (second_end, rest) = read_u32(rest)?;
    let (third_end, _) = read_u32(rest)?;
    let mut spans = Vec::with_capacity(alloc, 3)?;
    push_used(&mut spans, first_start, first_end)?;
    push_used(&mut spans, second_start, second_end)?;
    push_used(&mut spans, third_start, third_end)?;
    Ok(PeerMsg::RequestParts {
        hash,
        spans: Spans::new(spans),
    })
}

#[tactic(auto, unfolding(crate::specs::Reading::file_status))]
fn read_file_status(alloc: Global, payload: &[u8]) -> Result<PeerMsg, MsgFault>
    ensures { Gives MsgFault.NoMemory (λ msg. msg) result (file_status payload.now) }
{
    let (hash, rest) = read_array(payload)?;
    let (count, rest) = read_u16(rest)?;
    let (bitmap, _) = read_bytes((count as usize).div_ceil(8), rest)?;
    let bits = take_bits(alloc, count as usize, bitmap)?;
    Ok(PeerMsg::FileStatus { hash, count, bits })
}

/// The count is compared with the bytes that are there before the list is made.
#[tactic(auto, unfolding(crate::specs::Reading::set_answer))]
fn read_set_answer(alloc: Global, payload: &[u8]) -> Result<PeerMsg, MsgFault>
    ensures { Gives MsgFault.NoMemory (λ msg. msg) result (set_answer payload.now) }
{
    let (hash, rest) = read_array(payload)?;
    let (count, rest) = read_u16(rest)?;
    let (hashes, _) = read_bytes(HASH * count as usize, rest)?;
    let set = take_hashes(alloc, count as usize, hashes)?;
    Ok(PeerMsg::SetAnswer { hash, set })
}

#[tactic(auto, unfolding(crate::specs::Reading::name_answer))]
fn read_name_answer(alloc: Global, payload: &[u8]) -> Result<PeerMsg, MsgFault>
    ensures { Gives MsgFault.NoMemory (λ msg. msg) result (name_answer payload.now) }
{
    let (hash, rest) = read_array(payload)?;
    let (name, _) = read_text(rest)?;
    let name = copied(alloc, name)?;
    Ok(PeerMsg::NameAnswer { hash, name })
}

#[tactic(auto, unfolding(crate::specs::Reading::long_rank))]
fn read_long_rank(payload: &[u8]) -> Result<PeerMsg, MsgFault>
    ensures { Gives MsgFault.NoMemory (λ msg. msg) result (long_rank payload.now) }
{
    let (place, _) = read_u32(payload)?;
    Ok(PeerMsg::Rank { place })
}

#[tactic(auto, unfolding(crate::specs::Reading::rank))]
fn read_rank(payload: &[u8]) -> Result<PeerMsg, MsgFault>
    ensures { Gives MsgFault.NoMemory (λ msg. msg) result (rank payload.now) }
{
    let (place, _) = read_u16(payload)?;
    Ok(PeerMsg::Rank {
        place: u32::from(place),
    })
}

#[tactic(auto, unfolding(crate::specs::Reading::aich_request))]
fn read_aich_request(payload: &[u8]) -> Result<PeerMsg, MsgFault>
    ensures { Gives MsgFault.NoMemory (λ msg. msg) result (aich_request payload.now) }
{
    let (hash, rest) = read_array(payload)?;
    let (part, rest) = read_u16(rest)?;
    let (root, _) = read_array(rest)?;
    Ok(PeerMsg::AichRequest { hash, part, root })
}

/// A hash alone is a refusal.
#[tactic(auto, unfolding(crate::specs::Reading::aich_answer))]
fn read_aich_answer(alloc: Global, payload: &[u8]) -> Result<PeerMsg, MsgFault>
    ensures { Gives MsgFault.NoMemory (λ msg. msg) result (aich_answer payload.now) }
{
    let (hash, rest) = read_array(payload)?;
    if rest.is_empty() {
        return Ok(PeerMsg::AichRefused { hash });
    }
    let (part, rest) = read_u16(rest)?;
    let (root, packet) = read_array(rest)?;
    let packet = copied(alloc, packet)?;
    Ok(PeerMsg::AichAnswer {
        hash,
        part,
        root,
        packet,
    })
}

#[tactic(auto, unfolding(crate::specs::Reading::root_answer))]
fn read_root_answer(payload: &[u8]) -> Result<PeerMsg, MsgFault>
    ensures { Gives MsgFault.NoMemory (λ msg. msg) result (root_answer payload.now) }
{
    let (hash, rest) = read_array(payload)?;
    let (root, _) = read_array(rest)?;
    Ok(PeerMsg::RootAnswer { hash, root })
}
