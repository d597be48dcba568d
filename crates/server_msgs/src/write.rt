//! The frame of a message.
ghost use Rattle.std.specs.Prelude.{◌≡◌, ◌++◌, length, drop, IfOk, IfErr, OnOk};
ghost use Rattle.byteorder.specs.Endian.{little_bytes};
ghost use Rattle.ed2k_tags.specs.Fields.{counted};
ghost use Rattle.ed2k_tags.specs.Spelling.{spell_tags};
ghost use Rattle.server_msgs.specs.Request.{request};
ghost use Rattle.server_msgs.specs.Spelling as spelling;

use crate::fault::MsgTooLong;
use crate::frame::frame_of;
use crate::lists::{append_endpoints, append_files, files_fit};
use crate::msg::{ClientMsg, Hash, ServerMsg};
use crate::opcode::*;
use ed2k_frame::{EDONKEY, HEAD};
use ed2k_outside::Bytes;
use ed2k_tags::fields::{append_text, append_u16, append_u32};
use ed2k_tags::{Tags, append_tags, have_spelling};
use search_expr::{append_expr, texts_fit};
use std::alloc::{AllocError, Global};

/// The frame of a client's message, which [`crate::read_client`] reads again where an expression in it is
/// within the limits of [`search_expr::read_expr`]. An `Other` is written without payload.
///
/// `Long` comes exactly where the payload would pass the 1,999,999 bytes that a frame has room for, or where a
/// text is longer than the count before it can say. It carries the length that the payload would have.
/// `NoMemory` may come in place of either answer.
pub fn write_client(alloc: Global, msg: &ClientMsg) -> Result<Bytes, MsgTooLong>
    requires { spelling.HasForm (request msg.now) }
    ensures written { IfOk result (λ bytes. bytes ≡ spelling.spell_request (request msg.now)) }
    ensures room { IfOk result (λ bytes. spelling.RequestHasRoom (request msg.now)) }
    ensures long { IfErr result (λ fault. spelling.RequestIsTooLong fault (request msg.now)) }
{
    let mut out = Vec::new(alloc);
    out.extend_from_slice(&[0; HEAD])?;
    append_request(&mut out, msg)?;
    frame_of(out, protocol(msg), opcode(msg), lengths_fit(msg))
}

fn protocol(msg: &ClientMsg) -> u8
    ensures { result ≡ spelling.protocol_of (request msg.now) }
{
    match msg {
        ClientMsg::Other { protocol, .. } => *protocol,
        _ => EDONKEY,
    }
}

fn opcode(msg: &ClientMsg) -> u8
    ensures { result ≡ spelling.opcode_of (request msg.now) }
{
    match msg {
        ClientMsg::Login { .. } => LOGIN,
        ClientMsg::ListRequest => LIST_REQUEST,
        ClientMsg::Offer { .. } => OFFER,
        ClientMsg::Search { .. } => SEARCH,
        ClientMsg::Disconnect => DISCONNECT,
        ClientMsg::Sources { .. } => SOURCES,
        ClientMsg::Callback { .. } => CALLBACK,
        ClientMsg::More => MORE,
        ClientMsg::Other { opcode, .. } => *opcode,
    }
}

/// True exactly where each length fits the field that is written before it.
fn lengths_fit(msg: &ClientMsg) -> bool
    ensures { result ≡ spelling.lengths_fit (request msg.now) }
{
    match msg {
        ClientMsg::Login { tags, .. } => have_spelling(tags.as_slice()),
        ClientMsg::Offer { files } => files_fit(files.as_slice()),
        ClientMsg::Search { expr } => texts_fit(expr),
        _ => true,
    }
}

/// Adds the payload of a client's message at the end.
#[tactic(auto, unfolding(crate::specs::Spelling::payload_of))]
fn append_request(out: &mut Vec<u8>, msg: &ClientMsg) -> Result<(), AllocError>
    ensures { OnOk result (out.new.items ≡ out.old.items ++ spelling.payload_of (request msg.now)) }
{
    match msg {
        ClientMsg::Login {
            user,
            id,
            port,
            tags,
        } => append_login(out, user, *id, *port, tags),
        ClientMsg::Offer { files } => append_files(out, files.as_slice()),
        ClientMsg::Search { expr } => append_expr(out, expr),
        ClientMsg::Sources { hash } => out.extend_from_slice(hash),
        ClientMsg::Callback { id } => append_u32(out, *id),
        ClientMsg::ListRequest
        | ClientMsg::Disconnect
        | ClientMsg::More
        | ClientMsg::Other { .. } => Ok(()),
    }
}

fn append_login(
    out: &mut Vec<u8>,
    user: &Hash,
    id: u32,
    port: u16,
    tags: &Tags,
) -> Result<(), AllocError>
    ensures { OnOk result (out.new.items ≡ out.old.items ++ spelling.spell_login user.now id port tags.now) }
{
    out.extend_from_slice(user)?;
    append_u32(out, id)?;
    append_u16(out, port)?;
    append_tags(out, tags.as_slice())
}

/// The frame of a server's message, which [`crate::read_server`] reads again. An `Other` is written without
/// payload. `Long` and `NoMemory` come as in [`write_client`]; a list of more than 255 endpoints is too long.
pub fn write_server(alloc: Global, msg: &ServerMsg) -> Result<Bytes, MsgTooLong>
    requires { spelling.AnswerHasForm msg.now }
    ensures written { IfOk result (λ bytes. bytes ≡ spelling.spell_answer msg.now) }
    ensures room { IfOk result (λ bytes. spelling.AnswerHasRoom msg.now) }
    ensures long { IfErr result (λ fault. spelling.AnswerIsTooLong fault msg.now) }
{
    let mut out = Vec::new(alloc);
    out.extend_from_slice(&[0; HEAD])?;
    append_answer(&mut out, msg)?;
    frame_of(
        out,
        answer_protocol(msg),
        answer_opcode(msg),
        answer_fits(msg),
    )
}

fn answer_protocol(msg: &ServerMsg) -> u8
    ensures { result ≡ spelling.answer_protocol msg.now }
{
    match msg {
        ServerMsg::Other { protocol, .. } => *protocol,
        _ => EDONKEY,
    }
}

fn answer_opcode(msg: &ServerMsg) -> u8
    ensures { result ≡ spelling.answer_opcode msg.now }
{
    match msg {
        ServerMsg::List { .. } => LIST,
        ServerMsg::Results { .. } => RESULTS,
        ServerMsg::Status { .. } => STATUS,
        ServerMsg::CallbackAsked { .. } => CALLBACK_ASKED,
        ServerMsg::CallbackFailed => CALLBACK_FAILED,
        ServerMsg::Text { .. } => TEXT,
        ServerMsg::IdChange { .. } => ID_CHANGE,
        ServerMsg::FoundSources { .. } => FOUND_SOURCES,
        ServerMsg::Other { opcode, .. } => *opcode,
    }
}

/// True exactly where each length fits the field that is written before it.
fn answer_fits(msg: &ServerMsg) -> bool
    ensures { result ≡ spelling.answer_fits msg.now }
{
    match msg {
        ServerMsg::List { servers } => servers.len() < 0x100,
        ServerMsg::Results { files } => files_fit(files.as_slice()),
        ServerMsg::Text { text } => text.len() < 0x1_0000,
        ServerMsg::FoundSources { list, .. } => list.len() < 0x100,
        _ => true,
    }
}

/// Adds the payload of a server's message at the end.
#[tactic(auto, unfolding(crate::specs::Spelling::answer_payload))]
fn append_answer(out: &mut Vec<u8>, msg: &ServerMsg) -> Result<(), AllocError>
    ensures { OnOk result (out.new.items ≡ out.old.items ++ spelling.answer_payload msg.now) }
{
    match msg {
        ServerMsg::List { servers } => append_endpoints(out, servers.as_slice()),
        ServerMsg::Results { files } => append_files(out, files.as_slice()),
        ServerMsg::Status { users, files } => append_pair(out, *users, *files),
        ServerMsg::CallbackAsked { ip, port } => append_address(out, *ip, *port),
        ServerMsg::Text { text } => append_text(out, text.as_slice()),
        ServerMsg::IdChange { id } => append_pair(out, *id, 0),
        ServerMsg::FoundSources { hash, list } => {
            out.extend_from_slice(hash)?;
            append_endpoints(out, list.as_slice())
        }
        ServerMsg::CallbackFailed | ServerMsg::Other { .. } => Ok(()),
    }
}

fn append_pair(out: &mut Vec<u8>, first: u32, second: u32) -> Result<(), AllocError>
    ensures { OnOk result (out.new.items ≡ out.old.items ++ (little_bytes 4 first ++ little_bytes 4 second)) }
{
    append_u32(out, first)?;
    append_u32(out, second)
}

fn append_address(out: &mut Vec<u8>, ip: u32, port: u16) -> Result<(), AllocError>
    ensures { OnOk result (out.new.items ≡ out.old.items ++ (little_bytes 4 ip ++ little_bytes 2 port)) }
{
    append_u32(out, ip)?;
    append_u16(out, port)
}
