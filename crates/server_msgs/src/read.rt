//! The message that a frame is.
ghost use Rattle.std.specs.Prelude.{◌≡◌};
ghost use Rattle.ed2k_tags.specs.Reading.{Gives};
ghost use Rattle.search_expr.specs.Query.{query};
ghost use Rattle.search_expr.specs.Reading.{read_at};
ghost use Rattle.server_msgs.specs.Reading.{asked, login, offer, search, sources, callback, request_of, client_message, server_list, results, status, callback_asked, text, id_change, found_sources, answer_of, server_message};
ghost use Rattle.server_msgs.specs.Request.{request};

use crate::fault::MsgFault;
use crate::lists::{read_endpoints, read_files, read_tags_field};
use crate::msg::{ClientMsg, ServerMsg};
use crate::opcode::*;
use ed2k_frame::{EDONKEY, EMULE, Frame};
use ed2k_tags::fields::{copied, read_array, read_text, read_u16, read_u32};
use search_expr::{Expr, ExprFault, read_expr};
use std::alloc::Global;

/// The message of a client that a frame is.
///
/// Bytes after the message's fields are ignored, and a message of another opcode or protocol is `Other`.
/// The fields are read in their order, and the first fault is answered: `Compressed` where the frame brings a
/// compressed part, `Cut` where the payload ends within a field other than tags and expressions or an offer
/// counts more than `FILE_LIMIT` files, `BadTag` where tags aren't read and `BadExpr` where the expression
/// isn't, each with its fault. `NoMemory` may come in place of any answer.
pub fn read_client(alloc: Global, frame: &Frame) -> Result<ClientMsg, MsgFault>
    ensures { Gives MsgFault.NoMemory request result (client_message frame.now) }
{
    match (frame.protocol, frame.opcode) {
        (EDONKEY, opcode) => read_request(alloc, opcode, frame.payload.as_slice()),
        (EMULE, COMPRESSED_PART) => Err(MsgFault::Compressed),
        (protocol, opcode) => Ok(ClientMsg::Other { protocol, opcode }),
    }
}

fn read_request(alloc: Global, opcode: u8, payload: &[u8]) -> Result<ClientMsg, MsgFault>
    ensures { Gives MsgFault.NoMemory request result (request_of opcode payload.now) }
{
    match opcode {
        LOGIN => read_login(alloc, payload),
        LIST_REQUEST => Ok(ClientMsg::ListRequest),
        OFFER => read_offer(alloc, payload),
        SEARCH => read_search(alloc, payload),
        DISCONNECT => Ok(ClientMsg::Disconnect),
        SOURCES => read_sources(payload),
        CALLBACK => read_callback(payload),
        MORE => Ok(ClientMsg::More),
        opcode => Ok(ClientMsg::Other {
            protocol: EDONKEY,
            opcode,
        }),
    }
}

#[tactic(auto, unfolding(crate::specs::Reading::login))]
fn read_login(alloc: Global, payload: &[u8]) -> Result<ClientMsg, MsgFault>
    ensures { Gives MsgFault.NoMemory request result (login payload.now) }
{
    let (user, rest) = read_array(payload)?;
    let (id, rest) = read_u32(rest)?;
    let (port, rest) = read_u16(rest)?;
    let (tags, _) = read_tags_field(alloc, rest, payload.len())?;
    Ok(ClientMsg::Login {
        user,
        id,
        port,
        tags,
    })
}

#[tactic(auto, unfolding(crate::specs::Reading::offer))]
fn read_offer(alloc: Global, payload: &[u8]) -> Result<ClientMsg, MsgFault>
    ensures { Gives MsgFault.NoMemory request result (offer payload.now) }
{
    let files = read_files(alloc, payload)?;
    Ok(ClientMsg::Offer { files })
}

/// The expression that a payload begins with.
fn read_expr_field(alloc: Global, payload: &[u8]) -> Result<(Expr, usize), MsgFault>
    ensures { Gives MsgFault.NoMemory (λ x. (query x.0, x.1)) result (asked (read_at payload.now)) }
{
    match read_expr(alloc, payload) {
        Ok(found) => Ok(found),
        Err(ExprFault::NoMemory) => Err(MsgFault::NoMemory),
        Err(fault) => Err(MsgFault::BadExpr(fault)),
    }
}

#[tactic(auto, unfolding(crate::specs::Reading::search))]
fn read_search(alloc: Global, payload: &[u8]) -> Result<ClientMsg, MsgFault>
    ensures { Gives MsgFault.NoMemory request result (search payload.now) }
{
    let (expr, _) = read_expr_field(alloc, payload)?;
    Ok(ClientMsg::Search { expr })
}

#[tactic(auto, unfolding(crate::specs::Reading::sources))]
fn read_sources(payload: &[u8]) -> Result<ClientMsg, MsgFault>
    ensures { Gives MsgFault.NoMemory request result (sources payload.now) }
{
    let (hash, _) = read_array(payload)?;
    Ok(ClientMsg::Sources { hash })
}

#[tactic(auto, unfolding(crate::specs::Reading::callback))]
fn read_callback(payload: &[u8]) -> Result<ClientMsg, MsgFault>
    ensures { Gives MsgFault.NoMemory request result (callback payload.now) }
{
    let (id, _) = read_u32(payload)?;
    Ok(ClientMsg::Callback { id })
}

/// The message of a server that a frame is. `Cut`, `BadTag`, `Compressed` and `Other` come as in
/// [`read_client`], and `BadExpr` never.
pub fn read_server(alloc: Global, frame: &Frame) -> Result<ServerMsg, MsgFault>
    ensures { Gives MsgFault.NoMemory (λ msg. msg) result (server_message frame.now) }
{
    match (frame.protocol, frame.opcode) {
        (EDONKEY, opcode) => read_answer(alloc, opcode, frame.payload.as_slice()),
        (EMULE, COMPRESSED_PART) => Err(MsgFault::Compressed),
        (protocol, opcode) => Ok(ServerMsg::Other { protocol, opcode }),
    }
}

fn read_answer(alloc: Global, opcode: u8, payload: &[u8]) -> Result<ServerMsg, MsgFault>
    ensures { Gives MsgFault.NoMemory (λ msg. msg) result (answer_of opcode payload.now) }
{
    match opcode {
        LIST => read_list(alloc, payload),
        RESULTS => read_results(alloc, payload),
        STATUS => read_status(payload),
        CALLBACK_ASKED => read_callback_asked(payload),
        CALLBACK_FAILED => Ok(ServerMsg::CallbackFailed),
        TEXT => read_shown_text(alloc, payload),
        ID_CHANGE => read_id_change(payload),
        FOUND_SOURCES => read_found_sources(alloc, payload),
        opcode => Ok(ServerMsg::Other {
            protocol: EDONKEY,
            opcode,
        }),
    }
}

#[tactic(auto, unfolding(crate::specs::Reading::server_list))]
fn read_list(alloc: Global, payload: &[u8]) -> Result<ServerMsg, MsgFault>
    ensures { Gives MsgFault.NoMemory (λ msg. msg) result (server_list payload.now) }
{
    let servers = read_endpoints(alloc, payload)?;
    Ok(ServerMsg::List { servers })
}

#[tactic(auto, unfolding(crate::specs::Reading::results))]
fn read_results(alloc: Global, payload: &[u8]) -> Result<ServerMsg, MsgFault>
    ensures { Gives MsgFault.NoMemory (λ msg. msg) result (results payload.now) }
{
    let files = read_files(alloc, payload)?;
    Ok(ServerMsg::Results { files })
}

#[tactic(auto, unfolding(crate::specs::Reading::status))]
fn read_status(payload: &[u8]) -> Result<ServerMsg, MsgFault>
    ensures { Gives MsgFault.NoMemory (λ msg. msg) result (status payload.now) }
{
    let (users, rest) = read_u32(payload)?;
    let (files, _) = read_u32(rest)?;
    Ok(ServerMsg::Status { users, files })
}

#[tactic(auto, unfolding(crate::specs::Reading::callback_asked))]
fn read_callback_asked(payload: &[u8]) -> Result<ServerMsg, MsgFault>
    ensures { Gives MsgFault.NoMemory (λ msg. msg) result (callback_asked payload.now) }
{
    let (ip, rest) = read_u32(payload)?;
    let (port, _) = read_u16(rest)?;
    Ok(ServerMsg::CallbackAsked { ip, port })
}

#[tactic(auto, unfolding(crate::specs::Reading::text))]
fn read_shown_text(alloc: Global, payload: &[u8]) -> Result<ServerMsg, MsgFault>
    ensures { Gives MsgFault.NoMemory (λ msg. msg) result (text payload.now) }
{
    let (text, _) = read_text(payload)?;
    let text = copied(alloc, text)?;
    Ok(ServerMsg::Text { text })
}

#[tactic(auto, unfolding(crate::specs::Reading::id_change))]
fn read_id_change(payload: &[u8]) -> Result<ServerMsg, MsgFault>
    ensures { Gives MsgFault.NoMemory (λ msg. msg) result (id_change payload.now) }
{
    let (id, _) = read_u32(payload)?;
    Ok(ServerMsg::IdChange { id })
}

#[tactic(auto, unfolding(crate::specs::Reading::found_sources))]
fn read_found_sources(alloc: Global, payload: &[u8]) -> Result<ServerMsg, MsgFault>
    ensures { Gives MsgFault.NoMemory (λ msg. msg) result (found_sources payload.now) }
{
    let (hash, rest) = read_array(payload)?;
    let list = read_endpoints(alloc, rest)?;
    Ok(ServerMsg::FoundSources { hash, list })
}
