//! The messages of a client.
ghost use Rattle.std.specs.Prelude.{◌≡◌, IfOk};
ghost use Rattle.server_msgs.specs.Request.{request};
ghost use Rattle.server_msgs.specs.Spelling.{HasForm};

use super::*;
use search_expr::{ExprFault, parse_words};

/// A login as the protocol's description lays it out.
const LOGIN: [u8; 71] = [
    0xE3, 0x42, 0x00, 0x00, 0x00, 0x01, 0x65, 0x64, 0x32, 0x6B, 0x2D, 0x6E, 0x6F, 0x64, 0x65, 0x2D,
    0x75, 0x73, 0x65, 0x72, 0x2D, 0x31, 0x00, 0x00, 0x00, 0x00, 0x00, 0x00, 0x04, 0x00, 0x00, 0x00,
    0x02, 0x01, 0x00, 0x01, 0x09, 0x00, 0x65, 0x64, 0x32, 0x6B, 0x5F, 0x6E, 0x6F, 0x64, 0x65, 0x03,
    0x01, 0x00, 0x11, 0x3C, 0x00, 0x00, 0x00, 0x03, 0x01, 0x00, 0xFA, 0x00, 0x00, 0x00, 0x20, 0x03,
    0x01, 0x00, 0xFE, 0x00, 0x00, 0x00, 0x00,
];

/// A frame is read as this message.
fn is_read(rt: &(impl Abort + AllocGlobal), frame: &Frame, msg: &ClientMsg) -> Result<(), Fail> {
    let read = read_client(rt.alloc(), frame)?;
    let shown = format!(in rt.alloc(); "{read:?}")?;
    let wanted = format!(in rt.alloc(); "{msg:?}")?;
    assert_eq!(rt; shown.as_str(), wanted.as_str());
    Ok(())
}

/// Each front of a payload is refused as cut below a length, and read from it on.
fn is_cut_below(rt: &(impl Abort + AllocGlobal), whole: &Frame, needed: usize) -> Result<(), Fail> {
    for len in 0..whole.payload.as_slice().len() {
        let payload = whole.payload.as_slice().get(..len).ok_or("no front")?;
        let front = frame(rt.alloc(), whole.protocol, whole.opcode, &[payload])?;
        let found = read_client(rt.alloc(), &front);
        assert_eq!(rt;
            is_cut(&found),
            len < needed,
            "{len} bytes of {}",
            whole.opcode
        );
    }
    Ok(())
}

/// Whether a message was refused as cut somewhere.
fn is_cut(found: &Result<ClientMsg, MsgFault>) -> bool {
    match found {
        Ok(_) => false,
        Err(fault) => matches!(
            fault,
            MsgFault::Cut | MsgFault::BadTag(TagFault::Cut(_)) | MsgFault::BadExpr(ExprFault::Cut)
        ),
    }
}

/// A message is written as this head and payload and read back the same, and each front of the payload that
/// is shorter than its fields need is refused as cut.
fn goes_there_and_back(
    rt: &(impl Abort + AllocGlobal),
    msg: &ClientMsg,
    head: [u8; HEAD],
    pieces: &[&[u8]],
    needed: usize,
) -> Result<(), Fail>
    requires { HasForm (request msg.now) }
{
    let whole = frame(rt.alloc(), head[0], head[5], pieces)?;
    let written = write_client(rt.alloc(), msg)?;
    is_frame(rt, &written, &head, whole.payload.as_slice())?;
    is_read(rt, &whole, msg)?;
    is_cut_below(rt, &whole, needed)
}

fn empty(rt: &(impl Abort + AllocGlobal), msg: &ClientMsg, opcode: u8) -> Result<(), Fail>
    requires { HasForm (request msg.now) }
{
    goes_there_and_back(rt, msg, [0xE3, 1, 0, 0, 0, opcode], &[], 0)
}

#[test]
fn empty_requests_go_there_and_back(rt: HostRuntime) -> Result<(), Fail> {
    empty(&rt, &ClientMsg::ListRequest, 0x14)?;
    empty(&rt, &ClientMsg::Disconnect, 0x18)?;
    empty(&rt, &ClientMsg::More, 0x21)?;
    let other = ClientMsg::Other {
        protocol: 0xE3,
        opcode: 0x02,
    };
    empty(&rt, &other, 0x02)
}

#[test]
fn requests_of_one_field_go_there_and_back(rt: HostRuntime) -> Result<(), Fail> {
    let sources = ClientMsg::Sources { hash: K };
    goes_there_and_back(&rt, &sources, [0xE3, 17, 0, 0, 0, 0x19], &[&K], 16)?;
    let callback = ClientMsg::Callback { id: 6 };
    goes_there_and_back(
        &rt,
        &callback,
        [0xE3, 5, 0, 0, 0, 0x1C],
        &[&[6, 0, 0, 0]],
        4,
    )
}

#[test]
fn a_login_goes_there_and_back(rt: HostRuntime) -> Result<(), Fail> {
    let login = ClientMsg::Login {
        user: K,
        id: 6,
        port: 4662,
        tags: file_tags(rt.alloc())?,
    };
    let head = [0xE3, 44, 0, 0, 0, 0x01];
    let numbers = [6, 0, 0, 0, 0x36, 0x12];
    goes_there_and_back(&rt, &login, head, &[&K, &numbers, &FILE_TAGS], 43)
}

#[test]
fn an_offer_goes_there_and_back(rt: HostRuntime) -> Result<(), Fail> {
    let offer = ClientMsg::Offer {
        files: one_file(rt.alloc())?,
    };
    let head = [0xE3, 48, 0, 0, 0, 0x15];
    let numbers = [0x7F, 0, 0, 1, 0x36, 0x12];
    goes_there_and_back(
        &rt,
        &offer,
        head,
        &[&[1, 0, 0, 0], &K, &numbers, &FILE_TAGS],
        47,
    )
}

#[test]
fn a_search_goes_there_and_back(rt: HostRuntime) -> Result<(), Fail> {
    let search = ClientMsg::Search {
        expr: parse_words(rt.alloc(), "abc size<=3")?,
    };
    let head = [0xE3, 18, 0, 0, 0, 0x16];
    let both = [0, 0, 1, 3, 0, 0x61, 0x62, 0x63];
    let size = [3, 3, 0, 0, 0, 2, 1, 0, 2];
    goes_there_and_back(&rt, &search, head, &[&both, &size], 17)
}

#[test]
fn reads_a_login(rt: HostRuntime) -> Result<(), Fail> {
    let frame = frame(rt.alloc(), 0xE3, 0x01, &[&LOGIN[HEAD..]])?;
    let ClientMsg::Login {
        user,
        id,
        port,
        tags,
    } = read_client(rt.alloc(), &frame)?
    else {
        return Err("no login".into());
    };
    assert_eq!(rt; user, *b"ed2k-node-user-1");
    assert_eq!(rt; (id, port, tags.len()), (0, 0, 4));
    is_cut_below(&rt, &frame, LOGIN.len() - HEAD)
}

/// A frame is refused so.
fn is_refused(
    rt: &(impl Abort + AllocGlobal),
    protocol: u8,
    opcode: u8,
    payload: &[u8],
    fault: MsgFault,
) -> Result<(), Fail> {
    let frame = frame(rt.alloc(), protocol, opcode, &[payload])?;
    let found = read_client(rt.alloc(), &frame).err();
    assert_eq!(rt; found, Some(fault), "{} bytes of {opcode}", payload.len());
    Ok(())
}

#[test]
fn names_each_fault(rt: HostRuntime) -> Result<(), Fail> {
    let mut many_tags = [0; 26];
    many_tags[22] = 1;
    many_tags[23] = 4;
    let too_many = MsgFault::BadTag(TagFault::TooMany(1_025));
    is_refused(&rt, 0xC5, 0x40, &[], MsgFault::Compressed)?;
    is_refused(&rt, 0xE3, 0x19, &K[..15], MsgFault::Cut)?;
    is_refused(&rt, 0xE3, 0x01, &many_tags, too_many)?;
    is_refused(&rt, 0xE3, 0x15, &[0x11, 0x27, 0, 0], MsgFault::Cut)?;
    is_refused(
        &rt,
        0xE3,
        0x16,
        &[0, 0, 1],
        MsgFault::BadExpr(ExprFault::Cut),
    )?;
    is_refused(
        &rt,
        0xE3,
        0x16,
        &[0, 3],
        MsgFault::BadExpr(ExprFault::BadOp(1)),
    )?;
    is_refused(
        &rt,
        0xE3,
        0x16,
        &[0; 200],
        MsgFault::BadExpr(ExprFault::Deep),
    )
}

#[test]
fn names_what_no_client_sends(rt: HostRuntime) -> Result<(), Fail> {
    for (protocol, opcode) in [(0xE3, 0x32), (0xC5, 0x01), (0xC5, 0x60)] {
        let frame = frame(rt.alloc(), protocol, opcode, &[&[1, 2, 3]])?;
        is_read(&rt, &frame, &ClientMsg::Other { protocol, opcode })?;
    }
    Ok(())
}
