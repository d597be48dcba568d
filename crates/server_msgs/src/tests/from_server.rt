//! The messages of a server.
ghost use Rattle.std.specs.Prelude.{◌≡◌, IfOk};
ghost use Rattle.server_msgs.specs.Spelling.{AnswerHasForm};

use super::*;

/// A frame is read as this message.
fn is_read(rt: &(impl Abort + AllocGlobal), frame: &Frame, msg: &ServerMsg) -> Result<(), Fail> {
    let read = read_server(rt.alloc(), frame)?;
    let shown = format!(in rt.alloc(); "{read:?}")?;
    let wanted = format!(in rt.alloc(); "{msg:?}")?;
    assert_eq!(rt; shown.as_str(), wanted.as_str());
    Ok(())
}

/// Each front of a payload is refused as cut below a length, and read from it on.
fn is_cut_below(rt: &(impl Abort + AllocGlobal), whole: &Frame, needed: usize) -> Result<(), Fail> {
    for len in 0..whole.payload.as_slice().len() {
        let payload = whole.payload.as_slice().get(..len).ok_or("no front")?;
        let front = frame(rt.alloc(), whole.protocol, whole.opcode, &[payload])?;
        let found = read_server(rt.alloc(), &front);
        assert_eq!(rt;
            is_cut(&found),
            len < needed,
            "{len} bytes of {}",
            whole.opcode
        );
    }
    Ok(())
}

/// Whether a message was refused as cut somewhere.
fn is_cut(found: &Result<ServerMsg, MsgFault>) -> bool {
    match found {
        Ok(_) => false,
        Err(fault) => matches!(fault, MsgFault::Cut | MsgFault::BadTag(TagFault::Cut(_))),
    }
}

/// A message is written as this head and payload.
fn is_written(
    rt: &(impl Abort + AllocGlobal),
    msg: &ServerMsg,
    head: &[u8; HEAD],
    payload: &[u8],
) -> Result<(), Fail>
    requires { AnswerHasForm msg.now }
{
    let written = write_server(rt.alloc(), msg)?;
    is_frame(rt, &written, head, payload)
}

/// A message is written as this head and payload and read back the same, and each front of the payload that
/// is shorter than its fields need is refused as cut.
fn goes_there_and_back(
    rt: &(impl Abort + AllocGlobal),
    msg: &ServerMsg,
    head: [u8; HEAD],
    pieces: &[&[u8]],
    needed: usize,
) -> Result<(), Fail>
    requires { AnswerHasForm msg.now }
{
    let whole = frame(rt.alloc(), head[0], head[5], pieces)?;
    is_written(rt, msg, &head, whole.payload.as_slice())?;
    is_read(rt, &whole, msg)?;
    is_cut_below(rt, &whole, needed)
}

/// The clients at 127.0.0.1, with ports 4662 and 4663.
fn two(alloc: Global) -> Result<Endpoints, Fail> {
    let id = id_of([127, 0, 0, 1]);
    let list = [Endpoint { id, port: 4662 }, Endpoint { id, port: 4663 }];
    Ok(Endpoints::new(Vec::from_slice(alloc, &list)?))
}

/// How the two are written.
const TWO: [u8; 13] = [2, 0x7F, 0, 0, 1, 0x36, 0x12, 0x7F, 0, 0, 1, 0x37, 0x12];

#[test]
fn an_id_goes_there_and_back(rt: HostRuntime) -> Result<(), Fail> {
    let id = ServerMsg::IdChange { id: 16_777_343 };
    let head = [0xE3, 9, 0, 0, 0, 0x40];
    goes_there_and_back(&rt, &id, head, &[&[0x7F, 0, 0, 1, 0, 0, 0, 0]], 4)
}

#[test]
fn a_status_goes_there_and_back(rt: HostRuntime) -> Result<(), Fail> {
    let status = ServerMsg::Status { users: 1, files: 0 };
    let head = [0xE3, 9, 0, 0, 0, 0x34];
    goes_there_and_back(&rt, &status, head, &[&[1, 0, 0, 0, 0, 0, 0, 0]], 8)
}

#[test]
fn sources_go_there_and_back(rt: HostRuntime) -> Result<(), Fail> {
    let sources = ServerMsg::FoundSources {
        hash: K,
        list: two(rt.alloc())?,
    };
    let head = [0xE3, 30, 0, 0, 0, 0x42];
    goes_there_and_back(&rt, &sources, head, &[&K, &TWO], 29)
}

#[test]
fn lists_go_there_and_back(rt: HostRuntime) -> Result<(), Fail> {
    let none = ServerMsg::List {
        servers: Endpoints::new(Vec::new(rt.alloc())),
    };
    goes_there_and_back(&rt, &none, [0xE3, 2, 0, 0, 0, 0x32], &[&[0]], 1)?;
    let servers = ServerMsg::List {
        servers: two(rt.alloc())?,
    };
    goes_there_and_back(&rt, &servers, [0xE3, 14, 0, 0, 0, 0x32], &[&TWO], 13)
}

#[test]
fn results_go_there_and_back(rt: HostRuntime) -> Result<(), Fail> {
    let results = ServerMsg::Results {
        files: one_file(rt.alloc())?,
    };
    let head = [0xE3, 48, 0, 0, 0, 0x33];
    let numbers = [0x7F, 0, 0, 1, 0x36, 0x12];
    goes_there_and_back(
        &rt,
        &results,
        head,
        &[&[1, 0, 0, 0], &K, &numbers, &FILE_TAGS],
        47,
    )
}

#[test]
fn callbacks_go_there_and_back(rt: HostRuntime) -> Result<(), Fail> {
    let asked = ServerMsg::CallbackAsked {
        ip: 16_777_343,
        port: 4662,
    };
    let head = [0xE3, 7, 0, 0, 0, 0x35];
    goes_there_and_back(&rt, &asked, head, &[&[0x7F, 0, 0, 1, 0x36, 0x12]], 6)?;
    goes_there_and_back(
        &rt,
        &ServerMsg::CallbackFailed,
        [0xE3, 1, 0, 0, 0, 0x36],
        &[],
        0,
    )
}

#[test]
fn a_text_goes_there_and_back(rt: HostRuntime) -> Result<(), Fail> {
    let text = ServerMsg::Text {
        text: bytes(rt.alloc(), b"abc")?,
    };
    goes_there_and_back(&rt, &text, [0xE3, 6, 0, 0, 0, 0x38], &[&[3, 0], b"abc"], 5)
}

#[test]
fn names_what_no_server_sends(rt: HostRuntime) -> Result<(), Fail> {
    for (protocol, opcode) in [(0xE3, 0x01), (0xC5, 0x42), (0xC5, 0x60)] {
        let frame = frame(rt.alloc(), protocol, opcode, &[&[1, 2, 3]])?;
        is_read(&rt, &frame, &ServerMsg::Other { protocol, opcode })?;
    }
    let frame = frame(rt.alloc(), 0xC5, 0x40, &[])?;
    assert_eq!(rt;
        read_server(rt.alloc(), &frame).err(),
        Some(MsgFault::Compressed)
    );
    Ok(())
}

#[test]
fn refuses_a_list_without_room(rt: HostRuntime) -> Result<(), Fail> {
    let many = vec![in rt.alloc(); Endpoint { id: 1, port: 2 }; 256]?;
    let msg = ServerMsg::List {
        servers: Endpoints::new(many),
    };
    let found = write_server(rt.alloc(), &msg).err();
    assert_eq!(rt; found, Some(MsgTooLong::Long(1 + 6 * 256)));
    Ok(())
}
