//! The rows of both tables, there and back, and the exact bytes of a login and of what answers it.
ghost use Rattle.std.specs.Prelude.{◌≡◌, ◌≤◌, length, IfOk};
ghost use Rattle.ed2k_tags.specs.declared.read.TheConstants.{TAG_LIMIT};
ghost use Rattle.server_msgs.specs.Spelling.{AreFew};

mod from_client;
mod from_server;

use super::*;
use ed2k_frame::{Frame, HEAD};
use ed2k_outside::Bytes;
use ed2k_tags::{Tag, TagFault, TagName, Tags, Value};
use std::alloc::Global;
use std::process::Abort;
use std::test::Fail;

/// The MD4 of `abc`.
const K: Hash = [
    0xA4, 0x48, 0x01, 0x7A, 0xAF, 0x21, 0xD8, 0x52, 0x5F, 0xC1, 0x0A, 0xE8, 0x7A, 0xA6, 0x72, 0x9D,
];

/// A name of `abc` and a size of 3, as tags are written.
const FILE_TAGS: [u8; 21] = [
    2, 0, 0, 0, 2, 1, 0, 1, 3, 0, 0x61, 0x62, 0x63, 3, 1, 0, 2, 3, 0, 0, 0,
];

fn bytes(alloc: Global, bytes: &[u8]) -> Result<Bytes, Fail>
    ensures { IfOk result (λ copy. copy ≡ bytes.now) }
{
    Ok(Bytes::new(Vec::from_slice(alloc, bytes)?))
}

fn frame(alloc: Global, protocol: u8, opcode: u8, pieces: &[&[u8]]) -> Result<Frame, Fail> {
    let mut payload = Vec::new(alloc);
    for piece in pieces {
        payload.extend_from_slice(piece)?;
    }
    Ok(Frame {
        protocol,
        opcode,
        payload: Bytes::new(payload),
    })
}

/// A text is written as this head and payload.
fn is_frame(
    rt: &(impl Abort + AllocGlobal),
    written: &Bytes,
    head: &[u8; HEAD],
    payload: &[u8],
) -> Result<(), Fail> {
    let mut wanted = Vec::from_slice(rt.alloc(), head)?;
    wanted.extend_from_slice(payload)?;
    assert_eq!(rt; written.as_slice(), wanted.as_slice());
    Ok(())
}

/// The tags of a file `abc` of 3 bytes.
fn file_tags(alloc: Global) -> Result<Tags, Fail>
    ensures { IfOk result (λ tags. length tags ≤ TAG_LIMIT) }
{
    let mut tags = Vec::new(alloc);
    tags.push(Tag {
        name: TagName::of_byte(1),
        value: Value::Text(bytes(alloc, b"abc")?),
    })?;
    tags.push(Tag {
        name: TagName::of_byte(2),
        value: Value::Number(3),
    })?;
    Ok(Tags::new(tags))
}

/// The file K, told by the client at 127.0.0.1:4662.
fn one_file(alloc: Global) -> Result<Files, Fail>
    ensures { IfOk result AreFew }
{
    let mut files = Vec::new(alloc);
    files.push(FileItem {
        hash: K,
        id: 0x0100_007F,
        port: 4662,
        tags: file_tags(alloc)?,
    })?;
    Ok(Files::new(files))
}

#[test]
fn an_address_is_a_high_id(rt: HostRuntime) {
    assert_eq!(rt; id_of([127, 0, 0, 1]), 16_777_343);
    assert_eq!(rt; address_of(16_777_343), Some([127, 0, 0, 1]));
    assert_eq!(rt; address_of(16_777_215), None);
    assert_eq!(rt; address_of(16_777_216), Some([0, 0, 0, 1]));
}
