//! What this client says of itself.
ghost use Rattle.std.specs.Prelude.{◌≡◌, [], ◌∷◌, IfOk};
ghost use Rattle.client_msgs.specs.Own.{own};

use crate::msg::{Hash, Hello};
use ed2k_outside::{Bytes, NoMemory};
use ed2k_tags::{Tag, TagName, Tags, Value};
use std::alloc::Global;

/// The user hash of this client.
const OWN_USER: Hash = [
    0x65, 0x64, 0x32, 0x6B, 0x2D, 0x6E, 0x6F, 0x64, 0x65, 0x2D, 0x75, 0x73, 0x65, 0x72, 0x2D, 0x31,
];

/// The name of this client.
static OWN_NAME: [u8; 9] = *b"ed2k_node";

const NAME: u8 = 0x01;

const VERSION: u8 = 0x11;

const OPTIONS: u8 = 0xFA;

const MORE_OPTIONS: u8 = 0xFE;

/// What is told under the version tag: 60, the eDonkey version that eMule 0.50a tells.
const OWN_VERSION: u64 = 60;

/// The first version of AICH, and nothing else.
const OWN_OPTIONS: u64 = 0x2000_0000;

/// What this client says of itself: no id, no port and no server; its name, its version, and in its options
/// that it knows the hash tree.
pub fn own_hello(alloc: Global) -> Result<Hello, NoMemory>
    ensures { IfOk result (λ hello. hello ≡ own) }
{
    let mut tags = Vec::new(alloc);
    let name = Value::Text(Bytes::new(Vec::from_slice(alloc, &OWN_NAME)?));
    tags.push(Tag {
        name: TagName::of_byte(NAME),
        value: name,
    })?;
    tags.push(number(VERSION, OWN_VERSION))?;
    tags.push(number(OPTIONS, OWN_OPTIONS))?;
    tags.push(number(MORE_OPTIONS, 0))?;
    Ok(Hello {
        user: OWN_USER,
        id: 0,
        port: 0,
        tags: Tags::new(tags),
        server_ip: 0,
        server_port: 0,
    })
}

fn number(name: u8, number: u64) -> Tag
    ensures { result ≡ record { name = name ∷ []; value = Value.Number number } }
{
    Tag {
        name: TagName::of_byte(name),
        value: Value::Number(number),
    }
}
