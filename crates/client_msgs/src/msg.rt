//! The messages.

use ed2k_outside::Bytes;
use ed2k_tags::Tags;
use part_sizes::{Bits, Hashes, Spans};

/// An MD4 hash.
pub type Hash = [u8; 16];

/// The root of a file's hash tree.
pub type Root = [u8; 20];

/// What a client says of itself.
#[derive(Debug, Drop)]
pub struct Hello {
    /// The client's user hash.
    pub user: Hash,
    /// The client's id with its server, or 0.
    pub id: u32,
    /// The port that the client listens on.
    pub port: u16,
    /// Named values, such as the client's name, version and options.
    pub tags: Tags,
    /// The address of the client's server, or 0.
    pub server_ip: u32,
    /// The port of the client's server, or 0.
    pub server_port: u16,
}

/// A message between clients. Where a message names a file, its `hash` is the file's ed2k hash.
#[derive(Debug, Drop)]
pub enum PeerMsg {
    /// The first message of a connection.
    Hello(Hello),
    /// The answer to a hello.
    HelloAnswer(Hello),
    /// The bytes of a file from the position `start` up to but not including the position `end`: `piece` has
    /// as many bytes as lie between them.
    SendingPart {
        hash: Hash,
        start: u32,
        end: u32,
        piece: Bytes,
    },
    /// Asks for spans of positions of a file, at most three. Each begins and ends below 2^32.
    RequestParts {
        hash: Hash,
        spans: Spans,
    },
    /// The file isn't shared.
    NoFile {
        hash: Hash,
    },
    /// Names the file that is meant from now on.
    SetFile {
        hash: Hash,
    },
    /// Which parts of the file there are. `count` is the number of parts that are counted, and `bits` has
    /// one bit for each of them, in order. A count of 0 stands for all parts, and has no bits.
    FileStatus {
        hash: Hash,
        count: u16,
        bits: Bits,
    },
    /// Asks for the hashes of the file's parts.
    SetRequest {
        hash: Hash,
    },
    /// The hash set of the file: the MD4 hashes of its parts, in order.
    SetAnswer {
        hash: Hash,
        set: Hashes,
    },
    /// Asks for an upload slot.
    StartUpload {
        hash: Hash,
    },
    /// Gives an upload slot.
    Accept,
    /// Gives an upload slot back.
    Cancel,
    /// Takes an upload slot away.
    OutOfParts,
    /// Asks for the file's name.
    NameRequest {
        hash: Hash,
    },
    /// The file's name, in whatever encoding.
    NameAnswer {
        hash: Hash,
        name: Bytes,
    },
    /// The place in the queue for an upload slot. It is written as at most 65,535.
    Rank {
        place: u32,
    },
    /// Asks for the recovery data of a part, which is numbered from 0, under a root.
    AichRequest {
        hash: Hash,
        part: u16,
        root: Root,
    },
    /// Recovery data of a part under a root. `packet` has the data, which isn't judged here.
    AichAnswer {
        hash: Hash,
        part: u16,
        root: Root,
        packet: Bytes,
    },
    /// There is no recovery data.
    AichRefused {
        hash: Hash,
    },
    /// The root of the file's hash tree.
    RootAnswer {
        hash: Hash,
        root: Root,
    },
    /// Asks for the root of the file's hash tree.
    RootRequest {
        hash: Hash,
    },
    /// A message that this program doesn't know. Of its frame the protocol byte and the opcode are kept.
    Other {
        protocol: u8,
        opcode: u8,
    },
}
