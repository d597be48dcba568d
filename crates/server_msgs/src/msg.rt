//! The messages between a client and a server.

use ed2k_outside::Bytes;
use ed2k_tags::Tags;
use plain_list::List;
use search_expr::Expr;

/// An MD4 hash.
pub type Hash = [u8; 16];

/// A file as an offer or an answer to a search tells it.
#[derive(Debug, Drop)]
pub struct FileItem {
    /// The file's ed2k hash.
    pub hash: Hash,
    /// The id of a client that has it, or 0.
    pub id: u32,
    /// The port of that client, or 0.
    pub port: u16,
    /// Named values, such as the file's name and size.
    pub tags: Tags,
}

/// A list of files. Contracts see the list alone.
pub type Files = List<FileItem>;

/// Where a client or a server is reached.
#[derive(Clone, Copy, Debug, Drop, PartialEq, Eq)]
pub struct Endpoint {
    /// The client's id. A high one is an address, and so is that of a server: see [`crate::address_of`].
    pub id: u32,
    /// The port that it listens on.
    pub port: u16,
}

/// A list of endpoints. Contracts see the list alone.
pub type Endpoints = List<Endpoint>;

/// A message from a client to a server.
#[derive(Debug, Drop)]
pub enum ClientMsg {
    /// The first message: the client's user hash, its id of before or 0, the port that it listens on or 0, and
    /// named values, such as its name and version.
    Login {
        user: Hash,
        id: u32,
        port: u16,
        tags: Tags,
    },
    /// Asks for the other servers that the server knows.
    ListRequest,
    /// The files that the client shares, at most `FILE_LIMIT`.
    Offer {
        files: Files,
    },
    /// Asks for the files that an expression matches.
    Search {
        expr: Expr,
    },
    /// The client leaves.
    Disconnect,
    /// Asks for the clients that have a file.
    Sources {
        hash: Hash,
    },
    /// Asks the server to have a client of a low id connect to this one.
    Callback {
        id: u32,
    },
    /// Asks for more of what the last search found.
    More,
    /// A message that this program doesn't know. Of its frame the protocol byte and the opcode are kept.
    Other {
        protocol: u8,
        opcode: u8,
    },
}

/// A message from a server to a client.
#[derive(Debug, Drop)]
pub enum ServerMsg {
    /// Other servers, at most 255, each by its address and port.
    List { servers: Endpoints },
    /// The files that a search found, at most `FILE_LIMIT`.
    Results { files: Files },
    /// How many users and files the server has.
    Status { users: u32, files: u32 },
    /// The client at this address wants to be connected to.
    CallbackAsked { ip: u32, port: u16 },
    /// A callback that was asked for can't be had.
    CallbackFailed,
    /// A text to be shown, in whatever encoding.
    Text { text: Bytes },
    /// The client's id from now on. It is written with four more bytes of 0, for what a server can do.
    IdChange { id: u32 },
    /// Clients that have a file, at most 255.
    FoundSources { hash: Hash, list: Endpoints },
    /// A message that this program doesn't know. Of its frame the protocol byte and the opcode are kept.
    Other { protocol: u8, opcode: u8 },
}
