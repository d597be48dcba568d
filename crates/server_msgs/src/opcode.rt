//! The opcode of each message, under the name that the message has: first those of a client, then those of a
//! server.

pub(crate) const LOGIN: u8 = 0x01;

pub(crate) const LIST_REQUEST: u8 = 0x14;

pub(crate) const OFFER: u8 = 0x15;

pub(crate) const SEARCH: u8 = 0x16;

pub(crate) const DISCONNECT: u8 = 0x18;

pub(crate) const SOURCES: u8 = 0x19;

pub(crate) const CALLBACK: u8 = 0x1C;

pub(crate) const MORE: u8 = 0x21;

pub(crate) const LIST: u8 = 0x32;

pub(crate) const RESULTS: u8 = 0x33;

pub(crate) const STATUS: u8 = 0x34;

pub(crate) const CALLBACK_ASKED: u8 = 0x35;

pub(crate) const CALLBACK_FAILED: u8 = 0x36;

pub(crate) const TEXT: u8 = 0x38;

pub(crate) const ID_CHANGE: u8 = 0x40;

pub(crate) const FOUND_SOURCES: u8 = 0x42;

/// The one opcode of the eMule extension that is refused: compressed bytes of a part.
pub(crate) const COMPRESSED_PART: u8 = 0x40;
