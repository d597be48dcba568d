//! The opcode of each message, under the name that the message has: first those of the eDonkey protocol,
//! then those of the eMule extension.

pub(crate) const HELLO: u8 = 0x01;

pub(crate) const SENDING_PART: u8 = 0x46;

pub(crate) const REQUEST_PARTS: u8 = 0x47;

pub(crate) const NO_FILE: u8 = 0x48;

pub(crate) const HELLO_ANSWER: u8 = 0x4C;

pub(crate) const SET_FILE: u8 = 0x4F;

pub(crate) const FILE_STATUS: u8 = 0x50;

pub(crate) const SET_REQUEST: u8 = 0x51;

pub(crate) const SET_ANSWER: u8 = 0x52;

pub(crate) const START_UPLOAD: u8 = 0x54;

pub(crate) const ACCEPT: u8 = 0x55;

pub(crate) const CANCEL: u8 = 0x56;

pub(crate) const OUT_OF_PARTS: u8 = 0x57;

pub(crate) const NAME_REQUEST: u8 = 0x58;

pub(crate) const NAME_ANSWER: u8 = 0x59;

/// A rank in four bytes, which is read and never written.
pub(crate) const LONG_RANK: u8 = 0x5C;

/// The first opcode of the eMule extension: compressed bytes of a part, which aren't read.
pub(crate) const COMPRESSED_PART: u8 = 0x40;

/// A rank in two bytes.
pub(crate) const RANK: u8 = 0x60;

pub(crate) const AICH_REQUEST: u8 = 0x9B;

pub(crate) const AICH_ANSWER: u8 = 0x9C;

pub(crate) const ROOT_ANSWER: u8 = 0x9D;

pub(crate) const ROOT_REQUEST: u8 = 0x9E;
