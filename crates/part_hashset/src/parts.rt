//! The hashes of a stream's parts, as its pieces come.
ghost use Rattle.std.specs.Prelude.{◌≡◌, ◌+◌, ◌/◌, ◌%◌, ◌<◌, ◌≤◌, ◌++◌, length, vec_len, vec_capacity};
ghost use Rattle.part_hashset.specs.WholeParts.{open_part, whole_hashes};

use crate::Hash;
use md4_hash::Md4;
use part_sizes::PART;
use std::mem;

/// The bytes of a part, as a length.
pub const PART_LEN: usize = PART as usize;

/// The number of parts that end in a piece, behind the `filled` bytes of the open part.
pub fn count_ended(filled: usize, piece_len: usize) -> usize
    requires { filled < PART }
    ensures { result ≡ (filled + piece_len) / PART }
{
    let room = PART_LEN - filled;
    if piece_len < room {
        0
    } else {
        (piece_len - room) / PART_LEN + 1
    }
}

/// The bytes of the open part behind a piece.
pub fn filled_after(filled: usize, piece_len: usize) -> usize
    requires { filled < PART }
    ensures { result ≡ (filled + piece_len) % PART }
{
    (filled + piece_len % PART_LEN) % PART_LEN
}

/// Takes in a piece behind the `filled` bytes of the open part. The members have room for each part
/// that ends in it.
pub fn absorb(members: &mut Vec<Hash>, part: &mut Md4, filled: usize, piece: &[u8])
    requires filled { length part.old ≡ filled }
    requires below { filled < PART }
    requires room { vec_len members.old + (filled + length piece.now) / PART ≤ vec_capacity members.old }
    ensures members { members.new.items ≡ members.old.items ++ whole_hashes (part.old ++ piece.now) }
    ensures part { part.new ≡ open_part (part.old ++ piece.now) }
{
    let mut rest = piece;
    let mut room = PART_LEN - filled;
    while rest.len() >= room {
        let (front, behind) = rest.split_at(room);
        part.update(front);
        let full = mem::replace(part, Md4::new());
        members.push_reserved(full.finalize());
        rest = behind;
        room = PART_LEN;
    }
    part.update(rest);
}
