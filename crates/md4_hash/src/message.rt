//! A message's whole blocks, its padding and its digest (RFC 1320, sections 3.1 to 3.5).

ghost use Rattle.std.specs.Prelude.{◌≡◌, ◌++◌, ◌%◌, ◌<◌, length, take};
ghost use Rattle.md4_hash.specs.Md4.{after, padding, digest, IsRest};

use crate::block::{self, RoundConstants};

/// The bytes of a block.
pub const BLOCK_LEN: usize = 64;

/// A, B, C and D before the first block.
pub const START: [u32; 4] = [0x6745_2301, 0xEFCD_AB89, 0x98BA_DCFE, 0x1032_5476];

/// Takes in all whole blocks of `bytes`.
#[inline(never)]
pub fn take_blocks(registers: &mut [u32; 4], bytes: &[u8], constants: &RoundConstants)
    ensures { registers.new ≡ after registers.old bytes.now }
{
    for i in 0..bytes.len() / BLOCK_LEN {
        let block = &bytes[i * BLOCK_LEN..i * BLOCK_LEN + BLOCK_LEN];
        block::take_block(registers, block, constants);
    }
}

/// Takes in `piece` behind the first `used` bytes of `buffer`, and leaves there what fills no block.
pub fn absorb(
    registers: &mut [u32; 4],
    buffer: &mut [u8; BLOCK_LEN],
    used: usize,
    piece: &[u8],
    constants: &RoundConstants,
)
    requires { used < 64 }
    ensures taken { registers.new ≡ after registers.old (take used buffer.old ++ piece.now) }
    ensures rest { IsRest buffer.new (take used buffer.old ++ piece.now) }
{
    if used == 0 {
        absorb_aligned(registers, buffer, piece, constants);
        return;
    }
    let room = BLOCK_LEN - used;
    if piece.len() < room {
        buffer[used..used + piece.len()].copy_from_slice(piece);
        return;
    }
    let (front, others) = piece.split_at(room);
    buffer[used..].copy_from_slice(front);
    take_blocks(registers, buffer, constants);
    absorb_aligned(registers, buffer, others, constants);
}

// The same, where `buffer` holds nothing yet.
fn absorb_aligned(
    registers: &mut [u32; 4],
    buffer: &mut [u8; BLOCK_LEN],
    piece: &[u8],
    constants: &RoundConstants,
)
    ensures taken { registers.new ≡ after registers.old piece.now }
    ensures rest { IsRest buffer.new piece.now }
{
    let (blocks, rest) = piece.split_at(piece.len() - piece.len() % BLOCK_LEN);
    take_blocks(registers, blocks, constants);
    buffer[..rest.len()].copy_from_slice(rest);
}

/// The digest of a message of `total` bytes, modulo 2^64, of which `rest` is left, behind the blocks
/// that `registers` has taken in.
pub fn finish(
    mut registers: [u32; 4],
    rest: &[u8],
    total: u64,
    constants: &RoundConstants,
) -> [u8; 16]
    requires { length rest.now ≡ total % 64 }
    ensures { result ≡ digest (after registers (rest.now ++ padding total)) }
{
    let mut last = [0; 2 * BLOCK_LEN];
    let used = rest.len();
    let end = if used + 9 <= BLOCK_LEN {
        BLOCK_LEN
    } else {
        2 * BLOCK_LEN
    };
    last[..used].copy_from_slice(rest);
    last[used] = 0x80;
    last[end - 8..end].copy_from_slice(&total.wrapping_mul(8).to_le_bytes());
    take_blocks(&mut registers, &last[..end], constants);
    digest(&registers)
}

// A, B, C and D, low-order byte first.
fn digest(registers: &[u32; 4]) -> [u8; 16]
    ensures { result ≡ digest registers.now }
{
    let [a0, a1, a2, a3] = registers[0].to_le_bytes();
    let [b0, b1, b2, b3] = registers[1].to_le_bytes();
    let [c0, c1, c2, c3] = registers[2].to_le_bytes();
    let [d0, d1, d2, d3] = registers[3].to_le_bytes();
    [
        a0, a1, a2, a3, b0, b1, b2, b3, c0, c1, c2, c3, d0, d1, d2, d3,
    ]
}
