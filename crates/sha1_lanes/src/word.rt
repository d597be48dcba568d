//! Words of four messages, and what the rounds do with them in each lane.
ghost use Rattle.std.specs.Prelude.{◌≡◌, ℕ, ◌+◌, ◌*◌, ◌<◌, ◌≤◌, length, slice_index, bit_xor};
ghost use Rattle.std.specs.Int.{w32, rotate_left};
ghost use Rattle.sha1.specs.Sha1.{add32, ch, parity, maj, word_at};
ghost use Rattle.sha1_lanes.specs.Lanes.{pick, lane_at};

use std::simd::u32x4;

#[inline(always)]
pub fn add(x: u32x4, y: u32x4) -> u32x4
    ensures { (j : ℕ) → j < 4 → slice_index result j ≡ add32 (slice_index x j) (slice_index y j) }
{
    x + y
}

/// Each lane rotated left by `k`.
#[inline(always)]
pub fn turn(x: u32x4, k: u32) -> u32x4
    requires { (0 < k) × (k < 32) }
    ensures { (j : ℕ) → j < 4 → slice_index result j ≡ rotate_left w32 (slice_index x j) k }
{
    (x << u32x4::splat(k)) | (x >> u32x4::splat(32 - k))
}

#[inline(always)]
pub fn ch(x: u32x4, y: u32x4, z: u32x4) -> u32x4
    ensures { (j : ℕ) → j < 4
        → slice_index result j ≡ ch (slice_index x j) (slice_index y j) (slice_index z j) }
{
    (x & y) ^ (!x & z)
}

#[inline(always)]
pub fn parity(x: u32x4, y: u32x4, z: u32x4) -> u32x4
    ensures { (j : ℕ) → j < 4
        → slice_index result j ≡ parity (slice_index x j) (slice_index y j) (slice_index z j) }
{
    x ^ y ^ z
}

#[inline(always)]
pub fn maj(x: u32x4, y: u32x4, z: u32x4) -> u32x4
    ensures { (j : ℕ) → j < 4
        → slice_index result j ≡ maj (slice_index x j) (slice_index y j) (slice_index z j) }
{
    (x & y) ^ (x & z) ^ (y & z)
}

#[inline(always)]
pub fn same(k: u32) -> u32x4
    ensures { (j : ℕ) → j < 4 → slice_index result j ≡ k }
{
    u32x4::splat(k)
}

#[inline(always)]
pub fn mix(x: u32x4, y: u32x4, z: u32x4, u: u32x4) -> u32x4
    ensures { (j : ℕ) → j < 4
        → slice_index result j
        ≡ bit_xor (bit_xor (bit_xor (slice_index x j) (slice_index y j)) (slice_index z j)) (slice_index u j) }
{
    x ^ y ^ z ^ u
}

// The word at byte `i` of a block, high byte first.
#[inline(always)]
fn load_be(block: &[u8], i: usize) -> u32
    requires { i + 4 ≤ length block.now }
    ensures { result ≡ word_at block.now i }
{
    u32::from_be_bytes([block[i], block[i + 1], block[i + 2], block[i + 3]])
}

/// The words at byte `at`, `at + 4`, `at + 8` and `at + 12` of each block.
#[inline(always)]
pub fn columns(b0: &[u8], b1: &[u8], b2: &[u8], b3: &[u8], at: usize) -> [u32x4; 4]
    requires first { at + 16 ≤ length b0.now }
    requires second { at + 16 ≤ length b1.now }
    requires third { at + 16 ≤ length b2.now }
    requires fourth { at + 16 ≤ length b3.now }
    ensures { (j k : ℕ) → j < 4 → k < 4
        → lane_at result k j ≡ word_at (pick j b0.now b1.now b2.now b3.now) (at + 4 * k) }
{
    [
        load(b0, b1, b2, b3, at),
        load(b0, b1, b2, b3, at + 4),
        load(b0, b1, b2, b3, at + 8),
        load(b0, b1, b2, b3, at + 12),
    ]
}

// The word at byte `i` of each block.
#[inline(always)]
fn load(b0: &[u8], b1: &[u8], b2: &[u8], b3: &[u8], i: usize) -> u32x4
    requires first { i + 4 ≤ length b0.now }
    requires second { i + 4 ≤ length b1.now }
    requires third { i + 4 ≤ length b2.now }
    requires fourth { i + 4 ≤ length b3.now }
    ensures { (j : ℕ) → j < 4 → slice_index result j ≡ word_at (pick j b0.now b1.now b2.now b3.now) i }
{
    u32x4::from_array([
        load_be(b0, i),
        load_be(b1, i),
        load_be(b2, i),
        load_be(b3, i),
    ])
}
