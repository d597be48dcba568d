//! One block of each of four messages.
ghost use Rattle.std.specs.Prelude.{◌≡◌, ℕ, ◌+◌, ◌*◌, ◌<◌, ◌≤◌, List, length, slice_index};
ghost use Rattle.md4_hash.specs.Md4.{word, choice, majority, parity, step, round_1, round_2, round_3, sums, after_block};
ghost use Rattle.sha1_lanes.specs.Lanes.{lane_at, pick};
ghost use Rattle.md4_lanes.specs.Lanes.{four, HasWords};

use sha1_lanes::word;
use std::simd::u32x4;

#[inline(always)]
fn choice(x: u32x4, y: u32x4, z: u32x4) -> u32x4
    ensures { (j : ℕ) → j < 4
        → slice_index result j ≡ choice (slice_index x j) (slice_index y j) (slice_index z j) }
{
    (x & y) | (!x & z)
}

#[inline(always)]
fn majority(x: u32x4, y: u32x4, z: u32x4) -> u32x4
    ensures { (j : ℕ) → j < 4
        → slice_index result j ≡ majority (slice_index x j) (slice_index y j) (slice_index z j) }
{
    (x & y) | (x & z) | (y & z)
}

#[inline(always)]
fn choose(v: [u32x4; 4], w: &[u32x4; 16], k: usize, s: u32) -> [u32x4; 4]
    requires word { k < 16 }
    requires shift { (0 < s) × (s < 32) }
    ensures { (j : ℕ) → j < 4 → (m : List ℕ) → HasWords j w.now m
        → four j result ≡ step choice 0 (word m k) s (four j v) }
{
    let [a, b, c, d] = v;
    let with_word = word::add(a, w[k]);
    let sum = word::add(with_word, choice(b, c, d));
    [d, word::turn(sum, s), b, c]
}

#[inline(always)]
fn take_majority(v: [u32x4; 4], w: &[u32x4; 16], k: usize, s: u32) -> [u32x4; 4]
    requires word { k < 16 }
    requires shift { (0 < s) × (s < 32) }
    ensures { (j : ℕ) → j < 4 → (m : List ℕ) → HasWords j w.now m
        → four j result ≡ step majority 0x5A827999 (word m k) s (four j v) }
{
    let [a, b, c, d] = v;
    let with_word = word::add(a, w[k]);
    let with_root = word::add(with_word, word::same(0x5A82_7999));
    let sum = word::add(with_root, majority(b, c, d));
    [d, word::turn(sum, s), b, c]
}

#[inline(always)]
fn take_parity(v: [u32x4; 4], w: &[u32x4; 16], k: usize, s: u32) -> [u32x4; 4]
    requires word { k < 16 }
    requires shift { (0 < s) × (s < 32) }
    ensures { (j : ℕ) → j < 4 → (m : List ℕ) → HasWords j w.now m
        → four j result ≡ step parity 0x6ED9EBA1 (word m k) s (four j v) }
{
    let [a, b, c, d] = v;
    let with_word = word::add(a, w[k]);
    let with_root = word::add(with_word, word::same(0x6ED9_EBA1));
    let sum = word::add(with_root, word::parity(b, c, d));
    [d, word::turn(sum, s), b, c]
}

#[inline(always)]
fn round_1(v: [u32x4; 4], w: &[u32x4; 16]) -> [u32x4; 4]
    ensures { (j : ℕ) → j < 4 → (m : List ℕ) → HasWords j w.now m → four j result ≡ round_1 m (four j v) }
{
    let v1 = choose(v, w, 0, 3);
    let v2 = choose(v1, w, 1, 7);
    let v3 = choose(v2, w, 2, 11);
    let v4 = choose(v3, w, 3, 19);
    let v5 = choose(v4, w, 4, 3);
    let v6 = choose(v5, w, 5, 7);
    let v7 = choose(v6, w, 6, 11);
    let v8 = choose(v7, w, 7, 19);
    let v9 = choose(v8, w, 8, 3);
    let v10 = choose(v9, w, 9, 7);
    let v11 = choose(v10, w, 10, 11);
    let v12 = choose(v11, w, 11, 19);
    let v13 = choose(v12, w, 12, 3);
    let v14 = choose(v13, w, 13, 7);
    let v15 = choose(v14, w, 14, 11);
    choose(v15, w, 15, 19)
}

#[inline(always)]
fn round_2(v: [u32x4; 4], w: &[u32x4; 16]) -> [u32x4; 4]
    ensures { (j : ℕ) → j < 4 → (m : List ℕ) → HasWords j w.now m → four j result ≡ round_2 m (four j v) }
{
    let v1 = take_majority(v, w, 0, 3);
    let v2 = take_majority(v1, w, 4, 5);
    let v3 = take_majority(v2, w, 8, 9);
    let v4 = take_majority(v3, w, 12, 13);
    let v5 = take_majority(v4, w, 1, 3);
    let v6 = take_majority(v5, w, 5, 5);
    let v7 = take_majority(v6, w, 9, 9);
    let v8 = take_majority(v7, w, 13, 13);
    let v9 = take_majority(v8, w, 2, 3);
    let v10 = take_majority(v9, w, 6, 5);
    let v11 = take_majority(v10, w, 10, 9);
    let v12 = take_majority(v11, w, 14, 13);
    let v13 = take_majority(v12, w, 3, 3);
    let v14 = take_majority(v13, w, 7, 5);
    let v15 = take_majority(v14, w, 11, 9);
    take_majority(v15, w, 15, 13)
}

#[inline(always)]
fn round_3(v: [u32x4; 4], w: &[u32x4; 16]) -> [u32x4; 4]
    ensures { (j : ℕ) → j < 4 → (m : List ℕ) → HasWords j w.now m → four j result ≡ round_3 m (four j v) }
{
    let v1 = take_parity(v, w, 0, 3);
    let v2 = take_parity(v1, w, 8, 9);
    let v3 = take_parity(v2, w, 4, 11);
    let v4 = take_parity(v3, w, 12, 15);
    let v5 = take_parity(v4, w, 2, 3);
    let v6 = take_parity(v5, w, 10, 9);
    let v7 = take_parity(v6, w, 6, 11);
    let v8 = take_parity(v7, w, 14, 15);
    let v9 = take_parity(v8, w, 1, 3);
    let v10 = take_parity(v9, w, 9, 9);
    let v11 = take_parity(v10, w, 5, 11);
    let v12 = take_parity(v11, w, 13, 15);
    let v13 = take_parity(v12, w, 3, 3);
    let v14 = take_parity(v13, w, 11, 9);
    let v15 = take_parity(v14, w, 7, 11);
    take_parity(v15, w, 15, 15)
}

#[inline(always)]
fn load_le(block: &[u8], k: usize) -> u32
    requires { 4 * k + 3 < length block.now }
    ensures { result ≡ word block.now k }
{
    u32::from_le_bytes([
        block[4 * k],
        block[4 * k + 1],
        block[4 * k + 2],
        block[4 * k + 3],
    ])
}

// Word `k` of each block.
#[inline(always)]
fn load(b0: &[u8], b1: &[u8], b2: &[u8], b3: &[u8], k: usize) -> u32x4
    requires word { k < 16 }
    requires first { length b0.now ≡ 64 }
    requires second { length b1.now ≡ 64 }
    requires third { length b2.now ≡ 64 }
    requires fourth { length b3.now ≡ 64 }
    ensures { (j : ℕ) → j < 4 → slice_index result j ≡ word (pick j b0.now b1.now b2.now b3.now) k }
{
    u32x4::from_array([
        load_le(b0, k),
        load_le(b1, k),
        load_le(b2, k),
        load_le(b3, k),
    ])
}

#[inline(always)]
fn load_block(b0: &[u8], b1: &[u8], b2: &[u8], b3: &[u8]) -> [u32x4; 16]
    requires first { length b0.now ≡ 64 }
    requires second { length b1.now ≡ 64 }
    requires third { length b2.now ≡ 64 }
    requires fourth { length b3.now ≡ 64 }
    ensures { (j : ℕ) → j < 4 → HasWords j result (pick j b0.now b1.now b2.now b3.now) }
{
    [
        load(b0, b1, b2, b3, 0),
        load(b0, b1, b2, b3, 1),
        load(b0, b1, b2, b3, 2),
        load(b0, b1, b2, b3, 3),
        load(b0, b1, b2, b3, 4),
        load(b0, b1, b2, b3, 5),
        load(b0, b1, b2, b3, 6),
        load(b0, b1, b2, b3, 7),
        load(b0, b1, b2, b3, 8),
        load(b0, b1, b2, b3, 9),
        load(b0, b1, b2, b3, 10),
        load(b0, b1, b2, b3, 11),
        load(b0, b1, b2, b3, 12),
        load(b0, b1, b2, b3, 13),
        load(b0, b1, b2, b3, 14),
        load(b0, b1, b2, b3, 15),
    ]
}

#[inline(always)]
fn sums(v: &[u32x4; 4], after: [u32x4; 4]) -> [u32x4; 4]
    ensures { (j : ℕ) → j < 4 → four j result ≡ sums (four j v.now) (four j after) }
{
    [
        word::add(v[0], after[0]),
        word::add(v[1], after[1]),
        word::add(v[2], after[2]),
        word::add(v[3], after[3]),
    ]
}

/// Runs the three rounds over a block of each message, and adds the registers before them.
#[inline(always)]
pub fn take_block(registers: &mut [u32x4; 4], b0: &[u8], b1: &[u8], b2: &[u8], b3: &[u8])
    requires first { length b0.now ≡ 64 }
    requires second { length b1.now ≡ 64 }
    requires third { length b2.now ≡ 64 }
    requires fourth { length b3.now ≡ 64 }
    ensures { (j : ℕ) → j < 4
        → four j registers.new ≡ after_block (four j registers.old) (pick j b0.now b1.now b2.now b3.now) }
{
    let w = load_block(b0, b1, b2, b3);
    let first = round_1(*registers, &w);
    let second = round_2(first, &w);
    let third = round_3(second, &w);
    *registers = sums(registers, third);
}
