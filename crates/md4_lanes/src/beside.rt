//! MD4 of one message beside SHA-1 of four others: the steps of the one stand between the rounds of the other,
//! so that neither waits for its own last result.
ghost use Rattle.std.specs.Prelude.{◌≡◌, ℕ, ◌+◌, ◌*◌, ◌/◌, ◌%◌, ◌<◌, List, [], ◌∷◌, ◌++◌, length};
ghost use Rattle.md4_hash.specs.Md4.{after, after_block};
ghost use Rattle.sha1.specs.Sha1.{IsRoundsAt, compress, hash_after, sha1};
ghost use Rattle.sha1_lanes.specs.Lanes.{lane, five, pick, IsFirstAt};

use md4_hash::{Md4, RoundConstants, add_turned, round_1, round_2, round_3};
use sha1_lanes::compress;
use std::simd::u32x4;

// The first twenty rounds of SHA-1, and a block of MD4.
#[inline(always)]
fn first_rounds(
    w: &mut [u32x4; 16],
    v: [u32x4; 5],
    registers: &mut [u32; 4],
    block: &[u8],
    constants: &RoundConstants,
) -> [u32x4; 5]
    requires { length block.now ≡ 64 }
    ensures rounds { (j : ℕ) → j < 4 → (b h : List ℕ)
        → IsFirstAt b h (lane j w.old) (five j v) 0 → IsRoundsAt b h (lane j w.new) (five j result) 20 }
    ensures block { registers.new ≡ after_block registers.old block.now }
{
    let mut turned = *registers;
    let v4 = compress::first_four(w, v, 0);
    round_1(&mut turned, block);
    let v8 = compress::first_four(w, v4, 4);
    let v12 = compress::first_four(w, v8, 8);
    round_2(&mut turned, block, constants);
    let v16 = compress::first_four(w, v12, 12);
    round_3(&mut turned, block, constants);
    add_turned(registers, turned);
    compress::choose_four(w, v16)
}

// The second twenty rounds of SHA-1, and a block of MD4.
#[inline(always)]
fn parity_rounds(
    w: &mut [u32x4; 16],
    v: [u32x4; 5],
    registers: &mut [u32; 4],
    block: &[u8],
    constants: &RoundConstants,
) -> [u32x4; 5]
    requires { length block.now ≡ 64 }
    ensures rounds { (j : ℕ) → j < 4 → (b h : List ℕ)
        → IsRoundsAt b h (lane j w.old) (five j v) 20 → IsRoundsAt b h (lane j w.new) (five j result) 40 }
    ensures block { registers.new ≡ after_block registers.old block.now }
{
    let mut turned = *registers;
    let v1 = compress::parity_five(w, v, 20);
    round_1(&mut turned, block);
    let v2 = compress::parity_five(w, v1, 25);
    round_2(&mut turned, block, constants);
    let v3 = compress::parity_five(w, v2, 30);
    round_3(&mut turned, block, constants);
    add_turned(registers, turned);
    compress::parity_five(w, v3, 35)
}

// The third twenty rounds of SHA-1, and a block of MD4.
#[inline(always)]
fn majority_rounds(
    w: &mut [u32x4; 16],
    v: [u32x4; 5],
    registers: &mut [u32; 4],
    block: &[u8],
    constants: &RoundConstants,
) -> [u32x4; 5]
    requires { length block.now ≡ 64 }
    ensures rounds { (j : ℕ) → j < 4 → (b h : List ℕ)
        → IsRoundsAt b h (lane j w.old) (five j v) 40 → IsRoundsAt b h (lane j w.new) (five j result) 60 }
    ensures block { registers.new ≡ after_block registers.old block.now }
{
    let mut turned = *registers;
    let v1 = compress::majority_five(w, v, 40);
    round_1(&mut turned, block);
    let v2 = compress::majority_five(w, v1, 45);
    round_2(&mut turned, block, constants);
    let v3 = compress::majority_five(w, v2, 50);
    round_3(&mut turned, block, constants);
    add_turned(registers, turned);
    compress::majority_five(w, v3, 55)
}

// The last twenty rounds of SHA-1, and a block of MD4.
#[inline(always)]
fn last_rounds(
    w: &mut [u32x4; 16],
    v: [u32x4; 5],
    registers: &mut [u32; 4],
    block: &[u8],
    constants: &RoundConstants,
) -> [u32x4; 5]
    requires { length block.now ≡ 64 }
    ensures rounds { (j : ℕ) → j < 4 → (b h : List ℕ)
        → IsRoundsAt b h (lane j w.old) (five j v) 60 → IsRoundsAt b h (lane j w.new) (five j result) 80 }
    ensures block { registers.new ≡ after_block registers.old block.now }
{
    let mut turned = *registers;
    let v1 = compress::last_five(w, v, 60);
    round_1(&mut turned, block);
    let v2 = compress::last_five(w, v1, 65);
    round_2(&mut turned, block, constants);
    let v3 = compress::last_five(w, v2, 70);
    round_3(&mut turned, block, constants);
    add_turned(registers, turned);
    compress::last_five(w, v3, 75)
}

// A block of each of four messages by SHA-1, and the four blocks of `quad` by MD4.
#[inline(always)]
fn take_blocks(
    state: &mut [u32x4; 5],
    b0: &[u8],
    b1: &[u8],
    b2: &[u8],
    b3: &[u8],
    registers: &mut [u32; 4],
    quad: &[u8],
    constants: &RoundConstants,
)
    requires first { length b0.now ≡ 64 }
    requires second { length b1.now ≡ 64 }
    requires third { length b2.now ≡ 64 }
    requires fourth { length b3.now ≡ 64 }
    requires quad { length quad.now ≡ 256 }
    ensures sha1 { (j : ℕ) → j < 4
        → five j state.new ≡ compress (five j state.old) (pick j b0.now b1.now b2.now b3.now) }
    ensures md4 { registers.new ≡ after registers.old quad.now }
{
    let (q0, others) = quad.split_at(64);
    let (q1, others) = others.split_at(64);
    let (q2, q3) = others.split_at(64);
    let mut w = compress::load_block(b0, b1, b2, b3);
    let v20 = first_rounds(&mut w, *state, registers, q0, constants);
    let v40 = parity_rounds(&mut w, v20, registers, q1, constants);
    let v60 = majority_rounds(&mut w, v40, registers, q2, constants);
    let v80 = last_rounds(&mut w, v60, registers, q3, constants);
    *state = compress::add_state(state, v80);
}

// The hash values behind four messages of one length, and the registers behind a message four times as long.
#[inline(never)]
fn take_messages(
    m0: &[u8],
    m1: &[u8],
    m2: &[u8],
    m3: &[u8],
    registers: &mut [u32; 4],
    long: &[u8],
) -> [u32x4; 5]
    requires whole { length m0.now % 64 ≡ 0 }
    requires second { length m1.now ≡ length m0.now }
    requires third { length m2.now ≡ length m0.now }
    requires fourth { length m3.now ≡ length m0.now }
    requires long { length long.now ≡ 4 * length m0.now }
    ensures sha1 { (j : ℕ) → j < 4
        → five j result ≡ hash_after (pick j m0.now m1.now m2.now m3.now) (length m0.now / 64) }
    ensures md4 { registers.new ≡ after registers.old long.now }
{
    let constants = RoundConstants::new();
    let mut state = sha1_lanes::start();
    'turns: for i in 0..m0.len() / 64 {
        let at = i * 64;
        take_blocks(
            &mut state,
            &m0[at..at + 64],
            &m1[at..at + 64],
            &m2[at..at + 64],
            &m3[at..at + 64],
            registers,
            &long[4 * at..4 * at + 256],
            &constants,
        );
    }
    state
}

/// Puts `long` behind the message of `md4`, and gives the SHA-1 of each of four messages, in one pass. The four
/// are of one length, and `long` is four times as long; all, and the message so far, are whole blocks of 64
/// bytes.
pub fn update_beside_sha1(
    md4: &mut Md4,
    long: &[u8],
    m0: &[u8],
    m1: &[u8],
    m2: &[u8],
    m3: &[u8],
) -> [[u8; 20]; 4]
    requires begins { length md4.old % 64 ≡ 0 }
    requires whole { length m0.now % 64 ≡ 0 }
    requires second { length m1.now ≡ length m0.now }
    requires third { length m2.now ≡ length m0.now }
    requires fourth { length m3.now ≡ length m0.now }
    requires long { length long.now ≡ 4 * length m0.now }
    ensures md4 { md4.new ≡ md4.old ++ long.now }
    ensures sha1 { result ≡ sha1 m0.now ∷ sha1 m1.now ∷ sha1 m2.now ∷ sha1 m3.now ∷ [] }
{
    let mut registers = md4.registers();
    let state = take_messages(m0, m1, m2, m3, &mut registers, long);
    md4.append_blocks(registers, long);
    sha1_lanes::finish(state, m0.len())
}
