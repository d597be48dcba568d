//! The compression function of four messages, and its rounds by fours and fives, for a loop that does other
//! work between them.
ghost use Rattle.std.specs.Prelude.{◌≡◌, ℕ, ◌+◌, ◌*◌, ◌%◌, ◌<◌, ◌≤◌, List, length, slice_index, slice_set};
ghost use Rattle.sha1.specs.Sha1.{IsRoundsAt, IsWindow, window_word, schedule, round, add_state, compress};
ghost use Rattle.sha1_lanes.specs.Lanes.{lane, five, pick, IsFirstAt};

use crate::word;
use std::simd::u32x4;

const K0: u32 = 0x5A82_7999;

const K1: u32 = 0x6ED9_EBA1;

const K2: u32 = 0x8F1B_BCDC;

const K3: u32 = 0xCA62_C1D6;

// Word t of each schedule, for t from 16, in the place of word t - 16.
#[inline(always)]
fn next_word(w: &mut [u32x4; 16], t: usize) -> u32x4
    requires { t < 80 }
    ensures value { (j : ℕ) → j < 4 → slice_index result j ≡ window_word (lane j w.old) t }
    ensures window { (j : ℕ) → j < 4 → lane j w.new ≡ slice_set (lane j w.old) (t % 16) (slice_index result j) }
{
    let sum = word::mix(
        w[(t + 13) % 16],
        w[(t + 8) % 16],
        w[(t + 2) % 16],
        w[t % 16],
    );
    let word = word::turn(sum, 1);
    w[t % 16] = word;
    word
}

#[inline(always)]
fn round(v: [u32x4; 5], f: u32x4, k: u32x4, word: u32x4) -> [u32x4; 5]
    ensures { (j : ℕ) → j < 4
        → five j result ≡ round (five j v) (slice_index f j) (slice_index k j) (slice_index word j) }
{
    let [a, b, c, d, e] = v;
    let turned = word::turn(a, 5);
    let with_f = word::add(turned, f);
    let with_e = word::add(with_f, e);
    let with_k = word::add(with_e, k);
    let sum = word::add(with_k, word);
    [sum, a, word::turn(b, 30), c, d]
}

#[inline(always)]
fn choose_step(w: &mut [u32x4; 16], v: [u32x4; 5], t: usize) -> [u32x4; 5]
    requires low { 16 ≤ t }
    requires high { t < 20 }
    ensures { (j : ℕ) → j < 4 → (b h : List ℕ)
        → IsRoundsAt b h (lane j w.old) (five j v) t → IsRoundsAt b h (lane j w.new) (five j result) (t + 1) }
{
    let word = next_word(w, t);
    round(v, word::ch(v[1], v[2], v[3]), word::same(K0), word)
}

#[inline(always)]
fn parity_step(w: &mut [u32x4; 16], v: [u32x4; 5], t: usize) -> [u32x4; 5]
    requires low { 20 ≤ t }
    requires high { t < 40 }
    ensures { (j : ℕ) → j < 4 → (b h : List ℕ)
        → IsRoundsAt b h (lane j w.old) (five j v) t → IsRoundsAt b h (lane j w.new) (five j result) (t + 1) }
{
    let word = next_word(w, t);
    round(v, word::parity(v[1], v[2], v[3]), word::same(K1), word)
}

#[inline(always)]
fn majority_step(w: &mut [u32x4; 16], v: [u32x4; 5], t: usize) -> [u32x4; 5]
    requires low { 40 ≤ t }
    requires high { t < 60 }
    ensures { (j : ℕ) → j < 4 → (b h : List ℕ)
        → IsRoundsAt b h (lane j w.old) (five j v) t → IsRoundsAt b h (lane j w.new) (five j result) (t + 1) }
{
    let word = next_word(w, t);
    round(v, word::maj(v[1], v[2], v[3]), word::same(K2), word)
}

#[inline(always)]
fn last_step(w: &mut [u32x4; 16], v: [u32x4; 5], t: usize) -> [u32x4; 5]
    requires low { 60 ≤ t }
    requires high { t < 80 }
    ensures { (j : ℕ) → j < 4 → (b h : List ℕ)
        → IsRoundsAt b h (lane j w.old) (five j v) t → IsRoundsAt b h (lane j w.new) (five j result) (t + 1) }
{
    let word = next_word(w, t);
    round(v, word::parity(v[1], v[2], v[3]), word::same(K3), word)
}

// One of the first 16 rounds, whose words the block has.
#[inline(always)]
fn first_step(w: &[u32x4; 16], v: [u32x4; 5], t: usize) -> [u32x4; 5]
    requires { t < 16 }
    ensures { (j : ℕ) → j < 4 → (b h : List ℕ)
        → IsFirstAt b h (lane j w.now) (five j v) t → IsFirstAt b h (lane j w.now) (five j result) (t + 1) }
{
    round(v, word::ch(v[1], v[2], v[3]), word::same(K0), w[t])
}

/// Four of the first 16 rounds, from round `t` on.
#[inline(always)]
pub fn first_four(w: &[u32x4; 16], v: [u32x4; 5], t: usize) -> [u32x4; 5]
    requires { t + 4 ≤ 16 }
    ensures { (j : ℕ) → j < 4 → (b h : List ℕ)
        → IsFirstAt b h (lane j w.now) (five j v) t → IsFirstAt b h (lane j w.now) (five j result) (t + 4) }
{
    let v1 = first_step(w, v, t);
    let v2 = first_step(w, v1, t + 1);
    let v3 = first_step(w, v2, t + 2);
    first_step(w, v3, t + 3)
}

/// The four rounds behind the first 16.
#[inline(always)]
pub fn choose_four(w: &mut [u32x4; 16], v: [u32x4; 5]) -> [u32x4; 5]
    ensures { (j : ℕ) → j < 4 → (b h : List ℕ)
        → IsRoundsAt b h (lane j w.old) (five j v) 16 → IsRoundsAt b h (lane j w.new) (five j result) 20 }
{
    let v1 = choose_step(w, v, 16);
    let v2 = choose_step(w, v1, 17);
    let v3 = choose_step(w, v2, 18);
    choose_step(w, v3, 19)
}

/// Five rounds of the second twenty, from round `t` on.
#[inline(always)]
pub fn parity_five(w: &mut [u32x4; 16], v: [u32x4; 5], t: usize) -> [u32x4; 5]
    requires low { 20 ≤ t }
    requires high { t + 5 ≤ 40 }
    ensures { (j : ℕ) → j < 4 → (b h : List ℕ)
        → IsRoundsAt b h (lane j w.old) (five j v) t → IsRoundsAt b h (lane j w.new) (five j result) (t + 5) }
{
    let v1 = parity_step(w, v, t);
    let v2 = parity_step(w, v1, t + 1);
    let v3 = parity_step(w, v2, t + 2);
    let v4 = parity_step(w, v3, t + 3);
    parity_step(w, v4, t + 4)
}

#[inline(always)]
fn parity_rounds(w: &mut [u32x4; 16], v: [u32x4; 5]) -> [u32x4; 5]
    ensures { (j : ℕ) → j < 4 → (b h : List ℕ)
        → IsRoundsAt b h (lane j w.old) (five j v) 20 → IsRoundsAt b h (lane j w.new) (five j result) 40 }
{
    let v1 = parity_five(w, v, 20);
    let v2 = parity_five(w, v1, 25);
    let v3 = parity_five(w, v2, 30);
    parity_five(w, v3, 35)
}

/// Five rounds of the third twenty, from round `t` on.
#[inline(always)]
pub fn majority_five(w: &mut [u32x4; 16], v: [u32x4; 5], t: usize) -> [u32x4; 5]
    requires low { 40 ≤ t }
    requires high { t + 5 ≤ 60 }
    ensures { (j : ℕ) → j < 4 → (b h : List ℕ)
        → IsRoundsAt b h (lane j w.old) (five j v) t → IsRoundsAt b h (lane j w.new) (five j result) (t + 5) }
{
    let v1 = majority_step(w, v, t);
    let v2 = majority_step(w, v1, t + 1);
    let v3 = majority_step(w, v2, t + 2);
    let v4 = majority_step(w, v3, t + 3);
    majority_step(w, v4, t + 4)
}

#[inline(always)]
fn majority_rounds(w: &mut [u32x4; 16], v: [u32x4; 5]) -> [u32x4; 5]
    ensures { (j : ℕ) → j < 4 → (b h : List ℕ)
        → IsRoundsAt b h (lane j w.old) (five j v) 40 → IsRoundsAt b h (lane j w.new) (five j result) 60 }
{
    let v1 = majority_five(w, v, 40);
    let v2 = majority_five(w, v1, 45);
    let v3 = majority_five(w, v2, 50);
    majority_five(w, v3, 55)
}

/// Five of the last twenty rounds, from round `t` on.
#[inline(always)]
pub fn last_five(w: &mut [u32x4; 16], v: [u32x4; 5], t: usize) -> [u32x4; 5]
    requires low { 60 ≤ t }
    requires high { t + 5 ≤ 80 }
    ensures { (j : ℕ) → j < 4 → (b h : List ℕ)
        → IsRoundsAt b h (lane j w.old) (five j v) t → IsRoundsAt b h (lane j w.new) (five j result) (t + 5) }
{
    let v1 = last_step(w, v, t);
    let v2 = last_step(w, v1, t + 1);
    let v3 = last_step(w, v2, t + 2);
    let v4 = last_step(w, v3, t + 3);
    last_step(w, v4, t + 4)
}

#[inline(always)]
fn last_rounds(w: &mut [u32x4; 16], v: [u32x4; 5]) -> [u32x4; 5]
    ensures { (j : ℕ) → j < 4 → (b h : List ℕ)
        → IsRoundsAt b h (lane j w.old) (five j v) 60 → IsRoundsAt b h (lane j w.new) (five j result) 80 }
{
    let v1 = last_five(w, v, 60);
    let v2 = last_five(w, v1, 65);
    let v3 = last_five(w, v2, 70);
    last_five(w, v3, 75)
}

/// The first 16 words of each block's schedule.
#[inline(always)]
pub fn load_block(b0: &[u8], b1: &[u8], b2: &[u8], b3: &[u8]) -> [u32x4; 16]
    requires first { length b0.now ≡ 64 }
    requires second { length b1.now ≡ 64 }
    requires third { length b2.now ≡ 64 }
    requires fourth { length b3.now ≡ 64 }
    ensures { (j : ℕ) → j < 4
        → IsWindow (lane j result) (schedule (pick j b0.now b1.now b2.now b3.now) 64) 16 }
{
    let [w0, w1, w2, w3] = word::columns(b0, b1, b2, b3, 0);
    let [w4, w5, w6, w7] = word::columns(b0, b1, b2, b3, 16);
    let [w8, w9, w10, w11] = word::columns(b0, b1, b2, b3, 32);
    let [w12, w13, w14, w15] = word::columns(b0, b1, b2, b3, 48);
    [
        w0, w1, w2, w3, w4, w5, w6, w7, w8, w9, w10, w11, w12, w13, w14, w15,
    ]
}

#[inline(always)]
fn first_rounds(w: &[u32x4; 16], v: [u32x4; 5]) -> [u32x4; 5]
    ensures { (j : ℕ) → j < 4 → (b h : List ℕ)
        → IsFirstAt b h (lane j w.now) (five j v) 0 → IsRoundsAt b h (lane j w.now) (five j result) 16 }
{
    let v1 = first_four(w, v, 0);
    let v2 = first_four(w, v1, 4);
    let v3 = first_four(w, v2, 8);
    first_four(w, v3, 12)
}

/// Adds what the rounds gave to the hash values before them.
#[inline(always)]
pub fn add_state(state: &[u32x4; 5], v: [u32x4; 5]) -> [u32x4; 5]
    ensures { (j : ℕ) → j < 4 → five j result ≡ add_state (five j state.now) (five j v) }
{
    [
        word::add(state[0], v[0]),
        word::add(state[1], v[1]),
        word::add(state[2], v[2]),
        word::add(state[3], v[3]),
        word::add(state[4], v[4]),
    ]
}

/// Runs the 80 rounds over a block of each message, and adds the result to each hash value.
#[inline(always)]
pub fn compress(state: &mut [u32x4; 5], b0: &[u8], b1: &[u8], b2: &[u8], b3: &[u8])
    requires first { length b0.now ≡ 64 }
    requires second { length b1.now ≡ 64 }
    requires third { length b2.now ≡ 64 }
    requires fourth { length b3.now ≡ 64 }
    ensures { (j : ℕ) → j < 4
        → five j state.new ≡ compress (five j state.old) (pick j b0.now b1.now b2.now b3.now) }
{
    let mut w = load_block(b0, b1, b2, b3);
    let v16 = first_rounds(&w, *state);
    let v20 = choose_four(&mut w, v16);
    let v40 = parity_rounds(&mut w, v20);
    let v60 = majority_rounds(&mut w, v40);
    let v80 = last_rounds(&mut w, v60);
    *state = add_state(state, v80);
}
