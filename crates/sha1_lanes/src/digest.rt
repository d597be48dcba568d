//! The digests of four messages of whole blocks.
ghost use Rattle.std.specs.Prelude.{◌≡◌, ℕ, ◌+◌, ◌*◌, ◌/◌, ◌%◌, ◌<◌, List, [], ◌∷◌, length};
ghost use Rattle.sha1.specs.Sha1.{hash_after, digest_bytes, padding, sha1};
ghost use Rattle.sha1_lanes.specs.Lanes.{five, pick, IsBehind};

use crate::{compress, word};
use std::simd::u32x4;

/// The hash values before the first block of four messages.
pub fn start() -> [u32x4; 5]
    ensures { (j : ℕ) → j < 4 → (m : List ℕ) → five j result ≡ hash_after m 0 }
{
    [
        word::same(0x6745_2301),
        word::same(0xEFCD_AB89),
        word::same(0x98BA_DCFE),
        word::same(0x1032_5476),
        word::same(0xC3D2_E1F0),
    ]
}

// The hash values after the blocks of messages of one length.
#[inline(never)]
fn take_blocks(m0: &[u8], m1: &[u8], m2: &[u8], m3: &[u8]) -> [u32x4; 5]
    requires second { length m1.now ≡ length m0.now }
    requires third { length m2.now ≡ length m0.now }
    requires fourth { length m3.now ≡ length m0.now }
    ensures { (j : ℕ) → j < 4
        → five j result ≡ hash_after (pick j m0.now m1.now m2.now m3.now) (length m0.now / 64) }
{
    let mut state = start();
    'turns: for i in 0..m0.len() / 64 {
        let at = i * 64;
        compress::compress(
            &mut state,
            &m0[at..at + 64],
            &m1[at..at + 64],
            &m2[at..at + 64],
            &m3[at..at + 64],
        );
    }
    state
}

// The padding of a message of whole blocks, which is a block.
fn last_block(len: usize) -> [u8; 64]
    requires { len % 64 ≡ 0 }
    ensures { result ≡ padding len }
{
    let [b0, b1, b2, b3, b4, b5, b6, b7] = (len as u64).wrapping_mul(8).to_be_bytes();
    [
        0x80, 0, 0, 0, 0, 0, 0, 0, 0, 0, 0, 0, 0, 0, 0, 0, 0, 0, 0, 0, 0, 0, 0, 0, 0, 0, 0, 0, 0,
        0, 0, 0, 0, 0, 0, 0, 0, 0, 0, 0, 0, 0, 0, 0, 0, 0, 0, 0, 0, 0, 0, 0, 0, 0, 0, 0, b0, b1,
        b2, b3, b4, b5, b6, b7,
    ]
}

fn digest(words: [u32; 5]) -> [u8; 20]
    ensures { result ≡ digest_bytes words 5 }
{
    let [a0, a1, a2, a3] = words[0].to_be_bytes();
    let [b0, b1, b2, b3] = words[1].to_be_bytes();
    let [c0, c1, c2, c3] = words[2].to_be_bytes();
    let [d0, d1, d2, d3] = words[3].to_be_bytes();
    let [e0, e1, e2, e3] = words[4].to_be_bytes();
    [
        a0, a1, a2, a3, b0, b1, b2, b3, c0, c1, c2, c3, d0, d1, d2, d3, e0, e1, e2, e3,
    ]
}

fn lane_digest(state: &[u32x4; 5], j: usize) -> [u8; 20]
    requires { j < 4 }
    ensures { result ≡ digest_bytes (five j state.now) 5 }
{
    let a = state[0].to_array();
    let b = state[1].to_array();
    let c = state[2].to_array();
    let d = state[3].to_array();
    let e = state[4].to_array();
    digest([a[j], b[j], c[j], d[j], e[j]])
}

/// The digests of four messages of `len` bytes, which are whole blocks, from the hash values behind
/// these blocks.
pub fn finish(mut state: [u32x4; 5], len: usize) -> [[u8; 20]; 4]
    requires { len % 64 ≡ 0 }
    ensures { (m0 m1 m2 m3 : List ℕ) → ((j : ℕ) → j < 4 → IsBehind len (five j state) (pick j m0 m1 m2 m3))
        → result ≡ sha1 m0 ∷ sha1 m1 ∷ sha1 m2 ∷ sha1 m3 ∷ [] }
{
    let last = last_block(len);
    compress::compress(&mut state, &last, &last, &last, &last);
    [
        lane_digest(&state, 0),
        lane_digest(&state, 1),
        lane_digest(&state, 2),
        lane_digest(&state, 3),
    ]
}

/// The SHA-1 of each of four messages of one length, which is a number of whole blocks of 64 bytes.
pub fn digests(m0: &[u8], m1: &[u8], m2: &[u8], m3: &[u8]) -> [[u8; 20]; 4]
    requires whole { length m0.now % 64 ≡ 0 }
    requires second { length m1.now ≡ length m0.now }
    requires third { length m2.now ≡ length m0.now }
    requires fourth { length m3.now ≡ length m0.now }
    ensures { result ≡ sha1 m0.now ∷ sha1 m1.now ∷ sha1 m2.now ∷ sha1 m3.now ∷ [] }
{
    let state = take_blocks(m0, m1, m2, m3);
    finish(state, m0.len())
}
