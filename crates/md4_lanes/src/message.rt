//! The whole blocks of four messages.
ghost use Rattle.std.specs.Prelude.{◌≡◌, ℕ, ◌+◌, ◌*◌, ◌%◌, ◌<◌, ◌++◌, length};
ghost use Rattle.md4_hash.specs.Md4.{after};
ghost use Rattle.sha1_lanes.specs.Lanes.{pick};
ghost use Rattle.md4_lanes.specs.Lanes.{four};

use crate::block;
use md4_hash::Md4;
use std::simd::u32x4;

// The registers of four messages, a vector for each of A, B, C and D.
fn gather(r0: [u32; 4], r1: [u32; 4], r2: [u32; 4], r3: [u32; 4]) -> [u32x4; 4]
    ensures { (j : ℕ) → j < 4 → four j result ≡ pick j r0 r1 r2 r3 }
{
    [
        u32x4::from_array([r0[0], r1[0], r2[0], r3[0]]),
        u32x4::from_array([r0[1], r1[1], r2[1], r3[1]]),
        u32x4::from_array([r0[2], r1[2], r2[2], r3[2]]),
        u32x4::from_array([r0[3], r1[3], r2[3], r3[3]]),
    ]
}

// The registers of message `j`.
fn lane(registers: &[u32x4; 4], j: usize) -> [u32; 4]
    requires { j < 4 }
    ensures { result ≡ four j registers.now }
{
    let a = registers[0].to_array();
    let b = registers[1].to_array();
    let c = registers[2].to_array();
    let d = registers[3].to_array();
    [a[j], b[j], c[j], d[j]]
}

// Takes in the whole blocks of messages of one length.
#[inline(never)]
fn take_blocks(registers: &mut [u32x4; 4], m0: &[u8], m1: &[u8], m2: &[u8], m3: &[u8])
    requires second { length m1.now ≡ length m0.now }
    requires third { length m2.now ≡ length m0.now }
    requires fourth { length m3.now ≡ length m0.now }
    ensures { (j : ℕ) → j < 4
        → four j registers.new ≡ after (four j registers.old) (pick j m0.now m1.now m2.now m3.now) }
{
    'turns: for i in 0..m0.len() / 64 {
        let at = i * 64;
        block::take_block(
            registers,
            &m0[at..at + 64],
            &m1[at..at + 64],
            &m2[at..at + 64],
            &m3[at..at + 64],
        );
    }
}

/// Puts a piece behind each of four messages, side by side. The pieces are of one length, and each message
/// and each piece is a number of whole blocks of 64 bytes.
pub fn update_four(
    h0: &mut Md4,
    h1: &mut Md4,
    h2: &mut Md4,
    h3: &mut Md4,
    m0: &[u8],
    m1: &[u8],
    m2: &[u8],
    m3: &[u8],
)
    requires first_begins { length h0.old % 64 ≡ 0 }
    requires second_begins { length h1.old % 64 ≡ 0 }
    requires third_begins { length h2.old % 64 ≡ 0 }
    requires fourth_begins { length h3.old % 64 ≡ 0 }
    requires whole { length m0.now % 64 ≡ 0 }
    requires second { length m1.now ≡ length m0.now }
    requires third { length m2.now ≡ length m0.now }
    requires fourth { length m3.now ≡ length m0.now }
    ensures first { h0.new ≡ h0.old ++ m0.now }
    ensures second { h1.new ≡ h1.old ++ m1.now }
    ensures third { h2.new ≡ h2.old ++ m2.now }
    ensures fourth { h3.new ≡ h3.old ++ m3.now }
{
    let mut lanes = gather(
        h0.registers(),
        h1.registers(),
        h2.registers(),
        h3.registers(),
    );
    take_blocks(&mut lanes, m0, m1, m2, m3);
    h0.append_blocks(lane(&lanes, 0), m0);
    h1.append_blocks(lane(&lanes, 1), m1);
    h2.append_blocks(lane(&lanes, 2), m2);
    h3.append_blocks(lane(&lanes, 3), m3);
}
