//! One block of 64 bytes: three rounds of sixteen steps (RFC 1320, section 3.4).

ghost use Rattle.std.specs.Prelude.{◌≡◌, ◌+◌, ◌*◌, ◌<◌, length};
ghost use Rattle.md4_hash.specs.Md4.{word, step, choice, majority, parity, round_1, round_2, round_3, sums, after_block};

/// What rounds 2 and 3 add in each step: the square roots of 2 and 3, as 32 bits of a fraction.
///
/// They are kept in memory, and passed by reference: the compiler would add a constant that it sees
/// last in a step's sum, where the next step waits for it.
#[derive(Drop)]
pub struct RoundConstants {
    second: u32,
    third: u32,
    ghost exact_second: { second ≡ 0x5A827999 },
    ghost exact_third: { third ≡ 0x6ED9EBA1 },
}

impl RoundConstants {
    /// The two constants of RFC 1320, section 3.4, which the type's own facts fix.
    pub fn new() -> Self {
        RoundConstants {
            second: 0x5A82_7999,
            third: 0x6ED9_EBA1,
        }
    }
}

// Word `k` of the block, low-order byte first.
#[inline(always)]
fn word(block: &[u8], k: usize) -> u32
    requires { 4 * k + 3 < length block.now }
    ensures { result ≡ word block.now k }
{
    u32::from_le_bytes([
        block[4 * k],
        block[4 * k + 1],
        block[4 * k + 2],
        block[4 * k + 3],
    ])
}

// A step of round 1 with the word `x` and the shift `s`. The registers are then turned by one place,
// as the next step names them.
#[inline(always)]
fn choose(registers: &mut [u32; 4], x: u32, s: u32)
    ensures { registers.new ≡ step choice 0 x s registers.old }
{
    let [a, b, c, d] = *registers;
    let sum = a.wrapping_add(x).wrapping_add((b & c) | (!b & d));
    *registers = [d, sum.rotate_left(s), b, c];
}

// A step of round 2. The majority is a sum: only its last term waits for `b`, which the step before
// has made.
#[inline(always)]
fn take_majority(registers: &mut [u32; 4], x: u32, t: u32, s: u32)
    ensures { registers.new ≡ step majority t x s registers.old }
{
    let [a, b, c, d] = *registers;
    let sum = a.wrapping_add(x).wrapping_add(t).wrapping_add(c & d);
    *registers = [d, sum.wrapping_add(b & (c ^ d)).rotate_left(s), b, c];
}

// A step of round 3.
#[inline(always)]
fn take_parity(registers: &mut [u32; 4], x: u32, t: u32, s: u32)
    ensures { registers.new ≡ step parity t x s registers.old }
{
    let [a, b, c, d] = *registers;
    let sum = a.wrapping_add(x).wrapping_add(t);
    *registers = [d, sum.wrapping_add(b ^ (c ^ d)).rotate_left(s), b, c];
}

/// Round 1 over `block`.
#[inline(always)]
pub fn round_1(registers: &mut [u32; 4], block: &[u8])
    requires { length block.now ≡ 64 }
    ensures { registers.new ≡ round_1 block.now registers.old }
{
    choose(registers, word(block, 0), 3);
    choose(registers, word(block, 1), 7);
    choose(registers, word(block, 2), 11);
    choose(registers, word(block, 3), 19);
    choose(registers, word(block, 4), 3);
    choose(registers, word(block, 5), 7);
    choose(registers, word(block, 6), 11);
    choose(registers, word(block, 7), 19);
    choose(registers, word(block, 8), 3);
    choose(registers, word(block, 9), 7);
    choose(registers, word(block, 10), 11);
    choose(registers, word(block, 11), 19);
    choose(registers, word(block, 12), 3);
    choose(registers, word(block, 13), 7);
    choose(registers, word(block, 14), 11);
    choose(registers, word(block, 15), 19);
}

/// Round 2 over `block`.
#[inline(always)]
pub fn round_2(registers: &mut [u32; 4], block: &[u8], constants: &RoundConstants)
    requires { length block.now ≡ 64 }
    ensures { registers.new ≡ round_2 block.now registers.old }
{
    take_majority(registers, word(block, 0), constants.second, 3);
    take_majority(registers, word(block, 4), constants.second, 5);
    take_majority(registers, word(block, 8), constants.second, 9);
    take_majority(registers, word(block, 12), constants.second, 13);
    take_majority(registers, word(block, 1), constants.second, 3);
    take_majority(registers, word(block, 5), constants.second, 5);
    take_majority(registers, word(block, 9), constants.second, 9);
    take_majority(registers, word(block, 13), constants.second, 13);
    take_majority(registers, word(block, 2), constants.second, 3);
    take_majority(registers, word(block, 6), constants.second, 5);
    take_majority(registers, word(block, 10), constants.second, 9);
    take_majority(registers, word(block, 14), constants.second, 13);
    take_majority(registers, word(block, 3), constants.second, 3);
    take_majority(registers, word(block, 7), constants.second, 5);
    take_majority(registers, word(block, 11), constants.second, 9);
    take_majority(registers, word(block, 15), constants.second, 13);
}

/// Round 3 over `block`.
#[inline(always)]
pub fn round_3(registers: &mut [u32; 4], block: &[u8], constants: &RoundConstants)
    requires { length block.now ≡ 64 }
    ensures { registers.new ≡ round_3 block.now registers.old }
{
    take_parity(registers, word(block, 0), constants.third, 3);
    take_parity(registers, word(block, 8), constants.third, 9);
    take_parity(registers, word(block, 4), constants.third, 11);
    take_parity(registers, word(block, 12), constants.third, 15);
    take_parity(registers, word(block, 2), constants.third, 3);
    take_parity(registers, word(block, 10), constants.third, 9);
    take_parity(registers, word(block, 6), constants.third, 11);
    take_parity(registers, word(block, 14), constants.third, 15);
    take_parity(registers, word(block, 1), constants.third, 3);
    take_parity(registers, word(block, 9), constants.third, 9);
    take_parity(registers, word(block, 5), constants.third, 11);
    take_parity(registers, word(block, 13), constants.third, 15);
    take_parity(registers, word(block, 3), constants.third, 3);
    take_parity(registers, word(block, 11), constants.third, 9);
    take_parity(registers, word(block, 7), constants.third, 11);
    take_parity(registers, word(block, 15), constants.third, 15);
}

/// Adds the registers after a block's rounds to those before them.
#[inline(always)]
pub fn add_turned(registers: &mut [u32; 4], turned: [u32; 4])
    ensures { registers.new ≡ sums registers.old turned }
{
    *registers = [
        registers[0].wrapping_add(turned[0]),
        registers[1].wrapping_add(turned[1]),
        registers[2].wrapping_add(turned[2]),
        registers[3].wrapping_add(turned[3]),
    ];
}

/// Runs the three rounds over `block`, and adds the registers before them to those after them.
#[inline(always)]
pub fn take_block(registers: &mut [u32; 4], block: &[u8], constants: &RoundConstants)
    requires { length block.now ≡ 64 }
    ensures { registers.new ≡ after_block registers.old block.now }
{
    let mut turned = *registers;
    round_1(&mut turned, block);
    round_2(&mut turned, block, constants);
    round_3(&mut turned, block, constants);
    add_turned(registers, turned);
}
