//! Base 32 of root hashes, without padding (RFC 4648, section 6).
ghost use Rattle.std.specs.Prelude.{◌≡◌, ℕ, ◌+◌, ◌-◌, ◌*◌, ◌^◌, ◌<◌, ◌≤◌, map, take, true, false, length, slice_index, MatchOption};
ghost use Rattle.std.specs.Int.Digits.{number_from_digits};
ghost use Rattle.std.specs.List.{list_all};
ghost use Rattle.ed2k_link.specs.Base32.{base32, letter_value, is_letter, is_base32, Spells};

const ALPHABET: [u8; 32] = *b"ABCDEFGHIJKLMNOPQRSTUVWXYZ234567";

/// Bytes that are read some bits at a time.
#[derive(Clone, Copy)]
struct Pending {
    /// How many bytes were read.
    next: usize,
    /// The bits of them that are not yet written, as a number.
    value: u16,
    /// How many these are.
    count: u32,
}

/// Cuts a number into what stands above and below its lowest bits.
fn split_bits(value: u16, low_bits: u32) -> (u16, u16)
    requires { low_bits < 16 }
    ensures whole { value ≡ result.0 * 2 ^ low_bits + result.1 }
    ensures low { result.1 < 2 ^ low_bits }
{
    (value >> low_bits, value % (1 << low_bits))
}

/// Reads a byte where fewer than five bits are left.
fn refill(root: &[u8; 20], old: Pending) -> Pending
    requires count { old.count < 8 }
    requires low { old.value < 2 ^ old.count }
    requires more { old.count < 5 → old.next < 20 }
    ensures bits { 8 * result.next + old.count ≡ 8 * old.next + result.count }
    ensures enough { 5 ≤ result.count }
    ensures few { result.count < 13 }
    ensures low { result.value < 2 ^ result.count }
    ensures same { (n : ℕ) → n * 2 ^ old.count + old.value ≡ number_from_digits 256 (take old.next root.now)
        → n * 2 ^ result.count + result.value ≡ number_from_digits 256 (take result.next root.now) }
{
    if old.count >= 5 {
        return old;
    }
    Pending {
        next: old.next + 1,
        value: old.value * 256 + u16::from(root[old.next]),
        count: old.count + 8,
    }
}

/// The 32 letters that spell a root hash, in upper case.
pub fn base32_encode(root: &[u8; 20]) -> [u8; 32]
    ensures value { result ≡ base32 root.now }
    ensures spelled { Spells result root.now }
{
    let mut text = [0u8; 32];
    let mut left = Pending {
        next: 0,
        value: 0,
        count: 0,
    };
    for i in 0..32 {
        let full = refill(root, left);
        let (number, rest) = split_bits(full.value, full.count - 5);
        text[i] = ALPHABET[number as usize];
        left = Pending {
            next: full.next,
            value: rest,
            count: full.count - 5,
        };
    }
    text
}

/// The number of a letter of either case, and 32 of any other byte.
fn letter_value(byte: u8) -> u8
    ensures { result ≡ letter_value byte }
{
    match byte {
        b'A'..=b'Z' => byte - b'A',
        b'a'..=b'z' => byte - b'a',
        b'2'..=b'7' => byte - b'2' + 26,
        _ => 32,
    }
}

fn is_letters(text: &[u8]) -> bool
    ensures { result ≡ list_all is_letter text.now }
{
    text.iter().all(|byte| letter_value(*byte) < 32)
}

/// The bytes that 32 letters spell.
fn bytes_of(text: &[u8]) -> [u8; 20]
    requires letters { list_all is_letter text.now ≡ true }
    requires count { length text.now ≡ 32 }
    ensures number { number_from_digits 32 (map letter_value text.now) ≡ number_from_digits 256 result }
    ensures count { length result ≡ 20 }
    ensures bytes { (i : ℕ) → slice_index result i < 256 }
{
    let mut root = [0u8; 20];
    let mut next = 0;
    let mut pending = 0u16;
    let mut count = 0;
    for letter in text {
        let value = pending * 32 + u16::from(letter_value(*letter));
        if count >= 3 {
            let (byte, rest) = split_bits(value, count - 3);
            root[next] = byte as u8;
            next += 1;
            pending = rest;
            count -= 3;
        } else {
            pending = value;
            count += 5;
        }
    }
    root
}

/// The root hash that a text spells in either case. `None` exactly where the text is not 32 letters of
/// the alphabet.
pub fn base32_decode(text: &[u8]) -> Option<[u8; 20]>
    ensures { MatchOption result (is_base32 text.now ≡ false) (λ root. Spells text.now root) }
{
    if text.len() == 32 && is_letters(text) {
        Some(bytes_of(text))
    } else {
        None
    }
}
