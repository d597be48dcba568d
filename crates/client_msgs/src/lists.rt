//! The lists that messages carry: hashes, bits and spans.
ghost use Rattle.std.specs.Prelude.{◌≡◌, ◌≤◌, ◌<◌, ◌*◌, ◌/◌, ◌+◌, ◌%◌, ◌^◌, ◌++◌, length, take, drop, IfOk, OnOk, slice_index};
ghost use Rattle.ed2k_tags.specs.Reading.{Gives};
ghost use Rattle.client_msgs.specs.Lists.{bit_at, bits_of, hashes_of, used};

use part_sizes::{Bits, Hashes, Span};
use std::alloc::{AllocError, Global};

/// The number of bytes of a hash.
pub(crate) const HASH: usize = 16;

/// So many hashes, one after another.
pub(crate) fn take_hashes(alloc: Global, count: usize, bytes: &[u8]) -> Result<Hashes, AllocError>
    requires { HASH * count ≤ length bytes.now }
    ensures { IfOk result (λ hashes. hashes ≡ hashes_of count bytes.now) }
{
    let mut hashes = Vec::with_capacity(alloc, count)?;
    for i in 0..count {
        let mut hash = [0; HASH];
        hash.copy_from_slice(&bytes[HASH * i..HASH * i + HASH]);
        hashes.push(hash)?;
    }
    Ok(Hashes::new(hashes))
}

/// The bit of a bitmap at a place: of each byte the lowest first.
pub(crate) fn bit(bitmap: &[u8], place: usize) -> bool
    requires { place / 8 < length bitmap.now }
    ensures { result ≡ bit_at bitmap.now place }
{
    (bitmap[place / 8] >> (place % 8)) % 2 == 1
}

/// The first bits of a bitmap.
pub(crate) fn take_bits(alloc: Global, count: usize, bitmap: &[u8]) -> Result<Bits, AllocError>
    requires { count ≤ 8 * length bitmap.now }
    ensures { IfOk result (λ bits. bits ≡ bits_of count bitmap.now) }
{
    let mut bits = Vec::with_capacity(alloc, count)?;
    for i in 0..count {
        bits.push(bit(bitmap, i))?;
    }
    Ok(Bits::new(bits))
}

/// Adds the span from a start to an end, unless both are 0.
pub(crate) fn push_used(spans: &mut Vec<Span>, start: u32, end: u32) -> Result<(), AllocError>
    ensures { OnOk result (spans.new.items ≡ spans.old.items ++ used start end) }
{
    if start != 0 || end != 0 {
        spans.push(Span {
            s: u64::from(start),
            e: u64::from(end),
        })?;
    }
    Ok(())
}
