//! The form of recovery data: a count of two bytes and so many pairs. A pair is an identifier of two
//! bytes and a hash of twenty. Numbers have their lowest byte first.
ghost use Rattle.std.specs.Prelude.{◌≡◌, ◌+◌, ◌*◌, ◌≤◌, ◌++◌, length, drop, Some, OnOk, IfOk};
ghost use Rattle.byteorder.specs.Endian.{little_bytes};
ghost use Rattle.aich_packet.specs.Layout.{count_of, pair_count, pair_at, pairs_from, pairs_of, spell_pair};

use byteorder::{ByteOrder, LittleEndian};
use std::alloc::{AllocError, Global};

/// The bytes of a count, and of an identifier.
const NUMBER_BYTES: usize = 2;
/// The bytes of a pair.
const PAIR_BYTES: usize = 22;

/// An identifier of a node, and the node's hash.
#[derive(Clone, Copy, Debug, PartialEq, Eq)]
pub struct Pair {
    pub ident: u32,
    pub hash: [u8; 20],
}

/// The bytes of recovery data with so many pairs, and a number behind them.
pub fn data_len(count: u32) -> usize
    ensures { result ≡ 4 + count * 22 }
{
    NUMBER_BYTES + count as usize * PAIR_BYTES + NUMBER_BYTES
}

/// The number of pairs; `None` where the bytes end within the count or a pair, or one byte follows the
/// pairs.
pub fn count_pairs(bytes: &[u8]) -> Option<u32>
    ensures { result ≡ pair_count bytes.now }
{
    if bytes.len() < NUMBER_BYTES {
        return None;
    }
    let count = LittleEndian::read_u16(bytes);
    let end = NUMBER_BYTES + usize::from(count) * PAIR_BYTES;
    if bytes.len() < end || bytes.len() == end + 1 {
        None
    } else {
        Some(u32::from(count))
    }
}

/// The pair at the front.
fn read_pair(bytes: &[u8]) -> Pair
    requires { 22 ≤ length bytes.now }
    ensures { result ≡ pair_at bytes.now }
{
    let mut hash = [0; 20];
    hash.copy_from_slice(&bytes[NUMBER_BYTES..PAIR_BYTES]);
    Pair {
        ident: u32::from(LittleEndian::read_u16(bytes)),
        hash,
    }
}

/// The pairs, of which there are so many.
pub fn read_pairs(alloc: Global, bytes: &[u8], count: u32) -> Result<Vec<Pair>, AllocError>
    requires { pair_count bytes.now ≡ Some count }
    ensures { IfOk result (λ pairs. pairs.items ≡ pairs_of bytes.now) }
{
    let mut pairs = Vec::with_capacity(alloc, count as usize)?;
    let mut rest = &bytes[NUMBER_BYTES..];
    for _ in 0..count {
        pairs.push(read_pair(rest))?;
        let (_, behind) = rest.split_at(PAIR_BYTES);
        rest = behind;
    }
    Ok(pairs)
}

/// Writes the low two bytes of a number at the end.
pub fn append_number(out: &mut Vec<u8>, number: u32) -> Result<(), AllocError>
    ensures { OnOk result (out.new.items ≡ out.old.items ++ little_bytes 2 number) }
{
    let mut field = [0; NUMBER_BYTES];
    LittleEndian::write_u16(&mut field, (number % 0x1_0000) as u16);
    out.extend_from_slice(&field)
}

/// Writes a pair at the end.
pub fn append_pair(out: &mut Vec<u8>, pair: Pair) -> Result<(), AllocError>
    ensures { OnOk result (out.new.items ≡ out.old.items ++ spell_pair pair) }
{
    append_number(out, pair.ident)?;
    out.extend_from_slice(&pair.hash)
}
