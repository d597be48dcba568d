//! Fields at the front of bytes. Numbers have their lowest byte first.
ghost use Rattle.std.specs.Prelude.{◌≡◌, ◌≤◌, ◌++◌, length, take, drop};
ghost use Rattle.byteorder.specs.Endian.{little_bytes};

use byteorder::{ByteOrder, LittleEndian};
use part_sizes::Hash;

/// A number of two bytes.
pub fn read_u16(bytes: &[u8]) -> u16
    requires { 2 ≤ length bytes.now }
    ensures { bytes.now ≡ little_bytes 2 result ++ drop 2 bytes.now }
{
    LittleEndian::read_u16(bytes)
}

/// A number of four bytes.
pub fn read_u32(bytes: &[u8]) -> u32
    requires { 4 ≤ length bytes.now }
    ensures { bytes.now ≡ little_bytes 4 result ++ drop 4 bytes.now }
{
    LittleEndian::read_u32(bytes)
}

/// A number of eight bytes.
pub fn read_u64(bytes: &[u8]) -> u64
    requires { 8 ≤ length bytes.now }
    ensures { bytes.now ≡ little_bytes 8 result ++ drop 8 bytes.now }
{
    LittleEndian::read_u64(bytes)
}

/// A hash.
pub fn read_hash(bytes: &[u8]) -> Hash
    requires { 16 ≤ length bytes.now }
    ensures { result ≡ take 16 bytes.now }
{
    let mut hash = [0; 16];
    hash.copy_from_slice(&bytes[..16]);
    hash
}
