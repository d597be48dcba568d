//! The fields that tags and messages are made of, each read off the front of the bytes that are left.
//!
//! A reader answers the field's value and the bytes after it, and [`Short`] exactly where the bytes end
//! within the field. Numbers have their lowest byte first. Nothing is copied but arrays.
//!
//! A writer that is refused memory leaves what stood there at the front. A number is then not written at all,
//! and a text or a blob may be in part, behind it.
ghost use Rattle.std.specs.Prelude.{◌≡◌, ◌++◌, IfOk, OnOk, OnErr};
ghost use Rattle.std.specs.Io.{StartsWith};
ghost use Rattle.byteorder.specs.Endian.{little_bytes};
ghost use Rattle.ed2k_tags.specs.Fields.{Finds, number_at, bytes_at, counted_at, counted};

use byteorder::{ByteOrder, LittleEndian};
use ed2k_outside::Bytes;
use std::alloc::{AllocError, Global};

/// The bytes end within a field.
#[derive(Clone, Copy, Debug, PartialEq, Eq)]
pub struct Short;

/// A number of one byte.
pub fn read_u8(bytes: &[u8]) -> Result<(u8, &[u8]), Short>
    ensures { Finds (λ x. (x.0, x.1.now)) result (number_at 1 bytes.now) }
{
    match bytes {
        [] => Err(Short),
        [first, rest @ ..] => Ok((*first, rest)),
    }
}

/// A number of two bytes.
pub fn read_u16(bytes: &[u8]) -> Result<(u16, &[u8]), Short>
    ensures { Finds (λ x. (x.0, x.1.now)) result (number_at 2 bytes.now) }
{
    if bytes.len() < 2 {
        return Err(Short);
    }
    Ok((LittleEndian::read_u16(bytes), &bytes[2..]))
}

/// A number of four bytes.
pub fn read_u32(bytes: &[u8]) -> Result<(u32, &[u8]), Short>
    ensures { Finds (λ x. (x.0, x.1.now)) result (number_at 4 bytes.now) }
{
    if bytes.len() < 4 {
        return Err(Short);
    }
    Ok((LittleEndian::read_u32(bytes), &bytes[4..]))
}

/// A number of eight bytes.
pub fn read_u64(bytes: &[u8]) -> Result<(u64, &[u8]), Short>
    ensures { Finds (λ x. (x.0, x.1.now)) result (number_at 8 bytes.now) }
{
    if bytes.len() < 8 {
        return Err(Short);
    }
    Ok((LittleEndian::read_u64(bytes), &bytes[8..]))
}

/// As many bytes as are asked for.
pub fn read_bytes(len: usize, bytes: &[u8]) -> Result<(&[u8], &[u8]), Short>
    ensures { Finds (λ x. (x.0.now, x.1.now)) result (bytes_at len bytes.now) }
{
    if bytes.len() < len {
        return Err(Short);
    }
    Ok(bytes.split_at(len))
}

/// As many bytes as the array has.
pub fn read_array<const N: usize>(bytes: &[u8]) -> Result<([u8; N], &[u8]), Short>
    ensures { Finds (λ x. (x.0, x.1.now)) result (bytes_at N bytes.now) }
{
    let (front, rest) = read_bytes(N, bytes)?;
    let mut array = [0; N];
    array.copy_from_slice(front);
    Ok((array, rest))
}

/// A length of two bytes, and as many bytes.
pub fn read_text(bytes: &[u8]) -> Result<(&[u8], &[u8]), Short>
    ensures { Finds (λ x. (x.0.now, x.1.now)) result (counted_at 2 bytes.now) }
{
    let (len, rest) = read_u16(bytes)?;
    read_bytes(len as usize, rest)
}

/// A length of four bytes, and as many bytes.
pub fn read_blob(bytes: &[u8]) -> Result<(&[u8], &[u8]), Short>
    ensures { Finds (λ x. (x.0.now, x.1.now)) result (counted_at 4 bytes.now) }
{
    let (len, rest) = read_u32(bytes)?;
    read_bytes(len as usize, rest)
}

/// Bytes that were found, to be kept.
pub fn copied(alloc: Global, bytes: &[u8]) -> Result<Bytes, AllocError>
    ensures { IfOk result (λ copy. copy ≡ bytes.now) }
{
    Ok(Bytes::new(Vec::from_slice(alloc, bytes)?))
}

/// Writes a number of two bytes at the end.
pub fn append_u16(out: &mut Vec<u8>, number: u16) -> Result<(), AllocError>
    ensures written { OnOk result (out.new.items ≡ out.old.items ++ little_bytes 2 number) }
    ensures refused { OnErr result (out.new.items ≡ out.old.items) }
{
    let mut field = [0; 2];
    LittleEndian::write_u16(&mut field, number);
    out.extend_from_slice(&field)
}

/// Writes a number of four bytes at the end.
pub fn append_u32(out: &mut Vec<u8>, number: u32) -> Result<(), AllocError>
    ensures written { OnOk result (out.new.items ≡ out.old.items ++ little_bytes 4 number) }
    ensures refused { OnErr result (out.new.items ≡ out.old.items) }
{
    let mut field = [0; 4];
    LittleEndian::write_u32(&mut field, number);
    out.extend_from_slice(&field)
}

/// Writes a number of eight bytes at the end.
pub fn append_u64(out: &mut Vec<u8>, number: u64) -> Result<(), AllocError>
    ensures written { OnOk result (out.new.items ≡ out.old.items ++ little_bytes 8 number) }
    ensures refused { OnErr result (out.new.items ≡ out.old.items) }
{
    let mut field = [0; 8];
    LittleEndian::write_u64(&mut field, number);
    out.extend_from_slice(&field)
}

/// Writes the low two bytes of a number at the end.
pub fn append_low16(out: &mut Vec<u8>, number: u64) -> Result<(), AllocError>
    ensures written { OnOk result (out.new.items ≡ out.old.items ++ little_bytes 2 number) }
    ensures refused { OnErr result (out.new.items ≡ out.old.items) }
{
    append_u16(out, (number % 0x1_0000) as u16)
}

/// Writes the low four bytes of a number at the end.
pub fn append_low32(out: &mut Vec<u8>, number: u64) -> Result<(), AllocError>
    ensures written { OnOk result (out.new.items ≡ out.old.items ++ little_bytes 4 number) }
    ensures refused { OnErr result (out.new.items ≡ out.old.items) }
{
    append_u32(out, (number % 0x1_0000_0000) as u32)
}

/// Writes the low two bytes of a text's length, and the text, at the end. So it can be read where the
/// text has at most 65,535 bytes.
pub fn append_text(out: &mut Vec<u8>, text: &[u8]) -> Result<(), AllocError>
    ensures written { OnOk result (out.new.items ≡ out.old.items ++ counted 2 text.now) }
    ensures refused { OnErr result (StartsWith out.new.items out.old.items) }
{
    append_low16(out, text.len() as u64)?;
    out.extend_from_slice(text)
}

/// Writes the low four bytes of a blob's length, and the blob, at the end.
pub fn append_blob(out: &mut Vec<u8>, blob: &[u8]) -> Result<(), AllocError>
    ensures written { OnOk result (out.new.items ≡ out.old.items ++ counted 4 blob.now) }
    ensures refused { OnErr result (StartsWith out.new.items out.old.items) }
{
    append_low32(out, blob.len() as u64)?;
    out.extend_from_slice(blob)
}
