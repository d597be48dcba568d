//! A link printed in its canonical form.
ghost use Rattle.std.specs.Prelude.{◌≡◌, ◌++◌, ◌<◌, map, All, OnOk, IfOk, Some};
ghost use Rattle.std.specs.Fmt.{decimal};
ghost use Rattle.std.specs.List.{join_with_byte};
ghost use Rattle.hex.specs.Hex.{encode_upper};
ghost use Rattle.ed2k_link.specs.Fields.{hash_of};
ghost use Rattle.ed2k_link.specs.Grammar.{head, Link};
ghost use Rattle.ed2k_link.specs.Name.{escaped};
ghost use Rattle.ed2k_link.specs.Printed.{parts_field, root_field, printed, IsWritten, IsReadBack};
ghost use Rattle.ed2k_link.specs.Same.{IsSame};
ghost use Rattle.ed2k_link.specs.declared.link.FileLink.{FileLink};

use crate::base32::base32_encode;
use crate::link::FileLink;
use crate::name::push_name;
use ed2k_outside::{Bytes, NoMemory};
use itoa::Buffer;
use std::alloc::{AllocError, Global};

/// The head and the name.
fn print_name(alloc: Global, name: &[u8]) -> Result<Vec<u8>, AllocError>
    ensures written { IfOk result (λ out. out.items ≡ head ++ escaped name.now) }
    ensures bytes { OnOk result (All (λ byte. byte < 256) name.now) }
{
    let mut text = String::new(alloc);
    text.push_str("ed2k://|file|")?;
    push_name(&mut text, name)?;
    Ok(text.into_bytes())
}

fn push_size(out: &mut Vec<u8>, size: u64) -> Result<(), AllocError>
    ensures { OnOk result (out.new.items ≡ out.old.items ++ decimal size) }
{
    let mut buffer = Buffer::new();
    out.extend_from_slice(buffer.format(size).as_bytes())
}

fn push_hash(alloc: Global, out: &mut Vec<u8>, hash: &[u8; 16]) -> Result<(), AllocError>
    ensures written { OnOk result (out.new.items ≡ out.old.items ++ encode_upper hash.now) }
    ensures read_back { OnOk result (hash_of (encode_upper hash.now) ≡ Some hash.now) }
{
    let digits = hex::encode_upper(alloc, hash.as_slice())?;
    out.extend_from_slice(digits.as_bytes())?;
    Ok(())
}

/// Adds hashes with a colon between each two.
fn push_hashes(alloc: Global, out: &mut Vec<u8>, hashes: &[[u8; 16]]) -> Result<(), AllocError>
    ensures written { OnOk result (out.new.items ≡ out.old.items ++ join_with_byte 58 (map encode_upper hashes.now)) }
    ensures read_back { OnOk result (map hash_of (map encode_upper hashes.now) ≡ map Some hashes.now) }
{
    for (place, hash) in hashes.iter().enumerate() {
        if place > 0 {
            out.push(b':')?;
        }
        push_hash(alloc, out, hash)?;
    }
    Ok(())
}

fn push_parts(alloc: Global, out: &mut Vec<u8>, parts: &[[u8; 16]]) -> Result<(), AllocError>
    ensures written { OnOk result (out.new.items ≡ out.old.items ++ parts_field parts.now) }
    ensures read_back { OnOk result (map hash_of (map encode_upper parts.now) ≡ map Some parts.now) }
{
    if parts.is_empty() {
        return Ok(());
    }
    out.extend_from_slice(b"p=")?;
    push_hashes(alloc, out, parts)?;
    out.extend_from_slice(b"|")?;
    Ok(())
}

fn push_root(out: &mut Vec<u8>, root: &Option<[u8; 20]>) -> Result<(), AllocError>
    ensures written { OnOk result (out.new.items ≡ out.old.items ++ root_field root.now) }
    ensures read_back { OnOk result (IsWritten root.now) }
{
    match root {
        None => Ok(()),
        Some(root) => {
            out.extend_from_slice(b"h=")?;
            out.extend_from_slice(&base32_encode(root))?;
            out.extend_from_slice(b"|")?;
            Ok(())
        }
    }
}

fn print_whole(alloc: Global, link: &FileLink) -> Result<Vec<u8>, AllocError>
    ensures written { IfOk result (λ out. out.items ≡ printed link.now) }
    ensures read_back { OnOk result (IsReadBack link.now) }
{
    let mut out = print_name(alloc, link.name.as_slice())?;
    out.extend_from_slice(b"|")?;
    push_size(&mut out, link.size)?;
    out.extend_from_slice(b"|")?;
    push_hash(alloc, &mut out, &link.hash)?;
    out.extend_from_slice(b"|")?;
    push_parts(alloc, &mut out, link.parts.as_slice())?;
    push_root(&mut out, &link.root)?;
    out.extend_from_slice(b"/")?;
    Ok(out)
}

/// The canonical form of a link: the name with each byte escaped that is not an ASCII letter, digit,
/// `-`, `.`, `_` or `~`, the size without leading zeros, hashes in upper case, the part hashes where
/// there are any, and then the root where there is one.
pub fn print_link(alloc: Global, link: &FileLink) -> Result<Bytes, NoMemory>
    ensures form { IfOk result (λ text. text ≡ printed link.now) }
    ensures read_back { IfOk result (λ text. Link text link.now) }

    // It is read as no other link, and printed again as it stands.
    ensures alone { IfOk result (λ text. (other : FileLink) → Link text other → IsSame other link.now) }
    ensures fixed { IfOk result (λ text. (other : FileLink) → Link text other → printed other ≡ text) }
{
    Ok(Bytes::new(print_whole(alloc, link)?))
}
