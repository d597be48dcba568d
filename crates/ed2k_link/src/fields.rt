//! The fields of a link behind its hash: part hashes `p=`, the root hash `h=`, and others, which are
//! ignored.
ghost use Rattle.std.specs.Prelude.{◌≡◌, ◌⊎◌, ℕ, ◌++◌, List, map, true, false, codes, MatchResult, IfOk, Some};
ghost use Rattle.std.specs.List.{list_all};
ghost use Rattle.std.specs.Option.{option_map, option_to_list};
ghost use Rattle.ed2k_link.specs.Items.{split_at_colons, values, texts};
ghost use Rattle.ed2k_link.specs.Fields.{IsFound, hash_of, is_hash, AreParts, are_parts, IsRoot, is_root};

use crate::base32::base32_decode;
use crate::fault::LinkFault;
use crate::prefix::strip_prefix;
use hex::FromHex;
use part_sizes::Hashes;
use std::alloc::{AllocError, Global};

/// How often a field stands in a link, and what it says.
#[derive(Clone, Copy)]
pub(crate) enum Found<'a> {
    Never,
    Once(&'a [u8]),
    Again,
}

/// Reads 32 hexadecimal digits of either case.
pub(crate) fn read_hash(text: &[u8]) -> Option<[u8; 16]>
    ensures { result ≡ hash_of text.now }
{
    <[u8; 16] as FromHex>::from_hex(text).ok()
}

/// What is found with one value more.
fn also<'a>(found: Found<'a>, value: Option<&'a [u8]>) -> Found<'a>
    ensures { (before : List (List ℕ)) → IsFound before found.entry
        → IsFound (before ++ option_to_list (option_map (λ text. text.now) value.entry)) result }
{
    match value {
        None => found,
        Some(text) => match found {
            Found::Never => Found::Once(text),
            Found::Once(_) => Found::Again,
            Found::Again => Found::Again,
        },
    }
}

/// Finds what stands behind a key.
fn find<'a>(fields: &[&'a [u8]], key: &[u8]) -> Found<'a>
    ensures { IsFound (values key.now (texts fields.now)) result }
{
    let mut found = Found::Never;
    for field in fields {
        found = also(found, strip_prefix(field, key));
    }
    found
}

/// The pieces between the colons.
fn split_pieces(alloc: Global, text: &[u8]) -> Result<Vec<&[u8]>, AllocError>
    ensures { IfOk result (λ pieces. texts pieces.items ≡ split_at_colons text.now) }
{
    text.split(|byte| *byte == b':').collect(alloc)
}

/// Reads hashes with a colon between each two.
fn read_hashes(alloc: Global, text: &[u8]) -> Result<Vec<[u8; 16]>, LinkFault>
    ensures { MatchResult result
        (λ hashes. map hash_of (split_at_colons text.now) ≡ map Some hashes.items)
        (λ fault. (fault ≡ LinkFault.NoMemory) ⊎ ((fault ≡ LinkFault.BadParts) × (list_all is_hash (split_at_colons text.now) ≡ false))) }
{
    let pieces = split_pieces(alloc, text)?;
    let mut hashes = Vec::new(alloc);
    for piece in &pieces {
        match read_hash(piece) {
            Some(hash) => hashes.push(hash)?,
            None => return Err(LinkFault::BadParts),
        }
    }
    Ok(hashes)
}

/// Reads the part hashes, of which there are none without a field `p=`.
pub(crate) fn read_parts(alloc: Global, fields: &[&[u8]]) -> Result<Hashes, LinkFault>
    ensures { let found = values (codes "p=") (texts fields.now) in MatchResult result
        (λ parts. AreParts found parts × (are_parts found ≡ true))
        (λ fault. (fault ≡ LinkFault.NoMemory) ⊎ ((fault ≡ LinkFault.BadParts) × (are_parts found ≡ false))) }
{
    match find(fields, b"p=") {
        Found::Never => Ok(Hashes::new(Vec::new(alloc))),
        Found::Once(text) => Ok(Hashes::new(read_hashes(alloc, text)?)),
        Found::Again => Err(LinkFault::BadParts),
    }
}

/// Reads the root hash, which is absent without a field `h=`.
pub(crate) fn read_root(fields: &[&[u8]]) -> Result<Option<[u8; 20]>, LinkFault>
    ensures { let found = values (codes "h=") (texts fields.now) in MatchResult result
        (λ root. IsRoot found root × (is_root found ≡ true))
        (λ fault. (fault ≡ LinkFault.BadRoot) × (is_root found ≡ false)) }
{
    match find(fields, b"h=") {
        Found::Never => Ok(None),
        Found::Once(text) => match base32_decode(text) {
            Some(root) => Ok(Some(root)),
            None => Err(LinkFault::BadRoot),
        },
        Found::Again => Err(LinkFault::BadRoot),
    }
}
