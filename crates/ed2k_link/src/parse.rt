//! A link read from a text.
ghost use Rattle.std.specs.Prelude.{◌≡◌, ◌⊎◌, Some, MatchResult};
ghost use Rattle.ed2k_link.specs.Fields.{WriteFields, field_fault};
ghost use Rattle.ed2k_link.specs.Grammar.{Link, Write, fault_of, item_fault};
ghost use Rattle.ed2k_link.specs.Items.{texts};

use crate::fault::LinkFault;
use crate::fields::{read_hash, read_parts, read_root};
use crate::items::{behind, fields, item, split_items};
use crate::link::FileLink;
use crate::name::read_name;
use crate::prefix::strip_prefix;
use crate::size::read_size;
use ed2k_outside::Bytes;
use part_sizes::Hashes;
use std::alloc::Global;

/// What each link to a file begins with.
const HEAD: &[u8] = b"ed2k://|file|";

/// Reads what stands behind the hash.
fn parse_fields(alloc: Global, items: &[&[u8]]) -> Result<(Hashes, Option<[u8; 20]>), LinkFault>
    ensures { MatchResult result
        (λ pair. WriteFields (texts items.now) pair.0 pair.1)
        (λ fault. (fault ≡ LinkFault.NoMemory) ⊎ (field_fault (texts items.now) ≡ Some fault)) }
{
    let (fields, ended) = fields(items);
    let parts = read_parts(alloc, fields)?;
    let root = read_root(fields)?;
    if !ended {
        return Err(LinkFault::BadEnd);
    }
    Ok((parts, root))
}

/// Reads the items behind the head.
fn parse_items(alloc: Global, items: &[&[u8]]) -> Result<FileLink, LinkFault>
    ensures { MatchResult result
        (λ link. Write (texts items.now) link)
        (λ fault. (fault ≡ LinkFault.NoMemory) ⊎ (item_fault (texts items.now) ≡ Some fault)) }
{
    let name = read_name(alloc, item(items, 0))?;
    let Some(size) = read_size(item(items, 1)) else {
        return Err(LinkFault::BadSize);
    };
    let Some(hash) = read_hash(item(items, 2)) else {
        return Err(LinkFault::BadHash);
    };
    let (parts, root) = parse_fields(alloc, behind(items))?;
    Ok(FileLink {
        name: Bytes::new(name),
        size,
        hash,
        parts,
        root,
    })
}

/// Reads a link to a file. The fault is the first that the text has; `NoMemory` may come in its place.
///
/// The head is followed by items with a bar between each two: the name, the size and the hash, and then
/// fields up to an item that is a lone `/`, or up to the last where there is none. Other fields than `p=`
/// and `h=` are ignored, and so is what follows the `/`.
pub fn parse_link(alloc: Global, text: &str) -> Result<FileLink, LinkFault>
    ensures { MatchResult result (Link text.now) (λ fault. (fault ≡ LinkFault.NoMemory) ⊎ (fault_of text.now ≡ Some fault)) }
{
    let Some(body) = strip_prefix(text.as_bytes(), HEAD) else {
        return Err(LinkFault::NotFile);
    };
    let items = split_items(alloc, body)?;
    parse_items(alloc, &items)
}
