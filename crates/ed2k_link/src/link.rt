//! What a link says.
ghost use Rattle.std.specs.Prelude.{IsTrue};
ghost use Rattle.part_sizes.specs.Part.{IsSize};
ghost use Rattle.ed2k_link.specs.Name.{is_name};

use ed2k_outside::Bytes;
use part_sizes::Hashes;

/// What a link says of a file.
#[derive(Debug, Drop)]
pub struct FileLink {
    /// The name: UTF-8 of 1 to `NAME_LIMIT` bytes.
    pub name: Bytes,
    /// The number of bytes, from 1 to `SIZE_LIMIT`.
    pub size: u64,
    /// The file's ed2k hash.
    pub hash: [u8; 16],
    /// The hashes of the parts, in their order; none where the link has no such list. Their number is
    /// not judged.
    pub parts: Hashes,
    /// The root of the file's tree of SHA-1 hashes, where the link has it.
    pub root: Option<[u8; 20]>,
    ghost is_named: { IsTrue (is_name name) },
    ghost is_sized: { IsSize size },
}
