//! The parts of a file.
ghost use Rattle.std.specs.Prelude.{◌≡◌, ℕ, ◌<◌, IsTrue};
ghost use Rattle.part_sizes.specs.Part.{IsSize, data_parts, hash_count, part_count, part_range, part_of, file_range};
ghost use Rattle.part_sizes.specs.Span.{has};
ghost use Rattle.part_sizes.specs.Tiles.{Tiles};

use crate::span::Span;

/// The greatest size of a file, in bytes.
pub const SIZE_LIMIT: u64 = 4_290_048_000;

/// The bytes of a whole part.
pub const PART: u64 = 9_728_000;

/// The number of parts that hold bytes. They follow one another and make up the file.
pub fn data_parts(size: u64) -> u16
    requires { IsSize size }
    ensures value { result ≡ data_parts size }
    ensures parts { Tiles (file_range size) (data_parts size) (part_range size) }
{
    size.div_ceil(PART) as u16
}

/// The number of hashes in the hash set of a file: none below one part. A file of whole parts has one more
/// than it has parts; the last is the hash of no bytes.
pub fn hash_count(size: u64) -> u16
    requires { IsSize size }
    ensures { result ≡ hash_count size }
{
    if size < PART { 0 } else { part_count(size) }
}

/// The number of parts that the status of a file counts: one more than its whole parts.
pub fn part_count(size: u64) -> u16
    requires { IsSize size }
    ensures { result ≡ part_count size }
{
    (size / PART + 1) as u16
}

/// The positions of a part. All parts but the last are whole.
pub fn part_range(size: u64, part: u16) -> Span
    requires size { IsSize size }
    requires exists { part < data_parts size }
    ensures { result ≡ part_range size part }
{
    let start = u64::from(part) * PART;
    Span {
        s: start,
        e: size.min(start + PART),
    }
}

/// The one part that has a position.
pub fn part_of(size: u64, position: u64) -> u16
    requires size { IsSize size }
    requires within { position < size }
    ensures value { result ≡ part_of position }
    ensures exists { result < data_parts size }
    ensures here { IsTrue (has (part_range size result) position) }
    ensures alone { (k : ℕ) → IsTrue (has (part_range size k) position) → k ≡ result }
{
    (position / PART) as u16
}
