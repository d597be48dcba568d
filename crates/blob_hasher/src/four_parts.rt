//! Four whole parts, side by side.
ghost use Rattle.std.specs.Prelude.{◌≡◌, ◌≢◌, ℕ, ◌+◌, ◌*◌, ◌-◌, ◌%◌, ◌<◌, ◌≤◌, min, List, ◌++◌, length, Err, OnOk};
ghost use Rattle.std.specs.declared.option.Option.{Option};
ghost use Rattle.part_sizes.specs.declared.part.TheConstants.{PART, SIZE_LIMIT};
ghost use Rattle.part_sizes.specs.declared.block.TheConstants.{BLOCK};
ghost use Rattle.blob_hasher.specs.Hashes.{HasBlobCause};
ghost use Rattle.blob_hasher.specs.Parts.{IsFile, IsFour, IsNext, IsWhole, Takes, all_of};

use crate::fault::HashFault;
use crate::file::FileHasher;
use crate::part::{BLOCK_LEN, PART_LEN, PartHasher};
use crate::reading::fill;
use ed2k_outside::{Blob, NoMemory};
use part_sizes::PART;
use std::alloc::Global;

/// The hashers of four parts that follow one another.
#[derive(Drop)]
pub(crate) struct FourParts {
    first: PartHasher,
    second: PartHasher,
    third: PartHasher,
    fourth: PartHasher,
}

impl FourParts {
    /// Hashers of no bytes, of the parts from `start` on, of whatever blob.
    fn new(alloc: Global) -> Self
        ensures { (own : Option (List ℕ)) (start : ℕ) → IsFour own start 0 result }
    {
        FourParts {
            first: PartHasher::new(alloc),
            second: PartHasher::new(alloc),
            third: PartHasher::new(alloc),
            fourth: PartHasher::new(alloc),
        }
    }

    /// Takes in the next block of each part, side by side.
    fn take(&mut self, b0: &[u8], b1: &[u8], b2: &[u8], b3: &[u8]) -> Result<(), NoMemory>
        requires first { IsNext self.old.first b0.now }
        requires second { IsNext self.old.second b1.now }
        requires third { IsNext self.old.third b2.now }
        requires fourth { IsNext self.old.fourth b3.now }
        requires second_long { length b1.now ≡ length b0.now }
        requires third_long { length b2.now ≡ length b0.now }
        requires fourth_long { length b3.now ≡ length b0.now }
        ensures first { OnOk result (Takes self.old.first self.new.first b0.now) }
        ensures second { OnOk result (Takes self.old.second self.new.second b1.now) }
        ensures third { OnOk result (Takes self.old.third self.new.third b2.now) }
        ensures fourth { OnOk result (Takes self.old.fourth self.new.fourth b3.now) }
    {
        md4_lanes::update_four(
            &mut self.first.md4,
            &mut self.second.md4,
            &mut self.third.md4,
            &mut self.fourth.md4,
            b0,
            b1,
            b2,
            b3,
        );
        let [d0, d1, d2, d3] = sha1_lanes::digests(b0, b1, b2, b3);
        self.first.tree.feed_hashed(b0, d0)?;
        self.second.tree.feed_hashed(b1, d1)?;
        self.third.tree.feed_hashed(b2, d2)?;
        self.fourth.tree.feed_hashed(b3, d3)
    }
}

/// Reads the next block of each of four parts, the first of which begins at `start`, and takes them in.
fn feed_block<B: Blob>(
    blob: &mut B,
    start: u64,
    place: usize,
    buffer: &mut [u8],
    parts: &mut FourParts,
) -> Result<(), HashFault>
    requires parts { IsFour (B.bytes blob.old) start place parts.old }
    requires begins { place % BLOCK ≡ 0 }
    requires left { place < PART }
    requires within { start + 4 * PART ≤ SIZE_LIMIT }
    requires room { 4 * BLOCK ≤ length buffer.old }
    ensures parts { OnOk result (IsFour (B.bytes blob.old) start (place + min (PART - place) BLOCK) parts.new) }
    ensures fits { result ≢ Err HashFault.BadSize }
    ensures bytes { B.bytes blob.new ≡ B.bytes blob.old }
    ensures cause { HasBlobCause (B.blob_faults blob.old) (B.blob_faults blob.new) result }
{
    let len = (PART_LEN - place).min(BLOCK_LEN);
    let at = start + place as u64;
    let (b0, others) = buffer.split_at_mut(len);
    let (b1, others) = others.split_at_mut(len);
    let (b2, others) = others.split_at_mut(len);
    let (b3, _) = others.split_at_mut(len);
    fill(blob, at, b0)?;
    fill(blob, at + PART, b1)?;
    fill(blob, at + 2 * PART, b2)?;
    fill(blob, at + 3 * PART, b3)?;
    parts.take(b0, b1, b2, b3)?;
    Ok(())
}

/// Puts four whole parts behind the file's bytes.
fn append_four(file: &mut FileHasher, parts: FourParts) -> Result<(), NoMemory>
    requires same { file.old.set ≡ file.old.tree.fed }
    requires begins { length file.old.set % PART ≡ 0 }
    requires fits { length file.old.set + 4 * PART ≤ file.old.tree.size }
    requires first { IsWhole parts.first }
    requires second { IsWhole parts.second }
    requires third { IsWhole parts.third }
    requires fourth { IsWhole parts.fourth }
    ensures size { file.new.tree.size ≡ file.old.tree.size }
    ensures set { OnOk result (file.new.set ≡ file.old.set ++ all_of parts) }
    ensures same { OnOk result (file.new.set ≡ file.new.tree.fed) }
{
    let FourParts {
        first,
        second,
        third,
        fourth,
    } = parts;
    file.append(first, PART_LEN)?;
    file.append(second, PART_LEN)?;
    file.append(third, PART_LEN)?;
    file.append(fourth, PART_LEN)
}

/// Reads and hashes the four parts that begin at `start`, and puts them behind the file's bytes.
pub(crate) fn hash_four_parts<B: Blob>(
    alloc: Global,
    blob: &mut B,
    start: u64,
    buffer: &mut [u8],
    file: &mut FileHasher,
) -> Result<(), HashFault>
    requires file { IsFile (B.bytes blob.old) file.old.tree.size start file.old }
    requires begins { start % PART ≡ 0 }
    requires within { start + 4 * PART ≤ file.old.tree.size }
    requires limit { file.old.tree.size ≤ SIZE_LIMIT }
    requires room { 4 * BLOCK ≤ length buffer.old }
    ensures file { OnOk result (IsFile (B.bytes blob.old) file.old.tree.size (start + 4 * PART) file.new) }
    ensures fits { result ≢ Err HashFault.BadSize }
    ensures bytes { B.bytes blob.new ≡ B.bytes blob.old }
    ensures cause { HasBlobCause (B.blob_faults blob.old) (B.blob_faults blob.new) result }
{
    let mut parts = FourParts::new(alloc);
    let mut place = 0;
    'blocks: while place < PART_LEN {
        feed_block(blob, start, place, buffer, &mut parts)?;
        place += (PART_LEN - place).min(BLOCK_LEN);
    }
    append_four(file, parts)?;
    Ok(())
}
