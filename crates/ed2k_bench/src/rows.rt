//! Rows of files that many sessions offer, made of numbers alone, so that another program can make the same.
use ed2k_outside::{Bytes, NoMemory};
use search_expr::{FileRow, Hash};
use std::alloc::{AllocError, Global};

/// How many files a session offers.
pub(crate) const EACH: u64 = 1_000;

/// How many words names are made of.
const VOCABULARY: u64 = 50_000;

/// How many words of four letters there are.
const FOUR_LETTERS: u64 = 456_976;

/// Numbers one after another, of any state.
#[derive(Clone, Copy)]
pub(crate) struct Numbers(pub(crate) u64);

impl Numbers {
    /// The next number.
    pub(crate) fn next(&mut self) -> u64 {
        self.0 = self.0.wrapping_add(0x9e37_79b9_7f4a_7c15);
        let mixed = (self.0 ^ (self.0 >> 30)).wrapping_mul(0xbf58_476d_1ce4_e5b9);
        let mixed = (mixed ^ (mixed >> 27)).wrapping_mul(0x94d0_49bb_1331_11eb);
        mixed ^ (mixed >> 31)
    }

    /// The rank of a word: each of 16 ranges of ranks, each twice as long as the one before, is as likely.
    fn rank(&mut self) -> u64 {
        let span = 1u64 << (self.next() % 16);
        (self.next() % span).wrapping_add(span).wrapping_sub(1) % VOCABULARY
    }
}

/// The file that a session offers at a place: of four one is shared by some twelve sessions.
pub(crate) fn file_of(session: u64, place: u64) -> u64 {
    let own = session.wrapping_mul(EACH).wrapping_add(place);
    let drawn = Numbers(own).next();
    if drawn % 4 == 0 {
        place.wrapping_mul(20).wrapping_add((drawn >> 32) % 20)
    } else {
        own.wrapping_add(1_000_000)
    }
}

/// The hash of a file.
pub(crate) fn hash_of(file: u64) -> Hash {
    let mut numbers = Numbers(file.wrapping_mul(3));
    let mut hash = [0; 16];
    for half in hash.chunks_mut(8) {
        let bytes = numbers.next().to_le_bytes();
        for (to, from) in half.iter_mut().zip(bytes.iter()) {
            *to = *from;
        }
    }
    hash
}

/// Adds the word of a rank, of four to eight letters.
fn add_word(text: &mut Vec<u8>, rank: u64) -> Result<(), AllocError> {
    let mut rest = rank.wrapping_mul(179_424_673).wrapping_add(7) % FOUR_LETTERS;
    for _ in 0..4 {
        text.push(b'a' + (rest % 26) as u8)?;
        rest /= 26;
    }
    for i in 0..rank % 5 {
        text.push(b'a' + (rank.wrapping_mul(i.wrapping_add(3)) % 26) as u8)?;
    }
    Ok(())
}

/// The word of a rank.
pub(crate) fn word_of(alloc: Global, rank: u64) -> Result<Vec<u8>, AllocError> {
    let mut text = Vec::new(alloc);
    add_word(&mut text, rank)?;
    Ok(text)
}

/// The first words of a file's name, four at most, with what stands between them.
pub(crate) fn words_of(alloc: Global, file: u64, count: u8) -> Result<Vec<u8>, AllocError> {
    let mut numbers = Numbers(file.wrapping_mul(7));
    let mut text = Vec::new(alloc);
    for gap in b". -."[..usize::from(count.min(4))].iter() {
        if !text.is_empty() {
            text.push(*gap)?;
        }
        add_word(&mut text, numbers.rank())?;
    }
    Ok(text)
}

/// What kind a file is.
fn kind_of(alloc: Global, file: u64) -> Result<Vec<u8>, AllocError> {
    match file % 3 {
        0 => Vec::from_slice(alloc, b"Audio"),
        1 => Vec::from_slice(alloc, b"Video"),
        _ => Ok(Vec::new(alloc)),
    }
}

/// The row of a file.
pub(crate) fn row(alloc: Global, file: u64) -> Result<FileRow, NoMemory> {
    let name = words_of(alloc, file, 4)?;
    let kind = kind_of(alloc, file)?;
    if name.len() > 65_535 || kind.len() > 65_535 {
        return Err(NoMemory);
    }
    Ok(FileRow {
        hash: hash_of(file),
        name: Bytes::new(name),
        size: file.wrapping_mul(1_000),
        kind: Bytes::new(kind),
    })
}
