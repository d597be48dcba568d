//! File names that an expression is held against, and an offer of many files that is read.
use crate::rows::{hash_of, word_of, words_of};
use ed2k_frame::Frame;
use ed2k_outside::Bytes;
use search_expr::{Expr, matches_file};
use server_msgs::{ClientMsg, FILE_LIMIT, read_client};
use std::alloc::{AllocError, Global};
use std::time::{CpuClock, Duration};

/// The opcode of an offer.
const OFFER: u8 = 0x15;

/// The ranks of two words that one in 180 names has, and of two that one in 50 has.
const RANKS: [[u64; 2]; 2] = [[1, 4], [0, 1]];

/// The two words that are looked for, of which more or fewer names have both.
pub(crate) fn asked(alloc: Global, often: bool) -> Result<Vec<u8>, AllocError> {
    let [first, second] = RANKS[usize::from(often)];
    let mut text = word_of(alloc, first)?;
    text.push(b' ')?;
    text.extend_from_slice(&word_of(alloc, second)?)?;
    Ok(text)
}

/// So many names, a line each.
pub(crate) fn names(alloc: Global, count: u64) -> anyhow::Result<String> {
    let mut text = Vec::new(alloc);
    for file in 0..count {
        text.extend_from_slice(&words_of(alloc, file, 4)?)?;
        text.push(b'\n')?;
    }
    Ok(String::from_utf8_lossy(alloc, &text)?)
}

/// How many of so many names have both words, and the processor time that this took.
pub(crate) fn count_matches<R: CpuClock>(
    rt: &R,
    alloc: Global,
    count: u64,
    often: bool,
) -> anyhow::Result<(u64, Duration)> {
    // All names in one piece, as they stand in a file, and where each ends.
    let mut text = Vec::new(alloc);
    let mut ends = Vec::new(alloc);
    for file in 0..count {
        text.extend_from_slice(&words_of(alloc, file, 4)?)?;
        ends.push(text.len())?;
    }
    let expr = Expr::Word(Bytes::new(asked(alloc, often)?));
    let mut found: u64 = 0;
    let start = rt.process_cpu_time()?;
    let mut begin = 0;
    for end in ends.iter() {
        if let Some(name) = text.get(begin..*end) {
            if matches_file(&expr, name, 0, &[]) {
                found = found.wrapping_add(1);
            }
        }
        begin = *end;
    }
    let spent = rt.process_cpu_time()?.saturating_sub(start);
    Ok((found, spent))
}

/// The bytes of a file in an offer: no id, no port, its name and its size.
fn add_file(alloc: Global, payload: &mut Vec<u8>, file: u64) -> Result<(), AllocError> {
    let name = words_of(alloc, file, 4)?;
    let [low, high, ..] = (name.len() as u64).to_le_bytes();
    payload.extend_from_slice(&hash_of(file))?;
    payload.extend_from_slice(&[0, 0, 0, 0, 0, 0, 2, 0, 0, 0])?;
    payload.extend_from_slice(&[2, 1, 0, 1, low, high])?;
    payload.extend_from_slice(&name)?;
    payload.extend_from_slice(&[3, 1, 0, 2, 0, 1, 2, 3])
}

/// An offer of as many files as there may be.
fn offer(alloc: Global) -> Result<Frame, AllocError> {
    let mut payload = Vec::from_slice(alloc, &(FILE_LIMIT as u32).to_le_bytes())?;
    for file in 0..FILE_LIMIT as u64 {
        add_file(alloc, &mut payload, file)?;
    }
    Ok(Frame {
        protocol: 0xe3,
        opcode: OFFER,
        payload: Bytes::new(payload),
    })
}

/// Reads about so many bytes of offers, and tells how many files they had, how many bytes, and the processor time.
pub(crate) fn read_offers<R: CpuClock>(
    rt: &R,
    alloc: Global,
    size: u64,
) -> anyhow::Result<(u64, u64, Duration)> {
    let frame = offer(alloc)?;
    let len = frame.payload.len() as u64;
    let mut files: u64 = 0;
    let mut bytes: u64 = 0;
    let start = rt.process_cpu_time()?;
    for _ in 0..size / len.max(1) {
        if let ClientMsg::Offer { files: offered } = read_client(alloc, &frame)? {
            files = files.wrapping_add(offered.len() as u64);
        }
        bytes = bytes.wrapping_add(len);
    }
    let spent = rt.process_cpu_time()?.saturating_sub(start);
    Ok((files, bytes, spent))
}
