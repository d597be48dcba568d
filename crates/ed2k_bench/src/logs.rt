//! A log file that is loaded.
use ed2k_outside::{NoMemory, Vault, Which};
use journal_core::{Journal, Record, spell, spell_small};
use md4_hash::Md4;
use part_sizes::{Hash, Hashes, Span, Spans};
use std::alloc::{AllocError, Global};
use std::io;
use vault_sim::MemVault;

/// The size of the file. It isn't a whole number of parts, so its set has no hash of no bytes.
const FILE_SIZE: u64 = 4_290_047_999;

/// The parts of the file, and the members of its set.
const PARTS: u16 = 441;

/// The bytes of a record of one span, and of one verdict, each with its gate.
const FILLED_LEN: u64 = 26;

const JUDGED_LEN: u64 = 24;

/// The bytes of the header and of the record of the set.
const FRONT_LEN: u64 = 7_118;

/// The order in which the spans of a log come.
#[derive(Clone, Copy)]
pub(crate) enum Order {
    /// From the first position on, so that they make up one run.
    Ascending,
    /// Every second span from the end on, and then those between them from the front on: so each is put before
    /// all those so far, and then each closes the first gap.
    Worst,
}

impl Order {
    /// Which of so many spans comes after so many others.
    fn place(self, count: u64, before: u64) -> u64 {
        let evens = count.div_ceil(2);
        match self {
            Order::Ascending => before,
            Order::Worst if before < evens => (evens - before).wrapping_mul(2).wrapping_sub(2),
            Order::Worst => (before - evens).wrapping_mul(2).wrapping_add(1),
        }
    }
}

/// What the set says of a part, by its number.
fn member(part: u16) -> Hash {
    let [low, high] = part.to_le_bytes();
    let mut hash = [0; 16];
    hash[0] = low;
    hash[1] = high;
    hash
}

/// The hash of the file: that of the set's members put together.
fn file_hash() -> Hash {
    let mut hasher = Md4::new();
    for part in 0..PARTS {
        hasher.update(&member(part));
    }
    hasher.finalize()
}

/// Opens the last gate, and puts a record behind it.
fn put(log: &mut Vec<u8>, spelled: &[u8]) -> Result<(), AllocError> {
    if let Some(gate) = log.last_mut() {
        *gate = 1;
    }
    log.extend_from_slice(spelled)
}

/// A log of about so many bytes, as a long download leaves it: the set, the spans that were filled one by one,
/// and the verdict of each part.
fn made_log(alloc: Global, size: u64, order: Order) -> Result<Vec<u8>, NoMemory> {
    let mut log = Vec::from_slice(alloc, b"ED2KPF01\x01")?;
    log.extend_from_slice(&FILE_SIZE.to_le_bytes())?;
    log.extend_from_slice(&file_hash())?;
    log.extend_from_slice(&[0; 22])?;
    let mut set: Vec<Hash> = Vec::new(alloc);
    for part in 0..PARTS {
        set.push(member(part))?;
    }
    put(
        &mut log,
        spell(alloc, &Record::Set(Hashes::new(set)))?.as_slice(),
    )?;
    let spans = size.saturating_sub(FRONT_LEN + JUDGED_LEN * u64::from(PARTS)) / FILLED_LEN;
    let count = spans.max(1);
    let width = FILE_SIZE / count;
    for before in 0..count {
        let place = order.place(count, before);
        let s = place.wrapping_mul(width);
        let e = if place == count - 1 {
            FILE_SIZE
        } else {
            s.wrapping_add(width)
        };
        let filled = Record::Filled(Spans::new(vec![in alloc; Span { s, e }]?));
        put(&mut log, spell(alloc, &filled)?.as_slice())?;
    }
    for part in 0..PARTS {
        let (bytes, len) = spell_small(&Record::Judged(part, member(part)));
        put(&mut log, &bytes[..len])?;
    }
    Ok(log)
}

/// Makes such a log in a vault in memory, and loads it where this is asked. The answer is the number of its
/// records, 0 where it isn't loaded, and the number of its bytes.
pub(crate) fn load_log(
    alloc: Global,
    size: u64,
    order: Order,
    loads: bool,
) -> anyhow::Result<(usize, usize)> {
    let log = made_log(alloc, size, order)?;
    let mut vault = MemVault::new(alloc);
    vault.write_at(Which::Log, 0, &log)?;
    if !loads {
        return Ok((0, log.len()));
    }
    match Journal::load(alloc, &mut vault) {
        Ok((_, _, records)) => Ok((records.len(), log.len())),
        Err(_) => Err(io::Error::from(io::ErrorKind::InvalidData).into()),
    }
}
