//! Random logins, offers and leaves, each answer beside that of a plain list.
ghost use Rattle.std.specs.Prelude.{length, ◌≤◌};

use super::*;
use ed2k_outside::{Addr, Bytes};
use search_expr::{Expr, FileRow};
use std::alloc::Global;
use std::test::Fail;

/// Numbers below this one come and go.
const NUMBERS: u8 = 20;

/// Hashes below this one are offered.
const HASHES: u8 = 48;

/// The hash and the size of a file. Its name tells whether the size is even.
type Plain = (u8, u64);

/// The files of each number that is logged in.
type Table = Vec<Option<Vec<Plain>>>;

fn next(seed: &mut u64) -> u64 {
    let mixed = seed
        .wrapping_mul(6_364_136_223_846_793_005)
        .wrapping_add(1_442_695_040_888_963_407);
    *seed = mixed;
    mixed >> 33
}

fn hash_of(i: u8) -> Hash {
    [i; 16]
}

fn row(alloc: Global, file: Plain) -> Result<FileRow, Fail> {
    let name = if file.1 % 2 == 0 {
        b"an Even size".to_vec(alloc)?
    } else {
        b"an odd-size".to_vec(alloc)?
    };
    plain_row(alloc, file, name)
}

fn plain_row(alloc: Global, file: Plain, name: Vec<u8>) -> Result<FileRow, Fail>
    requires { length name.items ≤ 65535 }
{
    Ok(FileRow {
        hash: hash_of(file.0),
        name: Bytes::new(name),
        size: file.1,
        kind: Bytes::new(Vec::new(alloc)),
    })
}

fn put(files: &mut Vec<Plain>, file: Plain) -> Result<(), Fail> {
    for there in files.iter_mut() {
        if there.0 == file.0 {
            *there = file;
            return Ok(());
        }
    }
    files.push(file)?;
    Ok(())
}

/// The size of the file of a hash that is even, if it is there.
fn even_size(files: &[Plain], hash: u8) -> Option<u64> {
    for file in files {
        if file.0 == hash && file.1 % 2 == 0 {
            return Some(file.1);
        }
    }
    None
}

/// The size and the id of the first even file of a hash.
fn first_even(table: &Table, hash: u8) -> Option<(u64, u32)> {
    let mut id: u32 = 0;
    for slot in table.iter() {
        id = id.wrapping_add(1);
        if let Some(files) = slot {
            if let Some(size) = even_size(files.as_slice(), hash) {
                return Some((size, id));
            }
        }
    }
    None
}

fn finds_the_same(alloc: Global, index: &Index, table: &Table, after: u8) -> Result<bool, Fail> {
    let even = Expr::Word(Bytes::new(b"EVEN an".to_vec(alloc)?));
    let found = index.search(&even, Some(hash_of(after)))?;
    let mut told: usize = 0;
    for hash in 0..HASHES {
        if hash > after {
            if let Some((size, id)) = first_even(table, hash) {
                match found.get(told) {
                    Some(one) if one.row.size == size && one.id == id => {
                        told = told.wrapping_add(1);
                    }
                    _ => return Ok(false),
                }
            }
        }
    }
    Ok(told == found.len())
}

fn step(
    alloc: Global,
    index: &mut Index,
    slot: &mut Option<Vec<Plain>>,
    number_in_table: u8,
    seed: &mut u64,
) -> Result<bool, Fail> {
    let number = u64::from(number_in_table);
    let id = u32::from(number_in_table) + 1;
    let addr = Addr {
        ip: [0; 4],
        port: 0,
    };
    match next(seed) % 4 {
        0 => {
            let answer = index.login(number, [0; 16], addr, 0, false);
            if slot.is_some() {
                return Ok(answer == Err(IndexFault::Already(id)));
            }
            *slot = Some(Vec::new(alloc));
            Ok(answer == Ok(id))
        }
        1 => {
            index.logout(number);
            *slot = None;
            Ok(true)
        }
        _ => {
            let file = ((next(seed) % u64::from(HASHES)) as u8, next(seed) % 100);
            let mut rows = Vec::new(alloc);
            rows.push(row(alloc, file)?)?;
            let answer = index.offer(number, rows);
            match slot {
                None => Ok(answer == Err(IndexFault::NotIn)),
                Some(files) => {
                    put(files, file)?;
                    Ok(answer == Ok(1))
                }
            }
        }
    }
}

#[test]
fn answers_as_a_plain_list(rt: HostRuntime) -> Result<(), Fail> {
    let alloc = rt.alloc();
    let mut index = Index::new(alloc);
    let mut table: Table = Vec::new(alloc);
    for _ in 0..NUMBERS {
        table.push(None)?;
    }
    let mut seed: u64 = 1;
    for _ in 0..1_000 {
        let number = (next(&mut seed) % u64::from(NUMBERS)) as u8;
        if let Some(slot) = table.get_mut(usize::from(number)) {
            assert!(rt; step(alloc, &mut index, slot, number, &mut seed)?);
        }
        let after = (next(&mut seed) % 40) as u8;
        assert!(rt; finds_the_same(alloc, &index, &table, after)?);
    }
    Ok(())
}
