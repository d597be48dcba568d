//! Each call once, and random sessions beside a plain list of rows.
ghost use Rattle.std.specs.Prelude.{length, ◌≤◌};

use super::*;
use ed2k_outside::{Addr, Bytes};
use search_expr::{Expr, FileRow};
use std::alloc::Global;
use std::test::Fail;

const HASH: Hash = [
    0xa4, 0x48, 0x01, 0x7a, 0xaf, 0x21, 0xd8, 0x52, 0x5f, 0xc1, 0x0a, 0xe8, 0x7a, 0xa6, 0x72, 0x9d,
];

const HOME: [u8; 4] = [127, 0, 0, 1];

fn hash_of(i: u16) -> Hash {
    let mut hash = [0; 16];
    hash[0] = (i / 256) as u8;
    hash[1] = (i % 256) as u8;
    hash
}

fn row(alloc: Global, hash: Hash, name: &[u8], size: u64) -> Result<FileRow, Fail>
    requires { length name.now ≤ 65535 }
{
    Ok(FileRow {
        hash,
        name: Bytes::new(name.to_vec(alloc)?),
        size,
        kind: Bytes::new(Vec::new(alloc)),
    })
}

fn one(alloc: Global, hash: Hash, name: &[u8], size: u64) -> Result<Vec<FileRow>, Fail>
    requires { length name.now ≤ 65535 }
{
    let mut rows = Vec::new(alloc);
    rows.push(row(alloc, hash, name, size)?)?;
    Ok(rows)
}

/// So many rows of one name, the size of each its place.
fn many(alloc: Global, count: u16, name: &[u8]) -> Result<Vec<FileRow>, Fail>
    requires { length name.now ≤ 65535 }
{
    let mut rows = Vec::new(alloc);
    for i in 0..count {
        rows.push(row(alloc, hash_of(i), name, u64::from(i))?)?;
    }
    Ok(rows)
}

fn word(alloc: Global, text: &[u8]) -> Result<Expr, Fail> {
    Ok(Expr::Word(Bytes::new(text.to_vec(alloc)?)))
}

fn low(index: &mut Index, number: u64) -> Result<u32, IndexFault> {
    let ip = [127, 0, 0, 1];
    index.login(number, [7; 16], Addr { ip, port: 4662 }, 4662, false)
}

#[test]
fn tells_ids_and_sources(rt: HostRuntime) -> Result<(), Fail> {
    let alloc = rt.alloc();
    let mut index = Index::new(alloc);
    for (number, port) in [(0, 4662), (1, 4663)] {
        let addr = Addr { ip: HOME, port };
        assert!(rt; index.login(number, [7; 16], addr, port, true) == Ok(16_777_343));
        assert!(rt; index.offer(number, one(alloc, HASH, b"abc", 3)?) == Ok(1));
    }
    let places = index.sources(&HASH)?;
    assert!(rt; places.as_slice() == [(16_777_343, 4662), (16_777_343, 4663)].as_slice());
    assert!(rt; low(&mut index, 5) == Ok(6));
    assert!(rt; index.status() == (3, 1));
    Ok(())
}

#[test]
fn names_each_refusal(rt: HostRuntime) -> Result<(), Fail> {
    let mut index = Index::new(rt.alloc());
    assert!(rt; index.offer(5, Vec::new(rt.alloc())) == Err(IndexFault::NotIn));
    assert!(rt; low(&mut index, 5) == Ok(6));
    assert!(rt; low(&mut index, 5) == Err(IndexFault::Already(6)));
    assert!(rt; low(&mut index, 16_777_213) == Ok(16_777_214));
    assert!(rt; low(&mut index, 16_777_214) == Err(IndexFault::Many(16_777_214)));
    index.logout(5);
    index.logout(6);
    assert!(rt; index.status() == (1, 0));
    Ok(())
}

#[test]
fn finds_the_lowest_number(rt: HostRuntime) -> Result<(), Fail> {
    let alloc = rt.alloc();
    let mut index = Index::new(alloc);
    assert!(rt; low(&mut index, 3) == Ok(4));
    assert!(rt; low(&mut index, 2) == Ok(3));
    let mut rows = one(alloc, HASH, b"Old Name", 3)?;
    rows.push(row(alloc, HASH, b"new-name", 3)?)?;
    assert!(rt; index.offer(3, rows) == Ok(2));
    assert!(rt; index.offer(2, one(alloc, HASH, b"second NAME", 4)?) == Ok(1));
    let found = index.search(&word(alloc, b"name")?, None)?;
    assert!(rt; found.len() == 1 && found[0].id == 3 && found[0].row.size == 4);
    assert!(rt; index.search(&word(alloc, b"old")?, None)?.is_empty());
    let found = index.search(&word(alloc, b"new")?, None)?;
    assert!(rt; found.len() == 1 && found[0].id == 4);
    Ok(())
}

#[test]
fn tells_200_at_a_time(rt: HostRuntime) -> Result<(), Fail> {
    let alloc = rt.alloc();
    let mut index = Index::new(alloc);
    assert!(rt; low(&mut index, 0) == Ok(1));
    assert!(rt; index.offer(0, many(alloc, 10_001, b"each has it")?) == Ok(10_000));
    assert!(rt; index.status() == (1, 10_000));
    let it = word(alloc, b"it")?;
    let first = index.search(&it, None)?;
    assert!(rt; first.len() == 200 && first[199].row.size == 199);
    let rest = index.search(&it, Some(hash_of(9_899)))?;
    assert!(rt; rest.len() == 100 && rest[0].row.size == 9_900);
    index.logout(0);
    assert!(rt; index.search(&it, None)?.is_empty() && index.status() == (0, 0));
    Ok(())
}

#[test]
fn asks_for_sizes_and_either_word(rt: HostRuntime) -> Result<(), Fail> {
    let alloc = rt.alloc();
    let mut index = Index::new(alloc);
    assert!(rt; low(&mut index, 0) == Ok(1));
    for (i, name) in [(1, b"red one"), (2, b"tan two"), (3, b"red six")] {
        assert!(rt; index.offer(0, one(alloc, hash_of(i), name, u64::from(i))?) == Ok(1));
    }
    let size = Expr::Number {
        value: 2,
        most: false,
        name: Bytes::new(vec![in alloc; 2]?),
    };
    assert!(rt; index.search(&size, None)?.len() == 2);
    let both = Expr::And(
        Box::new(alloc, word(alloc, b"red")?)?,
        Box::new(alloc, size)?,
    );
    assert!(rt; index.search(&both, None)?.len() == 1);
    let either = Expr::Or(
        Box::new(alloc, word(alloc, b"one")?)?,
        Box::new(alloc, word(alloc, b"two")?)?,
    );
    let found = index.search(&either, None)?;
    assert!(rt; found.len() == 2 && found[0].row.size == 1 && found[1].row.size == 2);
    Ok(())
}
