//! Worked rows of the score, and random calls beside a plain model.

mod plain;
mod random;

use super::{Hash, Place, UploadBook};
use std::alloc::Global;
use std::test::Fail;

const ANN: Hash = [1; 16];

const BOB: Hash = [2; 16];

/// A book in which the numbers from 1 to 4 have slots, Ann has credit 346 and Bob 100.
fn full_book(alloc: Global) -> Result<UploadBook, Fail> {
    let mut book = UploadBook::new(alloc);
    book.received(ANN, 10_485_760)?;
    book.count_bytes(ANN, 5_242_880)?;
    for number in 1..5 {
        book.ask(number, BOB, 0)?;
    }
    Ok(book)
}

#[test]
fn credits(rt: HostRuntime) -> Result<(), Fail> {
    let cases: [(u64, u64, u32); 9] = [
        (10_485_760, 5_242_880, 346),
        (1_048_575, 0, 100),
        (1_048_576, 0, 173),
        (1_048_576, 1_212_226, 173),
        (1_048_576, 1_212_226 + 20_481, 170),
        (1_048_576, u64::MAX, 100),
        (104_857_600, 0, 1_000),
        (u64::MAX, 1, 1_000),
        (u64::MAX, u64::MAX, 200),
    ];
    for (received, given, credit) in cases {
        let mut book = UploadBook::new(rt.alloc());
        book.received(ANN, received)?;
        book.count_bytes(ANN, given)?;
        assert_eq!(rt; book.credit(&ANN), credit, "{received} and {given}");
        assert_eq!(rt; book.credit(&BOB), 100);
    }
    Ok(())
}

#[test]
fn sums_add_up_and_stop(rt: HostRuntime) -> Result<(), Fail> {
    let mut book = UploadBook::new(rt.alloc());
    book.received(ANN, 524_288)?;
    book.received(ANN, 524_288)?;
    assert_eq!(rt; book.credit(&ANN), 173);
    book.received(ANN, u64::MAX)?;
    assert_eq!(rt; book.credit(&ANN), 1_000);
    Ok(())
}

#[test]
fn the_higher_score_comes_first(rt: HostRuntime) -> Result<(), Fail> {
    let mut book = full_book(rt.alloc())?;
    assert_eq!(rt; book.ask(5, BOB, 0)?, Place::Rank(1));
    assert_eq!(rt; book.ask(6, ANN, 140)?, Place::Rank(2));
    assert_eq!(rt; book.rank(5, 200), Some(2));
    assert_eq!(rt; book.rank(6, 200), Some(1));
    book.leave(2);
    assert_eq!(rt; book.ask(5, BOB, 200)?, Place::Rank(2));
    assert_eq!(rt; book.ask(6, ANN, 200)?, Place::Granted);
    assert_eq!(rt; book.rank(6, 200), None);
    assert_eq!(rt; book.ask(5, BOB, 200)?, Place::Rank(1));
    Ok(())
}

#[test]
fn equal_scores(rt: HostRuntime) -> Result<(), Fail> {
    let mut book = full_book(rt.alloc())?;
    // At 1,000 seconds: 346 times 100 for Bob, who came earlier, and 100 times 346 for Ann.
    book.ask(7, ANN, 900)?;
    book.ask(9, BOB, 654)?;
    book.ask(8, BOB, 654)?;
    assert_eq!(rt; book.rank(8, 1_000), Some(1));
    assert_eq!(rt; book.rank(9, 1_000), Some(2));
    assert_eq!(rt; book.rank(7, 1_000), Some(3));
    assert_eq!(rt; book.rank(7, 1_001), Some(1));
    Ok(())
}

#[test]
fn a_fifth_asker_waits(rt: HostRuntime) -> Result<(), Fail> {
    let mut book = full_book(rt.alloc())?;
    assert_eq!(rt; book.ask(5, ANN, 0)?, Place::Rank(1));
    assert_eq!(rt; book.ask(5, ANN, u64::MAX)?, Place::Rank(1));
    assert_eq!(rt; book.ask(4, BOB, 1)?, Place::Granted);
    book.leave(4);
    assert_eq!(rt; book.ask(5, ANN, 1)?, Place::Granted);
    assert_eq!(rt; book.ask(4, BOB, 1)?, Place::Rank(1));
    Ok(())
}

#[test]
fn a_number_that_comes_again_is_new(rt: HostRuntime) -> Result<(), Fail> {
    let mut book = full_book(rt.alloc())?;
    book.ask(5, BOB, 0)?;
    book.ask(6, BOB, 10)?;
    assert_eq!(rt; book.ask(5, ANN, 20)?, Place::Rank(1));
    book.leave(5);
    assert_eq!(rt; book.rank(5, 20), None);
    assert_eq!(rt; book.ask(5, BOB, 20)?, Place::Rank(2));
    assert_eq!(rt; book.rank(6, 20), Some(1));
    Ok(())
}

#[test]
fn a_clock_that_went_back_counts_as_no_time(rt: HostRuntime) -> Result<(), Fail> {
    let mut book = full_book(rt.alloc())?;
    book.ask(6, ANN, 100)?;
    book.ask(5, BOB, 101)?;
    assert_eq!(rt; book.rank(6, 50), Some(1));
    assert_eq!(rt; book.rank(5, 50), Some(2));
    Ok(())
}
