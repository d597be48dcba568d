//! Small downloads, call by call.

mod calls;
mod plain;
mod small;
mod tables;

use super::{DeskFault, Verdict, Written};
use part_sizes::Span;
use small::{HASH, Small, WHOLE};
use std::test::Fail;

#[test]
fn the_wanted_digest_verifies(rt: HostRuntime) -> Result<(), Fail> {
    let mut small = Small::full(rt.alloc())?;
    small.assert_complete(&rt, false);
    small.judges(&rt, HASH, Verdict::Verified);
    small.assert_complete(&rt, true);
    small.fails_next(&rt, 0, None);
    Ok(())
}

#[test]
fn another_digest_fails(rt: HostRuntime) -> Result<(), Fail> {
    let mut small = Small::full(rt.alloc())?;
    small.judges(&rt, [8; 16], Verdict::Failed);
    small.assert_complete(&rt, false);
    small.fails_next(&rt, 0, Some(0));
    small.fails_next(&rt, 1, None);
    Ok(())
}

#[test]
fn an_offer_is_one_entry(rt: HostRuntime) -> Result<(), Fail> {
    let mut small = Small::full(rt.alloc())?;
    small.offers(&rt, rt.alloc(), 5)?;
    small.has_entries(&rt, 2);
    Ok(())
}

#[test]
fn a_small_file_needs_no_set(rt: HostRuntime) -> Result<(), Fail> {
    let mut small = Small::full(rt.alloc())?;
    small.refuses_a_set(&rt, rt.alloc());
    small.has_no_set(&rt);
    Ok(())
}

#[test]
fn what_is_not_held_is_not_written(rt: HostRuntime) -> Result<(), Fail> {
    let mut small = Small::full(rt.alloc())?;
    small.holds(&rt, 0, false);
    small.writes(&rt, 0, WHOLE, Err(DeskFault::NotHeld));
    small.has_entries(&rt, 1);
    Ok(())
}

#[test]
fn nothing_to_commit_adds_no_entry(rt: HostRuntime) -> Result<(), Fail> {
    let mut small = Small::full(rt.alloc())?;
    small.commits(&rt, &[])?;
    small.has_entries(&rt, 1);
    Ok(())
}

#[test]
fn a_part_without_a_verdict_is_not_failed(rt: HostRuntime) -> Result<(), Fail> {
    let mut small = Small::full(rt.alloc())?;
    small.refuses_to_drop(&rt);
    Ok(())
}

#[test]
fn two_peers_and_one_block(rt: HostRuntime) -> Result<(), Fail> {
    let mut small = Small::empty(rt.alloc())?;
    let start = Span { s: 0, e: 2 };
    let end = Span { s: 2, e: 3 };
    small.reserves(&rt, 0, Some(DeskFault::NoBlock));
    small.offers(&rt, rt.alloc(), 0)?;
    small.offers(&rt, rt.alloc(), 1)?;
    small.reserves(&rt, 0, None);
    small.reserves(&rt, 1, Some(DeskFault::NoBlock));
    small.writes(&rt, 0, start, Ok(Written { full: None }));
    small.releases(&rt, 0);
    small.reserves(&rt, 1, None);
    small.writes(&rt, 0, end, Err(DeskFault::NotHeld));
    small.writes(&rt, 1, end, Ok(Written { full: Some(0) }));
    small.commits(&rt, &[WHOLE])?;
    small.commits(&rt, &[])?;
    small.moved_last_at(&rt, 7);
    Ok(())
}
