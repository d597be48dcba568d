//! `hash`, `link` and wrong words, over objects in memory.

use crate::tests::runs::{MemEnded, MemHands, USAGE, in_short, words};
use crate::tests::same::assert_same;
use crate::{Hands, run, run_plain};
use ed2k_outside::{MemBlob, MemBlobs, MemNet, MemOut, SetClock};
use std::alloc::{AllocError, Global};
use std::process::Abort;
use std::sync::Wait;
use std::test::Fail;
use std::thread::Threads;
use vault_sim::MemVault;

/// The link of a file `abc`; its root is that of another implementation.
const CANONICAL: &str =
    "ed2k://|file|My%20File.txt|3|A448017AAF21D8525FC10AE87AA6729D|h=VGMT4NSHA2AWVOR6EVYXQUGCNSONBWE5|/\n";

const SPELLED: &str =
    "ed2k://|file|My%20File.txt|3|a448017aaf21d8525fc10ae87aa6729d|h=vgmt4nsha2awvor6evyxqugcnsonbwe5|/";

const LARGEST: &str = "ed2k://|file|abc|4290048000|A448017AAF21D8525FC10AE87AA6729D|/";

const LARGEST_LINE: &str = "ed2k://|file|abc|4290048000|A448017AAF21D8525FC10AE87AA6729D|/\n";

const TOO_LARGE: &str = "ed2k://|file|abc|4290048001|A448017AAF21D8525FC10AE87AA6729D|/";

/// One blob, whose listed calls fail: the first asks its length.
fn one_blob(
    alloc: Global,
    name: &str,
    bytes: &[u8],
    fails: Vec<u64>,
) -> Result<MemBlobs, AllocError> {
    let blob = MemBlob::new(bytes.to_vec(alloc)?, fails);
    let list = vec![in alloc; (String::from_str(alloc, name)?, blob)]?;
    Ok(MemBlobs::new(list))
}

/// An outside of these blobs alone; the listed writes fail.
fn hands(alloc: Global, blobs: MemBlobs, out_fails: Vec<u64>) -> Result<MemHands, Fail> {
    Ok(Hands {
        net: MemNet::new(alloc, Vec::new(alloc), Vec::new(alloc))?,
        vault: MemVault::new(alloc),
        blobs,
        out: MemOut::new(alloc, out_fails),
        clock: SetClock::new(Vec::new(alloc)),
    })
}

/// Runs the words.
fn answer(alloc: Global, texts: &[&str], hands: MemHands) -> Result<MemEnded, Fail> {
    let words = words(alloc, texts)?;
    Ok(run_plain(alloc, &words, hands))
}

/// Runs the words by the top call.
fn answer_by_top<R: Threads + Wait + Sync>(
    rt: &R,
    alloc: Global,
    texts: &[&str],
    hands: MemHands,
) -> Result<MemEnded, Fail> {
    let words = words(alloc, texts)?;
    Ok(run(rt, alloc, &words, hands))
}

/// This is answered to words where there is no blob.
fn answers(
    rt: &impl Abort,
    alloc: Global,
    texts: &[&str],
    status: u8,
    printed: &str,
) -> Result<(), Fail> {
    let hands = hands(alloc, MemBlobs::new(Vec::new(alloc)), Vec::new(alloc))?;
    let seen = in_short(alloc, &answer(alloc, texts, hands)?)?;
    assert_same(rt, &seen.status, &status, &texts);
    assert_same(rt, &seen.printed.as_slice(), &printed.as_bytes(), &texts);
    Ok(())
}

#[test]
fn tells_the_usage_for_wrong_words(rt: HostRuntime) -> Result<(), Fail> {
    const ROWS: [&[&str]; 6] = [
        &[],
        &["frob"],
        &["link"],
        &["link", "--x"],
        &["hash", ""],
        &["hash", "a", "b"],
    ];
    for texts in ROWS {
        answers(&rt, rt.alloc(), texts, 1, USAGE)?;
    }
    Ok(())
}

#[test]
fn answers_words_without_blobs(rt: HostRuntime) -> Result<(), Fail> {
    let alloc = rt.alloc();
    answers(&rt, alloc, &["hash", "missing"], 11, "blob\n")?;
    answers(&rt, alloc, &["link", SPELLED], 0, CANONICAL)?;
    answers(&rt, alloc, &["link", LARGEST], 0, LARGEST_LINE)
}

#[test]
fn tells_why_a_link_is_refused(rt: HostRuntime) -> Result<(), Fail> {
    const ROWS: [(&str, &str); 4] = [
        (TOO_LARGE, "link BadSize\n"),
        ("", "link NotFile\n"),
        ("ed2k://|file||3|/", "link BadName\n"),
        ("ed2k://|file|a|3|/", "link BadHash\n"),
    ];
    for (link, printed) in ROWS {
        answers(&rt, rt.alloc(), &["link", link], 2, printed)?;
    }
    Ok(())
}

/// This comes of `hash` at a blob of these bytes, where this call of the blob fails.
fn hashes(
    rt: &impl Abort,
    alloc: Global,
    bytes: &[u8],
    failing: u64,
    status: u8,
    printed: &str,
) -> Result<(), Fail> {
    let blobs = one_blob(alloc, "My File.txt", bytes, vec![in alloc; failing]?)?;
    let hands = hands(alloc, blobs, Vec::new(alloc))?;
    let seen = in_short(alloc, &answer(alloc, &["hash", "My File.txt"], hands)?)?;
    assert_same(rt, &seen.status, &status, &failing);
    assert_same(rt, &seen.printed.as_slice(), &printed.as_bytes(), &failing);
    Ok(())
}

#[test]
fn tells_why_a_blob_has_no_link(rt: HostRuntime) -> Result<(), Fail> {
    let alloc = rt.alloc();
    hashes(&rt, alloc, b"abc", 9, 0, CANONICAL)?;
    hashes(&rt, alloc, b"", 9, 2, "link BadSize\n")?;
    hashes(&rt, alloc, b"abc", 1, 11, "blob\n")?;
    hashes(&rt, alloc, b"abc", 2, 11, "blob\n")
}

#[test]
fn tells_that_the_output_failed(rt: HostRuntime) -> Result<(), Fail> {
    let alloc = rt.alloc();
    let blobs = one_blob(alloc, "a", b"abc", Vec::new(alloc))?;
    let hands = hands(alloc, blobs, vec![in alloc; 1u64]?)?;
    let ended = answer(alloc, &["hash", "a"], hands)?;
    assert_eq!(rt; ended.status, 6, "the output fails");
    Ok(())
}

#[test]
fn hashes_by_the_top_call(rt: HostRuntime) -> Result<(), Fail> {
    let alloc = rt.alloc();
    let blobs = one_blob(alloc, "My File.txt", b"abc", Vec::new(alloc))?;
    let hands = hands(alloc, blobs, Vec::new(alloc))?;
    let ended = answer_by_top(&rt, alloc, &["hash", "My File.txt"], hands)?;
    let seen = in_short(alloc, &ended)?;
    assert_eq!(rt; seen.status, 0);
    assert_eq!(rt; seen.printed.as_slice(), CANONICAL.as_bytes());
    Ok(())
}
