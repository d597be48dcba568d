//! A small file over a wire in memory: the whole path, and the words that go nowhere.

use crate::run;
use crate::tests::runs::{
    FROM, Fails, MemEnded, MemHands, SMOOTH, Seen, USAGE, hands, in_short, seen_of_get, words,
};
use crate::tests::same::assert_same;
use std::alloc::Global;
use std::process::Abort;
use std::sync::Wait;
use std::test::Fail;
use std::thread::Threads;

const LINK: &str = "ed2k://|file|abc|3|A448017AAF21D8525FC10AE87AA6729D|/";

const EMPTY: &str = "ed2k://|file|abc|0|A448017AAF21D8525FC10AE87AA6729D|/";

const TOO_LARGE: &str = "ed2k://|file|abc|4290048001|A448017AAF21D8525FC10AE87AA6729D|/";

const UNENDED: &str = "ed2k://|file|abc|3|A448017AAF21D8525FC10AE87AA6729D|";

/// A hello answer, a name answer, a status with count 0, an accept, and the piece `abc`.
const STREAM: &str = concat!(
    "E3480000004C6564326B2D6E6F64652D757365722D31000000000000040000000201000109006564326B5F6E6F6465",
    "030100113C000000030100FA00000020030100FE00000000000000000000",
    "E31600000059A448017AAF21D8525FC10AE87AA6729D0300616263",
    "E31300000050A448017AAF21D8525FC10AE87AA6729D0000",
    "E30100000055",
    "E31C00000046A448017AAF21D8525FC10AE87AA6729D0000000003000000616263",
);

/// A hello, a request for the name, one for the file, one to upload, and one for the bytes 0 to 3.
const SENT: &str = concat!(
    "E34900000001106564326B2D6E6F64652D757365722D31000000000000040000000201000109006564326B5F6E6F6465",
    "030100113C000000030100FA00000020030100FE00000000000000000000",
    "E31100000058A448017AAF21D8525FC10AE87AA6729D",
    "E3110000004FA448017AAF21D8525FC10AE87AA6729D",
    "E31100000054A448017AAF21D8525FC10AE87AA6729D",
    "E32900000047A448017AAF21D8525FC10AE87AA6729D",
    "000000000000000000000000030000000000000000000000",
);

/// The frame of a message that says that there is no such file.
const NO_FILE: &str = "E31100000048A448017AAF21D8525FC10AE87AA6729D";

/// A frame of the protocol whose messages are packed.
const PACKED: &str = "C50100000040";

/// What is printed where each part is verified.
const COMPLETE: &str = "file abc\nparts 1/1\npeer 0 NoBlock 3\ncomplete\n";

/// Runs the words of a `get` for [`LINK`] by the top call.
fn run_top<R: Threads + Wait + Sync>(
    rt: &R,
    alloc: Global,
    hands: MemHands,
) -> Result<MemEnded, Fail> {
    let words = words(alloc, &["get", LINK, "p", FROM])?;
    Ok(run(rt, alloc, &words, hands))
}

/// The same with one peer that says these bytes, one at a time.
fn get<R: Threads + Wait + Sync>(
    rt: &R,
    alloc: Global,
    stream: Vec<u8>,
    fails: Fails,
) -> Result<Seen, Fail> {
    let cuts = vec![in alloc; 1usize; stream.len()]?;
    let ended = run_top(rt, alloc, hands(alloc, stream, cuts, fails)?)?;
    in_short(alloc, &ended)
}

/// The same with the peer that has the file.
fn get_whole<R: Threads + Wait + Sync>(rt: &R, alloc: Global, fails: Fails) -> Result<Seen, Fail> {
    get(rt, alloc, hex::decode(alloc, STREAM)?, fails)
}

#[test]
fn downloads_a_small_file_byte_by_byte(rt: HostRuntime) -> Result<(), Fail> {
    let seen = get_whole(&rt, rt.alloc(), SMOOTH)?;
    assert_same(&rt, &seen.status, &0, &"status");
    assert_same(
        &rt,
        &seen.printed.as_slice(),
        &COMPLETE.as_bytes(),
        &"printed",
    );
    assert_same(&rt, &seen.body.as_slice(), &b"abc".as_slice(), &"body");
    assert_same(&rt, &seen.letters.as_slice(), &b"Oorwcv".as_slice(), &"log");
    assert_same(&rt, &seen.peers, &1, &"peers");
    Ok(())
}

#[test]
fn asks_a_peer_for_a_small_file(rt: HostRuntime) -> Result<(), Fail> {
    let alloc = rt.alloc();
    let seen = get_whole(&rt, alloc, SMOOTH)?;
    let sent = seen.sent.ok_or("the wire wasn't given back")?;
    assert_eq!(rt; sent.len(), 190);
    assert_eq!(rt; sent.as_slice(), hex::decode(alloc, SENT)?.as_slice());
    Ok(())
}

/// The stream with other bytes from a place on.
fn stream_with(alloc: Global, at: usize, bytes: &str) -> Result<Vec<u8>, Fail> {
    let whole = hex::decode(alloc, STREAM)?;
    let mut stream = whole
        .get(..at)
        .ok_or("the stream is shorter")?
        .to_vec(alloc)?;
    stream.extend_from_slice(&hex::decode(alloc, bytes)?)?;
    Ok(stream)
}

/// Where a peer says these bytes from a place on, this is printed.
fn prints_that_it_is_incomplete<R: Threads + Wait + Abort + Sync>(
    rt: &R,
    alloc: Global,
    at: usize,
    bytes: &str,
    printed: &str,
) -> Result<(), Fail> {
    let seen = get(rt, alloc, stream_with(alloc, at, bytes)?, SMOOTH)?;
    assert_same(rt, &seen.status, &3, &(at, bytes));
    assert_same(
        rt,
        &seen.printed.as_slice(),
        &printed.as_bytes(),
        &(at, bytes),
    );
    Ok(())
}

#[test]
fn prints_why_a_peer_is_done_with(rt: HostRuntime) -> Result<(), Fail> {
    let alloc = rt.alloc();
    // The name answer, the accept and the last byte stand at these places.
    let no_file = "file abc\nparts 0/1\npeer 0 NoFile 0\nincomplete\n";
    prints_that_it_is_incomplete(&rt, alloc, 77, NO_FILE, no_file)?;
    let packed = "file abc\nparts 0/1\npeer 0 BadMsg 0\nincomplete\n";
    prints_that_it_is_incomplete(&rt, alloc, 128, PACKED, packed)?;
    let cut = "file abc\nparts 0/1\npeer 0 Ended 0\nincomplete\n";
    prints_that_it_is_incomplete(&rt, alloc, 166, "", cut)?;
    let wrong = "file abc\nparts 0/1\npeer 0 Ended 3\nincomplete\n";
    prints_that_it_is_incomplete(&rt, alloc, 166, "64", wrong)
}

/// Where this call of the vault fails, this is printed, and the log has entries or none.
fn prints_that_the_vault_failed<R: Threads + Wait + Abort + Sync>(
    rt: &R,
    alloc: Global,
    call: u64,
    printed: &str,
    is_empty: bool,
) -> Result<(), Fail> {
    let fails = Fails {
        vault: call,
        ..SMOOTH
    };
    let seen = get_whole(rt, alloc, fails)?;
    assert_same(rt, &seen.status, &4, &call);
    assert_same(rt, &seen.printed.as_slice(), &printed.as_bytes(), &call);
    assert_same(rt, &seen.letters.is_empty(), &is_empty, &call);
    Ok(())
}

#[test]
fn prints_what_failed(rt: HostRuntime) -> Result<(), Fail> {
    let alloc = rt.alloc();
    // Each call of the vault fails in turn: one names the place, three make the body, and one each writes,
    // syncs and reads it.
    for call in 1u64..=4 {
        prints_that_the_vault_failed(&rt, alloc, call, "vault\n", true)?;
    }
    let unwritten = "file abc\nparts 0/1\npeer 0 StoreFault 0\nvault\n";
    prints_that_the_vault_failed(&rt, alloc, 5, unwritten, false)?;
    let unread = "file abc\nparts 0/1\npeer 0 StoreFault 3\nvault\n";
    prints_that_the_vault_failed(&rt, alloc, 6, unread, false)?;
    prints_that_the_vault_failed(&rt, alloc, 7, unread, false)
}

#[test]
fn prints_that_the_connect_failed(rt: HostRuntime) -> Result<(), Fail> {
    let fails = Fails { net: 1, ..SMOOTH };
    let seen = get_whole(&rt, rt.alloc(), fails)?;
    assert_eq!(rt; seen.status, 9, "the connect fails");
    let printed = "file abc\nparts 0/1\npeer 0 NoLink 0\nnet\n";
    assert_eq!(rt; seen.printed.as_slice(), printed.as_bytes());
    Ok(())
}

/// Where the sink refuses this line by this call, what stands before it is sent.
fn stops_at<R: Threads + Wait + Abort + Sync>(
    rt: &R,
    alloc: Global,
    call: u64,
    line: &str,
) -> Result<(), Fail> {
    let before = COMPLETE.split_once(line).ok_or("no such line")?.0;
    let fails = Fails {
        out: call,
        ..SMOOTH
    };
    let seen = get_whole(rt, alloc, fails)?;
    assert_same(rt, &seen.status, &6, &line);
    assert_same(rt, &seen.printed.as_slice(), &before.as_bytes(), &line);
    assert_same(rt, &seen.letters.len(), &6, &line);
    Ok(())
}

#[test]
fn stops_at_a_line_that_the_sink_refuses(rt: HostRuntime) -> Result<(), Fail> {
    let alloc = rt.alloc();
    stops_at(&rt, alloc, 1, "file")?;
    stops_at(&rt, alloc, 2, "parts")?;
    stops_at(&rt, alloc, 3, "peer")?;
    stops_at(&rt, alloc, 4, "complete")
}

/// For these words a status and a text come, and nothing outside is called.
fn calls_nothing(
    rt: &impl Abort,
    alloc: Global,
    texts: &[&str],
    status: u8,
    printed: &str,
) -> Result<(), Fail> {
    let seen = seen_of_get(alloc, texts, Vec::new(alloc))?;
    assert_same(rt, &seen.status, &status, &texts);
    assert_same(rt, &seen.printed.as_slice(), &printed.as_bytes(), &texts);
    assert_same(rt, &seen.letters.len(), &0, &texts);
    assert_same(rt, &seen.calls, &0, &texts);
    assert!(rt; seen.sent.is_none());
    Ok(())
}

#[test]
fn calls_nothing_for_words_that_it_cannot_read(rt: HostRuntime) -> Result<(), Fail> {
    const ROWS: [&[&str]; 7] = [
        &[],
        &["link", LINK],
        &["get", LINK, "p"],
        &["get", LINK, "", FROM],
        &["get", LINK, "p", FROM, FROM],
        &["get", LINK, "p", "--from=127.0.0.1:0"],
        &["get", LINK, "p", "--from=127.0.0.256:1"],
    ];
    for texts in ROWS {
        calls_nothing(&rt, rt.alloc(), texts, 1, USAGE)?;
    }
    Ok(())
}

#[test]
fn calls_nothing_for_links_that_it_cannot_read(rt: HostRuntime) -> Result<(), Fail> {
    let alloc = rt.alloc();
    let size = "link BadSize\n";
    calls_nothing(&rt, alloc, &["get", EMPTY, "p", FROM], 2, size)?;
    calls_nothing(&rt, alloc, &["get", FROM, TOO_LARGE, "p"], 2, size)?;
    calls_nothing(&rt, alloc, &["get", UNENDED, FROM, "p"], 2, "link BadEnd\n")
}
