//! Each adapter over what it stands for.

use crate::blobs::FileBlobs;
use crate::clock::SystemClock;
use crate::console::{Console, Reader};
use crate::help::Asked;
use crate::net::TcpNet;
use crate::open_files::{Purpose, folder_of};
use crate::output::StandardOutput;
use crate::progress::Progress;
use crate::reason::Reason;
use crate::size_limit::require_allowed;
use crate::sizes::{Size, Span};
use crate::test_same::{assert_same, assert_that};
use crate::time_limits::TimeLimits;
use crate::vault::FileVault;
use ed2k_outside::{Blob, Blobs, Clock, Sink, Vault, Which};
use std::io::ErrorKind;
use std::test::Fail;
use std::time::{Duration, SystemTime, UNIX_EPOCH};
use std::{fs, io};

#[test]
fn a_vault_keeps_two_files(rt: HostRuntime) -> Result<(), Fail> {
    let console = Console::new(&rt, Reader::Script);
    let mut vault = FileVault::new(&console, Purpose::Download);
    assert_that(&rt, vault.len(Which::Body).is_err(), "no place was named");
    assert_that(&rt, vault.place("missing/place").is_err(), "no such folder");
    vault.place("kept")?;
    vault.set_len(Which::Body, 5)?;
    vault.write_at(Which::Body, 1, b"abc")?;
    vault.sync(Which::Body)?;
    assert_same(&rt, &vault.len(Which::Body)?, &5, "body");
    assert_same(&rt, &vault.len(Which::Log)?, &0, "log");
    let mut buf = [9u8; 8];
    assert_same(
        &rt,
        &vault.read(Which::Body, 0, &mut buf)?,
        &5,
        "bytes read",
    );
    assert_same(&rt, &buf, &[0, b'a', b'b', b'c', 0, 9, 9, 9], "buffer");
    assert_that(
        &rt,
        vault.read(Which::Body, 5, &mut buf).is_err(),
        "nothing stands there",
    );
    assert_same(&rt, &fs::read(&rt, "kept.body")?.len(), &5, "file");
    assert_same(&rt, &vault.calls(), &10, "calls");
    Ok(())
}

#[test]
fn writes_and_lengths_reach_the_right_file(rt: HostRuntime) -> Result<(), Fail> {
    let console = Console::new(&rt, Reader::Script);
    let mut vault = FileVault::new(&console, Purpose::Download);
    vault.place("pair")?;
    vault.write_at(Which::Log, 0, b"one")?;
    vault.write_at(Which::Body, 0, b"abcdef")?;
    vault.write_at(Which::Body, 6, b"gh")?;
    vault.write_at(Which::Body, 2, b"CD")?;
    vault.sync(Which::Log)?;
    vault.sync(Which::Body)?;
    assert_same(
        &rt,
        &fs::read_to_string(&rt, "pair.body")?.as_str(),
        &"abCDefgh",
        "body",
    );
    assert_same(
        &rt,
        &fs::read_to_string(&rt, "pair.log")?.as_str(),
        &"one",
        "log",
    );
    vault.set_len(Which::Body, 3)?;
    vault.set_len(Which::Log, 5)?;
    assert_same(
        &rt,
        &fs::read_to_string(&rt, "pair.body")?.as_str(),
        &"abC",
        "shorter body",
    );
    assert_same(
        &rt,
        &fs::read_to_string(&rt, "pair.log")?.as_str(),
        &"one\0\0",
        "longer log",
    );
    assert_that(
        &rt,
        vault.write_at(Which::Body, u64::MAX, b"ab").is_err(),
        "past all numbers",
    );
    assert_that(
        &rt,
        vault.write_at(Which::Body, 1 << 63, b"ab").is_err(),
        "past what a file may have",
    );
    Ok(())
}

#[test]
fn a_place_has_one_run(rt: HostRuntime) -> Result<(), Fail> {
    let console = Console::new(&rt, Reader::Script);
    let mut first = FileVault::new(&console, Purpose::Download);
    first.place("locked")?;
    let mut second = FileVault::new(&console, Purpose::Download);
    assert_that(&rt, second.place("locked").is_err(), "another run has it");
    let mut reader = FileVault::new(&console, Purpose::Check);
    assert_that(&rt, reader.place("locked").is_err(), "that one writes");
    drop(first);
    reader.place("locked")?;
    let mut other_reader = FileVault::new(&console, Purpose::Check);
    other_reader.place("locked")?;
    assert_that(&rt, second.place("locked").is_err(), "others read it");
    drop(reader);
    drop(other_reader);
    second.place("locked")?;
    Ok(())
}

#[test]
fn a_place_that_fails_leaves_nothing(rt: HostRuntime) -> Result<(), Fail> {
    let console = Console::new(&rt, Reader::Script);
    let mut vault = FileVault::new(&console, Purpose::Download);
    fs::create_dir(&rt, "bad.log")?;
    assert_that(&rt, vault.place("bad").is_err(), "a folder is no log");
    assert_that(&rt, !fs::exists(&rt, "bad.body")?, "no body is left");
    fs::create_dir(&rt, "worse.body")?;
    assert_that(&rt, vault.place("worse").is_err(), "a folder is no body");
    assert_that(&rt, !fs::exists(&rt, "worse.log")?, "no log is left");
    let mut reader = FileVault::new(&console, Purpose::Check);
    assert_that(
        &rt,
        reader.place("absent").is_err(),
        "a check makes no files",
    );
    assert_that(&rt, !fs::exists(&rt, "absent.log")?, "no file is left");
    Ok(())
}

#[test]
fn a_place_lies_in_a_folder(rt: HostRuntime) {
    assert_same(&rt, &folder_of("place"), &".", "here");
    assert_same(&rt, &folder_of("/place"), &"/", "root");
    assert_same(&rt, &folder_of("a/b/place"), &"a/b", "two folders");
    assert_same(&rt, &folder_of("a//"), &"a/", "two slashes");
}

#[test]
fn a_blob_is_a_file(rt: HostRuntime) -> Result<(), Fail> {
    fs::write(&rt, "some.blob", "abc")?;
    let console = Console::new(&rt, Reader::Script);
    let mut blobs = FileBlobs::new(&console);
    assert_that(&rt, blobs.fetch("missing.blob").is_err(), "no such file");
    assert_that(&rt, blobs.fetch(".").is_err(), "a folder");
    assert_that(&rt, blobs.fetch("/dev/zero").is_err(), "a device");
    let mut blob = blobs.fetch("some.blob")?;
    assert_same(&rt, &blob.len()?, &3, "length");
    let mut buf = [0u8; 8];
    assert_same(&rt, &blob.read(1, &mut buf)?, &2, "bytes read");
    assert_that(&rt, buf.starts_with(b"bc"), "buffer");
    assert_that(&rt, blob.read(3, &mut buf).is_err(), "the end");
    blobs.close(blob);
    Ok(())
}

#[test]
fn output_takes_what_is_written(rt: HostRuntime) -> Result<(), Fail> {
    let console = Console::new(&rt, Reader::Script);
    let mut out = StandardOutput::new(&console, false);
    assert_same(&rt, &out.write(b"abc\n")?, &4, "bytes written");
    let mut lost = StandardOutput::new(&console, true);
    assert_that(&rt, lost.write(b"abc\n").is_err(), "it was closed");
    Ok(())
}

#[test]
fn the_clock_counts_seconds(rt: HostRuntime) -> Result<(), Fail> {
    let mut clock = SystemClock::new(&rt);
    let before = SystemTime::now(&rt)?.duration_since(UNIX_EPOCH)?.as_secs();
    let told = clock.seconds();
    let after = SystemTime::now(&rt)?.duration_since(UNIX_EPOCH)?.as_secs();
    assert_that(
        &rt,
        before <= told && told <= after,
        "it is the system's time",
    );
    assert_that(&rt, told > 1_577_836_800, "2020 is past");
    Ok(())
}

#[test]
fn a_reason_has_no_number(rt: HostRuntime) -> Result<(), Fail> {
    let full = Reason::of(&io::Error::from_raw_os_error(28));
    assert_same(
        &rt,
        &full.to_string(rt.alloc())?.as_str(),
        &"No space left on device",
        "the system's",
    );
    let own = Reason::of(&io::Error::new(ErrorKind::Other, "not a regular file"));
    assert_same(
        &rt,
        &own.to_string(rt.alloc())?.as_str(),
        &"not a regular file",
        "the program's",
    );
    Ok(())
}

#[test]
fn sizes_and_spans_are_read_by_a_person(rt: HostRuntime) -> Result<(), Fail> {
    for (bytes, want) in [
        (0, "0 B"),
        (1_023, "1023 B"),
        (1_024, "1.0 KiB"),
        (1_048_575, "1023.9 KiB"),
        (30_000_000, "28.6 MiB"),
        (1 << 30, "1.0 GiB"),
        (u64::MAX, "17179869183.9 GiB"),
    ] {
        assert_same(
            &rt,
            &Size(bytes).to_string(rt.alloc())?.as_str(),
            &want,
            want,
        );
    }
    for (seconds, want) in [
        (0, "0 s"),
        (59, "59 s"),
        (60, "1 min 0 s"),
        (3_599, "59 min 59 s"),
        (7_260, "2 h 1 min"),
    ] {
        assert_same(
            &rt,
            &Span(seconds).to_string(rt.alloc())?.as_str(),
            &want,
            want,
        );
    }
    Ok(())
}

#[test]
fn a_line_of_progress_tells_what_is_left(rt: HostRuntime) -> Result<(), Fail> {
    let console = Console::new(&rt, Reader::Person);
    let mut progress = Progress::new();
    progress.advance(&console, 1 << 20);
    let line = progress.line(Duration::from_secs(2));
    assert_same(
        &rt,
        &line.to_string(rt.alloc())?.as_str(),
        &"1.0 MiB, 512.0 KiB/s",
        "of no known total",
    );
    progress.set_total(6 << 20);
    let line = progress.line(Duration::from_secs(2));
    assert_same(
        &rt,
        &line.to_string(rt.alloc())?.as_str(),
        &"1.0 MiB of 6.0 MiB, 512.0 KiB/s, 10 s left",
        "of a total",
    );
    Ok(())
}

#[test]
fn a_file_has_a_greatest_size(rt: HostRuntime) {
    assert_that(&rt, require_allowed(0).is_ok(), "an empty file");
}

#[test]
fn words_ask_for_help(rt: HostRuntime) -> Result<(), Fail> {
    let mut words = Vec::new(rt.alloc());
    assert_same(&rt, &Asked::by(&words), &Some(Asked::Help), "no words");
    words.push(String::from_str(rt.alloc(), "--version")?)?;
    assert_same(&rt, &Asked::by(&words), &Some(Asked::Version), "one word");
    words.push(String::from_str(rt.alloc(), "--help")?)?;
    assert_same(&rt, &Asked::by(&words), &None, "two words");
    Ok(())
}

fn may_cross<T: Send>(_value: &T) {}

#[test]
fn adapters_cross_threads(rt: HostRuntime) -> Result<(), Fail> {
    fs::write(&rt, "crossing.blob", "abc")?;
    let console = Console::new(&rt, Reader::Script);
    may_cross(&TcpNet::new(&console, TimeLimits::standard()));
    may_cross(&FileVault::new(&console, Purpose::Download));
    let mut blobs = FileBlobs::new(&console);
    may_cross(&blobs.fetch("crossing.blob")?);
    Ok(())
}
