//! What no clause says: exact bytes, what a person types, and names in two encodings.
ghost use Rattle.std.specs.Prelude.{◌≡◌, ◌≤◌, length, IfOk};

mod typed_rows;

use super::*;
use ed2k_outside::Bytes;
use std::alloc::Global;
use std::process::Abort;
use std::test::Fail;

/// a and-not b, and a size of at least 3.
const ROW: [u8; 21] = [
    0, 0, 0, 2, 1, 1, 0, 0x61, 1, 1, 0, 0x62, 3, 3, 0, 0, 0, 1, 1, 0, 2,
];

/// A file of this name, size and kind, each text of at most 65,535 bytes.
fn row(alloc: Global, name: &[u8], size: u64, kind: &[u8]) -> Result<FileRow, Fail>
    requires name { length name.now ≤ 65535 }
    requires kind { length kind.now ≤ 65535 }
{
    let name = Bytes::new(Vec::from_slice(alloc, name)?);
    let kind = Bytes::new(Vec::from_slice(alloc, kind)?);
    Ok(FileRow {
        hash: [0; 16],
        name,
        size,
        kind,
    })
}

/// The bytes of an expression.
fn written(alloc: Global, expr: &Expr) -> Result<Bytes, Fail> {
    if !texts_fit(expr) {
        return Err("a text is too long".into());
    }
    Ok(write_expr(alloc, expr)?)
}

#[test]
fn goes_there_and_back(rt: HostRuntime) -> Result<(), Fail> {
    let (expr, place) = read_expr(rt.alloc(), &ROW)?;
    assert_eq!(rt; place, ROW.len());
    let again = written(rt.alloc(), &expr)?;
    assert_eq!(rt; again.as_slice(), &ROW[..]);
    Ok(())
}

#[test]
fn writes_an_operator_in_one_way(rt: HostRuntime) -> Result<(), Fail> {
    let mut other = ROW;
    other[17] = 3;
    let (expr, _) = read_expr(rt.alloc(), &other)?;
    let again = written(rt.alloc(), &expr)?;
    assert_eq!(rt; again.as_slice(), &ROW[..]);
    Ok(())
}

#[test]
fn matches_a_row(rt: HostRuntime) -> Result<(), Fail> {
    let (expr, _) = read_expr(rt.alloc(), &ROW)?;
    assert!(rt; matches(&expr, &row(rt.alloc(), b"A c.txt", 3, b"")?));
    assert!(rt; !matches(&expr, &row(rt.alloc(), b"a b.txt", 3, b"")?));
    assert!(rt; !matches(&expr, &row(rt.alloc(), b"A c.txt", 2, b"")?));
    Ok(())
}

/// Bytes are refused so.
fn is_refused(rt: &(impl Abort + AllocGlobal), bytes: &[u8], fault: ExprFault) {
    assert_eq!(rt;
        read_expr(rt.alloc(), bytes).err(),
        Some(fault),
        "{} bytes",
        bytes.len()
    );
}

#[test]
fn names_the_first_fault(rt: HostRuntime) {
    let mut bad_operator = ROW;
    bad_operator[17] = 0;
    is_refused(&rt, &bad_operator, ExprFault::BadOp(17));
    is_refused(&rt, &ROW[..5], ExprFault::Cut);
    is_refused(&rt, &[], ExprFault::Cut);
    is_refused(&rt, &[4], ExprFault::BadOp(0));
    is_refused(&rt, &[0, 3], ExprFault::BadOp(1));
    is_refused(&rt, &[0; 128], ExprFault::Deep);
    is_refused(&rt, &[0; 65_536], ExprFault::Deep);
}

/// The words of names that are matched, in UTF-8 and in Latin-1.
const NAMES: [(&str, &[u8], bool); 9] = [
    ("bar", b"Foo_BAR.mp3", true),
    ("fo", b"Foo_BAR.mp3", false),
    ("foo-mp3", b"Foo_BAR.mp3", true),
    ("m\u{fc}ller", b"Der M\xc3\xbcller.avi", true),
    ("m\u{dc}ller", b"Der M\xc3\xbcller.avi", false),
    ("m\u{fc}ller", b"Der M\xfcller.avi", false),
    ("ller", b"Der M\xfcller.avi", false),
    ("avi", b"\xc4\xc4.avi\xe9", false),
    ("---", b"", true),
];

#[test]
fn matches_whole_words(rt: HostRuntime) -> Result<(), Fail> {
    for (word, name, wanted) in NAMES {
        is_matched(&rt, word.as_bytes(), name, wanted)?;
    }
    is_matched(&rt, b"m\xfcller", b"Der M\xfcller.avi", true)
}

/// Whether a name has each word of a text.
fn is_matched(
    rt: &(impl Abort + AllocGlobal),
    text: &[u8],
    name: &[u8],
    wanted: bool,
) -> Result<(), Fail> {
    let expr = Expr::Word(Bytes::new(Vec::from_slice(rt.alloc(), text)?));
    let found = matches_file(&expr, name, 1, b"");
    assert_eq!(rt; found, wanted, "{text:?} in {name:?}");
    Ok(())
}

#[test]
fn compares_the_kind_but_for_case(rt: HostRuntime) -> Result<(), Fail> {
    let audio = parse_words(rt.alloc(), "type=AUDIO")?;
    assert!(rt; matches(&audio, &row(rt.alloc(), b"a", 1, b"Audio")?));
    assert!(rt; !matches(&audio, &row(rt.alloc(), b"a", 1, b"Audio ")?));
    assert!(rt; !matches(&audio, &row(rt.alloc(), b"audio", 1, b"")?));
    Ok(())
}
