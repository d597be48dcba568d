//! What a person types: each text with the fault that it has, or with the bytes of the expression that it makes.

use super::*;

/// Texts that are refused.
const REFUSED: [(&str, WordsFault); 24] = [
    ("", WordsFault::Empty),
    ("   ", WordsFault::Empty),
    ("or", WordsFault::Empty),
    ("not", WordsFault::Empty),
    ("or not or", WordsFault::Empty),
    ("a or", WordsFault::Dangling(2)),
    ("or a", WordsFault::Dangling(0)),
    ("not a", WordsFault::Dangling(0)),
    ("a not", WordsFault::Dangling(2)),
    (" a  or", WordsFault::Dangling(4)),
    ("a or or b", WordsFault::Dangling(2)),
    ("a or not b", WordsFault::Dangling(2)),
    ("a not or b", WordsFault::Dangling(2)),
    ("a b or", WordsFault::Dangling(4)),
    ("or size>=x", WordsFault::Dangling(0)),
    ("size>=x or", WordsFault::Dangling(8)),
    ("size>=", WordsFault::BadNumber(0)),
    ("size<=", WordsFault::BadNumber(0)),
    ("size>=x", WordsFault::BadNumber(0)),
    ("a size<=-1", WordsFault::BadNumber(2)),
    ("size>=4294967296", WordsFault::BadNumber(0)),
    ("size<=99999999999", WordsFault::BadNumber(0)),
    ("size>=00000000001", WordsFault::BadNumber(0)),
    ("a  size>=1 size<=z", WordsFault::BadNumber(11)),
];

/// Texts that make an expression.
const MADE: [(&str, &[u8]); 24] = [
    ("a", b"\x01\x01\0a"),
    ("A", b"\x01\x01\0A"),
    ("a b", b"\0\0\x01\x01\0a\x01\x01\0b"),
    ("a  b c ", b"\0\0\0\0\x01\x01\0a\x01\x01\0b\x01\x01\0c"),
    (" a or b", b"\0\x01\x01\x01\0a\x01\x01\0b"),
    ("a not b", b"\0\x02\x01\x01\0a\x01\x01\0b"),
    ("a or b c", b"\0\0\0\x01\x01\x01\0a\x01\x01\0b\x01\x01\0c"),
    (
        "a b or c not d",
        b"\0\x02\0\x01\0\0\x01\x01\0a\x01\x01\0b\x01\x01\0c\x01\x01\0d",
    ),
    ("OR", b"\x01\x02\0OR"),
    ("Not", b"\x01\x03\0Not"),
    ("or1 not1", b"\0\0\x01\x03\0or1\x01\x04\0not1"),
    ("size>=0", b"\x03\0\0\0\0\x01\x01\0\x02"),
    ("size<=4294967295", b"\x03\xff\xff\xff\xff\x02\x01\0\x02"),
    ("size>=0000000001", b"\x03\x01\0\0\0\x01\x01\0\x02"),
    ("type=", b"\x02\0\0\x01\0\x03"),
    ("type=Audio a", b"\0\0\x02\x05\0Audio\x01\0\x03\x01\x01\0a"),
    ("size=3", b"\x01\x06\0size=3"),
    ("size>3 b", b"\0\0\x01\x06\0size>3\x01\x01\0b"),
    ("Size>=3", b"\x01\x07\0Size>=3"),
    (
        "a not b size>=3",
        b"\0\0\0\x02\x01\x01\0a\x01\x01\0b\x03\x03\0\0\0\x01\x01\0\x02",
    ),
    ("type=or", b"\x02\x02\0or\x01\0\x03"),
    ("na\u{ef}ve.mp3", b"\x01\x0a\0na\xc3\xafve.mp3"),
    ("a-b", b"\x01\x03\0a-b"),
    ("\u{a0}a", b"\x01\x03\0\xc2\xa0a"),
];

#[test]
fn refuses_what_is_typed_wrong(rt: HostRuntime) {
    for (text, fault) in REFUSED {
        assert_eq!(rt; parse_words(rt.alloc(), text).err(), Some(fault), "{text}");
    }
}

#[test]
fn reads_what_is_typed(rt: HostRuntime) -> Result<(), Fail> {
    for (text, bytes) in MADE {
        let expr = parse_words(rt.alloc(), text)?;
        let found = written(rt.alloc(), &expr)?;
        assert_eq!(rt; found.as_slice(), bytes, "{text}");
    }
    Ok(())
}

/// A text of so many terms.
fn terms(alloc: Global, count: usize) -> Result<String, Fail> {
    let mut text = String::new(alloc);
    for _ in 0..count {
        text.push_str("a ")?;
    }
    Ok(text)
}

#[test]
fn takes_64_terms_and_no_more(rt: HostRuntime) -> Result<(), Fail> {
    let most = terms(rt.alloc(), 64)?;
    let expr = parse_words(rt.alloc(), most.as_str())?;
    let bytes = written(rt.alloc(), &expr)?;
    assert!(rt; read_expr(rt.alloc(), bytes.as_slice()).is_ok());
    let more = terms(rt.alloc(), 65)?;
    assert_eq!(rt;
        parse_words(rt.alloc(), more.as_str()).err(),
        Some(WordsFault::Many)
    );
    Ok(())
}
