//! The rows of RFC 1320, and bytes that come in pieces.

use crate::{Md4, md4};
use std::test::Fail;

// The test suite of RFC 1320 (A.5).
const DIGESTS: [(&str, u128); 7] = [
    ("", 0x31d6cfe0d16ae931b73c59d7e0c089c0),
    ("a", 0xbde52cb31de33e46245e05fbdbd6fb24),
    ("abc", 0xa448017aaf21d8525fc10ae87aa6729d),
    ("message digest", 0xd9130a8164549fe818874806e1c7014b),
    (
        "abcdefghijklmnopqrstuvwxyz",
        0xd79e1c308aa5bbcdeea8ed63df412da9,
    ),
    (
        "ABCDEFGHIJKLMNOPQRSTUVWXYZabcdefghijklmnopqrstuvwxyz0123456789",
        0x043f8582f241db351ce627e153e7f0e4,
    ),
    (
        "12345678901234567890123456789012345678901234567890123456789012345678901234567890",
        0xe33b4ddc9c38f2199c3e7b164fcc0536,
    ),
];

#[test]
fn known_digests(rt: HostRuntime) {
    for (text, digest) in &DIGESTS {
        assert_eq!(rt;
            u128::from_be_bytes(md4(text.as_bytes())),
            *digest,
            "of {text:?}"
        );
    }
}

// So many letters `a`, which end just before, at and behind the place of the length field and the end of a
// block, as another implementation hashes them.
const DIGESTS_BY_LENGTH: [(usize, u128); 8] = [
    (55, 0xc889c81dd86c4d2e025778944ea02881),
    (56, 0xd5f9a9e9257077a5f08b0b92f348b0ad),
    (57, 0x872097e6f78e3b53f890459d03bc6fb7),
    (63, 0x7ea3da77432d44c323671097d1348fc8),
    (64, 0x52f5076fabd22680234a3fa9f9dc5732),
    (65, 0x330e377bf231f3cacfecc2c182fe7e5b),
    (119, 0xe65dd227ccef97fa1d34d70189120f76),
    (128, 0xcb4a20a561558e29460190c91dced59f),
];

#[test]
fn known_digests_at_the_borders_of_blocks(rt: HostRuntime) -> Result<(), Fail> {
    for (len, digest) in DIGESTS_BY_LENGTH {
        let text = vec![in rt.alloc(); b'a'; len]?;
        assert_eq!(rt; u128::from_be_bytes(md4(&text)), digest, "of {len} letters");
    }
    Ok(())
}

#[test]
fn cut_anywhere(rt: HostRuntime) {
    let text = b"12345678901234567890123456789012345678901234567890123456789012345678901234567890";
    for cut in 0..text.len() + 1 {
        let (front, back) = text.split_at(cut);
        let mut hasher = Md4::new();
        hasher.update(front);
        hasher.update(back);
        let digest = u128::from_be_bytes(hasher.finalize());
        assert_eq!(rt; digest, 0xe33b4ddc9c38f2199c3e7b164fcc0536, "cut at {cut}");
    }
}
