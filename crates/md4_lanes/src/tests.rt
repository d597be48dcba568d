//! Four messages side by side beside each for itself.

use super::{update_beside_sha1, update_four};
use md4_hash::Md4;

// A digest in two words, as digits are read: sixteen bytes and the last four.
fn digits(hash: [u8; 20]) -> (u128, u32) {
    let [a, b, c, d, e, f, g, h, i, j, k, l, m, n, o, p, q, r, s, t] = hash;
    (
        u128::from_be_bytes([a, b, c, d, e, f, g, h, i, j, k, l, m, n, o, p]),
        u32::from_be_bytes([q, r, s, t]),
    )
}

// The values are another implementation's.

#[test]
fn four_messages_side_by_side(rt: HostRuntime) {
    let (mut h0, mut h1, mut h2, mut h3) = (Md4::new(), Md4::new(), Md4::new(), Md4::new());
    update_four(
        &mut h0, &mut h1, &mut h2, &mut h3, &[97; 64], &[98; 64], &[99; 64], &[100; 64],
    );
    assert_eq!(rt;
        u128::from_be_bytes(h0.finalize()),
        0x52f5076fabd22680234a3fa9f9dc5732
    );
    assert_eq!(rt;
        u128::from_be_bytes(h1.finalize()),
        0x324881c653e1de11cd26e25a9889a338
    );
    assert_eq!(rt;
        u128::from_be_bytes(h2.finalize()),
        0xe2863898108832324ef8bdae6f7e29e8
    );
    assert_eq!(rt;
        u128::from_be_bytes(h3.finalize()),
        0x34184278f7257fef8cd9da575bc5802b
    );
}

#[test]
fn one_message_beside_four(rt: HostRuntime) {
    let mut md4 = Md4::new();
    let [first, second, third, fourth] = update_beside_sha1(
        &mut md4,
        &[101; 256],
        &[97; 64],
        &[98; 64],
        &[99; 64],
        &[100; 64],
    );
    assert_eq!(rt;
        u128::from_be_bytes(md4.finalize()),
        0x097712184917591b2ce0b1fca6c35d42
    );
    assert_eq!(rt;
        digits(first),
        (0x0098ba824b5c16427bd7a1122a5a442a, 0x25ec644d)
    );
    assert_eq!(rt;
        digits(second),
        (0x9d682ff9a7018603023176b8c12926c6, 0xa15510ee)
    );
    assert_eq!(rt;
        digits(third),
        (0xb29fcb5f41614b4ec81c87e4614ffe8b, 0x9ace1d4e)
    );
    assert_eq!(rt;
        digits(fourth),
        (0x7d4f9b6d084894fb8640dc55aab16ad0, 0xe021e4c8)
    );
}
