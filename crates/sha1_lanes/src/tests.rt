//! Four messages side by side beside each for itself.

use super::digests;

// A digest in two words, as digits are read: sixteen bytes and the last four.
fn digits(hash: [u8; 20]) -> (u128, u32) {
    let [a, b, c, d, e, f, g, h, i, j, k, l, m, n, o, p, q, r, s, t] = hash;
    (
        u128::from_be_bytes([a, b, c, d, e, f, g, h, i, j, k, l, m, n, o, p]),
        u32::from_be_bytes([q, r, s, t]),
    )
}

#[test]
fn digests_of_two_blocks(rt: HostRuntime) {
    // By another implementation.
    let [first, second, third, fourth] = digests(&[97; 128], &[98; 128], &[99; 128], &[100; 128]);
    assert_eq!(rt;
        digits(first),
        (0xad5b3fdbcb526778c2839d2f151ea753, 0x995e26a0)
    );
    assert_eq!(rt;
        digits(second),
        (0x6d2f0f9b0a20e4f5be2cbed5cf3fd59b, 0x97c4bc4e)
    );
    assert_eq!(rt;
        digits(third),
        (0xeea5cd304fb8ebe3b434a06b2be809c6, 0x21c9622d)
    );
    assert_eq!(rt;
        digits(fourth),
        (0xacb9dd4fdb4f4a08814caea9e97210eb, 0xaecbd300)
    );
}
