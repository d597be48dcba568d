//! The order of small lists of counts.

use super::order;
use std::test::Fail;

#[test]
fn orders(rt: HostRuntime) -> Result<(), Fail> {
    let cases: [(&[u64], &[u16]); 4] = [
        (&[], &[]),
        (&[7], &[0]),
        (&[2, 1, 3, 1, 0, 2], &[4, 1, 3, 0, 5, 2]),
        (&[u64::MAX, 0, u64::MAX, 0], &[1, 3, 0, 2]),
    ];
    for (counts, parts) in cases {
        assert!(rt; order(rt.alloc(), counts)?.as_slice() == parts);
    }
    Ok(())
}
