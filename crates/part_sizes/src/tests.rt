//! Sizes around the ends of parts and blocks.

use super::{
    Bits, Hashes, Pair, Pairs, Roots, SIZE_LIMIT, Span, Spans, block_count, block_of, block_range,
    data_parts, hash_count, part_count, part_of, part_range,
};
use std::test::Fail;

#[test]
fn sizes(rt: HostRuntime) {
    // The size, its data parts, hashes and status bits, the bytes of the last part and its blocks.
    let rows: [(u64, u16, u16, u16, u64, u16); 10] = [
        (1, 1, 0, 1, 1, 1),
        (184_320, 1, 0, 1, 184_320, 1),
        (184_321, 1, 0, 1, 184_321, 2),
        (9_727_999, 1, 0, 1, 9_727_999, 53),
        (9_728_000, 1, 2, 2, 9_728_000, 53),
        (9_728_001, 2, 2, 2, 1, 1),
        (20_000_000, 3, 3, 3, 544_000, 3),
        (734_003_200, 76, 76, 76, 4_403_200, 24),
        (4_290_047_999, 441, 441, 441, 9_727_999, 53),
        (4_290_048_000, 441, 442, 442, 9_728_000, 53),
    ];
    for (size, data, hashes, counted, last, blocks) in rows {
        assert!(rt; size >= 1 && size <= SIZE_LIMIT);
        assert_eq!(rt; data_parts(size), data, "{size}");
        assert_eq!(rt; hash_count(size), hashes, "{size}");
        assert_eq!(rt; part_count(size), counted, "{size}");
        let part = part_of(size, size - 1);
        assert_eq!(rt; part + 1, data, "{size}");
        assert_eq!(rt; part_range(size, part).len(), last, "{size}");
        assert_eq!(rt; block_count(size, part), blocks, "{size}");
        let block = block_of(size, size - 1);
        assert_eq!(rt; block_range(size, part, block).e, size, "{size}");
    }
}

#[test]
fn spans(rt: HostRuntime) {
    let span = Span { s: 3, e: 5 };
    assert!(rt; span.has(3) && span.has(4));
    assert!(rt; !span.has(2) && !span.has(5));
    assert_eq!(rt; span.len(), 2);
    assert!(rt; !span.is_empty());
    assert!(rt; Span { s: 5, e: 5 }.is_empty());
}

#[test]
fn lists(rt: HostRuntime) -> Result<(), Fail> {
    let alloc = rt.alloc();
    let hashes = Hashes::new(vec![in alloc; [7; 16]]?);
    assert!(rt; hashes.as_slice() == [[7; 16]].as_slice());
    let roots = Roots::new(vec![in alloc; [9; 20]]?);
    assert_eq!(rt; roots.into_vec().len(), 1);
    let bits = Bits::new(vec![in alloc; true, false]?);
    assert_eq!(rt; bits.len(), 2);
    let spans = Spans::new(Vec::new(alloc));
    assert!(rt; spans.is_empty());
    let pair = Pair {
        part: 1,
        digest: [2; 16],
    };
    let pairs = Pairs::new(vec![in alloc; pair]?);
    assert!(rt; pairs.as_slice() == [pair].as_slice());
    Ok(())
}
