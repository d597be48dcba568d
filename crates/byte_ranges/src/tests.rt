//! Edits and questions in one run.
ghost use Rattle.std.specs.Prelude.{◌≡◌};

use super::Ranges;
use part_sizes::Span;
use std::test::Fail;

fn span(s: u64, e: u64) -> Span
    ensures { result ≡ record { s = s; e = e } }
{
    Span { s, e }
}

#[test]
fn edits(rt: HostRuntime) -> Result<(), Fail> {
    let mut ranges = Ranges::new(rt.alloc(), 100);
    assert_eq!(rt; ranges.count(), 0);
    assert_eq!(rt; ranges.first_out(span(0, 100)), Some(0));
    assert!(rt; ranges.covers(span(7, 7)) && !ranges.meets(span(7, 7)));

    ranges.reserve(5)?;
    ranges.add(span(10, 20));
    ranges.add(span(30, 40));
    ranges.add(span(20, 25));
    assert_eq!(rt; ranges.count(), 25);
    assert!(rt; ranges.covers(span(10, 25)) && !ranges.covers(span(10, 26)));
    assert!(rt; ranges.meets(span(24, 26)) && !ranges.meets(span(25, 30)));
    assert_eq!(rt; ranges.first_out(span(12, 40)), Some(25));

    ranges.add(span(24, 35));
    assert_eq!(rt; ranges.first_out(span(10, 100)), Some(40));
    assert_eq!(rt; ranges.first_out(span(10, 40)), None);

    ranges.take(span(15, 16));
    assert_eq!(rt; ranges.first_out(span(10, 40)), Some(15));
    assert_eq!(rt; ranges.count(), 29);
    assert_eq!(rt; ranges.first_in(span(0, 12)), Some(10));
    assert_eq!(rt; ranges.first_in(span(15, 30)), Some(16));
    assert_eq!(rt; ranges.first_in(span(40, 100)), None);
    let left = [span(10, 15), span(16, 40)];
    assert!(rt; ranges.spans()?.as_slice() == left.as_slice());

    ranges.clear();
    assert_eq!(rt; ranges.count(), 0);
    assert!(rt; ranges.spans()?.is_empty());
    Ok(())
}
