//! The ranges of one peer.

ghost use Rattle.std.specs.Prelude.{◌≡◌, ℕ, ◌<◌, ◌≤◌, ◌++◌, [], ◌&&◌, ◌==◌, nat_le, length, map, slice_index_or, is_ok, if◌then◌else◌};
ghost use Rattle.std.specs.List.{filter, list_any};
ghost use Rattle.reserve_core.specs.Held.{hold_after, is_open};
ghost use Rattle.reserve_core.specs.Steps.{past};
ghost use Rattle.reserve_core.specs.declared.hold.Hold.{Hold};

use crate::hold::Hold;
use ed2k_outside::NoMemory;
use part_sizes::Span;

/// True exactly where a range begins with the span and reaches its end.
pub fn reaches(ranges: &[Hold], span: Span) -> bool
    ensures { result ≡ list_any (λ hold. (hold.from == span.s) && nat_le span.e hold.whole.e) ranges.now }
{
    ranges
        .iter()
        .any(|hold| hold.from == span.s && span.e <= hold.whole.e)
}

/// Leaves out the ranges that are empty.
fn leave_open(ranges: &mut Vec<Hold>)
    ensures { ranges.new.items ≡ filter is_open ranges.old.items }
{
    ranges.retain(|hold| hold.from < hold.whole.e);
}

/// Where a range begins once its peer has written a span.
fn reached(hold: &Hold, span: Span) -> u64
    ensures { result ≡ (past span hold.now).from }
{
    if hold.whole.s <= span.s && span.e <= hold.whole.e {
        span.e.max(hold.from)
    } else {
        hold.from
    }
}

/// Moves the start of the ranges that a span lies in which their peer wrote.
fn advance_all(ranges: &mut [Hold], span: Span)
    ensures { (k : ℕ) (d : Hold)
        → k < length ranges.old
        → slice_index_or ranges.new k d ≡ past span (slice_index_or ranges.old k d) }
{
    for hold in ranges.iter_mut() {
        hold.from = reached(hold, span);
    }
}

/// Moves the start of the ranges that a span lies in which their peer wrote, and leaves out those that are
/// empty then.
pub fn advance(ranges: &mut Vec<Hold>, span: Span)
    ensures { ranges.new.items ≡ filter is_open (map (past span) ranges.old.items) }
{
    advance_all(ranges, span);
    leave_open(ranges);
}

/// Adds a range of the peer for each span, or none where memory is refused.
pub fn hold_all(ranges: &mut Vec<Hold>, peer: u64, spans: &[Span]) -> Result<(), NoMemory>
    ensures { ranges.new.items ≡ (if is_ok result then ranges.old.items ++ map (hold_after peer []) spans.now else ranges.old.items) }
{
    ranges.reserve(spans.len())?;
    for span in spans {
        ranges.push_reserved(Hold {
            peer,
            whole: *span,
            from: span.s,
        });
    }
    Ok(())
}
