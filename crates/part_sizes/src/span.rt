//! Spans of positions.
ghost use Rattle.std.specs.Prelude.{◌≡◌, ◌-◌};

/// The positions from `s` up to but not including `e`.
#[derive(Clone, Copy, Debug, PartialEq, Eq)]
pub struct Span {
    /// The first position.
    pub s: u64,
    /// The position behind the last.
    pub e: u64,
}

impl Span {
    ghost use Rattle.part_sizes.specs.Span.{has, is_empty};

    /// True exactly where the position lies in the span.
    pub fn has(self, position: u64) -> bool
        ensures { result ≡ has self position }
    {
        self.s <= position && position < self.e
    }

    /// True exactly where the span has no position.
    pub fn is_empty(self) -> bool
        ensures { result ≡ is_empty self }
    {
        self.e <= self.s
    }

    /// The number of positions in the span, 0 where it ends before it begins.
    pub fn len(self) -> u64
        ensures { result ≡ self.e - self.s }
    {
        self.e.saturating_sub(self.s)
    }
}
