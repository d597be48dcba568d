//! The calls of an object in memory, counted, and which of them fail.
ghost use Rattle.std.specs.Prelude.{◌≡◌, ◌↔◌, IsTrue};

/// The number of the last call, from 1, and the numbers of the calls that fail.
#[derive(Debug, Drop)]
pub(crate) struct Script {
    made: u64,
    fails: Vec<u64>,
}

impl Script {
    ghost use Rattle.ed2k_outside.specs.Scripts.{next_call, failing_calls, IsNextFailing, IsUnused};

    pub(crate) fn new(fails: Vec<u64>) -> Self
        ensures { IsUnused result fails.items }
    {
        Script { made: 0, fails }
    }

    /// The number of the last call.
    pub(crate) fn made(&self) -> u64
        ensures { result ≡ self.now.made }
    {
        self.made
    }

    /// Counts a call, and answers whether it is to fail.
    pub(crate) fn fails_next(&mut self) -> bool
        ensures listed { IsTrue result ↔ IsNextFailing self.old }
        ensures fails { failing_calls self.new ≡ failing_calls self.old }
        ensures made { self.new.made ≡ next_call self.old }
    {
        self.made = self.made.saturating_add(1);
        self.fails.contains(&self.made)
    }
}
