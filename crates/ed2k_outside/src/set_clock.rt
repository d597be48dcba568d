//! A clock whose seconds were given.
ghost use Rattle.std.specs.Prelude.{◌≡◌, Some};

use crate::Clock;

/// A clock that answers the seconds that it was given, the last one again and again, and 0 where it was
/// given none.
#[derive(Debug, Drop)]
pub struct SetClock {
    seconds: Vec<u64>,
    next: usize,
}

impl SetClock {
    ghost use Rattle.ed2k_outside.specs.SetClocks.{clock_ticks};

    /// A clock of these seconds. It takes no memory.
    pub fn new(seconds: Vec<u64>) -> Self
        ensures { clock_ticks result ≡ seconds.items }
    {
        SetClock { seconds, next: 0 }
    }
}

impl Clock for SetClock {
    ghost use Rattle.ed2k_outside.specs.SetClocks.{clock_ticks};

    ghost ticks = { λ clock. Some (clock_ticks clock) };

    fn seconds(&mut self) -> u64 {
        match &self.seconds[self.next.min(self.seconds.len())..] {
            [] => 0,
            [last] => *last,
            [second, ..] => {
                let second = *second;
                self.next += 1;
                second
            }
        }
    }
}
