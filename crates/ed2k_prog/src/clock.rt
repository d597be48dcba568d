//! The system's clock.
ghost use Rattle.std.specs.Prelude.{None};

use ed2k_outside::Clock;
use std::rt;
use std::time::{SystemTime, UNIX_EPOCH};

/// The system's clock: seconds since 1970 began, and 0 where the system tells no time. It tells nothing of
/// what it will answer.
#[derive(Drop)]
pub(crate) struct SystemClock<'a, R> {
    rt: &'a R,
}

impl<'a, R: rt::Clock> SystemClock<'a, R> {
    pub(crate) fn new(rt: &'a R) -> Self {
        SystemClock { rt }
    }
}

impl<R: rt::Clock> Clock for SystemClock<'_, R> {
    ghost ticks = { λ _. None };

    fn seconds(&mut self) -> u64 {
        match SystemTime::now(self.rt) {
            Ok(now) => now
                .duration_since(UNIX_EPOCH)
                .map_or(0, |since| since.as_secs()),
            Err(_) => 0,
        }
    }
}
