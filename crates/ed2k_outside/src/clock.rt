//! A clock.
ghost use Rattle.std.specs.Prelude.{List, ℕ};
ghost use Rattle.std.specs.declared.option.Option.{Option};
ghost use Rattle.ed2k_outside.specs.Causes.{IfKnown};
ghost use Rattle.ed2k_outside.specs.Clocks.{Ticks};

/// A clock. It can't fail.
pub trait Clock {
    /// The seconds that further calls answer, of which the last stays, where the clock tells them.
    ghost ticks: { Self → Option (List ℕ) };

    /// The time now, in seconds from a moment that stays the same.
    fn seconds(&mut self) -> u64
        ensures { IfKnown (Ticks result) (ticks self.old) (ticks self.new) };
}
