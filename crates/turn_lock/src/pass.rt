//! The right to take turns.
ghost use Rattle.std.specs.Prelude.{◌≡◌, Some, false};
ghost use Rattle.turn_lock.specs.Views.{first_number, is_spent};

use crate::booked::Booked;
use crate::known::Known;
use atomic_table::Seat;

/// The right to take turns at one lock. It has a number of its own, and knows how much of the log it
/// has seen. A pass that is dropped while it has the turn stops the lock for good.
#[derive(Drop)]
pub struct Pass<T: Booked> {
    /// The pass's seat at the lock's table, and what the pass knows.
    pub seat: Seat<Option<T>, Known<T, T::Entry, T::Item>>,
    /// The pass's number, which no other pass of the lock has.
    pub number: u64,
    ghost numbered: { first_number seat.me.0.owned ≡ Some number },
    ghost live: { is_spent seat.me.0.stage ≡ false },
}

impl<T: Booked> Pass<T> {
    /// The pass's number, which no other pass of the lock has.
    pub fn number(&self) -> u64
        ensures { result ≡ self.now.number }
    {
        self.number
    }
}
