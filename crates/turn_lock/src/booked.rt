//! What a lock asks of the value that it passes round.
ghost use Rattle.std.specs.Prelude.{◌≡◌, ℕ, List, length};

/// A value that a lock can pass round. Contracts see three meanings of it.
pub trait Booked {
    /// An entry of the log.
    type Entry;

    /// What a row is made of.
    type Item;

    /// Numbers that never change.
    ghost birth: { Self → List ℕ };

    /// What was done with the value, in order.
    ghost log: { Self → List Self.Entry };

    /// What the value says of a pass's number. A number of which it says nothing has the empty row.
    ghost rows: { Self → ℕ → List Self.Item };

    /// The length of the log. It takes no memory.
    fn booked(&self) -> u64
        ensures { result ≡ length (log self.now) };
}
