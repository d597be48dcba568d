//! What a pass knows, for proofs alone.

use std::collections::LinkedList;

/// Where a pass stands.
pub enum Stage<T> {
    /// It has no ticket.
    Idle,
    /// It has this ticket, and waits for its turn.
    Waits(u64),
    /// It is the turn of its ticket, and it has the value, which was this when it was lifted.
    Holds(u64, T),
    /// It has laid the value back, and calls the next ticket.
    Calls(u64),
    /// It was taken in by another pass.
    Spent,
}

/// What a pass knows. No value of it is made.
pub struct Known<T, E, I> {
    /// Where the pass stands.
    pub stage: Stage<T>,
    /// The birth of the value that the lock was made with.
    pub birth: LinkedList<u64>,
    /// The value that the lock was made with, except where the pass was taken in by another.
    pub start: Option<T>,
    /// The log as it was last seen.
    pub seen: LinkedList<E>,
    /// What the pass that was last taken in had seen.
    pub told: LinkedList<E>,
    /// The pass's number with its row, and behind it the numbers and rows that it took in.
    pub owned: LinkedList<(u64, LinkedList<I>)>,
}
