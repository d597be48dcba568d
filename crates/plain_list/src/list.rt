//! The list.
ghost use Rattle.std.specs.Prelude.{◌≡◌, ℕ, ◌↔◌, List as ListOf, [], length, IsTrue};

use std::marker::Model;

/// A list of values. Contracts see the list alone; it is made from a `Vec` and gives it back, and neither
/// takes memory.
#[derive(Debug, Drop)]
pub struct List<T> {
    items: Vec<T>,
}

impl<T> Model for List<T> {
    ghost Value = { ListOf T };

    ghost view = { λ list. list.items.items };
}

impl<T> List<T> {
    /// The values of a `Vec`, in its order.
    pub fn new(items: Vec<T>) -> Self
        ensures { result ≡ items.items }
    {
        List { items }
    }

    /// Gives the `Vec` back.
    pub fn into_vec(self) -> Vec<T>
        ensures { result.items ≡ self }
    {
        self.items
    }

    /// The values as a slice.
    pub fn as_slice(&self) -> &[T]
        ensures { result.now ≡ self.now }
    {
        self.items.as_slice()
    }

    /// The number of values.
    pub fn len(&self) -> usize
        ensures { result ≡ length self.now }
    {
        self.items.len()
    }

    /// True exactly where there is no value.
    pub fn is_empty(&self) -> bool
        ensures { IsTrue result ↔ (self.now ≡ []) }
    {
        self.items.is_empty()
    }
}
