//! Bytes that only proofs read: what a hasher was fed, or the name that a vault was told.
#![tactic(auto)]

ghost use Rattle.std.specs.Prelude.{◌≡◌, ℕ, List, [], ◌++◌};
ghost use Rattle.std.specs.Borrow.{ftrue};

use std::marker::Model;

/// Bytes noted for proofs alone. A `Noted` takes no memory, and its methods do nothing when they run.
#[derive(Debug, Drop)]
pub struct Noted {
    pub ghost bytes: { List ℕ },
}

impl Model for Noted {
    ghost also_owns = { λ _. ftrue };
}

// It owns nothing.
unsafe impl Send for Noted {}

impl Noted {
    /// No bytes yet.
    pub fn new() -> Noted
        ensures { result.bytes ≡ [] }
    {
        Noted {}
    }

    /// Notes a piece behind the bytes so far.
    pub fn note(&mut self, _piece: &[u8])
        ensures { self.new.bytes ≡ self.old.bytes ++ _piece.now }
    {}

    /// Notes the bytes of another behind the bytes so far.
    pub fn append(&mut self, _other: &Noted)
        ensures { self.new.bytes ≡ self.old.bytes ++ _other.now.bytes }
    {}
}
