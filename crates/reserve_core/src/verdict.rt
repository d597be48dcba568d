//! Verdicts, and the hash set that they are measured by.
ghost use Rattle.std.specs.Prelude.{◌≡◌};
ghost use Rattle.reserve_core.specs.Tells.{set_in};

use crate::event::Event;
use part_hashset::Hash;

/// What a digest says of a part.
#[derive(Clone, Copy, Debug, PartialEq, Eq)]
pub enum Verdict {
    /// It is the expected digest.
    Verified,
    /// It is another one.
    Failed,
}

/// The hash set that an event keeps.
pub fn set_in(event: &Event) -> &[Hash]
    ensures { result.now ≡ set_in event.now }
{
    match event {
        Event::Opened(opened) => opened.set.as_slice(),
        Event::Hashes(set) => set.as_slice(),
        _ => &[],
    }
}
