//! The numbers that wait for a slot, in the order in which they came.

ghost use Rattle.std.specs.Prelude.{◌≡◌, ◌==◌, ◌++◌, ◌∷◌, [], not, find, filter, OnOk, OnErr, option_copied};

use ed2k_outside::NoMemory;

/// The hash by which a user is known.
pub type Hash = [u8; 16];

/// A number that waits.
#[derive(Clone, Copy, Debug)]
pub struct Waiting {
    /// The number of its session.
    pub number: u64,
    /// Whose credit counts.
    pub user: Hash,
    /// The second of its first ask.
    pub since: u64,
}

/// The entry of a number, where it waits.
pub fn find(waiting: &[Waiting], number: u64) -> Option<Waiting>
    ensures { result ≡ find (λ entry. entry.number == number) waiting.now }
{
    waiting.iter().copied().find(|entry| entry.number == number)
}

/// Adds an entry behind the others.
pub fn enter(waiting: &mut Vec<Waiting>, entry: Waiting) -> Result<(), NoMemory>
    ensures ok { OnOk result (waiting.new.items ≡ waiting.old.items ++ entry ∷ []) }
    ensures refused { OnErr result (waiting.new.items ≡ waiting.old.items) }
{
    waiting.push(entry)?;
    Ok(())
}

/// Takes the entry of a number out.
pub fn leave(waiting: &mut Vec<Waiting>, number: u64)
    ensures { waiting.new.items ≡ filter (λ entry. not (entry.number == number)) waiting.old.items }
{
    waiting.retain(|entry| entry.number != number);
}
