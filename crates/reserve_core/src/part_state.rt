//! What is kept of each part.
ghost use Rattle.std.specs.Prelude.{◌≡◌, ℕ, ◌<◌, length, slice_index_or};
ghost use Rattle.reserve_core.specs.PartStates.{after_commit, after_drop, after_verdict, after_write, counted};
ghost use Rattle.reserve_core.specs.declared.part_state.PartState.{PartState};

use part_hashset::Hash;

/// What is known of a part beside what is filled of it.
#[derive(Clone, Copy, Debug)]
pub struct PartState {
    /// The digest of its newest verdict, if that still stands.
    pub verdict: Option<Hash>,
    /// It was written into after the last commit.
    pub uncommitted: bool,
    /// How often it failed, up to eight times.
    pub failures: u8,
}

/// All parts are committed.
pub fn commit_all(states: &mut [PartState])
    ensures { (i : ℕ) (d : PartState)
        → i < length states.old
        → slice_index_or states.new i d ≡ after_commit (slice_index_or states.old i d) }
{
    for state in states.iter_mut() {
        state.uncommitted = false;
    }
}

/// A part was written into.
pub fn open_part(states: &mut [PartState], part: usize)
    requires { part < length states.old }
    ensures { (i : ℕ) (d : PartState)
        → i < length states.old
        → slice_index_or states.new i d ≡ after_write part i (slice_index_or states.old i d) }
{
    let state = &mut states[part];
    state.uncommitted = true;
}

/// How often a part failed that is worn.
pub const WORN: u8 = 8;

/// One more failure, or none.
fn counted(failures: u8, failed: bool) -> u8
    ensures { result ≡ counted failed failures }
{
    if failed {
        WORN.min(failures.saturating_add(1))
    } else {
        failures
    }
}

/// A part is judged.
pub fn judge_part(states: &mut [PartState], part: usize, digest: Hash, failed: bool)
    requires { part < length states.old }
    ensures { (i : ℕ) (d : PartState)
        → i < length states.old
        → slice_index_or states.new i d ≡ after_verdict part digest failed i (slice_index_or states.old i d) }
{
    let state = &mut states[part];
    state.verdict = Some(digest);
    state.failures = counted(state.failures, failed);
}

/// The verdict of a part stands no longer.
pub fn clear_part(states: &mut [PartState], part: usize)
    requires { part < length states.old }
    ensures { (i : ℕ) (d : PartState)
        → i < length states.old
        → slice_index_or states.new i d ≡ after_drop part i (slice_index_or states.old i d) }
{
    let state = &mut states[part];
    state.verdict = None;
}
