//! What holds of every legal log, for the proofs of callers. The function is there for its clause alone.
ghost use Rattle.reserve_core.specs.Laws.{NoPositionIsHeldTwice};

/// In every legal log, whatever its peers asked for and in whatever order, no position is held by two
/// peers.
pub fn no_position_is_held_twice()
    ensures { NoPositionIsHeldTwice }
{}
