//! What holds of each talk, for the proofs of callers. Each function is there for its clause alone.

ghost use Rattle.peer_fetch.specs.Fetches.{TalkStands, TalksJoin};
ghost use Rattle.peer_fetch.specs.Moves.{SpentNeeds};
ghost use Rattle.peer_fetch.specs.Within.{SpentExactly};

/// A talk over a log is one over a longer log that has no more of the peer's own events.
pub fn talk_stands()
    ensures { TalkStands }
{}

/// A talk that ended because nothing was left to reserve, and the one that goes on with it, are one talk,
/// also where others added to the log between them.
pub fn talks_join()
    ensures { TalksJoin }
{}

/// Where a message is due, the session stops with `Spent` only where what may be read is used up; and there
/// it does, unless the wire failed before all of that was read, or memory was wanted.
pub fn spent_exactly()
    ensures { SpentExactly }
{}

/// A session that nothing was taken for ends with `Spent` only where as many bytes as the budget were ahead.
pub fn spent_needs()
    ensures { SpentNeeds }
{}
