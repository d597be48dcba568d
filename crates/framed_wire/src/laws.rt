//! What holds of every reader, for the proofs of callers. Each function is there for its clause alone.

ghost use Rattle.framed_wire.specs.Laws.{CallsGoOn, GivenComesFirst, StopsEnd};

/// What was given so far are the whole frames of the bytes taken, whichever calls were made.
pub fn calls_go_on()
    ensures { CallsGoOn }
{}

/// What was given so far is a front of the frames of all that may be taken.
pub fn given_comes_first()
    ensures { GivenComesFirst }
{}

/// A stop of the bytes comes exactly where they have no further frame: `BadFrame` where a fault follows, and
/// else `Spent` where there are as many bytes as the budget, and `Ended` where there are fewer.
pub fn stops_end()
    ensures { StopsEnd }
{}
