//! What holds of every book. The functions are there for their clauses alone.

ghost use Rattle.upload_queue.specs.Laws.{NextHasRankOne, NextIsAlone};

/// At a second one number at most is the next.
pub fn one_alone_is_the_next()
    ensures { NextIsAlone }
{}

/// The next is the number with rank 1.
pub fn the_next_has_rank_one()
    ensures { NextHasRankOne }
{}
