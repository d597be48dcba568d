//! What holds of each expression, for the proofs of callers. Each function is there for its clause alone.
ghost use Rattle.search_expr.specs.Laws.{ReadIsSpelled, ReadIsWithin, SpelledIsRead, WrittenIsSpelled};
ghost use Rattle.search_expr.specs.Needs.{NeedsAll, NeedsKeys, NeedsOne};

/// A file that is asked for has each word that the expression needs.
pub fn needs_all()
    ensures { NeedsAll }
{}

/// A file that is asked for has each word of one of the sides.
pub fn needs_one()
    ensures { NeedsOne }
{}

/// What is spelled within the limits is read, whatever follows.
pub fn spelled_is_read()
    ensures { SpelledIsRead }
{}

/// What is written is a spelling where each text fits the length before it. So within the limits it is read
/// again.
pub fn written_is_spelled()
    ensures { WrittenIsSpelled }
{}

/// What is read is within the limits.
pub fn read_is_within()
    ensures { ReadIsWithin }
{}

/// Whatever number stands for a word, a file that is asked for has a word for each number that the expression
/// needs.
pub fn needs_keys()
    ensures { NeedsKeys }
{}

/// What is read is spelled so, each byte of it.
pub fn read_is_spelled()
    ensures { ReadIsSpelled }
{}
