//! What holds of a session with a peer that serves the file. The function is there for its clause alone.

ghost use Rattle.peer_fetch.specs.Serves.{ServedIsWhole};

/// A session that begins, over a new store that nobody else uses and a stream that serves the file, ends with
/// the whole file, unless it was stopped from outside. However it ended, the body has the file's byte at each
/// filled position.
pub fn a_served_file_is_whole()
    ensures { ServedIsWhole }
{}
