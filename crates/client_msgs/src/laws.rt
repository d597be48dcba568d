//! What holds of each message, for the proofs of callers. Each function is there for its clause alone.

ghost use Rattle.client_msgs.specs.Laws.{WrittenIsRead};

/// What is written of a message is read as the message again, but for a rank above 65,535, which is read as
/// 65,535.
pub fn written_is_read()
    ensures { WrittenIsRead }
{}
