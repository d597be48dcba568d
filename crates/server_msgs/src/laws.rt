//! What holds of each message, for the proofs of callers. Each function is there for its clause alone.
ghost use Rattle.server_msgs.specs.Laws.{AnswerIsRead, RequestIsRead};

/// What is written of a client's message is read as the message again, where an expression in it is within the
/// limits of [`search_expr::read_expr`].
pub fn request_is_read()
    ensures { RequestIsRead }
{
    search_expr::laws::spelled_is_read();
    search_expr::laws::written_is_spelled();
}

/// What is written of a server's message is read as the message again.
pub fn answer_is_read()
    ensures { AnswerIsRead }
{}
