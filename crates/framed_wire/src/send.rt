//! Bytes sent whole.
ghost use Rattle.std.specs.Prelude.{◌≡◌};
ghost use Rattle.std.specs.Io.{WritesAtMost};
ghost use Rattle.ed2k_outside.specs.Causes.{HasCause, NoneIsFault};
ghost use Rattle.ed2k_outside.specs.Halves.{Sends};
ghost use Rattle.framed_wire.specs.Sending.{SendsFront};

use ed2k_outside::{Failed, Sink};

/// Sends bytes whole, in as many writes as it takes. An `Err` says that a write failed, or took nothing, and
/// then a front of the bytes was sent.
pub fn send_all<S: Sink>(sink: &mut S, bytes: &[u8]) -> Result<(), Failed>
    ensures sent { SendsFront result bytes.now (S.sent sink.old) (S.sent sink.new) }
    ensures cause { HasCause (S.write_faults sink.old) (S.write_faults sink.new) result }
    ensures beside { S.beside_sent sink.new ≡ S.beside_sent sink.old }
{
    let mut rest = bytes;
    'sending: while !rest.is_empty() {
        match sink.write(rest) {
            Ok(n) if n > 0 => rest = &rest[n..],
            _ => return Err(Failed),
        }
    }
    Ok(())
}
