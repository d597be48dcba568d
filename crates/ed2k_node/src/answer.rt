//! What a run answers to the words, and how it is printed.
ghost use Rattle.std.specs.Prelude.{◌≡◌, ◌≢◌, IfOk};
ghost use Rattle.ed2k_outside.specs.Causes.{HasCause};
ghost use Rattle.ed2k_node.specs.Answers.{status_of, line_of, Prints};
ghost use Rattle.ed2k_node.specs.Got.{IsUncalled};
ghost use Rattle.ed2k_node.specs.Left.{IsNeverShared};
ghost use Rattle.ed2k_node.specs.Sent.{HasSent};
ghost use Rattle.ed2k_node.specs.Texts.{line, refusal};

use crate::hands::{Ended, Hands};
use ed2k_link::LinkFault;
use ed2k_outside::{Bytes, Failed, NoMemory, Sink};
use framed_wire::send_all;
use std::alloc::Global;

/// The status of a run whose output failed.
pub(crate) const OUTPUT: u8 = 6;

/// What a run answers.
#[derive(Debug, Drop)]
pub(crate) enum Reply {
    /// The line of a link.
    Line(Bytes),
    /// The words aren't those of a command.
    Usage,
    /// The link is refused, or the size of the file.
    Refused(LinkFault),
    /// Memory was wanted and refused.
    NoMemory,
    /// A blob failed.
    Blob,
}

impl Reply {
    /// The number that the program ends with where the line is printed.
    fn status(&self) -> u8
        ensures status { result ≡ status_of self.now }
        ensures other { result ≢ OUTPUT }
    {
        match self {
            Reply::Line(_) => 0,
            Reply::Usage => 1,
            Reply::Refused(_) => 2,
            Reply::NoMemory => 5,
            Reply::Blob => 11,
        }
    }

    /// The line that is printed, with its line feed; nothing where memory was refused.
    fn line(&self) -> &[u8]
        ensures { result.now ≡ line_of self.now }
    {
        match self {
            Reply::Line(text) => text.as_slice(),
            Reply::Usage => {
                b"usage: ed2k_node get|check|hash|link|sources|look|serve|share|rehearse\n".as_slice()
            }
            Reply::Refused(fault) => refusal_line(*fault),
            Reply::NoMemory => b"".as_slice(),
            Reply::Blob => b"blob\n".as_slice(),
        }
    }
}

/// The line that names the fault of a link.
fn refusal_line(fault: LinkFault) -> &'static [u8]
    ensures { result.now ≡ line (refusal fault) }
{
    match fault {
        LinkFault::NotFile => b"link NotFile\n".as_slice(),
        LinkFault::BadName => b"link BadName\n".as_slice(),
        LinkFault::BadSize => b"link BadSize\n".as_slice(),
        LinkFault::BadHash => b"link BadHash\n".as_slice(),
        LinkFault::BadParts => b"link BadParts\n".as_slice(),
        LinkFault::BadRoot => b"link BadRoot\n".as_slice(),
        LinkFault::BadEnd => b"link BadEnd\n".as_slice(),
        LinkFault::NoMemory => b"link NoMemory\n".as_slice(),
    }
}

/// A text with its line feed.
pub(crate) fn line(text: Bytes) -> Result<Bytes, NoMemory>
    ensures { IfOk result (λ bytes. bytes ≡ line text) }
{
    let mut bytes = text.into_vec();
    bytes.push(b'\n')?;
    Ok(Bytes::new(bytes))
}

/// Sends bytes. Where that fails, some of them from their front may have been sent.
pub(crate) fn send<O: Sink>(out: &mut O, bytes: &[u8]) -> Result<(), Failed>
    ensures sent { HasSent result (O.sent out.old) (O.sent out.new) bytes.now }
    ensures cause { HasCause (O.write_faults out.old) (O.write_faults out.new) result }
{
    send_all(out, bytes)
}

/// Prints the line of an answer, and tells the status that the program ends with: the answer's, or
/// 6 where the sink failed.
pub(crate) fn report<O: Sink>(out: &mut O, answer: &Reply) -> u8
    ensures prints { Prints O.Sink answer.now result out.old out.new }
{
    match send(out, answer.line()) {
        Ok(()) => answer.status(),
        Err(_) => OUTPUT,
    }
}

/// Prints the line of an answer, and ends with its status, or with 6 where the sink failed.
pub(crate) fn end<N, V, B, O: Sink, C>(
    alloc: Global,
    hands: Hands<N, V, B, O, C>,
    answer: &Reply,
) -> Ended<N, V, B, O, C>
    ensures prints { Prints O.Sink answer.now result.status hands.out result.hands.out }
    ensures uncalled { IsUncalled hands result }
    ensures shared { IsNeverShared result.log.items }
{
    let mut hands = hands;
    let status = report(&mut hands.out, answer);
    Ended {
        status,
        hands,
        log: Vec::new(alloc),
        peers: Vec::new(alloc),
    }
}
