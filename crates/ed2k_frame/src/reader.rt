//! The reader of a stream that comes in pieces.
ghost use Rattle.std.specs.Prelude.{◌≡◌, ◌≢◌, [], ◌++◌, ◌≤◌, length, drop, None, Some, IfOk, IfErr, IfSome, IfNone, OnOk, OnErr};
ghost use Rattle.ed2k_frame.specs.Front.{IsPartial, IsFaultAt, IsFrameAt};

use crate::fault::FrameFault;
use crate::frame::{Frame, UNCOUNTED};
use crate::front::{Front, frame_at, front_of};
use std::alloc::Global;
use std::marker::Model;

/// Reads frames from a stream that comes in pieces. Contracts see the bytes that were fed and not yet
/// given, `rest`, and the fault that was answered, `said`.
#[derive(Debug, Drop)]
pub struct FrameReader {
    /// All before `place` was given.
    buffer: Vec<u8>,
    place: usize,
    said: Option<FrameFault>,
}

impl Model for FrameReader {
    ghost use Rattle.std.specs.Prelude.{◌≤◌, drop, length, IfSome};
    ghost use Rattle.ed2k_frame.specs.Front.{IsFaultAt};
    ghost use Rattle.ed2k_frame.specs.Reading.{Reading};

    ghost Value = { Reading };

    ghost view = { λ r. record { rest = drop r.place r.buffer.items; said = r.said } };

    ghost invariant = { λ r. (r.place ≤ length r.buffer.items) × IfSome r.said (λ fault. IsFaultAt fault (drop r.place r.buffer.items)) };
}

impl FrameReader {
    /// A reader that was fed nothing. It takes no memory.
    pub fn new(alloc: Global) -> Self
        ensures { result ≡ record { rest = []; said = None } }
    {
        FrameReader {
            buffer: Vec::new(alloc),
            place: 0,
            said: None,
        }
    }

    /// Takes the next piece of the stream. After `next` has answered a fault of the bytes, `feed` answers it
    /// too, each time. Else it is refused only for want of memory. An `Err` leaves the reader as it was.
    pub fn feed(&mut self, piece: &[u8]) -> Result<(), FrameFault>
        ensures ok { OnOk result (self.new ≡ record self.old { rest = self.old.rest ++ piece.now }) }
        ensures unsaid { OnOk result (self.old.said ≡ None) }
        ensures again { IfSome self.old.said (λ fault. result ≡ Err fault) }
        ensures fault { IfErr result (λ fault. fault ≢ FrameFault.NoMemory → self.old.said ≡ Some fault) }
        ensures err { OnErr result (self.new ≡ self.old) }
    {
        if let Some(fault) = self.said {
            return Err(fault);
        }
        if self.place > self.buffer.len() / 2 {
            drop_front(&mut self.buffer, self.place);
            self.place = 0;
        }
        self.buffer.extend_from_slice(piece)?;
        Ok(())
    }

    /// The next frame. `None` comes exactly where less than a whole frame is left, and a fault exactly
    /// where it stands in the next frame's place; from then on it is answered again.
    pub fn next(&mut self) -> Result<Option<Frame>, FrameFault>
        ensures frame { IfOk result (λ next. IfSome next (λ frame. IsFrameAt frame self.old.rest self.new.rest)) }
        ensures unsaid { OnOk result ((self.old.said ≡ None) × (self.new.said ≡ None)) }

        // `None`: less than a whole frame is left, and stays.
        ensures none { IfOk result (λ next. IfNone next (IsPartial self.old.rest × (self.new ≡ self.old))) }
        ensures none_exactly { IsPartial self.old.rest → result ≡ Ok None }

        // A fault stands in the next frame's place, and is answered from now on.
        ensures fault { IfErr result (λ fault. fault ≢ FrameFault.NoMemory →
            IsFaultAt fault self.old.rest × (self.new ≡ record self.old { said = Some fault })) }
        ensures fault_exactly { (fault : FrameFault) → IsFaultAt fault self.old.rest → result ≡ Err fault }
        ensures again { IfSome self.old.said (λ fault. result ≡ Err fault) }

        // Memory is wanted for a whole frame alone, which stays.
        ensures memory { result ≡ Err FrameFault.NoMemory → self.new ≡ self.old }
    {
        if let Some(fault) = self.said {
            return Err(fault);
        }
        let rest = &self.buffer[self.place..];
        match front_of(rest) {
            Front::Partial => Ok(None),
            Front::Faulty(fault) => {
                self.said = Some(fault);
                Err(fault)
            }
            Front::Whole(len) => {
                let frame = frame_at(*self.buffer.allocator(), rest, len)?;
                self.place += len as usize + UNCOUNTED;
                Ok(Some(frame))
            }
        }
    }
}

/// Moves the bytes behind the first `n` to the front.
fn drop_front(buffer: &mut Vec<u8>, n: usize)
    requires { n ≤ length buffer.old.items }
    ensures { buffer.new.items ≡ drop n buffer.old.items }
{
    let left = buffer.len() - n;
    buffer.copy_within(n.., 0);
    buffer.truncate(left);
}
