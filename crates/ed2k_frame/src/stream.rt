//! All frames of a stream at once.
ghost use Rattle.std.specs.Prelude.{◌≡◌, ◌≢◌, List, ℕ, None, Some, IfErr, IfOk, OnOk};
ghost use Rattle.std.specs.List.{concat};
ghost use Rattle.ed2k_frame.specs.declared.frame.Frame.{Frame};
ghost use Rattle.ed2k_frame.specs.Streams.{Parts, Splits};

use crate::fault::FrameFault;
use crate::frame::Frame;
use crate::reader::FrameReader;
use ed2k_outside::Bytes;
use std::alloc::Global;

/// All frames of a stream that comes in these pieces. They depend on the joined bytes alone, however these
/// were cut. What is less than a frame at the end is ignored. Where a fault stands behind the whole frames,
/// it is the answer in their place.
pub fn read_frames(alloc: Global, pieces: &[Bytes]) -> Result<Vec<Frame>, FrameFault>
    ensures frames { IfOk result (λ frames. (rest : List ℕ) ×
        Parts (concat pieces.now) frames.items (record { rest = rest; said = None })) }
    ensures fault { IfErr result (λ fault. fault ≢ FrameFault.NoMemory → (frames : List Frame) × (rest : List ℕ) ×
        Parts (concat pieces.now) frames (record { rest = rest; said = Some fault })) }
{
    let mut reader = FrameReader::new(alloc);
    let mut frames = Vec::new(alloc);
    for piece in pieces {
        reader.feed(piece.as_slice())?;
        take_frames(&mut reader, &mut frames)?;
    }
    Ok(frames)
}

/// Adds each frame that the reader has whole.
fn take_frames(reader: &mut FrameReader, frames: &mut Vec<Frame>) -> Result<(), FrameFault>
    requires { reader.old.said ≡ None }
    ensures taken { OnOk result ((stream : List ℕ) → Splits stream frames.old.items reader.old.rest →
        Parts stream frames.new.items reader.new) }
    ensures unsaid { OnOk result (reader.new.said ≡ None) }
    ensures fault { IfErr result (λ fault. fault ≢ FrameFault.NoMemory → (stream : List ℕ) → Splits stream frames.old.items reader.old.rest →
        Parts stream frames.new.items (record { rest = reader.new.rest; said = Some fault })) }
{
    while let Some(frame) = reader.next()? {
        frames.push(frame)?;
    }
    Ok(())
}
