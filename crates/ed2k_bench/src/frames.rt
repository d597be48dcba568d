//! Frames of a file's pieces, and their messages.

use crate::hashes::PIECE;
use client_msgs::{PeerMsg, read_peer, write_peer};
use ed2k_frame::FrameReader;
use ed2k_outside::Bytes;
use std::alloc::Global;

/// The number of bytes of a file in a message.
const PART_BYTES: u32 = 10_240;

/// How many frames are spelled once, and then read again and again.
const FRAMES: usize = 64;

/// A message with a piece of a file.
fn sending_part(alloc: Global) -> anyhow::Result<Bytes> {
    let piece = vec![in alloc; 7u8; PART_BYTES as usize]?;
    let msg = PeerMsg::SendingPart {
        hash: [0; 16],
        start: 0,
        end: PART_BYTES,
        piece: Bytes::new(piece),
    };
    Ok(write_peer(alloc, &msg)?)
}

/// A stream of frames of a file's pieces.
fn stream(alloc: Global) -> anyhow::Result<Vec<u8>> {
    let frame = sending_part(alloc)?;
    let mut stream = Vec::new(alloc);
    for _ in 0..FRAMES {
        stream.extend_from_slice(frame.as_slice())?;
    }
    Ok(stream)
}

/// What a reader gave.
#[derive(Drop)]
struct Given {
    reader: FrameReader,
    /// Whether the messages of the frames are read too.
    opens: bool,
    count: u64,
    bytes: u64,
}

impl Given {
    fn nothing(alloc: Global, opens: bool) -> Self {
        Given {
            reader: FrameReader::new(alloc),
            opens,
            count: 0,
            bytes: 0,
        }
    }

    /// Feeds a piece, and takes the frames that are whole then.
    fn take(&mut self, alloc: Global, piece: &[u8]) -> anyhow::Result<()> {
        self.reader.feed(piece)?;
        'frames: while let Some(frame) = self.reader.next()? {
            let mut len = frame.payload.len();
            if self.opens {
                if let PeerMsg::SendingPart { piece, .. } = read_peer(alloc, &frame)? {
                    len = piece.len();
                }
            }
            self.count = self.count.wrapping_add(1);
            self.bytes = self.bytes.wrapping_add(len as u64);
        }
        Ok(())
    }
}

/// Feeds about `size` bytes of frames in pieces, to be read as frames alone, or also as messages.
fn read(alloc: Global, size: u64, opens: bool) -> anyhow::Result<(u64, u64)> {
    let stream = stream(alloc)?;
    let mut given = Given::nothing(alloc, opens);
    let mut left = size;
    'streams: while left > 0 && !stream.is_empty() {
        let n = left.min(stream.len() as u64);
        for piece in stream[..n as usize].chunks(PIECE) {
            given.take(alloc, piece)?;
        }
        left -= n;
    }
    Ok((given.count, given.bytes))
}

/// How many frames there were in about `size` bytes of them, and bytes of payload.
pub(crate) fn read_frames(alloc: Global, size: u64) -> anyhow::Result<(u64, u64)> {
    read(alloc, size, false)
}

/// How many messages there were in about `size` bytes of frames, and bytes of a file in them.
pub(crate) fn read_messages(alloc: Global, size: u64) -> anyhow::Result<(u64, u64)> {
    read(alloc, size, true)
}
