//! What holds of each stream, for the proofs of callers. Each function is there for its clause alone.

ghost use Rattle.std.specs.Prelude.{◌≡◌};
ghost use Rattle.ed2k_frame.specs.declared.frame.TheConstants.{EDONKEY, EMULE, PACKED, FRAME_LIMIT};
ghost use Rattle.ed2k_frame.specs.Laws.{EachStreamHasParts, GivenComesFirst, KeepSplits, NoFrameBeginsAnother, PartsAreOne};

/// No frame's spelling begins another's.
pub fn no_frame_begins_another()
    ensures { NoFrameBeginsAnother }
{}

/// Each stream is whole frames, and then less than a whole one, or a fault in a frame's place.
pub fn each_stream_has_parts()
    ensures { EachStreamHasParts }
{}

/// No stream is so in two ways: which frames it has, what follows them, and whether that is a fault, is
/// determined by its bytes.
pub fn parts_are_one()
    ensures { PartsAreOne }
{}

/// What has been given so far, with a rest behind it, is a front of the frames of all that was fed.
pub fn given_comes_first()
    ensures { GivenComesFirst }
{}

/// What a caller keeps through its calls of `feed` and `next`: all that was fed is what was given, and
/// then the rest that the reader holds.
pub fn calls_keep_splits()
    ensures { KeepSplits }
{}

/// The numbers that the definitions take from the constants: the protocols are 0xE3, 0xC5 and, packed,
/// 0xD4, and a frame has at most 2,000,000 bytes behind its length.
pub fn numbers_are_the_networks()
    ensures edonkey { EDONKEY ≡ 227 }
    ensures emule { EMULE ≡ 197 }
    ensures packed { PACKED ≡ 212 }
    ensures limit { FRAME_LIMIT ≡ 2000000 }
{}
