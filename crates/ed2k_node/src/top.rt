//! The top call: words in, a status out.
ghost use Rattle.std.specs.Prelude.{◌↔◌, IsSome, IsTrue};
ghost use Rattle.ed2k_node.specs.Got.{AnswersGet};
ghost use Rattle.ed2k_node.specs.Plainly.{AnswersOthers};
ghost use Rattle.ed2k_node.specs.Words.{get_of, texts};

use crate::get::run_one;
use crate::hands::{Ended, Hands};
use crate::plain::run_plain;
use crate::words::parse_get;
use ed2k_outside::{Blobs, Clock, Net, Sink, Vault};
use std::alloc::Global;
use std::sync::Wait;
use std::thread::Threads;

/// Tells whether the words are those of a `get`.
fn is_get(words: &[String]) -> bool
    ensures { IsTrue result ↔ IsSome (get_of (texts words.now)) }
{
    parse_get(words).is_some()
}

/// All that the program does: runs the words of the command line over what it was handed.
///
/// The words of a `get` run as by `run_one`, and all others as by `run_plain`; their clauses are
/// kept. The handle of the threads isn't used yet: a run has one thread.
pub fn run<R: Threads + Wait + Sync, N: Net, V: Vault + Drop, B: Blobs, O: Sink, C: Clock>(
    _rt: &R,
    alloc: Global,
    words: &[String],
    hands: Hands<N, V, B, O, C>,
) -> Ended<N, V, B, O, C>
    ensures get { AnswersGet N.Wire.Wire N.Net V.Vault O.Sink (texts words.now) hands result }
    ensures plain { AnswersOthers B.Blobs O.Sink (texts words.now) hands result }
{
    if is_get(words) {
        run_one(alloc, words, hands)
    } else {
        run_plain(alloc, words, hands)
    }
}
