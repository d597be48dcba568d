//! The commands that reach neither the net nor the vault.
ghost use Rattle.ed2k_node.specs.Answers.{IsAnswer};
ghost use Rattle.ed2k_node.specs.Plainly.{IsAnswered};
ghost use Rattle.ed2k_node.specs.Words.{texts};

use crate::answer::{Reply, report};
use crate::commands::{Command, parse_command};
use crate::hands::{Ended, Hands};
use crate::hash_command::hash;
use crate::link_command::canonical;
use ed2k_outside::{Blobs, Clock, Net, Sink, Vault};
use std::alloc::Global;

/// The answer to the words.
fn answer_words<B: Blobs>(alloc: Global, words: &[String], blobs: &mut B) -> Reply
    ensures answer { IsAnswer B.Blobs (texts words.now) blobs.old blobs.new result }
{
    match parse_command(words) {
        None => Reply::Usage,
        Some(Command::Hash(name)) => hash(alloc, blobs, name),
        Some(Command::Link(word)) => canonical(alloc, word),
    }
}

/// Runs `hash NAME` or `link LINK`. All other words are wrong here.
///
/// `hash` reads the blob of the name once, and prints its canonical link, with the root and without
/// part hashes. `link` prints the canonical form of its word. Each text is a line.
///
/// With status 0 the link was printed. Status 1 comes exactly where the words have another form, 2
/// exactly where the link is refused or the blob's length is 0 or above `SIZE_LIMIT`, 11 only where
/// a blob failed or isn't there, and 6, in place of each of these, only where the output failed.
/// With status 5 nothing was printed, and with 6 a part of the line. The blob is given back.
pub fn run_plain<N: Net, V: Vault, B: Blobs, O: Sink, C: Clock>(
    alloc: Global,
    words: &[String],
    hands: Hands<N, V, B, O, C>,
) -> Ended<N, V, B, O, C>
    ensures answered { IsAnswered B.Blobs O.Sink (texts words.now) hands result }
{
    let mut hands = hands;
    let answer = answer_words(alloc, words, &mut hands.blobs);
    let status = report(&mut hands.out, &answer);
    Ended {
        status,
        hands,
        log: Vec::new(alloc),
        peers: Vec::new(alloc),
    }
}
