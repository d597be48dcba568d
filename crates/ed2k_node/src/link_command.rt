//! `link LINK`: the canonical form of a link.
ghost use Rattle.std.specs.Prelude.{◌≡◌, IfOk, MatchResult};
ghost use Rattle.ed2k_link.specs.Printed.{printed};
ghost use Rattle.ed2k_node.specs.Answers.{IsCanonical, IsFaultOf, IsFormAnswer};
ghost use Rattle.ed2k_node.specs.Texts.{line};

use crate::answer::{Reply, line};
use ed2k_link::{FileLink, LinkFault, parse_link, print_link};
use ed2k_outside::{Bytes, NoMemory};
use std::alloc::Global;

/// The line with the canonical form of a link.
fn print_line(alloc: Global, link: &FileLink) -> Result<Bytes, NoMemory>
    ensures { IfOk result (λ text. text ≡ line (printed link.now)) }
{
    line(print_link(alloc, link)?)
}

/// The line with the canonical form of a word.
fn canonical_line(alloc: Global, word: &str) -> Result<Bytes, LinkFault>
    ensures { MatchResult result (IsCanonical word.now) (IsFaultOf word.now) }
{
    let link = parse_link(alloc, word)?;
    match print_line(alloc, &link) {
        Ok(text) => Ok(text),
        Err(NoMemory) => Err(LinkFault::NoMemory),
    }
}

/// The answer to `link LINK`.
pub(crate) fn canonical(alloc: Global, word: &str) -> Reply
    ensures { IsFormAnswer word.now result }
{
    match canonical_line(alloc, word) {
        Ok(text) => Reply::Line(text),
        Err(LinkFault::NoMemory) => Reply::NoMemory,
        Err(fault) => Reply::Refused(fault),
    }
}
