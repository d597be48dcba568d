//! The words of the commands that reach neither the net nor the vault.
ghost use Rattle.std.specs.Prelude.{◌≡◌, [], ◌∷◌, IfSome};
ghost use Rattle.ed2k_node.specs.Commands.{is_blob_name, asked_of, HasName, IsCommand};
ghost use Rattle.ed2k_node.specs.Words.{texts};

use crate::words::is_option_word;
use ed2k_link::NAME_LIMIT;

/// A command and its one word.
#[derive(Clone, Copy)]
pub(crate) enum Command<'a> {
    /// `hash NAME`: the link of the blob of this name.
    Hash(&'a str),
    /// `link LINK`: the canonical form of this link.
    Link(&'a str),
}

/// Tells whether a word is plain and has 1 to `NAME_LIMIT` bytes.
fn is_blob_name(word: &str) -> bool
    ensures { result ≡ is_blob_name word.now }
{
    let option = is_option_word(word);
    !word.is_empty() && word.len() <= NAME_LIMIT && !option
}

/// Reads a command and its word.
fn command_of<'a>(command: &str, word: &'a str) -> Option<Command<'a>>
    ensures asked { IsCommand result (asked_of (command.now ∷ word.now ∷ [])) }
    ensures named { IfSome result HasName }
{
    if command == "hash" && is_blob_name(word) {
        Some(Command::Hash(word))
    } else if command == "link" && !is_option_word(word) {
        Some(Command::Link(word))
    } else {
        None
    }
}

/// Reads the words of such a command. `None` exactly where they aren't of its form.
pub(crate) fn parse_command(words: &[String]) -> Option<Command<'_>>
    ensures asked { IsCommand result (asked_of (texts words.now)) }
    ensures named { IfSome result HasName }
{
    match words {
        [command, word] => command_of(command.as_str(), word.as_str()),
        _ => None,
    }
}
