//! The words of a command line.
ghost use Rattle.std.specs.Prelude.{◌≡◌, [], ◌∷◌};
ghost use Rattle.ed2k_node.specs.Words.{is_option, octet_of, port_of, host_of, address_of, peer_of};
ghost use Rattle.ed2k_node.specs.Words.{asks_of, download_of, get_of, texts, IsRead};

use crate::text::{cut_at, number_in};
use ed2k_link::strip_prefix;
use ed2k_outside::Addr;

/// The words `get LINK PLACE` with one `--from=A.B.C.D:PORT`, which may stand anywhere after the
/// command.
#[derive(Clone, Copy)]
pub(crate) struct Get<'a> {
    pub(crate) link: &'a str,
    pub(crate) place: &'a str,
    pub(crate) from: Addr,
}

/// Tells whether a word is an option.
pub(crate) fn is_option_word(word: &str) -> bool
    ensures { result ≡ is_option word.now }
{
    word.as_bytes().starts_with(b"--")
}

fn octet(text: &[u8]) -> Option<u8>
    ensures { result ≡ octet_of text.now }
{
    match number_in(text, 0, 255) {
        Some(n) => Some(n as u8),
        None => None,
    }
}

fn port(text: &[u8]) -> Option<u16>
    ensures { result ≡ port_of text.now }
{
    match number_in(text, 1, 65_535) {
        Some(n) => Some(n as u16),
        None => None,
    }
}

/// Reads `A.B.C.D`.
fn host(text: &[u8]) -> Option<[u8; 4]>
    ensures { result ≡ host_of text.now }
{
    let (a, bcd) = cut_at(text, b'.')?;
    let (b, cd) = cut_at(bcd, b'.')?;
    let (c, d) = cut_at(cd, b'.')?;
    Some([octet(a)?, octet(b)?, octet(c)?, octet(d)?])
}

/// Reads `A.B.C.D:PORT`.
fn address(text: &[u8]) -> Option<Addr>
    ensures { result ≡ address_of text.now }
{
    let (host_text, port_text) = cut_at(text, b':')?;
    let ip = host(host_text)?;
    let port = port(port_text)?;
    Some(Addr { ip, port })
}

/// Reads `--from=A.B.C.D:PORT`.
fn peer(word: &str) -> Option<Addr>
    ensures { result ≡ peer_of word.now }
{
    address(strip_prefix(word.as_bytes(), b"--from=")?)
}

/// Takes a link, a place that isn't empty, and the option of one peer.
fn download<'a>(link: &'a str, place: &'a str, option: &str) -> Option<Get<'a>>
    ensures { IsRead result (download_of (link.now ∷ place.now ∷ []) (option.now ∷ [])) }
{
    if place.is_empty() {
        return None;
    }
    match peer(option) {
        Some(from) => Some(Get { link, place, from }),
        None => None,
    }
}

/// Sorts three words, of which one has to be an option.
fn sort_words<'a>(first: &'a str, second: &'a str, third: &'a str) -> Option<Get<'a>>
    ensures { IsRead result (asks_of (first.now ∷ second.now ∷ third.now ∷ [])) }
{
    match (
        is_option_word(first),
        is_option_word(second),
        is_option_word(third),
    ) {
        (true, false, false) => download(second, third, first),
        (false, true, false) => download(first, third, second),
        (false, false, true) => download(first, second, third),
        _ => None,
    }
}

/// Reads the words after the command.
fn parse_download(words: &[String]) -> Option<Get<'_>>
    ensures { IsRead result (asks_of (texts words.now)) }
{
    match words {
        [first, second, third] => sort_words(first.as_str(), second.as_str(), third.as_str()),
        _ => None,
    }
}

/// Reads the words of a `get`. `None` exactly where they aren't of its form.
pub(crate) fn parse_get(words: &[String]) -> Option<Get<'_>>
    ensures { IsRead result (get_of (texts words.now)) }
{
    match words {
        [command, others @ ..] if command.as_str() == "get" => parse_download(others),
        _ => None,
    }
}
