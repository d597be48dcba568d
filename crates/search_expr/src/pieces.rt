//! The pieces of a typed text.
ghost use Rattle.std.specs.Prelude.{◌≡◌, ◌<◌, ◌≤◌, ◌+◌, ◌∷◌, ◌++◌, [], ℕ, List, length, drop, MatchOption, slice_index, false};
ghost use Rattle.std.specs.List.{slice_range};
ghost use Rattle.search_expr.specs.Typed as typed;

use crate::read::Join;

fn skip(text: &[u8], at: usize) -> usize
    requires { at ≤ length text.now }
    ensures same { typed.pieces_from result text.now ≡ typed.pieces_from at text.now }
    ensures later { at ≤ result }
    ensures within { result ≤ length text.now }
    ensures stops { result < length text.now → (slice_index text.now result ≡ 32 → ⊥) }
{
    let mut place = at;
    while place < text.len() && text[place] == b' ' {
        place += 1;
    }
    place
}

fn piece_end(text: &[u8], at: usize) -> usize
    requires inside { at < length text.now }
    requires piece { slice_index text.now at ≡ 32 → ⊥ }
    ensures pieces { typed.pieces_from at text.now
        ≡ (at, slice_range text.now at result) ∷ typed.pieces_from result text.now }
    ensures later { at < result }
    ensures within { result ≤ length text.now }
{
    let mut end = at + 1;
    while end < text.len() && text[end] != b' ' {
        end += 1;
    }
    end
}

/// Where the next piece from a place on begins and ends.
pub(crate) fn next_piece(text: &[u8], at: usize) -> Option<(usize, usize)>
    requires { at ≤ length text.now }
    ensures { MatchOption result (typed.pieces_from at text.now ≡ []) (typed.IsPiece text.now at) }
{
    let start = skip(text, at);
    if start == text.len() {
        return None;
    }
    Some((start, piece_end(text, start)))
}

/// Whether a piece is a term.
pub(crate) fn is_term(piece: &[u8]) -> bool
    ensures { result ≡ typed.is_term piece.now }
{
    piece != b"or".as_slice() && piece != b"not".as_slice()
}

/// How a piece that isn't a term joins what stands beside it.
pub(crate) fn join_of(piece: &[u8]) -> Join
    ensures { result ≡ typed.join_of piece.now }
{
    if piece == b"or".as_slice() {
        Join::Or
    } else if piece == b"not".as_slice() {
        Join::Not
    } else {
        Join::And
    }
}

/// How many terms a text has.
pub(crate) fn count_terms(text: &[u8]) -> usize
    ensures { result ≡ typed.terms (typed.pieces_from 0 text.now) }
{
    let mut at = 0;
    let mut count = 0;
    while let Some((start, end)) = next_piece(text, at) {
        if is_term(&text[start..end]) {
            count += 1;
        }
        at = end;
    }
    count
}

fn begins_term(text: &[u8], at: usize) -> bool
    requires { at ≤ length text.now }
    ensures { result ≡ typed.begins_term (typed.pieces_from at text.now) }
{
    match next_piece(text, at) {
        Some((start, end)) => is_term(&text[start..end]),
        None => false,
    }
}

/// Where the first `or` or `not` stands that has no term before it or none behind it.
pub(crate) fn find_dangling(text: &[u8]) -> Option<usize>
    ensures { result ≡ typed.dangling false (typed.pieces_from 0 text.now) }
{
    let mut at = 0;
    let mut before = false;
    while let Some((start, end)) = next_piece(text, at) {
        if is_term(&text[start..end]) {
            before = true;
        } else if before && begins_term(text, end) {
            before = false;
        } else {
            return Some(start);
        }
        at = end;
    }
    None
}
