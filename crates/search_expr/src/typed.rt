//! The expression that a person types.
ghost use Rattle.std.specs.Prelude.{◌≡◌, ◌≢◌, ◌+◌, ◌*◌, ◌≤◌, length, IfOk, IfErr, is_none, false, true, Some, None, nat_lt};
ghost use Rattle.ed2k_tags.specs.Reading.{Gives};
ghost use Rattle.search_expr.specs.Query.{query, depth, nodes};
ghost use Rattle.search_expr.specs.Typed as typed;

use crate::expr::Expr;
use crate::pieces;
use crate::read::{Join, join_of};
use ed2k_outside::Bytes;
use ed2k_tags::fields::copied;
use std::alloc::{AllocError, AllocFailed, Global};
use thiserror::Error;

/// Why no expression is made of what was typed.
#[derive(Clone, Copy, Debug, PartialEq, Eq, Error)]
pub enum WordsFault {
    /// There is no term.
    #[error("nothing to search for")]
    Empty,
    /// The `or` or `not` at this place has no term on one side.
    #[error("no term beside the word at {0}")]
    Dangling(usize),
    /// The term at this place has a bad number.
    #[error("bad number at {0}")]
    BadNumber(usize),
    /// The expression would pass a limit.
    #[error("too many terms")]
    Many,
    /// Memory was wanted and refused.
    #[error("out of memory")]
    NoMemory,
}

impl From<AllocError> for WordsFault {
    ghost use Rattle.std.specs.Prelude.{◌≡◌};
    ghost use Rattle.search_expr.specs.declared.typed.WordsFault.TheVariants.{NoMemory};

    ghost from_gives = { λ _ fault. fault ≡ NoMemory };

    fn from(_refused: AllocError) -> Self {
        WordsFault::NoMemory
    }
}

/// One to ten digits, as a number.
fn number_of(digits: &[u8]) -> Option<u32>
    ensures { result ≡ typed.number_of digits.now }
{
    if digits.len() < 1 || 10 < digits.len() {
        return None;
    }
    digits_of(digits)
}

fn digits_of(digits: &[u8]) -> Option<u32>
    ensures { result ≡ typed.digits_from 0 digits.now }
{
    let mut number = 0;
    for &byte in digits {
        if !byte.is_ascii_digit() {
            return None;
        }
        let next = u64::from(number) * 10 + u64::from(byte - b'0');
        number = match u32::try_from(next) {
            Ok(next) => next,
            Err(_) => return None,
        };
    }
    Some(number)
}

/// Whether a piece has a bad number.
fn is_bad(piece: &[u8]) -> bool
    ensures { result ≡ is_none (typed.term_of piece.now) }
{
    if let Some(digits) = piece.strip_prefix(b"size>=") {
        return number_of(digits).is_none();
    }
    if let Some(digits) = piece.strip_prefix(b"size<=") {
        return number_of(digits).is_none();
    }
    false
}

fn find_bad(text: &[u8]) -> Option<usize>
    ensures { result ≡ typed.bad_number (typed.pieces_from 0 text.now) }
{
    let mut at = 0;
    while let Some((start, end)) = pieces::next_piece(text, at) {
        if is_bad(&text[start..end]) {
            return Some(start);
        }
        at = end;
    }
    None
}

fn sized(alloc: Global, piece: &[u8], number: Option<u32>, most: bool) -> Result<Expr, AllocError>
    ensures { IfOk result (λ expr. query expr ≡ typed.or_word piece.now (typed.sized most number)) }
{
    match number {
        Some(value) => Ok(Expr::Number {
            value,
            most,
            name: copied(alloc, &[2])?,
        }),
        None => Ok(Expr::Word(copied(alloc, piece)?)),
    }
}

/// The term that a piece is.
fn term(alloc: Global, piece: &[u8]) -> Result<Expr, AllocError>
    ensures { IfOk result (λ expr. query expr ≡ typed.term piece.now) }
{
    if let Some(digits) = piece.strip_prefix(b"size>=") {
        return sized(alloc, piece, number_of(digits), false);
    }
    if let Some(digits) = piece.strip_prefix(b"size<=") {
        return sized(alloc, piece, number_of(digits), true);
    }
    if let Some(kind) = piece.strip_prefix(b"type=") {
        let value = copied(alloc, kind)?;
        let name = copied(alloc, &[3])?;
        return Ok(Expr::TagText { value, name });
    }
    Ok(Expr::Word(copied(alloc, piece)?))
}

/// The terms of a text as one expression.
fn build(alloc: Global, text: &[u8]) -> Result<Expr, AllocError>
    ensures { IfOk result (λ expr. query expr ≡ typed.whole (typed.pieces_from 0 text.now)) }
{
    let Some((first, end)) = pieces::next_piece(text, 0) else {
        return Ok(Expr::Word(Bytes::new(Vec::new(alloc))));
    };
    let mut expr = term(alloc, &text[first..end])?;
    let mut join = Join::And;
    let mut at = end;
    while let Some((start, end)) = pieces::next_piece(text, at) {
        let piece = &text[start..end];
        if pieces::is_term(piece) {
            let right = term(alloc, piece)?;
            let both = join_of(alloc, join, expr, right)?;
            expr = both;
            join = Join::And;
        } else {
            join = pieces::join_of(piece);
        }
        at = end;
    }
    Ok(expr)
}

/// The expression that a person types: terms between spaces, which `or` and `not` join with what stands before
/// them, and which are joined by and where they stand side by side, all from left to right. A term is `size>=N`,
/// `size<=N`, `type=T` or any other word; N is one to ten digits below 2^32.
///
/// `Empty` comes exactly where there is no term; else `Dangling` where an `or` or `not` has no term on one side;
/// else `BadNumber` where a term's N is bad; each for the first such place, in bytes. Else `Many` comes exactly
/// where the expression would have more than 512 nodes or 64 levels, which is with the 65th term. `NoMemory` may
/// come in place of any answer but these.
#[tactic(auto, using(crate::proofs::TypedLemmas::whole_great))]
pub fn parse_words(alloc: Global, text: &str) -> Result<Expr, WordsFault>
    ensures { Gives WordsFault.NoMemory query result (typed.parsed (typed.pieces_from 0 text.now)) }
{
    let bytes = text.as_bytes();
    let count = pieces::count_terms(bytes);
    if count == 0 {
        return Err(WordsFault::Empty);
    }
    if let Some(place) = pieces::find_dangling(bytes) {
        return Err(WordsFault::Dangling(place));
    }
    if let Some(place) = find_bad(bytes) {
        return Err(WordsFault::BadNumber(place));
    }
    if 64 < count {
        return Err(WordsFault::Many);
    }
    Ok(build(alloc, bytes)?)
}
