//! Whether a file matches, without memory.
ghost use Rattle.std.specs.Prelude.{◌≡◌};
ghost use Rattle.search_expr.specs.Meets.{is_named, meets, meets_text, meets_number, file_of};
ghost use Rattle.search_expr.specs.Query.{query};

use crate::expr::{Expr, FileRow};
use crate::words::{has_words, same_text};

/// What a tag name of one byte is.
fn is_named(name: &[u8], byte: u8) -> bool
    ensures { result ≡ is_named name.now byte }
{
    name == [byte].as_slice()
}

fn matches_text(value: &[u8], tag: &[u8], name: &[u8], kind: &[u8]) -> bool
    ensures { result ≡ meets_text value.now tag.now name.now kind.now }
{
    if is_named(tag, 1) {
        has_words(value, name)
    } else {
        is_named(tag, 3) && same_text(value, kind)
    }
}

fn matches_number(value: u32, most: bool, tag: &[u8], size: u64) -> bool
    ensures { result ≡ meets_number value most tag.now size }
{
    if !is_named(tag, 2) {
        false
    } else if most {
        size <= u64::from(value)
    } else {
        u64::from(value) <= size
    }
}

/// Whether a file with this name, size and kind matches: see [`matches`].
pub fn matches_file(expr: &Expr, name: &[u8], size: u64, kind: &[u8]) -> bool
    ensures { result ≡ meets (query expr.now) (record { name = name.now; size = size; kind = kind.now }) }
{
    match expr {
        Expr::And(left, right) => {
            matches_file(left, name, size, kind) && matches_file(right, name, size, kind)
        }
        Expr::Or(left, right) => {
            matches_file(left, name, size, kind) || matches_file(right, name, size, kind)
        }
        Expr::Not(left, right) => {
            matches_file(left, name, size, kind) && !matches_file(right, name, size, kind)
        }
        Expr::Word(text) => has_words(text.as_slice(), name),
        Expr::TagText { value, name: tag } => {
            matches_text(value.as_slice(), tag.as_slice(), name, kind)
        }
        Expr::Number {
            value,
            most,
            name: tag,
        } => matches_number(*value, *most, tag.as_slice(), size),
    }
}

/// Whether a file matches. `And`, `Or` and `Not` are as their names say. A `Word` matches where each word of its
/// text is a word of the file's name, and so does a `TagText` of the name 01; one of the name 03 compares the kind
/// but for the case of ASCII letters. A `Number` of the name 02 bounds the size. Any other name matches nothing.
pub fn matches(expr: &Expr, row: &FileRow) -> bool
    ensures { result ≡ meets (query expr.now) (file_of row.now) }
{
    matches_file(expr, row.name.as_slice(), row.size, row.kind.as_slice())
}
