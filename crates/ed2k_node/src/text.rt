//! Small readers of text, which take no memory.
ghost use Rattle.std.specs.Prelude.{◌≡◌, ◌==◌, None, Some, MatchOption, position};
ghost use Rattle.ed2k_node.specs.Text.{cut, number_of, number_between};

use ed2k_link::read_decimal;

/// The place of the first such byte.
fn place_of(text: &[u8], separator: u8) -> Option<usize>
    ensures { result ≡ position (λ byte. byte == separator) text.now }
{
    text.iter().position(|byte| *byte == separator)
}

/// What stands before the first `separator`, and what stands after it.
pub(crate) fn cut_at(text: &[u8], separator: u8) -> Option<(&[u8], &[u8])>
    ensures { MatchOption result (cut separator text.now ≡ None)
        (λ pair. cut separator text.now ≡ Some (pair.0.now, pair.1.now)) }
{
    match place_of(text, separator) {
        Some(at) if at < text.len() => Some((&text[..at], &text[at + 1..])),
        _ => None,
    }
}

/// The number that 1 to 20 decimal digits write, where it fits 64 bits.
pub(crate) fn number(text: &[u8]) -> Option<u64>
    ensures { result ≡ number_of text.now }
{
    u64::try_from(read_decimal(text)?).ok()
}

/// The same, where it lies between two bounds.
pub(crate) fn number_in(text: &[u8], least: u64, most: u64) -> Option<u64>
    ensures { result ≡ number_between least most text.now }
{
    match number(text) {
        Some(n) if least <= n && n <= most => Some(n),
        _ => None,
    }
}
