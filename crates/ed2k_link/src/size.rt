//! The size in a link, a decimal number.
ghost use Rattle.std.specs.Prelude.{◌≡◌};
ghost use Rattle.ed2k_link.specs.Size.{size_of};

use crate::decimal::read_decimal;
use part_sizes::SIZE_LIMIT;

/// Reads a size. `None` exactly where the text is not 1 to 20 decimal digits or the number is not 1 to
/// `SIZE_LIMIT`.
pub(crate) fn read_size(text: &[u8]) -> Option<u64>
    ensures { result ≡ size_of text.now }
{
    match read_decimal(text) {
        Some(value) if value >= 1 && value <= u128::from(SIZE_LIMIT) => Some(value as u64),
        _ => None,
    }
}
