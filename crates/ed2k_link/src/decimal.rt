//! Decimal numbers of a text.
ghost use Rattle.std.specs.Prelude.{◌≡◌, ◌≤◌, true, length};
ghost use Rattle.std.specs.Char.{is_ascii_digit};
ghost use Rattle.std.specs.List.{list_all};
ghost use Rattle.std.specs.Str.Parse.{digits_value};
ghost use Rattle.ed2k_link.specs.Decimal.{decimal_of, is_numeral};

/// The greatest number of digits.
const DIGITS: usize = 20;

fn is_all_digits(text: &[u8]) -> bool
    ensures { result ≡ list_all is_ascii_digit text.now }
{
    text.iter().all(|byte| byte.is_ascii_digit())
}

/// Tells whether the text is 1 to 20 decimal digits.
fn is_numeral(text: &[u8]) -> bool
    ensures { result ≡ is_numeral text.now }
{
    let digits = is_all_digits(text);
    !text.is_empty() && text.len() <= DIGITS && digits
}

/// The number that at most 20 decimal digits write.
fn value_of(digits: &[u8]) -> u128
    requires digits { list_all is_ascii_digit digits.now ≡ true }
    requires short { length digits.now ≤ DIGITS }
    ensures { result ≡ digits_value 10 digits.now }
{
    let mut value = 0u128;
    for digit in digits {
        value = value * 10 + u128::from(*digit - b'0');
    }
    value
}

/// The number that 1 to 20 decimal digits write. `None` exactly where the text is anything else.
pub fn read_decimal(text: &[u8]) -> Option<u128>
    ensures { result ≡ decimal_of text.now }
{
    if is_numeral(text) {
        Some(value_of(text))
    } else {
        None
    }
}
