//! The name in a link, in which bytes are escaped as `%` and two hexadecimal digits.
ghost use Rattle.std.specs.Prelude.{◌≡◌, ◌⊎◌, ◌++◌, true, false, MatchResult, OnErr, OnOk, IfOk};
ghost use Rattle.std.specs.Str.{is_utf8};
ghost use Rattle.std.specs.String.{string_bytes};
ghost use Rattle.percent_encoding.specs.Percent.{percent_decode};
ghost use Rattle.ed2k_link.specs.Name.{is_name, escaped};

use crate::fault::LinkFault;
use percent_encoding::{AsciiSet, NON_ALPHANUMERIC, ascii_set, percent_decode, percent_encode};
use std::alloc::{AllocError, Global};

/// The greatest number of bytes of a name.
pub const NAME_LIMIT: usize = 1024;

/// The ASCII characters that are escaped: all but the unreserved ones (RFC 3986, section 2.3).
const ESCAPES: AsciiSet = ascii_set!(
    NON_ALPHANUMERIC
        .remove(b'-')
        .remove(b'.')
        .remove(b'_')
        .remove(b'~')
);

fn is_text(bytes: &[u8]) -> bool
    ensures { result ≡ is_utf8 bytes.now }
{
    str::from_utf8(bytes).is_ok()
}

fn is_name(name: &[u8]) -> bool
    ensures { result ≡ is_name name.now }
{
    let text = is_text(name);
    !name.is_empty() && name.len() <= NAME_LIMIT && text
}

/// Reads the name that an item writes. A `%` that begins no escape stands for itself.
pub(crate) fn read_name(alloc: Global, item: &[u8]) -> Result<Vec<u8>, LinkFault>
    ensures { MatchResult result
        (λ name. (name.items ≡ percent_decode item.now) × (is_name (percent_decode item.now) ≡ true))
        (λ fault. (fault ≡ LinkFault.NoMemory) ⊎ ((fault ≡ LinkFault.BadName) × (is_name (percent_decode item.now) ≡ false))) }
{
    let mut name = Vec::new(alloc);
    percent_decode(item).append_to(&mut name)?;
    if is_name(&name) {
        Ok(name)
    } else {
        Err(LinkFault::BadName)
    }
}

/// Adds a name as it stands in the canonical form of a link: each byte that is not an ASCII letter, digit,
/// `-`, `.`, `_` or `~` is escaped. Where memory is refused, `out` stays as it was.
pub fn push_name(out: &mut String, name: &[u8]) -> Result<(), AllocError>
    ensures written { OnOk result (string_bytes out.new ≡ string_bytes out.old ++ escaped name.now) }
    ensures refused { OnErr result (string_bytes out.new ≡ string_bytes out.old) }
{
    percent_encode(name, ESCAPES).append_to(out)
}
