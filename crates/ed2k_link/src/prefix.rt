//! Prefixes of a text.
ghost use Rattle.std.specs.Prelude.{◌≡◌, None, Some, MatchOption};
ghost use Rattle.ed2k_link.specs.Prefix.{after_prefix};

/// What stands behind the prefix. `None` exactly where the text doesn't begin with it.
pub fn strip_prefix<'a>(text: &'a [u8], prefix: &[u8]) -> Option<&'a [u8]>
    ensures { MatchOption result (after_prefix prefix.now text.now ≡ None) (λ rest. after_prefix prefix.now text.now ≡ Some rest.now) }
{
    text.strip_prefix(prefix)
}
