//! What a digest of a part says: it is the one that is wanted, or another.
ghost use Rattle.std.specs.Prelude.{◌≡◌};
ghost use Rattle.part_hashset.specs.Goals.{fails, is_wanted, passes};

use crate::Hash;

/// True exactly where the digest is the one that is wanted.
pub fn is_wanted(wanted: Option<Hash>, digest: Hash) -> bool
    ensures { result ≡ is_wanted wanted digest }
{
    match wanted {
        None => false,
        Some(wanted) => digest == wanted,
    }
}

/// True exactly where there is a verdict and its digest is the one that is wanted.
pub fn passes(wanted: Option<Hash>, verdict: Option<Hash>) -> bool
    ensures { result ≡ passes wanted verdict }
{
    match verdict {
        None => false,
        Some(digest) => is_wanted(wanted, digest),
    }
}

/// True exactly where there is a verdict and its digest is another one.
pub fn fails(wanted: Option<Hash>, verdict: Option<Hash>) -> bool
    ensures { result ≡ fails wanted verdict }
{
    match verdict {
        None => false,
        Some(digest) => !is_wanted(wanted, digest),
    }
}
