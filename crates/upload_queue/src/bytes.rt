//! Bytes counted per user.

ghost use Rattle.std.specs.Prelude.{◌≡◌, OnOk, OnErr};
ghost use Rattle.upload_queue.specs.Bytes.{bytes_of, count};
ghost use Rattle.upload_queue.specs.Credit.{ratio, reach, credit};

use crate::waiting::Hash;
use ed2k_outside::NoMemory;
use std::collections::BTreeMap;

/// The bytes of a mebibyte, below which nobody's credit rises.
const MEBIBYTE: u64 = 1_048_576;

/// Bytes per user.
pub type Sums = BTreeMap<Hash, u64>;

/// The sum of a user, 0 where nothing was counted.
pub fn bytes_of(sums: &Sums, user: &Hash) -> u64
    ensures { result ≡ bytes_of sums.now.entries user.now }
{
    sums.get(user).copied().unwrap_or(0)
}

/// Adds to the sum of a user, which stops at the greatest u64.
pub fn count(sums: &mut Sums, user: Hash, bytes: u64) -> Result<(), NoMemory>
    ensures ok { OnOk result (sums.new.entries ≡ count sums.old.entries user bytes) }
    ensures refused { OnErr result (sums.new.entries ≡ sums.old.entries) }
{
    let sum = bytes_of(sums, &user).saturating_add(bytes);
    sums.insert(user, sum)?;
    Ok(())
}

/// Two hundred times what came for each byte that went.
fn ratio(received: u64, given: u64) -> u128
    ensures { result ≡ ratio received given }
{
    if given == 0 {
        1_000
    } else {
        200 * u128::from(received) / u128::from(given)
    }
}

/// A hundred times the root of the mebibytes that came and two more.
fn reach(received: u64) -> u64
    ensures { result ≡ reach received }
{
    (10_000 * (received / MEBIBYTE + 2)).isqrt()
}

/// The credit for bytes that came and bytes that went.
pub fn credit(received: u64, given: u64) -> u32
    ensures { result ≡ credit received given }
{
    if received < MEBIBYTE {
        return 100;
    }
    let credit = ratio(received, given).min(u128::from(reach(received)));
    credit.clamp(100, 1_000) as u32
}
