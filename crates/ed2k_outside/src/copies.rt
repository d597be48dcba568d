//! Bytes that are copied out of a list of them.
ghost use Rattle.std.specs.Prelude.{◌≡◌, ◌-◌, length, min, take, drop};

/// Copies the bytes from a place on into the buffer, as many as there are and it has room for, and answers
/// how many these are. What stands in the buffer behind them stays.
pub fn copy_from(bytes: &[u8], at: u64, buf: &mut [u8]) -> usize
    ensures number { result ≡ min (length buf.old) (length bytes.now - at) }
    ensures content { take result buf.new ≡ take result (drop at bytes.now) }
    ensures rest { drop result buf.new ≡ drop result buf.old }
{
    let start = (at as usize).min(bytes.len());
    let count = buf.len().min(bytes.len() - start);
    buf[..count].copy_from_slice(&bytes[start..start + count]);
    count
}
