//! The greatest size of a file that the system lets this program make.

use libc::types::rlimit;
use std::io;

/// Linux's number of the limit.
const FILE_SIZE: i32 = 1;

/// Linux's number of the error of a file that would be too large.
const TOO_LARGE: i32 = 27;

/// Fails where a file of so many bytes is past the limit. The system would end the program by a signal, which
/// can't be ignored here, where it wrote past it.
pub(crate) fn require_allowed(size: u64) -> io::Result<()> {
    let mut limit = rlimit {
        rlim_cur: u64::MAX,
        rlim_max: u64::MAX,
    };
    if libc::getrlimit(FILE_SIZE, &mut limit) == 0 && size > limit.rlim_cur {
        return Err(io::Error::from_raw_os_error(TOO_LARGE));
    }
    Ok(())
}
