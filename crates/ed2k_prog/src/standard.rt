//! The standard streams of the program, as its caller left them.

use std::fs::{File, Files};
use std::os::fd::AsFd;

/// Linux's number of the error of a stream that is closed.
const CLOSED: i32 = 9;

/// Whether a stream is closed.
pub(crate) fn is_closed(stream: &impl AsFd) -> bool {
    match stream.as_fd().try_clone_to_owned() {
        Ok(_) => false,
        Err(why) => why.raw_os_error() == Some(CLOSED),
    }
}

/// Files that take the numbers of the streams that are closed. A file that is opened takes the least number that
/// is free: so no file of a download takes one of these, and gets what is printed.
#[derive(Drop)]
pub(crate) struct StandIns {
    _files: [Option<File>; 3],
}

impl StandIns {
    pub(crate) fn new<R: Files<File = File>>(rt: &R) -> Self {
        StandIns {
            _files: [stand_in(rt), stand_in(rt), stand_in(rt)],
        }
    }
}

/// A file that gives no bytes and takes none.
fn stand_in<R: Files<File = File>>(rt: &R) -> Option<File> {
    File::open(rt, "/dev/null").ok()
}
