//! Names that are those of regular files, or of none.

use std::fs::{File, Files, Metadata, OpenFile, OpenOptions};
use std::io::ErrorKind;
use std::{fs, io};

/// Refuses what is there and is no regular file.
fn require_regular(metadata: &Metadata) -> io::Result<()> {
    if metadata.is_file() {
        return Ok(());
    }
    Err(io::Error::new(ErrorKind::InvalidInput, "not a regular file"))
}

/// Opens a file that is there. A name of something else, as of a pipe or a folder, is refused before it is
/// opened, since to open a pipe may wait for ever.
fn open_regular<R: Files<File = File>>(
    rt: &R,
    options: &OpenOptions,
    name: &str,
) -> io::Result<File> {
    require_regular(&fs::metadata(rt, name)?)?;
    let file = options.open(rt, name)?;
    require_regular(&file.metadata()?)?;
    Ok(file)
}

/// Opens a file to read it.
pub(crate) fn open_to_read<R: Files<File = File>>(rt: &R, name: &str) -> io::Result<File> {
    let mut options = OpenOptions::new();
    options.read(true);
    open_regular(rt, &options, name)
}

/// Opens a file to read and write it, which is made where it isn't there. Tells whether it was made.
pub(crate) fn open_or_make<R: Files<File = File>>(rt: &R, name: &str) -> io::Result<(File, bool)> {
    let mut options = OpenOptions::new();
    options.read(true).write(true);
    match open_regular(rt, &options, name) {
        Err(why) if why.kind() == ErrorKind::NotFound => {
            options.create_new(true);
            Ok((options.open(rt, name)?, true))
        }
        Err(why) => Err(why),
        Ok(file) => Ok((file, false)),
    }
}
