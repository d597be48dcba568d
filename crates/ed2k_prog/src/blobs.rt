//! Files that are read by name.
ghost use Rattle.std.specs.Prelude.{None};

use crate::console::Console;
use crate::faults::{counted, fault, told_fault};
use crate::progress::Progress;
use crate::regular::open_to_read;
use ed2k_outside::{Blob, Blobs, Failed};
use std::fs::{File, OpenFile};
use std::io::ErrorKind;
use std::os::unix::fs::FileExt;
use std::rt::{Clock, Files};
use std::{fmt, io};

/// The name of a file that is read, where there was memory for it.
#[derive(Drop)]
struct Named(Option<String>);

impl fmt::Display for Named {
    fn fmt<W: fmt::Write>(&self, f: &mut fmt::Formatter<W>) -> fmt::Result {
        match &self.0 {
            Some(name) => f.write_str(name.as_str()),
            None => f.write_str("a file that is read"),
        }
    }
}

/// A file that is only read. It tells nothing of its bytes.
#[derive(Drop)]
pub(crate) struct FileBlob<'a, R> {
    console: &'a Console<'a, R>,
    name: Named,
    file: File,
    progress: Progress,
    faults: u64,
}

impl<R: Eprint + Clock> Blob for FileBlob<'_, R> {
    ghost bytes = { λ _. None };

    ghost blob_faults = { λ blob. blob.faults };

    fn len(&mut self) -> Result<u64, Failed> {
        let answer = self.file.metadata();
        let metadata = counted(self.console, &mut self.faults, &self.name, answer)?;
        self.progress.set_total(metadata.len());
        Ok(metadata.len())
    }

    fn read(&mut self, at: u64, buf: &mut [u8]) -> Result<usize, Failed> {
        let answer = self.file.read_at(buf, at);
        let n = counted(self.console, &mut self.faults, &self.name, answer)?;
        if n == 0 && !buf.is_empty() {
            let why = io::Error::from(ErrorKind::UnexpectedEof);
            return Err(told_fault(self.console, &mut self.faults, &self.name, &why));
        }
        self.progress.advance(self.console, n as u64);
        Ok(n)
    }
}

/// The file system.
#[derive(Drop)]
pub(crate) struct FileBlobs<'a, R> {
    console: &'a Console<'a, R>,
    faults: u64,
}

impl<'a, R> FileBlobs<'a, R> {
    pub(crate) fn new(console: &'a Console<'a, R>) -> Self {
        FileBlobs { console, faults: 0 }
    }
}

impl<'a, R: Files<File = File> + AllocGlobal + Eprint + Clock> Blobs for FileBlobs<'a, R> {
    type Blob = FileBlob<'a, R>;

    ghost list = { λ _. None };

    ghost blobs_faults = { λ blobs. blobs.faults };

    /// A name that isn't one of a regular file is a fault too.
    fn fetch(&mut self, name: &str) -> Result<FileBlob<'a, R>, Failed> {
        let rt = self.console.rt;
        let answer = open_to_read(rt, name);
        let file = counted(self.console, &mut self.faults, &name, answer)?;
        Ok(FileBlob {
            console: self.console,
            name: Named(String::from_str(rt.alloc(), name).ok()),
            file,
            progress: Progress::new(),
            faults: 0,
        })
    }

    fn close(&mut self, blob: FileBlob<'a, R>) {
        if blob.faults > 0 {
            let _failed = fault(&mut self.faults);
        }
    }
}
