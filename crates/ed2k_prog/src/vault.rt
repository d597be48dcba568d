//! The two files of a download.
ghost use Rattle.std.specs.Prelude.{◌≡◌, ◌+◌, ◌^◌, ◌<◌, ◌≤◌, false, length, None, Some, Ok, IfOk, OnOk};
ghost use Rattle.std.specs.Option.{option_map};
ghost use Rattle.ed2k_outside.specs.Causes.{HasCause, Rose};
ghost use Rattle.ed2k_outside.specs.Crashes.{shut, untold};

use crate::console::Console;
use crate::counts::Counts;
use crate::faults::{counted, told_fault};
use crate::open_files::{NamedFile, OpenFiles, Purpose};
use crate::progress::Progress;
use crate::size_limit::require_allowed;
use ed2k_outside::{Failed, Vault, Which};
use std::fs::{File, Files, OpenFile};
use std::io;
use std::io::ErrorKind;
use std::os::unix::fs::FileExt;
use std::rt::Clock;

/// The files `PLACE.body` and `PLACE.log`. It tells nothing of their bytes.
#[derive(Drop)]
pub(crate) struct FileVault<'a, R> {
    console: &'a Console<'a, R>,
    purpose: Purpose,
    opened: Option<OpenFiles>,
    progress: Progress,
    counts: Counts,
    faults: u64,
}

impl<'a, R> FileVault<'a, R> {
    pub(crate) fn new(console: &'a Console<'a, R>, purpose: Purpose) -> Self {
        FileVault {
            console,
            purpose,
            opened: None,
            progress: Progress::new(),
            counts: Counts::new(),
            faults: 0,
        }
    }
}

/// One of the open files.
fn file_of<'f, R: Eprint>(
    console: &Console<'_, R>,
    faults: &mut u64,
    opened: &'f Option<OpenFiles>,
    which: Which,
) -> Result<&'f NamedFile, Failed>
    ensures cause { HasCause faults.old faults.new result }
    ensures clean { OnOk result (faults.new ≡ faults.old) }
{
    match opened {
        Some(files) => Ok(files.file(which)),
        None => {
            let why = io::Error::other("no place was named");
            Err(told_fault(console, faults, &"files", &why))
        }
    }
}

/// Writes a piece, if the system lets the file grow to its end.
fn write_piece(file: &File, at: u64, piece: &[u8]) -> io::Result<()>
    ensures fits { OnOk result (at + length piece.now < 2 ^ 64) }
{
    let Some(end) = at.checked_add(piece.len() as u64) else {
        return Err(io::Error::from(ErrorKind::FileTooLarge));
    };
    require_allowed(end)?;
    file.write_all_at(piece, at)
}

/// Gives a file another length, if the system lets it have that.
fn resize(file: &File, n: u64) -> io::Result<()> {
    require_allowed(n)?;
    file.set_len(n)
}

impl<R: Files<File = File> + AllocGlobal + Eprint + Clock> Vault for FileVault<'_, R> {
    ghost files = { λ _. None };

    ghost placed = { λ vault. option_map (λ files. files.name.bytes) vault.opened };

    ghost faults = { λ vault. vault.faults };

    ghost body_reads = { λ vault. vault.counts.body_reads };

    ghost made = { λ vault. vault.counts.calls };

    ghost honest = { λ _. false };

    ghost crash = { λ _. shut };

    ghost counts_now = { λ v t c le now. now };

    ghost only_now = { λ v c left. left };

    ghost tells = { λ v. untold };

    fn place(&mut self, name: &str) -> Result<(), Failed> {
        self.counts.begin(&mut self.faults)?;
        let files = OpenFiles::open(self.console, &mut self.faults, name, self.purpose)?;
        self.opened = Some(files);
        Ok(())
    }

    fn len(&mut self, which: Which) -> Result<u64, Failed> {
        self.counts.begin(&mut self.faults)?;
        let named = file_of(self.console, &mut self.faults, &self.opened, which)?;
        let answer = named.file.metadata();
        let metadata = counted(self.console, &mut self.faults, &named.name, answer)?;
        if which == Which::Body {
            self.progress.set_total(metadata.len());
        }
        Ok(metadata.len())
    }

    fn read(&mut self, which: Which, at: u64, buf: &mut [u8]) -> Result<usize, Failed> {
        self.counts.begin_read(which, &mut self.faults)?;
        let named = file_of(self.console, &mut self.faults, &self.opened, which)?;
        let answer = named.file.read_at(buf, at);
        let n = counted(self.console, &mut self.faults, &named.name, answer)?;
        if n == 0 && !buf.is_empty() {
            let why = io::Error::from(ErrorKind::UnexpectedEof);
            return Err(told_fault(self.console, &mut self.faults, &named.name, &why));
        }
        Ok(n)
    }

    fn write_at(&mut self, which: Which, at: u64, piece: &[u8]) -> Result<(), Failed> {
        self.counts.begin(&mut self.faults)?;
        let named = file_of(self.console, &mut self.faults, &self.opened, which)?;
        let answer = write_piece(&named.file, at, piece);
        counted(self.console, &mut self.faults, &named.name, answer)?;
        if which == Which::Body {
            self.progress.advance(self.console, piece.len() as u64);
        }
        Ok(())
    }

    fn set_len(&mut self, which: Which, n: u64) -> Result<(), Failed> {
        self.counts.begin(&mut self.faults)?;
        let named = file_of(self.console, &mut self.faults, &self.opened, which)?;
        let answer = resize(&named.file, n);
        counted(self.console, &mut self.faults, &named.name, answer)?;
        if which == Which::Body {
            self.progress.set_total(n);
        }
        Ok(())
    }

    fn sync(&mut self, which: Which) -> Result<(), Failed> {
        self.counts.begin(&mut self.faults)?;
        let named = file_of(self.console, &mut self.faults, &self.opened, which)?;
        let answer = named.file.sync_all();
        counted(self.console, &mut self.faults, &named.name, answer)
    }

    fn calls(&self) -> u64 {
        self.counts.calls
    }
}
