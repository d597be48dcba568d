//! The two open files of a place.
ghost use Rattle.std.specs.Prelude.{◌≡◌, ◌≤◌, IfOk, OnOk};
ghost use Rattle.ed2k_outside.specs.Causes.{HasCause};

use crate::console::Console;
use crate::faults::counted;
use crate::regular::{open_or_make, open_to_read};
use ed2k_outside::{Failed, Which};
use noted_bytes::Noted;
use std::fs::{File, Files, TryLockError};
use std::io::ErrorKind;
use std::{fs, io};

/// What a run does with a place.
#[derive(Clone, Copy, Debug, PartialEq, Eq)]
pub(crate) enum Purpose {
    /// It writes: the files are made where they aren't there, and no other run may have them.
    Download,
    /// It only reads: other runs may read too.
    Check,
}

/// An open file and its name.
#[derive(Drop)]
pub(crate) struct NamedFile {
    pub(crate) name: String,
    pub(crate) file: File,
}

/// The two open files, and the name of their place.
#[derive(Drop)]
pub(crate) struct OpenFiles {
    pub(crate) name: Noted,
    body: NamedFile,
    log: NamedFile,
}

impl OpenFiles {
    /// Opens `PLACE.body` and `PLACE.log`, the log first, which is locked until it is closed. Where the body can't
    /// be opened, a log that was made is taken away again.
    pub(crate) fn open<R: Files<File = File> + AllocGlobal + Eprint>(
        console: &Console<'_, R>,
        faults: &mut u64,
        place: &str,
        purpose: Purpose,
    ) -> Result<Self, Failed>
        ensures name { IfOk result (λ files. files.name.bytes ≡ place.now) }
        ensures cause { HasCause faults.old faults.new result }
        ensures clean { OnOk result (faults.new ≡ faults.old) }
    {
        let names = names_of(console.rt, place);
        let (body_name, log_name) = counted(console, faults, &place, names)?;
        let opened = open_locked(console.rt, log_name.as_str(), purpose);
        let (log, log_made) = counted(console, faults, &log_name, opened)?;
        let opened = open_one(console.rt, body_name.as_str(), purpose);
        if log_made && opened.is_err() {
            let _left = fs::remove_file(console.rt, log_name.as_str());
        }
        let (body, body_made) = counted(console, faults, &body_name, opened)?;
        if log_made || body_made {
            let folder = folder_of(place);
            counted(console, faults, &folder, sync_folder(console.rt, folder))?;
        }
        let mut name = Noted::new();
        name.note(place.as_bytes());
        Ok(OpenFiles {
            name,
            body: NamedFile {
                name: body_name,
                file: body,
            },
            log: NamedFile {
                name: log_name,
                file: log,
            },
        })
    }

    pub(crate) fn file(&self, which: Which) -> &NamedFile {
        match which {
            Which::Body => &self.body,
            Which::Log => &self.log,
        }
    }
}

/// The names of the body and the log of a place.
fn names_of<R: AllocGlobal>(rt: &R, place: &str) -> io::Result<(String, String)> {
    let body = format!(in rt.alloc(); "{place}.body")?;
    let log = format!(in rt.alloc(); "{place}.log")?;
    Ok((body, log))
}

/// Opens a file, and tells whether it was made.
fn open_one<R: Files<File = File>>(
    rt: &R,
    name: &str,
    purpose: Purpose,
) -> io::Result<(File, bool)> {
    match purpose {
        Purpose::Download => open_or_make(rt, name),
        Purpose::Check => Ok((open_to_read(rt, name)?, false)),
    }
}

/// Opens a file and locks it, and tells whether it was made.
fn open_locked<R: Files<File = File>>(
    rt: &R,
    name: &str,
    purpose: Purpose,
) -> io::Result<(File, bool)> {
    let (file, was_made) = open_one(rt, name, purpose)?;
    let locked = match purpose {
        Purpose::Download => file.try_lock(),
        Purpose::Check => file.try_lock_shared(),
    };
    match locked {
        Ok(()) => Ok((file, was_made)),
        // Some file systems know no locks.
        Err(TryLockError::Error(why)) if why.kind() == ErrorKind::Unsupported => {
            Ok((file, was_made))
        }
        Err(TryLockError::WouldBlock) => Err(io::Error::new(
            ErrorKind::WouldBlock,
            "another run has this place",
        )),
        Err(TryLockError::Error(why)) => Err(why),
    }
}

/// The folder that a place lies in.
pub(crate) fn folder_of(place: &str) -> &str {
    match place.rfind('/') {
        Some(0) => "/",
        Some(end) => place.get(..end).unwrap_or("."),
        None => ".",
    }
}

/// Syncs the names of a folder. One that may be written and not read, or that can't be synced at all, is left.
fn sync_folder<R: Files<File = File>>(rt: &R, folder: &str) -> io::Result<()> {
    let synced = match File::open(rt, folder) {
        Ok(folder) => folder.sync_all(),
        Err(why) => Err(why),
    };
    match synced {
        Err(why)
            if why.kind() == ErrorKind::PermissionDenied || why.kind() == ErrorKind::InvalidInput =>
            { Ok(()) }
        answer => answer,
    }
}
