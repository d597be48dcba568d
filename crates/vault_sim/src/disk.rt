//! The two files on a disk in memory, and how many calls were made.
ghost use Rattle.std.specs.Prelude.{◌≡◌, ◌<◌, ◌≤◌, ◌+◌, ◌-◌, ◌^◌, length, IfOk, OnErr, OnOk};
ghost use Rattle.ed2k_outside.specs.Files.{file_of, Writes, Resizes};
ghost use Rattle.vault_sim.specs.Images.{asks, image_at, settled, settles, synced};
ghost use Rattle.vault_sim.specs.declared.step.Asked.TheVariants.{Write, Length};

use crate::disk_file::DiskFile;
use crate::step::Asked;
use ed2k_outside::Which;
use std::alloc::{AllocError, Global};

/// The bytes of both files.
#[derive(Debug, Drop)]
pub(crate) struct Contents {
    pub(crate) body: Vec<u8>,
    pub(crate) log: Vec<u8>,
}

/// Both files, and the number of the last call, from 1.
#[derive(Debug, Drop)]
pub(crate) struct Disk {
    made: u64,
    body: DiskFile,
    log: DiskFile,
}

impl Disk {
    ghost use Rattle.vault_sim.specs.Disks.{HasRoom, contents, disk_files, file_at, moment_of};

    /// Two files of these bytes, which a crash leaves.
    pub(crate) fn new(alloc: Global, files: Contents) -> Self
        ensures files { disk_files result ≡ contents files }
        ensures settled { moment_of result ≡ record {
          made = 0;
          body = settled (contents files).body;
          log = settled (contents files).log;
        } }
    {
        Disk {
            made: 0,
            body: DiskFile::new(alloc, files.body),
            log: DiskFile::new(alloc, files.log),
        }
    }

    pub(crate) fn made(&self) -> u64
        ensures { result ≡ (moment_of self.now).made }
    {
        self.made
    }

    pub(crate) fn file(&self, which: Which) -> &[u8]
        ensures { result.now ≡ file_of which (disk_files self.now) }
    {
        match which {
            Which::Body => self.body.bytes(),
            Which::Log => self.log.bytes(),
        }
    }

    /// Counts a call.
    pub(crate) fn count(&mut self)
        requires { (moment_of self.old).made + 1 < 2 ^ 64 }
        ensures files { disk_files self.new ≡ disk_files self.old }
        ensures counted { moment_of self.new ≡ record (moment_of self.old) { made = (moment_of self.old).made + 1 } }
        ensures body { self.new.body ≡ self.old.body }
        ensures log { self.new.log ≡ self.old.log }
    {
        self.made += 1;
    }

    /// Makes room to note a call on a file.
    pub(crate) fn reserve(&mut self, which: Which) -> Result<(), AllocError>
        ensures room { OnOk result (HasRoom (file_at which self.new)) }
        ensures files { disk_files self.new ≡ disk_files self.old }
        ensures now { moment_of self.new ≡ moment_of self.old }
    {
        match which {
            Which::Body => self.body.reserve(),
            Which::Log => self.log.reserve(),
        }
    }

    /// Writes over what a file holds from a place on, and past its end.
    pub(crate) fn write_at(
        &mut self,
        which: Which,
        at: usize,
        piece: &[u8],
    ) -> Result<(), AllocError>
        requires place { at ≤ length (file_of which (disk_files self.old)) }
        requires room { HasRoom (file_at which self.old) }
        ensures files { OnOk result (Writes which at piece.now (disk_files self.old) (disk_files self.new)) }
        ensures asked { OnOk result (moment_of self.new ≡ asks which (Write at (length piece.now)) (moment_of self.old)) }
        ensures err_files { OnErr result (disk_files self.new ≡ disk_files self.old) }
        ensures err_asked { OnErr result (moment_of self.new ≡ moment_of self.old) }
        ensures err_room { OnErr result (HasRoom (file_at which self.new)) }
    {
        match which {
            Which::Body => self.body.write_at(at, piece),
            Which::Log => self.log.write_at(at, piece),
        }
    }

    /// Cuts a file, or fills it up with zeros.
    pub(crate) fn set_len(&mut self, which: Which, n: usize) -> Result<(), AllocError>
        requires { HasRoom (file_at which self.old) }
        ensures files { OnOk result (Resizes which n (disk_files self.old) (disk_files self.new)) }
        ensures asked { OnOk result (moment_of self.new ≡ asks which (Length n) (moment_of self.old)) }
        ensures err_files { OnErr result (disk_files self.new ≡ disk_files self.old) }
        ensures err_asked { OnErr result (moment_of self.new ≡ moment_of self.old) }
        ensures err_room { OnErr result (HasRoom (file_at which self.new)) }
    {
        match which {
            Which::Body => self.body.set_len(n),
            Which::Log => self.log.set_len(n),
        }
    }

    /// A call that fails: what a read gives stays, and a crash may leave what it asked for.
    pub(crate) fn doubt(&mut self, which: Which, asked: Asked)
        requires { HasRoom (file_at which self.old) }
        ensures files { disk_files self.new ≡ disk_files self.old }
        ensures asked { moment_of self.new ≡ asks which asked (moment_of self.old) }
    {
        match which {
            Which::Body => self.body.doubt(asked),
            Which::Log => self.log.doubt(asked),
        }
    }

    /// From now on a crash leaves of the file what a read gives.
    pub(crate) fn sync(&mut self, which: Which)
        ensures files { disk_files self.new ≡ disk_files self.old }
        ensures settled { moment_of self.new ≡ settles which (file_of which (disk_files self.old)) (moment_of self.old) }
    {
        match which {
            Which::Body => self.body.sync(),
            Which::Log => self.log.sync(),
        }
    }

    /// What a crash may leave of the two files, chosen by the number.
    pub(crate) fn torn(&self, pick: u64) -> Result<Contents, AllocError>
        ensures image { IfOk result (λ files. image_at (moment_of self.now) (contents files)) }
        ensures whole { pick ≡ 0 → IfOk result (λ files. contents files ≡ disk_files self.now) }
        ensures nothing { pick ≡ 2 ^ 64 - 1 → IfOk result (λ files. contents files ≡ synced (moment_of self.now)) }
    {
        let (body, pick) = self.body.torn(pick)?;
        let (log, _pick) = self.log.torn(pick)?;
        Ok(Contents { body, log })
    }
}
