//! One file on a disk in memory.
ghost use Rattle.std.specs.Prelude.{◌≡◌, ◌≤◌, ◌-◌, ◌^◌, [], length, IfOk, OnErr, OnOk};
ghost use Rattle.ed2k_outside.specs.Files.{overwritten, resized};
ghost use Rattle.vault_sim.specs.Images.{asked_more, file_image, settled};
ghost use Rattle.vault_sim.specs.Steps.{IsLegal, IsLegal-prop};
ghost use Rattle.vault_sim.specs.declared.step.Asked.TheVariants.{Write, Length};

use crate::copies::{copied, overwrite};
use crate::redo::{Redo, redo_all, undo_all};
use crate::step::{Asked, Step};
use std::alloc::{AllocError, Global};

/// The bytes that a read gives, and the calls since the last sync that succeeded, the oldest first.
#[derive(Debug, Drop)]
pub(crate) struct DiskFile {
    bytes: Vec<u8>,
    steps: Vec<Step>,
    ghost legal: { IsLegal steps.items bytes.items } by { IsLegal-prop steps.items bytes.items },
}

impl DiskFile {
    ghost use Rattle.vault_sim.specs.Disks.{HasRoom, file_bytes, unsettled};

    /// A file of these bytes, which a crash leaves.
    pub(crate) fn new(alloc: Global, bytes: Vec<u8>) -> Self
        ensures bytes { file_bytes result ≡ bytes.items }
        ensures settled { unsettled result ≡ settled bytes.items }
    {
        DiskFile {
            bytes,
            steps: Vec::new(alloc),
        }
    }

    pub(crate) fn bytes(&self) -> &[u8]
        ensures { result.now ≡ file_bytes self.now }
    {
        &self.bytes
    }

    /// Makes room to note a call.
    pub(crate) fn reserve(&mut self) -> Result<(), AllocError>
        ensures room { OnOk result (HasRoom self.new) }
        ensures bytes { file_bytes self.new ≡ file_bytes self.old }
        ensures asked { unsettled self.new ≡ unsettled self.old }
    {
        self.steps.reserve(1)
    }

    /// Writes over what stands from a place on, and past the end.
    pub(crate) fn write_at(&mut self, at: usize, piece: &[u8]) -> Result<(), AllocError>
        requires place { at ≤ length (file_bytes self.old) }
        requires room { HasRoom self.old }
        ensures bytes { OnOk result (file_bytes self.new ≡ overwritten (file_bytes self.old) at piece.now) }
        ensures asked { OnOk result (unsettled self.new ≡ asked_more (Write at (length piece.now)) (unsettled self.old)) }
        ensures err_bytes { OnErr result (file_bytes self.new ≡ file_bytes self.old) }
        ensures err_asked { OnErr result (unsettled self.new ≡ unsettled self.old) }
        ensures err_room { OnErr result (HasRoom self.new) }
    {
        let alloc = *self.bytes.allocator();
        let step = Step {
            asked: Asked::Write(at, piece.len()),
            len: self.bytes.len(),
            at,
            lost: copied(alloc, &self.bytes, at, piece.len())?,
        };
        overwrite(&mut self.bytes, at, piece)?;
        self.steps.push_reserved(step);
        Ok(())
    }

    /// Cuts the file, or fills it up with zeros.
    pub(crate) fn set_len(&mut self, n: usize) -> Result<(), AllocError>
        requires { HasRoom self.old }
        ensures bytes { OnOk result (file_bytes self.new ≡ resized (file_bytes self.old) n) }
        ensures asked { OnOk result (unsettled self.new ≡ asked_more (Length n) (unsettled self.old)) }
        ensures err_bytes { OnErr result (file_bytes self.new ≡ file_bytes self.old) }
        ensures err_asked { OnErr result (unsettled self.new ≡ unsettled self.old) }
        ensures err_room { OnErr result (HasRoom self.new) }
    {
        let alloc = *self.bytes.allocator();
        let len = self.bytes.len();
        let at = n.min(len);
        let step = Step {
            asked: Asked::Length(n),
            len,
            at,
            lost: copied(alloc, &self.bytes, at, len)?,
        };
        self.bytes.resize(n, 0)?;
        self.steps.push_reserved(step);
        Ok(())
    }

    /// A call that fails: what a read gives stays, and a crash may leave what it asked for.
    pub(crate) fn doubt(&mut self, asked: Asked)
        requires { HasRoom self.old }
        ensures bytes { file_bytes self.new ≡ file_bytes self.old }
        ensures asked { unsettled self.new ≡ asked_more asked (unsettled self.old) }
    {
        let alloc = *self.bytes.allocator();
        let len = self.bytes.len();
        let step = Step {
            asked,
            len,
            at: len,
            lost: Vec::new(alloc),
        };
        self.steps.push_reserved(step);
    }

    /// From now on a crash leaves what a read gives.
    pub(crate) fn sync(&mut self)
        ensures bytes { file_bytes self.new ≡ file_bytes self.old }
        ensures settled { unsettled self.new ≡ settled (file_bytes self.old) }
    {
        self.steps.clear();
    }

    /// What a crash may leave of the file, chosen by the number, and what of the number is left. Its digits
    /// in base 8 say how each call was cut short, the newest first. By 0 the file is as a read gives it, by
    /// the greatest number all calls left nothing.
    pub(crate) fn torn(&self, pick: u64) -> Result<(Vec<u8>, u64), AllocError>
        ensures image { IfOk result (λ left. file_image (unsettled self.now) left.0.items) }
        ensures whole { pick ≡ 0 → IfOk result (λ left. left.0.items ≡ file_bytes self.now × left.1 ≡ 0) }
        ensures nothing { pick ≡ 2 ^ 64 - 1 → IfOk result (λ left.
            left.0.items ≡ (unsettled self.now).base × left.1 ≡ pick) }
    {
        if pick == 0 {
            return Ok((self.copy_bytes()?, 0));
        }
        let mut redos = Vec::new(*self.bytes.allocator());
        let (mut bytes, rest) = self.undone(&mut redos, pick)?;
        if pick == u64::MAX {
            return Ok((bytes, pick));
        }
        redo_all(&self.steps, &mut bytes, redos)?;
        Ok((bytes, rest))
    }

    /// The file as the last sync left it. It notes what was undone.
    fn undone(&self, redos: &mut Vec<Redo>, pick: u64) -> Result<(Vec<u8>, u64), AllocError>
        ensures { IfOk result (λ left. left.0.items ≡ (unsettled self.now).base) }
    {
        let mut bytes = self.copy_bytes()?;
        let rest = undo_all(&self.steps, &mut bytes, redos, pick)?;
        Ok((bytes, rest))
    }

    fn copy_bytes(&self) -> Result<Vec<u8>, AllocError>
        ensures { IfOk result (λ copy. copy.items ≡ file_bytes self.now) }
    {
        let alloc = *self.bytes.allocator();
        copied(alloc, &self.bytes, 0, self.bytes.len())
    }
}
