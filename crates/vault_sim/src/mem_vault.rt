//! Two files in memory that keep the disk model.
ghost use Rattle.std.specs.Prelude.{◌≡◌, ◌⊎◌, ◌+◌, ◌-◌, ◌<◌, ◌≤◌, ◌^◌, ◌↔◌, [], ◌∷◌, Contains, IsTrue, true, None, Some, length, min, IfOk, MatchResult, OnErr, OnOk};
ghost use Rattle.std.specs.Io.{ReadsAtMost};
ghost use Rattle.ed2k_outside.specs.Blobs.{ReadsAt};
ghost use Rattle.ed2k_outside.specs.Causes.{HasCause, CountsCall};
ghost use Rattle.ed2k_outside.specs.Crashes.{IsDurable, Stays, Stretched, Torn};
ghost use Rattle.ed2k_outside.specs.Files.{file_of, CountsRead, InFile, Resizes, Writes};
ghost use Rattle.ed2k_outside.specs.Scripts.{next_fault};
ghost use Rattle.vault_sim.specs.Images.{asks, no_files, synced};
ghost use Rattle.vault_sim.specs.declared.step.Asked.TheVariants.{Write, Length};

use crate::disk::{Contents, Disk};
use crate::past::Past;
use crate::step::Asked;
use ed2k_outside::{Failed, Vault, Which, copy_from};
use noted_bytes::Noted;
use std::alloc::{AllocError, Global};
use std::fmt;

/// Two files in memory that keep the disk model, and may be left as a crash of a real disk leaves files.
///
/// Its calls are numbered from 1, and those whose numbers are given fail. A call that can't grow a file
/// fails too. Each failure counts as a fault. A write or a change of the length that fails leaves what a
/// read gives, and a crash may leave what it asked for; without the memory to note this it isn't counted,
/// and has no effect.
#[derive(Drop)]
pub struct MemVault {
    disk: Disk,
    past: Past,
    fails: Vec<u64>,
    placed: Option<Noted>,
    body_reads: u64,
    faults: u64,
    ghost reads_made: { body_reads ≤ disk.made },
}

impl MemVault {
    ghost use Rattle.vault_sim.specs.Disks.{HasRoom, contents, file_at};
    ghost use Rattle.vault_sim.specs.MemVaults.{vault_files, vault_image, vault_now, vault_past, vault_made, vault_faults, next_still, Follows, IsAsBefore, MayFollow, IsCall, IsListed, IsUnused, KeepsRest};

    /// Two empty files, and no call that fails by its number. It takes no memory.
    pub fn new(alloc: Global) -> Self
        ensures { IsUnused no_files [] result }
    {
        MemVault::failing(alloc, Vec::new(alloc))
    }

    /// Two empty files, whose calls of these numbers fail. It takes no memory.
    pub fn failing(alloc: Global, fails: Vec<u64>) -> Self
        ensures { IsUnused no_files fails.items result }
    {
        let files = Contents {
            body: Vec::new(alloc),
            log: Vec::new(alloc),
        };
        MemVault::of(alloc, files, fails)
    }

    /// Two files of these bytes, which a crash leaves.
    pub(crate) fn of(alloc: Global, files: Contents, fails: Vec<u64>) -> Self
        ensures { IsUnused (contents files) fails.items result }
    {
        MemVault {
            disk: Disk::new(alloc, files),
            past: Past::new(alloc),
            fails,
            placed: None,
            body_reads: 0,
            faults: 0,
        }
    }

    /// The bytes of a file. It isn't counted as a call.
    pub fn file(&self, which: Which) -> &[u8]
        ensures { result.now ≡ file_of which (vault_files self.now) }
    {
        self.disk.file(which)
    }

    /// What a crash may leave of the two files, chosen by the number.
    pub(crate) fn torn(&self, pick: u64) -> Result<Contents, AllocError>
        ensures image { IfOk result (λ files. vault_image self.now (contents files)) }
        ensures whole { pick ≡ 0 → IfOk result (λ files. contents files ≡ vault_files self.now) }
        ensures nothing { pick ≡ 2 ^ 64 - 1 → IfOk result (λ files. contents files ≡ synced (vault_now self.now)) }
    {
        self.disk.torn(pick)
    }

    pub(crate) fn allocator(&self) -> Global {
        *self.fails.allocator()
    }

    /// Counts a call, and says whether it is to fail. It fails where no number is left.
    fn begin(&mut self) -> Result<bool, Failed>
        ensures listed { IfOk result (λ fails. IsTrue fails ↔ IsListed self.old) }
        ensures follows { OnOk result (Follows self.old self.new (next_still self.old)) }
        ensures fits { OnOk result (vault_made self.old + 1 < 2 ^ 64) }
        ensures faults { OnOk result (vault_faults self.new ≡ vault_faults self.old) }
        ensures err { OnErr result (IsAsBefore self.old self.new) }
        ensures err_faults { OnErr result (vault_faults self.new ≡ next_fault (vault_faults self.old)) }
        ensures cause { HasCause (vault_faults self.old) (vault_faults self.new) result }
        ensures made { CountsCall (vault_made self.old) (vault_made self.new) result }
        ensures body_room { OnOk result (HasRoom self.old.disk.body → HasRoom self.new.disk.body) }
        ensures log_room { OnOk result (HasRoom self.old.disk.log → HasRoom self.new.disk.log) }
        ensures files { vault_files self.new ≡ vault_files self.old }
        ensures rest { KeepsRest self.old self.new }
    {
        if self.disk.made() == u64::MAX {
            return Err(self.fault());
        }
        if self.past.note(&self.disk).is_err() {
            return Err(self.fault());
        }
        self.disk.count();
        Ok(lists(&self.fails, self.disk.made()))
    }

    /// Counts a call that changes no file, and fails where it is to fail.
    fn begin_still(&mut self) -> Result<(), Failed>
        ensures call { IsCall self.old self.new result }
        ensures follows { OnOk result (Follows self.old self.new (next_still self.old)) }
        ensures err { OnErr result (MayFollow self.old self.new (next_still self.old)) }
        ensures files { vault_files self.new ≡ vault_files self.old }
        ensures rest { KeepsRest self.old self.new }
    {
        if self.begin()? {
            return Err(self.fault());
        }
        Ok(())
    }

    /// A call that was counted and fails: a crash may leave what it asked for.
    fn doubt(&mut self, which: Which, asked: Asked) -> Failed
        requires { HasRoom (file_at which self.old.disk) }
        ensures later { vault_faults self.old ≤ vault_faults self.new }
        ensures faults { vault_faults self.new ≡ next_fault (vault_faults self.old) }
        ensures files { vault_files self.new ≡ vault_files self.old }
        ensures past { vault_past self.new ≡ vault_past self.old }
        ensures now { vault_now self.new ≡ asks which asked (vault_now self.old) }
        ensures rest { KeepsRest self.old self.new }
    {
        self.disk.doubt(which, asked);
        self.fault()
    }

    fn fault(&mut self) -> Failed
        ensures later { vault_faults self.old ≤ vault_faults self.new }
        ensures faults { vault_faults self.new ≡ next_fault (vault_faults self.old) }
        ensures files { vault_files self.new ≡ vault_files self.old }
        ensures as_before { IsAsBefore self.old self.new }
        ensures rest { KeepsRest self.old self.new }
    {
        self.faults = self.faults.saturating_add(1);
        Failed
    }
}

impl fmt::Debug for MemVault {
    fn fmt<W: fmt::Write>(&self, f: &mut fmt::Formatter<W>) -> fmt::Result {
        self.disk.fmt(f)
    }
}

impl Vault for MemVault {
    ghost use Rattle.vault_sim.specs.MemVaults.{next_still, next_asked, next_settled, Becomes, Follows, IsCall, MayFollow, VaultCrashes, vault_files, vault_crash, vault_made, vault_faults, vault_body_reads, vault_placed, vault_counts_now, vault_only_now, vault_tells};

    ghost files = { λ v. Some (vault_files v) };

    ghost placed = { vault_placed };

    ghost faults = { vault_faults };

    ghost body_reads = { vault_body_reads };

    ghost made = { vault_made };

    ghost honest = { λ _. true };

    ghost crash = { vault_crash };

    ghost counts_now = { vault_counts_now };

    ghost only_now = { vault_only_now };

    ghost tells = { λ v _. vault_tells v };

    fn place(&mut self, name: &str) -> Result<(), Failed>
        ensures call { IsCall self.old self.new result }
        ensures now { Becomes self.old self.new result (next_still self.old) }
        ensures files { vault_files self.new ≡ vault_files self.old }
        ensures body_reads { vault_body_reads self.new ≡ vault_body_reads self.old }
        ensures placed { MatchResult result
            (λ _. vault_placed self.new ≡ Some name.now)
            (λ _. vault_placed self.new ≡ vault_placed self.old) }
        ensures torn { VaultCrashes Stays self.old self.new }
    {
        self.begin_still()?;
        let mut noted = Noted::new();
        noted.note(name.as_bytes());
        self.placed = Some(noted);
        Ok(())
    }

    fn len(&mut self, which: Which) -> Result<u64, Failed>
        ensures call { IsCall self.old self.new result }
        ensures now { Becomes self.old self.new result (next_still self.old) }
        ensures number { IfOk result (λ n. n ≡ length (file_of which (vault_files self.old))) }
        ensures files { vault_files self.new ≡ vault_files self.old }
        ensures body_reads { vault_body_reads self.new ≡ vault_body_reads self.old }
        ensures placed { vault_placed self.new ≡ vault_placed self.old }
        ensures torn { VaultCrashes Stays self.old self.new }
    {
        self.begin_still()?;
        Ok(self.disk.file(which).len() as u64)
    }

    fn read(&mut self, which: Which, at: u64, buf: &mut [u8]) -> Result<usize, Failed>
        requires { 0 < length buf.old → at < length (file_of which (vault_files self.old)) }
        ensures call { IsCall self.old self.new result }
        ensures now { Becomes self.old self.new result (next_still self.old) }
        ensures bound { ReadsAtMost result buf.new }
        ensures number { IfOk result (λ n.
            n ≡ min (length buf.new) (length (file_of which (vault_files self.old)) - at)) }
        ensures some { IfOk result (λ n. 0 < length buf.new → 0 < n) }
        ensures content { ReadsAt (file_of which (vault_files self.old)) at result buf.new }
        ensures files { vault_files self.new ≡ vault_files self.old }
        ensures body_reads { CountsRead which (vault_body_reads self.old) (vault_body_reads self.new) result }
        ensures placed { vault_placed self.new ≡ vault_placed self.old }
        ensures torn { VaultCrashes Stays self.old self.new }
    {
        self.begin_still()?;
        if which == Which::Body {
            self.body_reads += 1;
        }
        Ok(copy_from(self.disk.file(which), at, buf))
    }

    fn write_at(&mut self, which: Which, at: u64, piece: &[u8]) -> Result<(), Failed>
        requires { at ≤ length (file_of which (vault_files self.old)) }
        ensures call { IsCall self.old self.new result }
        ensures now { Becomes self.old self.new result (next_asked which (Write at (length piece.now)) self.old) }
        ensures ok { OnOk result (Writes which at piece.now (vault_files self.old) (vault_files self.new)) }
        ensures err { OnErr result (vault_files self.new ≡ vault_files self.old) }
        ensures fits { OnOk result (at + length piece.now < 2 ^ 64) }
        ensures body_reads { vault_body_reads self.new ≡ vault_body_reads self.old }
        ensures placed { vault_placed self.new ≡ vault_placed self.old }
        ensures torn { VaultCrashes (InFile which (Torn at (length piece.now))) self.old self.new }
    {
        if at.checked_add(piece.len() as u64).is_none() {
            return Err(self.fault());
        }
        if self.disk.reserve(which).is_err() {
            return Err(self.fault());
        }
        let fails = self.begin()?;
        if fails {
            return Err(self.doubt(which, Asked::Write(at as usize, piece.len())));
        }
        match self.disk.write_at(which, at as usize, piece) {
            Ok(()) => Ok(()),
            Err(_) => Err(self.doubt(which, Asked::Write(at as usize, piece.len()))),
        }
    }

    fn set_len(&mut self, which: Which, n: u64) -> Result<(), Failed>
        ensures call { IsCall self.old self.new result }
        ensures now { Becomes self.old self.new result (next_asked which (Length n) self.old) }
        ensures ok { OnOk result (Resizes which n (vault_files self.old) (vault_files self.new)) }
        ensures err { OnErr result (vault_files self.new ≡ vault_files self.old) }
        ensures body_reads { vault_body_reads self.new ≡ vault_body_reads self.old }
        ensures placed { vault_placed self.new ≡ vault_placed self.old }
        ensures torn { VaultCrashes (InFile which (Stretched n)) self.old self.new }
    {
        if self.disk.reserve(which).is_err() {
            return Err(self.fault());
        }
        let fails = self.begin()?;
        if fails {
            return Err(self.doubt(which, Asked::Length(n as usize)));
        }
        match self.disk.set_len(which, n as usize) {
            Ok(()) => Ok(()),
            Err(_) => Err(self.doubt(which, Asked::Length(n as usize))),
        }
    }

    fn sync(&mut self, which: Which) -> Result<(), Failed>
        ensures call { IsCall self.old self.new result }
        ensures now { MatchResult result
            (λ _. Follows self.old self.new (next_settled which self.old))
            (λ _. MayFollow self.old self.new (next_still self.old)) }
        ensures files { vault_files self.new ≡ vault_files self.old }
        ensures body_reads { vault_body_reads self.new ≡ vault_body_reads self.old }
        ensures placed { vault_placed self.new ≡ vault_placed self.old }
        ensures durable { OnOk result (IsDurable which (Some (vault_files self.new)) (vault_crash self.new)) }
        ensures torn { VaultCrashes Stays self.old self.new }
    {
        self.begin_still()?;
        self.disk.sync(which);
        Ok(())
    }

    fn calls(&self) -> u64 {
        self.disk.made()
    }
}

/// Whether the number is among these.
fn lists(numbers: &[u64], number: u64) -> bool
    ensures { IsTrue result ↔ Contains numbers.now number }
{
    numbers.contains(&number)
}
