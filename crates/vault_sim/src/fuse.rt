//! A vault that passes a number of calls on, and fails all later ones.
ghost use Rattle.std.specs.Prelude.{◌≡◌, ◌+◌, ◌-◌, ◌<◌, ◌≤◌, ◌^◌, Some, length, IfOk, IfSome, IsErr, IsTrue, MatchResult, OnErr, OnOk, OnSome};
ghost use Rattle.std.specs.Io.{ReadsAtMost};
ghost use Rattle.ed2k_outside.specs.Blobs.{ReadsAt};
ghost use Rattle.ed2k_outside.specs.Causes.{HasCause, NoneIsFault, CountsCall, IfKnown};
ghost use Rattle.ed2k_outside.specs.Crashes.{Crashes, Torn, Stretched, Stays, IsDurable};
ghost use Rattle.ed2k_outside.specs.Files.{file_of, Writes, Resizes, MayResize, InFile, CountsRead};
ghost use Rattle.ed2k_outside.specs.Scripts.{next_fault};

use ed2k_outside::{Failed, Vault, Which};

/// A vault that passes so many calls, and then fails every call without making it.
#[derive(Debug, Drop)]
pub struct Fuse<V> {
    vault: V,
    left: u64,
    blown: u64,
}

impl<V: Vault> Fuse<V> {
    ghost use Rattle.vault_sim.specs.Fuses.{fused, fuse_left, fuse_blown, fuse_faults};

    pub fn new(vault: V, k: u64) -> Self
        ensures vault { fused result ≡ vault }
        ensures left { fuse_left result ≡ k }
        ensures blown { fuse_blown result ≡ 0 }
    {
        Fuse {
            vault,
            left: k,
            blown: 0,
        }
    }

    /// The vault inside.
    pub fn into_inner(self) -> V
        ensures { result ≡ fused self }
    {
        self.vault
    }

    /// Whether a call is passed. One that isn't counts as a fault.
    fn passes(&mut self) -> Result<(), Failed>
        ensures vault { fused self.new ≡ fused self.old }
        ensures cause { HasCause (fuse_faults V.Vault self.old) (fuse_faults V.Vault self.new) result }
        ensures passed { OnOk result (
            (0 < fuse_left self.old) × (fuse_left self.new + 1 ≡ fuse_left self.old)
            × (fuse_blown self.new ≡ fuse_blown self.old)) }
        ensures failed { OnErr result (
            (fuse_left self.old ≡ 0) × (fuse_left self.new ≡ 0)
            × (fuse_blown self.new ≡ next_fault (fuse_blown self.old))) }
    {
        if self.left == 0 {
            self.blown = self.blown.saturating_add(1);
            return Err(Failed);
        }
        self.left -= 1;
        Ok(())
    }
}

impl<V: Vault> Vault for Fuse<V> {
    ghost use Rattle.vault_sim.specs.Fuses.{fused, fuse_faults, FuseCrashes, IsFused};

    ghost files = { λ f. V.files f.vault };

    ghost placed = { λ f. V.placed f.vault };

    ghost faults = { λ f. V.faults f.vault + f.blown };

    ghost body_reads = { λ f. V.body_reads f.vault };

    ghost made = { λ f. V.made f.vault };

    ghost honest = { λ f. V.honest f.vault };

    ghost crash = { λ f. V.crash f.vault };

    ghost counts_now = { λ f. V.counts_now f.vault };

    ghost only_now = { λ f. V.only_now f.vault };

    ghost tells = { λ f. V.tells f.vault };

    fn place(&mut self, name: &str) -> Result<(), Failed>
        ensures placed { MatchResult result
            (λ _. V.placed (fused self.new) ≡ Some name.now)
            (λ _. V.placed (fused self.new) ≡ V.placed (fused self.old)) }
        ensures files { V.files (fused self.new) ≡ V.files (fused self.old) }
        ensures call { IsFused V.Vault self.old self.new result }
        ensures clean { OnOk result (fuse_faults V.Vault self.new ≡ fuse_faults V.Vault self.old) }
        ensures body_reads { V.body_reads (fused self.new) ≡ V.body_reads (fused self.old) }
        ensures torn { FuseCrashes V.Vault Stays self.old self.new }
    {
        self.passes()?;
        self.vault.place(name)
    }

    fn len(&mut self, which: Which) -> Result<u64, Failed>
        ensures number { IfOk result (λ n. IfSome (V.files (fused self.old)) (λ files.
            n ≡ length (file_of which files))) }
        ensures files { V.files (fused self.new) ≡ V.files (fused self.old) }
        ensures call { IsFused V.Vault self.old self.new result }
        ensures clean { OnOk result (fuse_faults V.Vault self.new ≡ fuse_faults V.Vault self.old) }
        ensures placed { V.placed (fused self.new) ≡ V.placed (fused self.old) }
        ensures body_reads { V.body_reads (fused self.new) ≡ V.body_reads (fused self.old) }
        ensures torn { FuseCrashes V.Vault Stays self.old self.new }
    {
        self.passes()?;
        self.vault.len(which)
    }

    fn read(&mut self, which: Which, at: u64, buf: &mut [u8]) -> Result<usize, Failed>
        requires { IfSome (V.files (fused self.old)) (λ files.
            0 < length buf.old → at < length (file_of which files)) }
        ensures bound { ReadsAtMost result buf.new }
        ensures content { IfSome (V.files (fused self.old)) (λ files.
            ReadsAt (file_of which files) at result buf.new) }
        ensures some { OnSome (V.files (fused self.old)) (IfOk result (λ n. 0 < length buf.new → 0 < n)) }
        ensures none { NoneIsFault (fuse_faults V.Vault self.old) (fuse_faults V.Vault self.new) result buf.new }
        ensures files { V.files (fused self.new) ≡ V.files (fused self.old) }
        ensures call { IsFused V.Vault self.old self.new result }
        ensures clean { IfOk result (λ n. 0 < n → fuse_faults V.Vault self.new ≡ fuse_faults V.Vault self.old) }
        ensures placed { V.placed (fused self.new) ≡ V.placed (fused self.old) }
        ensures body_reads { CountsRead which (V.body_reads (fused self.old)) (V.body_reads (fused self.new)) result }
        ensures torn { FuseCrashes V.Vault Stays self.old self.new }
    {
        self.passes()?;
        self.vault.read(which, at, buf)
    }

    fn write_at(&mut self, which: Which, at: u64, piece: &[u8]) -> Result<(), Failed>
        requires { IfSome (V.files (fused self.old)) (λ files. at ≤ length (file_of which files)) }
        ensures files { MatchResult result
            (λ _. IfKnown (Writes which at piece.now) (V.files (fused self.old)) (V.files (fused self.new)))
            (λ _. IfKnown (InFile which (Torn at (length piece.now))) (V.files (fused self.old)) (V.files (fused self.new))) }
        ensures fits { OnOk result (at + length piece.now < 2 ^ 64) }
        ensures call { IsFused V.Vault self.old self.new result }
        ensures clean { OnOk result (fuse_faults V.Vault self.new ≡ fuse_faults V.Vault self.old) }
        ensures uncounted { V.made (fused self.new) ≡ V.made (fused self.old)
            → V.files (fused self.new) ≡ V.files (fused self.old) }
        ensures placed { V.placed (fused self.new) ≡ V.placed (fused self.old) }
        ensures body_reads { V.body_reads (fused self.new) ≡ V.body_reads (fused self.old) }
        ensures torn { FuseCrashes V.Vault (InFile which (Torn at (length piece.now))) self.old self.new }
    {
        self.passes()?;
        self.vault.write_at(which, at, piece)
    }

    fn set_len(&mut self, which: Which, n: u64) -> Result<(), Failed>
        ensures files { MatchResult result
            (λ _. IfKnown (Resizes which n) (V.files (fused self.old)) (V.files (fused self.new)))
            (λ _. IfKnown (MayResize which n) (V.files (fused self.old)) (V.files (fused self.new))) }
        ensures call { IsFused V.Vault self.old self.new result }
        ensures clean { OnOk result (fuse_faults V.Vault self.new ≡ fuse_faults V.Vault self.old) }
        ensures uncounted { V.made (fused self.new) ≡ V.made (fused self.old)
            → V.files (fused self.new) ≡ V.files (fused self.old) }
        ensures placed { V.placed (fused self.new) ≡ V.placed (fused self.old) }
        ensures body_reads { V.body_reads (fused self.new) ≡ V.body_reads (fused self.old) }
        ensures torn { FuseCrashes V.Vault (InFile which (Stretched n)) self.old self.new }
    {
        self.passes()?;
        self.vault.set_len(which, n)
    }

    fn sync(&mut self, which: Which) -> Result<(), Failed>
        ensures durable { OnOk result (IsTrue (V.honest (fused self.old))
            → IsDurable which (V.files (fused self.new)) (V.crash (fused self.new))) }
        ensures files { V.files (fused self.new) ≡ V.files (fused self.old) }
        ensures call { IsFused V.Vault self.old self.new result }
        ensures clean { OnOk result (fuse_faults V.Vault self.new ≡ fuse_faults V.Vault self.old) }
        ensures placed { V.placed (fused self.new) ≡ V.placed (fused self.old) }
        ensures body_reads { V.body_reads (fused self.new) ≡ V.body_reads (fused self.old) }
        ensures torn { FuseCrashes V.Vault Stays self.old self.new }
    {
        self.passes()?;
        self.vault.sync(which)
    }

    fn calls(&self) -> u64 {
        self.vault.calls()
    }
}
