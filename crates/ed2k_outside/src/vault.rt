//! The pair of files that a download is kept in, and what a crash may leave of it.
ghost use Rattle.std.specs.Prelude.{◌≡◌, ◌+◌, ◌<◌, ◌≤◌, ◌^◌, ℕ, Bool, List, Some, length, IfOk, IfSome, IsTrue, OnOk, OnSome, MatchResult};
ghost use Rattle.std.specs.declared.option.Option.{Option};
ghost use Rattle.std.specs.Io.{ReadsAtMost};
ghost use Rattle.ed2k_outside.specs.Causes.{HasCause, NoneIsFault, CountsCall, IfKnown};
ghost use Rattle.ed2k_outside.specs.Blobs.{ReadsAt};
ghost use Rattle.ed2k_outside.specs.Files.{Files, file_of, Writes, Resizes, MayResize, InFile, CountsRead};
ghost use Rattle.ed2k_outside.specs.Crashes.{CrashView, Crashes, Torn, Stretched, Stays, IsDurable, TellsImage};

use crate::Failed;

/// One of the two files of a vault.
#[derive(Clone, Copy, Debug, PartialEq, Eq)]
pub enum Which {
    /// The bytes of the file that is downloaded.
    Body,
    /// The record of what was done.
    Log,
}

/// Two files that outlive the program, and may be left torn by a crash at any moment.
///
/// An honest vault keeps the disk model: between two syncs of a file that succeed, each written range and
/// all past the old end may hold any bytes, and the length is any between the old and the new; bytes
/// outside stay; after a sync that succeeds a crash leaves what a read gives. The two files are
/// independent.
pub trait Vault {
    /// The bytes of both files, where the vault tells them.
    ghost files: { Self → Option Files };

    /// The name that `place` told last, if one was told. No other call changes it.
    ghost placed: { Self → Option (List ℕ) };

    /// How often a call failed, or a read gave nothing to a buffer that isn't empty. It never falls, and no
    /// other call changes it.
    ghost faults: { Self → ℕ };

    /// The number of reads of the body.
    ghost body_reads: { Self → ℕ };

    /// The number of calls that `calls` answers.
    ghost made: { Self → ℕ };

    /// Whether the vault keeps the disk model. Each call keeps it as it is.
    ghost honest: { Self → Bool };

    /// What a crash may leave of the two files: now, and at any moment since so many calls were made.
    ghost crash: { Self → CrashView };

    /// Names the pair of files that the calls from now on mean. A call that fails leaves the pair before.
    /// What files hold doesn't change. A vault that tells its bytes has one pair, which stays.
    fn place(&mut self, name: &str) -> Result<(), Failed>
        ensures placed { MatchResult result
            (λ _. placed self.new ≡ Some name.now)
            (λ _. placed self.new ≡ placed self.old) }
        ensures files { files self.new ≡ files self.old }
        ensures cause { HasCause (faults self.old) (faults self.new) result }
        ensures clean { OnOk result (faults self.new ≡ faults self.old) }
        ensures made { CountsCall (made self.old) (made self.new) result }
        ensures body_reads { body_reads self.new ≡ body_reads self.old }
        ensures honest { honest self.new ≡ honest self.old }
        ensures torn { IsTrue (honest self.old) →
            Crashes Stays (made self.old) (crash self.old) (crash self.new) };

    /// The number of bytes of a file.
    fn len(&mut self, which: Which) -> Result<u64, Failed>
        ensures number { IfOk result (λ n. IfSome (files self.old) (λ files. n ≡ length (file_of which files))) }
        ensures files { files self.new ≡ files self.old }
        ensures cause { HasCause (faults self.old) (faults self.new) result }
        ensures clean { OnOk result (faults self.new ≡ faults self.old) }
        ensures made { CountsCall (made self.old) (made self.new) result }
        ensures placed { placed self.new ≡ placed self.old }
        ensures body_reads { body_reads self.new ≡ body_reads self.old }
        ensures honest { honest self.new ≡ honest self.old }
        ensures torn { IsTrue (honest self.old) →
            Crashes Stays (made self.old) (crash self.old) (crash self.new) };

    /// Copies some of a file's bytes from `at` on into the front of the buffer, and answers how many. Unless
    /// the buffer is empty, a vault that tells its bytes is read below the file's end alone, and gives at
    /// least one byte. A read of any vault that gives none to a buffer that isn't empty counts as a fault.
    fn read(&mut self, which: Which, at: u64, buf: &mut [u8]) -> Result<usize, Failed>
        requires { IfSome (files self.old) (λ files. 0 < length buf.old → at < length (file_of which files)) }
        ensures bound { ReadsAtMost result buf.new }
        ensures content { IfSome (files self.old) (λ files. ReadsAt (file_of which files) at result buf.new) }
        ensures some { OnSome (files self.old) (IfOk result (λ n. 0 < length buf.new → 0 < n)) }
        ensures none { NoneIsFault (faults self.old) (faults self.new) result buf.new }
        ensures files { files self.new ≡ files self.old }
        ensures cause { HasCause (faults self.old) (faults self.new) result }
        ensures clean { IfOk result (λ n. 0 < n → faults self.new ≡ faults self.old) }
        ensures made { CountsCall (made self.old) (made self.new) result }
        ensures placed { placed self.new ≡ placed self.old }
        ensures body_reads { CountsRead which (body_reads self.old) (body_reads self.new) result }
        ensures honest { honest self.new ≡ honest self.old }
        ensures torn { IsTrue (honest self.old) →
            Crashes Stays (made self.old) (crash self.old) (crash self.new) };

    /// Writes over what a file holds from `at` on, and past its end. A write past 2^64 - 1 bytes fails. A
    /// write that fails may leave any bytes in its range.
    fn write_at(&mut self, which: Which, at: u64, piece: &[u8]) -> Result<(), Failed>
        requires { IfSome (files self.old) (λ files. at ≤ length (file_of which files)) }
        ensures files { MatchResult result
            (λ _. IfKnown (Writes which at piece.now) (files self.old) (files self.new))
            (λ _. IfKnown (InFile which (Torn at (length piece.now))) (files self.old) (files self.new)) }
        ensures fits { OnOk result (at + length piece.now < 2 ^ 64) }
        ensures cause { HasCause (faults self.old) (faults self.new) result }
        ensures clean { OnOk result (faults self.new ≡ faults self.old) }
        ensures made { CountsCall (made self.old) (made self.new) result }
        ensures uncounted { made self.new ≡ made self.old → files self.new ≡ files self.old }
        ensures placed { placed self.new ≡ placed self.old }
        ensures body_reads { body_reads self.new ≡ body_reads self.old }
        ensures honest { honest self.new ≡ honest self.old }
        ensures torn { IsTrue (honest self.old) →
            Crashes (InFile which (Torn at (length piece.now))) (made self.old) (crash self.old) (crash self.new) };

    /// Cuts a file to `n` bytes, or fills it up to them with zero bytes. A call that fails leaves the old
    /// length or the new one.
    fn set_len(&mut self, which: Which, n: u64) -> Result<(), Failed>
        ensures files { MatchResult result
            (λ _. IfKnown (Resizes which n) (files self.old) (files self.new))
            (λ _. IfKnown (MayResize which n) (files self.old) (files self.new)) }
        ensures cause { HasCause (faults self.old) (faults self.new) result }
        ensures clean { OnOk result (faults self.new ≡ faults self.old) }
        ensures made { CountsCall (made self.old) (made self.new) result }
        ensures uncounted { made self.new ≡ made self.old → files self.new ≡ files self.old }
        ensures placed { placed self.new ≡ placed self.old }
        ensures body_reads { body_reads self.new ≡ body_reads self.old }
        ensures honest { honest self.new ≡ honest self.old }
        ensures torn { IsTrue (honest self.old) →
            Crashes (InFile which (Stretched n)) (made self.old) (crash self.old) (crash self.new) };

    /// After it, a crash leaves of the file what a read gives.
    fn sync(&mut self, which: Which) -> Result<(), Failed>
        ensures durable { OnOk result
            (IsTrue (honest self.old) → IsDurable which (files self.new) (crash self.new)) }
        ensures files { files self.new ≡ files self.old }
        ensures cause { HasCause (faults self.old) (faults self.new) result }
        ensures clean { OnOk result (faults self.new ≡ faults self.old) }
        ensures made { CountsCall (made self.old) (made self.new) result }
        ensures placed { placed self.new ≡ placed self.old }
        ensures body_reads { body_reads self.new ≡ body_reads self.old }
        ensures honest { honest self.new ≡ honest self.old }
        ensures torn { IsTrue (honest self.old) →
            Crashes Stays (made self.old) (crash self.old) (crash self.new) };

    /// The number of the calls above that were made. It never falls. A call that failed without an effect
    /// may go uncounted. Where it stands at 2^64 - 1, each further call fails without an effect.
    fn calls(&self) -> u64
        ensures { result ≡ made self.now };

    /// This moment is one of those since an earlier call.
    ghost counts_now: { (v : Self) (t : ℕ) (c : Files) →
        t ≤ made v → (crash v).image c → (crash v).since t c };

    /// Since this moment there is no other.
    ghost only_now: { (v : Self) (c : Files) → (crash v).since (made v) c → (crash v).image c };

    /// An honest vault tells its bytes, and a crash may leave them.
    ghost tells: { (v : Self) → IsTrue (honest v) → TellsImage (files v) (crash v) };
}
