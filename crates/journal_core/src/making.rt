//! Making a log file.
ghost use Rattle.std.specs.Prelude.{◌≡◌, ◌+◌, ◌<◌, ◌≤◌, ◌^◌, ℕ, List, length, OnOk, IfOk, IfSome, IsTrue};
ghost use Rattle.ed2k_outside.specs.Causes.{HasCause};
ghost use Rattle.ed2k_outside.specs.Crashes.{IsDurable};
ghost use Rattle.ed2k_outside.specs.Files.{Files};
ghost use Rattle.ed2k_outside.specs.Runs.{Ran};
ghost use Rattle.journal_core.specs.Appends.{body_of, log_of};
ghost use Rattle.journal_core.specs.Fresh.{FreshOrEmpty, IsEmptyStore, IsFresh, KeepsLog, StaysFresh, EndsFields};
ghost use Rattle.journal_core.specs.Gates.{EndsAt};
ghost use Rattle.journal_core.specs.Headers.{IsKeptSize, magic};
ghost use Rattle.journal_core.specs.LogFile.{Stands};
ghost use Rattle.journal_core.specs.States.{nothing};

use crate::header::Header;
use crate::journal::Journal;
use byteorder::{ByteOrder, LittleEndian};
use ed2k_outside::{Failed, Vault, Which};

/// The magic bytes, and a closed gate.
const FRONT: [u8; 9] = *b"ED2KPF01\0";

/// The header's bytes behind its gate, and a closed gate behind them.
fn fields(header: &Header) -> [u8; 46]
    requires size { IsKeptSize header.now.size }
    ensures { EndsFields header.now result }
{
    let mut bytes = [0; 46];
    LittleEndian::write_u64(&mut bytes[..8], header.size);
    bytes[8..24].copy_from_slice(&header.hash);
    if let Some(root) = &header.root {
        bytes[24] = 1;
        bytes[25..45].copy_from_slice(root);
    }
    bytes
}

/// Writes the magic bytes and a closed gate into a fresh log file that may lack them. A crash leaves a fresh
/// log.
fn begin<V: Vault>(vault: &mut V) -> Result<(), Failed>
    requires fresh { IfSome (V.files vault.old) (λ f. IsFresh f.log) }
    requires durable { IsTrue (V.honest vault.old)
        → IsDurable Which.Log (V.files vault.old) (V.crash vault.old) }
    ensures begun { OnOk result (IfSome (V.files vault.new) (λ f. EndsAt magic f.log)) }
    ensures durable { OnOk result (IsTrue (V.honest vault.old)
        → IsDurable Which.Log (V.files vault.new) (V.crash vault.new)) }
    ensures torn { IsTrue (V.honest vault.old)
        → Ran (V.made vault.old) (V.crash vault.old) (V.crash vault.new)
        (StaysFresh (V.crash vault.old)) (StaysFresh (V.crash vault.old)) }
    ensures body { body_of (V.files vault.new) ≡ body_of (V.files vault.old) }
    ensures later { V.made vault.old ≤ V.made vault.new }
    ensures cause { HasCause (V.faults vault.old) (V.faults vault.new) result }
    ensures clean { OnOk result (V.faults vault.new ≡ V.faults vault.old) }
    ensures placed { V.placed vault.new ≡ V.placed vault.old }
    ensures body_reads { V.body_reads vault.new ≡ V.body_reads vault.old }
    ensures honest { V.honest vault.new ≡ V.honest vault.old }
{
    if vault.len(Which::Log)? <= 9 {
        vault.write_at(Which::Log, 0, &FRONT)?;
        vault.set_len(Which::Log, 9)?;
        vault.sync(Which::Log)?;
    }
    Ok(())
}

/// Gives the body its length, and syncs it.
fn size_body<V: Vault>(vault: &mut V, size: u64) -> Result<(), Failed>
    ensures sized { OnOk result (IfSome (V.files vault.new) (λ f. length f.body ≡ size)) }
    ensures durable { OnOk result (IsTrue (V.honest vault.old)
        → IsDurable Which.Body (V.files vault.new) (V.crash vault.new)) }
    ensures torn { IsTrue (V.honest vault.old)
        → Ran (V.made vault.old) (V.crash vault.old) (V.crash vault.new)
        (KeepsLog (V.crash vault.old)) (KeepsLog (V.crash vault.old)) }
    ensures log { log_of (V.files vault.new) ≡ log_of (V.files vault.old) }
    ensures later { V.made vault.old ≤ V.made vault.new }
    ensures cause { HasCause (V.faults vault.old) (V.faults vault.new) result }
    ensures clean { OnOk result (V.faults vault.new ≡ V.faults vault.old) }
    ensures placed { V.placed vault.new ≡ V.placed vault.old }
    ensures body_reads { V.body_reads vault.new ≡ V.body_reads vault.old }
    ensures honest { V.honest vault.new ≡ V.honest vault.old }
{
    vault.set_len(Which::Body, size)?;
    vault.sync(Which::Body)
}

impl Journal {
    /// Makes the files of an empty store in a vault whose log is fresh, and takes no memory. The body gets the
    /// header's size first, and the header's gate is opened last.
    ///
    /// A crash at any moment of it leaves a fresh log, or the empty store. It needs both files synced, so that
    /// a crash leaves the log that a read gives.
    pub fn create<V: Vault>(vault: &mut V, header: &Header) -> Result<Journal, Failed>
        requires size { IsKeptSize header.now.size }
        requires fresh { IfSome (V.files vault.old) (λ f. IsFresh f.log) }
        requires durable { IsTrue (V.honest vault.old)
            → IsDurable Which.Log (V.files vault.old) (V.crash vault.old) }
        ensures stands { IfOk result (λ journal. IfSome (V.files vault.new) (λ f.
            (st : Stands header.now f.log nothing) × (journal.gate ≡ st.gate))) }
        ensures sized { OnOk result (IfSome (V.files vault.new) (λ f. length f.body ≡ header.now.size)) }
        ensures durable { OnOk result (IsTrue (V.honest vault.old)
            → IsDurable Which.Log (V.files vault.new) (V.crash vault.new)) }
        ensures torn { IsTrue (V.honest vault.old)
            → Ran (V.made vault.old) (V.crash vault.old) (V.crash vault.new)
            (FreshOrEmpty header.now) (FreshOrEmpty header.now) }
        ensures empty { OnOk result (IsTrue (V.honest vault.old)
            → (c : Files) → (V.crash vault.new).image c → IsEmptyStore header.now c) }
        ensures low { IfOk result (λ journal. journal.gate + 1 < 2 ^ 64) }
        ensures later { V.made vault.old ≤ V.made vault.new }
        ensures cause { HasCause (V.faults vault.old) (V.faults vault.new) result }
        ensures clean { OnOk result (V.faults vault.new ≡ V.faults vault.old) }
        ensures placed { V.placed vault.new ≡ V.placed vault.old }
        ensures body_reads { V.body_reads vault.new ≡ V.body_reads vault.old }
        ensures honest { V.honest vault.new ≡ V.honest vault.old }
    {
        size_body(vault, header.size)?;
        begin(vault)?;
        let mut journal = Journal { gate: 8 };
        journal.append(vault, &fields(header))?;
        Ok(journal)
    }
}
