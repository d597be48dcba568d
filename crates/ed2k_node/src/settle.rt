//! What is done after each round: what was written is made durable, full parts are judged, and
//! failed parts are opened again.
ghost use Rattle.std.specs.Prelude.{◌≡◌, ◌⊎◌, ◌<◌, ◌≤◌, IfErr, IsFalse, IsTrue, OnOk};
ghost use Rattle.part_sizes.specs.Part.{IsSize, data_parts};
ghost use Rattle.part_store.specs.Calls.{IsSame};
ghost use Rattle.reserve_core.specs.Desk.{is_outside};
ghost use Rattle.reserve_core.specs.Events.{events};
ghost use Rattle.reserve_core.specs.Filled.{is_uncommitted};
ghost use Rattle.ed2k_node.specs.Left.{AreJudged, GoesOn, HasNoFailed, IsJudged, IsSettled, IsSound};
ghost use Rattle.ed2k_node.specs.Left.{KeepsComplete, KeepsJudged, KeepsSettled, KeepsSound, RestsSettled};

use ed2k_outside::Vault;
use part_sizes::data_parts;
use part_store::PartFile;
use reserve_core::DeskFault;

/// Leaves out a refusal by the log. One from outside stays: the store failed, or memory was
/// refused.
pub(crate) fn skip_refusal(fault: DeskFault) -> Result<(), DeskFault>
    ensures ok { OnOk result (IsFalse (is_outside fault)) }
    ensures err { IfErr result (λ same. IsTrue (is_outside fault)) }
{
    if fault.is_outside() {
        Err(fault)
    } else {
        Ok(())
    }
}

/// Judges a part where it is full and has no verdict, and its expected digest is known.
fn judge<V: Vault + Drop>(file: &mut PartFile<V>, part: u16) -> Result<(), DeskFault>
    requires exists { part < data_parts file.old.aim.size }
    requires committed { IsFalse (is_uncommitted (events file.old.log)) }
    ensures same { IsSame file.old file.new }
    ensures files { V.files file.new.vault ≡ V.files file.old.vault }
    ensures goes_on { GoesOn (events file.old.log) (events file.new.log) }
    ensures judged { OnOk result (IsJudged file.old.aim (events file.new.log) part) }
    ensures still { IsJudged file.old.aim (events file.old.log) part → file.new.log ≡ file.old.log }
    ensures others { KeepsJudged file.old.aim (events file.old.log) (events file.new.log) }
    ensures committed { IsFalse (is_uncommitted (events file.new.log)) }
    ensures later { V.faults file.old.vault ≤ V.faults file.new.vault }
    ensures broken { IsTrue file.old.broken → IsTrue file.new.broken }
    ensures cause { IfErr result (λ fault. IsTrue file.new.broken) }
{
    match file.verify(part) {
        Ok(_) => Ok(()),
        Err(fault) => skip_refusal(fault),
    }
}

/// Judges each full part that has no verdict, where its expected digest is known.
fn judge_parts<V: Vault + Drop>(file: &mut PartFile<V>) -> Result<(), DeskFault>
    requires size { IsSize file.old.aim.size }
    requires committed { IsFalse (is_uncommitted (events file.old.log)) }
    ensures same { IsSame file.old file.new }
    ensures files { V.files file.new.vault ≡ V.files file.old.vault }
    ensures goes_on { GoesOn (events file.old.log) (events file.new.log) }
    ensures settled { OnOk result (IsSettled file.old.aim (events file.new.log)) }
    ensures still { AreJudged file.old.aim (events file.old.log) → file.new.log ≡ file.old.log }
    ensures later { V.faults file.old.vault ≤ V.faults file.new.vault }
    ensures broken { IsTrue file.old.broken → IsTrue file.new.broken }
    ensures cause { IfErr result (λ fault. IsTrue file.new.broken) }
{
    for part in 0..data_parts(file.aim().size) {
        judge(file, part)?;
    }
    Ok(())
}

/// Opens all of a part again where it is failed.
fn reopen<V: Vault + Drop>(file: &mut PartFile<V>, part: u16) -> Result<(), DeskFault>
    requires { part < data_parts file.old.aim.size }
    ensures same { IsSame file.old file.new }
    ensures files { V.files file.new.vault ≡ V.files file.old.vault }
    ensures goes_on { GoesOn (events file.old.log) (events file.new.log) }
    ensures reopened { OnOk result (IsSound file.old.aim (events file.new.log) part) }
    ensures still { IsSound file.old.aim (events file.old.log) part → file.new.log ≡ file.old.log }
    ensures others { KeepsSound file.old.aim (events file.old.log) (events file.new.log) }
    ensures settled { KeepsSettled file.old.aim (events file.old.log) (events file.new.log) }
    ensures later { V.faults file.old.vault ≤ V.faults file.new.vault }
    ensures broken { IsTrue file.old.broken → IsTrue file.new.broken }
    ensures cause { IfErr result (λ fault. IsTrue file.new.broken) }
{
    match file.drop_part(part) {
        Ok(()) => Ok(()),
        Err(fault) => skip_refusal(fault),
    }
}

/// Opens all of each failed part again.
fn drop_failed<V: Vault + Drop>(file: &mut PartFile<V>) -> Result<(), DeskFault>
    requires { IsSize file.old.aim.size }
    ensures same { IsSame file.old file.new }
    ensures files { V.files file.new.vault ≡ V.files file.old.vault }
    ensures goes_on { GoesOn (events file.old.log) (events file.new.log) }
    ensures reopened { OnOk result (HasNoFailed file.old.aim (events file.new.log)) }
    ensures settled { KeepsSettled file.old.aim (events file.old.log) (events file.new.log) }
    ensures still { HasNoFailed file.old.aim (events file.old.log) → file.new.log ≡ file.old.log }
    ensures later { V.faults file.old.vault ≤ V.faults file.new.vault }
    ensures broken { IsTrue file.old.broken → IsTrue file.new.broken }
    ensures cause { IfErr result (λ fault. IsTrue file.new.broken) }
{
    for part in 0..data_parts(file.aim().size) {
        reopen(file, part)?;
    }
    Ok(())
}

/// Commits what was written, judges each full part that has no verdict, where the digest that it is
/// to have is known, and opens each failed part again. It is refused where the store is broken, or
/// memory was wanted and refused.
pub(crate) fn settle<V: Vault + Drop>(file: &mut PartFile<V>) -> Result<(), DeskFault>
    requires { IsSize file.old.aim.size }
    ensures same { IsSame file.old file.new }
    ensures files { V.files file.new.vault ≡ V.files file.old.vault }
    ensures goes_on { GoesOn (events file.old.log) (events file.new.log) }
    ensures reopened { OnOk result (HasNoFailed file.old.aim (events file.new.log)) }
    ensures settled { OnOk result (IsSettled file.old.aim (events file.new.log)) }
    ensures still { RestsSettled file.old.aim file.old.log file.new.log }
    ensures kept { KeepsComplete file.old.aim (events file.old.log) (events file.new.log) }
    ensures later { V.faults file.old.vault ≤ V.faults file.new.vault }
    ensures broken { IsTrue file.old.broken → IsTrue file.new.broken }
    ensures cause { IfErr result (λ fault. (fault ≡ DeskFault.NoMemory) ⊎ IsTrue file.new.broken) }
{
    file.commit()?;
    judge_parts(file)?;
    drop_failed(file)
}
