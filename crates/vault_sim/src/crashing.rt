//! A crash: a vault whose files are what one of another vault may leave.
ghost use Rattle.std.specs.Prelude.{◌≡◌, ◌-◌, ◌^◌, [], IfErr, IfOk};
ghost use Rattle.ed2k_outside.specs.Files.{Files};
ghost use Rattle.vault_sim.specs.Images.{synced};
ghost use Rattle.vault_sim.specs.MemVaults.{vault_files, vault_image, vault_now, IsUnused};

use crate::mem_vault::MemVault;
use ed2k_outside::NoMemory;

/// A vault whose files are one image of this one, chosen by the number, and whose only image is this pair.
///
/// The digits of the number in base 8 say how each call since the last sync of its file was cut short: first
/// the calls on the body, the newest first, then those on the log. A 0 is a call that is whole, 1 one that
/// left nothing. By 0 the files are as a read gives them, by the greatest number no call left anything.
///
/// The vault that is left has no calls that fail by their numbers. Without memory for the copy the vault
/// comes back as it was.
pub fn crash(vault: MemVault, pick: u64) -> Result<MemVault, (MemVault, NoMemory)>
    ensures image { IfOk result (λ left. vault_image vault (vault_files left)) }
    ensures whole { pick ≡ 0 → IfOk result (λ left. vault_files left ≡ vault_files vault) }
    ensures nothing { pick ≡ 2 ^ 64 - 1 → IfOk result (λ left.
        vault_files left ≡ synced (vault_now vault)) }
    ensures unused { IfOk result (λ left. IsUnused (vault_files left) [] left) }
    ensures only { IfOk result (λ left. (c : Files) → vault_image left c → c ≡ vault_files left) }
    ensures back { IfErr result (λ refused. refused.0 ≡ vault) }
{
    match vault.torn(pick) {
        Ok(files) => {
            let alloc = vault.allocator();
            Ok(MemVault::of(alloc, files, Vec::new(alloc)))
        }
        Err(_) => Err((vault, NoMemory)),
    }
}
