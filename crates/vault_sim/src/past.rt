//! Every earlier moment, for proofs alone: a snapshot has no size, and a list of them takes no memory.
ghost use Rattle.std.specs.Prelude.{◌≡◌, ◌∷◌, [], OnErr, OnOk};

use crate::disk::Disk;
use ed2k_outside::NoMemory;
use std::alloc::Global;
use std::snapshot::Snapshot;

/// The disk before each call, the newest first.
#[derive(Drop)]
pub(crate) struct Past {
    disks: Vec<Snapshot<Disk>>,
}

impl Past {
    ghost use Rattle.vault_sim.specs.Disks.{moment_of};
    ghost use Rattle.vault_sim.specs.Pasts.{moments};

    /// No call was made.
    pub(crate) fn new(alloc: Global) -> Past
        ensures { moments result ≡ [] }
    {
        Past {
            disks: Vec::new(alloc),
        }
    }

    /// Notes the disk before a call, and says whether it did. It always does, which no clause can say.
    pub(crate) fn note(&mut self, disk: &Disk) -> Result<(), NoMemory>
        ensures ok { OnOk result (moments self.new ≡ moment_of disk.now ∷ moments self.old) }
        ensures err { OnErr result (moments self.new ≡ moments self.old) }
    {
        match self.disks.insert(0, Snapshot::of(disk)) {
            Ok(()) => Ok(()),
            Err(_) => Err(NoMemory),
        }
    }
}
