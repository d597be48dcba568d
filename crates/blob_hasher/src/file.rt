//! The hashers of a file, to which the parts are put one behind another.
ghost use Rattle.std.specs.Prelude.{◌≡◌, ◌+◌, ◌%◌, ◌≤◌, [], ◌++◌, length, IfOk, OnOk};
ghost use Rattle.part_sizes.specs.Part.{IsSize};
ghost use Rattle.part_sizes.specs.declared.part.TheConstants.{PART};
ghost use Rattle.blob_hasher.specs.Hashes.{IsHashed};

use crate::part::PartHasher;
use aich_tree::{Tree, TreeHasher};
use ed2k_outside::NoMemory;
use part_hashset::SetHasher;
use part_sizes::Hashes;
use std::alloc::Global;

/// What a file's bytes hash to.
#[derive(Drop)]
pub struct Hashed {
    /// The file's hash.
    pub hash: [u8; 16],
    /// The hash of each part, with that of the empty part at the end of a whole multiple of parts; none below
    /// one part.
    pub set: Hashes,
    /// The AICH tree, which knows the number of bytes and the root.
    pub tree: Tree,
}

/// Both hashers of a file's bytes.
#[derive(Drop)]
pub(crate) struct FileHasher {
    pub(crate) set: SetHasher,
    pub(crate) tree: TreeHasher,
}

impl FileHasher {
    /// Hashers of no bytes, for a file of this size.
    pub(crate) fn new(alloc: Global, size: u64) -> Self
        requires { IsSize size }
        ensures set { result.set ≡ [] }
        ensures size { result.tree.size ≡ size }
        ensures tree { result.tree.fed ≡ [] }
    {
        FileHasher {
            set: SetHasher::new(alloc),
            tree: TreeHasher::new(alloc, size),
        }
    }

    /// Puts the `len` bytes of a part behind whole parts.
    pub(crate) fn append(&mut self, part: PartHasher, len: usize) -> Result<(), NoMemory>
        requires same { self.old.set ≡ self.old.tree.fed }
        requires begins { length self.old.set % PART ≡ 0 }
        requires alike { part.md4 ≡ part.tree.fed }
        requires counted { len ≡ length part.md4 }
        requires one { len ≤ PART }
        requires fits { length self.old.set + len ≤ self.old.tree.size }
        ensures size { self.new.tree.size ≡ self.old.tree.size }
        ensures set { OnOk result (self.new.set ≡ self.old.set ++ part.md4) }
        ensures tree { OnOk result (self.new.tree.fed ≡ self.old.tree.fed ++ part.md4) }
    {
        self.set.append(part.md4, len)?;
        self.tree.append(part.tree)
    }

    /// The hashes of all bytes.
    pub(crate) fn finish(self) -> Result<Hashed, NoMemory>
        requires same { self.set ≡ self.tree.fed }
        requires whole { length self.set ≡ self.tree.size }
        ensures { IfOk result (IsHashed self.set) }
    {
        let FileHasher { set, tree } = self;
        let Ok(found) = set.finish() else {
            return Err(NoMemory);
        };
        let Ok(tree) = tree.finish() else {
            return Err(NoMemory);
        };
        let (hash, set) = found;
        Ok(Hashed { hash, set, tree })
    }
}
