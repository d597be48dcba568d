//! The hasher of a file's parts: it is fed a file's bytes and gives its hash set.
ghost use Rattle.std.specs.Prelude.{◌≡◌, ◌%◌, ◌≤◌, [], ◌++◌, length, IfErr, IfOk, is_ok, if◌then◌else◌};
ghost use Rattle.part_hashset.specs.HashSet.{ed2k, set_of};
ghost use Rattle.part_sizes.specs.declared.part.TheConstants.{PART};

use crate::Hash;
use crate::check::joined_hash;
use crate::parts::{self, PART_LEN};
use ed2k_outside::NoMemory;
use md4_hash::Md4;
use noted_bytes::Noted;
use part_sizes::Hashes;
use std::alloc::Global;
use std::marker::Model;

/// The file hash and the hash set of bytes that come piece by piece: `new`, a `feed` for each piece,
/// and `finish`. It takes memory for the set's members alone.
///
/// A clause sees it as the bytes fed so far.
#[derive(Drop)]
pub struct SetHasher {
    members: Vec<Hash>,
    part: Md4,
    // The bytes of the part that is open.
    filled: usize,
    fed: Noted,
}

impl Model for SetHasher {
    ghost use Rattle.std.specs.Prelude.{List, ℕ};
    ghost use Rattle.part_hashset.specs.WholeParts.{HoldsParts};

    ghost Value = { List ℕ };

    ghost view = { λ h. h.fed.bytes };

    ghost invariant = { λ h. HoldsParts h.members.items h.part h.filled h.fed.bytes };
}

impl SetHasher {
    /// A hasher of no bytes. It takes no memory.
    pub fn new(alloc: Global) -> Self
        ensures { result ≡ [] }
    {
        SetHasher {
            members: Vec::new(alloc),
            part: Md4::new(),
            filled: 0,
            fed: Noted::new(),
        }
    }

    /// Adds a piece behind the bytes fed so far. Where memory is refused, nothing of it was fed.
    pub fn feed(&mut self, piece: &[u8]) -> Result<(), NoMemory>
        ensures { self.new ≡ (if is_ok result then self.old ++ piece.now else self.old) }
    {
        let ended = parts::count_ended(self.filled, piece.len());
        self.members.reserve(ended)?;
        parts::absorb(&mut self.members, &mut self.part, self.filled, piece);
        self.filled = parts::filled_after(self.filled, piece.len());
        self.fed.note(piece);
        Ok(())
    }

    /// Adds the `len` bytes of a part that was hashed on its own, behind whole parts. Where memory is refused,
    /// nothing of them was fed.
    pub fn append(&mut self, part: Md4, len: usize) -> Result<(), NoMemory>
        requires counted { len ≡ length part }
        requires one { len ≤ PART }
        requires begins { length self.old % PART ≡ 0 }
        ensures { self.new ≡ (if is_ok result then self.old ++ part else self.old) }
    {
        if len < PART_LEN {
            self.fed.append(part.fed());
            self.part = part;
            self.filled = len;
            return Ok(());
        }
        self.members.reserve(1)?;
        self.fed.append(part.fed());
        self.members.push_reserved(part.finalize());
        Ok(())
    }

    /// The file hash and the hash set of all bytes fed, however they were cut into pieces. Where
    /// memory is refused, the hasher comes back as it was.
    pub fn finish(mut self) -> Result<(Hash, Hashes), (SetHasher, NoMemory)>
        ensures hash { IfOk result (λ found. found.0 ≡ ed2k self) }
        ensures set { IfOk result (λ found. found.1 ≡ set_of self) }
        ensures refused { IfErr result (λ kept. kept.0 ≡ self) }
    {
        if self.members.reserve(1).is_err() {
            return Err((self, NoMemory));
        }
        let SetHasher {
            mut members,
            part,
            filled: _,
            fed: _,
        } = self;
        let last = part.finalize();
        if members.is_empty() {
            return Ok((last, Hashes::new(members)));
        }
        members.push_reserved(last);
        Ok((joined_hash(&members), Hashes::new(members)))
    }
}
