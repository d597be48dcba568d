//! What a valid hash set says of a file's bytes, for callers' proofs.
ghost use Rattle.part_hashset.specs.HashSetLaws.{MembersGiveHash, PartsGiveHash};

/// What a valid hash set says of a file's bytes: where their own part hashes are valid for a hash, it is
/// their file hash; and so it is where each part that exists has the hash that its member says.
pub fn sets_give_the_file_hash()
    ensures own { PartsGiveHash }
    ensures members { MembersGiveHash }
{}
