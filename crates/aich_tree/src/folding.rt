//! A node's hash from the leaves below it.
ghost use Rattle.std.specs.Prelude.{◌≡◌, ℕ, ◌+◌, ◌≤◌, List, ◌++◌, length, vec_len, vec_capacity};
ghost use Rattle.sha1.specs.Sha1.{sha1};
ghost use Rattle.aich_tree.specs.Kept.{kept_count, kept_of};
ghost use Rattle.aich_tree.specs.Leaves.{leaf_count, leaves_of};
ghost use Rattle.aich_tree.specs.Tree.{tree};
ghost use Rattle.part_sizes.specs.Part.{IsSize};

use crate::shape;
use part_sizes::{BLOCK, PART};
use sha1::Sha1;

/// The SHA-1 of two children's hashes, the left one first.
pub fn join(left: &[u8; 20], right: &[u8; 20]) -> [u8; 20]
    ensures { result ≡ sha1 (left.now ++ right.now) }
{
    let mut hasher = Sha1::new();
    hasher.update(left);
    hasher.update(right);
    hasher.finalize()
}

/// The hash of a node over `n` bytes, from its leaves' hashes. `left` tells whether the node is a left
/// branch, as the root is.
pub fn fold(leaves: &[[u8; 20]], n: u64, left: bool) -> [u8; 20]
    requires size { IsSize n }
    requires count { length leaves.now ≡ leaf_count n }
    ensures { (bytes : List ℕ) → length bytes ≡ n → leaves.now ≡ leaves_of bytes
        → result ≡ tree bytes left }
{
    if n <= BLOCK {
        return leaves[0];
    }
    let middle = shape::left_bytes(n, left);
    let (front, behind) = leaves.split_at(shape::leaf_count(middle));
    let first = fold(front, middle, true);
    let second = fold(behind, n - middle, false);
    join(&first, &second)
}

/// Writes the hashes of a node's parts and of the nodes above them at the end, its own last, and answers its
/// own. There is room for them.
pub fn append_kept(out: &mut Vec<[u8; 20]>, leaves: &[[u8; 20]], n: u64, left: bool) -> [u8; 20]
    requires size { IsSize n }
    requires count { length leaves.now ≡ leaf_count n }
    requires room { vec_len out.old + kept_count n ≤ vec_capacity out.old }
    ensures kept { (bytes : List ℕ) → length bytes ≡ n → leaves.now ≡ leaves_of bytes
        → out.new.items ≡ out.old.items ++ kept_of bytes left }
    ensures own { (bytes : List ℕ) → length bytes ≡ n → leaves.now ≡ leaves_of bytes
        → result ≡ tree bytes left }
    ensures count { vec_len out.new ≡ vec_len out.old + kept_count n }
    ensures capacity { vec_capacity out.new ≡ vec_capacity out.old }
{
    if n <= PART {
        let hash = fold(leaves, n, left);
        out.push_reserved(hash);
        return hash;
    }
    let middle = shape::left_bytes(n, left);
    let (front, behind) = leaves.split_at(shape::leaf_count(middle));
    let first = append_kept(out, front, middle, true);
    let second = append_kept(out, behind, n - middle, false);
    let hash = join(&first, &second);
    out.push_reserved(hash);
    hash
}
