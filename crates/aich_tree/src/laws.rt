//! What makes trees and identifiers right, for callers' proofs. Each function is there for its clauses alone.
ghost use Rattle.aich_tree.specs.IdentLaws.{ChildrenDouble, NoneIsZero, RootIsOne};
ghost use Rattle.aich_tree.specs.TreeLaws.{BranchesHashChildren, LeavesHashBytes};

/// What a node's hash is made of: a leaf's is the SHA-1 of its bytes, any other's that of its children's
/// concatenated hashes.
pub fn trees_hash_their_bytes()
    ensures leaves { LeavesHashBytes }
    ensures branches { BranchesHashChildren }
{}

/// Which nodes the identifiers name: 1 the root, any greater one a child of the node with half of it.
pub fn identifiers_name_nodes()
    ensures zero { NoneIsZero }
    ensures root { RootIsOne }
    ensures children { ChildrenDouble }
{}
