//! Nodes of a tree, by their identifiers and positions.
ghost use Rattle.std.specs.Prelude.{◌≡◌, ◌<◌, ◌≤◌, ◌^◌};
ghost use Rattle.part_sizes.specs.declared.part.TheConstants.{SIZE_LIMIT};
ghost use Rattle.part_sizes.specs.declared.block.TheConstants.{BLOCK};

use aich_tree::left_bytes;
use part_sizes::Span;

/// A node of a tree: its identifier, and its positions.
#[derive(Clone, Copy, Debug, PartialEq, Eq)]
pub struct Node {
    pub ident: u32,
    pub span: Span,
}

impl Node {
    ghost use Rattle.aich_packet.specs.Way.{root_of, size_of, left_child, right_child};

    /// The root of the tree over a file of this size.
    pub fn root(size: u64) -> Self
        ensures { result ≡ root_of size }
    {
        Node {
            ident: 1,
            span: Span { s: 0, e: size },
        }
    }

    /// Its left and its right child.
    pub fn children(self) -> (Node, Node)
        requires ident { self.ident < 2 ^ 31 }
        requires branch { BLOCK < size_of self }
        requires within { self.span.e ≤ SIZE_LIMIT }
        ensures left { result.0 ≡ left_child self }
        ensures right { result.1 ≡ right_child self }
    {
        let Span { s, e } = self.span;
        let middle = s + left_bytes(e - s, self.ident % 2 == 1);
        let left = Node {
            ident: 2 * self.ident + 1,
            span: Span { s, e: middle },
        };
        let right = Node {
            ident: 2 * self.ident,
            span: Span { s: middle, e },
        };
        (left, right)
    }
}
