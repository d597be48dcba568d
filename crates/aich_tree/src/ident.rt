//! The nodes of a tree by their identifiers.
ghost use Rattle.std.specs.Prelude.{◌≡◌, ℕ, ◌-◌, ◌/◌, ◌<◌, ◌≤◌, ◌^◌, Some, IfSome, option_map};
ghost use Rattle.aich_tree.specs.Ident.{child_range, is_left, node_range};
ghost use Rattle.aich_tree.specs.Kept.{IsKeptAt};
ghost use Rattle.aich_tree.specs.Places.{IsPlaceOf};
ghost use Rattle.aich_tree.specs.Tree.{left_bytes};
ghost use Rattle.part_sizes.specs.Part.{IsSize};
ghost use Rattle.part_sizes.specs.declared.part.TheConstants.{SIZE_LIMIT};
ghost use Rattle.part_sizes.specs.declared.span.Span.{Span};

use crate::shape;
use part_sizes::{BLOCK, PART, Span};

/// Where a node stands: its positions, its first leaf among the file's leaves and, where it is a part or
/// above parts, its first node among the nodes that are kept.
#[derive(Clone, Copy, Debug, PartialEq, Eq)]
pub struct Place {
    pub span: Span,
    pub leaf: usize,
    pub kept: Option<usize>,
}

/// Whether the node with this identifier is a left branch, as the root is.
pub fn is_left(ident: u32) -> bool
    ensures { result ≡ is_left ident }
{
    ident % 2 == 1
}

/// Where the kept nodes of a child begin, whose parent's left child has `first` bytes. `None` where the
/// parent is a part or within one, whose blocks are not kept.
fn find_kept(ident: u32, parent: Place, first: u64) -> Option<usize>
    requires within { parent.span.e ≤ SIZE_LIMIT }
    requires room { IfSome parent.kept (λ at. at < 2 ^ 32) }
    requires first { first ≡ left_bytes (parent.span.e - parent.span.s) (is_left (ident / 2)) }
    requires proper { first ≤ SIZE_LIMIT }
    ensures { (size : ℕ) (child : Span) → child_range ident parent.span ≡ Some child
        → IfSome parent.kept (IsKeptAt size (is_left (ident / 2)) parent.span)
        → IfSome result (IsKeptAt size (is_left ident) child) }
{
    let at = parent.kept?;
    if parent.span.len() <= PART {
        return None;
    }
    if is_left(ident) {
        Some(at)
    } else {
        Some(at + shape::kept_count(first))
    }
}

/// Where a child stands, by the child's identifier.
fn find_child(ident: u32, parent: Place) -> Option<Place>
    requires some { parent.span.s < parent.span.e }
    requires within { parent.span.e ≤ SIZE_LIMIT }
    requires leaf { parent.leaf < 2 ^ 32 }
    requires room { IfSome parent.kept (λ first. first < 2 ^ 32) }
    ensures range { option_map (λ child. child.span) result ≡ child_range ident parent.span }
    ensures place { (size : ℕ) → IsPlaceOf size parent.span parent.leaf
        → IfSome result (λ child. IsPlaceOf size child.span child.leaf) }
    ensures kept { (size : ℕ) → IfSome parent.kept (IsKeptAt size (is_left (ident / 2)) parent.span)
        → IfSome result (λ child. IfSome child.kept (IsKeptAt size (is_left ident) child.span)) }
{
    let Span { s, e } = parent.span;
    if e - s <= BLOCK {
        return None;
    }
    let first = shape::left_bytes(e - s, is_left(ident / 2));
    let middle = s + first;
    let kept = find_kept(ident, parent, first);
    if is_left(ident) {
        Some(Place {
            span: Span { s, e: middle },
            leaf: parent.leaf,
            kept,
        })
    } else {
        Some(Place {
            span: Span { s: middle, e },
            leaf: parent.leaf + shape::leaf_count(first),
            kept,
        })
    }
}

/// Where the node with this identifier stands; `None` exactly where the tree has no such node.
pub fn find(size: u64, ident: u32) -> Option<Place>
    requires { IsSize size }
    ensures range { option_map (λ found. found.span) result ≡ node_range size ident }
    ensures place { IfSome result (λ found. IsPlaceOf size found.span found.leaf) }
    ensures kept { IfSome result (λ found. IfSome found.kept (IsKeptAt size (is_left ident) found.span)) }
{
    if ident == 0 {
        return None;
    }
    if ident == 1 {
        return Some(Place {
            span: Span { s: 0, e: size },
            leaf: 0,
            kept: Some(0),
        });
    }
    let parent = find(size, ident / 2)?;
    find_child(ident, parent)
}

/// The positions of the node with this identifier in the tree over a file of this size; `None` exactly
/// where the tree has no such node.
///
/// The root's identifier is 1. The left child of `i` has `2i + 1`, the right child `2i`.
pub fn ident_range(size: u64, ident: u32) -> Option<Span>
    requires { IsSize size }
    ensures { result ≡ node_range size ident }
{
    find(size, ident).map(|found| found.span)
}
