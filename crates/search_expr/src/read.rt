//! Expressions read from bytes, the first node first.
ghost use Rattle.std.specs.Prelude.{◌≡◌, ◌≤◌, ◌<◌, length, IfOk, IfErr};
ghost use Rattle.ed2k_tags.specs.Reading.{Gives};
ghost use Rattle.search_expr.specs.Query.{query, depth, nodes, joined};
ghost use Rattle.search_expr.specs.Reading.{start_at, join_at, leaf_at, operator_at, expr_at, front_at, read_at};

use crate::expr::Expr;
use crate::fault::ExprFault;
use ed2k_tags::fields::{copied, read_text, read_u8, read_u32};
use std::alloc::{AllocError, Global};

/// The most nodes of an expression.
pub const MOST_NODES: u32 = 512;

/// The most levels of an expression: the root is one.
pub const MOST_LEVELS: u32 = 64;

/// How two expressions are one.
#[derive(Clone, Copy, Debug, PartialEq, Eq)]
pub enum Join {
    And,
    Or,
    Not,
}

/// What has no expression in it.
#[derive(Clone, Copy, Debug, PartialEq, Eq)]
pub enum Leaf {
    Word,
    TagText,
    Number,
}

/// What a node is.
#[derive(Clone, Copy, Debug, PartialEq, Eq)]
pub enum Start {
    Join(Join),
    Leaf(Leaf),
}

/// Two expressions as one.
pub(crate) fn join_of(
    alloc: Global,
    join: Join,
    left: Expr,
    right: Expr,
) -> Result<Expr, AllocError>
    ensures { IfOk result (λ expr. query expr ≡ joined join (query left) (query right)) }
{
    let left = Box::new(alloc, left)?;
    let right = Box::new(alloc, right)?;
    match join {
        Join::And => Ok(Expr::And(left, right)),
        Join::Or => Ok(Expr::Or(left, right)),
        Join::Not => Ok(Expr::Not(left, right)),
    }
}

/// How the two expressions that follow are one.
#[tactic(auto, unfolding(crate::specs::Reading::join_at))]
fn read_join(bytes: &[u8], end: usize) -> Result<(Start, &[u8]), ExprFault>
    ensures { Gives ExprFault.NoMemory (λ x. (x.0, x.1.now)) result (join_at end bytes.now) }
{
    let (join, rest) = read_u8(bytes)?;
    match join {
        0 => Ok((Start::Join(Join::And), rest)),
        1 => Ok((Start::Join(Join::Or), rest)),
        2 => Ok((Start::Join(Join::Not), rest)),
        _ => Err(ExprFault::BadOp(end.saturating_sub(bytes.len()))),
    }
}

/// What the first bytes say that a node is.
#[tactic(auto, unfolding(crate::specs::Reading::start_at))]
fn read_start(bytes: &[u8], end: usize) -> Result<(Start, &[u8]), ExprFault>
    ensures { Gives ExprFault.NoMemory (λ x. (x.0, x.1.now)) result (start_at end bytes.now) }
{
    let (first, rest) = read_u8(bytes)?;
    match first {
        0 => read_join(rest, end),
        1 => Ok((Start::Leaf(Leaf::Word), rest)),
        2 => Ok((Start::Leaf(Leaf::TagText), rest)),
        3 => Ok((Start::Leaf(Leaf::Number), rest)),
        _ => Err(ExprFault::BadOp(end.saturating_sub(bytes.len()))),
    }
}

/// Whether an operator asks for a most.
#[tactic(auto, unfolding(crate::specs::Reading::operator_at))]
fn read_operator(bytes: &[u8], end: usize) -> Result<(bool, &[u8]), ExprFault>
    ensures { Gives ExprFault.NoMemory (λ x. (x.0, x.1.now)) result (operator_at end bytes.now) }
{
    let (operator, rest) = read_u8(bytes)?;
    match operator {
        1 | 3 => Ok((false, rest)),
        2 | 4 => Ok((true, rest)),
        _ => Err(ExprFault::BadOp(end.saturating_sub(bytes.len()))),
    }
}

#[tactic(auto, unfolding(crate::specs::Reading::leaf_at))]
fn read_leaf(
    alloc: Global,
    leaf: Leaf,
    bytes: &[u8],
    end: usize,
) -> Result<(Expr, &[u8]), ExprFault>
    ensures { Gives ExprFault.NoMemory (λ x. (query x.0, x.1.now)) result (leaf_at end leaf bytes.now) }
{
    match leaf {
        Leaf::Word => {
            let (text, rest) = read_text(bytes)?;
            Ok((Expr::Word(copied(alloc, text)?), rest))
        }
        Leaf::TagText => {
            let (value, rest) = read_text(bytes)?;
            let (name, rest) = read_text(rest)?;
            let value = copied(alloc, value)?;
            let name = copied(alloc, name)?;
            Ok((Expr::TagText { value, name }, rest))
        }
        Leaf::Number => {
            let (value, rest) = read_u32(bytes)?;
            let (most, rest) = read_operator(rest, end)?;
            let (name, rest) = read_text(rest)?;
            let name = copied(alloc, name)?;
            Ok((Expr::Number { value, most, name }, rest))
        }
    }
}

/// An expression of at most so many levels and nodes. What is left of the nodes is kept.
#[tactic(auto, unfolding(crate::specs::Reading::expr_at))]
fn read_node<'a>(
    alloc: Global,
    bytes: &'a [u8],
    end: usize,
    levels: u32,
    room: &mut u32,
) -> Result<(Expr, &'a [u8]), ExprFault>
    ensures { Gives ExprFault.NoMemory (λ x. ((query x.0, room.new), x.1.now)) result
        (expr_at end levels room.old bytes.entry.now) }
{
    if *room == 0 {
        return Err(ExprFault::Many);
    }
    if levels == 0 {
        return Err(ExprFault::Deep);
    }
    *room -= 1;
    let (start, rest) = read_start(bytes, end)?;
    match start {
        Start::Join(join) => match read_node(alloc, rest, end, levels - 1, room) {
            Err(fault) => Err(fault),
            Ok((left, rest)) => match read_node(alloc, rest, end, levels - 1, room) {
                Err(fault) => Err(fault),
                Ok((right, rest)) => {
                    let expr = join_of(alloc, join, left, right)?;
                    Ok((expr, rest))
                }
            },
        },
        Start::Leaf(leaf) => read_leaf(alloc, leaf, rest, end),
    }
}

/// The expression at the front of bytes that end at a place, and the bytes after it. Places are counted as the
/// end is. The refusals are those of [`read_expr`].
#[tactic(auto, unfolding(crate::specs::Reading::front_at))]
pub fn expr_at(alloc: Global, bytes: &[u8], end: usize) -> Result<(Expr, &[u8]), ExprFault>
    ensures { Gives ExprFault.NoMemory (λ x. (query x.0, x.1.now)) result (front_at end bytes.now) }
{
    let mut room = MOST_NODES;
    read_node(alloc, bytes, end, MOST_LEVELS, &mut room)
}

/// The expression at the front of bytes, and the place after it.
///
/// `Cut` comes exactly where the bytes end within the expression, `BadOp` where a byte begins no node or is no
/// operator, with its place, `Many` where a node begins past `MOST_NODES`, and `Deep` where one begins past
/// `MOST_LEVELS`, whichever stands first; at one place in the order `Many`, `Deep`, `BadOp`, `Cut`. A node begins
/// where it is due, whether or not a byte stands there. `NoMemory` may come in place of any answer.
#[tactic(auto, unfolding(crate::specs::Reading::read_at))]
pub fn read_expr(alloc: Global, bytes: &[u8]) -> Result<(Expr, usize), ExprFault>
    ensures exact { Gives ExprFault.NoMemory (λ x. (query x.0, x.1)) result (read_at bytes.now) }
{
    let (expr, rest) = expr_at(alloc, bytes, bytes.len())?;
    Ok((expr, bytes.len().saturating_sub(rest.len())))
}
