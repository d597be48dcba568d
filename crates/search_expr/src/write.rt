//! Expressions written as bytes.
ghost use Rattle.std.specs.Prelude.{◌≡◌, [], ◌∷◌, ◌++◌, IfOk, OnOk, OnErr, IsTrue};
ghost use Rattle.std.specs.Io.{StartsWith};
ghost use Rattle.byteorder.specs.Endian.{little_bytes};
ghost use Rattle.search_expr.specs.Query.{query};
ghost use Rattle.search_expr.specs.Spelling.{spell, texts_fit, operator};

use crate::expr::Expr;
use ed2k_outside::{Bytes, NoMemory};
use ed2k_tags::fields::{append_text, append_u32};
use std::alloc::{AllocError, Global};

/// The spelling of an expression, which [`crate::read_expr`] reads where it is within its limits. Operators are
/// written as 1 for a least number and 2 for a most.
pub fn write_expr(alloc: Global, expr: &Expr) -> Result<Bytes, NoMemory>
    requires { IsTrue (texts_fit (query expr.now)) }
    ensures { IfOk result (λ bytes. bytes ≡ spell (query expr.now)) }
{
    let mut out = Vec::new(alloc);
    append_expr(&mut out, expr)?;
    Ok(Bytes::new(out))
}

/// True exactly where each text fits the length that is written before it.
pub fn texts_fit(expr: &Expr) -> bool
    ensures { result ≡ texts_fit (query expr.now) }
{
    match expr {
        Expr::And(left, right) | Expr::Or(left, right) | Expr::Not(left, right) => {
            texts_fit(left) && texts_fit(right)
        }
        Expr::Word(text) => text.len() < 0x1_0000,
        Expr::TagText { value, name } => value.len() < 0x1_0000 && name.len() < 0x1_0000,
        Expr::Number { name, .. } => name.len() < 0x1_0000,
    }
}

/// Writes an expression at the end. Where memory is refused, what stood there is left at the front, and a part
/// of the expression may stand behind it.
pub fn append_expr(out: &mut Vec<u8>, expr: &Expr) -> Result<(), AllocError>
    ensures written { OnOk result (out.new.items ≡ out.old.items ++ spell (query expr.now)) }
    ensures refused { OnErr result (StartsWith out.new.items out.old.items) }
{
    match expr {
        Expr::And(left, right) => {
            out.extend_from_slice(&[0, 0])?;
            append_expr(out, left)?;
            append_expr(out, right)
        }
        Expr::Or(left, right) => {
            out.extend_from_slice(&[0, 1])?;
            append_expr(out, left)?;
            append_expr(out, right)
        }
        Expr::Not(left, right) => {
            out.extend_from_slice(&[0, 2])?;
            append_expr(out, left)?;
            append_expr(out, right)
        }
        Expr::Word(text) => {
            out.push(1)?;
            append_text(out, text.as_slice())
        }
        Expr::TagText { value, name } => {
            out.push(2)?;
            append_text(out, value.as_slice())?;
            append_text(out, name.as_slice())
        }
        Expr::Number { value, most, name } => {
            out.push(3)?;
            append_limit(out, *value, *most)?;
            append_text(out, name.as_slice())
        }
    }
}

/// Writes a number and the operator that says whether it is a most.
fn append_limit(out: &mut Vec<u8>, value: u32, most: bool) -> Result<(), AllocError>
    ensures written { OnOk result (out.new.items ≡ out.old.items ++ (little_bytes 4 value ++ operator most ∷ [])) }
    ensures refused { OnErr result (StartsWith out.new.items out.old.items) }
{
    append_u32(out, value)?;
    out.push(if most { 2 } else { 1 })?;
    Ok(())
}
