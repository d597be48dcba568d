//! Why an expression isn't read.
use ed2k_tags::fields::Short;
use std::alloc::{AllocError, AllocFailed};
use thiserror::Error;

/// Why an expression isn't read.
#[derive(Clone, Copy, Debug, PartialEq, Eq, Error)]
pub enum ExprFault {
    /// The bytes end within the expression.
    #[error("the bytes end within the expression")]
    Cut,
    /// The byte at this place begins no node, or is no operator.
    #[error("bad byte at {0}")]
    BadOp(usize),
    /// A node begins past `MOST_NODES`.
    #[error("too many nodes")]
    Many,
    /// A node begins deeper than `MOST_LEVELS`.
    #[error("too many levels")]
    Deep,
    /// Memory was wanted and refused.
    #[error("out of memory")]
    NoMemory,
}

impl From<Short> for ExprFault {
    ghost use Rattle.std.specs.Prelude.{◌≡◌};
    ghost use Rattle.search_expr.specs.declared.fault.ExprFault.TheVariants.{Cut};

    ghost from_gives = { λ _ fault. fault ≡ Cut };

    fn from(_short: Short) -> Self {
        ExprFault::Cut
    }
}

impl From<AllocError> for ExprFault {
    ghost use Rattle.std.specs.Prelude.{◌≡◌};
    ghost use Rattle.search_expr.specs.declared.fault.ExprFault.TheVariants.{NoMemory};

    ghost from_gives = { λ _ fault. fault ≡ NoMemory };

    fn from(_refused: AllocError) -> Self {
        ExprFault::NoMemory
    }
}

impl<T: Drop> From<AllocFailed<T>> for ExprFault {
    ghost use Rattle.std.specs.Prelude.{◌≡◌};
    ghost use Rattle.search_expr.specs.declared.fault.ExprFault.TheVariants.{NoMemory};

    ghost from_gives = { λ _ fault. fault ≡ NoMemory };

    fn from(_refused: AllocFailed<T>) -> Self {
        ExprFault::NoMemory
    }
}
