//! The numbers that the definitions take from the constants. The function is there for its clause
//! alone.

ghost use Rattle.std.specs.Prelude.{◌≡◌};
ghost use Rattle.ed2k_node.specs.declared.rounds.TheConstants.{BUDGET};

/// A download takes at most 1 TiB of a wire.
pub fn budget_is_a_tebibyte()
    ensures { BUDGET ≡ 1099511627776 }
{}
