//! Counts of failures.
ghost use Rattle.std.specs.Prelude.{◌≡◌, ◌≤◌, Ok, IfOk, OnOk};
ghost use Rattle.ed2k_outside.specs.Causes.{HasCause, Rose};

use crate::console::Console;
use ed2k_outside::Failed;
use std::fmt::Display;
use std::io;

/// Counts a failure.
pub(crate) fn fault(faults: &mut u64) -> Failed
    ensures later { faults.old ≤ faults.new }
    ensures rose { Rose faults.old faults.new }
{
    *faults = faults.saturating_add(1);
    Failed
}

/// Counts a failure, and tells what failed and why.
pub(crate) fn told_fault<R: Eprint, D: Display>(
    console: &Console<'_, R>,
    faults: &mut u64,
    of: &D,
    why: &io::Error,
) -> Failed
    ensures later { faults.old ≤ faults.new }
    ensures rose { Rose faults.old faults.new }
{
    console.tell(of, why);
    fault(faults)
}

/// Hands an answer of the system on. A failure is counted, and told.
pub(crate) fn counted<T: Drop, R: Eprint, D: Display>(
    console: &Console<'_, R>,
    faults: &mut u64,
    of: &D,
    answer: io::Result<T>,
) -> Result<T, Failed>
    ensures cause { HasCause faults.old faults.new result }
    ensures clean { OnOk result (faults.new ≡ faults.old) }
    ensures value { IfOk result (λ value. answer ≡ Ok value) }
{
    match answer {
        Ok(value) => Ok(value),
        Err(why) => Err(told_fault(console, faults, of, &why)),
    }
}
