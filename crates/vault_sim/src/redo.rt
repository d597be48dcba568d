//! Calls that are undone, and made again, each cut short in its own way.
ghost use Rattle.std.specs.Prelude.{◌≡◌, ◌⊎◌, ◌≤◌, ℕ, length, take, drop, IfOk, OnOk};
ghost use Rattle.ed2k_outside.specs.Crashes.{Torn};
ghost use Rattle.vault_sim.specs.Steps.{IsLegal, MayLeave, Reaches, asked_of, before, unmade};

use crate::copies::{copied, overwrite};
use crate::step::{Asked, Step};
use std::alloc::{AllocError, Global};

/// What a call wrote, as far as a read gives it, and how it is to be cut short: a digit in base 8.
#[derive(Debug, Drop)]
pub(crate) struct Redo {
    piece: Vec<u8>,
    way: u64,
}

/// Undoes the calls, the newest first, and notes each. It answers what of the number is left.
pub(crate) fn undo_all(
    steps: &[Step],
    bytes: &mut Vec<u8>,
    redos: &mut Vec<Redo>,
    pick: u64,
) -> Result<u64, AllocError>
    requires { IsLegal steps.now bytes.old.items }
    ensures { OnOk result (bytes.new.items ≡ unmade steps.now bytes.old.items) }
{
    let mut rest = pick;
    let mut left = steps.len();
    while left > 0 {
        left -= 1;
        let step = &steps[left];
        redos.push(Redo {
            piece: written(bytes, step.asked)?,
            way: rest % 8,
        })?;
        rest /= 8;
        undo(step, bytes)?;
    }
    Ok(rest)
}

/// What stands where a call wrote.
fn written(bytes: &Vec<u8>, asked: Asked) -> Result<Vec<u8>, AllocError> {
    let alloc = *bytes.allocator();
    match asked {
        Asked::Write(at, n) => copied(alloc, bytes, at.min(bytes.len()), n),
        Asked::Length(_) => Ok(Vec::new(alloc)),
    }
}

fn undo(step: &Step, bytes: &mut Vec<u8>) -> Result<(), AllocError>
    requires { step.now.at ≤ length (take step.now.len bytes.old.items) }
    ensures { OnOk result (bytes.new.items ≡ before step.now bytes.old.items) }
{
    bytes.truncate(step.len);
    overwrite(bytes, step.at, &step.lost)
}

/// Makes the calls again, the oldest first, each cut short. What was noted last is made first.
pub(crate) fn redo_all(
    steps: &[Step],
    bytes: &mut Vec<u8>,
    redos: Vec<Redo>,
) -> Result<(), AllocError>
    ensures { OnOk result (Reaches (asked_of steps.now) bytes.old.items bytes.new.items) }
{
    let mut redos = redos;
    for step in steps {
        let redo = redos.pop();
        redo_one(step.asked, redo, bytes)?;
    }
    Ok(())
}

/// Makes a call again, cut short. A call that wasn't noted had no effect.
fn redo_one(asked: Asked, redo: Option<Redo>, bytes: &mut Vec<u8>) -> Result<(), AllocError>
    ensures { OnOk result (MayLeave asked bytes.old.items bytes.new.items) }
{
    let Some(redo) = redo else {
        return Ok(());
    };
    match asked {
        Asked::Write(at, n) => rewrite(at, n, &redo, bytes),
        Asked::Length(n) => {
            let len = length_between(n.min(bytes.len()), n.max(bytes.len()), n, redo.way);
            bytes.resize(len, filling(redo.way))
        }
    }
}

/// Writes again, cut short. Where the file doesn't reach the place, an earlier call was cut short, and this
/// one leaves nothing.
fn rewrite(at: usize, n: usize, redo: &Redo, bytes: &mut Vec<u8>) -> Result<(), AllocError>
    ensures { OnOk result (Torn at n bytes.old.items bytes.new.items) }
{
    if bytes.len() < at {
        return Ok(());
    }
    let alloc = *bytes.allocator();
    let piece = mixed(alloc, &bytes[at..], n, redo)?;
    overwrite(bytes, at, &piece)
}

/// A piece of at most `n` bytes that is whole, or ends at or past the end of what stood there.
fn mixed(alloc: Global, old: &[u8], n: usize, redo: &Redo) -> Result<Vec<u8>, AllocError>
    ensures most { IfOk result (λ piece. length piece.items ≤ n) }
    ensures ends { IfOk result (λ piece. (length piece.items ≡ n) ⊎ (length old.now ≤ length piece.items)) }
{
    let len = length_between(n.min(old.len()), n, n, redo.way);
    let mut piece = Vec::new(alloc);
    for k in 0..len {
        piece.push(mixed_byte(old, n, redo, k))?;
    }
    Ok(piece)
}

/// A length between the two: of the call that is whole, of the call that left nothing, or one between.
fn length_between(least: usize, most: usize, whole: usize, way: u64) -> usize
    requires order { least ≤ most }
    requires low { least ≤ whole }
    requires high { whole ≤ most }
    ensures low { least ≤ result }
    ensures high { result ≤ most }
{
    match way {
        1 => most - whole + least,
        2 | 6 | 7 => least + (most - least) / 2,
        3 | 4 | 5 => most,
        _ => whole,
    }
}

/// A byte of a write that is cut short: of what it wrote, of what stood there, or garbage.
fn mixed_byte(old: &[u8], n: usize, redo: &Redo, k: usize) -> u8 {
    let new = match redo.way {
        0 | 7 => true,
        2 => k < n - n / 2,
        3 => n / 2 <= k,
        4 => n / 4 <= k && k < n - n / 4,
        _ => false,
    };
    let old_stays = redo.way < 5;
    if new && k < redo.piece.len() {
        redo.piece[k]
    } else if old_stays && k < old.len() {
        old[k]
    } else {
        GARBAGE
    }
}

/// What a growth that is cut short fills up with.
fn filling(way: u64) -> u8 {
    if way < 4 { 0 } else { GARBAGE }
}

const GARBAGE: u8 = 0xA5;
