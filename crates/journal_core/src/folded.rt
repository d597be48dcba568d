//! What the records of a log tell so far.
ghost use Rattle.std.specs.Prelude.{◌≡◌, ◌↔◌, ℕ, ◌+◌, ◌<◌, ◌&&◌, ◌||◌, not, false, length, get_or, IfOk, OnOk, IsTrue, None, if◌then◌else◌};
ghost use Rattle.std.specs.FinSet as set;
ghost use Rattle.std.specs.List.{list_any};
ghost use Rattle.byte_ranges.specs.RangeSet.{IsWithin};
ghost use Rattle.byte_ranges.specs.Spans.{IsApart};
ghost use Rattle.part_hashset.specs.Goals.{goal_in};
ghost use Rattle.part_sizes.specs.Block.{block_count, block_of};
ghost use Rattle.part_sizes.specs.Part.{IsSize, data_parts, part_range};
ghost use Rattle.part_sizes.specs.Span.{has};
ghost use Rattle.journal_core.specs.Folds.{Adds, IsSized, told};
ghost use Rattle.journal_core.specs.States.{MayFill, MayFollow, MayJudge, is_failed_in, is_full_in, nothing};

use crate::record::Record;
use byte_ranges::Ranges;
use ed2k_outside::NoMemory;
use part_hashset::{Aim, check_set, fails};
use part_sizes::{Hash, PART, Span, block_count, block_range, data_parts, part_range};
use std::alloc::Global;

/// What the records of a log tell so far of the file that is wanted.
#[derive(Debug, Drop)]
pub struct Folded {
    pub aim: Aim,
    /// The kept set, empty where none is kept.
    pub set: Vec<Hash>,
    pub filled: Ranges,
    /// The verdict of each part that has one.
    pub verdicts: Vec<Option<Hash>>,
}

impl Folded {
    /// No record yet.
    pub fn new(alloc: Global, aim: Aim) -> Result<Folded, NoMemory>
        requires { IsSize aim.size }
        ensures aim { IfOk result (λ folded. folded.aim ≡ aim) }
        ensures sized { IfOk result (λ folded. IsSized folded) }
        ensures told { IfOk result (λ folded. told folded ≡ nothing) }
    {
        Ok(Folded {
            aim,
            set: Vec::new(alloc),
            filled: Ranges::new(alloc, aim.size),
            verdicts: no_verdicts(alloc, data_parts(aim.size))?,
        })
    }

    /// What the digest of a part is to be, where it is known.
    fn goal(&self, part: u16) -> Option<Hash>
        ensures { result ≡ goal_in self.now.aim self.now.set.items part }
    {
        if self.aim.size < PART {
            Some(self.aim.hash)
        } else {
            self.set.get(usize::from(part)).copied()
        }
    }

    fn verdict(&self, part: u16) -> Option<Hash>
        requires { part < length self.now.verdicts.items }
        ensures { result ≡ get_or self.now.verdicts.items part None }
    {
        self.verdicts[usize::from(part)]
    }

    fn is_failed(&self, part: u16) -> bool
        requires { part < length self.now.verdicts.items }
        ensures { result ≡ is_failed_in self.now.aim (told self.now) part }
    {
        fails(self.goal(part), self.verdict(part))
    }

    fn is_full(&self, part: u16) -> bool
        requires sized { IsSized self.now }
        requires exists { part < data_parts self.now.aim.size }
        ensures { result ≡ is_full_in self.now.aim.size (told self.now) part }
    {
        self.filled
            .first_out(part_range(self.aim.size, part))
            .is_none()
    }

    fn may_set(&self, set: &[Hash]) -> bool
        requires { IsSized self.now }
        ensures { IsTrue result ↔ MayFollow self.now.aim (told self.now) (Record.Set set.now) }
    {
        PART <= self.aim.size
            && self.set.is_empty()
            && check_set(self.aim.size, self.aim.hash, set).is_ok()
    }

    fn may_fill(&self, spans: &[Span]) -> bool
        requires { IsSized self.now }
        ensures { IsTrue result ↔ MayFill self.now.aim (told self.now) spans.now }
    {
        are_apart(spans, self.aim.size) && miss_all(&self.filled, spans)
    }

    fn may_judge(&self, part: u16) -> bool
        requires { IsSized self.now }
        ensures { IsTrue result ↔ MayJudge self.now.aim (told self.now) part }
    {
        part < data_parts(self.aim.size)
            && self.is_full(part)
            && self.verdict(part).is_none()
            && self.goal(part).is_some()
    }

    fn may_open(&self, part: u16) -> bool
        requires { IsSized self.now }
        ensures { IsTrue result ↔ MayFollow self.now.aim (told self.now) (Record.Dropped part) }
    {
        part < data_parts(self.aim.size) && self.is_failed(part)
    }

    fn may_recover(&self, part: u16, kept: &[bool]) -> bool
        requires { IsSized self.now }
        ensures { IsTrue result ↔ MayFollow self.now.aim (told self.now) (Record.Recovered part kept.now) }
    {
        self.may_open(part) && kept.len() == usize::from(block_count(self.aim.size, part))
    }

    /// True exactly where the record may follow those so far.
    pub fn may_follow(&self, rec: &Record) -> bool
        requires { IsSized self.now }
        ensures { IsTrue result ↔ MayFollow self.now.aim (told self.now) rec.now }
    {
        match rec {
            Record::Set(set) => self.may_set(set.as_slice()),
            Record::Filled(spans) => self.may_fill(spans.as_slice()),
            Record::Judged(part, _) => self.may_judge(*part),
            Record::Recovered(part, kept) => self.may_recover(*part, kept.as_slice()),
            Record::Dropped(part) => self.may_open(*part),
        }
    }

    fn keep_set(&mut self, alloc: Global, set: &[Hash]) -> Result<(), NoMemory>
        requires { IsSized self.old }
        ensures { OnOk result (Adds (Record.Set set.now) self.old self.new) }
    {
        self.set = Vec::from_slice(alloc, set)?;
        Ok(())
    }

    fn fill(&mut self, spans: &[Span]) -> Result<(), NoMemory>
        requires sized { IsSized self.old }
        requires apart { IsApart 0 (self.old.aim.size + 1) spans.now }
        ensures { OnOk result (Adds (Record.Filled spans.now) self.old self.new) }
    {
        fill_all(&mut self.filled, spans)?;
        Ok(())
    }

    fn judge(&mut self, part: u16, digest: Hash)
        requires sized { IsSized self.old }
        requires exists { part < data_parts self.old.aim.size }
        ensures { Adds (Record.Judged part digest) self.old self.new }
    {
        self.verdicts[usize::from(part)] = Some(digest);
    }

    fn recover(&mut self, part: u16, kept: &[bool]) -> Result<(), NoMemory>
        requires sized { IsSized self.old }
        requires exists { part < data_parts self.old.aim.size }
        requires bits { length kept.now ≡ block_count self.old.aim.size part }
        ensures { OnOk result (Adds (Record.Recovered part kept.now) self.old self.new) }
    {
        open_blocks(&mut self.filled, self.aim.size, part, kept)?;
        self.verdicts[usize::from(part)] = None;
        Ok(())
    }

    fn drop_part(&mut self, part: u16) -> Result<(), NoMemory>
        requires sized { IsSized self.old }
        requires exists { part < data_parts self.old.aim.size }
        ensures { OnOk result (Adds (Record.Dropped part) self.old self.new) }
    {
        open_span(&mut self.filled, part_range(self.aim.size, part))?;
        self.verdicts[usize::from(part)] = None;
        Ok(())
    }

    /// Folds a record that may follow.
    pub fn add(&mut self, alloc: Global, rec: &Record) -> Result<(), NoMemory>
        requires sized { IsSized self.old }
        requires legal { MayFollow self.old.aim (told self.old) rec.now }
        ensures { OnOk result (Adds rec.now self.old self.new) }
    {
        match rec {
            Record::Set(set) => self.keep_set(alloc, set.as_slice()),
            Record::Filled(spans) => self.fill(spans.as_slice()),
            Record::Judged(part, digest) => {
                self.judge(*part, *digest);
                Ok(())
            }
            Record::Recovered(part, kept) => self.recover(*part, kept.as_slice()),
            Record::Dropped(part) => self.drop_part(*part),
        }
    }
}

fn no_verdicts(alloc: Global, parts: u16) -> Result<Vec<Option<Hash>>, NoMemory>
    ensures len { IfOk result (λ verdicts. length verdicts.items ≡ parts) }
    ensures none { IfOk result (λ verdicts. (i : ℕ) → get_or verdicts.items i None ≡ None) }
{
    let mut verdicts = Vec::with_capacity(alloc, usize::from(parts))?;
    for _ in 0..parts {
        verdicts.push(None)?;
    }
    Ok(verdicts)
}

/// True exactly where the spans are not empty, ascend, do not touch and end within the size.
fn are_apart(spans: &[Span], size: u64) -> bool
    requires { IsSize size }
    ensures { IsTrue result ↔ IsApart 0 (size + 1) spans.now }
{
    let mut low = 0;
    for span in spans {
        if span.s < low || span.e <= span.s || size < span.e {
            return false;
        }
        low = span.e + 1;
    }
    true
}

/// True exactly where no span has a position of the set.
fn miss_all(filled: &Ranges, spans: &[Span]) -> bool
    requires { IsApart 0 (filled.now.size + 1) spans.now }
    ensures { IsTrue result ↔ ((x : ℕ) → IsTrue (list_any (λ r. has r x) spans.now) → set.contains filled.now.set x ≡ false) }
{
    for span in spans {
        if filled.meets(*span) {
            return false;
        }
    }
    true
}

/// Adds all the spans.
fn fill_all(filled: &mut Ranges, spans: &[Span]) -> Result<(), NoMemory>
    requires apart { IsApart 0 (filled.old.size + 1) spans.now }
    ensures set { OnOk result ((x : ℕ) → set.contains filled.new.set x ≡ (set.contains filled.old.set x || list_any (λ r. has r x) spans.now)) }
    ensures size { filled.new.size ≡ filled.old.size }
{
    for span in spans {
        filled.reserve(1)?;
        filled.add(*span);
    }
    Ok(())
}

/// Takes the positions of a span.
fn open_span(filled: &mut Ranges, span: Span) -> Result<(), NoMemory>
    requires { IsWithin span filled.old.size }
    ensures set { OnOk result ((x : ℕ) → set.contains filled.new.set x ≡ (if has span x then false else set.contains filled.old.set x)) }
    ensures size { filled.new.size ≡ filled.old.size }
{
    filled.reserve(1)?;
    filled.take(span);
    Ok(())
}

/// Takes the blocks of a part that weren't kept.
fn open_blocks(filled: &mut Ranges, size: u64, part: u16, kept: &[bool]) -> Result<(), NoMemory>
    requires size { IsSize size }
    requires exists { part < data_parts size }
    requires bits { length kept.now ≡ block_count size part }
    requires sized { filled.old.size ≡ size }
    ensures set { OnOk result ((x : ℕ) → set.contains filled.new.set x ≡ (if has (part_range size part) x && not (get_or kept.now (block_of x) false) then false else set.contains filled.old.set x)) }
    ensures size { filled.new.size ≡ filled.old.size }
{
    for block in 0..block_count(size, part) {
        if !kept[usize::from(block)] {
            open_span(filled, block_range(size, part, block))?;
        }
    }
    Ok(())
}
