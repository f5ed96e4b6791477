//! Checks the current value. First a pass over the value's bytes tests whether the value has the
//! type. If the pass is inconclusive, a search for the only mismatch starts at the value's first
//! byte. If the last values had one mismatch each, small values are searched before the pass.

ghost use Rattle.std.specs.Prelude.{ℕ, ◌<◌, length, IfSome};
ghost use Rattle.std.specs.Bool.{OnTrue};
ghost use Rattle.types_spec.specs.types.Table.{Table};
ghost use Rattle.marshal_spec.specs.format.Prefix.{IsPrefix};
ghost use Rattle.check_stream.specs.mismatch_theory.PassedBut.{values_at};
ghost use Rattle.check_stream.specs.checker.CheckerState.{needs_in, IsUnderway};
ghost use Rattle.check_stream.specs.mismatch_search.Find.{IsSought};
ghost use Rattle.check_stream.specs.mismatch_search.SearchTrail.{way_positions};
ghost use Rattle.check_stream.specs.chunk_check.Inspection.{HasRoomAfter};

use crate::checker::{PassStop, Passing, Words};
use crate::mismatch_search::{FoundMismatch, SearchEnd, Seeking};
use crate::truncated::truncated_len;
use base_data::model::Memory;
use marshal_codec::headers::{HeaderStep, parse};
use std::alloc::Global;
use types_table::type_table::TypeTable;

/// The result of the check on all bytes of the value so far.
#[derive(Clone, Copy)]
pub enum CheckResult {
    /// This many bytes are a value that has the type.
    Typed(usize),
    /// This many bytes are a value whose first fault is the mismatch that `missed` returns.
    Missed(usize),
    /// The bytes are a prefix of a value.
    More,
    /// The check cannot decide whether the value has the type.
    Inconclusive,
}

/// Returns true if the bytes are an incomplete header and no step of the reader refuses the bytes.
fn is_header_truncated(bytes: &[u8]) -> bool
    ensures { OnTrue result ((limit : ℕ) → IsPrefix limit bytes.now) }
{
    matches!(parse(bytes), Ok(HeaderStep::More(_)))
}

/// If an incomplete token follows the first `at` bytes, returns the maximum number of values that
/// may still be pending. The result depends on the data bytes that the header states (`stated`) and
/// on the remaining words. If the header leaves no room for the token, returns `None`.
fn room_after(stated: u64, words: Words, start: usize, at: usize, bytes: &[u8]) -> Option<u64>
    ensures { IfSome result (HasRoomAfter stated start at words.w32 words.w64 bytes.now) }
{
    if bytes.len() < at {
        return None;
    }
    let n = truncated_len(&bytes[at..], words.w32, words.w64)?;
    let taken = at.checked_sub(start)?;
    let room = stated.checked_sub(taken as u64)?;
    let others = room.checked_sub(n)?;
    others.checked_add(1)
}

/// If the pass ended before an incomplete token, returns true only if the bytes are a prefix of a
/// value. Subtracts the number of counted blocks from `left`.
fn is_prefix(passing: &Passing<'_>, left: &mut u64, bytes: &[u8]) -> bool
    ensures { OnTrue result ((table : Table) (limit : ℕ)
        → IsUnderway table limit bytes.now passing.now → 0 < length (needs_in passing.now.state)
        → IsPrefix limit bytes.now) }
{
    let words = passing.state.words;
    let room = room_after(passing.head.length, words, passing.start, passing.at, bytes);
    let Some(most) = room else {
        return false;
    };
    passing.state.positions.are_within(most, left)
}

/// If the search ended before an incomplete token, returns true only if the bytes are a prefix of a
/// value. Subtracts the number of counted blocks from `left`.
fn is_prefix_but(seeking: &Seeking<'_>, left: &mut u64, bytes: &[u8]) -> bool
    ensures { OnTrue result ((table : Table) (limit : ℕ)
        → IsSought table limit bytes.now seeking.now
        → 0 < values_at (way_positions seeking.now.finding.way)
        → IsPrefix limit bytes.now) }
{
    let words = seeking.finding.words;
    let room = room_after(seeking.head.length, words, seeking.start, seeking.at, bytes);
    let Some(most) = room else {
        return false;
    };
    seeking.are_within(most, left)
}

/// If `misses` is at least this number, a small value is searched before the pass.
const MISSES: u8 = 8;

/// A value is small if its header states at most this many data bytes.
const SMALL: u64 = 256;

/// Returns true if a reference begins at offset `at` (`CODE_SHARED8` to `CODE_SHARED64`).
fn is_reference(bytes: &[u8], at: usize) -> bool {
    at < bytes.len() && matches!(bytes[at], 0x04..=0x06 | 0x14)
}

/// The state of the check: the pass over the current value and, if the pass was inconclusive, the
/// search for the value's mismatch. `misses` counts the values with one mismatch. The count
/// restarts at 0 if a value has the type, or if a value was searched first without a result.
#[derive(Drop)]
pub struct Inspecting<'a> {
    pub begun: bool,
    pub passing: Passing<'a>,
    pub sought: bool,
    pub seeking: Seeking<'a>,
    pub misses: u8,
}

impl<'a> Inspecting<'a> {
    ghost use Rattle.std.specs.Prelude.{ℕ, ◌≡◌, List, false, None, Some, IfOk, MatchOption};
    ghost use Rattle.types_spec.specs.types.Table.{Table};
    ghost use Rattle.types_table.specs.type_table.Made.{table_of};
    ghost use Rattle.check_stream.specs.mismatch_search.Find.{IsSought};
    ghost use Rattle.check_stream.specs.chunk_check.Inspection.{IsInspecting, IsShown, missed_in};

    /// Creates a check that has read nothing, without allocating memory.
    pub fn new(alloc: Global) -> Inspecting<'a>
        ensures { (table : Table) (limit : ℕ) (bytes : List ℕ)
            → IsInspecting table limit bytes result }
    {
        Inspecting {
            begun: false,
            passing: Passing::new(alloc),
            sought: false,
            seeking: Seeking::new(alloc),
            misses: 0,
        }
    }

    /// Returns the mismatch that was found last, until the next search starts. The mismatch belongs
    /// to the value that was checked last only if the result was `Missed`.
    pub fn missed(&self) -> Option<&FoundMismatch>
        ensures { MatchOption result (missed_in self.now ≡ None)
            (λ found. missed_in self.now ≡ Some found.now) }
    {
        self.seeking.finding.found.as_ref()
    }

    /// Returns true if the search of the current value found a mismatch.
    pub fn found_mismatch(&self) -> bool {
        self.sought && self.seeking.finding.found.is_some()
    }

    /// Starts the next check at the first byte of a value. The memory and the last mismatch are
    /// kept.
    pub fn restart(&mut self)
        ensures inspecting { (table : Table) (limit : ℕ) (bytes : List ℕ)
            → IsInspecting table limit bytes self.new }
        ensures unsought { self.new.sought ≡ false }
        ensures held { missed_in self.new ≡ missed_in self.old }
    {
        self.begun = false;
        self.sought = false;
    }

    /// Starts the next check at the first byte of a value. The memory of the search and the last
    /// mismatch are released.
    pub fn forget(&mut self, alloc: Global)
        ensures { (table : Table) (limit : ℕ) (bytes : List ℕ)
            → IsInspecting table limit bytes self.new }
    {
        self.seeking = Seeking::new(alloc);
        self.restart();
    }

    /// Checks the value at the start of the bytes, from the offset that the last call reached. If
    /// memory runs out, fails with `Memory`.
    pub fn inspect(
        &mut self,
        alloc: Global,
        table: &'a TypeTable,
        limit: u64,
        bytes: &[u8],
    ) -> Result<CheckResult, Memory>
        requires inspecting { IsInspecting (table_of table.now) limit bytes.now self.old }
        ensures { IfOk result (IsShown (table_of table.now) limit bytes.now self.new) }
    {
        if self.sought {
            return self.seek(alloc, table, limit, bytes);
        }
        if self.misses >= MISSES {
            let shown = self.search(alloc, table, limit, bytes, SMALL)?;
            if matches!(shown, CheckResult::Missed(_)) {
                return Ok(shown);
            }
            self.misses = 0;
            self.restart();
        }
        self.pass(alloc, table, limit, bytes)
    }

    /// Starts or continues the pass. If the pass is inconclusive, starts the search. If the pass is
    /// inconclusive at a reference, no search starts, because a search would rarely decide more.
    fn pass(
        &mut self,
        alloc: Global,
        table: &'a TypeTable,
        limit: u64,
        bytes: &[u8],
    ) -> Result<CheckResult, Memory>
        requires inspecting { IsInspecting (table_of table.now) limit bytes.now self.old }
        requires unsought { self.old.sought ≡ false }
        ensures { IfOk result (IsShown (table_of table.now) limit bytes.now self.new) }
    {
        if !self.begun {
            if !self.passing.begin(bytes, limit)? {
                if is_header_truncated(bytes) {
                    return Ok(CheckResult::More);
                }
                return Ok(CheckResult::Inconclusive);
            }
            self.begun = true;
        }
        match self.passing.go(table, limit, bytes)? {
            PassStop::Typed(n) => {
                self.misses = 0;
                Ok(CheckResult::Typed(n))
            }
            PassStop::Truncated(_) => {
                let mut left = self.passing.left;
                let is_prefix = is_prefix(&self.passing, &mut left, bytes);
                self.passing.left = left;
                if is_prefix {
                    Ok(CheckResult::More)
                } else {
                    Ok(CheckResult::Inconclusive)
                }
            }
            PassStop::Inconclusive(at) => {
                if is_reference(bytes, at) {
                    return Ok(CheckResult::Inconclusive);
                }
                self.search(alloc, table, limit, bytes, u64::MAX)
            }
        }
    }

    /// If the value's header states at most `most` data bytes, starts the search at the first byte
    /// of the value.
    fn search(
        &mut self,
        alloc: Global,
        table: &'a TypeTable,
        limit: u64,
        bytes: &[u8],
        most: u64,
    ) -> Result<CheckResult, Memory>
        ensures { IfOk result (IsShown (table_of table.now) limit bytes.now self.new) }
    {
        if !self.seeking.begin(bytes, limit)? || self.seeking.head.length > most {
            return Ok(CheckResult::Inconclusive);
        }
        self.seek(alloc, table, limit, bytes)
    }

    /// Continues the search. If the search needs more bytes, releases the memory of the pass.
    fn seek(
        &mut self,
        alloc: Global,
        table: &'a TypeTable,
        limit: u64,
        bytes: &[u8],
    ) -> Result<CheckResult, Memory>
        requires sought { IsSought (table_of table.now) limit bytes.now self.old.seeking }
        ensures { IfOk result (IsShown (table_of table.now) limit bytes.now self.new) }
    {
        self.begun = false;
        self.sought = true;
        match self.seeking.go(alloc, table, limit, bytes)? {
            SearchEnd::Found(n) => {
                let Some(found) = &self.seeking.finding.found else {
                    return Ok(CheckResult::Inconclusive);
                };
                if found.ty >= table.count() {
                    return Ok(CheckResult::Inconclusive);
                }
                self.misses = self.misses.saturating_add(1);
                Ok(CheckResult::Missed(n))
            }
            SearchEnd::Truncated => {
                let mut left = self.seeking.left;
                let is_prefix = is_prefix_but(&self.seeking, &mut left, bytes);
                self.seeking.left = left;
                if !is_prefix {
                    return Ok(CheckResult::Inconclusive);
                }
                self.passing = Passing::new(alloc);
                Ok(CheckResult::More)
            }
            SearchEnd::Inconclusive => Ok(CheckResult::Inconclusive),
        }
    }
}
