//! Defines `OffsetList`, an increasing list of offsets.

ghost use Rattle.std.specs.Prelude.{◌≡◌, ◌<◌, ◌≤◌, [], ◌∷◌, ◌++◌, length, take, All, Contains};
ghost use Rattle.std.specs.Prelude.{slice_index, MatchResult, MatchBool};

use crate::offsets::cells;
use crate::offsets::cells::Cell;
use base_data::model::Memory;
use std::alloc::Global;
use std::marker::Model;

/// An increasing list of offsets in an arena, counted in 64-bit words. Contracts see the list. An
/// offset below 2^32 takes half as much memory as a larger offset.
#[derive(Drop)]
pub struct OffsetList {
    low: Vec<u32>,
    high: Vec<u64>,
    cells: Vec<Cell>,
}

impl Model for OffsetList {
    ghost use Rattle.std.specs.Prelude.{List, ℕ, ◌++◌};

    ghost Value = { List ℕ };

    ghost use Rattle.marshal_heap.specs.offsets.Cells.{IsIndexed};

    ghost view = { λ p. p.low.items ++ p.high.items };

    ghost invariant = { λ p. IsIndexed p.cells.items (p.low.items ++ p.high.items) };
}

impl OffsetList {
    /// Returns an empty list.
    pub fn new(alloc: Global) -> OffsetList
        ensures { result ≡ [] }
    {
        OffsetList {
            low: Vec::new(alloc),
            high: Vec::new(alloc),
            cells: Vec::new(alloc),
        }
    }

    /// Returns the number of offsets.
    pub fn len(&self) -> usize
        ensures { result ≡ length self.now }
    {
        self.low.len() + self.high.len()
    }

    /// Returns the offset at index `k`.
    pub fn get(&self, k: usize) -> u64
        requires { k < length self.now }
        ensures { result ≡ slice_index self.now k }
    {
        let low = self.low.len();
        if k < low {
            u64::from(self.low[k])
        } else {
            self.high[k - low]
        }
    }

    /// Returns the index of an offset of the list.
    pub fn number(&self, p: u64) -> usize
        requires { Contains self.now p }
        ensures in_range { result < length self.now }
        ensures position { slice_index self.now result ≡ p }
    {
        cells::count_before(&self.cells, p) as usize
    }

    /// Appends an offset, which must be greater than all offsets in the list. If memory runs out,
    /// returns `Memory` and leaves the list unchanged.
    pub fn push(&mut self, p: u64) -> Result<(), Memory>
        requires { All (λ q. q < p) self.old }
        ensures { MatchResult result (λ _. self.new ≡ self.old ++ p ∷ [])
            (λ _. self.new ≡ self.old) }
    {
        let count = self.len() as u64;
        cells::cover(&mut self.cells, (p / 64) as usize + 1, count)?;
        append(&mut self.low, &mut self.high, p)?;
        cells::mark(&mut self.cells, p);
        Ok(())
    }

    /// Appends an offset and returns true, if the offset is less than 2^32 and no allocation is
    /// needed. If the result is false, nothing changes.
    #[inline(always)]
    pub fn push_in_room(&mut self, p: u64) -> bool
        requires { All (λ q. q < p) self.old }
        ensures { MatchBool result (self.new ≡ self.old ++ p ∷ []) (self.new ≡ self.old) }
    {
        let count = self.low.len();
        if p >= 1 << 32 || self.high.len() > 0 || count == self.low.capacity() {
            return false;
        }
        if !cells::cover_in_room(&mut self.cells, (p / 64) as usize + 1, count as u64) {
            return false;
        }
        self.low.push_reserved(p as u32);
        cells::mark(&mut self.cells, p);
        true
    }

    /// Removes the offsets from index `n` on.
    pub fn truncate(&mut self, n: usize)
        requires { n ≤ length self.old }
        ensures { self.new ≡ take n self.old }
    {
        if n < self.len() {
            let p = self.get(n);
            self.cells.truncate((p / 64) as usize + 1);
            cells::clear_from(&mut self.cells, p);
            shorten(&mut self.low, &mut self.high, n);
        }
    }
}

/// Appends `p` to the list `low` if `p` fits 32 bits and the list `high` is empty. If `p` does not
/// fit or `high` is not empty, appends `p` to `high`. Fails with `Memory` if memory runs out.
fn append(low: &mut Vec<u32>, high: &mut Vec<u64>, p: u64) -> Result<(), Memory>
    ensures { MatchResult result
        (λ _. low.new.items ++ high.new.items ≡ (low.old.items ++ high.old.items) ++ p ∷ [])
        (λ _. (low.new.items ≡ low.old.items) × (high.new.items ≡ high.old.items)) }
{
    if high.is_empty() && p < 1 << 32 {
        let Ok(()) = low.push(p as u32) else {
            return Err(Memory);
        };
    } else {
        let Ok(()) = high.push(p) else {
            return Err(Memory);
        };
    }
    Ok(())
}

/// Keeps the first `n` elements of the concatenation of two lists.
fn shorten(low: &mut Vec<u32>, high: &mut Vec<u64>, n: usize)
    ensures { low.new.items ++ high.new.items ≡ take n (low.old.items ++ high.old.items) }
{
    high.truncate(n.saturating_sub(low.len()));
    low.truncate(n);
}
