//! An arena stores 64-bit words side by side in one block of memory.

ghost use Rattle.std.specs.Prelude.{◌≡◌, ◌↔◌, ◌+◌, ◌-◌, ◌*◌, ◌^◌, ◌<◌, ◌≤◌, [], ◌∷◌, ◌++◌, length};
ghost use Rattle.std.specs.Prelude.{take, replicate, slice_index, slice_set, slice_range, IsTrue};
ghost use Rattle.std.specs.Prelude.{OnOk, OnErr};
ghost use Rattle.marshal_heap.specs.arena.Region.{capacity};

use crate::arena::block::Block;
use base_data::model::Memory;
use std::alloc::Global;
use std::marker::Model;

/// An arena of 64-bit words. Contracts see the arena's contents as the list `words`, and the number
/// of words that can be appended without allocation as `spare`. Dropping the arena frees the
/// arena's memory.
pub struct Region {
    block: Block,
    len: usize,
    cap: usize,
    alloc: Global,
}

impl Model for Region {
    ghost use Rattle.std.specs.Prelude.{◌≡◌, ◌-◌, ◌^◌, ◌<◌, length};
    ghost use Rattle.marshal_heap.specs.arena.Region.{Contents};

    ghost Value = { Contents };

    ghost view = { λ r. record { words = r.block.words; spare = r.cap - r.len } };

    ghost invariant = { λ r. (r.len ≡ length r.block.words) × (r.cap ≡ r.block.cap) × (r.cap < 2 ^ 60) };
}

impl Drop for Region {
    fn drop(self) {
        let Region {
            block,
            len: _,
            cap,
            alloc,
        } = self;
        block.free(&alloc, cap);
    }
}

/// The capacity in words from which an arena does not grow, because no memory has room for twice as
/// many words.
const LARGEST: usize = 1 << 59;

impl Region {
    /// Returns an empty arena, without allocating memory.
    pub fn new(alloc: Global) -> Region
        ensures { result.words ≡ [] }
    {
        Region {
            block: Block::none(),
            len: 0,
            cap: 0,
            alloc,
        }
    }

    /// Makes room for `n` more words. If the room was insufficient, the capacity at least doubles.
    /// Fails with `Memory` if memory runs out.
    pub fn reserve(&mut self, n: usize) -> Result<(), Memory>
        ensures words { self.new.words ≡ self.old.words }
        ensures room { OnOk result (n ≤ self.new.spare) }
        ensures doubled { OnOk result
            (self.old.spare < n → 2 * capacity self.old ≤ capacity self.new) }
        ensures refused { OnErr result ((self.new ≡ self.old) × (self.old.spare < n)) }
    {
        if n <= self.cap - self.len {
            return Ok(());
        }
        self.grow(n)
    }

    /// Returns true if there is room for `n` more words.
    #[inline(always)]
    pub fn has_room(&self, n: usize) -> bool
        ensures { IsTrue result ↔ (n ≤ self.now.spare) }
    {
        n <= self.cap - self.len
    }

    /// Allocates memory for `n` more words. Fails with `Memory` if memory runs out.
    #[cold]
    fn grow(&mut self, n: usize) -> Result<(), Memory>
        requires { self.old.spare < n }
        ensures words { self.new.words ≡ self.old.words }
        ensures room { OnOk result (n ≤ self.new.spare) }
        ensures doubled { OnOk result (2 * capacity self.old ≤ capacity self.new) }
        ensures refused { OnErr result (self.new ≡ self.old) }
    {
        if LARGEST <= n || LARGEST <= self.cap {
            return Err(Memory);
        }
        let cap = (self.len + n).max(self.cap * 2);
        let alloc = self.alloc;
        let grown = if self.cap == 0 {
            self.block.take(&alloc, cap)
        } else {
            self.block.grow(&alloc, self.len, self.cap, cap)
        };
        if !grown {
            return Err(Memory);
        }
        self.cap = cap;
        Ok(())
    }

    /// Appends a word. The arena must have room for the word.
    pub fn append_reserved(&mut self, w: u64)
        requires { 0 < self.old.spare }
        ensures words { self.new.words ≡ self.old.words ++ w ∷ [] }
        ensures spare { self.new.spare ≡ self.old.spare - 1 }
    {
        let len = self.len;
        self.block.push(len, w);
        self.len = len + 1;
    }

    /// Returns the word at index `i`.
    pub fn get(&self, i: usize) -> u64
        requires { i < length self.now.words }
        ensures { result ≡ slice_index self.now.words i }
    {
        self.block.words(self.len)[i]
    }

    /// Replaces the word at index `i` by `w`.
    #[tactic(auto, using(crate::proofs::arena::Parts::overwritten_one))]
    pub fn set(&mut self, i: usize, w: u64)
        requires { i < length self.old.words }
        ensures { self.new ≡ record self.old { words = slice_set self.old.words i w } }
    {
        self.block.part_mut(i, 1)[0] = w;
    }

    /// Returns a slice of the `n` words from index `i` on.
    pub fn part(&self, i: usize, n: usize) -> &[u64]
        requires { i + n ≤ length self.now.words }
        ensures { result.now ≡ slice_range self.now.words i (i + n) }
    {
        &self.block.words(self.len)[i..i + n]
    }

    /// Appends `n` copies of a word. The arena must have room for the copies.
    pub fn append_run(&mut self, n: usize, w: u64)
        requires { n ≤ self.old.spare }
        ensures words { self.new.words ≡ self.old.words ++ replicate n w }
        ensures spare { self.new.spare ≡ self.old.spare - n }
    {
        self.block.push_run(self.len, n, w);
        self.len += n;
    }

    /// Appends a slice of words. The arena must have room for the words.
    pub fn append_slice(&mut self, words: &[u64])
        requires { length words.now ≤ self.old.spare }
        ensures words { self.new.words ≡ self.old.words ++ words.now }
        ensures spare { self.new.spare ≡ self.old.spare - length words.now }
    {
        self.block.push_all(self.len, words);
        self.len += words.len();
    }

    /// Returns the number of words. The capacity is always less than 2^60 words.
    pub fn len(&self) -> usize
        ensures len { result ≡ length self.now.words }
        ensures small { capacity self.now < 2 ^ 60 }
    {
        self.len
    }

    /// Removes the words from index `n` on. The capacity stays the same.
    pub fn truncate(&mut self, n: usize)
        requires { n ≤ length self.old.words }
        ensures words { self.new.words ≡ take n self.old.words }
        ensures capacity { capacity self.new ≡ capacity self.old }
    {
        self.block.cut(n);
        self.len = n;
    }
}
