//! Defines `Block`, a block of memory for 64-bit words. The module `block` contains all code of the
//! crate that uses pointers.
ghost use Rattle.std.specs.Prelude.{◌≡◌, ℕ, ◌+◌, ◌^◌, ◌<◌, ◌≤◌, List, [], ◌∷◌, ◌++◌, length, take};
ghost use Rattle.std.specs.Prelude.{replicate, slice_range, if◌then◌else◌};
ghost use Rattle.std.specs.Borrow.{sem};
ghost use Rattle.marshal_heap.specs.arena.Block.{owns_words, shares_words};

use std::alloc::{Allocator, Global};
use std::marker::Model;
use std::slice;

/// Memory for `cap` words. The words at the beginning are written. If `cap` is 0, the block has no
/// memory.
pub(crate) struct Block {
    at: *mut u64,
    ghost cap: { ℕ },
    ghost words: { List ℕ },
    ghost room: { length words ≤ cap },
}

impl Model for Block {
    ghost also_owns = { λ b. owns_words b.at b.cap b.words };

    ghost also_shares = { λ b _ κ. shares_words b.at b.cap b.words κ };
}

impl Block {
    ghost use Rattle.marshal_heap.specs.arena.BorrowedWords.{borrows_words};

    /// Returns a block without memory.
    pub(crate) fn none() -> Block
        ensures { (result.cap ≡ 0) × (result.words ≡ []) }
    {
        let none: [u64; 0] = [];
        Block {
            at: &raw const none as *mut u64,
        }
    }

    /// Allocates memory for `cap` words. Returns false if there is not enough memory.
    pub(crate) fn take(&mut self, alloc: &Global, cap: usize) -> bool
        requires { (self.old.cap ≡ 0) × (0 < cap) × (cap < 2 ^ 60) }
        ensures { (self.new.words ≡ []) × (self.new.cap ≡ (if result then cap else 0)) }
    {
        match alloc.allocate(cap * 8, 8) {
            Ok(block) => {
                self.at = block as *mut u64;
                true
            }
            Err(_) => false,
        }
    }

    /// Enlarges the block from `old` to `cap` words. Returns false and changes nothing if there is
    /// not enough memory.
    pub(crate) fn grow(&mut self, alloc: &Global, len: usize, old: usize, cap: usize) -> bool
        requires { (len ≡ length self.old.words) × (old ≡ self.old.cap) × (0 < old) × (old ≤ cap)
            × (cap < 2 ^ 60) }
        ensures { (self.new.words ≡ self.old.words)
            × (self.new.cap ≡ (if result then cap else old)) }
    {
        match unsafe { alloc.grow(self.at, len, old, cap) } {
            Ok(block) => {
                self.at = block;
                true
            }
            Err(_) => false,
        }
    }

    /// Writes `w` after the first `len` words.
    pub(crate) fn push(&mut self, len: usize, w: u64)
        requires { (len ≡ length self.old.words) × (len < self.old.cap) }
        ensures { (self.new.words ≡ self.old.words ++ w ∷ []) × (self.new.cap ≡ self.old.cap) }
    {
        unsafe { *self.at.add(len) = w }
    }

    /// Writes `n` copies of `w` after the first `len` words.
    pub(crate) fn push_run(&mut self, len: usize, n: usize, w: u64)
        requires { (len ≡ length self.old.words) × (len + n ≤ self.old.cap)
            × (self.old.cap < 2 ^ 60) }
        ensures { (self.new.words ≡ self.old.words ++ replicate n w)
            × (self.new.cap ≡ self.old.cap) }
    {
        for k in 0..n {
            self.push(len + k, w);
        }
    }

    /// Writes `words` after the first `len` words.
    pub(crate) fn push_all(&mut self, len: usize, words: &[u64])
        requires { (len ≡ length self.old.words) × (len + length words.now ≤ self.old.cap)
            × (self.old.cap < 2 ^ 60) }
        ensures { (self.new.words ≡ self.old.words ++ words.now) × (self.new.cap ≡ self.old.cap) }
    {
        for k in 0..words.len() {
            self.push(len + k, words[k]);
        }
    }

    /// Returns a slice of the `len` written words.
    pub(crate) fn words(&self, len: usize) -> &[u64]
        requires { len ≡ length self.now.words }
        ensures { result.now ≡ self.now.words }
    {
        unsafe { slice::from_raw_parts(self.at, len) }
    }

    /// Returns a mutable slice of the `n` words from word `from` on.
    pub(crate) fn part_mut(&mut self, from: usize, n: usize) -> &mut [u64]
        requires { from + n ≤ length self.old.words }
        ensures* writes_back { sem 𝓛 (borrows_words self.entry from result) }
        ensures value { result.now ≡ slice_range self.old.words from (from + n) }
    {
        unsafe { slice::from_raw_parts_mut(self.at.add(from), n) }
    }

    /// Removes the words from word `_len` on. The capacity stays the same.
    pub(crate) fn cut(&mut self, _len: usize)
        requires { _len ≤ length self.old.words }
        ensures { (self.new.words ≡ take _len self.old.words) × (self.new.cap ≡ self.old.cap) }
    {}

    /// Frees the memory of the block.
    pub(crate) fn free(self, alloc: &Global, cap: usize)
        requires { cap ≡ self.cap }
    {
        let Block { at } = self;
        if cap != 0 {
            unsafe { alloc.deallocate(at as *mut u8, cap * 8, 8) }
        }
    }
}
