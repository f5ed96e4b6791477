//! A reader of one value whose bytes arrive in chunks.

ghost use Rattle.std.specs.Prelude.{◌≡◌, ℕ, List, [], true, OnOk, IfOk, IfErr, ◌++◌};
ghost use Rattle.base_data.specs.declared.model.refusal.ReadRefusal.{ReadRefusal};
ghost use Rattle.marshal_read.specs.Reading.{RefusedIn};

use crate::chunks::Chunks;
use crate::returned_value::{Borrowed, Value};
use base_data::model::refusal::ReadRefusal;
use marshal_heap::heap::Heap;
use std::alloc::Global;

/// The result of feeding a chunk: the number of bytes consumed, and whether the consumed bytes
/// complete the value.
#[derive(Clone, Copy)]
pub struct Fed {
    pub taken: usize,
    pub done: bool,
}

/// The error for input that ends inside a value, with the number of the value's bytes that arrived.
#[derive(Clone, Copy)]
pub struct Truncated {
    pub taken: u64,
}

/// A reader of one value. The reader contains the graph so far and, after an error, the refusal.
/// The reader keeps no consumed bytes except an incomplete header or token.
#[derive(Drop)]
pub struct Reader {
    alloc: Global,
    chunks: Chunks,
    refusal: Option<ReadRefusal>,
}

impl Reader {
    ghost use Rattle.marshal_read.specs.Reader.{LeadsReader, IsReader, IsReading, IsStopped};
    ghost use Rattle.marshal_read.specs.Reader.{IsDone};
    ghost use Rattle.marshal_read.specs.Reader.{Feeds};
    ghost use Rattle.marshal_read.specs.Reader.{IsWithin, Finishes, EndsInput};

    /// Creates a reader for a value of at most `limit` 64-bit words. The function allocates no
    /// memory.
    pub fn new(alloc: Global, limit: u64) -> Reader
        ensures reader { IsReader result }
        ensures leads { LeadsReader limit [] result }
        ensures only { (other : ℕ) (taken : List ℕ) → LeadsReader other taken result → taken ≡ [] }
    {
        Reader::over(alloc, limit, Heap::new(alloc))
    }

    /// Creates a reader that reuses the memory of a discarded heap, for reading many values one
    /// after another.
    pub fn over(alloc: Global, limit: u64, heap: Heap) -> Reader
        ensures reader { IsReader result }
        ensures leads { LeadsReader limit [] result }
        ensures only { (other : ℕ) (taken : List ℕ) → LeadsReader other taken result → taken ≡ [] }
    {
        Reader {
            alloc,
            chunks: Chunks::over(alloc, limit, heap),
            refusal: None,
        }
    }

    /// Resets the reader, to read the next value in the same memory.
    pub fn restart(&mut self, limit: u64)
        ensures reader { IsReader self.new }
        ensures leads { LeadsReader limit [] self.new }
        ensures only { (other : ℕ) (taken : List ℕ) → LeadsReader other taken self.new
            → taken ≡ [] }
    {
        self.chunks.restart(limit);
        self.refusal = None;
    }

    /// Consumes the chunk, or the prefix of the chunk up to the value's last byte (`intern.c`). A
    /// reader with a complete value consumes nothing. Fails with a refusal if some prefix of the
    /// bytes is refused, or if memory runs out. After a refusal, every call returns the same
    /// refusal.
    pub fn feed(&mut self, chunk: &[u8]) -> Result<Fed, ReadRefusal>
        // Every reader that `new` creates and `feed` changes satisfies `IsReader`.
        requires { IsReader self.old }
        ensures reader { IsReader self.new }
        ensures feeds { (limit : ℕ) (taken : List ℕ) → LeadsReader limit taken self.old
            → IfOk result (Feeds limit taken chunk.now self.new) }
        ensures done { IfOk result (λ fed. fed.done ≡ true → IsDone self.new) }
        ensures reads { OnOk result (IsReading self.new) }
        // If the result is a refusal, then some prefix of the bytes is refused for the reason in
        // the refusal, or memory ran out.
        ensures refuses { (limit : ℕ) (taken : List ℕ) → LeadsReader limit taken self.old
            → IfErr result (RefusedIn limit (taken ++ chunk.now)) }
        // After a refusal, every call of `feed` returns the same refusal.
        ensures stops { IfErr result (λ refusal. IsStopped refusal self.new) }
        ensures again { (refusal : ReadRefusal) → IsStopped refusal self.old
            → result ≡ Err refusal }
        ensures within { (limit : ℕ) (taken : List ℕ) → LeadsReader limit taken self.old
            → OnOk result
            (IsWithin limit self.new.chunks.reading.totals self.new.chunks.reading.builder) }
    {
        if let Some(refusal) = self.refusal {
            return Err(refusal);
        }
        match self.chunks.feed(self.alloc, chunk) {
            Ok(taken) => Ok(Fed {
                taken,
                done: self.chunks.reading.is_done(),
            }),
            Err(refusal) => {
                self.refusal = Some(refusal);
                Err(refusal)
            }
        }
    }

    /// Borrows the complete value.
    pub fn borrow(&self) -> Borrowed<'_>
        requires reader { IsReader self.now }
        requires done { IsDone self.now }
        ensures { (limit : ℕ) (taken : List ℕ) → LeadsReader limit taken self.now
            → Finishes limit taken
            (record { heap = result.heap.now; root = result.root }) }
    {
        self.chunks.borrow()
    }

    /// Returns the complete value.
    pub fn finish(self) -> Value
        requires reader { IsReader self }
        requires done { IsDone self }
        ensures { (limit : ℕ) (taken : List ℕ) → LeadsReader limit taken self
            → Finishes limit taken result }
    {
        self.chunks.finish()
    }

    /// Handles the end of the input. Fails with `Truncated` if the input ends inside a value.
    pub fn at_end(&self) -> Result<(), Truncated>
        requires { IsReading self.now }
        ensures { (limit : ℕ) (taken : List ℕ) → LeadsReader limit taken self.now
            → EndsInput limit taken result }
    {
        if self.chunks.reading.is_done() {
            return Ok(());
        }
        let taken = self.chunks.taken();
        if taken == 0 {
            Ok(())
        } else {
            Err(Truncated { taken })
        }
    }
}
