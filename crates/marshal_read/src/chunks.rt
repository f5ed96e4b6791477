//! Input in chunks: the bytes of an incomplete header or token are buffered until more bytes
//! arrive.

ghost use Rattle.std.specs.Prelude.{◌≡◌, ◌<◌, ℕ, List, [], length, take, Some};

use crate::reading::Reading;
use crate::returned_value::{Borrowed, Value};
use crate::unread::Unread;
use base_data::model::refusal::ReadRefusal;
use marshal_heap::heap::Heap;
use std::alloc::Global;

/// The maximum number of bytes that are appended to the buffered part at a time.
const JOINED: usize = 4096;

/// Returns the first bytes, at most `JOINED` bytes.
fn joined(bytes: &[u8]) -> &[u8]
    ensures { result.now ≡ take 4096 bytes.now }
{
    if bytes.len() < JOINED {
        bytes
    } else {
        &bytes[..JOINED]
    }
}

/// The state of a value read in chunks: the complete header and tokens, and the buffered part of
/// the next header or token.
#[derive(Drop)]
pub struct Chunks {
    pub reading: Reading,
    pub part: Vec<u8>,
}

impl Chunks {
    ghost use Rattle.base_data.specs.model.Bytes.{AreBytes};
    ghost use Rattle.marshal_read.specs.Chunks.{LeadsChunks, IsWhole, Takes, TakesChunk};

    /// Creates a state in which nothing is read. The state reuses the memory of a discarded heap.
    pub fn over(alloc: Global, limit: u64, heap: Heap) -> Chunks
        ensures { LeadsChunks limit [] result }
    {
        Chunks {
            reading: Reading::over(alloc, limit, heap),
            part: Vec::new(alloc),
        }
    }

    /// Resets the state to the state in which nothing is read. The state keeps its memory.
    pub fn restart(&mut self, limit: u64)
        ensures { LeadsChunks limit [] self.new }
    {
        self.reading.restart(limit);
        self.part.clear();
    }

    /// Reads one header or token from the bytes. If the bytes are only a part of a header or token,
    /// buffers all the bytes. Before the call, the buffer is empty.
    fn take_next(&mut self, alloc: Global, rest: &[u8]) -> Result<usize, ReadRefusal>
        requires none { self.old.part.items ≡ [] }
        requires some { 0 < length rest.now }
        requires open { IsWhole self.old.reading.totals → ⊥ }
        requires leads { (limit : ℕ) × (taken : List ℕ) × LeadsChunks limit taken self.old }
        ensures { (limit : ℕ) (taken : List ℕ) → LeadsChunks limit taken self.old
            → Takes limit taken rest.now self.new result }
    {
        let common = self.reading.take_common(rest);
        if common > 0 {
            return Ok(common);
        }
        match self.reading.next(alloc, rest) {
            Ok(len) => Ok(len),
            Err(Unread::NeedMore) => {
                self.part.extend_from_slice(rest)?;
                Ok(rest.len())
            }
            Err(Unread::Refused(refusal)) => Err(refusal),
        }
    }

    /// Completes the buffered header or token, or appends some of the bytes to the buffer.
    #[inline(never)]
    fn join_next(&mut self, alloc: Global, rest: &[u8]) -> Result<usize, ReadRefusal>
        requires some { 0 < length rest.now }
        requires open { IsWhole self.old.reading.totals → ⊥ }
        requires leads { (limit : ℕ) × (taken : List ℕ) × LeadsChunks limit taken self.old }
        ensures { (limit : ℕ) (taken : List ℕ) → LeadsChunks limit taken self.old
            → Takes limit taken rest.now self.new result }
    {
        let before = self.part.len();
        let more = joined(rest);
        self.part.extend_from_slice(more)?;
        match self.reading.next(alloc, self.part.as_slice()) {
            Ok(len) => {
                self.part.clear();
                Ok(len - before)
            }
            Err(Unread::NeedMore) => Ok(more.len()),
            Err(Unread::Refused(refusal)) => Err(refusal),
        }
    }

    /// Consumes at least one of the bytes, unless the bytes are refused.
    fn take_some(&mut self, alloc: Global, rest: &[u8]) -> Result<usize, ReadRefusal>
        requires some { 0 < length rest.now }
        requires open { IsWhole self.old.reading.totals → ⊥ }
        requires leads { (limit : ℕ) × (taken : List ℕ) × LeadsChunks limit taken self.old }
        ensures { (limit : ℕ) (taken : List ℕ) → LeadsChunks limit taken self.old
            → Takes limit taken rest.now self.new result }
    {
        if self.part.is_empty() {
            self.take_next(alloc, rest)
        } else {
            self.join_next(alloc, rest)
        }
    }

    /// Consumes the bytes, or the prefix of the bytes that ends the value. Returns the number of
    /// bytes consumed. Fails with the refusal if the value is refused.
    pub fn feed(&mut self, alloc: Global, chunk: &[u8]) -> Result<usize, ReadRefusal>
        requires { (limit : ℕ) × (taken : List ℕ) × LeadsChunks limit taken self.old }
        ensures { (limit : ℕ) (taken : List ℕ) → LeadsChunks limit taken self.old
            → TakesChunk limit taken chunk.now self.new result }
    {
        let mut taken = 0;
        while taken < chunk.len() && !self.reading.is_done() {
            match self.take_some(alloc, &chunk[taken..]) {
                Ok(n) => taken += n,
                Err(refusal) => return Err(refusal),
            }
        }
        Ok(taken)
    }

    /// Returns the number of bytes consumed since the value's first byte.
    pub fn taken(&self) -> u64
        ensures { (limit : ℕ) (taken : List ℕ) → LeadsChunks limit taken self.now
            → result ≡ length taken }
    {
        let part = self.part.len() as u64;
        match &self.reading.totals {
            None => part,
            Some(totals) => totals.start + totals.taken + part,
        }
    }

    /// Borrows the complete value that was read.
    pub fn borrow(&self) -> Borrowed<'_>
        requires leads { (limit : ℕ) × (taken : List ℕ) × AreBytes taken
            × LeadsChunks limit taken self.now }
        requires whole { IsWhole self.now.reading.totals }
        ensures heap { result.heap.now ≡ self.now.reading.builder.built.objects }
        ensures root { self.now.reading.builder.built.root ≡ Some result.root }
    {
        self.reading.builder.borrow()
    }

    /// Returns the complete value that was read.
    pub fn finish(self) -> Value
        requires leads { (limit : ℕ) × (taken : List ℕ) × AreBytes taken
            × LeadsChunks limit taken self }
        requires whole { IsWhole self.reading.totals }
        ensures heap { result.heap ≡ self.reading.builder.built.objects }
        ensures root { self.reading.builder.built.root ≡ Some result.root }
    {
        let Chunks { reading, part: _ } = self;
        let Reading {
            limit: _,
            totals: _,
            builder,
        } = reading;
        builder.finish()
    }
}
