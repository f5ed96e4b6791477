//! The streaming check of the current value, whose bytes arrive in chunks.

use crate::chunk_check::value_inspection::{CheckResult, Inspecting};
use crate::mismatch_search::FoundMismatch;
use base_data::model::Memory;
use std::alloc::Global;
use types_table::type_table::TypeTable;

/// The result of feeding a chunk to the check.
#[derive(Clone, Copy)]
pub enum ChunkResult {
    /// This many bytes of the chunk complete a value that has the type.
    Typed(usize),
    /// This many bytes of the chunk complete a value with exactly one mismatch. The mismatch is
    /// available until the next chunk is fed.
    Missed(usize),
    /// The whole chunk was consumed, and the value needs more bytes.
    More,
    /// The check cannot decide, and no byte of the chunk was consumed. The next call checks from
    /// the value's first byte on.
    Inconclusive,
}

/// The buffered bytes of the current value, and the state of the check. `mismatched` is true if the
/// last check was inconclusive after it found a type mismatch.
#[derive(Drop)]
pub struct StreamCheck<'a> {
    kept: Vec<u8>,
    mismatched: bool,
    inspecting: Inspecting<'a>,
}

impl<'a> StreamCheck<'a> {
    ghost use Rattle.std.specs.Prelude.{ℕ, ◌≡◌, [], None, Some, IfOk, MatchOption};
    ghost use Rattle.types_spec.specs.types.Table.{Table};
    ghost use Rattle.types_table.specs.type_table.Made.{table_of};
    ghost use Rattle.check_stream.specs.chunk_check.StreamCheck.{IsStreamCheck, IsChunkResult};
    ghost use Rattle.check_stream.specs.chunk_check.StreamCheck.{held};

    /// Creates a check without buffered bytes, without allocating memory.
    pub fn new(alloc: Global) -> StreamCheck<'a>
        ensures none { result.kept.items ≡ [] }
        ensures stream_check { (table : Table) (limit : ℕ) → IsStreamCheck table limit result }
    {
        StreamCheck {
            kept: Vec::new(alloc),
            mismatched: false,
            inspecting: Inspecting::new(alloc),
        }
    }

    /// Returns the buffered bytes of the current value.
    pub fn kept(&self) -> &[u8]
        ensures { result.now ≡ self.now.kept.items }
    {
        self.kept.as_slice()
    }

    /// Returns the mismatch that was found last, if the mismatch is still available.
    pub fn missed(&self) -> Option<&FoundMismatch>
        ensures { MatchOption result (held self.now ≡ None)
            (λ found. held self.now ≡ Some found.now) }
    {
        self.inspecting.missed()
    }

    /// Returns true if the last check was inconclusive after it found a type mismatch. Callers may
    /// use the result only to save time, because no contract promises it.
    pub fn mismatched(&self) -> bool {
        self.mismatched
    }

    /// Ends a value and starts the next value. The memory is kept.
    fn end(&mut self)
        ensures none { self.new.kept.items ≡ [] }
        ensures found { held self.new ≡ held self.old }
        ensures stream_check { (table : Table) (limit : ℕ) → IsStreamCheck table limit self.new }
    {
        self.kept.clear();
        self.inspecting.restart();
    }

    /// Feeds a chunk while no byte of the value is buffered.
    #[inline(always)]
    fn first(
        &mut self,
        alloc: Global,
        table: &'a TypeTable,
        limit: u64,
        chunk: &[u8],
    ) -> Result<ChunkResult, Memory>
        requires stream_check { IsStreamCheck (table_of table.now) limit self.old }
        requires none { self.old.kept.items ≡ [] }
        ensures { IfOk result
            (IsChunkResult (table_of table.now) limit self.old chunk.now self.new) }
    {
        match self.inspecting.inspect(alloc, table, limit, chunk)? {
            CheckResult::Typed(n) if n > 0 => {
                self.end();
                Ok(ChunkResult::Typed(n))
            }
            CheckResult::Missed(n) if n > 0 => {
                self.end();
                Ok(ChunkResult::Missed(n))
            }
            CheckResult::More => {
                self.kept.extend_from_slice(chunk)?;
                Ok(ChunkResult::More)
            }
            _ => {
                self.mismatched = self.inspecting.found_mismatch();
                self.inspecting.forget(alloc);
                Ok(ChunkResult::Inconclusive)
            }
        }
    }

    /// Feeds a chunk while bytes of the value are buffered.
    #[inline(never)]
    fn next(
        &mut self,
        alloc: Global,
        table: &'a TypeTable,
        limit: u64,
        chunk: &[u8],
    ) -> Result<ChunkResult, Memory>
        requires stream_check { IsStreamCheck (table_of table.now) limit self.old }
        ensures { IfOk result
            (IsChunkResult (table_of table.now) limit self.old chunk.now self.new) }
    {
        let before = self.kept.len();
        self.kept.extend_from_slice(chunk)?;
        match self
            .inspecting
            .inspect(alloc, table, limit, self.kept.as_slice())?
        {
            CheckResult::Typed(n) if n > before => {
                self.end();
                Ok(ChunkResult::Typed(n - before))
            }
            CheckResult::Missed(n) if n > before => {
                self.end();
                Ok(ChunkResult::Missed(n - before))
            }
            CheckResult::More => Ok(ChunkResult::More),
            _ => {
                self.kept.truncate(before);
                self.mismatched = self.inspecting.found_mismatch();
                self.inspecting.forget(alloc);
                Ok(ChunkResult::Inconclusive)
            }
        }
    }

    /// Feeds a chunk. Consumes the bytes up to the end of the current value, or the whole chunk, or
    /// nothing. If the chunk contains a whole value, the bytes of the value are not copied. If
    /// memory runs out, fails with `Memory`.
    #[inline(always)]
    pub fn feed(
        &mut self,
        alloc: Global,
        table: &'a TypeTable,
        limit: u64,
        chunk: &[u8],
    ) -> Result<ChunkResult, Memory>
        requires stream_check { IsStreamCheck (table_of table.now) limit self.old }
        ensures { IfOk result
            (IsChunkResult (table_of table.now) limit self.old chunk.now self.new) }
    {
        if self.kept.is_empty() {
            self.first(alloc, table, limit, chunk)
        } else {
            self.next(alloc, table, limit, chunk)
        }
    }
}
