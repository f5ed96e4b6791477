//! The complete header and tokens that were read, and the graph that the tokens build.

ghost use Rattle.std.specs.Prelude.{◌≡◌, ◌≤◌, ◌++◌, ◌↔◌, ℕ, List, [], length, take, None, IsTrue};

use crate::common::take_common;
use crate::graph_builder::Builder;
use crate::judged_header::judge_header;
use crate::read_totals::ReadTotals;
use crate::token_reader::next_token;
use crate::unread::Unread;
use marshal_heap::heap::Heap;
use std::alloc::Global;

/// The limit of 64-bit words, the totals over the tokens once the header is complete, and the graph
/// under construction.
#[derive(Drop)]
pub struct Reading {
    pub limit: u64,
    pub totals: Option<ReadTotals>,
    pub builder: Builder,
}

impl Reading {
    ghost use Rattle.marshal_read.specs.Chunks.{LeadsAs, IsWhole, NextRead};

    /// Creates a state in which nothing is read. The state reuses the memory of a discarded heap.
    pub fn over(alloc: Global, limit: u64, heap: Heap) -> Reading
        ensures limit { result.limit ≡ limit }
        ensures leads { LeadsAs result.totals limit [] result.builder [] }
    {
        Reading {
            limit,
            totals: None,
            builder: Builder::over(alloc, 0, heap),
        }
    }

    /// Resets the state to the state in which nothing is read. The state keeps its memory.
    pub fn restart(&mut self, limit: u64)
        ensures limit { self.new.limit ≡ limit }
        ensures leads { LeadsAs self.new.totals limit [] self.new.builder [] }
    {
        self.limit = limit;
        self.totals = None;
        self.builder.restart();
    }

    /// Returns true if the last token of the value was read.
    pub fn is_done(&self) -> bool
        ensures { IsTrue result ↔ IsWhole self.now.totals }
    {
        match &self.totals {
            None => false,
            Some(totals) => totals.pending == 0,
        }
    }

    /// Reads the header, if the bytes begin with a complete header. Returns the header's length in
    /// bytes.
    fn next_header(&mut self, bytes: &[u8]) -> Result<usize, Unread>
        requires none { self.old.totals ≡ None }
        requires leads { (taken part more : List ℕ)
            × LeadsAs None self.old.limit taken self.old.builder part × (bytes.now ≡ part ++ more) }
        ensures limit { self.new.limit ≡ self.old.limit }
        ensures next { (taken part more : List ℕ)
            → LeadsAs None self.old.limit taken self.old.builder part → bytes.now ≡ part ++ more
            → NextRead self.old.limit taken part more self.new result }
    {
        match judge_header(bytes, self.limit) {
            Ok(totals) => {
                self.builder.allow(totals.head.w64);
                self.totals = Some(totals);
                Ok(totals.start as usize)
            }
            Err(stop) => Err(stop),
        }
    }

    /// Reads the tokens after the header that surely pass and need no new memory. Returns the
    /// number of bytes consumed, which is 0 if the header is incomplete.
    pub fn take_common(&mut self, bytes: &[u8]) -> usize
        requires open { IsWhole self.old.totals → ⊥ }
        requires leads { (taken : List ℕ)
            × LeadsAs self.old.totals self.old.limit taken self.old.builder [] }
        ensures limit { self.new.limit ≡ self.old.limit }
        ensures open { result ≡ 0 → IsWhole self.new.totals → ⊥ }
        ensures takes { (taken : List ℕ)
            → LeadsAs self.old.totals self.old.limit taken self.old.builder []
            → (result ≤ length bytes.now)
            × LeadsAs self.new.totals self.old.limit (taken ++ take result bytes.now)
            self.new.builder [] }
    {
        let Some(mut totals) = self.totals else {
            return 0;
        };
        let n = take_common(&mut totals, &mut self.builder, bytes);
        self.totals = Some(totals);
        n
    }

    /// Reads the next header or token, if the bytes begin with a complete one, and returns its
    /// length in bytes. Fails with `NeedMore` if the header or token is incomplete, and with
    /// `Refused` if a step fails.
    pub fn next(&mut self, alloc: Global, bytes: &[u8]) -> Result<usize, Unread>
        requires open { IsWhole self.old.totals → ⊥ }
        requires leads { (taken part more : List ℕ)
            × LeadsAs self.old.totals self.old.limit taken self.old.builder part
            × (bytes.now ≡ part ++ more) }
        ensures limit { self.new.limit ≡ self.old.limit }
        ensures next { (taken part more : List ℕ)
            → LeadsAs self.old.totals self.old.limit taken self.old.builder part
            → bytes.now ≡ part ++ more → NextRead self.old.limit taken part more self.new result }
    {
        let Some(totals) = self.totals else {
            return self.next_header(bytes);
        };
        match next_token(alloc, &mut self.builder, &totals, bytes) {
            Ok(next) => {
                self.totals = Some(next);
                Ok((next.taken - totals.taken) as usize)
            }
            Err(stop) => Err(stop),
        }
    }
}
