//! The search, while the bytes of the input arrive.

ghost use Rattle.std.specs.Prelude.{◌≡◌, ◌<◌, ◌≤◌, ◌^◌, ◌+◌, ℕ, List, [], length, take, drop};
ghost use Rattle.std.specs.Prelude.{true, IfOk};
ghost use Rattle.cli_spec.specs.Outcome.{Output};
ghost use Rattle.base_io.specs.StreamState.{change};
ghost use Rattle.cmd_scan.specs.command.Last.{IsComplete, HasValue};
ghost use Rattle.cmd_scan.specs.command.SearchOutput.{HasSearched, HasStretch, TakesSome};
ghost use Rattle.cmd_scan.specs.command.SearchOutput.{WritesNext};

use crate::command::clear::clear_bytes;
use crate::command::last::{TakenBytes, read_some, take_prefix};
use crate::spec::laws::Searches;
use crate::sweep::{sweep, sweep_all, write_value};
use base_data::model::Memory;
use base_data::model::bytes::skip;
use base_data::text::write;
use base_io::{Sink, write_all};
use cli_errors::exit_line::Error;
use marshal_read::Reader;
use run_loop::work::{PassedBytes, Work};
use std::alloc::Global;
use std::marker::PhantomData;
use std::mem;

/// While fewer than `FEW` bytes are held, bytes are taken one by one. At most offsets no value
/// begins, and the four bytes of the magic number decide that.
const FEW: usize = 4;

// Returns the bytes after the first `n` bytes.
fn left_of(alloc: Global, bytes: &[u8], n: usize) -> Result<Vec<u8>, Memory>
    ensures { IfOk result (λ left. left.items ≡ drop n bytes.now) }
{
    let mut left = Vec::new(alloc);
    write(&mut left, skip(bytes, n))?;
    Ok(left)
}

// Returns the bytes to take next: all buffered bytes, or one byte if few bytes are held.
fn next_chunk(buffered: &[u8], held: usize) -> &[u8]
    requires { 0 < length buffered.now }
    ensures { (n : ℕ) × (0 < n) × (n ≤ length buffered.now) × (result.now ≡ take n buffered.now) }
{
    if held < FEW { &buffered[..1] } else { buffered }
}

/// The state of the search. The held bytes begin at the first offset at which a value may still
/// begin. `reader` has taken the held bytes, and `at` bytes come before them.
#[derive(Drop)]
pub struct Searching<S> {
    pub limit: u64,
    held: Vec<u8>,
    reader: Reader,
    at: u64,
    asked: PhantomData<S>,
}

impl<S: Searches> Searching<S> {
    /// Creates the state before any byte is taken. `limit` is the greatest number of 64-bit words
    /// in a value.
    pub fn new(alloc: Global, limit: u64) -> Searching<S>
        ensures limit { result.limit ≡ limit }
        ensures has { HasSearched S.limit_by result.limit result.held.items result.reader result.at
            [] [] }
    {
        Searching {
            limit,
            held: Vec::new(alloc),
            reader: Reader::new(alloc, limit),
            at: 0,
            asked: PhantomData,
        }
    }

    // Takes some of the buffered bytes. Afterwards, the held bytes are a prefix of a value, or a
    // stretch.
    fn take_some(&mut self, alloc: Global, buffered: &[u8]) -> Result<TakenBytes, Memory>
        requires some { 0 < length buffered.now }
        requires has { (bytes : List ℕ) × (output : List Output)
            × HasSearched S.limit_by self.old.limit self.old.held.items self.old.reader self.old.at
            bytes output }
        ensures limit { self.new.limit ≡ self.old.limit }
        ensures takes { (bytes : List ℕ) (output : List Output)
            → HasSearched S.limit_by self.old.limit self.old.held.items self.old.reader self.old.at
            bytes output
            → TakesSome S.limit_by self.old.limit self.new.held.items self.new.reader self.new.at
            buffered.now bytes output result }
        ensures whole { IfOk result
            (HasValue self.new.limit self.new.held.items self.new.reader) }
    {
        let chunk = next_chunk(buffered, self.held.len());
        let held = self.held.as_slice();
        let taken = read_some(alloc, self.limit, held, &mut self.reader, chunk)?;
        write(&mut self.held, &chunk[..taken.bytes])?;
        Ok(taken)
    }

    // Writes the line for the held bytes, if they are one value that the reader holds. Afterwards,
    // no byte is held.
    fn write_whole<K: Sink>(&mut self, alloc: Global, out: &mut K) -> Result<(), Error>
        requires stretch { (bytes : List ℕ) × (output : List Output)
            × HasStretch S.limit_by self.old.limit self.old.held.items self.old.at bytes output
            × (length bytes < 2 ^ 63) }
        requires complete { IsComplete self.old.limit self.old.held.items self.old.reader }
        ensures limit { self.new.limit ≡ self.old.limit }
        ensures writes { (bytes : List ℕ) (output : List Output)
            → HasStretch S.limit_by self.old.limit self.old.held.items self.old.at bytes output
            → WritesNext S.limit_by self.old.limit self.new.held.items self.new.reader self.new.at
            bytes output (change (K.state out.old) (K.state out.new)) result }
    {
        let reader = mem::replace(&mut self.reader, Reader::new(alloc, self.limit));
        let value = reader.finish();
        let size = self.held.len();
        let mut text = Vec::new(alloc);
        write_value(&mut text, self.at, size, &value)?;
        let line = text.as_slice();
        write_all(out, line)?;
        self.at += size as u64;
        self.reader = Reader::over(alloc, self.limit, value.heap);
        self.held.clear();
        Ok(())
    }

    // Writes the output for the decided stretch, and holds the bytes of the stretch that may still
    // begin a value.
    fn write_stretch<K: Sink>(&mut self, alloc: Global, out: &mut K) -> Result<(), Error>
        requires { (bytes : List ℕ) × (output : List Output)
            × HasStretch S.limit_by self.old.limit self.old.held.items self.old.at bytes output
            × (length bytes < 2 ^ 63) }
        ensures limit { self.new.limit ≡ self.old.limit }
        ensures writes { (bytes : List ℕ) (output : List Output)
            → HasStretch S.limit_by self.old.limit self.old.held.items self.old.at bytes output
            → WritesNext S.limit_by self.old.limit self.new.held.items self.new.reader self.new.at
            bytes output (change (K.state out.old) (K.state out.new)) result }
    {
        self.reader = Reader::new(alloc, self.limit);
        let mut text = Vec::new(alloc);
        let held = self.held.as_slice();
        let swept = sweep(alloc, self.limit, held, self.at, &mut text)?;
        let left = left_of(alloc, held, swept.decided)?;
        let lines = text.as_slice();
        write_all(out, lines)?;
        self.at += swept.decided as u64;
        self.reader = swept.reader;
        self.held = left;
        Ok(())
    }

    // Writes the output for the decided stretch. If `whole` is true, then the stretch is one value,
    // and the reader holds the value.
    fn write_decided<K: Sink>(
        &mut self,
        alloc: Global,
        whole: bool,
        out: &mut K,
    ) -> Result<(), Error>
        requires stretch { (bytes : List ℕ) × (output : List Output)
            × HasStretch S.limit_by self.old.limit self.old.held.items self.old.at bytes output
            × (length bytes < 2 ^ 63) }
        requires whole { whole ≡ true
            → IsComplete self.old.limit self.old.held.items self.old.reader }
        ensures limit { self.new.limit ≡ self.old.limit }
        ensures writes { (bytes : List ℕ) (output : List Output)
            → HasStretch S.limit_by self.old.limit self.old.held.items self.old.at bytes output
            → WritesNext S.limit_by self.old.limit self.new.held.items self.new.reader self.new.at
            bytes output (change (K.state out.old) (K.state out.new)) result }
    {
        if whole {
            self.write_whole(alloc, out)
        } else {
            self.write_stretch(alloc, out)
        }
    }
}

impl<S: Searches> Work for Searching<S> {
    ghost use Rattle.cmd_scan.specs.spec.Searching.{searching};

    ghost Act = { ℕ };

    ghost commands = { searching S.limit_by };

    ghost act = { λ w. w.limit };

    ghost has = { λ w bytes output. HasSearched S.limit_by w.limit w.held.items w.reader w.at bytes
        output };

    fn reads(&self) -> bool {
        true
    }

    fn pass(&mut self, alloc: Global, buffered: &[u8]) -> Option<PassedBytes> {
        if self.held.len() != 3 {
            return None;
        }
        let bytes = clear_bytes(self.held.as_slice(), buffered);
        if bytes < 3 {
            return None;
        }
        let Ok(left) = left_of(alloc, &buffered[..bytes], bytes - 3) else {
            return None;
        };
        let mut reader = Reader::new(alloc, self.limit);
        let Ok(()) = take_prefix(&mut reader, left.as_slice()) else {
            return None;
        };
        self.at += bytes as u64;
        self.reader = reader;
        self.held = left;
        Some(PassedBytes {
            bytes,
            copied: false,
        })
    }

    fn feed<K: Sink>(&mut self, alloc: Global, chunk: &[u8], out: &mut K) -> Result<usize, Error> {
        let taken = self.take_some(alloc, chunk)?;
        if !taken.decided {
            return Ok(taken.bytes);
        }
        self.write_decided(alloc, taken.whole, out)?;
        Ok(taken.bytes)
    }

    fn end<K: Sink>(&mut self, alloc: Global, out: &mut K) -> Result<bool, Error> {
        let mut text = Vec::new(alloc);
        let held = self.held.as_slice();
        sweep_all(alloc, self.limit, held, self.at, &mut text)?;
        let lines = text.as_slice();
        write_all(out, lines)?;
        Ok(true)
    }

    fn laws(&self) {}
}
