//! Fakes in memory: a source, a sink and files. The bytes of a fake are known. A fake fails at the
//! calls that were chosen when the fake was created.

ghost use Rattle.std.specs.Prelude.{◌≡◌, ◌⊎◌, ◌↔◌, ◌<◌, ◌≤◌, min, [], ◌∷◌, ◌++◌, length, take};
ghost use Rattle.std.specs.Prelude.{None, Some};
ghost use Rattle.std.specs.Prelude.{is_err, IsErr, IsErrOf, IsTrue, OnOk, OnErr, IfOk};
ghost use Rattle.std.specs.Prelude.{option_copied, position, bytes_eq, string_bytes};
ghost use Rattle.std.specs.Prelude.{slice_index_or};
ghost use Rattle.std.specs.Bool.{OnTrue, OnFalse};
ghost use Rattle.base_io.specs.Source.{TakesPrefix};
ghost use Rattle.base_io.specs.Sink.{AppendsPrefix};
ghost use Rattle.base_io.specs.Fakes.{FailsNext, after_call, plan_of, files_of};
ghost use Rattle.base_io.specs.Files.{HasNoNameTwice};
ghost use Rattle.base_io.specs.StreamState.{as_source};
ghost use Rattle.base_data.specs.model.Bytes.{AreBytes};

use crate::plan::Plan;
use crate::{Failed, History, OpenError, Opener, Sink, Source};
use base_data::model::Memory;
use std::alloc::Global;
use std::marker::Model;

// Copies bytes to the start of a buffer until `from` ends or the buffer is full. Returns the number
// of copied bytes.
fn copy_prefix(from: &[u8], to: &mut [u8]) -> usize
    ensures amount { result ≡ min (length from.now) (length to.new) }
    ensures prefix { take result to.new ≡ take result from.now }
{
    let n = from.len().min(to.len());
    to[..n].copy_from_slice(&from[..n]);
    n
}

// Lemma function: every element of a byte slice is less than 256.
fn are_bytes(bytes: &[u8])
    ensures { AreBytes bytes.now }
{
    let _all = bytes;
}

/// A source in memory with known bytes and chosen calls that fail.
#[derive(Drop)]
pub struct MemSource {
    bytes: Vec<u8>,
    at: usize,
    chunk: usize,
    takes: Plan,
    history: History,
}

impl Model for MemSource {
    ghost use Rattle.std.specs.Prelude.{◌≤◌, vec_len, drop};
    ghost use Rattle.base_io.specs.Fakes.{SourceValue};

    ghost Value = { SourceValue };

    ghost view = { λ s. record {
      left = drop s.at s.bytes.items;
      chunk = s.chunk;
      takes = s.takes;
      calls = s.history.calls;
    } };

    ghost invariant = { λ s. (s.at ≤ vec_len s.bytes) × (1 ≤ s.chunk) };
}

impl MemSource {
    /// Creates a source that returns at most `chunk` bytes in a call. The calls with the numbers in
    /// `failing`, counted from 0, fail.
    pub fn new(bytes: Vec<u8>, chunk: usize, failing: Vec<u64>) -> MemSource
        requires { 1 ≤ chunk }
        ensures { result
            ≡ record {
              left = bytes.items;
              chunk = chunk;
              takes = plan_of failing.items;
              calls = [];
            } }
    {
        MemSource {
            bytes,
            at: 0,
            chunk,
            takes: Plan::new(failing),
            history: History::new(),
        }
    }

    /// Returns the number of failed calls.
    pub fn faults(&self) -> u64
        ensures { result ≡ self.now.takes.faults }
    {
        self.takes.faults()
    }
}

impl Source for MemSource {
    ghost use Rattle.base_io.specs.Fakes.{source_state};

    ghost state = { source_state };

    fn take(&mut self, buf: &mut [u8]) -> Result<usize, Failed>
        ensures takes { TakesPrefix (source_state self.old) (source_state self.new) result buf.new }

        // The plan `takes` decides which calls fail. A successful call returns as many bytes as
        // `chunk`, the remaining bytes and the buffer allow.
        ensures fails { IsErr result ↔ FailsNext self.old.takes }
        ensures amount { IfOk result
            (λ n. n ≡ min (min self.old.chunk (length self.old.left)) (length buf.new)) }
        ensures counted { self.new.takes ≡ after_call self.old.takes (is_err result) }
        ensures chunk { self.new.chunk ≡ self.old.chunk }
    {
        let failed = self.takes.fails_next();
        self.takes.count_call(failed);
        if failed {
            self.history.add_failed();
            return Err(Failed);
        }
        let rest = &self.bytes[self.at..];
        let n = copy_prefix(&rest[..self.chunk.min(rest.len())], buf);
        self.at += n;
        self.history.add_moved(buf.len(), &buf[..n]);
        Ok(n)
    }

    fn reports_bytes(&self)
        ensures { AreBytes self.now.left }
    {
        are_bytes(&self.bytes[self.at..]);
    }
}

/// A sink in memory that keeps the written bytes.
#[derive(Drop)]
pub struct MemSink {
    bytes: Vec<u8>,
    room: usize,
    writes: Plan,
}

impl Model for MemSink {
    ghost use Rattle.std.specs.Prelude.{◌≤◌, vec_len, vec_capacity};
    ghost use Rattle.base_io.specs.Fakes.{SinkValue};

    ghost Value = { SinkValue };

    ghost view = { λ s. record { written = s.bytes.items; room = s.room; writes = s.writes } };

    ghost invariant = { λ s. (vec_len s.bytes ≤ s.room) × (s.room ≤ vec_capacity s.bytes) };
}

impl MemSink {
    /// Creates a sink for at most `room` bytes, and allocates the memory for `room` bytes at once.
    /// Calls on a full sink and the calls with the numbers in `failing`, counted from 0, fail.
    pub fn new(alloc: Global, room: usize, failing: Vec<u64>) -> Result<MemSink, Memory>
        ensures { IfOk result
            (λ sink. sink ≡ record { written = []; room = room; writes = plan_of failing.items }) }
    {
        Ok(MemSink {
            bytes: Vec::with_capacity(alloc, room)?,
            room,
            writes: Plan::new(failing),
        })
    }

    /// Returns all bytes that were written to the sink.
    pub fn written(&self) -> &[u8]
        ensures { result.now ≡ self.now.written }
    {
        self.bytes.as_slice()
    }

    /// Returns the number of failed calls.
    pub fn faults(&self) -> u64
        ensures { result ≡ self.now.writes.faults }
    {
        self.writes.faults()
    }
}

impl Sink for MemSink {
    ghost use Rattle.std.specs.Prelude.{◌-◌};
    ghost use Rattle.base_io.specs.Fakes.{sink_state};

    ghost state = { sink_state };

    fn write(&mut self, chunk: &[u8]) -> Result<usize, Failed>
        ensures appends { AppendsPrefix (sink_state self.old) (sink_state self.new) result
            chunk.now }

        // A call fails if the plan `writes` requires a failure or if the sink is full. A successful
        // call accepts as many bytes as the remaining room allows.
        ensures fails { IsErr result
            ↔ (FailsNext self.old.writes ⊎ (length self.old.written ≡ self.old.room)) }
        ensures amount { IfOk result
            (λ n. n ≡ min (self.old.room - length self.old.written) (length chunk.now)) }
        ensures counted { self.new.writes ≡ after_call self.old.writes (is_err result) }
        ensures room { self.new.room ≡ self.old.room }
    {
        let left = self.room - self.bytes.len();
        let failed = left == 0 || self.writes.fails_next();
        self.writes.count_call(failed);
        if failed {
            return Err(Failed);
        }
        let n = left.min(chunk.len());
        self.bytes.extend_from_slice(&chunk[..n]).unwrap();
        Ok(n)
    }

    fn knows_bytes(&self) {}
}

/// Files in memory with given names and bytes.
#[derive(Drop)]
pub struct MemFiles {
    alloc: Global,
    pairs: Vec<(String, Vec<u8>)>,
    fetched: Option<usize>,
    at: usize,
    fetches: Plan,
    reads: Plan,
    last: Option<String>,
    history: History,
}

impl Model for MemFiles {
    ghost use Rattle.std.specs.Prelude.{option_map, string_bytes};
    ghost use Rattle.base_io.specs.Fakes.{FilesValue, files_of, left_at, IsWithin};

    ghost Value = { FilesValue };

    ghost view = { λ f. record {
      files = files_of f.pairs.items;
      left = left_at (files_of f.pairs.items) f.fetched f.at;
      fetches = f.fetches;
      reads = f.reads;
      last_open_fault = option_map string_bytes f.last;
      calls = f.history.calls;
    } };

    ghost invariant = { λ f. IsWithin (files_of f.pairs.items) f.fetched f.at };
}

// Returns the index of the first pair of a name and bytes with this name.
fn index_of(pairs: &[(String, Vec<u8>)], name: &str) -> Option<usize>
    ensures { result ≡ position (λ pair. bytes_eq (string_bytes pair.0) name.now) pairs.now }
{
    pairs.iter().position(|pair| pair.0.as_str() == name)
}

// Returns the bytes of the file at index `index`.
fn bytes_at(pairs: &[(String, Vec<u8>)], index: usize) -> &[u8]
    requires { index < length pairs.now }
    ensures { result.now ≡ (slice_index_or (files_of pairs.now) index ([], [])).1 }
{
    pairs[index].1.as_slice()
}

impl MemFiles {
    /// Creates files with distinct names. The numbers in `failing` are the fetches that fail, and
    /// the numbers in `reads` are the takes that fail, each counted from 0.
    pub fn new(
        alloc: Global,
        pairs: Vec<(String, Vec<u8>)>,
        failing: Vec<u64>,
        reads: Vec<u64>,
    ) -> MemFiles
        requires { HasNoNameTwice (files_of pairs.items) }
        ensures { result ≡ record {
          files = files_of pairs.items;
          left = [];
          fetches = plan_of failing.items;
          reads = plan_of reads.items;
          last_open_fault = None;
          calls = [];
        } }
    {
        MemFiles {
            alloc,
            pairs,
            fetched: None,
            at: 0,
            fetches: Plan::new(failing),
            reads: Plan::new(reads),
            last: None,
            history: History::new(),
        }
    }

    /// Returns true if no two pairs have the same name, which `new` requires.
    pub fn have_no_name_twice(pairs: &[(String, Vec<u8>)]) -> bool
        ensures { IsTrue result ↔ HasNoNameTwice (files_of pairs.now) }
    {
        for (i, pair) in pairs.iter().enumerate() {
            if index_of(pairs, pair.0.as_str()) != Some(i) {
                return false;
            }
        }
        true
    }

    /// Returns the number of failed fetches.
    pub fn open_faults(&self) -> u64
        ensures { result ≡ self.now.fetches.faults }
    {
        self.fetches.faults()
    }

    /// Returns the name of the last failed fetch.
    pub fn last_open_fault(&self) -> Option<&str>
        ensures { option_copied result ≡ self.now.last_open_fault }
    {
        match &self.last {
            Some(name) => Some(name.as_str()),
            None => None,
        }
    }

    /// Returns the number of failed takes.
    pub fn read_faults(&self) -> u64
        ensures { result ≡ self.now.reads.faults }
    {
        self.reads.faults()
    }
}

impl Opener for MemFiles {
    ghost use Rattle.base_io.specs.Fakes.{files_state};
    ghost use Rattle.base_io.specs.Files.{OpensFile, contents_of, has_failed};
    ghost use Rattle.base_io.specs.History.{fetched, error_of};

    ghost state = { files_state };

    fn take(&mut self, buf: &mut [u8]) -> Result<usize, Failed>
        ensures takes { TakesPrefix (as_source (files_state self.old))
            (as_source (files_state self.new)) result buf.new }
        ensures frame { self.new
            ≡ record self.old {
              left = self.new.left;
              reads = self.new.reads;
              calls = self.new.calls;
            } }

        // The plan `reads` decides which takes fail. A successful take returns as many bytes as the
        // remaining bytes and the buffer allow.
        ensures fails { IsErr result ↔ FailsNext self.old.reads }
        ensures amount { IfOk result (λ n. n ≡ min (length self.old.left) (length buf.new)) }
        ensures counted { self.new.reads ≡ after_call self.old.reads (is_err result) }
    {
        let failed = self.reads.fails_next();
        self.reads.count_call(failed);
        if failed {
            self.history.add_failed();
            return Err(Failed);
        }
        let Some(index) = self.fetched else {
            self.history.add_moved(buf.len(), &[]);
            return Ok(0);
        };
        let n = copy_prefix(&bytes_at(&self.pairs, index)[self.at..], buf);
        self.at += n;
        self.history.add_moved(buf.len(), &buf[..n]);
        Ok(n)
    }

    fn fetch(&mut self, name: &str) -> Result<(), OpenError>
        ensures opened { OnOk result (OpensFile self.old.files name.now (Some self.new.left)) }
        ensures refused { OnErr result (self.new.left ≡ []) }
        ensures missing { IsErrOf result OpenError.Missing
            → contents_of self.old.files name.now ≡ None }
        ensures named { OnTrue (has_failed result) (self.new.last_open_fault ≡ Some name.now) }
        ensures last { OnFalse (has_failed result)
            (self.new.last_open_fault ≡ self.old.last_open_fault) }
        ensures frame { self.new ≡ record self.old {
          left = self.new.left;
          fetches = self.new.fetches;
          last_open_fault = self.new.last_open_fault;
          calls = self.new.calls;
        } }
        ensures called { self.new.calls
            ≡ self.old.calls ++ fetched name.now (error_of result) ∷ [] }

        // The plan `fetches` decides which fetches fail, unless memory runs out first.
        ensures fails { FailsNext self.old.fetches →
            IsErrOf result OpenError.Failed ⊎ IsErrOf result OpenError.Memory }
        ensures planned { IsErrOf result OpenError.Failed → FailsNext self.old.fetches }
        ensures counted { self.new.fetches ≡ after_call self.old.fetches (has_failed result) }
    {
        self.fetched = None;
        let Ok(kept) = String::from_str(self.alloc, name) else {
            self.fetches.count_call(false);
            self.history.add_fetched(name, &Err(OpenError::Memory));
            return Err(OpenError::Memory);
        };
        let failed = self.fetches.fails_next();
        self.fetches.count_call(failed);
        if failed {
            self.last = Some(kept);
            self.history.add_fetched(name, &Err(OpenError::Failed));
            return Err(OpenError::Failed);
        }
        self.at = 0;
        self.fetched = index_of(&self.pairs, name);
        match self.fetched {
            Some(_) => {
                self.history.add_fetched(name, &Ok(()));
                Ok(())
            }
            None => {
                self.history.add_fetched(name, &Err(OpenError::Missing));
                Err(OpenError::Missing)
            }
        }
    }
}
