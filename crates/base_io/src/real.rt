//! Adapters for readers, writers and the file system. Each adapter counts its failed calls and has
//! a history. The contracts of an adapter do not know the bytes that remain to be read.

ghost use Rattle.std.specs.Prelude.{◌≡◌, ◌++◌, ◌∷◌, [], None, Some, option_copied, is_ok, is_err};
ghost use Rattle.std.specs.Prelude.{IsErrOf, false};
ghost use Rattle.std.specs.Bool.{OnTrue, OnFalse};
ghost use Rattle.std.specs.Io.KnownBytes.{ReadConsumes, WriteAppends};
ghost use Rattle.base_io.specs.IoFaults.{count_after};
ghost use Rattle.base_io.specs.Source.{TakesPrefix};
ghost use Rattle.base_io.specs.Sink.{AppendsPrefix};
ghost use Rattle.base_io.specs.Adapters.{inconclusive};
ghost use Rattle.base_io.specs.History.{fetched, error_of};

use crate::{Failed, History, OpenError, Opener, Sink, Source};
use std::alloc::Global;
use std::fs;
use std::io::{Read, Write};
use std::marker::Model;
use std::rt::Files;

/// A source that reads from a reader and counts the failed calls.
#[derive(Drop)]
pub struct StdSource<R> {
    reader: R,
    faults: u64,
    history: History,
}

impl<R> StdSource<R> {
    ghost use Rattle.base_io.specs.Adapters.{reader_of, read_faults_of, source_state};

    /// Creates a source without calls.
    pub fn new(reader: R) -> StdSource<R>
        ensures over { reader_of result ≡ reader }
        ensures faults { read_faults_of result ≡ 0 }
        ensures calls { (source_state result).calls ≡ [] }
    {
        StdSource {
            reader,
            faults: 0,
            history: History::new(),
        }
    }

    /// Returns the number of failed calls.
    pub fn faults(&self) -> u64
        ensures { result ≡ read_faults_of self.now }
    {
        self.faults
    }
}

impl<R: Read> Source for StdSource<R> {
    ghost use Rattle.base_io.specs.Adapters.{reader_of, read_faults_of, source_state};

    ghost state = { source_state };

    fn take(&mut self, buf: &mut [u8]) -> Result<usize, Failed>
        ensures takes { TakesPrefix (source_state self.old) (source_state self.new) result buf.new }
        ensures counted { read_faults_of self.new
            ≡ count_after (read_faults_of self.old) (is_err result) }
        // If the bytes of the reader are known, the call returns the reader's bytes.
        ensures bytes { ReadConsumes (R.remaining (reader_of self.old))
            (R.remaining (reader_of self.new)) result buf.new }
    {
        match self.reader.read(buf) {
            Ok(n) => {
                self.history.add_moved(buf.len(), &buf[..n]);
                Ok(n)
            }
            Err(_) => {
                self.faults = self.faults.saturating_add(1);
                self.history.add_failed();
                Err(Failed)
            }
        }
    }

    fn reports_bytes(&self) {}
}

/// A sink that writes to a writer and counts the failed calls.
#[derive(Drop)]
pub struct StdSink<W> {
    writer: W,
    faults: u64,
    history: History,
}

impl<W> StdSink<W> {
    ghost use Rattle.base_io.specs.Adapters.{writer_of, write_faults_of, sink_state};

    /// Creates a sink without calls.
    pub fn new(writer: W) -> StdSink<W>
        ensures over { writer_of result ≡ writer }
        ensures faults { write_faults_of result ≡ 0 }
        ensures bytes { (sink_state result).bytes ≡ Some [] }
    {
        StdSink {
            writer,
            faults: 0,
            history: History::new(),
        }
    }

    /// Returns the number of failed calls.
    pub fn faults(&self) -> u64
        ensures { result ≡ write_faults_of self.now }
    {
        self.faults
    }
}

impl<W: Write> Sink for StdSink<W> {
    ghost use Rattle.base_io.specs.Adapters.{writer_of, write_faults_of, sink_state};

    ghost state = { sink_state };

    fn write(&mut self, chunk: &[u8]) -> Result<usize, Failed>
        ensures appends { AppendsPrefix (sink_state self.old) (sink_state self.new) result
            chunk.now }
        ensures counted { write_faults_of self.new
            ≡ count_after (write_faults_of self.old) (is_err result) }
        // If the contents of the writer are known, the writer appends the number of bytes that the
        // call returns.
        ensures bytes { WriteAppends (W.contents (writer_of self.old))
            (W.contents (writer_of self.new)) result chunk.now }
    {
        match self.writer.write(chunk) {
            Ok(n) if n > 0 || chunk.is_empty() => {
                self.history.add_moved(chunk.len(), &chunk[..n]);
                Ok(n)
            }
            // The writer returned an error or accepted no bytes.
            _ => {
                self.faults = self.faults.saturating_add(1);
                Err(Failed)
            }
        }
    }

    fn knows_bytes(&self) {}
}

/// Access to the files of the file system. The adapter counts the failed calls.
#[derive(Drop)]
pub struct DiskFiles<R: Files> {
    alloc: Global,
    rt: R,
    file: Option<R::File>,
    open_faults: u64,
    last: Option<String>,
    read_faults: u64,
    history: History,
}

impl<R: Files> Model for DiskFiles<R> {
    ghost use Rattle.std.specs.Prelude.{option_map, option_and_then, is_some, string_bytes};
    ghost use Rattle.base_io.specs.Disk.{DiskValue};

    ghost Value = { DiskValue };

    ghost view = { λ d. record {
      is_open = is_some d.file;
      left = option_and_then R.File.remaining d.file;
      open_faults = d.open_faults;
      last_open_fault = option_map string_bytes d.last;
      read_faults = d.read_faults;
      calls = d.history.calls;
    } };
}

impl<R: Files> DiskFiles<R> {
    /// Creates the file system access without calls.
    pub fn new(alloc: Global, rt: R) -> DiskFiles<R>
        ensures { result
            ≡ record {
              is_open = false;
              left = None;
              open_faults = 0;
              last_open_fault = None;
              read_faults = 0;
              calls = [];
            } }
    {
        DiskFiles {
            alloc,
            rt,
            file: None,
            open_faults: 0,
            last: None,
            read_faults: 0,
            history: History::new(),
        }
    }

    /// Returns the number of failed fetches.
    pub fn open_faults(&self) -> u64
        ensures { result ≡ self.now.open_faults }
    {
        self.open_faults
    }

    /// Returns the name of the last failed fetch.
    pub fn last_open_fault(&self) -> Option<&str>
        ensures { option_copied result ≡ self.now.last_open_fault }
    {
        match &self.last {
            Some(name) => Some(name.as_str()),
            None => None,
        }
    }

    /// Returns the number of failed takes.
    pub fn read_faults(&self) -> u64
        ensures { result ≡ self.now.read_faults }
    {
        self.read_faults
    }
}

impl<R: Files> Opener for DiskFiles<R> {
    ghost use Rattle.base_io.specs.Files.{has_failed};

    ghost state = { λ d. record { map = None; left = None; calls = d.calls } };

    fn take(&mut self, buf: &mut [u8]) -> Result<usize, Failed>
        ensures takes { TakesPrefix (inconclusive self.old.calls) (inconclusive self.new.calls)
            result buf.new }
        ensures counted { self.new ≡ record {
          is_open = self.old.is_open;
          left = self.new.left;
          open_faults = self.old.open_faults;
          last_open_fault = self.old.last_open_fault;
          read_faults = count_after self.old.read_faults (is_err result);
          calls = self.new.calls;
        } }

        // If the bytes of the open file are known, the call returns the file's bytes.
        ensures bytes { ReadConsumes self.old.left self.new.left result buf.new }
        // If no file is open, the call returns no bytes.
        ensures closed { self.old.is_open ≡ false → result ≡ Ok 0 }
    {
        let Some(file) = &mut self.file else {
            self.history.add_moved(buf.len(), &[]);
            return Ok(0);
        };
        match file.read(buf) {
            Ok(amount) => {
                self.history.add_moved(buf.len(), &buf[..amount]);
                Ok(amount)
            }
            Err(_) => {
                self.read_faults = self.read_faults.saturating_add(1);
                self.history.add_failed();
                Err(Failed)
            }
        }
    }

    fn fetch(&mut self, name: &str) -> Result<(), OpenError>
        ensures missing { IsErrOf result OpenError.Missing → ⊥ }
        ensures counted { self.new.open_faults
            ≡ count_after self.old.open_faults (has_failed result) }
        ensures named { OnTrue (has_failed result) (self.new.last_open_fault ≡ Some name.now) }
        ensures last { OnFalse (has_failed result)
            (self.new.last_open_fault ≡ self.old.last_open_fault) }
        ensures reads { self.new.read_faults ≡ self.old.read_faults }
        ensures opened { self.new.is_open ≡ is_ok result }
        ensures called { self.new.calls
            ≡ self.old.calls ++ fetched name.now (error_of result) ∷ [] }
    {
        self.file = None;
        let Ok(kept) = String::from_str(self.alloc, name) else {
            self.history.add_fetched(name, &Err(OpenError::Memory));
            return Err(OpenError::Memory);
        };
        match fs::open(&self.rt, name) {
            Ok(file) => {
                self.file = Some(file);
                self.history.add_fetched(name, &Ok(()));
                Ok(())
            }
            Err(_) => {
                self.open_faults = self.open_faults.saturating_add(1);
                self.last = Some(kept);
                self.history.add_fetched(name, &Err(OpenError::Failed));
                Err(OpenError::Failed)
            }
        }
    }
}
