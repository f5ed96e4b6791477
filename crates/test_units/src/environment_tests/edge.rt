//! Tests of the adapters over files, and over a failing reader and writer. Runs over the fakes in
//! memory are in `test_conformance`.

use base_data::model::Memory;
use base_io::{
    DiskFiles, Failed, MemFiles, OpenError, Opener, Sink, Source, StdSink, StdSource, WriteError,
    write_all,
};
use std::alloc::Global;
use std::fs::File;
use std::io::{Error, ErrorKind, Read, Write};
use std::test::Fail;
use std::{fs, io};

// Returns the bytes after the first `n`, if the first `n` bytes are a prefix of the buffer.
fn without_prefix<'a>(bytes: &'a [u8], buf: &[u8], n: usize) -> Option<&'a [u8]> {
    if n > buf.len() {
        return None;
    }
    bytes.strip_prefix(&buf[..n])
}

// Returns true if reads with a buffer of two bytes return these results and these bytes.
fn gives<S: Source>(source: &mut S, answers: &[Result<usize, Failed>], bytes: &[u8]) -> bool {
    let mut rest = bytes;
    for answer in answers {
        let mut buf = [0; 2];
        let taken = source.take(&mut buf);
        match without_prefix(rest, &buf, taken.unwrap_or(0)) {
            Some(behind) if taken == *answer => rest = behind,
            _ => return false,
        }
    }
    rest.is_empty()
}

// Returns true if reads of the file that was opened last return these results and these bytes.
fn gives_file<O: Opener>(files: &mut O, answers: &[Result<usize, Failed>], bytes: &[u8]) -> bool {
    let mut rest = bytes;
    for answer in answers {
        let mut buf = [0; 2];
        let taken = files.take(&mut buf);
        match without_prefix(rest, &buf, taken.unwrap_or(0)) {
            Some(behind) if taken == *answer => rest = behind,
            _ => return false,
        }
    }
    rest.is_empty()
}

// Returns true if writes of three bytes return these results.
fn accepts<K: Sink>(sink: &mut K, answers: &[Result<usize, Failed>]) -> bool {
    for answer in answers {
        if sink.write(b"abc") != *answer {
            return false;
        }
    }
    true
}

// Returns true if a source over a reader returns these results, and this number of its calls fail.
fn source_gives<R: Read + Drop>(
    reader: R,
    answers: &[Result<usize, Failed>],
    bytes: &[u8],
    faults: u64,
) -> bool {
    let mut source = StdSource::new(reader);
    gives(&mut source, answers, bytes) && source.faults() == faults
}

// Returns true if a sink over a writer returns these results, and this number of its calls fail.
fn sink_accepts<W: Write + Drop>(
    writer: W,
    answers: &[Result<usize, Failed>],
    faults: u64,
) -> bool {
    let mut sink = StdSink::new(writer);
    accepts(&mut sink, answers) && sink.faults() == faults
}

// The bytes that were written are in the file. A file that is open only for reading cannot be
// written. A file that is open only for writing cannot be read.
#[test]
fn a_file_is_a_sink_and_a_source(rt: HostRuntime) -> Result<(), Fail> {
    assert!(rt; sink_accepts(File::create(&rt, "put.bytes")?, &[Ok(3), Ok(3), Ok(3)], 0));
    let answers = [Ok(2), Ok(2), Ok(2), Ok(2), Ok(1), Ok(0)];
    assert!(rt; source_gives(File::open(&rt, "put.bytes")?, &answers, b"abcabcabc", 0));
    let failures = [Err(Failed), Err(Failed)];
    assert!(rt; sink_accepts(File::open(&rt, "put.bytes")?, &failures, 2));
    assert!(rt; source_gives(File::create(&rt, "put.bytes")?, &failures, b"", 2));
    fs::remove_file(&rt, "put.bytes")?;
    Ok(())
}

#[test]
fn a_writer_that_takes_nothing_is_a_fault(rt: HostRuntime) {
    let mut room = [0; 7];
    let mut sink = StdSink::new(room.as_mut_slice());
    assert!(rt; write_all(&mut sink, b"abc").is_ok());
    assert!(rt; accepts(&mut sink, &[Ok(3), Ok(1), Err(Failed)]));
    assert!(rt; sink.write(b"") == Ok(0) && sink.faults() == 1);
}

// Returns the outcome of opening a file. If memory ran out, fails with `Memory`.
fn fetched(outcome: Result<(), OpenError>) -> Result<Result<(), OpenError>, Memory> {
    match outcome {
        Err(OpenError::Memory) => Err(Memory),
        _ => Ok(outcome),
    }
}

/// A file name, the outcome of opening the file, the results of the reads after opening, and the
/// bytes that the reads return.
type FileAccess = (
    &'static str,
    Result<(), OpenError>,
    &'static [Result<usize, Failed>],
    &'static [u8],
);

// Files on disk. The folder `.` can be opened, but not read.
static ON_DISK: [FileAccess; 4] = [
    ("a.bytes", Ok(()), &[Ok(2)], b"ab"),
    ("b.bytes", Err(OpenError::Failed), &[Ok(0)], b""),
    (".", Ok(()), &[Err(Failed)], b""),
    ("a.bytes", Ok(()), &[Ok(2), Ok(1)], b"abc"),
];

// Returns true if all files are opened and read with these results.
fn fetches<O: Opener>(files: &mut O, all: &[FileAccess]) -> Result<bool, Memory> {
    for (name, opened, answers, bytes) in all {
        if fetched(files.fetch(name))? != *opened || !gives_file(files, answers, bytes) {
            return Ok(false);
        }
    }
    Ok(true)
}

#[test]
fn files_on_the_disk_are_fetched_and_taken(rt: HostRuntime) -> Result<(), Fail> {
    fs::write(&rt, "a.bytes", b"abc")?;
    let (are_fetched, are_known) = {
        let mut files = DiskFiles::new(rt.alloc(), &rt);
        let are_fetched = fetches(&mut files, &ON_DISK);
        let is_last = files.last_open_fault() == Some("b.bytes");
        (
            are_fetched,
            is_last && files.open_faults() == 1 && files.read_faults() == 1,
        )
    };
    assert!(rt; are_fetched? && are_known);
    fs::remove_file(&rt, "a.bytes")?;
    Ok(())
}

// Files in memory. Opening the second file fails, and the third read fails. The expected results
// were worked out by hand.
static IN_MEMORY: [FileAccess; 4] = [
    ("a.bytes", Ok(()), &[Ok(2), Ok(1), Err(Failed)], b"abc"),
    ("b.bytes", Err(OpenError::Failed), &[Ok(0)], b""),
    ("c.bytes", Err(OpenError::Missing), &[Ok(0)], b""),
    ("a.bytes", Ok(()), &[Ok(2), Ok(1)], b"abc"),
];

// Returns true if files in memory give these results, and report the file that failed to open.
fn memory_fetches(alloc: Global) -> Result<bool, Memory> {
    let name = String::from_str(alloc, "a.bytes")?;
    let mut pairs = Vec::new(alloc);
    pairs.push((name, Vec::from_slice(alloc, b"abc")?))?;
    if !MemFiles::have_no_name_twice(pairs.as_slice()) {
        return Ok(false);
    }
    let mut failing = Vec::new(alloc);
    failing.push(1)?;
    let mut reads = Vec::new(alloc);
    reads.push(2)?;
    let mut files = MemFiles::new(alloc, pairs, failing, reads);
    let is_none = files.last_open_fault() == None;
    let are_fetched = fetches(&mut files, &IN_MEMORY)?;
    Ok(is_none && are_fetched && files.last_open_fault() == Some("b.bytes"))
}

#[test]
fn files_in_memory_are_fetched_and_taken(rt: HostRuntime) -> Result<(), Fail> {
    assert!(rt; memory_fetches(rt.alloc())?);
    Ok(())
}

#[test]
fn errors_convert_and_print(rt: HostRuntime) -> Result<(), Fail> {
    let (missing, failed) = (OpenError::Missing, OpenError::Failed);
    let memory = OpenError::from(Memory);
    let (fault, full) = (WriteError::from(Failed), WriteError::from(Memory));
    let text = format!(in rt.alloc(); "{missing}, {failed}, {memory}, {fault}, {full}")?;
    let wanted = "there is no such file, the file cannot be opened, out of memory, write fault, \
                  out of memory";
    assert!(rt; text.as_str() == wanted);
    Ok(())
}

// A reader and a writer. The first call fails, and each later call reads or writes one byte.
#[derive(Drop)]
struct FailsOnce {
    is_first: bool,
}

impl FailsOnce {
    fn fail_first(&mut self) -> io::Result<()> {
        if self.is_first {
            self.is_first = false;
            return Err(Error::from(ErrorKind::Unsupported));
        }
        Ok(())
    }
}

impl Read for FailsOnce {
    fn read(&mut self, buf: &mut [u8]) -> io::Result<usize> {
        self.fail_first()?;
        if buf.is_empty() {
            return Ok(0);
        }
        buf[0] = b'x';
        Ok(1)
    }
}

impl Write for FailsOnce {
    fn write(&mut self, buf: &[u8]) -> io::Result<usize> {
        self.fail_first()?;
        Ok(buf.len().min(1))
    }

    fn flush(&mut self) -> io::Result<()> {
        Ok(())
    }
}

#[test]
fn the_call_fails_at_which_the_reader_or_the_writer_does(rt: HostRuntime) {
    let answers = [Err(Failed), Ok(1), Ok(1)];
    assert!(rt; source_gives(FailsOnce { is_first: true }, &answers, b"xx", 1));
    assert!(rt; sink_accepts(FailsOnce { is_first: true }, &answers, 1));
}
