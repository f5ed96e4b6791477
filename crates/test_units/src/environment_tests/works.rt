//! Tests of small commands that run over an input and sinks in memory, and of an exit reason that
//! no stored run has.

ghost use Rattle.std.specs.Prelude.{◌<◌, length};

use base_data::model::Memory;
use base_io::{MemSink, MemSource};
use cli_errors::exit_constructors::refused_type;
use cli_errors::exit_line::report_exit;
use cli_spec::status::Status;
use run_loop::examples::{Reporting, run_bytes, run_lines, run_reporting};
use run_loop::work::Work;
use std::alloc::{AllocError, Global};
use std::test::Fail;

/// A small command. The command repeats lines, takes bytes up to a refused byte, or prints a text
/// without input.
#[derive(Clone, Copy)]
enum Small {
    Lines,
    Bytes(u8),
    Reporting(&'static [u8]),
}

// Returns an input that returns two bytes at a time.
fn input_of(alloc: Global, text: &[u8]) -> Result<MemSource, AllocError> {
    let bytes = Vec::from_slice(alloc, text)?;
    Ok(MemSource::new(bytes, 2, Vec::new(alloc)))
}

// Returns the code of a status, and fails with `Memory` if memory ran out.
fn code(status: Status) -> Result<u8, Memory> {
    match status {
        Status::Memory => Err(Memory),
        other => Ok(other.code()),
    }
}

// Runs a command over an input, and returns the code of the run's status.
fn run_small(
    alloc: Global,
    small: Small,
    text: &[u8],
    out: &mut MemSink,
    err: &mut MemSink,
) -> Result<u8, Memory> {
    let mut input = input_of(alloc, text)?;
    match small {
        Small::Lines => code(run_lines(alloc, &mut input, out, err)),
        Small::Bytes(refused) => code(run_bytes(alloc, refused, &mut input, out, err)),
        Small::Reporting(known) => code(run_reporting(alloc, known, &mut input, out, err)),
    }
}

// Returns the code of the run's status, if the outputs of the run are these texts.
fn code_of(
    alloc: Global,
    small: Small,
    text: &[u8],
    output: &[u8],
    line: &[u8],
) -> Result<Option<u8>, Memory> {
    let mut out = MemSink::new(alloc, 100, Vec::new(alloc))?;
    let mut err = MemSink::new(alloc, 100, Vec::new(alloc))?;
    let code = run_small(alloc, small, text, &mut out, &mut err)?;
    if out.written() == output && err.written() == line {
        Ok(Some(code))
    } else {
        Ok(None)
    }
}

// A command, its input, its output on out and on err, and the code of its status. The expected
// results were worked out by hand. Cases: the last line has no line feed, the third byte is
// refused, no byte is refused, and nothing is taken of the input.
static RUNS: [(Small, &[u8], &[u8], &[u8], u8); 4] = [
    (Small::Lines, b"one\n\ntwo", b"one\n\ntwo\n", b"", 0),
    (
        Small::Bytes(b'c'),
        b"abca",
        b"ab",
        b"omarshal: value 2: Compressed\n",
        4,
    ),
    (Small::Bytes(b'x'), b"abca", b"abca", b"", 0),
    (Small::Reporting(b"told"), b"abca", b"told", b"", 0),
];

// Returns true if a command that reads nothing takes none of the buffered bytes and prints nothing.
fn feeds_nothing(alloc: Global, buffered: &[u8]) -> Result<bool, Memory>
    requires { 0 < length buffered.now }
{
    let mut out = MemSink::new(alloc, 100, Vec::new(alloc))?;
    let fed = Reporting { text: b"told" }.feed(alloc, buffered, &mut out);
    Ok(matches!(fed, Ok(0)) && out.written().is_empty())
}

// Runs `report_exit` for a type that reaches too many types. Returns the status, and writes the
// error line to err.
fn reported(alloc: Global, err: &mut MemSink) -> Status {
    let exit = refused_type(alloc, b"TooManyTypes");
    report_exit(alloc, err, &exit)
}

// Returns the code of the status for a type that reaches too many types, if err has the error line.
// No stored run has a type with too many types, because the table of the type takes long to build.
fn refused_code(alloc: Global) -> Result<Option<u8>, Memory> {
    let mut err = MemSink::new(alloc, 100, Vec::new(alloc))?;
    let code = code(reported(alloc, &mut err))?;
    if err.written() == b"omarshal: type: TooManyTypes\n".as_slice() {
        Ok(Some(code))
    } else {
        Ok(None)
    }
}

// The expected code is that of the table of statuses.
#[test]
fn a_refused_type_is_known(rt: HostRuntime) -> Result<(), Fail> {
    assert!(rt; refused_code(rt.alloc())? == Some(3));
    Ok(())
}

#[test]
fn small_commands_run(rt: HostRuntime) -> Result<(), Fail> {
    for (small, text, output, line, code) in &RUNS {
        assert!(rt; code_of(rt.alloc(), *small, text, output, line)? == Some(*code));
    }
    assert!(rt; feeds_nothing(rt.alloc(), b"abc")?);
    Ok(())
}
