//! The error line and the status of an exit reason.

ghost use Rattle.std.specs.Prelude.{◌≡◌, ◌++◌, codes, decimal, IfOk, OnOk, string_bytes};
ghost use Rattle.cli_spec.specs.Outcome.{status_of, exit_text, exit_line, err_line};
ghost use Rattle.cli_spec.specs.Outcome.{value_text as text_of_value};
ghost use Rattle.cli_spec.specs.declared.exit.Exit.TheVariants.{Script as script_line};
ghost use Rattle.cli_spec.specs.declared.exit.Exit.TheVariants.{Short as short_input};
ghost use Rattle.cli_spec.specs.declared.exit.Exit.TheVariants.{Finished as finished};
ghost use Rattle.base_io.specs.StreamState.{change};
ghost use Rattle.cli_errors.specs.Exits.{Reports};

use crate::refusal_text::truncated_text;
use crate::report::report;
use base_data::model::Memory;
use base_data::text::write;
use base_io::{Failed, Sink};
use cli_spec::exit::Exit;
use cli_spec::status::Status;
use std::alloc::{AllocError, Global};

/// The reason why no more values are read: an exit reason of the run, or a failed write to standard
/// output.
#[derive(Drop)]
pub enum Error {
    Exit(Exit),
    WriteFault,
}

impl From<Memory> for Error {
    ghost use Rattle.cli_errors.specs.declared.exit_line.Error.TheVariants as aborts;
    ghost use Rattle.cli_spec.specs.declared.exit.Exit.TheVariants.{Memory as out_of_memory};

    ghost from_gives = { λ _ h. h ≡ aborts.Exit out_of_memory };

    fn from(_: Memory) -> Self {
        Error::Exit(Exit::Memory)
    }
}

impl From<Failed> for Error {
    ghost use Rattle.cli_errors.specs.declared.exit_line.Error.TheVariants as aborts;

    ghost from_gives = { λ _ h. h ≡ aborts.WriteFault };

    fn from(_: Failed) -> Self {
        Error::WriteFault
    }
}

// Returns the status of a run that ended with `Finished`.
fn finished_status(ok: bool) -> Status
    ensures { result ≡ status_of (finished ok) }
{
    if ok { Status::AllOk } else { Status::No }
}

fn status(exit: &Exit) -> Status
    ensures { result ≡ status_of exit.now }
{
    match exit {
        Exit::Usage | Exit::BadPath | Exit::NotTwoValues => Status::Usage,
        Exit::CannotOpen(_) => Status::OpenFault,
        Exit::Declarations(_) | Exit::RequestedType(_) => Status::Types,
        Exit::Value(..) | Exit::Short(_) => Status::Value,
        Exit::Finished(ok) => finished_status(*ok),
        Exit::Untyped(..) => Status::No,
        Exit::LargeValue(..) => Status::Compat,
        Exit::Certificate(_) | Exit::Uncertified(..) | Exit::SectionsLeft => Status::Certificate,
        Exit::Script(..) | Exit::Text(..) => Status::Script,
        Exit::ReadFault => Status::ReadFault,
        Exit::TooLong => Status::TooLong,
        Exit::Memory => Status::Memory,
    }
}

// Appends a prefix and a text.
fn write_after(line: &mut Vec<u8>, prefix: &[u8], text: &[u8]) -> Result<(), Memory>
    ensures { OnOk result (line.new.items ≡ line.old.items ++ (prefix.now ++ text.now)) }
{
    write(line, prefix)?;
    write(line, text)
}

// Appends the text for an input that ends within the bytes to skip.
fn write_short(line: &mut Vec<u8>, alloc: Global, taken: u64) -> Result<(), Memory>
    ensures { OnOk result (line.new.items ≡ line.old.items ++ exit_text (short_input taken)) }
{
    let split = truncated_text(alloc, taken)?;
    write(line, b"skip: ")?;
    write(line, split.as_bytes())
}

// Appends the text of a fault, after a word and the number of the value or line with the fault.
fn write_numbered(
    line: &mut Vec<u8>,
    alloc: Global,
    word: &[u8],
    number: u64,
    fault: &[u8],
) -> Result<(), Memory>
    ensures { OnOk result
        (line.new.items
        ≡ line.old.items ++ (word.now ++ (decimal number ++ (codes ": " ++ fault.now)))) }
{
    let number = format!(in alloc; "{number}: ")?;
    write(line, word)?;
    write(line, number.as_bytes())?;
    write(line, fault)
}

// Appends the text of a value's fault.
fn write_value(line: &mut Vec<u8>, alloc: Global, number: u64, text: &[u8]) -> Result<(), Memory>
    ensures { OnOk result (line.new.items ≡ line.old.items ++ text_of_value number text.now) }
{
    write_numbered(line, alloc, b"value ", number, text)
}

// Returns the text before the fault of a script line, with the line's number.
fn line_prefix(alloc: Global, number: usize) -> Result<String, AllocError>
    ensures { IfOk result
        (λ text. string_bytes text ≡ codes "script line " ++ decimal number ++ codes ": ") }
{
    format!(in alloc; "script line {number}: ")
}

// Appends the text of the fault of a script line.
fn write_script(line: &mut Vec<u8>, alloc: Global, number: usize, text: &[u8]) -> Result<(), Memory>
    ensures { OnOk result
        (line.new.items ≡ line.old.items ++ exit_text (script_line number text.now)) }
{
    let prefix = line_prefix(alloc, number)?;
    write(line, prefix.as_bytes())?;
    write(line, text)
}

// Appends the text of an exit reason.
fn write_text(line: &mut Vec<u8>, alloc: Global, exit: &Exit) -> Result<(), Memory>
    ensures { OnOk result (line.new.items ≡ line.old.items ++ exit_text exit.now) }
{
    match exit {
        Exit::Usage => write(line, b"usage"),
        Exit::BadPath => write(line, b"bad path"),
        Exit::NotTwoValues => write(line, b"not two values"),
        Exit::CannotOpen(name) => write_after(line, b"cannot open ", name.as_slice()),
        Exit::Declarations(refusal) => write_after(line, b"types: ", refusal.as_slice()),
        Exit::RequestedType(refusal) => write_after(line, b"type: ", refusal.as_slice()),
        Exit::Value(number, text) => write_value(line, alloc, *number, text.as_slice()),
        Exit::Untyped(number, text) => write_value(line, alloc, *number, text.as_slice()),
        Exit::LargeValue(number, text) => write_value(line, alloc, *number, text.as_slice()),
        Exit::Certificate(number) => write_numbered(
            line,
            alloc,
            b"certificate line ",
            *number as u64,
            b"Syntax",
        ),
        Exit::Uncertified(number, reason) => write_value(line, alloc, *number, reason.as_slice()),
        Exit::SectionsLeft => write(line, b"sections left"),
        Exit::Short(taken) => write_short(line, alloc, *taken),
        Exit::Finished(_) => Ok(()),
        Exit::Script(number, text) => write_script(line, alloc, *number, text.as_slice()),
        Exit::Text(number, text) => write_numbered(
            line,
            alloc,
            b"text line ",
            *number,
            text.as_slice(),
        ),
        Exit::ReadFault => write(line, b"read fault"),
        Exit::TooLong => write(line, b"input too long"),
        Exit::Memory => write(line, b"out of memory"),
    }
}

// Returns the text of an exit reason as a line.
fn text_line_of(alloc: Global, exit: &Exit) -> Result<Vec<u8>, Memory>
    ensures { IfOk result (λ line. line.items ≡ err_line (exit_text exit.now)) }
{
    let mut line = Vec::new(alloc);
    write(&mut line, b"omarshal: ")?;
    write_text(&mut line, alloc, exit)?;
    write(&mut line, b"\n")?;
    Ok(line)
}

// Returns the error line of an exit reason. `Finished` has none.
fn line(alloc: Global, exit: &Exit) -> Result<Vec<u8>, Memory>
    ensures { IfOk result (λ line. line.items ≡ exit_line exit.now) }
{
    match exit {
        Exit::Finished(_) => Ok(Vec::new(alloc)),
        _ => text_line_of(alloc, exit),
    }
}

/// Writes the error line of an exit reason to standard error, if the exit reason has a line.
/// Returns the status of the exit reason. If memory runs out for the line, writes the line `out of
/// memory` and returns the status for exhausted memory. If a write fails, returns `WriteFault`.
pub fn report_exit<E: Sink>(alloc: Global, err: &mut E, exit: &Exit) -> Status
    ensures { Reports exit.now (change (E.state err.old) (E.state err.new)) result }
{
    match line(alloc, exit) {
        Ok(line) => report(err, line.as_slice(), status(exit)),
        Err(_) => report(err, b"omarshal: out of memory\n", Status::Memory),
    }
}
