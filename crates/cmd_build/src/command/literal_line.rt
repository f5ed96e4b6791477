//! Writes a line of the input as the value that the line denotes at the type.

ghost use Rattle.std.specs.Prelude.{ℕ, ◌+◌, ◌^◌, ◌<◌, List, Ok};
ghost use Rattle.base_io.specs.StreamState.{change};
ghost use Rattle.text_decimal.specs.texts.PlainTexts.{decimals_in, plain_text, AreWithin};
ghost use Rattle.run_types.specs.Language.{TypeOver};
ghost use Rattle.run_types.specs.RequestedTexts.{type_over};
ghost use Rattle.cmd_build.specs.command.Guessed.{IsRight};
ghost use Rattle.cmd_build.specs.command.InputLines.{IsText, plain_texts, known_on};
ghost use Rattle.cmd_build.specs.command.LineSteps.{ReadsLine, WritesValue, WritesBy, WritesLine};

use crate::command::checked_guess::guess_line;
use crate::command::line_fault::line_fault_text;
use base_data::model::value::Val;
use base_io::Sink;
use cli_errors::exit_line::Error;
use cli_spec::exit::Exit;
use marshal_heap::heap::{Heap, Rooted};
use run_types::{Requested, check_type, write_plain};
use std::alloc::Global;
use text_decimal::texts::{Decimal, write_plain_text};
use text_literal::table_agreement::tables_read_agree;
use text_roundtrip::text_lines::{TextFault, read_text};

/// Parses the plain text of a line, given the line's number and decimals. Returns `None` if the
/// text is blank. An error ends the run.
fn read_line(
    alloc: Global,
    heap: &mut Heap,
    requested: &Requested,
    text: &[u8],
    decimals: &[Decimal],
    number: u64,
) -> Result<Option<Val>, Error>
    requires within { AreWithin 0 decimals.now (2 ^ 63) }
    ensures { ReadsLine (type_over requested.now) (known_on requested.now.lines decimals.now)
        text.now number heap.new result }
{
    tables_read_agree();
    requested.holds();
    let table = requested.table();
    match read_text(alloc, heap, table, text) {
        Ok(value) => Ok(value),
        Err(TextFault::Memory) => Err(Error::Exit(Exit::Memory)),
        Err(fault) => {
            let known = line_fault_text(alloc, table, requested.lines(), decimals, number, fault)?;
            Err(Error::Exit(Exit::Text(number, known)))
        }
    }
}

/// Writes the bytes of a value that has the type. If the value lacks the type, ends the run with
/// the error for the text with the given number.
fn write_value<K: Sink>(
    alloc: Global,
    value: &Rooted<'_>,
    number: u64,
    requested: &Requested,
    out: &mut K,
) -> Result<(), Error>
    ensures { (text : List ℕ) (known : ℕ → ℕ → List ℕ) (position : ℕ)
        → IsText (type_over requested.now) text (Ok (value.now.heap.now, value.now.root))
        → WritesValue (plain_texts (type_over requested.now) known text) position number
        (change (K.state out.old) (K.state out.new)) result }
{
    check_type(alloc, value, number, requested)?;
    write_plain(alloc, value, number, out)
}

/// Parses the text of a line with the given number, and writes its value, after `texts` earlier
/// texts. Returns the new number of texts.
fn write_read<K: Sink>(
    alloc: Global,
    heap: &mut Heap,
    requested: &Requested,
    text: &[u8],
    decimals: &[Decimal],
    number: u64,
    texts: u64,
    out: &mut K,
) -> Result<u64, Error>
    requires within { AreWithin 0 decimals.now (2 ^ 63) }
    requires few { texts + 1 < 2 ^ 64 }
    ensures { WritesBy (plain_texts (type_over requested.now)
        (known_on requested.now.lines decimals.now) text.now) number texts
        (change (K.state out.old) (K.state out.new)) result }
{
    match read_line(alloc, heap, requested, text, decimals, number)? {
        None => Ok(texts),
        Some(root) => {
            write_value(alloc, &Rooted { heap, root }, texts, requested, out)?;
            Ok(texts + 1)
        }
    }
}

/// Writes the bytes of a value that a text denotes. Returns the new number of texts.
fn write_right<K: Sink>(
    alloc: Global,
    value: &Rooted<'_>,
    texts: u64,
    out: &mut K,
) -> Result<u64, Error>
    requires few { texts + 1 < 2 ^ 64 }
    ensures { (t : TypeOver) (known : ℕ → ℕ → List ℕ) (text : List ℕ) (number : ℕ)
        → IsRight t text value.now.heap.now value.now.root
        → WritesBy (plain_texts t known text) number texts
        (change (K.state out.old) (K.state out.new)) result }
{
    write_plain(alloc, value, texts, out)?;
    Ok(texts + 1)
}

/// Writes the plain text of a line, given the line's number and decimals. Returns the new number of
/// texts.
fn write_text<K: Sink>(
    alloc: Global,
    heap: &mut Heap,
    requested: &Requested,
    text: &[u8],
    decimals: &[Decimal],
    number: u64,
    texts: u64,
    out: &mut K,
) -> Result<u64, Error>
    requires within { AreWithin 0 decimals.now (2 ^ 63) }
    requires few { texts + 1 < 2 ^ 64 }
    ensures { WritesBy (plain_texts (type_over requested.now)
        (known_on requested.now.lines decimals.now) text.now) number texts
        (change (K.state out.old) (K.state out.new)) result }
{
    match guess_line(alloc, heap, requested, text)? {
        Some(root) => write_right(alloc, &Rooted { heap, root }, texts, out),
        None => write_read(alloc, heap, requested, text, decimals, number, texts, out),
    }
}

/// Writes a line in which decimals may denote doubles, given the line's number. The line's plain
/// text reuses the memory of the previous plain text.
fn write_given<K: Sink>(
    alloc: Global,
    heap: &mut Heap,
    plain: &mut Vec<u8>,
    requested: &Requested,
    line: &[u8],
    number: u64,
    texts: u64,
    out: &mut K,
) -> Result<u64, Error>
    requires few { texts + 1 < 2 ^ 64 }
    ensures { WritesBy (plain_texts (type_over requested.now)
        (known_on requested.now.lines (decimals_in line.now)) (plain_text line.now)) number texts
        (change (K.state out.old) (K.state out.new)) result }
{
    plain.clear();
    let decimals = write_plain_text(alloc, plain, line)?;
    write_text(
        alloc,
        heap,
        requested,
        plain.as_slice(),
        decimals.as_slice(),
        number,
        texts,
        out,
    )
}

/// Writes a line, given the line's number, after `texts` earlier texts. Returns the new number of
/// texts. An error ends the run.
pub fn write_line<K: Sink>(
    alloc: Global,
    heap: &mut Heap,
    plain: &mut Vec<u8>,
    requested: &Requested,
    line: &[u8],
    number: u64,
    texts: u64,
    out: &mut K,
) -> Result<u64, Error>
    requires few { texts + 1 < 2 ^ 64 }
    ensures { WritesLine (type_over requested.now) line.now number texts
        (change (K.state out.old) (K.state out.new)) result }
{
    if requested.decimal() {
        write_given(alloc, heap, plain, requested, line, number, texts, out)
    } else {
        write_text(alloc, heap, requested, line, &[], number, texts, out)
    }
}
