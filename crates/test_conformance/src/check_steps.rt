//! Prints whether a value has a type, and the number of steps of the check. The root is one step.
//! Each object is one step for each class of types at which the object occurs. Each field of the
//! object at that class is one step, up to the first mismatch. If the value has the type, its text
//! is printed, too. The text comes with the number of pairs of objects and types that justify the
//! verdict.
//!
//! A question gives the bytes of a value in hexadecimal digits, a type and declarations. Lines of a
//! script may follow, each after a tab. Each line edits the value, also after a refused line, and
//! after each line the value is checked again.

ghost use Rattle.std.specs.Prelude.{◌<◌, length, IfOk};
ghost use Rattle.base_data.specs.model.Graph.{IsValue};
ghost use Rattle.types_spec.specs.types.Table.{table_shapes};
ghost use Rattle.types_spec.specs.types.Typing.{HasType};
ghost use Rattle.types_table.specs.type_table.Made.{table_of};
ghost use Rattle.check_heap.specs.check.Verdict.{IsVerdict};

use crate::result_text::value_text;
use crate::tables::accepted;
use base_data::lines::PositionStyle;
use base_data::model::path::Path;
use base_io::StdSink;
use check_fault::is_fault;
use check_heap::check::{Steps, Typing, Verdict, check};
use edit_values::{EditRefusal, apply, refusal_text};
use marshal_heap::heap::Rooted;
use marshal_read::{Reader, Value};
use std::alloc::Global;
use std::io;
use std::io::ErrorKind;
use text_path::{Action, read_script};
use text_print::print::show;
use types_build::builder::build;
use types_spec::types::fault::Fault;
use types_table::type_table::TypeTable;

/// The greatest number of 64-bit words that a value may have.
const LIMIT: u64 = 10_000;

// Returns the table of a type.
fn table_for(alloc: Global, question: &str) -> io::Result<TypeTable> {
    let Some((decls, ty)) = accepted(alloc, question) else {
        return Err(ErrorKind::InvalidInput.into());
    };
    match build(alloc, decls.as_slice(), &ty) {
        Ok(table) => Ok(table),
        Err(_) => Err(ErrorKind::OutOfMemory.into()),
    }
}

// Returns the value that bytes in hexadecimal digits encode.
fn value_of(alloc: Global, digits: &str) -> io::Result<Value>
    ensures { IfOk result (λ value. IsValue (length value.heap) value.root) }
{
    let Ok(bytes) = hex::decode(alloc, digits) else {
        return Err(ErrorKind::InvalidInput.into());
    };
    let mut reader = Reader::new(alloc, LIMIT);
    let Ok(fed) = reader.feed(bytes.as_slice()) else {
        return Err(ErrorKind::InvalidInput.into());
    };
    if !fed.done {
        return Err(ErrorKind::UnexpectedEof.into());
    }
    Ok(reader.finish())
}

fn write_path(rt: &HostRuntime, path: &Path) -> io::Result<()> {
    let Ok(text) = path.text(rt.alloc()) else {
        return Err(ErrorKind::OutOfMemory.into());
    };
    rt.stdout().write_all(text.as_slice())
}

fn write_fault(rt: &HostRuntime, fault: &Fault) -> io::Result<()> {
    print!(rt; "no ")?;
    match fault {
        Fault::Mismatch(path) => write_path(rt, path),
        Fault::Conflict(first, second) => {
            write_path(rt, first)?;
            print!(rt; " and ")?;
            write_path(rt, second)
        }
    }
}

// Returns the number of pairs of objects and types that justify that the value has its type.
fn pairs_of(value: &Rooted<'_>, table: &TypeTable, typing: &Typing) -> u64 {
    let mut pairs: u64 = 0;
    for k in 0..typing.len() {
        let (object, ty) = typing.get(k);
        if object < value.heap.count() && ty < table.count() {
            pairs = pairs.saturating_add(1);
        }
    }
    pairs
}

// Prints the text of a value that has its type.
fn write_shown(rt: &HostRuntime, value: &Rooted<'_>, table: &TypeTable) -> io::Result<()>
    requires typed { HasType (table_shapes (table_of table.now)) value.now.heap.now
        value.now.root 0 }
{
    let mut out = StdSink::new(rt.stdout());
    match show(rt.alloc(), value, table, &mut out) {
        Ok(()) => Ok(()),
        Err(_) => Err(ErrorKind::OutOfMemory.into()),
    }
}

// Prints that a value has its type, with its text and the number of pairs that justify it.
fn write_typed(
    rt: &HostRuntime,
    value: &Rooted<'_>,
    table: &TypeTable,
    typing: &Typing,
) -> io::Result<()>
    requires typed { HasType (table_shapes (table_of table.now)) value.now.heap.now
        value.now.root 0 }
{
    print!(rt; "yes, ")?;
    write_shown(rt, value, table)?;
    print!(rt; ", pairs: {}", pairs_of(value, table, typing))
}

fn write_known(
    rt: &HostRuntime,
    value: &Rooted<'_>,
    table: &TypeTable,
    verdict: &Verdict,
) -> io::Result<()>
    requires verdict { IsVerdict (table_of table.now) value.now.heap.now value.now.root
        verdict.now }
{
    match verdict {
        Verdict::Yes(typing) => write_typed(rt, value, table, typing),
        Verdict::No(fault) => write_fault(rt, fault),
    }
}

// Prints a line if `is_fault` rejects a fault that was reported, or accepts a mismatch at the root
// of a value that has the type.
fn write_doubt(
    rt: &HostRuntime,
    value: &Rooted<'_>,
    table: &TypeTable,
    verdict: &Verdict,
) -> io::Result<()> {
    let at_root = Fault::Mismatch(Path::new(rt.alloc()));
    let agrees = match verdict {
        Verdict::Yes(_) => !is_fault(value, table, &at_root),
        Verdict::No(fault) => is_fault(value, table, fault),
    };
    if agrees {
        return Ok(());
    }
    print!(rt; " (but not for is_fault)")
}

// Prints whether the value has the type, and the number of steps of the check.
fn write_verdict(rt: &HostRuntime, value: &Rooted<'_>, table: &TypeTable) -> io::Result<()> {
    let mut steps = Steps::new();
    let Ok(verdict) = check(rt.alloc(), value.heap, value.root, table, &mut steps) else {
        return Err(ErrorKind::OutOfMemory.into());
    };
    write_known(rt, value, table, &verdict)?;
    write_doubt(rt, value, table, &verdict)?;
    println!(rt; ", steps: {}", steps.taken())
}

fn write_refusal(rt: &HostRuntime, table: &TypeTable, refusal: &EditRefusal) -> io::Result<()> {
    let Ok(text) = refusal_text(rt.alloc(), table, &PositionStyle::Bytes, refusal) else {
        return Err(ErrorKind::OutOfMemory.into());
    };
    rt.stdout().write_all(text.as_slice())
}

// Edits the value by a line of a script, and prints the answer to the edit.
fn write_edit(rt: &HostRuntime, value: &mut Value, table: &TypeTable, line: &str) -> io::Result<()>
    requires value { IsValue (length value.old.heap) value.old.root }
    ensures { IsValue (length value.new.heap) value.new.root }
{
    let alloc = rt.alloc();
    let Ok(script) = read_script(alloc, line.as_bytes()) else {
        return Err(ErrorKind::InvalidInput.into());
    };
    let [line] = script.as_slice() else {
        return Err(ErrorKind::InvalidInput.into());
    };
    let Action::Edit(edit) = &line.action else {
        return Err(ErrorKind::InvalidInput.into());
    };
    match apply(alloc, &mut value.heap, &mut value.root, table, edit) {
        Ok(()) => print!(rt; "made"),
        Err(refusal) => write_refusal(rt, table, &refusal),
    }
}

// Edits the value by a line of a script. Prints the answer to the edit, the value after the edit,
// and the result of checking the value.
fn answer_edit(rt: &HostRuntime, value: &mut Value, table: &TypeTable, line: &str) -> io::Result<()>
    requires value { IsValue (length value.old.heap) value.old.root }
    ensures { IsValue (length value.new.heap) value.new.root }
{
    write_edit(rt, value, table, line)?;
    let text = value_text(rt.alloc(), value)?;
    println!(rt; ": {text}")?;
    let rooted = Rooted {
        heap: &value.heap,
        root: value.root,
    };
    write_verdict(rt, &rooted, table)
}

// Prints the results of editing the value by each line. The lines are separated by tabs.
fn answer_edits(
    rt: &HostRuntime,
    value: &mut Value,
    table: &TypeTable,
    lines: &str,
) -> io::Result<()>
    requires value { IsValue (length value.old.heap) value.old.root }
{
    for line in lines.split('\t') {
        answer_edit(rt, value, table, line)?;
    }
    Ok(())
}

// Prints the result of checking the value that the digits encode, and the results of editing the
// value by lines, if the question has lines.
fn answer_over(
    rt: &HostRuntime,
    digits: &str,
    table: &TypeTable,
    lines: Option<&str>,
) -> io::Result<()> {
    let mut value = value_of(rt.alloc(), digits)?;
    let rooted = Rooted {
        heap: &value.heap,
        root: value.root,
    };
    write_verdict(rt, &rooted, table)?;
    match lines {
        Some(lines) => answer_edits(rt, &mut value, table, lines),
        None => Ok(()),
    }
}

/// Prints the result of checking the value of a question `BYTES at TYPE over TEXT`, and the results
/// of editing the value by the lines after TEXT.
pub fn answer(rt: &HostRuntime, question: &str) -> io::Result<()> {
    let (first, lines) = match question.split_once('\t') {
        Some((first, lines)) => (first, Some(lines)),
        None => (question, None),
    };
    let Some((digits, typed)) = first.split_once(" at ") else {
        return Err(ErrorKind::InvalidInput.into());
    };
    let table = table_for(rt.alloc(), typed)?;
    answer_over(rt, digits, &table, lines)
}
