//! The output for a value, as text.

ghost use Rattle.std.specs.Prelude.{◌≡◌, ◌<◌, ◌++◌, length, IfOk, OnOk, MatchBool};
ghost use Rattle.types_spec.specs.types.Typing.{HasType};
ghost use Rattle.types_spec.specs.types.Table.{table_shapes};
ghost use Rattle.types_table.specs.type_table.Made.{table_of};
ghost use Rattle.text_print.specs.show.ShownValues.{shown_text};
ghost use Rattle.text_print.specs.show.TableShapes.{shape_in, names_in};
ghost use Rattle.run_types.specs.Language.{styled};
ghost use Rattle.run_types.specs.RequestedTexts.{type_over};
ghost use Rattle.session.specs.ValueOutput.{IsOutputOf, WritesLine, query_of, with_decimals};
ghost use Rattle.session.specs.declared.value_output.Printing.TheVariants as printings;
ghost use Rattle.check_heap.specs.declared.check.verdict.Verdict.TheVariants.{No};
ghost use Rattle.cli_spec.specs.Outcome.{the_part, the_trees};
ghost use Rattle.run_types.specs.TypeVerdict.{IsVerdictOf, WritesNo};
ghost use Rattle.trees.specs.value_verdict.TreeVerdictText.{is_sound as is_sound_verdict};

use base_data::model::Memory;
use base_data::model::path::Path;
use base_data::text::write;
use check_fault::walk;
use check_heap::check::{Verdict, surely_has};
use cli_spec::style::Style;
use marshal_heap::heap::Rooted;
use run_types::{Requested, find_fault, find_verdict, write_near_no, write_no};
use std::alloc::Global;
use text_decimal::texts::write_decimal_text;
use text_pretty::write_pretty;
use text_print::print::{write_dump, write_shown_at};
use text_print::show::laws::roots_show_agree;
use trees::search_trees::TreeVerdict;
use trees::value_verdict::{tables_have_the_verdict, tables_judge_trees, trees, write_verdict};
use types_table::type_table::TypeTable;
use types_theory::table::tables_decide;

/// The report on a value that has its type: the verdict `yes`, the value's text, the text of the
/// part at a path, or the verdict on the value's sets and maps.
#[derive(Clone, Copy)]
pub enum Query<'a> {
    Verdict,
    Text(Style),
    Part(&'a Path, Style),
    Trees,
}

/// The kind of output for a value: a report at a type, or the untyped dump.
#[derive(Clone, Copy)]
pub enum Printing<'a> {
    Report(&'a Requested, Query<'a>),
    Dump,
}

/// Replaces `line` by the output for a value, with line feeds. Returns true if the value is ok.
pub fn line_of(
    line: &mut Vec<u8>,
    alloc: Global,
    value: &Rooted<'_>,
    printing: Printing<'_>,
    mismatched: bool,
) -> Result<bool, Memory>
    ensures { IfOk result
        (IsOutputOf printing.entry value.now.heap.now value.now.root line.new.items) }
{
    match printing {
        Printing::Report(requested, query) => {
            known_line(line, alloc, value, requested, query, mismatched)
        }
        Printing::Dump => dumped_lines(line, value),
    }
}

/// Replaces `line` by the untyped dump of a value.
fn dumped_lines(line: &mut Vec<u8>, value: &Rooted<'_>) -> Result<bool, Memory>
    ensures { IfOk result
        (IsOutputOf printings.Dump value.now.heap.now value.now.root line.new.items) }
{
    line.clear();
    write_dump(line, value)?;
    Ok(true)
}

/// Checks a value against a type, and replaces `line` by the report.
fn known_line(
    line: &mut Vec<u8>,
    alloc: Global,
    value: &Rooted<'_>,
    requested: &Requested,
    query: Query<'_>,
    mismatched: bool,
) -> Result<bool, Memory>
    ensures { IfOk result
        (IsOutputOf (printings.Report requested.entry query.entry) value.now.heap.now value.now.root
        line.new.items) }
{
    line.clear();
    let ok = write_checked(line, alloc, value, requested, query, mismatched)?;
    write(line, b"\n")?;
    Ok(ok)
}

/// Checks a value against a type, and appends the report. Returns true if the value is ok. A few
/// tests suffice for most small values that have the type.
fn write_checked(
    text: &mut Vec<u8>,
    alloc: Global,
    value: &Rooted<'_>,
    requested: &Requested,
    query: Query<'_>,
    mismatched: bool,
) -> Result<bool, Memory>
    ensures { IfOk result
        (WritesLine (query_of query.entry) (type_over requested.now) value.now.heap.now
        value.now.root text.old.items text.new.items) }
{
    let known = write_soon(text, alloc, value, requested, query)?;
    if known {
        return Ok(false);
    }
    if surely_has(value.heap, value.root, requested.table()) {
        return write_known(text, alloc, value, requested, query);
    }
    let verdict = verdict_on(alloc, value, requested, mismatched)?;
    write_line(text, alloc, value, requested, query, &verdict)
}

/// Checks a value against a type. If `mismatched` is true, expects a type mismatch, which only
/// saves time.
fn verdict_on(
    alloc: Global,
    value: &Rooted<'_>,
    requested: &Requested,
    mismatched: bool,
) -> Result<Verdict, Memory>
    ensures { IfOk result (IsVerdictOf requested.now value.now.heap.now value.now.root) }
{
    if mismatched {
        find_fault(alloc, value, requested)
    } else {
        find_verdict(alloc, value, requested)
    }
}

/// Fast path for faults near the root. If only the verdict is requested, and a small value has its
/// first fault near the root, appends `no` and the fault and returns true. In every other case,
/// leaves `text` unchanged and returns false. A value for which the streaming check was
/// inconclusive probably has a fault.
fn write_soon(
    text: &mut Vec<u8>,
    alloc: Global,
    value: &Rooted<'_>,
    requested: &Requested,
    query: Query<'_>,
) -> Result<bool, Memory>
    ensures { IfOk result
        (λ known. MatchBool known
        (WritesNo (type_over requested.now) value.now.heap.now value.now.root text.old.items
        text.new.items)
        (text.new.items ≡ text.old.items)) }
{
    match query {
        Query::Verdict => write_near_no(text, alloc, value, requested),
        _ => Ok(false),
    }
}

/// Appends the report on a value with a given verdict. If the value lacks the type, the report is
/// `no` and the fault. Returns true if the value is ok.
fn write_line(
    text: &mut Vec<u8>,
    alloc: Global,
    value: &Rooted<'_>,
    requested: &Requested,
    query: Query<'_>,
    verdict: &Verdict,
) -> Result<bool, Memory>
    requires verdict { IsVerdictOf requested.now value.now.heap.now value.now.root verdict.now }
    ensures { IfOk result
        (WritesLine (query_of query.entry) (type_over requested.now) value.now.heap.now
        value.now.root text.old.items text.new.items) }
{
    match verdict {
        Verdict::Yes(_) => write_known(text, alloc, value, requested, query),
        Verdict::No(fault) => {
            write_no(text, alloc, value, requested, fault)?;
            Ok(false)
        }
    }
}

/// Appends the report on a value that has the type. Returns true if the value is ok.
fn write_known(
    text: &mut Vec<u8>,
    alloc: Global,
    value: &Rooted<'_>,
    requested: &Requested,
    query: Query<'_>,
) -> Result<bool, Memory>
    requires typed { HasType (table_shapes (table_of requested.now.table)) value.now.heap.now
        value.now.root 0 }
    ensures { IfOk result
        (WritesLine (query_of query.entry) (type_over requested.now) value.now.heap.now
        value.now.root text.old.items text.new.items) }
{
    requested.holds();
    tables_decide();
    roots_show_agree();
    match query {
        Query::Verdict => {
            write(text, b"yes")?;
            Ok(true)
        }
        Query::Text(style) => {
            let table = requested.table();
            table.holds();
            write_styled_at(text, alloc, value, table, 0, style)?;
            Ok(true)
        }
        Query::Part(path, style) => write_part(text, alloc, value, requested, path, style),
        Query::Trees => write_trees(text, alloc, value, requested),
    }
}

/// Appends the text of a value at a type of the table, on one line. If `decimal` is true, doubles
/// are printed as decimals, and if `decimal` is false, by their bits.
fn write_plain_at(
    text: &mut Vec<u8>,
    alloc: Global,
    value: &Rooted<'_>,
    table: &TypeTable,
    at: usize,
    decimal: bool,
) -> Result<(), Memory>
    requires number { at < length table.now.nodes }
    requires typed { HasType (table_shapes (table_of table.now)) value.now.heap.now
        value.now.root at }
    ensures { OnOk result
        (text.new.items
        ≡ text.old.items
        ++ with_decimals decimal
        (shown_text (shape_in table.now) (names_in table.now) value.now.heap.now value.now.root
        at)) }
{
    if !decimal {
        return write_shown_at(text, alloc, value, table, at);
    }
    let mut bits = Vec::new(alloc);
    write_shown_at(&mut bits, alloc, value, table, at)?;
    write_decimal_text(alloc, text, bits.as_slice())
}

/// Appends the text of a value at a type of the table, in a given style.
fn write_styled_at(
    text: &mut Vec<u8>,
    alloc: Global,
    value: &Rooted<'_>,
    table: &TypeTable,
    at: usize,
    style: Style,
) -> Result<(), Memory>
    requires number { at < length table.now.nodes }
    requires typed { HasType (table_shapes (table_of table.now)) value.now.heap.now
        value.now.root at }
    ensures { OnOk result
        (text.new.items
        ≡ text.old.items
        ++ styled style
        (shown_text (shape_in table.now) (names_in table.now) value.now.heap.now value.now.root
        at)) }
{
    if !style.pretty {
        return write_plain_at(text, alloc, value, table, at, style.decimal);
    }
    let mut plain = Vec::new(alloc);
    write_plain_at(&mut plain, alloc, value, table, at, style.decimal)?;
    write_pretty(text, alloc, plain.as_slice())
}

/// Appends the text of the part at a path, or `none` if the path leads nowhere. Returns true if the
/// path leads to a part.
fn write_part(
    text: &mut Vec<u8>,
    alloc: Global,
    value: &Rooted<'_>,
    requested: &Requested,
    path: &Path,
    style: Style,
) -> Result<bool, Memory>
    requires typed { HasType (table_shapes (table_of requested.now.table)) value.now.heap.now
        value.now.root 0 }
    ensures { IfOk result
        (WritesLine (the_part path.now style) (type_over requested.now) value.now.heap.now
        value.now.root text.old.items text.new.items) }
{
    requested.holds();
    tables_decide();
    roots_show_agree();
    let table = requested.table();
    table.holds();
    match walk(value, table, path) {
        Some((root, at)) => {
            let heap = value.heap;
            write_styled_at(text, alloc, &Rooted { heap, root }, table, at, style)?;
            Ok(true)
        }
        None => {
            write(text, b"none")?;
            Ok(false)
        }
    }
}

/// Returns true if a verdict states that all sets and maps of a value are sound.
fn is_sound(verdict: &TreeVerdict) -> bool
    ensures { result ≡ is_sound_verdict verdict.now }
{
    match verdict {
        TreeVerdict::Sound(_) => true,
        TreeVerdict::Faulty(_, _) => false,
    }
}

/// Appends the verdict on the sets and maps in a value. Returns true if all sets and maps are
/// sound.
fn write_trees(
    text: &mut Vec<u8>,
    alloc: Global,
    value: &Rooted<'_>,
    requested: &Requested,
) -> Result<bool, Memory>
    requires typed { HasType (table_shapes (table_of requested.now.table)) value.now.heap.now
        value.now.root 0 }
    ensures { IfOk result
        (WritesLine the_trees (type_over requested.now) value.now.heap.now value.now.root
        text.old.items text.new.items) }
{
    requested.holds();
    tables_decide();
    tables_judge_trees();
    tables_have_the_verdict();
    let verdict = trees(alloc, value, requested.table())?;
    write_verdict(text, &verdict)?;
    Ok(is_sound(&verdict))
}
