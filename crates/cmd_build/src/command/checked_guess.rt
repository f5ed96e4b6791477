//! Fast path for long texts that `show` wrote. The fast path guesses a value, and keeps the value
//! only if the value has the type and its text is the line.

ghost use Rattle.std.specs.Prelude.{IfOk, IfSome, IsTrue};
ghost use Rattle.types_spec.specs.types.Table.{table_shapes};
ghost use Rattle.types_spec.specs.types.Typing.{HasType};
ghost use Rattle.types_table.specs.type_table.Made.{table_of};
ghost use Rattle.cmd_build.specs.guess.ReadableNames.{AreEncoded};
ghost use Rattle.run_types.specs.RequestedTexts.{type_over};
ghost use Rattle.cmd_build.specs.command.Guessed.{IsRight};

use crate::guess::{encoded_are_readable, guess, has_text, is_encoded};
use base_data::model::Memory;
use base_data::model::value::Val;
use check_heap::check::Verdict;
use marshal_heap::heap::{Heap, Rooted};
use run_types::{Requested, find_verdict};
use std::alloc::Global;
use text_print::same_type::{the_same_has_the_same_text, the_same_has_the_same_types};
use text_print::show::laws::roots_show_agree;
use text_roundtrip::text_lines::texts_are_read_again;
use types_table::type_table::TypeTable;
use types_theory::table::tables_decide;

/// The least number of bytes of a text for each type of the table. The guess searches the whole
/// table, which is why shorter texts are not guessed.
const BYTES_A_TYPE: usize = 64;

/// Returns true if the text is long compared to the table, and the names of the table can be read
/// back.
fn is_worth_it(table: &TypeTable, line: &[u8]) -> bool
    ensures { IsTrue result → AreEncoded table.now }
{
    line.len() / BYTES_A_TYPE >= table.len() && is_encoded(table)
}

/// Returns true if the value has the requested type.
fn is_typed(alloc: Global, value: &Rooted<'_>, requested: &Requested) -> Result<bool, Memory>
    ensures { IfOk result
        (λ typed. IsTrue typed
        → HasType (table_shapes (table_of requested.now.table)) value.now.heap.now
        value.now.root 0) }
{
    match find_verdict(alloc, value, requested)? {
        Verdict::Yes(_) => Ok(true),
        Verdict::No(_) => Ok(false),
    }
}

/// Returns true if the text of a value that has the type is the line. If the result is true, the
/// line denotes the value.
fn is_known(
    alloc: Global,
    value: &Rooted<'_>,
    requested: &Requested,
    line: &[u8],
) -> Result<bool, Memory>
    requires encoded { AreEncoded requested.now.table }
    requires typed { HasType (table_shapes (table_of requested.now.table)) value.now.heap.now
        value.now.root 0 }
    ensures { IfOk result
        (λ right. IsTrue right
        → IsRight (type_over requested.now) line.now value.now.heap.now value.now.root) }
{
    requested.holds();
    tables_decide();
    roots_show_agree();
    the_same_has_the_same_types();
    the_same_has_the_same_text();
    encoded_are_readable();
    texts_are_read_again();
    if value.heap.count() >= 1 << 62 {
        return Ok(false);
    }
    has_text(alloc, value, requested.table(), line)
}

/// Returns true if the value has the type and the value's text is the line.
fn is_right(
    alloc: Global,
    value: &Rooted<'_>,
    requested: &Requested,
    line: &[u8],
) -> Result<bool, Memory>
    requires encoded { AreEncoded requested.now.table }
    ensures { IfOk result
        (λ right. IsTrue right
        → IsRight (type_over requested.now) line.now value.now.heap.now value.now.root) }
{
    if !is_typed(alloc, value, requested)? {
        return Ok(false);
    }
    is_known(alloc, value, requested, line)
}

/// Guesses the value that a line denotes, and stores the value's objects in `heap`. Returns `None`
/// if the guess fails. If the guess fails, the caller must parse the line.
pub fn guess_line(
    alloc: Global,
    heap: &mut Heap,
    requested: &Requested,
    line: &[u8],
) -> Result<Option<Val>, Memory>
    ensures { IfOk result
        (λ found. IfSome found (IsRight (type_over requested.now) line.now heap.new)) }
{
    let table = requested.table();
    if !is_worth_it(table, line) {
        return Ok(None);
    }
    let Some(root) = guess(alloc, heap, table, line)? else {
        return Ok(None);
    };
    if !is_right(alloc, &Rooted { heap, root }, requested, line)? {
        return Ok(None);
    }
    Ok(Some(root))
}
