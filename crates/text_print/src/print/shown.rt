//! The text of a value at a type.

ghost use Rattle.std.specs.Prelude.{◌≡◌, ◌<◌, ◌++◌, None, [], length, All, IfSome, IfOk, OnOk};
ghost use Rattle.std.specs.Prelude.{flat_map};
ghost use Rattle.types_spec.specs.types.Table.{table_shapes};
ghost use Rattle.types_spec.specs.types.Typing.{HasType};
ghost use Rattle.types_table.specs.type_table.Made.{table_of};
ghost use Rattle.text_print.specs.show.TextChunks.{chunk_text};
ghost use Rattle.text_print.specs.show.ShownValues.{shown_text, chunks_of};
ghost use Rattle.text_print.specs.show.TableShapes.{shape_in, names_in};
ghost use Rattle.text_print.specs.print.Typed.{IsTypedAt};
ghost use Rattle.text_print.specs.print.Labels.{AreLabels};
ghost use Rattle.text_print.specs.print.Write.{IsWritten};
ghost use Rattle.text_print.specs.print.PrintWalk.{IsStep, step_chunks};

use crate::leaves::write_int_at;
use crate::print::ends::write_end;
use crate::print::flat_text::write_flat;
use crate::print::labels::{Labels, mark_again, objects_again, write_label};
use crate::print::print_walk::{PrintStep, PrintWalk};
use crate::print::text_until_again::{write_leaf, write_until_again};
use base_data::model::Memory;
use base_data::model::value::Val;
use base_data::text::write;
use marshal_heap::heap::{Heap, Rooted};
use std::alloc::Global;
use types_table::type_table::TypeTable;

/// Appends the text of a value at a type of the table.
pub fn write_shown_at(
    text: &mut Vec<u8>,
    alloc: Global,
    value: &Rooted<'_>,
    table: &TypeTable,
    at: usize,
) -> Result<(), Memory>
    requires number { at < length table.now.nodes }
    requires typed { HasType (table_shapes (table_of table.now)) value.now.heap.now
        value.now.root at }
    ensures { OnOk result
        (text.new.items
        ≡ text.old.items
        ++ shown_text (shape_in table.now) (names_in table.now) value.now.heap.now
        value.now.root at) }
{
    let before = text.len();
    if write_flat(text, value, table, at)? {
        return Ok(());
    }
    text.truncate(before);
    let Some(objects) = write_without_labels(text, alloc, value, table, at)? else {
        return Ok(());
    };
    text.truncate(before);
    let labels = Labels::new(alloc, objects, value.heap.count())?;
    write_with_labels(text, alloc, value, table, at, &labels)?;
    Ok(())
}

// Appends the text of a value if no object has a label. If an object occurs again, stops appending
// and returns the objects that have labels.
fn write_without_labels(
    text: &mut Vec<u8>,
    alloc: Global,
    value: &Rooted<'_>,
    table: &TypeTable,
    at: usize,
) -> Result<Option<Vec<u64>>, Memory>
    requires typed { IsTypedAt (table_of table.now) value.now.heap.now value.now.root at }
    ensures text { IfOk result
        (λ found. IsWritten found text.old.items text.new.items
        (chunks_of (shape_in table.now) (names_in table.now) value.now.heap.now
        value.now.root at)) }
    ensures inside { IfOk result
        (λ found. IfSome found
        (λ objects. All (λ o. o < length value.now.heap.now) objects.items)) }
{
    let heap = value.heap;
    let mut walk = PrintWalk::new(alloc, value, table, at)?;
    if write_until_again(text, heap, table, &mut walk)? {
        return Ok(None);
    }
    let mut again = vec![in alloc; false; heap.count() as usize]?;
    while let Some(step) = walk.next(heap, table)? {
        mark_again(&mut again, step);
    }
    let order = walk.order.numbers(alloc)?;
    let objects = objects_again(alloc, order.as_slice(), &again)?;
    Ok(Some(objects))
}

// Appends the text of a value with given labels.
#[inline(never)]
fn write_with_labels(
    text: &mut Vec<u8>,
    alloc: Global,
    value: &Rooted<'_>,
    table: &TypeTable,
    at: usize,
    labels: &Labels,
) -> Result<(), Memory>
    requires typed { IsTypedAt (table_of table.now) value.now.heap.now value.now.root at }
    requires labels { AreLabels labels.now }
    ensures { OnOk result
        (text.new.items
        ≡ text.old.items
        ++ flat_map (chunk_text labels.now.objects.items)
        (chunks_of (shape_in table.now) (names_in table.now) value.now.heap.now
        value.now.root at)) }
{
    let heap = value.heap;
    let mut walk = PrintWalk::new(alloc, value, table, at)?;
    while let Some(step) = walk.next(heap, table)? {
        write_step(text, heap, table, labels, step)?;
    }
    Ok(())
}

// Appends the text of a step.
fn write_step(
    text: &mut Vec<u8>,
    heap: &Heap,
    table: &TypeTable,
    labels: &Labels,
    step: PrintStep<'_>,
) -> Result<(), Memory>
    requires step { IsStep table.now heap.now step }
    requires labels { AreLabels labels.now }
    ensures { OnOk result
        (text.new.items
        ≡ text.old.items
        ++ flat_map (chunk_text labels.now.objects.items)
        (step_chunks table.now heap.now step.entry)) }
{
    match step {
        PrintStep::Again(o) => labels.write_again(text, o),
        PrintStep::Leaf(o, _) => {
            labels.write_first(text, o)?;
            write_plain(text, heap, table, step)
        }
        PrintStep::Opening(o, _) => {
            labels.write_first(text, o)?;
            write_plain(text, heap, table, step)
        }
        PrintStep::Integer(_, _) => write_plain(text, heap, table, step),
        PrintStep::Empty => write_plain(text, heap, table, step),
        PrintStep::Wildcard => write_plain(text, heap, table, step),
        PrintStep::Before(_, _) => write_plain(text, heap, table, step),
        PrintStep::Closing(_) => write_plain(text, heap, table, step),
    }
}

// Appends the text of a step if no object has a label.
#[inline(always)]
fn write_plain(
    text: &mut Vec<u8>,
    heap: &Heap,
    table: &TypeTable,
    step: PrintStep<'_>,
) -> Result<(), Memory>
    requires step { IsStep table.now heap.now step }
    ensures { OnOk result
        (text.new.items
        ≡ text.old.items
        ++ flat_map (chunk_text []) (step_chunks table.now heap.now step.entry)) }
{
    match step {
        PrintStep::Integer(z, at) => write_int_at(text, z, table.shape(at), table.names(at)),
        PrintStep::Empty => write(text, b"[||]"),
        PrintStep::Wildcard => write(text, b"_"),
        PrintStep::Again(_) => write_label(text, 0),
        PrintStep::Leaf(o, at) => write_leaf(text, heap, table, o, heap.word(Val::Ref(o)), at),
        PrintStep::Opening(_, frame) => frame.write_opening(text),
        PrintStep::Before(frame, i) => frame.write_before(text, i),
        PrintStep::Closing(end) => write_end(text, end),
    }
}
