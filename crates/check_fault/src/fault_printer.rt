//! The text of a fault: the paths, the types at the paths, and what was found.

ghost use Rattle.std.specs.Prelude.{◌≡◌, ◌<◌, ◌++◌, length, Some, slice_get, IfOk, OnOk};
ghost use Rattle.base_data.specs.model.Graph.{IsValue};
ghost use Rattle.types_spec.specs.types.Fault.{IsFault, IsMismatch, IsConflict};
ghost use Rattle.types_spec.specs.types.Table.{table_shapes};
ghost use Rattle.types_spec.specs.types.VerdictText.{IsFaultText, mismatch_text};
ghost use Rattle.types_spec.specs.declared.types.fault.Fault.TheVariants as faults;
ghost use Rattle.types_table.specs.type_table.Made.{table_of};
ghost use Rattle.check_fault.specs.Near.{path_in};
ghost use Rattle.check_fault.specs.FaultText.{text_at, found_text, WritesFault};

use crate::near::Near;
use crate::path_steps::walk;
use crate::value_description::{write_kind, write_way};
use base_data::model::Memory;
use base_data::model::list::List;
use base_data::model::path::Path;
use base_data::model::value::Val;
use base_data::text::{write, write_path};
use marshal_heap::heap::{Heap, Rooted};
use std::alloc::Global;
use types_spec::types::fault::Fault;
use types_table::store::TypeNode;
use types_table::type_table::TypeTable;

/// The number of bytes that are reserved for the text of a fault. Most texts of faults fit.
const ROOM: usize = 96;

/// Returns the text of a fault: the paths, the types at the paths, and what was found.
pub fn fault_text(
    alloc: Global,
    value: &Rooted<'_>,
    table: &TypeTable,
    fault: &Fault,
) -> Result<List<u8>, Memory>
    requires fault { IsFault (table_shapes (table_of table.now)) value.now.heap.now value.now.root 0
        fault.now }
    ensures { IfOk result
        (IsFaultText (table_shapes (table_of table.now)) (text_at table.now) value.now.heap.now
        value.now.root 0 fault.now) }
{
    let mut text = Vec::with_capacity(alloc, ROOM)?;
    write_fault(&mut text, alloc, value, table, fault)?;
    Ok(List::of(text))
}

/// Appends the text of a fault: the paths, the types at the paths, and what was found.
pub fn write_fault(
    text: &mut Vec<u8>,
    alloc: Global,
    value: &Rooted<'_>,
    table: &TypeTable,
    fault: &Fault,
) -> Result<(), Memory>
    requires fault { IsFault (table_shapes (table_of table.now)) value.now.heap.now value.now.root 0
        fault.now }
    ensures { OnOk result
        (WritesFault table.now value.now.heap.now value.now.root fault.now text.old.items
        text.new.items) }
{
    match fault {
        Fault::Mismatch(path) => write_mismatch(text, alloc, value, table, path),
        Fault::Conflict(first, second) => write_conflict(text, alloc, value, table, first, second),
    }
}

/// Appends the text of a type mismatch: the path, the expected type, and what was found.
fn write_mismatch(
    text: &mut Vec<u8>,
    alloc: Global,
    value: &Rooted<'_>,
    table: &TypeTable,
    path: &Path,
) -> Result<(), Memory>
    requires mismatch { IsMismatch
        (table_shapes (table_of table.now)) value.now.heap.now value.now.root
        0 path.now }
    ensures { OnOk result
        (WritesFault table.now value.now.heap.now value.now.root (faults.Mismatch path.now)
        text.old.items text.new.items) }
{
    let Some((found, expected)) = walk(value, table, path) else {
        unreachable!()
    };
    write_path(text, path)?;
    write_found(text, alloc, value.heap, table, expected, found)
}

/// Appends the text of a type mismatch near the root: the path, the expected type, and what was
/// found.
pub fn write_near(
    text: &mut Vec<u8>,
    alloc: Global,
    heap: &Heap,
    table: &TypeTable,
    near: Near,
) -> Result<(), Memory>
    requires value { IsValue (length heap.now) near.value }
    requires number { near.at < length table.now.nodes }
    ensures { OnOk result
        (text.new.items
        ≡ text.old.items
        ++ mismatch_text (text_at table.now) heap.now (path_in near.way) near.value near.at) }
{
    write_way(text, near.way)?;
    write_found(text, alloc, heap, table, near.at, near.value)
}

/// Appends the expected type and what was found.
fn write_found(
    text: &mut Vec<u8>,
    alloc: Global,
    heap: &Heap,
    table: &TypeTable,
    expected: usize,
    found: Val,
) -> Result<(), Memory>
    requires value { IsValue (length heap.now) found }
    requires number { expected < length table.now.nodes }
    ensures { OnOk result
        (text.new.items ≡ text.old.items ++ found_text table.now heap.now found expected) }
{
    write(text, b": expected ")?;
    write_type(text, alloc, table, expected)?;
    write(text, b", found ")?;
    write_kind(text, &Rooted { heap, root: found })
}

/// Appends the text of an aliasing conflict: the two paths, and the type at each path.
fn write_conflict(
    text: &mut Vec<u8>,
    alloc: Global,
    value: &Rooted<'_>,
    table: &TypeTable,
    first: &Path,
    second: &Path,
) -> Result<(), Memory>
    requires conflict { IsConflict
        (table_shapes (table_of table.now)) value.now.heap.now value.now.root 0
        first.now second.now }
    ensures { OnOk result
        (WritesFault table.now value.now.heap.now value.now.root
        (faults.Conflict first.now second.now)
        text.old.items text.new.items) }
{
    let Some((_, one)) = walk(value, table, first) else {
        unreachable!()
    };
    let Some((_, other)) = walk(value, table, second) else {
        unreachable!()
    };
    write_path(text, first)?;
    write(text, b" and ")?;
    write_path(text, second)?;
    write(text, b": ")?;
    write_type(text, alloc, table, one)?;
    write(text, b" and ")?;
    write_type(text, alloc, table, other)?;
    write(text, b" share a mutable object")
}

/// Returns the number of a type in the store of types.
fn stored(table: &TypeTable, number: usize) -> usize
    requires { number < length table.now.stored }
    ensures { slice_get table.now.stored number ≡ Some result }
{
    table.stored()[number]
}

/// Appends the text of a type. If the type is a name without arguments, the name is copied as the
/// table stores the name.
pub fn write_type(
    text: &mut Vec<u8>,
    alloc: Global,
    table: &TypeTable,
    number: usize,
) -> Result<(), Memory>
    requires number { number < length table.now.nodes }
    ensures { OnOk result (text.new.items ≡ text.old.items ++ text_at table.now number) }
{
    table.holds();
    match table.store().node(stored(table, number)) {
        TypeNode::Named(name) => write(text, name),
        _ => write_any_type(text, alloc, table, number),
    }
}

/// Appends the text of a type of any form.
fn write_any_type(
    text: &mut Vec<u8>,
    alloc: Global,
    table: &TypeTable,
    number: usize,
) -> Result<(), Memory>
    requires number { number < length table.now.stored }
    ensures { OnOk result (text.new.items ≡ text.old.items ++ text_at table.now number) }
{
    let encoded = table.text(alloc, number)?;
    write(text, encoded.as_slice())
}
