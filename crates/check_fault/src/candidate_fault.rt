//! Decides whether a candidate fault is a fault of a value.

ghost use Rattle.std.specs.Prelude.{◌<◌, ◌↔◌, length, IsTrue};
ghost use Rattle.types_spec.specs.types.Fault.{IsMismatch, IsConflict, IsFault};
ghost use Rattle.types_spec.specs.types.Table.{table_shapes};
ghost use Rattle.types_table.specs.type_table.Made.{table_of};
ghost use Rattle.check_fault.specs.Shared.{AreAtOdds, IsShared};

use crate::path_order::is_before;
use crate::path_steps::walk;
use crate::tried::Tried;
use base_data::model::path::Path;
use base_data::model::value::Val;
use check_heap::fits::{is_mutable, needs_of};
use marshal_heap::heap::{Heap, Rooted};
use types_spec::types::fault::Fault;
use types_table::type_table::TypeTable;

/// Returns true if `fault` is a fault of the value at type 0 of the table. Allocates no memory.
pub fn is_fault(value: &Rooted<'_>, table: &TypeTable, fault: &Fault) -> bool
    ensures { IsTrue result
        ↔ IsFault (table_shapes (table_of table.now)) value.now.heap.now value.now.root 0
        fault.now }
{
    match fault {
        Fault::Mismatch(path) => is_mismatch(value, table, path),
        Fault::Conflict(first, second) => is_conflict(value, table, first, second),
    }
}

/// Returns true if the path leads to a value that does not match its type's representation.
fn is_mismatch(value: &Rooted<'_>, table: &TypeTable, path: &Path) -> bool
    ensures { IsTrue result
        ↔ IsMismatch (table_shapes (table_of table.now)) value.now.heap.now value.now.root 0
        path.now }
{
    match walk(value, table, path) {
        Some((found, at)) => {
            let tried = Tried {
                heap: value.heap,
                table,
                value: found,
                at,
            };
            !fits(&tried)
        }
        None => false,
    }
}

/// Returns true if the two paths are an aliasing conflict. An aliasing conflict leads to one object
/// at unequal types, at one of which the object is mutable.
fn is_conflict(value: &Rooted<'_>, table: &TypeTable, first: &Path, second: &Path) -> bool
    ensures { IsTrue result
        ↔ IsConflict (table_shapes (table_of table.now)) value.now.heap.now value.now.root 0
        first.now second.now }
{
    match walk(value, table, first) {
        Some((found, at)) => match walk(value, table, second) {
            Some((again, other)) => {
                let tried = Tried {
                    heap: value.heap,
                    table,
                    value: found,
                    at,
                };
                is_before(first, second) && is_shared(&tried, again, other)
            }
            None => false,
        },
        None => false,
    }
}

/// Returns true if two values are one object at unequal types, and the object is mutable at one of
/// the types.
fn is_shared(tried: &Tried<'_>, again: Val, other: usize) -> bool
    requires other { other < length tried.now.table.now.nodes }
    ensures { IsTrue result
        ↔ IsShared (table_shapes (table_of tried.now.table.now)) tried.now.heap.now tried.now.value
        tried.now.at again other }
{
    match tried.value {
        Val::Ref(object) => {
            again == tried.value && are_at_odds(tried.heap, object, tried.table, tried.at, other)
        }
        _ => false,
    }
}

/// Returns true if two types of an object are unequal, and the object is mutable at one of the
/// types.
fn are_at_odds(heap: &Heap, object: u64, table: &TypeTable, one: usize, other: usize) -> bool
    requires object { object < length heap.now }
    requires one { one < length table.now.nodes }
    requires other { other < length table.now.nodes }
    ensures { IsTrue result
        ↔ AreAtOdds (table_shapes (table_of table.now)) heap.now object one other }
{
    table.holds();
    table.class(one) != table.class(other)
        && (may_change(heap, object, table, one) || may_change(heap, object, table, other))
}

/// Returns true if an object matches a type's representation and is mutable at the type.
fn may_change(heap: &Heap, object: u64, table: &TypeTable, at: usize) -> bool
    requires object { object < length heap.now }
    requires number { at < length table.now.nodes }
    ensures { IsTrue result ↔ (table_shapes (table_of table.now)).mutable heap.now object at }
{
    let tried = Tried {
        heap,
        table,
        value: Val::Ref(object),
        at,
    };
    fits(&tried) && is_mutable(heap, object, table.shape(at))
}

/// Returns true if a value matches its type's representation. Parts of the value are not checked.
pub fn fits(tried: &Tried<'_>) -> bool
    ensures { IsTrue result
        ↔ (table_shapes (table_of tried.now.table.now)).fits tried.now.heap.now tried.now.value
        tried.now.at }
{
    needs_of(tried.heap, tried.value, tried.table.shape(tried.at)).is_some()
}
