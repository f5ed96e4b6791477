//! Follows a path in a value.

ghost use Rattle.std.specs.Prelude.{◌≡◌, ◌<◌, length, IfSome};
ghost use Rattle.base_data.specs.model.Graph.{IsValue};
ghost use Rattle.types_spec.specs.types.Fault.{field_of, type_of_field, step as step_of, value_at};
ghost use Rattle.types_spec.specs.types.Table.{table_shapes};
ghost use Rattle.types_table.specs.type_table.Made.{table_of};
ghost use Rattle.check_fault.specs.Tried.{typed_in, needed_in};

use crate::tried::Tried;
use base_data::model::path::Path;
use base_data::model::value::Val;
use check_heap::fits::{is_asked, needs_of};
use marshal_heap::heap::{Heap, Kind, Rooted};
use types_table::type_table::TypeTable;

/// Returns the value at the end of a path and the number of the value's type. If the path leads
/// nowhere, returns `None`.
pub fn walk(value: &Rooted<'_>, table: &TypeTable, path: &Path) -> Option<(Val, usize)>
    ensures position { result
        ≡ value_at (table_shapes (table_of table.now)) value.now.heap.now value.now.root 0
        path.now }
    ensures value { IfSome result (λ position. IsValue (length value.now.heap.now) position.0) }
    ensures number { IfSome result (λ position. position.1 < length table.now.nodes) }
{
    table.holds();
    let heap = value.heap;
    let mut found = value.root;
    let mut at = table.root();
    for i in 0..path.len() {
        let tried = Tried {
            heap,
            table,
            value: found,
            at,
        };
        (found, at) = step(&tried, path.step(i))?;
    }
    Some((found, at))
}

/// Returns the value of the field with index `step` and the number of the field's required type. If
/// the field has no required type, returns `None`.
pub fn step(tried: &Tried<'_>, step: u64) -> Option<(Val, usize)>
    ensures position { result
        ≡ step_of (table_shapes (table_of tried.now.table.now)) tried.now.heap.now tried.now.value
        tried.now.at step }
    ensures value { IfSome result (λ position. IsValue (length tried.now.heap.now) position.0) }
    ensures number { IfSome result (λ position. position.1 < length tried.now.table.now.nodes) }
{
    let ty = field_type(tried, step)?;
    let next = field(tried.heap, tried.value, step)?;
    Some((next, ty))
}

/// Returns the type of field `i`, which may be a wildcard.
fn typed_field(tried: &Tried<'_>, i: u64) -> Option<usize>
    ensures is { result ≡ type_of_field (typed_in tried.now) i }
    ensures number { IfSome result (λ ty. ty < length tried.now.table.now.nodes) }
{
    tried.table.holds();
    match needs_of(tried.heap, tried.value, tried.table.shape(tried.at)) {
        Some(needs) => needs.type_of(i),
        None => None,
    }
}

/// Returns the required type of field `i`. If the type of the field admits every value, no type is
/// required, and the result is `None`.
fn field_type(tried: &Tried<'_>, i: u64) -> Option<usize>
    ensures is { result ≡ type_of_field (needed_in tried.now) i }
    ensures number { IfSome result (λ ty. ty < length tried.now.table.now.nodes) }
{
    let Some(ty) = typed_field(tried, i) else {
        return None;
    };
    if is_asked(tried.table.shape(ty)) {
        Some(ty)
    } else {
        None
    }
}

/// Returns field `i` of the object that a value refers to.
pub fn field(heap: &Heap, value: Val, i: u64) -> Option<Val>
    requires { IsValue (length heap.now) value }
    ensures is { result ≡ field_of heap.now value i }
    ensures valid { IfSome result (λ v. IsValue (length heap.now) v) }
{
    let Val::Ref(object) = value else {
        return None;
    };
    match heap.kind(object) {
        Kind::Block(_, size) if i < size => Some(heap.field(object, i)),
        _ => None,
    }
}
