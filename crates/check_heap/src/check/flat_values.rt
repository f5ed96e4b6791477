//! Fast path for small values: values with few parts, where no part has parts. The fast path
//! allocates no memory.

ghost use Rattle.std.specs.Prelude.{◌≡◌, ◌<◌, ◌≤◌, length, IfSome, IsTrue};
ghost use Rattle.base_data.specs.model.Graph.{IsValue};
ghost use Rattle.base_data.specs.declared.model.value.Val.TheVariants as vals;
ghost use Rattle.types_spec.specs.types.Table.{table_shapes, typed_fields, is_asked_in};
ghost use Rattle.types_spec.specs.types.Typing.{HasType};
ghost use Rattle.check_heap.specs.fits.Needs.{needs_in};
ghost use Rattle.types_table.specs.type_table.Made.{table_of};
ghost use Rattle.check_heap.specs.check.FlatValues.{IsFlat, last_behind, are_few_and_flat, is_sure};

use crate::fits::{Needs, is_asked, needs_of};
use base_data::model::value::Val;
use marshal_heap::heap::Heap;
use types_spec::types::shape::ShapeOf;
use types_table::type_table::TypeTable;

/// The maximum number of parts of a value for the fast path.
const FEW: u64 = 8;

/// Returns true only if the value is an object that has type 0, with few parts that have no parts.
/// The answer false is inconclusive.
pub fn surely_has(heap: &Heap, root: Val, table: &TypeTable) -> bool
    requires { IsValue (length heap.now) root }
    ensures sure { result ≡ is_sure (table_of table.now) heap.now root }
    ensures typed { IsTrue result → HasType (table_shapes (table_of table.now)) heap.now root 0 }
{
    table.holds();
    let Val::Ref(object) = root else {
        return false;
    };
    let shape = table.shape(0);
    if !matches!(shape, ShapeOf::Product(..) | ShapeOf::Sum(..)) {
        return false;
    }
    match needs_of(heap, root, shape) {
        Some(needs) => are_flat(heap, object, table, needs),
        None => false,
    }
}

/// As `surely_has`, for an object that matches the type's representation and has the parts `needs`.
fn are_flat(heap: &Heap, object: u64, table: &TypeTable, needs: Needs<'_>) -> bool
    requires object { object < length heap.now }
    requires fits { (table_shapes (table_of table.now)).fits heap.now (vals.Ref object) 0 }
    requires needs { needs_in needs
        ≡ typed_fields (table_of table.now) heap.now (vals.Ref object) 0 }
    ensures flat { result ≡ are_few_and_flat (table_of table.now) heap.now object }
    ensures typed { IsTrue result
        → HasType (table_shapes (table_of table.now)) heap.now (vals.Ref object) 0 }
{
    table.holds();
    let _count = heap.count();
    if needs.len() > FEW {
        return false;
    }
    let mut last = object;
    for k in 0..needs.len() {
        let (i, ty) = needs.get(k);
        match after_flat(heap, heap.field(object, i), table, ty, last) {
            Some(next) => last = next,
            None => return false,
        }
    }
    true
}

/// Returns the number of the last object after the part, or `None` if the part has parts or does
/// not match. If the part is an object at a constrained type, the part becomes the last object. The
/// number of such a part must be greater than `last`.
#[inline(always)]
fn after_flat(heap: &Heap, part: Val, table: &TypeTable, ty: usize, last: u64) -> Option<u64>
    requires part { IsValue (length heap.now) part }
    requires number { ty < length table.now.nodes }
    ensures last { result ≡ last_behind (table_of table.now) heap.now ty last part }
    ensures flat { IfSome result (λ next. IsTrue (is_asked_in (table_of table.now) ty)
        → IsFlat (table_of table.now) heap.now part ty last next) }
    ensures kept { IfSome result (λ next. last ≤ next) }
{
    let shape = table.shape(ty);
    if !is_asked(shape) {
        return Some(last);
    }
    let needs = needs_of(heap, part, shape)?;
    let Val::Ref(object) = part else {
        return Some(last);
    };
    if object <= last || needs.len() > 0 {
        return None;
    }
    Some(object)
}
