//! Copies a value to another heap.

ghost use Rattle.std.specs.Prelude.{◌≡◌, length, IfOk, MatchResult};
ghost use Rattle.base_data.specs.model.Graph.{IsValue};
ghost use Rattle.marshal_write.specs.graft.Copies.{HasCopy};

use crate::graft::blank::append_blanks;
use crate::graft::fill::{fill_all, renamed_by};
use crate::graft::write_order::WriteOrder;
use base_data::model::Memory;
use base_data::model::value::Val;
use marshal_heap::heap::Heap;
use std::alloc::Global;

/// Appends a copy of everything that a value of another heap reaches, and returns the copied value.
/// The copy preserves sharing and cycles. If memory runs out, the heap is unchanged.
pub fn append_copy(alloc: Global, heap: &mut Heap, from: &Heap, part: Val) -> Result<Val, Memory>
    requires { IsValue (length from.now) part }
    ensures copy { MatchResult result (HasCopy heap.old heap.new from.now part)
        (λ _. heap.new ≡ heap.old) }
    ensures value { IfOk result (IsValue (length heap.new)) }
{
    let base = heap.count();
    let order = WriteOrder::of(alloc, from, part)?;
    append_blanks(alloc, heap, from, &order.objects)?;
    fill_all(heap, from, &order.numbers, base, &order.objects);
    let _count = heap.count();
    Ok(renamed_by(&order.numbers, base, part))
}
