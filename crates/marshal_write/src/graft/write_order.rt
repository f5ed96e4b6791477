//! Computes the objects that a value reaches, in the order of their first visit.

ghost use Rattle.std.specs.Prelude.{◌≡◌, ◌≤◌, ◌<◌, ℕ, List, length, slice_index, IfOk};
ghost use Rattle.base_data.specs.declared.model.value.Obj.{Obj};
ghost use Rattle.base_data.specs.model.Graph.{IsValue};
ghost use Rattle.marshal_write.specs.write.Marks.{marks_of};
ghost use Rattle.marshal_write.specs.write.WriteWalk.{AreMarked};
ghost use Rattle.marshal_write.specs.graft.ObjectOrder.{IsOrder};

use crate::write::{Numbers, number_objects};
use base_data::model::Memory;
use base_data::model::value::Val;
use marshal_heap::heap::Heap;
use std::alloc::Global;

/// The objects that a value reaches, in the order of their first visit, and the position of each
/// object.
#[derive(Drop)]
pub struct WriteOrder {
    pub numbers: Numbers,
    pub objects: Vec<u64>,
}

impl WriteOrder {
    /// Computes the order of the objects that `root` reaches. Fails with `Memory` if memory runs
    /// out.
    pub fn of(alloc: Global, heap: &Heap, root: Val) -> Result<WriteOrder, Memory>
        requires { IsValue (length heap.now) root }
        ensures { IfOk result
            (λ o. IsOrder heap.now root (marks_of o.numbers.marks) o.objects.items) }
    {
        let numbers = number_objects(alloc, heap, root)?;
        let objects = order_of(alloc, &numbers, heap.count())?;
        Ok(WriteOrder { numbers, objects })
    }
}

/// Returns the largest mark of the `objects` objects.
fn last_mark(numbers: &Numbers, objects: u64) -> u64
    requires { objects ≡ length (marks_of numbers.now.marks) }
    ensures most { (k : ℕ) → k < objects → slice_index (marks_of numbers.now.marks) k ≤ result }
    ensures least { (n : ℕ)
        → ((k : ℕ) → k < objects → slice_index (marks_of numbers.now.marks) k ≤ n)
        → result ≤ n }
{
    let mut last = 0;
    for k in 0..objects {
        let mark = numbers.get(k);
        if mark > last {
            last = mark;
        }
    }
    last
}

/// Returns the marked objects in the order of their marks. Fails with `Memory` if memory runs out.
fn order_of(alloc: Global, numbers: &Numbers, objects: u64) -> Result<Vec<u64>, Memory>
    requires { objects ≡ length (marks_of numbers.now.marks) }
    ensures { (graph : List Obj) (ks : List ℕ)
        → AreMarked graph ks (length ks) (marks_of numbers.now.marks)
        → IfOk result (λ order. order.items ≡ ks) }
{
    let last = last_mark(numbers, objects);
    let mut order = vec![in alloc; 0u64; last as usize]?;
    for k in 0..objects {
        let mark = numbers.get(k);
        if mark != 0 {
            order[mark as usize - 1] = k;
        }
    }
    Ok(order)
}
