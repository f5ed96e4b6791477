//! Fills the fields of copied objects.

ghost use Rattle.std.specs.Prelude.{◌≡◌, ◌≤◌, ◌++◌, ◌^◌, length, take, All, Some, slice_get};
ghost use Rattle.std.specs.Prelude.{slice_set};
ghost use Rattle.marshal_heap.specs.heap.Heap.{object_at};
ghost use Rattle.marshal_write.specs.write.Marks.{marks_of};
ghost use Rattle.marshal_write.specs.graft.Renamed.{blank, blanks, renamed_value, renamed_object};
ghost use Rattle.marshal_write.specs.graft.Renamed.{renamed};
ghost use Rattle.marshal_write.specs.graft.Renamed.{IsMet, IsMetObject};

use crate::write::Numbers;
use base_data::model::value::Val;
use marshal_heap::heap::{Heap, Kind};

/// Fills the blank objects from number `base` on with the fields of the given objects of another
/// heap.
pub fn fill_all(heap: &mut Heap, from: &Heap, numbers: &Numbers, base: u64, objects: &[u64])
    requires base { base ≤ length heap.old }
    requires blank { heap.old ≡ take base heap.old ++ blanks from.now objects.now }
    requires met { All (IsMetObject from.now (marks_of numbers.now.marks) base (length heap.old))
        objects.now }
    ensures { heap.new
        ≡ take base heap.old ++ renamed base (marks_of numbers.now.marks) from.now objects.now }
{
    let _count = heap.count();
    for j in 0..objects.len() {
        fill(heap, from, numbers, base, base + j as u64, objects[j]);
    }
}

/// Fills the blank object `number` with the fields of object `k` of another heap.
fn fill(heap: &mut Heap, from: &Heap, numbers: &Numbers, base: u64, number: u64, k: u64)
    requires blank { slice_get heap.old number ≡ Some (blank (object_at from.now k)) }
    requires met { IsMetObject from.now (marks_of numbers.now.marks) base (length heap.old) k }
    ensures { heap.new
        ≡ slice_set heap.old number
        (renamed_object base (marks_of numbers.now.marks) (object_at from.now k)) }
{
    let _count = heap.count();
    let Kind::Block(_, size) = from.kind(k) else {
        return;
    };
    for i in 0..size {
        let v = renamed_by(numbers, base, from.field(k, i));
        heap.set(number, i, v);
    }
}

/// Returns the value `v` for use in the copy: if `v` refers to an object, the result refers to the
/// copy of the object.
pub fn renamed_by(numbers: &Numbers, base: u64, v: Val) -> Val
    requires { IsMet (marks_of numbers.now.marks) base (2 ^ 64) v }
    ensures { result ≡ renamed_value base (marks_of numbers.now.marks) v }
{
    match v {
        Val::Ref(k) => Val::Ref(base + (numbers.get(k) - 1)),
        _ => v,
    }
}
