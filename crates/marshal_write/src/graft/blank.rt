//! Appends blank objects. The fields of a blank object are not filled yet.

ghost use Rattle.std.specs.Prelude.{◌≡◌, ◌<◌, ◌++◌, length, All, MatchResult};
ghost use Rattle.marshal_heap.specs.heap.Heap.{Appends, IsOfKind, object_at};
ghost use Rattle.marshal_heap.specs.declared.heap.kind.Kind.TheVariants as kinds;
ghost use Rattle.marshal_write.specs.graft.Renamed.{blank, blanks};

use base_data::model::Memory;
use marshal_heap::heap::{Heap, Kind};
use std::alloc::Global;

/// Appends copies of the given objects of another heap, with all fields set to 0. Fails with
/// `Memory` if memory runs out.
pub fn append_blanks(
    alloc: Global,
    heap: &mut Heap,
    from: &Heap,
    objects: &[u64],
) -> Result<(), Memory>
    requires { All (λ k. k < length from.now) objects.now }
    ensures { MatchResult result (λ _. heap.new ≡ heap.old ++ blanks from.now objects.now)
        (λ _. heap.new ≡ heap.old) }
{
    let base = heap.count();
    for k in objects {
        if let Err(memory) = append_blank(alloc, heap, from, *k) {
            heap.truncate(base);
            return Err(memory);
        }
    }
    Ok(())
}

/// Appends a copy of object `k` of another heap, with all fields set to 0. Fails with `Memory` if
/// memory runs out.
fn append_blank(alloc: Global, heap: &mut Heap, from: &Heap, k: u64) -> Result<u64, Memory>
    requires { k < length from.now }
    ensures { Appends heap.old heap.new (blank (object_at from.now k)) result }
{
    let _graph = from.count();
    match from.kind(k) {
        Kind::Block(tag, size) => heap.add_block(tag, size),
        Kind::Bytes(len) => append_bytes(alloc, heap, from, k, len),
        Kind::Double => heap.add_double(from.double(k, 0)),
        Kind::Doubles(len) => append_doubles(alloc, heap, from, k, len),
        Kind::Custom(c) => heap.add_custom(c),
    }
}

/// Appends a copy of string `k` of another heap.
fn append_bytes(
    alloc: Global,
    heap: &mut Heap,
    from: &Heap,
    k: u64,
    len: u64,
) -> Result<u64, Memory>
    requires inside { k < length from.now }
    requires kind { IsOfKind (kinds.Bytes len) (object_at from.now k) }
    ensures { Appends heap.old heap.new (object_at from.now k) result }
{
    let _graph = from.count();
    let mut content = Vec::with_capacity(alloc, len as usize)?;
    for i in 0..len {
        content.push_reserved(from.byte(k, i));
    }
    heap.add_bytes_of(&content)
}

/// Appends a copy of the array of doubles `k` of another heap.
fn append_doubles(
    alloc: Global,
    heap: &mut Heap,
    from: &Heap,
    k: u64,
    len: u64,
) -> Result<u64, Memory>
    requires inside { k < length from.now }
    requires kind { IsOfKind (kinds.Doubles len) (object_at from.now k) }
    ensures { Appends heap.old heap.new (object_at from.now k) result }
{
    let _graph = from.count();
    let mut all = Vec::with_capacity(alloc, len as usize)?;
    for i in 0..len {
        all.push_reserved(from.double(k, i));
    }
    heap.add_doubles_of(all)
}
