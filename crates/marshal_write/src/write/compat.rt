//! Finds the values that a 32-bit reader cannot hold (`extern.c`, flag `Compat_32`).

ghost use Rattle.std.specs.Prelude.{◌≡◌, ◌<◌, length, true, false, find, None, IsNone, IsSomeAnd};
ghost use Rattle.std.specs.Prelude.{MatchOption};
ghost use Rattle.marshal_spec.specs.format.Canonical.{is_signed};
ghost use Rattle.marshal_spec.specs.format.Compat.{is_large, large_header, token};
ghost use Rattle.marshal_spec.specs.format.Isomorphism.{IsTreeOf};
ghost use Rattle.marshal_spec.specs.format.Token.{leaf};
ghost use Rattle.marshal_spec.specs.format.Tree.{Tree, tokens};
ghost use Rattle.marshal_heap.specs.heap.Heap.{object_at};
ghost use Rattle.marshal_write.specs.write.WriteStep.{token_in, IsHeld};
ghost use Rattle.marshal_write.specs.write.Reports.{Reports};
ghost use Rattle.marshal_write.specs.write.WriteWalk.{IsWalk};

use crate::write::write_walk::{WriteStep, WriteWalk};
use base_data::model::code::Custom;
use marshal_codec::headers::Head;
use marshal_heap::heap::{Heap, Kind};

/// The item that is too large for a 32-bit reader, with the item's size. The size of an integer or
/// a `Nativeint` is its value. The size of another token is its number of fields, bytes or doubles.
/// The size of a header is the header's largest number.
#[derive(Clone, Copy, Debug)]
pub enum Compat {
    Int(i64),
    Block(u64),
    Bytes(u64),
    Native(i64),
    Doubles(u64),
    Header(u64),
}

/// Returns the first token of a walk that is too large for a 32-bit reader.
pub fn first_large<'a>(heap: &'a Heap, walk: &mut WriteWalk<'a>) -> Option<Compat>
    requires walk { IsWalk heap.now walk.old }
    requires first { walk.old.given ≡ 0 }
    requires again { walk.old.again ≡ true }
    ensures walk { IsWalk heap.now walk.new }
    ensures root { walk.new.root ≡ walk.old.root }
    ensures end { IsNone result → (tree : Tree) → IsTreeOf heap.now walk.old.root tree
        → walk.new.given ≡ length (tokens tree) }
    ensures large { (tree : Tree) → IsTreeOf heap.now walk.old.root tree → MatchOption result
        (find is_large (tokens tree) ≡ None)
        (λ compat. IsSomeAnd (find is_large (tokens tree)) (λ t. Reports (token t) compat)) }
{
    'tokens: while let Some(step) = walk.next_again(heap) {
        if let Some(compat) = step_compat(heap, step) {
            return Some(compat);
        }
    }
    None
}

/// Returns the largest number of a header that must be big, or `None` if the header may be small.
pub fn head_compat(head: Head) -> Option<Compat>
    ensures { MatchOption result (large_header head ≡ None)
        (λ compat. IsSomeAnd (large_header head) (λ t. Reports t compat)) }
{
    if head.big {
        let greatest = head.length.max(head.w32.max(head.w64));
        Some(Compat::Header(greatest))
    } else {
        None
    }
}

fn step_compat(heap: &Heap, step: WriteStep) -> Option<Compat>
    requires { IsHeld heap.now step }
    ensures { MatchOption result (is_large (token_in heap.now step) ≡ false)
        (λ compat. (is_large (token_in heap.now step) ≡ true)
        × Reports (token (token_in heap.now step)) compat) }
{
    match step {
        WriteStep::Integer(-0x4000_0000..0x4000_0000) => None,
        WriteStep::Integer(z) => Some(Compat::Int(z)),
        WriteStep::Block(_, size) if size > 0x3f_ffff => Some(Compat::Block(size)),
        WriteStep::Leaf(k, _) => leaf_compat(heap, k),
        _ => None,
    }
}

fn leaf_compat(heap: &Heap, k: u64) -> Option<Compat>
    requires { k < length heap.now }
    ensures { MatchOption result (is_large (leaf (object_at heap.now k)) ≡ false)
        (λ compat. (is_large (leaf (object_at heap.now k)) ≡ true)
        × Reports (token (leaf (object_at heap.now k))) compat) }
{
    match heap.kind(k) {
        Kind::Bytes(n) if n > 0xff_fffb => Some(Compat::Bytes(n)),
        Kind::Doubles(n) if n > 0x1f_ffff => Some(Compat::Doubles(n)),
        Kind::Custom(Custom::Native(z)) => native_compat(z),
        _ => None,
    }
}

fn native_compat(z: i64) -> Option<Compat>
    ensures { MatchOption result (is_signed 31 z ≡ true)
        (λ compat. (is_signed 31 z ≡ false) × (compat ≡ Compat.Native z)) }
{
    match z {
        -0x8000_0000..0x8000_0000 => None,
        _ => Some(Compat::Native(z)),
    }
}
