//! Tests whether two objects have equal kinds and equal contents.

ghost use Rattle.std.specs.Prelude.{◌≡◌, ◌≢◌, length, MatchBool};
ghost use Rattle.marshal_heap.specs.heap.Heap.{object_at, bytes_of, doubles_of};

use crate::heap::{Heap, Kind};

/// Returns true if two objects have the same kind and size. The kind of a custom block includes its
/// value. Therefore, two custom blocks have the same kind only if the two values are equal.
pub fn same_kind(left: Kind, right: Kind) -> bool
    ensures { MatchBool result (left ≡ right) (left ≢ right) }
{
    left == right
}

/// Returns true if two strings of `n` bytes are equal.
pub fn same_bytes(left: &Heap, k: u64, right: &Heap, l: u64, n: u64) -> bool
    requires left { n ≡ length (bytes_of (object_at left.now k)) }
    requires right { n ≡ length (bytes_of (object_at right.now l)) }
    ensures { MatchBool result
        (bytes_of (object_at left.now k) ≡ bytes_of (object_at right.now l))
        (bytes_of (object_at left.now k) ≢ bytes_of (object_at right.now l)) }
{
    for i in 0..n {
        if left.byte(k, i) != right.byte(l, i) {
            return false;
        }
    }
    true
}

/// Returns true if two arrays of `n` doubles are equal bit by bit. A single double counts as an
/// array of one double.
pub fn same_doubles(left: &Heap, k: u64, right: &Heap, l: u64, n: u64) -> bool
    requires left { n ≡ length (doubles_of (object_at left.now k)) }
    requires right { n ≡ length (doubles_of (object_at right.now l)) }
    ensures { MatchBool result
        (doubles_of (object_at left.now k) ≡ doubles_of (object_at right.now l))
        (doubles_of (object_at left.now k) ≢ doubles_of (object_at right.now l)) }
{
    for i in 0..n {
        if left.double(k, i) != right.double(l, i) {
            return false;
        }
    }
    true
}
