//! Compares two values object by object.

ghost use Rattle.std.specs.Prelude.{◌≡◌, ◌<◌, ◌↔◌, [], length, IfOk, IsTrue};
ghost use Rattle.std.specs.List.{AllZip};
ghost use Rattle.base_data.specs.model.Graph.{IsValue};
ghost use Rattle.marshal_spec.specs.format.Isomorphism.{Agree, AgreeObjects, Isomorphism};
ghost use Rattle.marshal_heap.specs.heap.Heap.{object_at, fields_of};
ghost use Rattle.marshal_heap.specs.isomorphism.Meeting.{Meets};

use crate::heap::{Heap, Kind};
use crate::isomorphism::pairing::Pairing;
use crate::isomorphism::same_contents::{same_bytes, same_doubles, same_kind};
use base_data::model::Memory;
use base_data::model::value::Val;
use std::alloc::Global;

/// Returns true if the two values are isomorphic. Two values are isomorphic if a one-to-one pairing
/// of objects takes one root to the other root, and the objects of each pair agree. Compares
/// doubles by their bits. Compares each pair of objects once, and therefore repeats no work for
/// shared or cyclic values. Fails with `Memory` if memory runs out.
pub fn same(alloc: Global, left: &Heap, v: Val, right: &Heap, w: Val) -> Result<bool, Memory>
    requires left { IsValue (length left.now) v }
    requires right { IsValue (length right.now) w }
    ensures { IfOk result (λ same. IsTrue same ↔ Isomorphism left.now v right.now w) }
{
    let mut pairing = Pairing::new(alloc, left.count(), right.count())?;
    same_from(&mut pairing, left, v, right, w)
}

// Compares two values, starting with an empty pairing.
fn same_from(
    pairing: &mut Pairing,
    left: &Heap,
    v: Val,
    right: &Heap,
    w: Val,
) -> Result<bool, Memory>
    requires empty { pairing.old.pairs ≡ [] }
    requires lefts { pairing.old.lefts ≡ length left.now }
    requires rights { pairing.old.rights ≡ length right.now }
    requires left { IsValue (length left.now) v }
    requires right { IsValue (length right.now) w }
    ensures { IfOk result (λ same. IsTrue same ↔ Isomorphism left.now v right.now w) }
{
    if !pairing.meet_values(v, w)? {
        return Ok(false);
    }
    let mut i = 0;
    while i < pairing.len() {
        let (k, l) = pairing.pair(i);
        if !meet_contents(pairing, left, k, right, l)? {
            return Ok(false);
        }
        i += 1;
    }
    Ok(true)
}

// Pairs the objects to which objects `k` and `l` refer. Returns true if objects `k` and `l` agree
// under the new pairs.
fn meet_contents(
    pairing: &mut Pairing,
    left: &Heap,
    k: u64,
    right: &Heap,
    l: u64,
) -> Result<bool, Memory>
    requires lefts { pairing.old.lefts ≡ length left.now }
    requires rights { pairing.old.rights ≡ length right.now }
    requires left { k < length left.now }
    requires right { l < length right.now }
    ensures meets { Meets pairing.old.pairs pairing.new.pairs
        (λ pairs. AgreeObjects pairs (object_at left.now k) (object_at right.now l)) result }
    ensures lefts { pairing.new.lefts ≡ pairing.old.lefts }
    ensures rights { pairing.new.rights ≡ pairing.old.rights }
{
    let kind = left.kind(k);
    let other = right.kind(l);
    if !same_kind(kind, other) {
        return Ok(false);
    }
    match kind {
        Kind::Block(_, n) => meet_fields(pairing, left, k, right, l, n),
        Kind::Bytes(n) => Ok(same_bytes(left, k, right, l, n)),
        Kind::Double => Ok(same_doubles(left, k, right, l, 1)),
        Kind::Doubles(n) => Ok(same_doubles(left, k, right, l, n)),
        Kind::Custom(_) => Ok(true),
    }
}

// Pairs the objects to which the fields of two blocks with `n` fields refer. Returns true if the
// fields agree under the new pairs.
fn meet_fields(
    pairing: &mut Pairing,
    left: &Heap,
    k: u64,
    right: &Heap,
    l: u64,
    n: u64,
) -> Result<bool, Memory>
    requires lefts { pairing.old.lefts ≡ length left.now }
    requires rights { pairing.old.rights ≡ length right.now }
    requires left { n ≡ length (fields_of (object_at left.now k)) }
    requires right { n ≡ length (fields_of (object_at right.now l)) }
    ensures meets { Meets pairing.old.pairs pairing.new.pairs
        (λ pairs. AllZip (Agree pairs)
        (fields_of (object_at left.now k)) (fields_of (object_at right.now l))) result }
    ensures lefts { pairing.new.lefts ≡ pairing.old.lefts }
    ensures rights { pairing.new.rights ≡ pairing.old.rights }
{
    for i in 0..n {
        if !pairing.meet_values(left.field(k, i), right.field(l, i))? {
            return Ok(false);
        }
    }
    Ok(true)
}
