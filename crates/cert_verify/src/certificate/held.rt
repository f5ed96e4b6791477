//! Finds the pairs of an object, and the types of these pairs.

ghost use Rattle.std.specs.Prelude.{ℕ, ◌≡◌, ◌<◌, ◌≤◌, ◌+◌, ◌↔◌, length, slice_get, Some, IsTrue};
ghost use Rattle.std.specs.Prelude.{IfOk};
ghost use Rattle.std.specs.Bool.{OnTrue};
ghost use Rattle.base_data.specs.model.Graph.{IsValue};
ghost use Rattle.base_data.specs.declared.model.value.Val.{Val};
ghost use Rattle.types_spec.specs.types.Table.{table_shapes};
ghost use Rattle.types_spec.specs.types.Typing.{IsHeld};
ghost use Rattle.types_table.specs.type_table.Made.{table_of};
ghost use Rattle.marshal_heap.specs.heap.Heap.{word_of, IsFieldWord};
ghost use Rattle.check_heap.specs.scan.TypeRows.{table_in};
ghost use Rattle.cert_verify.specs.certificate.Testing.{IsStart, IsPassing, IsSame, IsFrequent};
ghost use Rattle.cert_verify.specs.certificate.Testing.{IsAmongAt, IsSettled};
ghost use Rattle.cert_verify.specs.certificate.Testing.{IsElsewhere};

use crate::certificate::stated_pairs::StatedPairs;
use base_data::model::Memory;
use base_data::model::value::Val;
use cert_format::CertificatePairs;
use check_heap::scan::fits_type;
use std::alloc::Global;
use std::collections::BTreeSet;
use types_table::type_table::TypeTable;

/// Returns true only if the first pair of the object is at the index equal to the object number.
/// That is so if each earlier object has one pair.
fn is_own_position(pairs: &CertificatePairs, object: u64) -> bool
    ensures { OnTrue result (IsStart pairs.now object object) }
{
    let many = pairs.len();
    let position = object as usize;
    if position >= many {
        return false;
    }
    let (own, _) = pairs.at(position);
    if own != object {
        return false;
    }
    if position == 0 {
        return true;
    }
    let (before, _) = pairs.at(position - 1);
    before < object
}

/// Returns the index of the first pair whose object is not less than `object`.
fn start_of(pairs: &CertificatePairs, object: u64) -> usize
    ensures { IsStart pairs.now object result }
{
    if is_own_position(pairs, object) {
        return object as usize;
    }
    let many = pairs.len();
    let mut low = 0;
    let mut high = many;
    while low < high {
        let middle = low + (high - low) / 2;
        let (own, _) = pairs.at(middle);
        if own < object {
            low = middle + 1;
        } else {
            high = middle;
        }
    }
    low
}

/// Returns the object and the class of the type of each pair that is preceded by 16 pairs of its
/// object.
pub fn frequent_of(
    alloc: Global,
    table: &TypeTable,
    pairs: &CertificatePairs,
) -> Result<BTreeSet<(u64, usize)>, Memory>
    requires there { (k o t : ℕ) → slice_get pairs.now k ≡ Some (o, t)
        → t < length table.now.classes }
    ensures { IfOk result (IsFrequent (table_of table.now) pairs.now) }
{
    let mut frequent = BTreeSet::new(alloc);
    for i in 16..pairs.len() {
        let (object, ty) = pairs.at(i);
        let (before, _) = pairs.at(i - 16);
        if before == object {
            frequent.insert((object, table.class(ty as usize)))?;
        }
    }
    Ok(frequent)
}

/// Returns the index 16 after `start`, or `len` if there are fewer than 16 pairs from `start` on.
fn few_end(len: usize, start: usize) -> usize
    requires { start ≤ len }
    ensures within { result ≤ len }
    ensures far { result < len → start + 16 ≤ result }
{
    if len - start > 16 { start + 16 } else { len }
}

/// Returns true only if one of the first 16 pairs of the object is at an equal type. If the result
/// is false, a later pair of the object may be at an equal type.
#[inline(never)]
pub fn is_among_few(table: &TypeTable, pairs: &CertificatePairs, object: u64, ty: usize) -> bool
    requires there { (k o t : ℕ) → slice_get pairs.now k ≡ Some (o, t)
        → t < length table.now.classes }
    requires ty { ty < length table.now.classes }
    ensures { OnTrue result (IsAmongAt (table_of table.now) pairs.now object ty) }
{
    let class = table.class(ty);
    let start = start_of(pairs, object);
    for at in start..few_end(pairs.len(), start) {
        let (own, number) = pairs.at(at);
        if own == object && table.class(number as usize) == class {
            return true;
        }
    }
    false
}

/// Returns true if some pair has the object at an equal type. The pair is one of the first 16 pairs
/// of the object, or its object and class are in `frequent`.
pub fn is_among(
    table: &TypeTable,
    pairs: &CertificatePairs,
    frequent: &BTreeSet<(u64, usize)>,
    object: u64,
    ty: usize,
) -> bool
    requires there { (k o t : ℕ) → slice_get pairs.now k ≡ Some (o, t)
        → t < length table.now.classes }
    requires frequent { IsFrequent (table_of table.now) pairs.now frequent.now }
    requires ty { ty < length table.now.classes }
    ensures { IsTrue result ↔ IsAmongAt (table_of table.now) pairs.now object ty }
{
    let class = table.class(ty);
    let start = start_of(pairs, object);
    let many = pairs.len();
    let end = few_end(many, start);
    let mut at = start;
    while at < end {
        let (own, number) = pairs.at(at);
        if own != object {
            return false;
        }
        if table.class(number as usize) == class {
            return true;
        }
        at += 1;
    }
    frequent.contains(&(object, class))
}

/// Returns true if some pair has the object of pair `i` at an unequal type. If the pair before pair
/// `i` has the same object, the type of the pair before decides.
pub fn is_elsewhere(
    table: &TypeTable,
    pairs: &CertificatePairs,
    i: usize,
    object: u64,
    ty: usize,
) -> bool
    requires in_range { i < length pairs.now }
    requires at { slice_get pairs.now i ≡ Some (object, ty) }
    requires there { (k o t : ℕ) → slice_get pairs.now k ≡ Some (o, t)
        → t < length table.now.classes }
    requires settled { IsSettled (table_of table.now) pairs.now i }
    ensures { IsTrue result ↔ IsElsewhere (table_of table.now) pairs.now object ty }
{
    let _many = pairs.len();
    let class = table.class(ty);
    if i > 0 {
        let (before, number) = pairs.at(i - 1);
        if before == object {
            return table.class(number as usize) != class;
        }
    }
    is_elsewhere_behind(table, pairs, i + 1, object, ty)
}

/// Returns true if some pair has the object at an unequal type, given that the object's pairs
/// before `start` are at equal types.
pub fn is_elsewhere_behind(
    table: &TypeTable,
    pairs: &CertificatePairs,
    start: usize,
    object: u64,
    ty: usize,
) -> bool
    requires there { (k o t : ℕ) → slice_get pairs.now k ≡ Some (o, t)
        → t < length table.now.classes }
    requires ty { ty < length table.now.classes }
    requires passing { IsPassing pairs.now object start (λ u. ¬ IsSame (table_of table.now) ty u) }
    ensures { IsTrue result ↔ IsElsewhere (table_of table.now) pairs.now object ty }
{
    let class = table.class(ty);
    let many = pairs.len();
    let mut at = start;
    while at < many {
        let (own, number) = pairs.at(at);
        if own != object {
            return false;
        }
        if table.class(number as usize) != class {
            return true;
        }
        at += 1;
    }
    false
}

/// Returns true if the value of a word is held at a type. A held value fits the type. If a held
/// value is a reference, some pair has the referenced object at an equal type.
pub fn is_held(
    stated: StatedPairs<'_>,
    frequent: &BTreeSet<(u64, usize)>,
    word: u64,
    ty: usize,
) -> bool
    requires word { IsFieldWord stated.heap.now word }
    requires frequent { IsFrequent (table_in stated.fitting) stated.pairs.now frequent.now }
    requires ty { ty < length stated.fitting.table.now.nodes }
    ensures { (v : Val) → IsValue (length stated.entry.heap.now) v → word ≡ word_of
        stated.entry.heap.now v → IsTrue result ↔ IsHeld (table_shapes (table_in
        stated.entry.fitting)) stated.entry.heap.now stated.entry.pairs.now v ty }
{
    stated.fitting.table.holds();
    let _count = stated.heap.count();
    if !fits_type(stated.heap, stated.fitting, ty, word) {
        return false;
    }
    if word % 8 != 0 {
        return true;
    }
    let object = stated.heap.number(word);
    is_among(stated.fitting.table, stated.pairs, frequent, object, ty)
}
