//! Settles the objects that a scan recorded at second classes of types: tests the fields that each
//! object requires at its second type.

ghost use Rattle.std.specs.Prelude.{ℕ, ◌≡◌, ◌<◌, ◌≤◌, ◌+◌, length, Some, slice_get, IfOk, IfSome};
ghost use Rattle.std.specs.Prelude.{IsTrue};
ghost use Rattle.std.specs.Bool.{OnTrue};
ghost use Rattle.base_data.specs.declared.model.value.Val.TheVariants as vals;
ghost use Rattle.marshal_heap.specs.heap.Heap.{field_at, word_of};
ghost use Rattle.types_spec.specs.types.Table.{is_asked_in};
ghost use Rattle.check_heap.specs.fits.Needs.{needs_in};
ghost use Rattle.check_heap.specs.scan.TypeRows.{table_in};
ghost use Rattle.check_heap.specs.scan.Paths.{HasPath};
ghost use Rattle.check_heap.specs.scan.Seconds.{noted_in};
ghost use Rattle.check_heap.specs.scan.TakenObjects.{size_of};
ghost use Rattle.check_heap.specs.scan.Scanned.{object_typed};
ghost use Rattle.check_heap.specs.check.Settled.{AreOver, IsSettling, FindsValue, FindsNeeds};
ghost use Rattle.check_heap.specs.check.Settled.{Settles};
ghost use Rattle.check_heap.specs.check.Settled.{IsSettled, cost_of_pairs};

use crate::fits::{Needs, is_asked, is_mutable, known_needs};
use crate::scan::{Cells, Fitting, SecondTypes, Steps, fits_type};
use base_data::model::Memory;
use base_data::model::value::Val;
use marshal_heap::heap::Heap;

/// Tests the required fields of each recorded object at the recorded type, and records the objects
/// that the fields reach at a new class. Returns all recorded objects. Returns `None` in three
/// cases:
///
/// - A field or an object does not match.
/// - An object is mutable at one of its types.
/// - More than `most` steps were taken before a pair.
///
/// Fails with `Memory` if memory runs out.
pub fn settle(
    heap: &Heap,
    fitting: Fitting<'_>,
    types: &Cells,
    mut seconds: SecondTypes,
    most: u64,
    steps: &mut Steps,
) -> Result<Option<SecondTypes>, Memory>
    requires over { AreOver (table_in fitting) heap.now types.now seconds }
    ensures settled { IfOk result
        (λ settled. IfSome settled (IsSettled (table_in fitting.entry) heap.now types.now)) }
    ensures steps { IfOk result
        (λ settled. IfSome settled
        (λ all. steps.new ≤ steps.old + cost_of_pairs heap.now (noted_in all))) }
{
    let mut n = 0;
    while n < seconds.len() {
        if steps.taken() > most {
            return Ok(None);
        }
        if !settle_pair(heap, fitting, types, &mut seconds, n, steps)? {
            return Ok(None);
        }
        n += 1;
    }
    Ok(Some(seconds))
}

/// Settles pair `n`. Counts one step for the pair and one for each field that has a type.
fn settle_pair(
    heap: &Heap,
    fitting: Fitting<'_>,
    types: &Cells,
    seconds: &mut SecondTypes,
    n: usize,
    steps: &mut Steps,
) -> Result<bool, Memory>
    requires in_range { n < length (noted_in seconds.old) }
    requires settling { IsSettling (table_in fitting) heap.now types.now seconds.old n }
    ensures settles { IfOk result
        (λ met. OnTrue met
        (Settles (table_in fitting.entry) heap.now types.now seconds.old seconds.new n)) }
    ensures steps { (o t : ℕ) → slice_get (noted_in seconds.old) n ≡ Some (o, t)
        → steps.new ≤ steps.old + (1 + size_of heap.now o) }
{
    let (object, ty) = seconds.get(n);
    let word = heap.word(Val::Ref(object));
    if !fits_type(heap, fitting, ty, word) {
        return Ok(false);
    }
    if is_mutable(heap, object, fitting.table.shape(ty)) {
        return Ok(false);
    }
    let first = types.get(object as usize) as usize;
    if is_mutable(heap, object, fitting.table.shape(first)) {
        return Ok(false);
    }
    let Some(needs) = known_needs(heap, object, fitting.table.shape(ty)) else {
        return Ok(false);
    };
    if !settle_needs(heap, fitting, types, seconds, object, ty, needs)? {
        return Ok(false);
    }
    steps.raise();
    steps.raise_by(needs.len());
    Ok(true)
}

/// Tests the required fields of an object at a type.
fn settle_needs(
    heap: &Heap,
    fitting: Fitting<'_>,
    types: &Cells,
    seconds: &mut SecondTypes,
    object: u64,
    ty: usize,
    needs: Needs<'_>,
) -> Result<bool, Memory>
    requires object { object < length heap.now }
    requires node { ty < length fitting.table.now.nodes }
    requires needs { object_typed (table_in fitting) heap.now object ty ≡ needs_in needs }
    requires over { AreOver (table_in fitting) heap.now types.now seconds.old }
    requires path { HasPath (table_in fitting) heap.now (vals.Ref 0) object ty }
    ensures finds { IfOk result
        (λ met. OnTrue met
        (FindsNeeds (table_in fitting.entry) heap.now types.now seconds.old seconds.new object ty
        (length (object_typed (table_in fitting.entry) heap.now object ty)))) }
{
    fitting.table.holds();
    if needs.len() == 0 {
        return Ok(true);
    }
    let words = heap.fields(object);
    for k in 0..needs.len() {
        let (field, needed) = needs.get(k);
        if !is_asked(fitting.table.shape(needed)) {
            continue;
        }
        let word = words[field as usize];
        if !settle_need(
            heap, fitting, types, seconds, object, ty, k, field, word, needed,
        )? {
            return Ok(false);
        }
    }
    Ok(true)
}

/// Tests required field `position` of an object at a type. The field contains the word `word`.
#[inline(always)]
fn settle_need(
    heap: &Heap,
    fitting: Fitting<'_>,
    types: &Cells,
    seconds: &mut SecondTypes,
    _object: u64,
    _ty: usize,
    _position: u64,
    _field: u64,
    word: u64,
    needed: usize,
) -> Result<bool, Memory>
    requires object { _object < length heap.now }
    requires node { _ty < length fitting.table.now.nodes }
    requires need { slice_get (object_typed (table_in fitting) heap.now _object _ty) _position
        ≡ Some (_field, needed) }
    requires asked { IsTrue (is_asked_in (table_in fitting) needed) }
    requires word { word ≡ word_of heap.now (field_at heap.now _object _field) }
    requires over { AreOver (table_in fitting) heap.now types.now seconds.old }
    requires path { HasPath (table_in fitting) heap.now (vals.Ref 0) _object _ty }
    ensures finds { IfOk result
        (λ met. OnTrue met
        (FindsValue (table_in fitting.entry) heap.now types.now seconds.old seconds.new
        (field_at heap.now _object _field) needed)) }
{
    fitting.table.holds();
    let count = heap.count();
    if word % 8 != 0 {
        return Ok(fits_type(heap, fitting, needed, word));
    }
    let object = heap.number(word);
    let first = types.get(object as usize) as usize;
    if fitting.table.class(first) == fitting.table.class(needed) {
        return Ok(true);
    }
    seconds.note(fitting.table, count as usize, object, needed)?;
    Ok(true)
}
