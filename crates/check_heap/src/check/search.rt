//! Breadth-first search of the heap. The search visits each object once at each class of types, and
//! tests the fields that the object's type requires.

ghost use Rattle.std.specs.Prelude.{ℕ, ◌≡◌, ◌≢◌, ◌<◌, ◌≤◌, ◌+◌, ◌%◌, ◌↔◌, length, All, IfOk, OnOk};
ghost use Rattle.std.specs.Prelude.{IsTrue, Some, slice_get};
ghost use Rattle.std.specs.Bool.{OnTrue};
ghost use Rattle.base_data.specs.declared.model.value.Val.{Val};
ghost use Rattle.base_data.specs.declared.model.value.Val.TheVariants as vals;
ghost use Rattle.marshal_heap.specs.heap.Heap.{object_at, fields_of, field_at, word_of};
ghost use Rattle.marshal_heap.specs.heap.Heap.{IsReferenceWord};
ghost use Rattle.types_spec.specs.types.Table.{table_shapes};
ghost use Rattle.check_heap.specs.fits.Needs.{needs_in};
ghost use Rattle.types_spec.specs.types.StepBounds.{most_steps};
ghost use Rattle.types_table.specs.type_table.Made.{table_of};
ghost use Rattle.check_heap.specs.scan.TypeRows.{table_in};
ghost use Rattle.check_heap.specs.scan.TakenObjects.{types_in, seen_of, size_of, rest_of};
ghost use Rattle.check_heap.specs.scan.Scanned as scans;
ghost use Rattle.check_heap.specs.scan.Scanned.{AreTaken, IsSeen, IsSeenObject, left_of};
ghost use Rattle.check_heap.specs.check.Visits.{listed, AreLinked};
ghost use Rattle.check_heap.specs.check.Explored.{IsExplored};
ghost use Rattle.check_heap.specs.check.Search.{FitAll, TestsNeed, TestsVisit, SearchesVisits};
ghost use Rattle.check_heap.specs.check.Search.{AreSeen};
ghost use Rattle.check_heap.specs.check.Search.{cost_at};
ghost use Rattle.check_heap.specs.check.Search.{is_taken, visit_fields};

use crate::check::visits::{Visit, Visits, is_at};
use crate::fits::{Needs, is_asked, known_needs};
use crate::scan::{Fitting, Steps, TakenObjects, fits_type};
use base_data::model::Memory;
use base_data::model::value::Val;
use marshal_heap::heap::Heap;
use types_table::type_table::TypeTable;

/// A required field: field `step` of the object must have the type. `parent` is the index of the
/// object's visit.
#[derive(Clone, Copy)]
pub struct RequiredField {
    pub parent: usize,
    pub object: u64,
    pub step: u64,
    pub ty: usize,
}

/// Tests the required fields of each visit, and adds a visit for each new object. Returns the first
/// mismatch: the index of a visit, and the number of the field that does not match. A field that a
/// scan has tested was counted by the scan, and is not tested again.
pub fn search(
    heap: &Heap,
    fitting: Fitting<'_>,
    visits: &mut Visits,
    taken: &TakenObjects,
    steps: &mut Steps,
) -> Result<Option<(usize, u64)>, Memory>
    requires linked { AreLinked (table_in fitting) (length heap.now) visits.old }
    requires explored { IsExplored (table_in fitting) heap.now (listed visits.old) 0 0 }
    requires taken { AreTaken (table_in fitting) heap.now taken.now }
    ensures linked { OnOk result (AreLinked (table_in fitting.entry) (length heap.now) visits.new) }
    ensures searches { IfOk result
        (SearchesVisits (table_in fitting.entry) heap.now (listed visits.old) (listed visits.new)) }
    ensures steps { steps.new + scans.cost_of heap.now (types_in taken.now) + 1
        ≤ steps.old + left_of heap.now taken.now + most_steps (table_in fitting.entry) heap.now }
{
    fitting.table.holds();
    let mut n = 0;
    while visits.has(n) {
        if let Some(step) = test_visit(heap, fitting, visits, taken, n, steps)? {
            return Ok(Some((n, step)));
        }
        n += 1;
    }
    Ok(None)
}

/// Tests the required fields of visit `n`. Returns the number of the first field that does not
/// match.
fn test_visit(
    heap: &Heap,
    fitting: Fitting<'_>,
    visits: &mut Visits,
    taken: &TakenObjects,
    n: usize,
    steps: &mut Steps,
) -> Result<Option<u64>, Memory>
    requires in_range { n < length (listed visits.old) }
    requires linked { AreLinked (table_in fitting) (length heap.now) visits.old }
    requires explored { IsExplored (table_in fitting) heap.now (listed visits.old) n 0 }
    requires taken { AreTaken (table_in fitting) heap.now taken.now }
    ensures linked { OnOk result (AreLinked (table_in fitting.entry) (length heap.now) visits.new) }
    ensures tests { IfOk result
        (TestsVisit (table_in fitting.entry) heap.now (listed visits.old) (listed visits.new) n) }
    ensures steps { steps.new
        ≤ steps.old + cost_at (table_in fitting.entry) heap.now taken.now (listed visits.old) n }
{
    fitting.table.holds();
    let visit = visits.get(n);
    if was_taken(fitting.table, taken, visit) {
        return take_seen(heap, fitting, visits, taken, n, visit, steps);
    }
    steps.raise();
    take_visit(heap, fitting, visits, taken, n, visit, 0, steps)
}

/// Returns true if a scan has checked the visit's object at an equal type.
#[inline(always)]
fn was_taken(table: &TypeTable, taken: &TakenObjects, visit: Visit) -> bool
    requires ty { visit.ty < length table.now.classes }
    requires types { (o t : ℕ) → slice_get (types_in taken.now) o ≡ Some t
        → t < length table.now.classes }
    ensures { result ≡ is_taken (table_of table.now) taken.now visit }
{
    match taken.type_of(visit.object as usize) {
        Some(ty) => table.class(ty) == table.class(visit.ty),
        None => false,
    }
}

/// Tests the required fields of visit `n`, whose object a scan has checked at an equal type.
#[inline(never)]
fn take_seen(
    heap: &Heap,
    fitting: Fitting<'_>,
    visits: &mut Visits,
    taken: &TakenObjects,
    n: usize,
    visit: Visit,
    steps: &mut Steps,
) -> Result<Option<u64>, Memory>
    requires visit { slice_get (listed visits.old) n ≡ Some visit }
    requires linked { AreLinked (table_in fitting) (length heap.now) visits.old }
    requires explored { IsExplored (table_in fitting) heap.now (listed visits.old) n 0 }
    requires taken { AreTaken (table_in fitting) heap.now taken.now }
    requires equal { IsTrue (is_taken (table_in fitting) taken.now visit) }
    ensures linked { OnOk result (AreLinked (table_in fitting.entry) (length heap.now) visits.new) }
    ensures tests { IfOk result
        (TestsVisit (table_in fitting.entry) heap.now (listed visits.old) (listed visits.new) n) }
    ensures steps { steps.new
        ≤ steps.old + rest_of (size_of heap.now visit.object) (seen_of taken.now visit.object) }
{
    fitting.table.holds();
    let seen = taken.seen_of(visit.object);
    take_visit(heap, fitting, visits, taken, n, visit, seen, steps)
}

/// Tests the required fields of visit `n`, in one step for each field. A scan has already tested
/// the fields below number `seen`.
#[inline(always)]
fn take_visit(
    heap: &Heap,
    fitting: Fitting<'_>,
    visits: &mut Visits,
    taken: &TakenObjects,
    n: usize,
    visit: Visit,
    seen: u64,
    steps: &mut Steps,
) -> Result<Option<u64>, Memory>
    requires visit { slice_get (listed visits.old) n ≡ Some visit }
    requires linked { AreLinked (table_in fitting) (length heap.now) visits.old }
    requires explored { IsExplored (table_in fitting) heap.now (listed visits.old) n 0 }
    requires taken { AreTaken (table_in fitting) heap.now taken.now }
    requires seen { AreSeen (table_in fitting) heap.now taken.now visit seen }
    ensures linked { OnOk result (AreLinked (table_in fitting.entry) (length heap.now) visits.new) }
    ensures tests { IfOk result
        (TestsVisit (table_in fitting.entry) heap.now (listed visits.old) (listed visits.new) n) }
    ensures steps { steps.new ≤ steps.old + rest_of (size_of heap.now visit.object) seen }
{
    let Some(needs) = known_needs(heap, visit.object, fitting.table.shape(visit.ty)) else {
        return Ok(None);
    };
    match needs {
        Needs::Listed(types) => {
            test_needs(
                heap,
                fitting,
                visits,
                taken,
                n,
                visit,
                Needs::Listed(types),
                seen,
                steps,
            )
        }
        _ => { test_needs(heap, fitting, visits, taken, n, visit, needs, seen, steps) }
    }
}

/// Tests the required fields in `needs` of visit `n`. The compiler generates separate code for each
/// form of the list of fields.
#[inline(always)]
fn test_needs(
    heap: &Heap,
    fitting: Fitting<'_>,
    visits: &mut Visits,
    taken: &TakenObjects,
    n: usize,
    visit: Visit,
    needs: Needs<'_>,
    seen: u64,
    steps: &mut Steps,
) -> Result<Option<u64>, Memory>
    requires visit { slice_get (listed visits.old) n ≡ Some visit }
    requires needs { visit_fields (table_in fitting) heap.now visit ≡ needs_in needs }
    requires linked { AreLinked (table_in fitting) (length heap.now) visits.old }
    requires explored { IsExplored (table_in fitting) heap.now (listed visits.old) n 0 }
    requires taken { AreTaken (table_in fitting) heap.now taken.now }
    requires seen { AreSeen (table_in fitting) heap.now taken.now visit seen }
    ensures linked { OnOk result (AreLinked (table_in fitting.entry) (length heap.now) visits.new) }
    ensures tests { IfOk result
        (TestsVisit (table_in fitting.entry) heap.now (listed visits.old) (listed visits.new) n) }
    ensures steps { steps.new ≤ steps.old + rest_of (size_of heap.now visit.object) seen }
{
    fitting.table.holds();
    if needs.len() == 0 {
        return Ok(None);
    }
    let words = heap.fields(visit.object);
    let mut next = visit.object.wrapping_add(1);
    for k in 0..needs.len() {
        let (step, ty) = needs.get(k);
        if !is_asked(fitting.table.shape(ty)) {
            continue;
        }
        let need = RequiredField {
            parent: n,
            object: visit.object,
            step,
            ty,
        };
        if !take_need(
            heap,
            fitting,
            visits,
            taken,
            need,
            words[step as usize],
            seen,
            &mut next,
            steps,
        )? {
            return Ok(Some(step));
        }
    }
    Ok(None)
}

/// Tests a required field, and counts a step if no scan has tested it.
#[inline(always)]
fn take_need(
    heap: &Heap,
    fitting: Fitting<'_>,
    visits: &mut Visits,
    taken: &TakenObjects,
    need: RequiredField,
    word: u64,
    seen: u64,
    next: &mut u64,
    steps: &mut Steps,
) -> Result<bool, Memory>
    requires object { need.object < length heap.now }
    requires field { need.step < length (fields_of (object_at heap.now need.object)) }
    requires word { word ≡ word_of heap.now (field_at heap.now need.object need.step) }
    requires node { need.ty < length fitting.table.now.nodes }
    requires class { need.ty < length fitting.table.now.classes }
    requires types { All (λ visit. visit.ty < length fitting.table.now.classes)
        (listed visits.old) }
    requires linked { AreLinked (table_in fitting) (length heap.now) visits.old }
    requires fit { FitAll (table_in fitting) heap.now (listed visits.old) }
    requires taken { AreTaken (table_in fitting) heap.now taken.now }
    requires seen { need.step < seen
        → IsSeen (table_in fitting) heap.now taken.now need.object need.step
        (field_at heap.now need.object need.step) need.ty }
    ensures linked { OnOk result (AreLinked (table_in fitting.entry) (length heap.now) visits.new) }
    ensures tests { IfOk result
        (TestsNeed (table_in fitting.entry) heap.now (listed visits.old) (listed visits.new) need) }
    ensures steps { steps.new ≤ steps.old + 1 }
    ensures counted { need.step < seen → steps.new ≡ steps.old }
{
    if need.step < seen {
        return test_need(heap, fitting, visits, taken, need, word, true, next);
    }
    steps.raise();
    test_need(heap, fitting, visits, taken, need, word, false, next)
}

/// Tests a required field that contains the word `word`, and adds a visit if the field's object is
/// new. The object is often `next`, which the function sets to the number after the object. What a
/// scan has already tested is not tested again.
#[inline(always)]
fn test_need(
    heap: &Heap,
    fitting: Fitting<'_>,
    visits: &mut Visits,
    taken: &TakenObjects,
    need: RequiredField,
    word: u64,
    seen: bool,
    next: &mut u64,
) -> Result<bool, Memory>
    requires object { need.object < length heap.now }
    requires field { need.step < length (fields_of (object_at heap.now need.object)) }
    requires word { word ≡ word_of heap.now (field_at heap.now need.object need.step) }
    requires node { need.ty < length fitting.table.now.nodes }
    requires class { need.ty < length fitting.table.now.classes }
    requires types { All (λ visit. visit.ty < length fitting.table.now.classes)
        (listed visits.old) }
    requires linked { AreLinked (table_in fitting) (length heap.now) visits.old }
    requires fit { FitAll (table_in fitting) heap.now (listed visits.old) }
    requires taken { AreTaken (table_in fitting) heap.now taken.now }
    requires seen { OnTrue seen
        (IsSeen (table_in fitting) heap.now taken.now need.object need.step
        (field_at heap.now need.object need.step) need.ty) }
    ensures linked { OnOk result (AreLinked (table_in fitting.entry) (length heap.now) visits.new) }
    ensures tests { IfOk result
        (TestsNeed (table_in fitting.entry) heap.now (listed visits.old) (listed visits.new) need) }
{
    let _count = heap.count();
    if word % 8 != 0 {
        return Ok(value_fits(heap, fitting, taken, need, word, seen));
    }
    let object = number_near(heap, *next, word);
    *next = object.wrapping_add(1);
    let first = visits.first_at(object);
    if is_at(first, need.ty) {
        return Ok(true);
    }
    if !object_fits(heap, fitting, taken, object, need.ty, word, seen) {
        return Ok(false);
    }
    visits.enter(
        fitting.table,
        object,
        need.ty,
        need.parent,
        need.step,
        first,
    )?;
    Ok(true)
}

/// Returns true if the value of a required field matches the field's type. The value is no object
/// and has the word `word`. If a scan has tested the field, the result of the scan is used.
#[inline(always)]
fn value_fits(
    heap: &Heap,
    fitting: Fitting<'_>,
    taken: &TakenObjects,
    need: RequiredField,
    word: u64,
    seen: bool,
) -> bool
    requires object { need.object < length heap.now }
    requires field { need.step < length (fields_of (object_at heap.now need.object)) }
    requires word { word ≡ word_of heap.now (field_at heap.now need.object need.step) }
    requires value { word % 8 ≢ 0 }
    requires node { need.ty < length fitting.table.now.nodes }
    requires seen { OnTrue seen
        (IsSeen (table_in fitting) heap.now taken.now need.object need.step
        (field_at heap.now need.object need.step) need.ty) }
    ensures { IsTrue result
        ↔ (table_shapes (table_in fitting.entry)).fits heap.now
        (field_at heap.now need.object need.step) need.ty }
{
    let _count = heap.count();
    if seen {
        return !taken.is_unfit_field(need.object, need.step);
    }
    fits_type(heap, fitting, need.ty, word)
}

/// Returns true if an object, given with its word, matches the type's representation. If a scan has
/// checked the object at an equal type or found a mismatch, the result is known from the scan.
#[inline(always)]
fn object_fits(
    heap: &Heap,
    fitting: Fitting<'_>,
    taken: &TakenObjects,
    object: u64,
    ty: usize,
    word: u64,
    seen: bool,
) -> bool
    requires object { object < length heap.now }
    requires word { word ≡ word_of heap.now (vals.Ref object) }
    requires node { ty < length fitting.table.now.nodes }
    requires taken { AreTaken (table_in fitting) heap.now taken.now }
    requires seen { OnTrue seen (IsSeenObject (table_in fitting) heap.now taken.now object ty) }
    ensures { IsTrue result
        ↔ (table_shapes (table_in fitting.entry)).fits heap.now (vals.Ref object) ty }
{
    fitting.table.holds();
    if seen {
        if let Some(_) = taken.type_of(object as usize) {
            return true;
        }
        if taken.is_unfit_object(object) {
            return false;
        }
    }
    fits_type(heap, fitting, ty, word)
}

/// Returns the number of the object to which a reference's word refers. The number is often
/// `guess`.
#[inline(always)]
fn number_near(heap: &Heap, guess: u64, word: u64) -> u64
    requires { IsReferenceWord heap.now word }
    ensures in_range { result < length heap.now }
    ensures named { word ≡ word_of heap.now (vals.Ref result) }
{
    if guess < heap.count() && heap.word(Val::Ref(guess)) == word {
        guess
    } else {
        heap.number(word)
    }
}
