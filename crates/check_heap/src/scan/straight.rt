//! The scan over the objects in the order of their numbers.

ghost use Rattle.std.specs.Prelude.{ℕ, ◌≡◌, ◌≢◌, ◌<◌, ◌≤◌, ◌+◌, ◌%◌, ◌^◌, ◌↔◌, [], length, take};
ghost use Rattle.std.specs.Prelude.{slice_get, IsTrue, Some, Ok, IfOk, IfSome, OnOk, MatchOption};
ghost use Rattle.std.specs.Bool.{OnTrue, OnFalse};
ghost use Rattle.base_data.specs.model.Graph.{IsValue};
ghost use Rattle.base_data.specs.declared.model.value.Val.{Val};
ghost use Rattle.base_data.specs.declared.model.value.Val.TheVariants as vals;
ghost use Rattle.marshal_heap.specs.heap.Heap.{word_of, field_at, IsFieldWord, IsReferenceWord};
ghost use Rattle.types_spec.specs.types.Table.{table_shapes, is_asked_in};
ghost use Rattle.check_heap.specs.fits.Needs.{needs_in};
ghost use Rattle.types_table.specs.type_table.Made.{table_of};
ghost use Rattle.check_heap.specs.scan.TypeRows.{table_in};
ghost use Rattle.check_heap.specs.scan.TakenObjects.{types_in};
ghost use Rattle.check_heap.specs.scan.Paths.{HasPath, IsWildcard, IsLed, HavePaths};
ghost use Rattle.check_heap.specs.scan.Scanned.{object_typed, Reports, AreTaken, AreCounted};
ghost use Rattle.check_heap.specs.scan.Scanned.{cost_of};
ghost use Rattle.check_heap.specs.scan.Scanned.{left_of};
ghost use Rattle.check_heap.specs.scan.Seconds.{noted_in, AreSeconds};
ghost use Rattle.check_heap.specs.scan.Scan.{mark_of, AreMarks, AreKept, IsMet, IsOther, AreMet};
ghost use Rattle.check_heap.specs.scan.Scan.{IsUnmet};
ghost use Rattle.check_heap.specs.scan.Scan.{AreNoted, AreStillNoted, IsNotedAt, first_or};
ghost use Rattle.check_heap.specs.scan.Scan.{first_of};
ghost use Rattle.check_heap.specs.scan.Scan.{Continues, IsUnfit, IsWhole, IsKnownIn, IsInRow};
ghost use Rattle.check_heap.specs.scan.Scan.{IsStoppedAt};
ghost use Rattle.check_heap.specs.scan.Scan.{IsGoing, IsStopped, IsScanning, Stops, IsTried};
ghost use Rattle.check_heap.specs.declared.scan.straight.ScanStop.TheVariants as stops;

use crate::fits::{Needs, is_asked, known_needs};
use crate::scan::fitting::fits_type;
use crate::scan::listed_objects::{listed_types, needs_nothing};
use crate::scan::notes::{First, Notes, Unmet};
use crate::scan::number_cells::Cells;
use crate::scan::second_types::SecondTypes;
use crate::scan::skipped_type::wildcard_type;
use crate::scan::step_counter::Steps;
use crate::scan::taken_objects::{ScanMismatch, TakenObjects};
use crate::scan::type_rows::Fitting;
use base_data::model::Memory;
use base_data::model::value::Val;
use marshal_heap::heap::Heap;
use std::alloc::Global;
use types_table::type_table::TypeTable;

/// The result of a scan.
#[derive(Drop)]
pub enum Scanned {
    /// The type of each object.
    Known(Cells),
    /// The type of each object, together with the objects that were referenced at other types too.
    Noted(Noted),
    /// The objects checked before the scan ended without a result.
    Stopped(TakenObjects),
}

/// The result of a scan that found objects referenced at a second class.
#[derive(Drop)]
pub struct Noted {
    /// The type of each object, and the objects that the scan had checked when the scan first found
    /// an object referenced at a second class.
    pub taken: TakenObjects,
    /// The pairs of an object and a type other than the object's first type.
    pub seconds: SecondTypes,
    /// The number of steps before the first object referenced at a second class was found.
    pub before: u64,
    /// The number of steps of the whole scan.
    pub all: u64,
}

/// The reason why the scan ends at an object.
#[derive(Clone, Copy)]
enum ScanStop {
    /// The object is not marked.
    Unmarked,
    /// The object does not match the type with which the object is marked.
    Mismatches,
    /// The object matches the given type, but the given required field is not satisfied.
    Needs(usize, Unmet),
}

/// Checks the objects in the order of their numbers: the first at type 0, and each further object
/// at the type at which the object was first referenced. If an object is not referenced before its
/// turn and the table has a wildcard type, the scan skips the object and gives the object the
/// wildcard type. If every object matches or is skipped, returns the type of each object, together
/// with the objects referenced at unequal types. If some object fails, returns the objects checked
/// so far, or those before the first object referenced at an unequal type. Counts one step for each
/// object that is checked and not skipped, and one for each required field that is tested.
pub fn scan(
    alloc: Global,
    heap: &Heap,
    fitting: Fitting<'_>,
    steps: &mut Steps,
) -> Result<Scanned, Memory>
    requires { 0 < length heap.now }
    ensures types { IfOk result (Reports (table_in fitting.entry) heap.now) }
    ensures paths { IfOk result (HavePaths (table_in fitting.entry) heap.now) }
    ensures steps { AreCounted (table_in fitting.entry) heap.now steps.old steps.new result }
{
    fitting.table.holds();
    let most = fitting.table.count();
    let mut marks = Cells::new(alloc, heap.keys(), most)?;
    marks.set(heap.key(heap.word(Val::Ref(0))), 1)?;
    let mut types = Cells::new(alloc, heap.count() as usize, most)?;
    let mut notes = Notes::none(alloc);
    let mut taken = Steps::new();
    let wildcard = wildcard_type(heap, fitting.table);
    let mut stop = ScanStop::Unmarked;
    for o in 0..heap.count() {
        if !take_object(
            heap, fitting, &mut marks, &mut notes, &mut types, o, wildcard, &mut taken, &mut stop,
        )? {
            let (first, before) = stopped(
                heap,
                fitting.table,
                &marks,
                &notes,
                types,
                o,
                stop,
                taken,
            );
            steps.raise_by(before);
            return Ok(Scanned::Stopped(first));
        }
    }
    Ok(known(heap, fitting.table, &marks, notes, types, taken, steps))
}

/// Returns the result after all objects were checked.
#[inline(never)]
fn known(
    heap: &Heap,
    table: &TypeTable,
    marks: &Cells,
    notes: Notes,
    types: Cells,
    taken: Steps,
    steps: &mut Steps,
) -> Scanned
    requires some { 0 < length heap.now }
    requires many { length types ≡ length heap.now }
    requires going { IsGoing (table_of table.now) heap.now marks.now types notes (length heap.now)
        taken }
    ensures types { Reports (table_of table.now) heap.now result }
    ensures paths { HavePaths (table_of table.now) heap.now result }
    ensures steps { AreCounted (table_of table.now) heap.now steps.old steps.new (Ok result) }
{
    table.holds();
    let _count = heap.count();
    let Some(first) = notes.first else {
        steps.raise_by(taken.taken());
        return Scanned::Known(types);
    };
    let (taken_before, before) = until_first(heap, table, marks, types, first);
    Scanned::Noted(Noted {
        taken: taken_before,
        seconds: notes.seconds,
        before,
        all: taken.taken(),
    })
}

/// Returns the objects checked before the scan ended at object `o`, and the number of steps. If
/// objects were noted, returns the state before the first noted object.
#[inline(never)]
fn stopped(
    heap: &Heap,
    table: &TypeTable,
    marks: &Cells,
    notes: &Notes,
    types: Cells,
    o: u64,
    stop: ScanStop,
    taken: Steps,
) -> (TakenObjects, u64)
    requires object { o < length heap.now }
    requires many { length types ≡ length heap.now }
    requires stopped { IsStopped (table_of table.now) heap.now marks.now types notes.now o taken
        stop }
    ensures types { AreTaken (table_of table.now) heap.now result.0 }
    ensures steps { result.1 + left_of heap.now result.0 ≤ cost_of heap.now (types_in result.0) }
{
    match notes.first {
        Some(first) => until_first(heap, table, marks, types, first),
        None => stop_at(heap, table, marks, types, o, stop, taken),
    }
}

/// Returns the objects checked before the first object was noted, and the number of steps.
#[inline(never)]
fn until_first(
    heap: &Heap,
    table: &TypeTable,
    marks: &Cells,
    types: Cells,
    first: First,
) -> (TakenObjects, u64)
    requires many { length types ≡ length heap.now }
    requires stopped { IsStoppedAt (table_of table.now) heap.now marks.now types (length heap.now)
        first }
    ensures row { result.0.types ≡ types }
    ensures types { AreTaken (table_of table.now) heap.now result.0 }
    ensures steps { result.1 + left_of heap.now result.0 ≤ cost_of heap.now (types_in result.0) }
{
    let mut before = Steps::new();
    before.raise_by(first.steps);
    let stop = ScanStop::Needs(first.ty, first.unmet);
    stop_at(heap, table, marks, types, first.object, stop, before)
}

/// Returns the objects checked if the scan ends at object `o` and nothing was noted, and the number
/// of steps. The objects include object `o` if object `o` matches its type.
#[inline(never)]
fn stop_at(
    _heap: &Heap,
    table: &TypeTable,
    _marks: &Cells,
    types: Cells,
    o: u64,
    stop: ScanStop,
    mut taken: Steps,
) -> (TakenObjects, u64)
    requires object { o < length _heap.now }
    requires many { length types ≡ length _heap.now }
    requires scanning { IsScanning (table_of table.now) _heap.now _marks.now [] (take o types) o
        taken }
    requires stops { Stops (table_of table.now) _heap.now _marks.now [] o stop }
    requires row { IsInRow types o stop }
    ensures row { result.0.types ≡ types }
    ensures types { AreTaken (table_of table.now) _heap.now result.0 }
    ensures steps { result.1 + left_of _heap.now result.0 ≤ cost_of _heap.now (types_in result.0) }
{
    table.holds();
    let objects = o as usize;
    match stop {
        ScanStop::Needs(_ty, unmet) => {
            taken.raise();
            taken.raise_by(unmet.position);
            if unmet.unfit {
                taken.raise();
                let stopped = TakenObjects {
                    types,
                    objects: objects + 1,
                    seen: unmet.field + 1,
                    unfit: ScanMismatch::Field(o, unmet.field),
                };
                return (stopped, taken.taken());
            }
            let stopped = TakenObjects {
                types,
                objects: objects + 1,
                seen: unmet.field,
                unfit: ScanMismatch::Nothing,
            };
            (stopped, taken.taken())
        }
        ScanStop::Mismatches => {
            let stopped = TakenObjects {
                types,
                objects,
                seen: u64::MAX,
                unfit: ScanMismatch::Object(o),
            };
            (stopped, taken.taken())
        }
        ScanStop::Unmarked => {
            let stopped = TakenObjects {
                types,
                objects,
                seen: u64::MAX,
                unfit: ScanMismatch::Nothing,
            };
            (stopped, taken.taken())
        }
    }
}

/// Checks object `o` at the type with which the object is marked. If the object is not marked,
/// skips the object. Returns false in three cases: the object is not marked and cannot be skipped,
/// does not match, or has a required field that is not satisfied. If the result is false, `stop` is
/// the reason.
#[inline(always)]
fn take_object(
    heap: &Heap,
    fitting: Fitting<'_>,
    marks: &mut Cells,
    notes: &mut Notes,
    types: &mut Cells,
    o: u64,
    wildcard: Option<usize>,
    taken: &mut Steps,
    stop: &mut ScanStop,
) -> Result<bool, Memory>
    requires object { o < length heap.now }
    requires many { length types.old ≡ length heap.now }
    requires going { IsGoing (table_in fitting) heap.now marks.old types.old notes.old o
        taken.old }
    requires wildcard { IfSome wildcard (IsWildcard (table_in fitting)) }
    ensures many { OnOk result (length types.new ≡ length heap.now) }
    ensures going { IfOk result
        (λ going. OnTrue going
        (IsGoing (table_in fitting.entry) heap.now marks.new types.new notes.new (o + 1)
        taken.new)) }
    ensures stopped { IfOk result
        (λ going. OnFalse going
        (IsStopped (table_in fitting.entry) heap.now marks.new types.new notes.new o taken.new
        stop.new)) }
{
    let word = heap.word(Val::Ref(o));
    let mark = marks.get(heap.key(word));
    if mark == 0 {
        *stop = ScanStop::Unmarked;
        let passed = pass_object(heap, fitting.table, marks, notes, types, o, wildcard, taken)?;
        return Ok(passed);
    }
    let ty = mark as usize - 1;
    if !fits_type(heap, fitting, ty, word) {
        *stop = ScanStop::Mismatches;
        return Ok(false);
    }
    types.set(o as usize, ty as u64)?;
    let met = meet_all(heap, fitting, marks, notes, o, word, ty, taken, stop)?;
    Ok(met)
}

/// Skips object `o`, which is not marked: marks the object with a wildcard type and counts no step.
/// Returns false if the table has no wildcard type. If the object is later required at another
/// type, the object is noted.
#[cold]
#[inline(never)]
fn pass_object(
    heap: &Heap,
    _table: &TypeTable,
    marks: &mut Cells,
    _notes: &Notes,
    types: &mut Cells,
    o: u64,
    wildcard: Option<usize>,
    _taken: &Steps,
) -> Result<bool, Memory>
    requires object { o < length heap.now }
    requires many { length types.old ≡ length heap.now }
    requires going { IsGoing (table_of _table.now) heap.now marks.old types.old _notes.now o
        _taken.now }
    requires unmarked { mark_of heap.now marks.old o ≡ 0 }
    requires wildcard { IfSome wildcard (IsWildcard (table_of _table.now)) }
    ensures many { OnOk result (length types.new ≡ length heap.now) }
    ensures going { IfOk result
        (λ going. OnTrue going
        (IsGoing (table_of _table.now) heap.now marks.new types.new _notes.now (o + 1)
        _taken.now)) }
    ensures stopped { IfOk result
        (λ going. OnFalse going
        (IsStopped (table_of _table.now) heap.now marks.new types.new _notes.now o _taken.now
        stops.Unmarked)) }
{
    let Some(ty) = wildcard else {
        return Ok(false);
    };
    let Some(mark) = (ty as u64).checked_add(1) else {
        return Err(Memory);
    };
    marks.set(heap.key(heap.word(Val::Ref(o))), mark)?;
    types.set(o as usize, ty as u64)?;
    Ok(true)
}

/// Tests the required fields of an object that matches its type, and counts the steps. `word` is
/// the word of the object. Returns true if all required fields are satisfied. If the result is
/// false, `stop` holds the first field that is not satisfied.
#[inline(always)]
fn meet_all(
    heap: &Heap,
    fitting: Fitting<'_>,
    marks: &mut Cells,
    notes: &mut Notes,
    o: u64,
    word: u64,
    ty: usize,
    taken: &mut Steps,
    stop: &mut ScanStop,
) -> Result<bool, Memory>
    requires object { o < length heap.now }
    requires word { word ≡ word_of heap.now (vals.Ref o) }
    requires node { ty < length fitting.table.now.nodes }
    requires fits { (table_shapes (table_in fitting)).fits heap.now (vals.Ref o) ty }
    requires marks { AreMarks (table_in fitting) heap.now marks.old }
    requires noted { AreNoted (table_in fitting) heap.now marks.old notes.old.seconds }
    requires whole { IsWhole notes.old }
    requires path { IsLed (table_in fitting) heap.now o ty }
    ensures marks { OnOk result (AreMarks (table_in fitting.entry) heap.now marks.new) }
    ensures kept { OnOk result (AreKept marks.old marks.new) }
    ensures noted { OnOk result
        (AreNoted (table_in fitting.entry) heap.now marks.new notes.new.seconds) }
    ensures still { OnOk result
        (AreStillNoted (noted_in notes.old.seconds) (noted_in notes.new.seconds)) }
    ensures known { OnOk result
        (IsKnownIn (table_in fitting.entry) heap.now marks.new o ty taken.old notes.old notes.new) }
    ensures tried { IfOk result
        (IsTried (table_in fitting.entry) heap.now marks.new (noted_in notes.new.seconds) o ty
        taken.old taken.new stop.new) }
{
    let shape = fitting.table.shape(ty);
    if let Some(types) = listed_types(heap, o, word, shape) {
        let needs = Needs::Listed(types);
        let met = meet_counted(heap, fitting, marks, notes, o, word, ty, needs, taken, stop)?;
        return Ok(met);
    }
    if needs_nothing(shape) {
        let needs = Needs::Nothing;
        let met = meet_counted(heap, fitting, marks, notes, o, word, ty, needs, taken, stop)?;
        return Ok(met);
    }
    let met = meet_others(heap, fitting, marks, notes, o, word, ty, taken, stop)?;
    Ok(met)
}

/// As `meet_all`, for a type of any shape.
#[cold]
#[inline(never)]
fn meet_others(
    heap: &Heap,
    fitting: Fitting<'_>,
    marks: &mut Cells,
    notes: &mut Notes,
    o: u64,
    word: u64,
    ty: usize,
    taken: &mut Steps,
    stop: &mut ScanStop,
) -> Result<bool, Memory>
    requires object { o < length heap.now }
    requires word { word ≡ word_of heap.now (vals.Ref o) }
    requires node { ty < length fitting.table.now.nodes }
    requires fits { (table_shapes (table_in fitting)).fits heap.now (vals.Ref o) ty }
    requires marks { AreMarks (table_in fitting) heap.now marks.old }
    requires noted { AreNoted (table_in fitting) heap.now marks.old notes.old.seconds }
    requires whole { IsWhole notes.old }
    requires path { IsLed (table_in fitting) heap.now o ty }
    ensures marks { OnOk result (AreMarks (table_in fitting.entry) heap.now marks.new) }
    ensures kept { OnOk result (AreKept marks.old marks.new) }
    ensures noted { OnOk result
        (AreNoted (table_in fitting.entry) heap.now marks.new notes.new.seconds) }
    ensures still { OnOk result
        (AreStillNoted (noted_in notes.old.seconds) (noted_in notes.new.seconds)) }
    ensures known { OnOk result
        (IsKnownIn (table_in fitting.entry) heap.now marks.new o ty taken.old notes.old notes.new) }
    ensures tried { IfOk result
        (IsTried (table_in fitting.entry) heap.now marks.new (noted_in notes.new.seconds) o ty
        taken.old taken.new stop.new) }
{
    let needs = known_needs(heap, o, fitting.table.shape(ty)).unwrap();
    meet_counted(heap, fitting, marks, notes, o, word, ty, needs, taken, stop)
}

/// As `meet_all`, for a given list of typed fields.
#[inline(always)]
fn meet_counted(
    heap: &Heap,
    fitting: Fitting<'_>,
    marks: &mut Cells,
    notes: &mut Notes,
    o: u64,
    word: u64,
    ty: usize,
    needs: Needs<'_>,
    taken: &mut Steps,
    stop: &mut ScanStop,
) -> Result<bool, Memory>
    requires object { o < length heap.now }
    requires word { word ≡ word_of heap.now (vals.Ref o) }
    requires node { ty < length fitting.table.now.nodes }
    requires needs { object_typed (table_in fitting) heap.now o ty ≡ needs_in needs }
    requires marks { AreMarks (table_in fitting) heap.now marks.old }
    requires noted { AreNoted (table_in fitting) heap.now marks.old notes.old.seconds }
    requires whole { IsWhole notes.old }
    requires path { IsLed (table_in fitting) heap.now o ty }
    ensures marks { OnOk result (AreMarks (table_in fitting.entry) heap.now marks.new) }
    ensures kept { OnOk result (AreKept marks.old marks.new) }
    ensures noted { OnOk result
        (AreNoted (table_in fitting.entry) heap.now marks.new notes.new.seconds) }
    ensures still { OnOk result
        (AreStillNoted (noted_in notes.old.seconds) (noted_in notes.new.seconds)) }
    ensures known { OnOk result
        (IsKnownIn (table_in fitting.entry) heap.now marks.new o ty taken.old notes.old notes.new) }
    ensures tried { IfOk result
        (IsTried (table_in fitting.entry) heap.now marks.new (noted_in notes.new.seconds) o ty
        taken.old taken.new stop.new) }
{
    let many = needs.len();
    if let Some(unmet) = meet_each(heap, fitting, marks, notes, o, word, ty, needs, taken)? {
        *stop = ScanStop::Needs(ty, unmet);
        return Ok(false);
    }
    taken.raise();
    taken.raise_by(many);
    Ok(true)
}

/// Tests the required fields of an object and returns the first field that is not satisfied. `word`
/// is the word of the object.
#[inline(always)]
fn meet_each(
    heap: &Heap,
    fitting: Fitting<'_>,
    marks: &mut Cells,
    notes: &mut Notes,
    o: u64,
    word: u64,
    ty: usize,
    needs: Needs<'_>,
    taken: &Steps,
) -> Result<Option<Unmet>, Memory>
    requires object { o < length heap.now }
    requires word { word ≡ word_of heap.now (vals.Ref o) }
    requires node { ty < length fitting.table.now.nodes }
    requires needs { object_typed (table_in fitting) heap.now o ty ≡ needs_in needs }
    requires marks { AreMarks (table_in fitting) heap.now marks.old }
    requires noted { AreNoted (table_in fitting) heap.now marks.old notes.old.seconds }
    requires whole { IsWhole notes.old }
    requires path { IsLed (table_in fitting) heap.now o ty }
    ensures marks { OnOk result (AreMarks (table_in fitting.entry) heap.now marks.new) }
    ensures kept { OnOk result (AreKept marks.old marks.new) }
    ensures noted { OnOk result
        (AreNoted (table_in fitting.entry) heap.now marks.new notes.new.seconds) }
    ensures still { OnOk result
        (AreStillNoted (noted_in notes.old.seconds) (noted_in notes.new.seconds)) }
    ensures known { OnOk result
        (IsKnownIn (table_in fitting.entry) heap.now marks.new o ty taken.now notes.old notes.new) }
    ensures met { IfOk result
        (λ unmet. MatchOption unmet
        (AreMet (table_in fitting.entry) heap.now marks.new (noted_in notes.new.seconds) o ty
        (length (object_typed (table_in fitting.entry) heap.now o ty)))
        (IsUnmet (table_in fitting.entry) heap.now marks.new (noted_in notes.new.seconds) o ty)) }
{
    if needs.len() == 0 {
        return Ok(None);
    }
    let words = heap.fields_at(word);
    for k in 0..needs.len() {
        let (step, needed) = needs.get(k);
        let value = words[step as usize];
        if !meet_need(
            heap, fitting, marks, notes, o, ty, k, step, taken, value, needed,
        )? {
            return Ok(Some(Unmet {
                position: k,
                field: step,
                unfit: true,
            }));
        }
    }
    Ok(None)
}

/// Tests the typed field at index `position` of an object. If the field's type constrains values
/// and the field's value is an object that was referenced at another class, notes the value.
#[inline(always)]
fn meet_need(
    heap: &Heap,
    fitting: Fitting<'_>,
    marks: &mut Cells,
    notes: &mut Notes,
    o: u64,
    ty: usize,
    position: u64,
    field: u64,
    taken: &Steps,
    word: u64,
    needed: usize,
) -> Result<bool, Memory>
    requires object { o < length heap.now }
    requires node { ty < length fitting.table.now.nodes }
    requires need { slice_get (object_typed (table_in fitting) heap.now o ty) position
        ≡ Some (field, needed) }
    requires word { word ≡ word_of heap.now (field_at heap.now o field) }
    requires small { field + 1 < 2 ^ 64 }
    requires marks { AreMarks (table_in fitting) heap.now marks.old }
    requires noted { AreNoted (table_in fitting) heap.now marks.old notes.old.seconds }
    requires path { IsLed (table_in fitting) heap.now o ty }
    ensures next { IfOk result
        (λ met. OnTrue met
        (Continues (table_in fitting.entry) heap.now marks.old marks.new notes.old notes.new o ty
        taken.now position (position + 1))) }
    ensures unfit { IfOk result
        (λ met. OnFalse met
        (Continues (table_in fitting.entry) heap.now marks.old marks.new notes.old notes.new o ty
        taken.now position position
        × IsUnfit (table_in fitting.entry) heap.now (field_at heap.now o field) needed)) }
{
    fitting.table.holds();
    let _count = heap.count();
    if meet(heap, fitting, marks, word, needed)? {
        return Ok(true);
    }
    if word % 8 != 0 {
        return Ok(false);
    }
    if !is_asked(fitting.table.shape(needed)) {
        return Ok(true);
    }
    note(
        heap,
        fitting.table,
        notes,
        o,
        ty,
        position,
        field,
        taken,
        word,
        needed,
    )?;
    Ok(true)
}

/// Notes an object at a type. The object was referenced at another class before, and is the value
/// of a required field of object `o`.
#[cold]
#[inline(never)]
fn note(
    heap: &Heap,
    table: &TypeTable,
    notes: &mut Notes,
    o: u64,
    ty: usize,
    position: u64,
    field: u64,
    taken: &Steps,
    word: u64,
    needed: usize,
) -> Result<(), Memory>
    requires word { IsReferenceWord heap.now word }
    requires node { needed < length table.now.classes }
    requires valid { AreSeconds (table_of table.now) notes.old.seconds }
    ensures valid { OnOk result (AreSeconds (table_of table.now) notes.new.seconds) }
    ensures noted { OnOk result
        (IsNotedAt (table_of table.now) heap.now (noted_in notes.old.seconds)
        (noted_in notes.new.seconds) word needed) }
    ensures first { OnOk result
        (notes.new.first
        ≡ first_or notes.old.first (first_of o ty position field taken.now)) }
{
    let own = First {
        object: o,
        ty,
        unmet: Unmet {
            position,
            field,
            unfit: false,
        },
        steps: taken.taken(),
    };
    notes.first = first_or(notes.first, own);
    let objects = heap.count() as usize;
    notes
        .seconds
        .note(table, objects, heap.number(word), needed)?;
    Ok(())
}

/// Returns `known` if `known` is present, and `own` if not.
fn first_or(known: Option<First>, own: First) -> Option<First>
    ensures { result ≡ first_or known own }
{
    match known {
        Some(first) => Some(first),
        None => Some(own),
    }
}

/// Tests the value of a word at a type, and returns true if the value is satisfied. If the value is
/// an object without a mark and the type constrains its values, marks the object with the type. A
/// marked object is checked at its turn.
#[inline(always)]
fn meet(
    heap: &Heap,
    fitting: Fitting<'_>,
    marks: &mut Cells,
    word: u64,
    ty: usize,
) -> Result<bool, Memory>
    requires word { IsFieldWord heap.now word }
    requires node { ty < length fitting.table.now.nodes }
    requires marks { AreMarks (table_in fitting) heap.now marks.old }
    requires paths { IsTrue (is_asked_in (table_in fitting) ty) → (o : ℕ) → o < length heap.now
        → word ≡ word_of heap.now (vals.Ref o)
        → HasPath (table_in fitting) heap.now (vals.Ref 0) o ty }
    ensures marks { OnOk result (AreMarks (table_in fitting.entry) heap.now marks.new) }
    ensures kept { OnOk result (AreKept marks.old marks.new) }
    ensures met { IfOk result
        (λ met. OnTrue met
        (IsTrue (is_asked_in (table_in fitting.entry) ty) → (v : Val) → IsValue (length heap.now) v
        → word ≡ word_of heap.now v
        → IsMet (table_in fitting.entry) heap.now marks.new v ty)) }
    ensures unmet { IfOk result
        (λ met. OnFalse met
        (word % 8 ≢ 0 → (v : Val) → IsValue (length heap.now) v → word ≡ word_of heap.now v
        → ¬ (table_shapes (table_in fitting.entry)).fits heap.now v ty)) }
    ensures other { IfOk result
        (λ met. OnFalse met
        (word % 8 ≡ 0 → (v : Val) → IsValue (length heap.now) v → word ≡ word_of heap.now v
        → IsOther (table_in fitting.entry) heap.now marks.new v ty)) }
{
    fitting.table.holds();
    let _count = heap.count();
    if word % 8 != 0 {
        return Ok(fits_type(heap, fitting, ty, word));
    }
    let key = heap.key(word);
    let mark = marks.get(key);
    if mark == 0 {
        if !is_asked(fitting.table.shape(ty)) {
            return Ok(true);
        }
        let Some(new) = (ty as u64).checked_add(1) else {
            return Err(Memory);
        };
        marks.set(key, new)?;
        return Ok(true);
    }
    let marked = mark as usize - 1;
    Ok(marked == ty || is_same(fitting.table, marked, ty))
}

/// Returns true if the types `t` and `u` are equal in the table.
#[cold]
#[inline(never)]
fn is_same(table: &TypeTable, t: usize, u: usize) -> bool
    requires t { t < length table.now.classes }
    requires u { u < length table.now.classes }
    ensures { IsTrue result ↔ (slice_get table.now.classes t ≡ slice_get table.now.classes u) }
{
    table.class(t) == table.class(u)
}
