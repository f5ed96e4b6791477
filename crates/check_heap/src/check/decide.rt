//! The decision whether a value has type 0 of a table, by a scan or a search of the heap.

ghost use Rattle.std.specs.Prelude.{◌≡◌, ◌≤◌, ◌<◌, ◌+◌, length, IfOk, IsTrue};
ghost use Rattle.base_data.specs.declared.model.value.Val.TheVariants as vals;
ghost use Rattle.base_data.specs.model.Graph.{IsValue};
ghost use Rattle.types_spec.specs.types.Table.{table_shapes, is_asked_in};
ghost use Rattle.types_spec.specs.types.StepBounds.{most_steps};
ghost use Rattle.types_table.specs.type_table.Made.{table_of};
ghost use Rattle.check_heap.specs.scan.TypeRows.{table_in};
ghost use Rattle.check_heap.specs.scan.TakenObjects.{types_in};
ghost use Rattle.check_heap.specs.declared.scan.straight.Scanned.TheVariants as answers;
ghost use Rattle.check_heap.specs.scan.Paths.{HavePaths};
ghost use Rattle.check_heap.specs.scan.Scanned.{AreTaken, Reports, cost_of, left_of};
ghost use Rattle.check_heap.specs.check.KnownVisits.{AreOrdered, IsConflictOf};
ghost use Rattle.check_heap.specs.check.Visits.{listed};
ghost use Rattle.check_heap.specs.check.Verdict.{IsVerdict, PairsHavePaths};

use crate::check::asked::{known_typing, settled_typing};
use crate::check::conflict::first_conflict;
use crate::check::search::search;
use crate::check::settle::settle;
use crate::check::typed_objects::Typing;
use crate::check::verdict::Verdict;
use crate::check::visit_path::path_of;
use crate::check::visits::Visits;
use crate::fits::{is_asked, needs_of};
use crate::scan::{Fitting, Noted, Scanned, Steps, TakenObjects, rows_of, scan};
use base_data::model::Memory;
use base_data::model::path::Path;
use base_data::model::value::Val;
use marshal_heap::heap::Heap;
use std::alloc::Global;
use types_spec::types::fault::Fault;
use types_table::type_table::TypeTable;

/// Checks whether the value has type 0 of the table. Returns a typing if the value has the type,
/// and the first fault if not. Adds the steps taken, at most `most_steps`, to `steps`. Fails with
/// `Memory` if memory runs out.
pub fn check(
    alloc: Global,
    heap: &Heap,
    root: Val,
    table: &TypeTable,
    steps: &mut Steps,
) -> Result<Verdict, Memory>
    requires value { IsValue (length heap.now) root }
    ensures verdict { IfOk result (IsVerdict (table_of table.now) heap.now root) }
    ensures paths { IfOk result (PairsHavePaths (table_of table.now) heap.now root) }
    ensures steps { steps.new ≤ steps.old + most_steps (table_of table.now) heap.now }
{
    decide(alloc, heap, root, table, false, steps)
}

/// As `check`, without the scan of the heap. If the value has a type mismatch, takes less time than
/// `check`, because the scan would end at the mismatch.
pub fn check_mismatched(
    alloc: Global,
    heap: &Heap,
    root: Val,
    table: &TypeTable,
    steps: &mut Steps,
) -> Result<Verdict, Memory>
    requires value { IsValue (length heap.now) root }
    ensures verdict { IfOk result (IsVerdict (table_of table.now) heap.now root) }
    ensures paths { IfOk result (PairsHavePaths (table_of table.now) heap.now root) }
    ensures steps { steps.new ≤ steps.old + most_steps (table_of table.now) heap.now }
{
    decide(alloc, heap, root, table, true, steps)
}

/// As `check`. If `mismatched` is true, the heap is not scanned before the search.
fn decide(
    alloc: Global,
    heap: &Heap,
    root: Val,
    table: &TypeTable,
    mismatched: bool,
    steps: &mut Steps,
) -> Result<Verdict, Memory>
    requires value { IsValue (length heap.now) root }
    ensures verdict { IfOk result (IsVerdict (table_of table.now) heap.now root) }
    ensures paths { IfOk result (PairsHavePaths (table_of table.now) heap.now root) }
    ensures steps { steps.new ≤ steps.old + most_steps (table_of table.now) heap.now }
{
    table.holds();
    steps.raise();
    if needs_of(heap, root, table.shape(0)).is_none() {
        return Ok(Verdict::No(Fault::Mismatch(Path::new(alloc))));
    }
    match root {
        Val::Ref(object) if mismatched => search_whole(alloc, heap, object, table, steps),
        Val::Ref(object) => check_object(alloc, heap, object, table, steps),
        _ => Ok(Verdict::Yes(Typing::of(Visits::none(alloc)?))),
    }
}

/// As `check`, for an object that matches the type's representation. If the object is object 0 and
/// the type is constrained, a linear scan of the heap usually suffices.
fn check_object(
    alloc: Global,
    heap: &Heap,
    object: u64,
    table: &TypeTable,
    steps: &mut Steps,
) -> Result<Verdict, Memory>
    requires object { object < length heap.now }
    requires fits { (table_shapes (table_of table.now)).fits heap.now (vals.Ref object) 0 }
    ensures verdict { IfOk result (IsVerdict (table_of table.now) heap.now (vals.Ref object)) }
    ensures paths { IfOk result (PairsHavePaths (table_of table.now) heap.now (vals.Ref object)) }
    ensures steps { steps.new + 1 ≤ steps.old + most_steps (table_of table.now) heap.now }
{
    table.holds();
    if object != 0 {
        return search_whole(alloc, heap, object, table, steps);
    }
    if !is_asked(table.shape(0)) {
        return search_whole(alloc, heap, object, table, steps);
    }
    let objects = heap.count();
    let rows = rows_of(alloc, heap, table)?;
    let fitting = Fitting { table, rows: &rows };
    match scan(alloc, heap, fitting, steps)? {
        Scanned::Known(types) => {
            let typing = known_typing(alloc, table, types)?;
            Ok(Verdict::Yes(typing))
        }
        Scanned::Noted(noted) => settle_noted(alloc, heap, objects, fitting, noted, steps),
        Scanned::Stopped(taken) => {
            search_object(alloc, heap, objects, object, fitting, &taken, steps)
        }
    }
}

/// As `check`, for any object that matches the type's representation. Uses only a search of the
/// heap.
fn search_whole(
    alloc: Global,
    heap: &Heap,
    object: u64,
    table: &TypeTable,
    steps: &mut Steps,
) -> Result<Verdict, Memory>
    requires object { object < length heap.now }
    requires fits { (table_shapes (table_of table.now)).fits heap.now (vals.Ref object) 0 }
    ensures verdict { IfOk result (IsVerdict (table_of table.now) heap.now (vals.Ref object)) }
    ensures paths { IfOk result (PairsHavePaths (table_of table.now) heap.now (vals.Ref object)) }
    ensures steps { steps.new + 1 ≤ steps.old + most_steps (table_of table.now) heap.now }
{
    let objects = heap.count();
    let rows = rows_of(alloc, heap, table)?;
    let none = TakenObjects::none(alloc)?;
    let fitting = Fitting { table, rows: &rows };
    search_object(alloc, heap, objects, object, fitting, &none, steps)
}

/// As `check`, for object 0 after a scan that found objects at second classes. Usually the objects
/// at second classes can be settled. Settling takes at most the steps of the scan plus those of one
/// pair. If the objects cannot be settled, searches the heap, which has `objects` objects.
fn settle_noted(
    alloc: Global,
    heap: &Heap,
    objects: u64,
    fitting: Fitting<'_>,
    noted: Noted,
    steps: &mut Steps,
) -> Result<Verdict, Memory>
    requires objects { objects ≡ length heap.now }
    requires some { 0 < length heap.now }
    requires fits { (table_shapes (table_in fitting)).fits heap.now (vals.Ref 0) 0 }
    requires asked { IsTrue (is_asked_in (table_in fitting) 0) }
    requires known { Reports (table_in fitting) heap.now (answers.Noted noted) }
    requires paths { HavePaths (table_in fitting) heap.now (answers.Noted noted) }
    requires all { noted.all ≤ cost_of heap.now noted.taken.types }
    requires before { noted.before + left_of heap.now noted.taken
        ≤ cost_of heap.now (types_in noted.taken) }
    ensures verdict { IfOk result (IsVerdict (table_in fitting.entry) heap.now (vals.Ref 0)) }
    ensures paths { IfOk result (PairsHavePaths (table_in fitting.entry) heap.now (vals.Ref 0)) }
    ensures steps { steps.new + 1 ≤ steps.old + most_steps (table_in fitting.entry) heap.now }
{
    fitting.table.holds();
    let _count = heap.count();
    let Noted {
        taken,
        seconds,
        before,
        all,
    } = noted;
    let mut more = Steps::new();
    match settle(heap, fitting, &taken.types, seconds, all, &mut more)? {
        Some(seconds) => {
            let typing = settled_typing(alloc, fitting.table, taken.types, seconds)?;
            steps.raise_by(all);
            steps.raise_by(more.taken());
            Ok(Verdict::Yes(typing))
        }
        None => {
            steps.raise_by(before);
            search_object(alloc, heap, objects, 0, fitting, &taken, steps)
        }
    }
}

/// As `check`, by a search of the heap, which has `objects` objects. `taken` contains the objects
/// that a scan has checked.
fn search_object(
    alloc: Global,
    heap: &Heap,
    objects: u64,
    object: u64,
    fitting: Fitting<'_>,
    taken: &TakenObjects,
    steps: &mut Steps,
) -> Result<Verdict, Memory>
    requires objects { objects ≡ length heap.now }
    requires object { object < length heap.now }
    requires fits { (table_shapes (table_in fitting)).fits heap.now (vals.Ref object) 0 }
    requires taken { AreTaken (table_in fitting) heap.now taken.now }
    ensures verdict { IfOk result (IsVerdict (table_in fitting.entry) heap.now (vals.Ref object)) }
    ensures paths { IfOk result
        (PairsHavePaths (table_in fitting.entry) heap.now (vals.Ref object)) }
    ensures steps { steps.new + cost_of heap.now (types_in taken.now) + 1
        ≤ steps.old + left_of heap.now taken.now + most_steps (table_in fitting.entry) heap.now }
{
    fitting.table.holds();
    let mut visits = Visits::new(alloc, objects, fitting.table, object)?;
    if let Some((n, step)) = search(heap, fitting, &mut visits, taken, steps)? {
        let mut path = path_of(alloc, &visits, n)?;
        path.push(step)?;
        return Ok(Verdict::No(Fault::Mismatch(path)));
    }
    match first_conflict(heap, fitting.table, &visits) {
        Some((first, second)) => {
            let fault = conflict(alloc, &visits, first, second)?;
            Ok(Verdict::No(fault))
        }
        None => Ok(Verdict::Yes(Typing::of(visits))),
    }
}

/// Returns the aliasing conflict of two visits, with the paths of the visits.
fn conflict(alloc: Global, visits: &Visits, first: usize, second: usize) -> Result<Fault, Memory>
    requires first { first < length (listed visits.now) }
    requires second { second < length (listed visits.now) }
    requires ordered { AreOrdered (listed visits.now) }
    ensures { IfOk result (IsConflictOf (listed visits.now) first second) }
{
    let one = path_of(alloc, visits, first)?;
    let other = path_of(alloc, visits, second)?;
    Ok(Fault::Conflict(one, other))
}
