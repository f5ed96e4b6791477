//! Finds the first aliasing conflict: two visits of one object at different types, where the object
//! is mutable at one of the two types.

ghost use Rattle.std.specs.Prelude.{◌≡◌, ◌<◌, ◌↔◌, length, Some, All, IsTrue, MatchOption};
ghost use Rattle.types_table.specs.type_table.Made.{table_of};
ghost use Rattle.check_heap.specs.check.Visits.{listed, AreLinked};
ghost use Rattle.check_heap.specs.check.Conflict.{mutable_at, IsWithin, AreApart, ConflictsBack};
ghost use Rattle.check_heap.specs.check.Conflict.{IsFirstOf};
ghost use Rattle.check_heap.specs.check.Conflict.{NoneConflict, IsFirstConflict};

use crate::check::visits::{Visit, Visits};
use crate::fits::is_mutable;
use marshal_heap::heap::Heap;
use types_table::type_table::TypeTable;

/// Returns the first visit that conflicts with an earlier visit, as the second index. The first
/// index is that of the first visit with which the second visit conflicts. If no object was visited
/// at a second class of types, returns `None`.
pub fn first_conflict(heap: &Heap, table: &TypeTable, visits: &Visits) -> Option<(usize, usize)>
    requires within { All (IsWithin (table_of table.now) heap.now) (listed visits.now) }
    requires apart { AreApart (table_of table.now) (listed visits.now) }
    requires linked { AreLinked (table_of table.now) (length heap.now) visits.now }
    ensures { MatchOption result
        (NoneConflict (table_of table.now) heap.now (listed visits.now)
        (length (listed visits.now)))
        (λ two. IsFirstConflict (table_of table.now) heap.now (listed visits.now) two.0 two.1) }
{
    table.holds();
    if visits.later.is_untouched() {
        return None;
    }
    for k in 0..visits.len() {
        if conflicts_back(heap, table, visits, k) {
            return Some((first_of(visits, k), k));
        }
    }
    None
}

/// Returns true if the object of visit `k` was visited before at another class, and is mutable at
/// one of two types. The two types are the type of visit `k` and the type of the object's first
/// visit.
fn conflicts_back(heap: &Heap, table: &TypeTable, visits: &Visits, k: usize) -> bool
    requires in_range { k < length (listed visits.now) }
    requires within { All (IsWithin (table_of table.now) heap.now) (listed visits.now) }
    requires apart { AreApart (table_of table.now) (listed visits.now) }
    requires linked { AreLinked (table_of table.now) (length heap.now) visits.now }
    ensures { IsTrue result ↔ ConflictsBack (table_of table.now) heap.now (listed visits.now) k }
{
    table.holds();
    let visit = visits.get(k);
    let first = Visit {
        ty: visits.first.get(visit.object as usize) as usize - 1,
        ..visit
    };
    if table.class(first.ty) == table.class(visit.ty) {
        return false;
    }
    is_mutable_at(heap, table, visit) || is_mutable_at(heap, table, first)
}

/// Returns true if the object of the visit is mutable at the type of the visit.
fn is_mutable_at(heap: &Heap, table: &TypeTable, visit: Visit) -> bool
    requires { IsWithin (table_of table.now) heap.now visit }
    ensures { result ≡ mutable_at (table_of table.now) heap.now visit }
{
    is_mutable(heap, visit.object, table.shape(visit.ty))
}

/// Returns the index of the first visit of the object of visit `k`.
fn first_of(visits: &Visits, k: usize) -> usize
    requires in_range { k < length (listed visits.now) }
    ensures { IsFirstOf (listed visits.now) k result }
{
    let object = visits.get(k).object;
    for f in 0..k {
        if visits.get(f).object == object {
            return f;
        }
    }
    k
}
