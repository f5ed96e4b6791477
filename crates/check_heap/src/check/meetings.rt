//! The list of all objects that the paths of a well-typed value reach.

ghost use Rattle.std.specs.Prelude.{◌≡◌, ◌<◌, length, slice_get, IfOk, IfSome};
ghost use Rattle.base_data.specs.declared.model.value.Val.TheVariants as vals;
ghost use Rattle.base_data.specs.model.Graph.{IsValue};
ghost use Rattle.types_spec.specs.types.Table.{table_shapes};
ghost use Rattle.types_spec.specs.types.Typing.{HasType};
ghost use Rattle.types_table.specs.type_table.Made.{table_of};
ghost use Rattle.check_heap.specs.check.KnownVisits.{AreOrdered, IsPathOf};
ghost use Rattle.check_heap.specs.check.Met.{AreAllMet};

use crate::check::search::search;
use crate::check::visit_path::path_of;
use crate::check::visits::Visits;
use crate::scan::{Fitting, Steps, TakenObjects, rows_of};
use base_data::model::Memory;
use base_data::model::path::Path;
use base_data::model::value::Val;
use marshal_heap::heap::Heap;
use std::alloc::Global;
use std::marker::Model;
use types_table::type_table::TypeTable;

/// The objects of a value, each at each class of types at which the object is reached, in the order
/// of the first paths. The model is the list of visits.
#[derive(Drop)]
pub struct AllMet {
    visits: Visits,
}

impl Model for AllMet {
    ghost use Rattle.std.specs.Prelude.{List};
    ghost use Rattle.check_heap.specs.declared.check.visits.Visit.{Visit};

    ghost Value = { List Visit };

    ghost use Rattle.check_heap.specs.check.Visits.{listed};

    ghost view = { λ m. listed m.visits };
}

impl AllMet {
    /// Returns the number of visits.
    pub fn len(&self) -> usize
        ensures { result ≡ length self.now }
    {
        self.visits.len()
    }

    /// Returns the object and the type of visit `k`.
    pub fn get(&self, k: usize) -> (u64, usize)
        requires { k < length self.now }
        ensures { IfSome (slice_get self.now k)
            (λ visit. (result.0 ≡ visit.object) × (result.1 ≡ visit.ty)) }
    {
        let visit = self.visits.get(k);
        (visit.object, visit.ty)
    }

    /// Returns the path to visit `k`, which is the first path to the visit's object at the visit's
    /// class. Fails with `Memory` if memory runs out.
    pub fn path(&self, alloc: Global, k: usize) -> Result<Path, Memory>
        requires in_range { k < length self.now }
        requires ordered { AreOrdered self.now }
        ensures { IfOk result (IsPathOf self.now k) }
    {
        path_of(alloc, &self.visits, k)
    }
}

/// Returns all objects that the paths of a value with type 0 reach. Fails with `Memory` if memory
/// runs out.
pub fn met(alloc: Global, heap: &Heap, root: Val, table: &TypeTable) -> Result<AllMet, Memory>
    requires value { IsValue (length heap.now) root }
    requires has { HasType (table_shapes (table_of table.now)) heap.now root 0 }
    ensures { IfOk result (AreAllMet (table_of table.now) heap.now root) }
{
    table.holds();
    match root {
        Val::Ref(object) => met_from(alloc, heap, object, table),
        _ => {
            let visits = Visits::none(alloc)?;
            Ok(AllMet { visits })
        }
    }
}

/// As `met`, for a value that is an object. A search visits the objects and finds no mismatch.
fn met_from(alloc: Global, heap: &Heap, object: u64, table: &TypeTable) -> Result<AllMet, Memory>
    requires object { object < length heap.now }
    requires has { HasType (table_shapes (table_of table.now)) heap.now (vals.Ref object) 0 }
    ensures { IfOk result (AreAllMet (table_of table.now) heap.now (vals.Ref object)) }
{
    table.holds();
    let objects = heap.count();
    let rows = rows_of(alloc, heap, table)?;
    let none = TakenObjects::none(alloc)?;
    let mut steps = Steps::new();
    let mut visits = Visits::new(alloc, objects, table, object)?;
    let fitting = Fitting { table, rows: &rows };
    match search(heap, fitting, &mut visits, &none, &mut steps)? {
        Some(_) => unreachable!(),
        None => Ok(AllMet { visits }),
    }
}
