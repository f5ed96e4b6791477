//! The objects that a search has visited, each at a type, in the order of the visits.

ghost use Rattle.std.specs.Prelude.{suc, ◌≡◌, ◌<◌, ◌^◌, ◌↔◌, ◌∷◌, [], length, All, Some, slice_get};
ghost use Rattle.std.specs.Prelude.{slice_index, IfOk, OnOk, IsTrue};
ghost use Rattle.std.specs.Bool.{OnTrue};
ghost use Rattle.types_table.specs.type_table.Made.{table_of};
ghost use Rattle.check_heap.specs.check.Visits.{listed, AreLinked, IsAppended, Enters};

use crate::check::trail::Trail;
use crate::scan::{Cells, Classed};
use base_data::model::Memory;
use std::alloc::Global;
use types_table::type_table::TypeTable;

/// An object at a type. Field `step` of the object of visit `parent` leads to `object`. The first
/// visit is the visit of the root.
#[derive(Clone, Copy)]
pub struct Visit {
    pub object: u64,
    pub ty: usize,
    pub parent: usize,
    pub step: u64,
}

/// All visits of a search, with records of the classes at which each object was visited.
#[derive(Drop)]
pub struct Visits {
    pub all: Trail,
    /// For each object, one more than the type of the object's first visit, or 0 if the object has
    /// not been visited.
    pub first: Cells,
    /// The objects that were visited at a second or later class, each paired with the class.
    pub later: Classed,
}

/// Returns true if the entry `first` of an object records that the object's first visit is at type
/// `ty`.
#[inline(always)]
pub fn is_at(first: u64, ty: usize) -> bool
    ensures { OnTrue result (first ≡ suc ty) }
{
    first > 0 && first as usize - 1 == ty
}

impl Visits {
    /// Creates the list with the visit of the root only. Fails with `Memory` if memory runs out.
    pub fn new(alloc: Global, objects: u64, table: &TypeTable, root: u64) -> Result<Visits, Memory>
        requires root { root < objects }
        requires rooted { 0 < length table.now.classes }
        ensures linked { IfOk result (AreLinked (table_of table.now) objects) }
        ensures root { IfOk result
            (λ visits. listed visits
            ≡ record { object = root; ty = 0; parent = 0; step = 0 } ∷ []) }
    {
        let mut visits = Visits {
            all: Trail::new(alloc),
            first: Cells::new(alloc, objects as usize, table.count())?,
            later: Classed::none(alloc),
        };
        let first = visits.first_at(root);
        visits.enter(table, root, 0, 0, 0, first)?;
        Ok(visits)
    }

    /// Creates a list without visits. Fails with `Memory` if memory runs out.
    pub fn none(alloc: Global) -> Result<Visits, Memory>
        ensures none { IfOk result (λ visits. listed visits ≡ []) }
    {
        Ok(Visits {
            all: Trail::new(alloc),
            first: Cells::new(alloc, 0, 0)?,
            later: Classed::none(alloc),
        })
    }

    /// Returns the number of visits.
    #[inline(always)]
    pub fn len(&self) -> usize
        ensures { result ≡ length (listed self.now) }
    {
        self.all.len()
    }

    /// Returns true if there are more than `k` visits.
    #[inline(always)]
    pub fn has(&self, k: usize) -> bool
        ensures has { IsTrue result ↔ (k < length (listed self.now)) }
        ensures small { length (listed self.now) < 2 ^ 64 }
    {
        self.all.has(k)
    }

    /// Returns visit `k`.
    #[inline(always)]
    pub fn get(&self, k: usize) -> Visit
        requires { k < length (listed self.now) }
        ensures { slice_get (listed self.now) k ≡ Some result }
    {
        self.all.get(k)
    }

    /// Returns one more than the type of an object's first visit, or 0 if the object has not been
    /// visited.
    #[inline(always)]
    pub fn first_at(&self, object: u64) -> u64
        requires { object < length self.now.first }
        ensures { result ≡ slice_index self.now.first object }
    {
        self.first.get(object as usize)
    }

    /// Adds a visit of an object at a type, unless the object was visited at an equal type. `first`
    /// is the object's entry. Fails with `Memory` if memory runs out.
    #[inline(always)]
    pub fn enter(
        &mut self,
        table: &TypeTable,
        object: u64,
        ty: usize,
        parent: usize,
        step: u64,
        first: u64,
    ) -> Result<(), Memory>
        requires object { object < length self.old.first }
        requires ty { ty < length table.now.classes }
        requires types { All (λ visit. visit.ty < length table.now.classes) (listed self.old) }
        requires linked { AreLinked (table_of table.now) (length self.old.first) self.old }
        requires noted { first ≡ slice_index self.old.first object }
        ensures linked { OnOk result
            (AreLinked (table_of table.now) (length self.old.first) self.new) }
        ensures enters { OnOk result
            (Enters (table_of table.now) (listed self.old) (listed self.new) object ty parent
            step) }
    {
        if first == 0 {
            let Some(cell) = (ty as u64).checked_add(1) else {
                return Err(Memory);
            };
            self.first.set(object as usize, cell)?;
            self.append(object, ty, parent, step)?;
            return Ok(());
        }
        self.enter_again(table, object, ty, parent, step, first)
    }

    /// Adds a visit of an object that was visited before, unless the object was visited at an equal
    /// type. The type of the object's first visit is one below the number `first`.
    #[inline(never)]
    fn enter_again(
        &mut self,
        table: &TypeTable,
        object: u64,
        ty: usize,
        parent: usize,
        step: u64,
        first: u64,
    ) -> Result<(), Memory>
        requires object { object < length self.old.first }
        requires ty { ty < length table.now.classes }
        requires types { All (λ visit. visit.ty < length table.now.classes) (listed self.old) }
        requires linked { AreLinked (table_of table.now) (length self.old.first) self.old }
        requires noted { first ≡ slice_index self.old.first object }
        requires met { 0 < first }
        ensures linked { OnOk result
            (AreLinked (table_of table.now) (length self.old.first) self.new) }
        ensures enters { OnOk result
            (Enters (table_of table.now) (listed self.old) (listed self.new) object ty parent
            step) }
    {
        let class = table.class(ty);
        if table.class(first as usize - 1) == class {
            return Ok(());
        }
        let objects = self.first.len();
        if !self.later.insert(objects, object, class)? {
            return Ok(());
        }
        self.append(object, ty, parent, step)?;
        Ok(())
    }

    /// Appends a visit of an object.
    #[inline(always)]
    fn append(&mut self, object: u64, ty: usize, parent: usize, step: u64) -> Result<(), Memory>
        ensures all { OnOk result
            (IsAppended (listed self.old) (listed self.new) object ty parent step) }
        ensures first { self.new.first ≡ self.old.first }
        ensures later { self.new.later ≡ self.old.later }
    {
        self.all.push(Visit {
            object,
            ty,
            parent,
            step,
        })
    }
}
