//! Sets of pairs of an object and a class.

ghost use Rattle.std.specs.Prelude.{ℕ, ◌≡◌, ◌<◌, ◌↔◌, Some, slice_get, IsTrue, OnOk, IfOk};
ghost use Rattle.std.specs.Prelude.{MatchBool};
ghost use Rattle.check_heap.specs.scan.Classed.{Has, Inserts, IsUntouched, IsInCell, Agree};

use base_data::model::Memory;
use std::alloc::Global;
use std::collections::BTreeSet;

/// A set of pairs of an object and a class. One class of each object can be stored in a cell of the
/// object.
#[derive(Drop)]
pub struct Classed {
    /// For each object, the class in the object's cell plus 1, or 0. The cells are created once
    /// there is one pair for every 64 objects.
    pub cells: Vec<u16>,
    /// The pairs that are not in cells.
    pub more: BTreeSet<(u64, usize)>,
}

impl Classed {
    /// Creates an empty set.
    pub fn none(alloc: Global) -> Classed
        ensures { IsUntouched result }
    {
        Classed {
            cells: Vec::new(alloc),
            more: BTreeSet::new(alloc),
        }
    }

    /// Returns true if the set is empty and has no cells.
    pub fn is_untouched(&self) -> bool
        ensures { IsTrue result ↔ IsUntouched self.now }
    {
        self.cells.is_empty() && self.more.is_empty()
    }

    /// Inserts a pair of an object and a class. Returns true if the pair is new. `objects` is the
    /// number of all objects.
    pub fn insert(&mut self, objects: usize, object: u64, class: usize) -> Result<bool, Memory>
        ensures inserts { OnOk result (Inserts self.old self.new object class) }
        ensures added { IfOk result
            (λ added. MatchBool added (¬ Has self.old object class) (Has self.old object class)) }
    {
        self.shift();
        let added = self.write(objects, object, class)?;
        Ok(added)
    }

    /// Moves the first pair that is in no cell into its object's cell, if the cell is free and can
    /// hold the class. By repeated calls, the pairs that were inserted before the cells existed
    /// move into cells, up to the first pair that cannot move.
    fn shift(&mut self)
        ensures { (o c : ℕ) → Has self.old o c ↔ Has self.new o c }
    {
        if self.cells.is_empty() {
            return;
        }
        let Some(pair) = self.more.first() else {
            return;
        };
        let (object, class) = *pair;
        if has_free_cell(&self.cells, object, class) && self.more.remove(&(object, class)) {
            self.cells[object as usize] = class as u16 + 1;
        }
    }

    /// Inserts a pair without moving other pairs. Returns true if the pair is new.
    fn write(&mut self, objects: usize, object: u64, class: usize) -> Result<bool, Memory>
        ensures inserts { OnOk result (Inserts self.old self.new object class) }
        ensures added { IfOk result
            (λ added. MatchBool added (¬ Has self.old object class) (Has self.old object class)) }
    {
        make_cells(&mut self.cells, self.more.len(), objects)?;
        if is_in_cell(&self.cells, object, class) {
            return Ok(false);
        }
        if has_free_cell(&self.cells, object, class) && !self.more.contains(&(object, class)) {
            self.cells[object as usize] = class as u16 + 1;
            return Ok(true);
        }
        Ok(self.more.insert((object, class))?)
    }
}

/// Creates a cell for each object, if there are no cells and there is one pair for every 64
/// objects.
fn make_cells(cells: &mut Vec<u16>, pairs: usize, objects: usize) -> Result<(), Memory>
    ensures { OnOk result (Agree cells.old.items cells.new.items) }
{
    if cells.is_empty() && pairs >= objects / 64 {
        cells.resize(objects, 0)?;
    }
    Ok(())
}

/// Returns true if the object's cell contains the class.
#[inline(always)]
fn is_in_cell(cells: &Vec<u16>, object: u64, class: usize) -> bool
    ensures { IsTrue result ↔ IsInCell cells.now.items object class }
{
    let at = object as usize;
    if at >= cells.len() {
        return false;
    }
    let cell = cells[at] as usize;
    cell > 0 && cell - 1 == class
}

/// Returns true if the object's cell is free and can hold the class.
#[inline(always)]
fn has_free_cell(cells: &Vec<u16>, object: u64, class: usize) -> bool
    ensures { IsTrue result ↔ (slice_get cells.now.items object ≡ Some 0) × (class < 65535) }
{
    let at = object as usize;
    at < cells.len() && cells[at] == 0 && class < u16::MAX as usize
}
