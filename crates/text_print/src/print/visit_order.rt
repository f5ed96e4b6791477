//! Objects in the order of their first visits.

ghost use Rattle.std.specs.Prelude.{◌≡◌, ◌∷◌, [], ◌++◌, IfOk, OnOk};

use base_data::model::Memory;
use std::alloc::Global;
use std::marker::Model;

/// A list of objects: a range of consecutive numbers, followed by other objects. The range takes no
/// memory, and contains all objects of a value that was read. Contracts see the list of the
/// objects.
#[derive(Drop)]
pub struct VisitOrder {
    // The range from `first` up to `next`, exclusive.
    first: u64,
    next: u64,
    others: Vec<u64>,
}

impl Model for VisitOrder {
    ghost use Rattle.std.specs.Prelude.{List, ℕ, ◌++◌, ◌-◌, ◌≤◌};
    ghost use Rattle.text_print.specs.print.PrintRow.{row};

    ghost Value = { List ℕ };

    ghost view = { λ o. row o.first (o.next - o.first) ++ o.others.items };

    ghost invariant = { λ o. o.first ≤ o.next };
}

impl VisitOrder {
    /// Returns the empty list of objects. If objects are appended in consecutive order from `first`
    /// on, they take no memory.
    pub fn new(alloc: Global, first: u64) -> VisitOrder
        ensures { result ≡ [] }
    {
        VisitOrder {
            first,
            next: first,
            others: Vec::new(alloc),
        }
    }

    /// Returns the object whose appending would extend the range.
    #[inline(always)]
    pub fn next(&self) -> u64 {
        self.next
    }

    /// Appends an object.
    #[inline(always)]
    pub fn push(&mut self, o: u64) -> Result<(), Memory>
        ensures { OnOk result (self.new ≡ self.old ++ o ∷ []) }
    {
        if o == self.next && o < u64::MAX && self.others.is_empty() {
            self.next = o + 1;
            return Ok(());
        }
        Ok(self.others.push(o)?)
    }

    /// Returns the objects in the order of their visits.
    pub fn numbers(&self, alloc: Global) -> Result<Vec<u64>, Memory>
        ensures { IfOk result (λ numbers. numbers.items ≡ self.now) }
    {
        let mut numbers = Vec::new(alloc);
        for o in self.first..self.next {
            numbers.push(o)?;
        }
        numbers.extend_from_slice(&self.others)?;
        Ok(numbers)
    }
}
