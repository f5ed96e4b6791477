//! Stores marks for the objects that a walk has visited.

ghost use Rattle.std.specs.Prelude.{◌≡◌, ◌+◌, ◌<◌, length, true, false, IsOk, IfOk, OnOk};
ghost use Rattle.std.specs.Prelude.{MatchResult, replicate, slice_index, slice_set};
ghost use Rattle.marshal_write.specs.write.Marks.{mark_in_order, in_order, marks_of};

use base_data::model::Memory;
use std::alloc::Global;

/// The marks of all objects. The mark of a visited object is the object's position among the
/// visited objects, counted from 1. The mark of every other object is 0. As long as objects are
/// visited in the order of their numbers, only the count of visited objects is stored.
#[derive(Drop)]
pub struct Marks {
    objects: u64,
    ordered: bool,
    // The number of visited objects, if the objects were visited in the order of their numbers.
    met: u64,
    // The marks, if the objects were not visited in the order of their numbers.
    table: Vec<u64>,
}

impl Marks {
    /// Creates marks for `objects` objects. No object is marked as visited.
    pub fn new(alloc: Global, objects: u64) -> Marks
        ensures marks { marks_of result ≡ replicate objects 0 }
        ensures ordered { result.ordered ≡ true }
        ensures met { result.met ≡ 0 }
    {
        Marks {
            objects,
            ordered: true,
            met: 0,
            table: Vec::new(alloc),
        }
    }

    /// Returns true if all objects were visited in the order of their numbers.
    #[inline(always)]
    pub fn is_ordered(&self) -> bool
        ensures { result ≡ self.now.ordered }
    {
        self.ordered
    }

    /// Returns the mark of object `k`.
    #[inline(always)]
    pub fn get(&self, k: u64) -> u64
        requires { k < length (marks_of self.now) }
        ensures { result ≡ slice_index (marks_of self.now) k }
    {
        if self.ordered {
            mark_of(self.met, k)
        } else {
            self.table[k as usize]
        }
    }

    /// Sets the mark of object `k`. Only the first object that is visited out of order allocates
    /// memory. Fails with `Memory` if memory runs out.
    #[inline(always)]
    pub fn set(&mut self, k: u64, mark: u64) -> Result<(), Memory>
        requires inside { k < length (marks_of self.old) }
        requires some { 0 < mark }
        ensures marks { MatchResult result
            (λ _. marks_of self.new ≡ slice_set (marks_of self.old) k mark)
            (λ _. self.new ≡ self.old) }
        ensures met { OnOk result (self.new.ordered ≡ true → self.new.met ≡ mark) }
        ensures table { self.old.ordered ≡ false → IsOk result }
        ensures next { k ≡ self.old.met → mark ≡ self.old.met + 1 → IsOk result }
        ensures order { OnOk result (self.new.ordered ≡ true → k ≡ self.old.met) }
        ensures was { self.new.ordered ≡ true → self.old.ordered ≡ true }
    {
        if self.ordered {
            if k == self.met && k == mark - 1 {
                self.met = mark;
                return Ok(());
            }
            self.table = make_table(*self.table.allocator(), self.objects, self.met)?;
            self.ordered = false;
        }
        self.table[k as usize] = mark;
        Ok(())
    }

    /// Sets the marks of all objects to 0.
    pub fn clear(&mut self)
        ensures marks { marks_of self.new ≡ replicate (length (marks_of self.old)) 0 }
        ensures met { self.new.met ≡ 0 }
        ensures ordered { self.new.ordered ≡ self.old.ordered }
    {
        self.met = 0;
        self.table.fill(0);
    }
}

// Returns the mark of object `k`, if the first `met` objects are visited in order.
#[inline(always)]
fn mark_of(met: u64, k: u64) -> u64
    ensures { result ≡ mark_in_order met k }
{
    if k < met { k + 1 } else { 0 }
}

// Returns the marks of `objects` objects, if the first `met` objects are visited in order. Fails
// with `Memory` if memory runs out.
#[cold]
fn make_table(alloc: Global, objects: u64, met: u64) -> Result<Vec<u64>, Memory>
    ensures { IfOk result (λ table. table.items ≡ in_order met objects) }
{
    let mut table = Vec::with_capacity(alloc, objects as usize)?;
    for k in 0..objects {
        table.push_reserved(mark_of(met, k));
    }
    Ok(table)
}
