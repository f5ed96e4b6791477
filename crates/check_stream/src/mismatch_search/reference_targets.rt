//! Records which objects are targets of references.

ghost use Rattle.std.specs.Prelude.{◌≡◌, ◌<◌, [], OnOk, All};
ghost use Rattle.std.specs.Bool.{OnTrue};
ghost use Rattle.check_stream.specs.mismatch_search.Find.{Reaches, AlsoMarks, IsClear, IsAlone};

use crate::mismatch_search::way::Link;
use base_data::model::Memory;
use std::alloc::Global;

/// A mark for each object of a prefix of the objects. If a reference at a position with an expected
/// type leads back to an object, the mark of the object is true. A reference at a position with an
/// expected type never leads to an object without a mark.
#[derive(Drop)]
pub struct Again {
    pub marks: Vec<bool>,
}

impl Again {
    /// Creates a record without references.
    pub fn new(alloc: Global) -> Again
        ensures { result.marks.items ≡ [] }
    {
        Again {
            marks: Vec::new(alloc),
        }
    }

    /// Removes all marks and keeps the memory.
    pub fn restart(&mut self)
        ensures { self.new.marks.items ≡ [] }
    {
        self.marks.clear();
    }

    /// Extends the list of marks such that the object, one of `made` objects, has a mark. If memory
    /// runs out, fails with `Memory`.
    fn reach(&mut self, object: usize, made: usize) -> Result<(), Memory>
        requires { object < made }
        ensures { OnOk result (Reaches self.old.marks.items object self.new.marks.items) }
    {
        if object < self.marks.len() {
            return Ok(());
        }
        self.marks.resize(made, false)?;
        Ok(())
    }

    /// Marks the object, one of `made` objects, as the target of a reference. If memory runs out,
    /// fails with `Memory`.
    pub fn mark(&mut self, object: usize, made: usize) -> Result<(), Memory>
        requires { object < made }
        ensures { OnOk result (AlsoMarks self.old.marks.items object self.new.marks.items) }
    {
        self.reach(object, made)?;
        self.marks[object] = true;
        Ok(())
    }

    /// Returns true if no reference leads back to the object.
    fn is_clear(&self, object: usize) -> bool
        ensures { OnTrue result (IsClear self.now.marks.items object) }
    {
        if object >= self.marks.len() {
            return true;
        }
        if self.marks[object] {
            return false;
        }
        true
    }

    /// Returns true if no reference leads back to any block of the links.
    pub fn are_alone(&self, links: &[Link]) -> bool
        ensures { OnTrue result (All (IsAlone self.now.marks.items) links.now) }
    {
        'links: for link in links {
            if !self.is_clear(link.object as usize) {
                return false;
            }
        }
        true
    }
}
