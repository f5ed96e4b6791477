//! What the search knows about objects that are referenced at a second type.

ghost use Rattle.std.specs.Prelude.{IfOk, OnOk};
ghost use Rattle.std.specs.Bool.{OnTrue};
ghost use Rattle.types_table.specs.type_table.Made.{table_of};
ghost use Rattle.check_stream.specs.mismatch_search.Second.{IsFresh, MarksOffset, Shows};

use crate::checker::flat_blocks::{is_flat, is_noted, note};
use crate::checker::mark;
use base_data::model::Memory;
use std::alloc::Global;
use types_table::type_table::TypeTable;

/// The offset of every 64th object, pairs of an object and a known second type of the object, and
/// the number of tokens that may be read again.
#[derive(Drop)]
pub struct SecondReads {
    pub marks: Vec<usize>,
    pub notes: Vec<(usize, usize)>,
    pub left: u64,
}

impl SecondReads {
    /// Creates the state without objects.
    pub fn new(alloc: Global) -> SecondReads
        ensures { IsFresh result }
    {
        SecondReads {
            marks: Vec::new(alloc),
            notes: Vec::new(alloc),
            left: 0,
        }
    }

    /// Removes all marks and notes, and keeps the memory.
    pub fn restart(&mut self)
        ensures { IsFresh self.new }
    {
        self.marks.clear();
        self.notes.clear();
        self.left = 0;
    }

    /// Marks the offset `at` if `made`, the number of objects before the offset, calls for a mark
    /// (every 64 objects). If memory runs out, fails with `Memory`.
    pub fn mark(&mut self, at: usize, made: usize) -> Result<(), Memory>
        ensures { OnOk result (MarksOffset self.old at made self.new) }
    {
        mark(&mut self.marks, at, made)?;
        Ok(())
    }

    /// Returns true if the tokens up to this offset prove that the object has the second type. If
    /// the result is false, nothing is known.
    pub fn show(
        &mut self,
        table: &TypeTable,
        prefix: &[u8],
        object: usize,
        ty: usize,
    ) -> Result<bool, Memory>
        ensures { IfOk result
            (λ shown. OnTrue shown
            (Shows (table_of table.now) prefix.now self.old object ty self.new)) }
    {
        if is_noted(self.notes.as_slice(), object, ty) {
            return Ok(true);
        }
        let marks = self.marks.as_slice();
        if !is_flat(table, &[], prefix, marks, &mut self.left, object, ty) {
            return Ok(false);
        }
        note(&mut self.notes, object, ty)?;
        Ok(true)
    }
}
