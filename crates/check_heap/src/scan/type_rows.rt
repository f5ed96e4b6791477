//! The row of each type: a fast path that decides most matches.

ghost use Rattle.std.specs.Prelude.{IfOk};
ghost use Rattle.check_heap.specs.scan.FittingRows.{AreRows};

use crate::fits::{WordConditions, row_of};
use base_data::model::Memory;
use marshal_heap::heap::Heap;
use std::alloc::Global;
use types_table::type_table::TypeTable;

/// A table of types, and the rows of its first types.
#[derive(Clone, Copy)]
pub struct Fitting<'a> {
    pub table: &'a TypeTable,
    pub rows: &'a [WordConditions],
    pub ghost are: { AreRows table.now.nodes rows.now },
}

/// Returns the rows of all types. If there are more types than objects, returns no rows, because
/// computing them would cost more than it saves.
pub fn rows_of(alloc: Global, heap: &Heap, table: &TypeTable) -> Result<Vec<WordConditions>, Memory>
    ensures { IfOk result (λ rows. AreRows table.now.nodes rows.items) }
{
    let mut rows = Vec::new(alloc);
    let types = table.count();
    if heap.count() < types as u64 {
        return Ok(rows);
    }
    for i in 0..types {
        rows.push(row_of(table.shape(i)))?;
    }
    Ok(rows)
}
