//! Decides whether the value of a 64-bit word matches a type.

ghost use Rattle.std.specs.Prelude.{◌≡◌, ◌<◌, ◌↔◌, length, IsTrue};
ghost use Rattle.base_data.specs.model.Graph.{IsValue};
ghost use Rattle.base_data.specs.declared.model.value.Val.{Val};
ghost use Rattle.marshal_heap.specs.heap.Heap.{word_of, IsFieldWord};
ghost use Rattle.types_spec.specs.types.Table.{table_shapes};
ghost use Rattle.types_table.specs.type_table.Made.{table_of};
ghost use Rattle.check_heap.specs.scan.TypeRows.{table_in};

use crate::fits::{needs_of, surely_fits};
use crate::scan::type_rows::Fitting;
use base_data::model::value::Val;
use marshal_heap::heap::Heap;
use types_table::type_table::TypeTable;

/// Returns true if the value of a word matches a type. In most cases the row of the type decides.
#[inline(always)]
pub fn fits_type(heap: &Heap, fitting: Fitting<'_>, ty: usize, word: u64) -> bool
    requires word { IsFieldWord heap.now word }
    requires node { ty < length fitting.table.now.nodes }
    ensures { (v : Val) → IsValue (length heap.now) v → word ≡ word_of heap.now v → IsTrue result
        ↔ (table_shapes (table_in fitting.entry)).fits heap.now v ty }
{
    if ty < fitting.rows.len() && surely_fits(heap, fitting.rows[ty], word) {
        return true;
    }
    fits_by_kind(heap, fitting.table, ty, word)
}

/// Decides by the kind of the value whether the value of a word matches a type.
#[cold]
#[inline(never)]
fn fits_by_kind(heap: &Heap, table: &TypeTable, ty: usize, word: u64) -> bool
    requires word { IsFieldWord heap.now word }
    requires node { ty < length table.now.nodes }
    ensures { (v : Val) → IsValue (length heap.now) v → word ≡ word_of heap.now v → IsTrue result
        ↔ (table_shapes (table_of table.now)).fits heap.now v ty }
{
    let _count = heap.count();
    needs_of(heap, heap.value_of(word), table.shape(ty)).is_some()
}
