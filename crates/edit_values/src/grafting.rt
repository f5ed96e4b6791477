//! Copies a part of another value to a location.

ghost use Rattle.std.specs.Prelude.{ℕ, ◌≡◌, length, Result, Ok, List, OnOk};
ghost use Rattle.base_data.specs.declared.model.value.Val.{Val};
ghost use Rattle.base_data.specs.declared.model.value.Obj.{Obj};
ghost use Rattle.base_data.specs.model.Graph.{IsValue};
ghost use Rattle.types_spec.specs.types.Table.{table_shapes};
ghost use Rattle.types_table.specs.type_table.Made.{table_of};
ghost use Rattle.edit_values.specs.declared.spots.TypedLocation.{TypedLocation};
ghost use Rattle.edit_values.specs.Grafts.{IsGraftAnswerIn, IsGraftApplied};
ghost use Rattle.edit_values.specs.GraftLaws.{HasGraft};
ghost use Rattle.edit_values.specs.EditPositions.{position_at};
ghost use Rattle.edit_values.specs.Reasons.{Reason};
ghost use Rattle.edit_values.specs.TableEdits.{Gives};

use crate::edit::write_if_typed;
use crate::edit_refusal::{EditRefusal, EditSide};
use crate::spots::find_position;
use base_data::model::path::Path;
use base_data::model::value::Val;
use marshal_heap::heap::Heap;
use marshal_write::graft::append_copy;
use std::alloc::Global;
use types_table::type_table::TypeTable;

/// Replaces the value at `path` by a copy of the value at the path `source` of another value. The
/// two values have type 0 of the table. If the graft is refused, the edited value is unchanged.
pub fn graft(
    alloc: Global,
    heap: &mut Heap,
    root: &mut Val,
    table: &TypeTable,
    path: &Path,
    from: &Heap,
    other: Val,
    source: &Path,
) -> Result<(), EditRefusal>
    requires value { IsValue (length heap.old) root.old }
    requires other { IsValue (length from.now) other }
    // Either the value is edited, or the value is unchanged and the result is a refusal.
    ensures answer { IsGraftApplied table.now path.now (from.now, other) source.now heap.old
        root.old heap.new root.new result }
    // If memory does not run out, the result is the only answer that the specification allows.
    ensures only { (answer : Result (List Obj × Val) (Reason ℕ))
        → IsGraftAnswerIn table.now path.now (from.now, other) source.now heap.old root.old answer
        → Gives answer heap.new root.new result }
    // The new part is isomorphic to the copied part and consists of new objects.
    ensures copy { (p part : TypedLocation ℕ)
        → position_at (table_shapes (table_of table.now)) heap.old root.old 0 path.now ≡ Ok p
        → position_at (table_shapes (table_of table.now)) from.now other 0 source.now ≡ Ok part
        → OnOk result
        (HasGraft (table_shapes (table_of table.now)) 0 p part (from.now, other) heap.old
        (heap.new, root.new)) }
    ensures value { IsValue (length heap.new) root.new }
{
    table.holds();
    let position = find_position(heap, *root, table, EditSide::Left, path)?;
    let part = find_position(from, other, table, EditSide::Right, source)?;
    let count = heap.count();
    let value = append_copy(alloc, heap, from, part.value)?;
    write_if_typed(alloc, heap, root, table, position, value, count)
}
