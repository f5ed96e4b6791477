//! Locations in a value, and the location to which a path leads.

ghost use Rattle.std.specs.Prelude.{◌≡◌, ◌<◌, length, IfOk};
ghost use Rattle.base_data.specs.model.Graph.{IsValue};
ghost use Rattle.types_spec.specs.types.Table.{table_shapes};
ghost use Rattle.types_table.specs.type_table.Made.{table_of};
ghost use Rattle.edit_values.specs.EditPositions.{position_at, spot_after, on_side, StandsAt};

use crate::edit_refusal::{EditRefusal, EditSide};
use base_data::model::path::Path;
use base_data::model::value::Val;
use check_fault::{Tried, step};
use marshal_heap::heap::Heap;
use types_table::type_table::TypeTable;

/// A location that can be changed: the root, or a field of an object.
#[derive(Clone, Copy, Debug, PartialEq, Eq)]
pub enum Location {
    Root,
    /// The object's number and the index of the field.
    Field(u64, u64),
}

/// A location, the value at the location, and the type of that value.
#[derive(Clone, Copy, Debug, PartialEq, Eq)]
pub struct TypedLocation<T> {
    pub spot: Location,
    pub value: Val,
    pub ty: T,
}

/// Returns the location to which the path of one side of an edit leads.
pub(crate) fn find_position(
    heap: &Heap,
    root: Val,
    table: &TypeTable,
    side: EditSide,
    path: &Path,
) -> Result<TypedLocation<usize>, EditRefusal>
    requires value { IsValue (length heap.now) root }
    ensures position { result
        ≡ on_side side (position_at (table_shapes (table_of table.now)) heap.now root 0 path.now) }
    ensures number { IfOk result (λ position. position.ty < length table.now.nodes) }
    ensures value { IfOk result (λ position. IsValue (length heap.now) position.value) }
    ensures stands { IfOk result (λ position. StandsAt heap.now root position.spot position.value) }
{
    table.holds();
    let mut position = TypedLocation {
        spot: Location::Root,
        value: root,
        ty: table.root(),
    };
    for i in 0..path.len() {
        let n = path.step(i);
        let tried = Tried {
            heap,
            table,
            value: position.value,
            at: position.ty,
        };
        let Some((value, ty)) = step(&tried, n) else {
            return Err(EditRefusal::NoField(side, i));
        };
        let spot = spot_after(position.value, n);
        position = TypedLocation { spot, value, ty };
    }
    Ok(position)
}

/// Returns the location to which a step leads from a value.
fn spot_after(value: Val, step: u64) -> Location
    ensures { result ≡ spot_after value step }
{
    match value {
        Val::Ref(object) => Location::Field(object, step),
        _ => Location::Root,
    }
}
