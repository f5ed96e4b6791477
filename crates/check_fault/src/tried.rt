//! A value that is checked against a type.

ghost use Rattle.std.specs.Prelude.{◌<◌, length};
ghost use Rattle.base_data.specs.model.Graph.{IsValue};
ghost use Rattle.marshal_heap.specs.heap.Borrowed.{IsValue-prop};

use base_data::model::value::Val;
use marshal_heap::heap::Heap;
use types_table::type_table::TypeTable;

/// A value of a heap, and the number of the type of a table against which the value is checked.
#[derive(Clone, Copy)]
pub struct Tried<'a> {
    pub heap: &'a Heap,
    pub table: &'a TypeTable,
    pub value: Val,
    pub at: usize,
    pub ghost valid: { IsValue (length heap.now) value } by { IsValue-prop (length heap.now) value },
    pub ghost number: { at < length table.now.nodes },
}
