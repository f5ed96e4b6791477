//! The values that the reader returns.

use base_data::model::value::Val;
use marshal_heap::heap::Heap;

/// A value: its root and the graph to which the root refers.
#[derive(Drop)]
pub struct Value {
    pub heap: Heap,
    pub root: Val,
}

/// A borrowed value: its root and the graph to which the root refers.
#[derive(Clone, Copy)]
pub struct Borrowed<'a> {
    pub heap: &'a Heap,
    pub root: Val,
}
