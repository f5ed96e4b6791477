//! A borrowed heap together with one value or one object of the heap.

ghost use Rattle.std.specs.Prelude.{◌<◌, length};
ghost use Rattle.base_data.specs.model.Graph.{IsValue};
ghost use Rattle.marshal_heap.specs.heap.Borrowed.{IsValue-prop};

use crate::heap::heap::Heap;
use base_data::model::value::Val;

/// A value of a borrowed heap: an integer, an atom, or a reference to an object of the heap.
/// Usually the value is the root that was read into the heap.
#[derive(Clone, Copy)]
pub struct Rooted<'a> {
    pub heap: &'a Heap,
    pub root: Val,
    pub ghost value: { IsValue (length heap.now) root } by { IsValue-prop (length heap.now) root },
}

/// An object of a borrowed heap, given by the object's number.
#[derive(Clone, Copy)]
pub struct NumberedObject<'a> {
    pub heap: &'a Heap,
    pub object: u64,
    pub ghost there: { object < length heap.now },
}
