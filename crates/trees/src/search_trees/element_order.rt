//! The order of elements.

ghost use Rattle.std.specs.Prelude.{◌≡◌, ◌<◌, ◌↔◌, List, length, IsTrue};
ghost use Rattle.base_data.specs.declared.model.value.Obj.{Obj};
ghost use Rattle.base_data.specs.model.Graph.{IsValue};
ghost use Rattle.marshal_heap.specs.heap.Heap.{object_at, bytes_of};
ghost use Rattle.marshal_heap.specs.heap.Borrowed.{IsValue-prop};
ghost use Rattle.trees.specs.search_trees.NodeParts as parts;
ghost use Rattle.trees.specs.search_trees.NodeParts.{number, key_of, is_key_less, are_before};
ghost use Rattle.trees.specs.search_trees.TreeFault.{IsElementLess};

use crate::search_trees::tree_node::{element_at, number_in};
use base_data::model::value::Val;
use marshal_heap::heap::{Heap, Kind, NumberedObject};

/// Two objects of a heap.
#[derive(Clone, Copy)]
pub struct Objects<'a> {
    pub heap: &'a Heap,
    pub first: u64,
    pub second: u64,
    pub ghost first_there: { first < length heap.now },
    pub ghost second_there: { second < length heap.now },
}

/// Two values of a heap.
#[derive(Clone, Copy)]
struct ValuePair<'a> {
    heap: &'a Heap,
    first: Val,
    second: Val,
    ghost first_in: { IsValue (length heap.now) first } by { IsValue-prop (length heap.now) first },
    ghost second_in: { IsValue (length heap.now) second } by { IsValue-prop (length heap.now) second },
}

/// Returns true if the element of the first node is less than the element of the second node.
pub fn is_element_less(nodes: &Objects<'_>) -> bool
    ensures { IsTrue result
        ↔ IsElementLess nodes.now.heap.now nodes.now.first nodes.now.second }
{
    let heap = nodes.heap;
    let first = element_at(&NumberedObject {
        heap,
        object: nodes.first,
    });
    let second = element_at(&NumberedObject {
        heap,
        object: nodes.second,
    });
    is_less(&ValuePair {
        heap,
        first,
        second,
    })
}

/// Returns true if the first value is less than the second value.
fn is_less(values: &ValuePair<'_>) -> bool
    ensures { result ≡ parts.is_less values.now.heap.now values.now.first values.now.second }
{
    match values.first {
        Val::Ref(first) => match values.second {
            Val::Ref(second) => is_before(&Objects {
                heap: values.heap,
                first,
                second,
            }),
            _ => false,
        },
        _ => is_number_less(number_in(values.first), values.second),
    }
}

/// Returns true if the number is less than the value.
fn is_number_less(z: i64, w: Val) -> bool
    ensures { (graph : List Obj) → result ≡ is_key_less (number z) (key_of graph w) }
{
    match w {
        Val::Ref(_) => true,
        _ => z < number_in(w),
    }
}

/// Returns true if the bytes of the first string precede the bytes of the second string.
fn is_before(strings: &Objects<'_>) -> bool
    ensures { result ≡ are_before (bytes_of (object_at strings.now.heap.now strings.now.first))
        (bytes_of (object_at strings.now.heap.now strings.now.second)) }
{
    let heap = strings.heap;
    let (o, p) = (strings.first, strings.second);
    if o == p {
        return false;
    }
    let first = len_of(&NumberedObject { heap, object: o });
    let second = len_of(&NumberedObject { heap, object: p });
    for i in 0..first.min(second) {
        let a = heap.byte(o, i);
        let b = heap.byte(p, i);
        if a != b {
            return a < b;
        }
    }
    first < second
}

/// Returns the length of a string in bytes, or 0 if the object is not a string.
fn len_of(placed: &NumberedObject<'_>) -> u64
    ensures { result ≡ length (bytes_of (object_at placed.now.heap.now placed.now.object)) }
{
    match placed.heap.kind(placed.object) {
        Kind::Bytes(len) => len,
        _ => 0,
    }
}
