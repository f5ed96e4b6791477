//! Numbers the objects that a value reaches.

ghost use Rattle.std.specs.Prelude.{◌≡◌, ◌<◌, length, slice_index, IfOk};
ghost use Rattle.base_data.specs.model.Graph.{IsValue};
ghost use Rattle.marshal_spec.specs.format.Isomorphism.{IsTreeOf};
ghost use Rattle.marshal_spec.specs.format.Tree.{Tree};
ghost use Rattle.marshal_write.specs.write.Marks.{marks_of};
ghost use Rattle.marshal_write.specs.write.ObjectNumbers.{AreNumbered};

use crate::write::marks::Marks;
use crate::write::write_walk::WriteWalk;
use base_data::model::Memory;
use base_data::model::value::Val;
use marshal_heap::heap::Heap;
use std::alloc::Global;

/// For each object of a graph, its position among the objects that a value reaches. The order is
/// depth first, fields from left to right.
#[derive(Drop)]
pub struct Numbers {
    marks: Marks,
}

impl Numbers {
    /// Returns the position of object `k`, counted from 1, or 0 if the value does not reach the
    /// object.
    pub fn get(&self, k: u64) -> u64
        requires { k < length (marks_of self.now.marks) }
        ensures { result ≡ slice_index (marks_of self.now.marks) k }
    {
        self.marks.get(k)
    }
}

/// Numbers the objects that the value `root` reaches. Fails with `Memory` if memory runs out.
pub fn number_objects(alloc: Global, heap: &Heap, root: Val) -> Result<Numbers, Memory>
    requires { IsValue (length heap.now) root }
    ensures { (tree : Tree) → IsTreeOf heap.now root tree
        → IfOk result (λ n. AreNumbered heap.now root tree (marks_of n.marks)) }
{
    let _graph = heap.count();
    let mut walk = WriteWalk::new(alloc, heap, root)?;
    'tokens: while let Some(_step) = walk.next(heap)? {}
    Ok(Numbers {
        marks: walk.into_marks(),
    })
}
