//! Computes the header of a value, without the value's data.

ghost use Rattle.std.specs.Prelude.{◌≡◌, length, IfOk};
ghost use Rattle.base_data.specs.model.Graph.{IsValue};
ghost use Rattle.marshal_spec.specs.format.Canonical.{canonical_head};
ghost use Rattle.marshal_spec.specs.format.Isomorphism.{IsTreeOf};
ghost use Rattle.marshal_spec.specs.format.Tree.{Tree, tokens};

use crate::write::measure::measure;
use crate::write::write_walk::WriteWalk;
use base_data::model::Memory;
use base_data::model::value::Val;
use marshal_codec::headers::Head;
use marshal_heap::heap::Heap;
use std::alloc::Global;

/// Returns the header that `write` writes before a value. The header states the length of the
/// value's data in bytes, the number of distinct objects of the value, and the objects' sizes in
/// words. Fails with `Memory` if memory runs out.
pub fn head_of(alloc: Global, heap: &Heap, root: Val) -> Result<Head, Memory>
    requires { IsValue (length heap.now) root }
    ensures { (tree : Tree) → IsTreeOf heap.now root tree
        → IfOk result (λ head. head ≡ canonical_head (tokens tree)) }
{
    let mut walk = WriteWalk::new(alloc, heap, root)?;
    measure(heap, &mut walk)
}
