//! Writes the bytes of a value for a 32-bit reader.

ghost use Rattle.std.specs.Prelude.{◌≡◌, length, IfErr};
ghost use Rattle.base_data.specs.model.Graph.{IsValue};
ghost use Rattle.marshal_spec.specs.format.Isomorphism.{IsTreeOf};
ghost use Rattle.marshal_spec.specs.format.Tree.{Tree};
ghost use Rattle.base_io.specs.StreamState.{change};
ghost use Rattle.marshal_write.specs.write.WrittenValue.{Writes32, IsEarly};
ghost use Rattle.marshal_write.specs.declared.write.writer32.Write32Error.TheVariants.{Fault};
ghost use Rattle.marshal_write.specs.declared.write.writer32.Write32Error.TheVariants.{Memory as OutOfMemory};

use crate::write::compat::{Compat, first_large, head_compat};
use crate::write::measure::measure;
use crate::write::write_buffer::new_buffer;
use crate::write::write_walk::WriteWalk;
use crate::write::writer::write_value;
use base_data::model::Memory;
use base_data::model::value::Val;
use base_io::{Failed, Sink};
use marshal_heap::heap::Heap;
use std::alloc::Global;
use thiserror::Error;

/// The reason why a value was not written for a 32-bit reader.
#[derive(Clone, Copy, Debug, Error)]
pub enum Write32Error {
    #[error("too large for 32 bits")]
    Compat(Compat),
    #[error("write fault")]
    Fault,
    #[error("out of memory")]
    Memory,
}

impl From<Failed> for Write32Error {
    ghost from_gives = { λ _ e. e ≡ Fault };

    fn from(_: Failed) -> Self {
        Write32Error::Fault
    }
}

impl From<Memory> for Write32Error {
    ghost from_gives = { λ _ e. e ≡ OutOfMemory };

    fn from(_: Memory) -> Self {
        Write32Error::Memory
    }
}

/// If a 32-bit reader can hold the value, writes the same bytes as `write`. If not, writes nothing
/// and returns the first token that is too large, or the header if no token is too large.
pub fn write32<K: Sink>(
    alloc: Global,
    heap: &Heap,
    root: Val,
    out: &mut K,
) -> Result<(), Write32Error>
    requires { IsValue (length heap.now) root }
    ensures writes { (tree : Tree) × IsTreeOf heap.now root tree
        × Writes32 (change (K.state out.old) (K.state out.new)) tree result }
    ensures untouched { IfErr result (λ error. IsEarly error → out.new ≡ out.old) }
{
    let _graph = heap.count();
    let mut walk = WriteWalk::new(alloc, heap, root)?;
    let mut buffer = new_buffer(alloc)?;
    let head = measure(heap, &mut walk)?;
    walk.restart(heap);
    if let Some(compat) = first_large(heap, &mut walk) {
        return Err(Write32Error::Compat(compat));
    }
    if let Some(compat) = head_compat(head) {
        return Err(Write32Error::Compat(compat));
    }
    walk.restart(heap);
    write_value(heap, head, &mut walk, out, &mut buffer)?;
    Ok(())
}
