//! Writes the bytes of a value.

ghost use Rattle.std.specs.Prelude.{◌≡◌, ◌≤◌, [], length, true, IsErrOf, MatchResult, vec_capacity};
ghost use Rattle.base_data.specs.model.Graph.{IsValue};
ghost use Rattle.marshal_spec.specs.format.Canonical.{canon, canonical_head, data_encoding};
ghost use Rattle.marshal_spec.specs.format.Isomorphism.{IsTreeOf};
ghost use Rattle.marshal_spec.specs.format.Tree.{Tree, tokens};
ghost use Rattle.base_io.specs.StreamState.{change};
ghost use Rattle.base_io.specs.Sink.{Writes, WritesPart, WritesOrFails};
ghost use Rattle.marshal_write.specs.write.WriteBuffer.{Adds};
ghost use Rattle.marshal_write.specs.write.WriteWalk.{IsWalk};

use crate::write::measure::measure;
use crate::write::token_encoding::add_step;
use crate::write::write_buffer::{LIMIT, add, flush, new_buffer};
use crate::write::write_walk::WriteWalk;
use base_data::model::value::Val;
use base_io::{Failed, Sink, WriteError};
use marshal_codec::headers::{Head, encode};
use marshal_heap::heap::Heap;
use std::alloc::Global;

/// Writes the bytes that OCaml's runtime writes for a value: the canonical bytes of the unique tree
/// with the same value. The function allocates all memory before the first byte is written. If a
/// call on the sink fails, a proper prefix of the bytes was written.
pub fn write<K: Sink>(alloc: Global, heap: &Heap, root: Val, out: &mut K) -> Result<(), WriteError>
    requires { IsValue (length heap.now) root }
    ensures writes { (tree : Tree) × IsTreeOf heap.now root tree
        × WritesOrFails (change (K.state out.old) (K.state out.new)) (canon tree) result }
    ensures untouched { IsErrOf result WriteError.Memory → out.new ≡ out.old }
{
    let _graph = heap.count();
    let mut walk = WriteWalk::new(alloc, heap, root)?;
    let mut buffer = new_buffer(alloc)?;
    let head = measure(heap, &mut walk)?;
    walk.restart(heap);
    write_value(heap, head, &mut walk, out, &mut buffer)?;
    Ok(())
}

/// Writes a header and then the encodings of the tokens of a walk.
pub fn write_value<'a, K: Sink>(
    heap: &'a Heap,
    head: Head,
    walk: &mut WriteWalk<'a>,
    out: &mut K,
    buffer: &mut Vec<u8>,
) -> Result<(), Failed>
    requires walk { IsWalk heap.now walk.old }
    requires first { walk.old.given ≡ 0 }
    requires again { walk.old.again ≡ true }
    requires head { (tree : Tree) → IsTreeOf heap.now walk.old.root tree
        → head ≡ canonical_head (tokens tree) }
    requires empty { buffer.old.items ≡ [] }
    requires room { LIMIT ≤ vec_capacity buffer.old }
    ensures { (tree : Tree) → IsTreeOf heap.now walk.old.root tree → MatchResult result
        (λ _. Writes (change (K.state out.old) (K.state out.new)) (canon tree))
        (λ _. WritesPart (change (K.state out.old) (K.state out.new)) (canon tree)) }
{
    let (bytes, len) = encode(head);
    add(out, buffer, &bytes[..len])?;
    add_tokens(heap, walk, out, buffer)?;
    flush(out, buffer)
}

// Appends the encodings of the tokens of a walk to the output.
fn add_tokens<'a, K: Sink>(
    heap: &'a Heap,
    walk: &mut WriteWalk<'a>,
    out: &mut K,
    buffer: &mut Vec<u8>,
) -> Result<(), Failed>
    requires walk { IsWalk heap.now walk.old }
    requires first { walk.old.given ≡ 0 }
    requires again { walk.old.again ≡ true }
    requires room { LIMIT ≤ vec_capacity buffer.old }
    ensures adds { (tree : Tree) → IsTreeOf heap.now walk.old.root tree
        → Adds (K.state out.old) (K.state out.new) buffer.old.items buffer.new.items
        (data_encoding (tokens tree)) result }
    ensures room { LIMIT ≤ vec_capacity buffer.new }
{
    'tokens: while let Some(step) = walk.next_again(heap) {
        add_step(heap, step, out, buffer)?;
    }
    Ok(())
}
