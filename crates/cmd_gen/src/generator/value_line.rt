//! The line for a generated value.

ghost use Rattle.std.specs.Prelude.{◌≡◌, ◌++◌, OnOk, IfOk, decimal};
ghost use Rattle.marshal_spec.specs.format.Canonical.{canon};
ghost use Rattle.marshal_spec.specs.format.Isomorphism.{IsTreeOf};
ghost use Rattle.marshal_spec.specs.format.Tree.{Tree};
ghost use Rattle.cmd_gen.specs.generator.ValueLine.{generated_text};

use crate::generator::tally::Tally;
use base_data::model::Memory;
use itoa::Buffer;
use marshal_heap::heap::Rooted;
use marshal_write::write::{head_of, write};
use std::alloc::Global;

/// Returns the line for a value: the number and the sum of the canonical bytes, the number of
/// objects, the size in 64-bit words, and the verdict.
pub fn generated_line(alloc: Global, value: &Rooted<'_>, verdict: &[u8]) -> Result<Vec<u8>, Memory>
    ensures { (tree : Tree) → IsTreeOf value.now.heap.now value.now.root tree
        → IfOk result (λ line. line.items ≡ generated_text tree verdict.now) }
{
    let head = head_of(alloc, value.heap, value.root)?;
    let tally = tally_of(alloc, value)?;
    let mut line = Vec::new(alloc);
    write_count(&mut line, b"bytes ", tally.count())?;
    write_count(&mut line, b" sum ", tally.sum())?;
    write_count(&mut line, b" objects ", head.objects)?;
    write_count(&mut line, b" words ", head.w64)?;
    append(&mut line, b" ")?;
    append(&mut line, verdict)?;
    Ok(line)
}

/// Counts and sums the canonical bytes of a value.
fn tally_of(alloc: Global, value: &Rooted<'_>) -> Result<Tally, Memory>
    ensures { (tree : Tree) → IsTreeOf value.now.heap.now value.now.root tree
        → IfOk result (λ tally. tally.written ≡ canon tree) }
{
    let _graph = value.heap.count();
    let mut tally = Tally::new();
    match write(alloc, value.heap, value.root, &mut tally) {
        Ok(()) => Ok(tally),
        Err(_) => Err(Memory),
    }
}

/// Appends a name and a number in decimal.
fn write_count(line: &mut Vec<u8>, name: &[u8], n: u64) -> Result<(), Memory>
    ensures { OnOk result (line.new.items ≡ line.old.items ++ name.now ++ decimal n) }
{
    append(line, name)?;
    append(line, Buffer::new().format(n).as_bytes())
}

/// Appends the bytes to the line.
fn append(line: &mut Vec<u8>, bytes: &[u8]) -> Result<(), Memory>
    ensures { OnOk result (line.new.items ≡ line.old.items ++ bytes.now) }
{
    Ok(line.extend_from_slice(bytes)?)
}
