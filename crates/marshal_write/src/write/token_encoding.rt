//! Encodes the tokens of a value.

ghost use Rattle.std.specs.Prelude.{◌≡◌, ◌<◌, ◌≤◌, length, take, vec_capacity, flat_map};
ghost use Rattle.marshal_spec.specs.format.Canonical.{encoding, leaf_encoding, double_bytes};
ghost use Rattle.base_data.specs.declared.model.value.Obj.TheVariants as objects;
ghost use Rattle.base_data.specs.declared.model.value.Val.TheVariants as vals;
ghost use Rattle.marshal_heap.specs.heap.Heap.{IsHeap, object_at, bytes_of, doubles_of, word_of};
ghost use Rattle.marshal_heap.specs.heap.ObjectWords.{body_of};
ghost use Rattle.marshal_write.specs.write.WriteStep.{token_in, IsHeld};
ghost use Rattle.marshal_write.specs.write.WriteBuffer.{Adds};

use crate::write::write_buffer::{LIMIT, add, add_byte, add_first};
use crate::write::write_walk::{WriteStep, kind_at};
use base_io::{Failed, Sink};
use marshal_codec::codes::{
    encode_block, encode_double_array_len, encode_int, encode_shared, encode_string_len,
};
use marshal_heap::heap::{Heap, Kind};

/// Appends the encoding of a token to the output.
#[inline(always)]
pub fn add_step<K: Sink>(
    heap: &Heap,
    step: WriteStep,
    out: &mut K,
    buffer: &mut Vec<u8>,
) -> Result<(), Failed>
    requires heap { IsHeap heap.now }
    requires held { IsHeld heap.now step }
    requires room { LIMIT ≤ vec_capacity buffer.old }
    ensures adds { Adds (K.state out.old) (K.state out.new) buffer.old.items buffer.new.items
        (encoding (token_in heap.now step)) result }
    ensures room { LIMIT ≤ vec_capacity buffer.new }
{
    match step {
        WriteStep::Integer(z) => add_prefix(encode_int(z), out, buffer),
        WriteStep::Atom(tag) => add_prefix(encode_block(tag, 0), out, buffer),
        WriteStep::Shared(offset) => add_prefix(encode_shared(offset), out, buffer),
        WriteStep::Block(tag, size) => add_prefix(encode_block(tag, size), out, buffer),
        WriteStep::Leaf(k, word) => add_leaf(heap, k, word, out, buffer),
    }
}

// Appends the first `prefix.1` bytes of the array `prefix.0` to the output.
#[inline(always)]
fn add_prefix<K: Sink>(
    prefix: ([u8; 9], usize),
    out: &mut K,
    buffer: &mut Vec<u8>,
) -> Result<(), Failed>
    requires few { prefix.1 ≤ 9 }
    requires room { LIMIT ≤ vec_capacity buffer.old }
    ensures adds { Adds (K.state out.old) (K.state out.new) buffer.old.items buffer.new.items
        (take prefix.1 prefix.0) result }
    ensures room { LIMIT ≤ vec_capacity buffer.new }
{
    let (bytes, len) = prefix;
    match len {
        1 => add_byte(out, buffer, bytes[0]),
        2 => add(out, buffer, &bytes[..2]),
        3 => add(out, buffer, &bytes[..3]),
        5 => add(out, buffer, &bytes[..5]),
        _ => add_first(out, buffer, &bytes, len),
    }
}

// Appends the encoding of an object without fields to the output.
#[inline(always)]
fn add_leaf<K: Sink>(
    heap: &Heap,
    k: u64,
    word: u64,
    out: &mut K,
    buffer: &mut Vec<u8>,
) -> Result<(), Failed>
    requires heap { IsHeap heap.now }
    requires inside { k < length heap.now }
    requires word { word ≡ word_of heap.now (vals.Ref k) }
    requires room { LIMIT ≤ vec_capacity buffer.old }
    ensures adds { Adds (K.state out.old) (K.state out.new) buffer.old.items buffer.new.items
        (leaf_encoding (object_at heap.now k)) result }
    ensures room { LIMIT ≤ vec_capacity buffer.new }
{
    match kind_at(heap, k, word) {
        Kind::Block(..) => Ok(()),
        Kind::Bytes(n) => {
            add_prefix(encode_string_len(n), out, buffer)?;
            add_bytes(heap, k, word, n, out, buffer)
        }
        Kind::Double => {
            add(out, buffer, &[0x0c])?;
            add_doubles(heap, k, word, 1, out, buffer)
        }
        Kind::Doubles(n) => {
            add_prefix(encode_double_array_len(n), out, buffer)?;
            add_doubles(heap, k, word, n, out, buffer)
        }
        Kind::Custom(c) => {
            let (bytes, len) = marshal_codec::customs::encode(c);
            add(out, buffer, &bytes[..len])
        }
    }
}

// Appends the `n` bytes of a string to the output. The heap stores the bytes in 64-bit words, least
// significant byte first.
#[inline(always)]
fn add_bytes<K: Sink>(
    heap: &Heap,
    k: u64,
    word: u64,
    n: u64,
    out: &mut K,
    buffer: &mut Vec<u8>,
) -> Result<(), Failed>
    requires heap { IsHeap heap.now }
    requires inside { k < length heap.now }
    requires word { word ≡ word_of heap.now (vals.Ref k) }
    requires string { object_at heap.now k ≡ objects.Bytes (bytes_of (object_at heap.now k)) }
    requires all { n ≡ length (bytes_of (object_at heap.now k)) }
    requires room { LIMIT ≤ vec_capacity buffer.old }
    ensures adds { Adds (K.state out.old) (K.state out.new) buffer.old.items buffer.new.items
        (bytes_of (object_at heap.now k)) result }
    ensures room { LIMIT ≤ vec_capacity buffer.new }
{
    let words = body(heap, k, word);
    let whole = n as usize / 8;
    for j in 0..whole {
        add(out, buffer, &words[j].to_le_bytes())?;
    }
    let last = words[whole].to_le_bytes();
    add_first(out, buffer, &last, n as usize % 8)
}

// Returns the words of an object after its header.
#[inline(always)]
fn body(heap: &Heap, k: u64, word: u64) -> &[u64]
    requires inside { k < length heap.now }
    requires word { word ≡ word_of heap.now (vals.Ref k) }
    ensures { result.now ≡ body_of heap.now (object_at heap.now k) }
{
    heap.body_at(word)
}

// Appends the `n` doubles of an array, or a single double, to the output.
#[inline(always)]
fn add_doubles<K: Sink>(
    heap: &Heap,
    k: u64,
    word: u64,
    n: u64,
    out: &mut K,
    buffer: &mut Vec<u8>,
) -> Result<(), Failed>
    requires inside { k < length heap.now }
    requires word { word ≡ word_of heap.now (vals.Ref k) }
    requires doubles { body_of heap.now (object_at heap.now k) ≡ doubles_of (object_at heap.now k) }
    requires all { n ≡ length (doubles_of (object_at heap.now k)) }
    requires room { LIMIT ≤ vec_capacity buffer.old }
    ensures adds { Adds (K.state out.old) (K.state out.new) buffer.old.items buffer.new.items
        (flat_map double_bytes (doubles_of (object_at heap.now k))) result }
    ensures room { LIMIT ≤ vec_capacity buffer.new }
{
    let words = body(heap, k, word);
    for i in 0..n as usize {
        add(out, buffer, &words[i].to_le_bytes())?;
    }
    Ok(())
}
