//! Writes a text to a sink through a buffer.

ghost use Rattle.std.specs.Prelude.{◌≡◌, ◌+◌, ◌≤◌, [], ◌∷◌, length, take, IfOk, OnOk, vec_len};
ghost use Rattle.std.specs.Prelude.{vec_capacity};
ghost use Rattle.marshal_write.specs.write.WriteBuffer.{Adds};

use base_data::model::Memory;
use base_io::{Failed, Sink, write_all};
use std::alloc::Global;

/// The buffer size in bytes. The buffer is small, because each value has a buffer of its own and
/// the sink usually has a larger buffer.
pub const LIMIT: usize = 1024;

/// Returns an empty buffer.
pub fn new_buffer(alloc: Global) -> Result<Vec<u8>, Memory>
    ensures empty { IfOk result (λ buffer. buffer.items ≡ []) }
    ensures room { IfOk result (λ buffer. LIMIT ≤ vec_capacity buffer) }
{
    Ok(Vec::with_capacity(alloc, LIMIT)?)
}

/// Writes the contents of the buffer to the sink.
#[inline(never)]
pub fn flush<K: Sink>(out: &mut K, buffer: &mut Vec<u8>) -> Result<(), Failed>
    ensures adds { Adds (K.state out.old) (K.state out.new) buffer.old.items buffer.new.items []
        result }
    ensures empty { OnOk result (buffer.new.items ≡ []) }
    ensures none { OnOk result (vec_len buffer.new ≡ 0) }
    ensures capacity { vec_capacity buffer.new ≡ vec_capacity buffer.old }
{
    write_all(out, buffer.as_slice())?;
    buffer.clear();
    Ok(())
}

// If the buffer has no room for `n` more bytes, writes the buffer's contents to the sink.
#[inline(always)]
fn make_room<K: Sink>(out: &mut K, buffer: &mut Vec<u8>, n: usize) -> Result<(), Failed>
    requires { n ≤ LIMIT }
    ensures adds { Adds (K.state out.old) (K.state out.new) buffer.old.items buffer.new.items []
        result }
    ensures room { OnOk result (vec_len buffer.new + n ≤ LIMIT) }
    ensures capacity { vec_capacity buffer.new ≡ vec_capacity buffer.old }
{
    if buffer.len() <= LIMIT - n {
        return Ok(());
    }
    flush(out, buffer)
}

/// Appends a short chunk to the output.
#[inline(always)]
pub fn add<K: Sink>(out: &mut K, buffer: &mut Vec<u8>, chunk: &[u8]) -> Result<(), Failed>
    requires short { length chunk.now ≤ LIMIT }
    requires room { LIMIT ≤ vec_capacity buffer.old }
    ensures adds { Adds (K.state out.old) (K.state out.new) buffer.old.items buffer.new.items
        chunk.now result }
    ensures room { LIMIT ≤ vec_capacity buffer.new }
{
    make_room(out, buffer, chunk.len())?;
    buffer.extend_from_slice(chunk).unwrap();
    Ok(())
}

/// Appends the first `n` bytes of a short chunk to the output.
#[inline(always)]
pub fn add_first<K: Sink>(
    out: &mut K,
    buffer: &mut Vec<u8>,
    chunk: &[u8],
    n: usize,
) -> Result<(), Failed>
    requires short { length chunk.now ≤ LIMIT }
    requires inside { n ≤ length chunk.now }
    requires room { LIMIT ≤ vec_capacity buffer.old }
    ensures adds { Adds (K.state out.old) (K.state out.new) buffer.old.items buffer.new.items
        (take n chunk.now) result }
    ensures room { LIMIT ≤ vec_capacity buffer.new }
{
    make_room(out, buffer, chunk.len())?;
    let end = buffer.len() + n;
    buffer.extend_from_slice(chunk).unwrap();
    buffer.truncate(end);
    Ok(())
}

/// Appends a byte to the output.
#[inline(always)]
pub fn add_byte<K: Sink>(out: &mut K, buffer: &mut Vec<u8>, byte: u8) -> Result<(), Failed>
    requires { LIMIT ≤ vec_capacity buffer.old }
    ensures adds { Adds (K.state out.old) (K.state out.new) buffer.old.items buffer.new.items
        (byte ∷ []) result }
    ensures room { LIMIT ≤ vec_capacity buffer.new }
{
    make_room(out, buffer, 1)?;
    buffer.push_reserved(byte);
    Ok(())
}
