//! Writes pair lines to a sink through a buffer, so that the lines are never all in memory.

ghost use Rattle.std.specs.Prelude.{◌≡◌, ◌+◌, ◌≤◌, ◌++◌, ◌∷◌, [], length, map, decimal, OnOk};
ghost use Rattle.std.specs.Prelude.{vec_len, vec_capacity};
ghost use Rattle.base_io.specs.StreamState.{change};
ghost use Rattle.cert_format.specs.Format.{pair_line, text_of};
ghost use Rattle.cert_format.specs.TextWrites.{WritesPrefix};

use crate::section::CertificatePairs;
use base_io::{Failed, Sink, write_all};
use itoa::Buffer;

/// Appends bytes to a buffer that has room for them.
#[inline(always)]
pub fn append(text: &mut Vec<u8>, bytes: &[u8])
    requires { vec_len text.old + length bytes.now ≤ vec_capacity text.old }
    ensures text { text.new.items ≡ text.old.items ++ bytes.now }
    ensures len { vec_len text.new ≡ vec_len text.old + length bytes.now }
    ensures room { vec_capacity text.old ≤ vec_capacity text.new }
{
    text.extend_from_slice(bytes).unwrap();
}

/// Appends a number in decimal to a buffer that has room for the number.
#[inline(always)]
fn append_number(text: &mut Vec<u8>, n: u64)
    requires { vec_len text.old + 20 ≤ vec_capacity text.old }
    ensures text { text.new.items ≡ text.old.items ++ decimal n }
    ensures len { vec_len text.new ≤ vec_len text.old + 20 }
    ensures room { vec_capacity text.old ≤ vec_capacity text.new }
{
    append(text, Buffer::new().format(n).as_bytes());
}

/// Appends the line of a pair to a buffer that has room for the line.
#[inline(always)]
fn append_pair(text: &mut Vec<u8>, object: u64, ty: u64)
    requires { vec_len text.old + 64 ≤ vec_capacity text.old }
    ensures text { text.new.items ≡ text.old.items ++ (pair_line (object, ty) ++ 10 ∷ []) }
    ensures room { vec_capacity text.old ≤ vec_capacity text.new }
{
    append(text, b"pair ");
    append_number(text, object);
    append(text, b" ");
    append_number(text, ty);
    append(text, b"\n");
}

/// If the buffer has no room for one more line, writes the buffer's contents to the sink.
#[inline(always)]
pub fn make_room<K: Sink>(text: &mut Vec<u8>, out: &mut K) -> Result<(), Failed>
    requires { 64 ≤ vec_capacity text.old }
    ensures writes { WritesPrefix (change (K.state out.old) (K.state out.new)) text.old.items
        text.new.items result }
    ensures room { OnOk result (vec_len text.new + 64 ≤ vec_capacity text.new) }
{
    if text.capacity() - text.len() >= 64 {
        return Ok(());
    }
    write_all(out, text.as_slice())?;
    text.clear();
    Ok(())
}

/// Writes the buffered text and the lines of the pairs after the buffered text. The last part stays
/// in the buffer.
pub fn write_lines<K: Sink>(
    text: &mut Vec<u8>,
    pairs: &CertificatePairs,
    out: &mut K,
) -> Result<(), Failed>
    requires { 64 ≤ vec_capacity text.old }
    ensures writes { WritesPrefix (change (K.state out.old) (K.state out.new))
        (text.old.items ++ text_of (map pair_line pairs.now)) text.new.items result }
    ensures room { OnOk result (64 ≤ vec_capacity text.new) }
{
    for i in 0..pairs.len() {
        make_room(text, out)?;
        let (object, ty) = pairs.at(i);
        append_pair(text, object, ty);
    }
    Ok(())
}
