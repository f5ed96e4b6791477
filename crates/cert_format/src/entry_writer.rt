//! Writing of an entry to a sink.

ghost use Rattle.std.specs.Prelude.{◌≡◌, ◌≤◌, ◌++◌, ◌∷◌, [], IfOk, IsErrOf, OnOk, vec_capacity};
ghost use Rattle.base_io.specs.Sink.{WritesOrFails};
ghost use Rattle.base_io.specs.StreamState.{change};
ghost use Rattle.cert_format.specs.Format.{section_text, head_line, pair_lines, text_of};
ghost use Rattle.cert_format.specs.TextWrites.{WritesPrefix, WritesAll};

use crate::entry_head::write_head;
use crate::pair_lines::{append, make_room, write_lines};
use crate::section::Section;
use base_data::model::Memory;
use base_io::{Failed, Sink, WriteError, write_all};
use std::alloc::Global;

/// Returns the buffer size in bytes, at most 65,536. If there are few pairs, the buffer has room
/// for all lines of the entry.
fn room_of(section: &Section) -> usize
    ensures { result ≤ 65536 }
{
    match section {
        Section::Pairs(pairs) => (64 * pairs.len().min(1023)) + 64,
        Section::Mismatch(_) => 64,
        Section::Conflict(_, _) => 64,
    }
}

/// Writes the entry for the value with this number to a sink. Allocates all memory before writing;
/// the amount is small for any number of pairs. If a call on the sink fails, a proper prefix was
/// written. If memory runs out, nothing was written.
pub fn write_cert<K: Sink>(
    alloc: Global,
    number: u64,
    section: &Section,
    out: &mut K,
) -> Result<(), WriteError>
    ensures writes { WritesOrFails (change (K.state out.old) (K.state out.new))
        (section_text number section.now) result }
    ensures untouched { IsErrOf result WriteError.Memory → out.new ≡ out.old }
{
    let mut text = begun(alloc, number, section)?;
    write_begun(&mut text, number, section, out)?;
    Ok(())
}

/// Returns a buffer that contains the first line of an entry and has room for one more line.
fn begun(alloc: Global, number: u64, section: &Section) -> Result<Vec<u8>, Memory>
    ensures text { IfOk result (λ text. text.items ≡ head_line number section.now ++ 10 ∷ []) }
    ensures room { IfOk result (λ text. 64 ≤ vec_capacity text) }
{
    let mut text = Vec::with_capacity(alloc, room_of(section))?;
    write_head(&mut text, number, section)?;
    text.reserve(64)?;
    Ok(text)
}

/// Writes an entry whose first line is in the buffer.
fn write_begun<K: Sink>(
    text: &mut Vec<u8>,
    _number: u64,
    section: &Section,
    out: &mut K,
) -> Result<(), Failed>
    requires begun { text.old.items ≡ head_line _number section.now ++ 10 ∷ [] }
    requires room { 64 ≤ vec_capacity text.old }
    ensures { WritesAll (change (K.state out.old) (K.state out.new))
        (section_text _number section.now) result }
{
    write_body(text, section, out)?;
    make_room(text, out)?;
    append(text, b"end\n");
    write_all(out, text.as_slice())
}

/// Writes the buffered text and the entry's pair lines after the buffered text. The last part stays
/// in the buffer.
fn write_body<K: Sink>(text: &mut Vec<u8>, section: &Section, out: &mut K) -> Result<(), Failed>
    requires { 64 ≤ vec_capacity text.old }
    ensures writes { WritesPrefix (change (K.state out.old) (K.state out.new))
        (text.old.items ++ text_of (pair_lines section.now)) text.new.items result }
    ensures room { OnOk result (64 ≤ vec_capacity text.new) }
{
    match section {
        Section::Pairs(pairs) => write_lines(text, pairs, out),
        Section::Mismatch(_) => Ok(()),
        Section::Conflict(_, _) => Ok(()),
    }
}
