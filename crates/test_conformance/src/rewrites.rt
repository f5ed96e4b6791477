//! Reads streams of the folder and writes their values again.

ghost use Rattle.std.specs.Prelude.{◌≤◌, length, IfOk};

use base_data::model::bytes::skip;
use base_io::{MemSink, Sink};
use marshal_read::Reader;
use marshal_write::write::write;
use std::alloc::Global;
use std::io::ErrorKind;
use std::{fs, io};

/// The greatest number of 64-bit words that a value may have.
const LIMIT: u64 = 1 << 27;

// Writes the first value in the bytes. Returns the number of bytes of the value, or `None` if the
// bytes do not begin with a complete value.
fn write_first<K: Sink>(alloc: Global, bytes: &[u8], sink: &mut K) -> io::Result<Option<usize>> {
    let mut reader = Reader::new(alloc, LIMIT);
    let Ok(fed) = reader.feed(bytes) else {
        return Ok(None);
    };
    if !fed.done {
        return Ok(None);
    }
    let value = reader.finish();
    match write(alloc, &value.heap, value.root, sink) {
        Ok(()) => Ok(Some(fed.taken)),
        Err(_) => Err(ErrorKind::WriteZero.into()),
    }
}

// Writes the consecutive values at the beginning of the bytes. Returns the number of bytes of all
// these values.
fn write_values<K: Sink>(alloc: Global, bytes: &[u8], sink: &mut K) -> io::Result<usize>
    ensures { IfOk result (λ taken. taken ≤ length bytes.now) }
{
    let mut rest = bytes;
    for _ in 0..bytes.len() {
        let Some(taken) = write_first(alloc, rest, sink)? else {
            break;
        };
        rest = skip(rest, taken);
    }
    Ok(bytes.len() - rest.len())
}

/// Writes the values of the stream `NAME` again, and prints the result. If the written bytes equal
/// the stream up to an offset where no complete value begins, prints that offset. Otherwise prints
/// the written bytes.
pub fn answer(rt: &HostRuntime, stream: &str) -> io::Result<()> {
    let alloc = rt.alloc();
    let name = format!(in alloc; "{stream}.stream")?;
    let bytes = fs::read(rt, name.as_str())?;
    let Ok(mut sink) = MemSink::new(alloc, bytes.len() + 100, Vec::new(alloc)) else {
        return Err(ErrorKind::OutOfMemory.into());
    };
    let taken = write_values(alloc, bytes.as_slice(), &mut sink)?;
    if sink.written() != &bytes[..taken] {
        let digits = hex::encode(alloc, sink.written())?;
        println!(rt; "{digits}")?;
    } else if taken < bytes.len() {
        println!(rt; "same bytes up to {taken}")?;
    } else {
        println!(rt; "same bytes")?;
    }
    Ok(())
}
