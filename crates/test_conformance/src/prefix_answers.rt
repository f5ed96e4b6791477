//! Prints the result of reading each prefix of some bytes.

use crate::result_text::{Read, plain_text, read_text};
use base_data::model::refusal::ReadRefusal;
use marshal_read::Reader;
use std::alloc::Global;
use std::io;
use std::io::ErrorKind;

// Returns the result of a reader that gets the bytes in one chunk.
fn read_whole(alloc: Global, bytes: &[u8], limit: u64) -> Result<Option<Read>, ReadRefusal> {
    let mut reader = Reader::new(alloc, limit);
    let fed = reader.feed(bytes)?;
    if !fed.done {
        return Ok(None);
    }
    Ok(Some(Read {
        value: reader.finish(),
        taken: fed.taken,
    }))
}

// Returns the result of a reader that gets the bytes one at a time.
fn read_by_byte(alloc: Global, bytes: &[u8], limit: u64) -> Result<Option<Read>, ReadRefusal> {
    let mut reader = Reader::new(alloc, limit);
    for i in 0..bytes.len() {
        let fed = reader.feed(&bytes[i..i + 1])?;
        if fed.done {
            return Ok(Some(Read {
                value: reader.finish(),
                taken: i + 1,
            }));
        }
    }
    Ok(None)
}

/// Returns the result of the reader for the bytes in one chunk. If the reader's result for single
/// bytes or the result of the reference program is another one, the text includes that result.
fn answer_text(rt: &HostRuntime, bytes: &[u8], limit: u64) -> io::Result<String> {
    let alloc = rt.alloc();
    let mut text = read_text(alloc, &read_whole(alloc, bytes, limit))?;
    let single = read_text(alloc, &read_by_byte(alloc, bytes, limit))?;
    if single.as_str() != text.as_str() {
        text.push_str(", but byte by byte ")?;
        text.push_str(single.as_str())?;
    }
    let Ok(plain) = plain_text(alloc, bytes, limit) else {
        return Err(ErrorKind::OutOfMemory.into());
    };
    if plain.as_str() != text.as_str() {
        text.push_str(", but by the definitions ")?;
        text.push_str(plain.as_str())?;
    }
    Ok(text)
}

/// Prints the result for each prefix length at which the result changes.
fn answer_prefixes(rt: &HostRuntime, bytes: &[u8], limit: u64) -> io::Result<()> {
    let mut last = String::new(rt.alloc());
    for n in 0..bytes.len() + 1 {
        let text = answer_text(rt, &bytes[..n], limit)?;
        if text.as_str() != last.as_str() {
            println!(rt; "{n}: {text}")?;
            last = text;
        }
    }
    Ok(())
}

/// Prints the results for the prefixes for a question `LIMIT BYTES`. LIMIT is a number of 64-bit
/// words, and BYTES are hexadecimal digits.
pub fn answer(rt: &HostRuntime, question: &str) -> io::Result<()> {
    let Some((limit, digits)) = question.split_once(' ') else {
        return Err(ErrorKind::InvalidInput.into());
    };
    let (Ok(limit), Ok(bytes)) = (limit.parse(), hex::decode(rt.alloc(), digits)) else {
        return Err(ErrorKind::InvalidInput.into());
    };
    answer_prefixes(rt, bytes.as_slice(), limit)
}
