//! Finds the byte that decides what some bytes begin with.

ghost use Rattle.std.specs.Prelude.{◌≡◌, ◌<◌, ◌++◌, ℕ, List, [], length, take, IfOk};
ghost use Rattle.marshal_spec.specs.format.Prefix.{IsPrefix};
ghost use Rattle.marshal_read.specs.Reader.{IsReader, LeadsReader};
ghost use Rattle.cmd_scan.specs.command.Last.{IsRefusal, TakesByte, FindsLast, ReadsSome};
ghost use Rattle.cmd_scan.specs.command.Last.{HasValue};

use base_data::model::Memory;
use base_data::model::refusal::ReadRefusal;
use marshal_read::Reader;
use std::alloc::Global;

/// Feeds a prefix of a value to a new reader again.
pub fn take_prefix(reader: &mut Reader, bytes: &[u8]) -> Result<(), Memory>
    requires { IsReader reader.old }
    ensures { (limit : ℕ) → LeadsReader limit [] reader.old → IsPrefix limit bytes.now
        → IfOk result (λ done. IsReader reader.new × LeadsReader limit bytes.now reader.new) }
{
    match reader.feed(bytes) {
        Ok(_) => Ok(()),
        Err(_) => Err(Memory),
    }
}

// Returns false for a refusal, which decides what the bytes begin with. Fails with `Memory` if the
// refusal is that memory ran out.
fn is_decided(refusal: ReadRefusal) -> Result<bool, Memory>
    ensures { IfOk result (λ goes_on. IsRefusal refusal goes_on) }
{
    match refusal {
        ReadRefusal::Memory => Err(Memory),
        _ => Ok(false),
    }
}

// Feeds one byte. Returns true if the bytes are still a prefix of a value.
fn take_byte(reader: &mut Reader, byte: &[u8]) -> Result<bool, Memory>
    requires one { length byte.now ≡ 1 }
    requires reader { IsReader reader.old }
    ensures { (limit : ℕ) (taken : List ℕ) → LeadsReader limit taken reader.old
        → IsPrefix limit taken
        → TakesByte limit taken byte.now reader.new result }
{
    match reader.feed(byte) {
        Ok(fed) => Ok(!fed.done),
        Err(refusal) => is_decided(refusal),
    }
}

// Returns how many bytes of the chunk decide what all bytes begin with. `held` is the prefix of a
// value before the chunk.
fn find_last(alloc: Global, limit: u64, held: &[u8], chunk: &[u8]) -> Result<usize, Memory>
    requires prefix { IsPrefix limit held.now }
    ensures { FindsLast limit held.now chunk.now result }
{
    let mut reader = Reader::new(alloc, limit);
    take_prefix(&mut reader, held)?;
    let mut taken = 0;
    while taken < chunk.len() {
        let goes_on = take_byte(&mut reader, &chunk[taken..taken + 1])?;
        if goes_on {
            taken += 1;
        } else {
            return Ok(taken + 1);
        }
    }
    // If the repeated reading decides nothing, then the first refusal was out of memory.
    Err(Memory)
}

/// The number of bytes taken from a chunk. `decided` is true if the last taken byte decides what
/// all bytes begin with. `whole` is true if all bytes are one value, which the reader then holds.
#[derive(Clone, Copy)]
pub struct TakenBytes {
    pub bytes: usize,
    pub decided: bool,
    pub whole: bool,
}

/// Takes bytes of the chunk after a prefix of a value, which the reader has taken. Takes all bytes
/// of the chunk, or only the bytes up to the one that decides what all bytes begin with.
pub fn read_some(
    alloc: Global,
    limit: u64,
    held: &[u8],
    reader: &mut Reader,
    chunk: &[u8],
) -> Result<TakenBytes, Memory>
    requires some { 0 < length chunk.now }
    requires prefix { IsPrefix limit held.now }
    requires leads { LeadsReader limit held.now reader.old }
    ensures some { ReadsSome limit held.now chunk.now reader.new result }
    ensures whole { IfOk result
        (λ t. HasValue limit (held.now ++ take t.bytes chunk.now) reader.new t) }
{
    match reader.feed(chunk) {
        Ok(fed) => Ok(TakenBytes {
            bytes: fed.taken,
            decided: fed.done,
            whole: fed.done,
        }),
        Err(_) => {
            let bytes = find_last(alloc, limit, held, chunk)?;
            Ok(TakenBytes {
                bytes,
                decided: true,
                whole: false,
            })
        }
    }
}
