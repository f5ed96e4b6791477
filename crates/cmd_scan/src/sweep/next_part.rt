//! Finds the next part at the start of some bytes.

ghost use Rattle.std.specs.Prelude.{◌<◌, length};
ghost use Rattle.cmd_scan.specs.sweep.Swept.{PassesOne, IsNext, IsLastPart};

use crate::sweep::claim::claims_more;
use crate::sweep::position_line::write_value;
use base_data::model::Memory;
use base_data::model::refusal::ReadRefusal;
use marshal_read::Reader;
use std::alloc::Global;

/// The length of the next part in bytes; or, if all bytes may still become a value, the reader that
/// has taken the bytes.
#[derive(Drop)]
pub enum NextPart {
    Decided(usize),
    Waits(Reader),
}

impl NextPart {
    ghost use Rattle.cmd_scan.specs.sweep.Swept.{IsLast};

    // Returns the length of the next part if no more bytes follow. If the bytes may still become a
    // value, the next part is one skipped byte.
    fn last(self) -> usize
        ensures { IsLast self result }
    {
        match self {
            NextPart::Decided(n) => n,
            NextPart::Waits(_) => 1,
        }
    }
}

// Skips one byte if the bytes are refused as a value. Fails with `Memory` if the refusal is that
// memory ran out.
fn pass(refusal: ReadRefusal) -> Result<NextPart, Memory>
    ensures { PassesOne refusal result }
{
    match refusal {
        ReadRefusal::Memory => Err(Memory),
        _ => Ok(NextPart::Decided(1)),
    }
}

/// Returns the next part, as far as the bytes determine it. If the next part is a value, appends
/// the line of the value.
pub fn next_part(
    alloc: Global,
    limit: u64,
    bytes: &[u8],
    at: u64,
    text: &mut Vec<u8>,
) -> Result<NextPart, Memory>
    requires some { 0 < length bytes.now }
    ensures { IsNext limit at bytes.now text.old.items text.new.items result }
{
    let mut reader = Reader::new(alloc, limit);
    match reader.feed(bytes) {
        Err(refusal) => pass(refusal),
        Ok(fed) => {
            if !fed.done {
                return Ok(NextPart::Waits(reader));
            }
            let value = reader.finish();
            write_value(text, at, fed.taken, &value)?;
            Ok(NextPart::Decided(fed.taken))
        }
    }
}

/// Returns the length in bytes of the next part, if no more bytes follow. If a value is truncated,
/// the next part is the value's first byte, which is skipped.
pub fn last_part(
    alloc: Global,
    limit: u64,
    bytes: &[u8],
    at: u64,
    text: &mut Vec<u8>,
) -> Result<usize, Memory>
    requires some { 0 < length bytes.now }
    ensures { IsLastPart limit at bytes.now text.old.items text.new.items result }
{
    if claims_more(bytes) {
        return Ok(1);
    }
    let next = next_part(alloc, limit, bytes, at, text)?;
    Ok(next.last())
}
