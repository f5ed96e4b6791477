//! Processing of bytes, part after part.

ghost use Rattle.std.specs.Prelude.{◌<◌, ◌+◌, ◌^◌, length};
ghost use Rattle.cmd_scan.specs.sweep.Swept.{Sweeps, SweepsAll};

use crate::sweep::next_part::{NextPart, last_part, next_part};
use base_data::model::Memory;
use base_data::model::bytes::skip;
use marshal_read::Reader;
use std::alloc::Global;

/// The length of the parts in bytes, and the reader that has taken the bytes after the parts, which
/// may still become a value.
#[derive(Drop)]
pub struct Swept {
    pub decided: usize,
    pub reader: Reader,
}

/// Processes part after part, as far as the bytes determine the parts, if more bytes may follow.
/// Appends the lines of values. `at` is the offset of the bytes in the input.
pub fn sweep(
    alloc: Global,
    limit: u64,
    bytes: &[u8],
    at: u64,
    text: &mut Vec<u8>,
) -> Result<Swept, Memory>
    requires { at + length bytes.now < 2 ^ 63 }
    ensures { Sweeps limit at bytes.now text.old.items text.new.items result }
{
    let mut decided = 0;
    while decided < bytes.len() {
        let rest = skip(bytes, decided);
        match next_part(alloc, limit, rest, at + decided as u64, text)? {
            NextPart::Decided(n) => decided += n,
            NextPart::Waits(reader) => return Ok(Swept { decided, reader }),
        }
    }
    Ok(Swept {
        decided,
        reader: Reader::new(alloc, limit),
    })
}

/// Processes all bytes, part after part, if no more bytes follow. Appends the lines of values. `at`
/// is the offset of the bytes in the input.
pub fn sweep_all(
    alloc: Global,
    limit: u64,
    bytes: &[u8],
    at: u64,
    text: &mut Vec<u8>,
) -> Result<(), Memory>
    requires { at + length bytes.now < 2 ^ 63 }
    ensures { SweepsAll limit at bytes.now text.old.items text.new.items result }
{
    let mut taken = 0;
    while taken < bytes.len() {
        let rest = skip(bytes, taken);
        taken += last_part(alloc, limit, rest, at + taken as u64, text)?;
    }
    Ok(())
}
