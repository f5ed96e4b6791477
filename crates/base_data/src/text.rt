//! Appends bytes, numbers and paths to a text, and copies texts.

ghost use Rattle.std.specs.Prelude.{◌≡◌, ◌==◌, ◌++◌, IfOk, OnOk, codes, decimal};
ghost use Rattle.std.specs.List.{position_or_len};
ghost use Rattle.base_data.specs.model.PathText.{path_text};

use crate::model::Memory;
use crate::model::list::List;
use crate::model::path::Path;
use itoa::Buffer;
use std::alloc::Global;

/// Appends bytes.
#[inline(always)]
pub fn write(text: &mut Vec<u8>, bytes: &[u8]) -> Result<(), Memory>
    ensures { OnOk result (text.new.items ≡ text.old.items ++ bytes.now) }
{
    Ok(text.extend_from_slice(bytes)?)
}

/// Appends a number in decimal. Most numbers have one digit.
#[tactic(auto, using(std::proofs::lemmas::Fmt::decimal_digit))]
pub fn write_number(text: &mut Vec<u8>, n: u64) -> Result<(), Memory>
    ensures { OnOk result (text.new.items ≡ text.old.items ++ decimal n) }
{
    if n < 10 {
        return Ok(text.push(b'0' + n as u8)?);
    }
    write_more_digits(text, n)
}

/// Appends a number of any length in decimal.
#[inline(never)]
fn write_more_digits(text: &mut Vec<u8>, n: u64) -> Result<(), Memory>
    ensures { OnOk result (text.new.items ≡ text.old.items ++ decimal n) }
{
    write(text, Buffer::new().format(n).as_bytes())
}

/// Appends the text of a path: `.` for the root. For another path, the text has `.` and the number
/// of each step.
pub fn write_path(text: &mut Vec<u8>, path: &Path) -> Result<(), Memory>
    ensures { OnOk result (text.new.items ≡ text.old.items ++ path_text path.now) }
{
    if path.len() == 0 {
        return write(text, b".");
    }
    for i in 0..path.len() {
        write_step(text, path.step(i))?;
    }
    Ok(())
}

/// Appends a step of a path.
pub fn write_step(text: &mut Vec<u8>, step: u64) -> Result<(), Memory>
    ensures { OnOk result (text.new.items ≡ text.old.items ++ (codes "." ++ decimal step)) }
{
    write(text, b".")?;
    write_number(text, step)
}

/// Returns a copy of the bytes.
pub fn copied(alloc: Global, bytes: &[u8]) -> Result<List<u8>, Memory>
    ensures { IfOk result (λ copy. copy ≡ bytes.now) }
{
    Ok(List::of(Vec::from_slice(alloc, bytes)?))
}

/// Returns a copy of a name.
pub fn copied_name(alloc: Global, name: &List<u8>) -> Result<List<u8>, Memory>
    ensures { IfOk result (λ copy. copy ≡ name.now) }
{
    copied(alloc, name.as_slice())
}

/// Returns the number of bytes before the first line feed, or the length of the text if the text
/// has no line feed.
pub fn line_len(text: &[u8]) -> usize
    ensures { result ≡ position_or_len (λ b. b == 10) text.now }
{
    text.iter().take_while(|b| **b != b'\n').count()
}
