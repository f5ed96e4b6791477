//! Constructors for exit reasons that contain a text. If memory runs out for the text, the exit
//! reason is `Exit::Memory`.

ghost use Rattle.std.specs.Prelude.{◌≡◌, IfOk};
ghost use Rattle.cli_spec.specs.declared.exit.Exit.TheVariants.{CannotOpen as cannot_open};
ghost use Rattle.cli_spec.specs.declared.exit.Exit.TheVariants.{RequestedType as requested_type};
ghost use Rattle.cli_spec.specs.declared.exit.Exit.TheVariants.{Value as value};
ghost use Rattle.cli_spec.specs.declared.exit.Exit.TheVariants.{Script as script_line};
ghost use Rattle.cli_spec.specs.declared.exit.Exit.TheVariants.{LargeValue as large_value};
ghost use Rattle.cli_spec.specs.RefusalText.{refusal_text as text_of_refusal};
ghost use Rattle.cli_spec.specs.RefusalText.{truncated_text as text_of_split};
ghost use Rattle.cli_errors.specs.Exits.{text_of_compat, IsOrMemory, IsExitOf};

use crate::compat_text::compat_text;
use crate::refusal_text::{refusal_text, truncated_text};
use base_data::model::Memory;
use base_data::model::list::List;
use base_data::model::refusal::ReadRefusal;
use base_data::text::write;
use cli_spec::exit::Exit;
use marshal_write::write::Compat;
use std::alloc::Global;

// Returns a copy of the bytes.
fn copied(alloc: Global, bytes: &[u8]) -> Result<List<u8>, Memory>
    ensures { IfOk result (λ copy. copy ≡ bytes.now) }
{
    let mut copy = Vec::new(alloc);
    write(&mut copy, bytes)?;
    Ok(List::of(copy))
}

// Returns the text of a value's refusal, as bytes.
fn refusal_bytes(alloc: Global, refusal: ReadRefusal) -> Result<List<u8>, Memory>
    ensures { IfOk result (λ bytes. bytes ≡ text_of_refusal refusal) }
{
    let text = refusal_text(alloc, refusal)?;
    copied(alloc, text.as_bytes())
}

// Returns the text for an input that ends after `taken` bytes of a value, as bytes.
fn split_bytes(alloc: Global, taken: u64) -> Result<List<u8>, Memory>
    ensures { IfOk result (λ bytes. bytes ≡ text_of_split taken) }
{
    let text = truncated_text(alloc, taken)?;
    copied(alloc, text.as_bytes())
}

// Returns the text for an item that is too large for a 32-bit reader, as bytes.
fn compat_bytes(alloc: Global, compat: Compat) -> Result<List<u8>, Memory>
    ensures { IfOk result (λ bytes. bytes ≡ text_of_compat compat) }
{
    let text = compat_text(alloc, compat)?;
    copied(alloc, text.as_bytes())
}

/// Returns the exit reason for a file that cannot be opened.
pub fn unopened_file(alloc: Global, name: &str) -> Exit
    ensures { IsOrMemory (cannot_open name.now) result }
{
    match copied(alloc, name.as_bytes()) {
        Ok(name) => Exit::CannotOpen(name),
        Err(_) => Exit::Memory,
    }
}

/// Returns the exit reason for a refused type, with this text.
pub fn refused_type(alloc: Global, text: &[u8]) -> Exit
    ensures { IsOrMemory (requested_type text.now) result }
{
    match copied(alloc, text) {
        Ok(text) => Exit::RequestedType(text),
        Err(_) => Exit::Memory,
    }
}

/// Returns the exit reason for a refused script line, with its number and this text.
pub fn refused_line(alloc: Global, number: usize, text: &[u8]) -> Exit
    ensures { IsOrMemory (script_line number text.now) result }
{
    match copied(alloc, text) {
        Ok(text) => Exit::Script(number, text),
        Err(_) => Exit::Memory,
    }
}

/// Returns the exit reason for value `number`, which was refused. If memory ran out for the value
/// or for the text, returns `Exit::Memory`.
pub fn refused_value(alloc: Global, number: u64, refusal: ReadRefusal) -> Exit
    ensures { IsExitOf number refusal result }
{
    match refusal {
        ReadRefusal::Memory => Exit::Memory,
        _ => match refusal_bytes(alloc, refusal) {
            Ok(text) => Exit::Value(number, text),
            Err(_) => Exit::Memory,
        },
    }
}

/// Returns the exit reason for an input that ends after `taken` bytes of value `number`.
pub fn split_value(alloc: Global, number: u64, taken: u64) -> Exit
    ensures { IsOrMemory (value number (text_of_split taken)) result }
{
    match split_bytes(alloc, taken) {
        Ok(text) => Exit::Value(number, text),
        Err(_) => Exit::Memory,
    }
}

/// Returns the exit reason for value `number`, which is too large for a 32-bit reader.
pub fn too_large_value(alloc: Global, number: u64, compat: Compat) -> Exit
    ensures { IsOrMemory (large_value number (text_of_compat compat)) result }
{
    match compat_bytes(alloc, compat) {
        Ok(text) => Exit::LargeValue(number, text),
        Err(_) => Exit::Memory,
    }
}
