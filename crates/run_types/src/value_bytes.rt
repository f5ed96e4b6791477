//! Writes the bytes of a value.

ghost use Rattle.std.specs.Prelude.{◌≡◌, Bool, false};
ghost use Rattle.base_io.specs.StreamState.{change};
ghost use Rattle.run_types.specs.ValueBytes.{WritesBytes};

use base_io::{Sink, WriteError};
use cli_errors::exit_constructors::too_large_value;
use cli_errors::exit_line::Error;
use cli_spec::exit::Exit;
use marshal_heap::heap::Rooted;
use marshal_write::write::{Write32Error, write, write32};
use std::alloc::Global;

/// Writes the canonical bytes of value `number`. If `compat` is true, then a value that is too
/// large for 32-bit readers is an error, and nothing is written. Fails if memory runs out or if
/// writing fails.
pub fn write_bytes<K: Sink>(
    alloc: Global,
    value: &Rooted<'_>,
    number: u64,
    compat: bool,
    out: &mut K,
) -> Result<(), Error>
    ensures { WritesBytes compat number value.now.heap.now value.now.root
        (change (K.state out.old) (K.state out.new))
        result }
{
    if !compat {
        return write_plain(alloc, value, number, out);
    }
    match write32(alloc, value.heap, value.root, out) {
        Ok(()) => Ok(()),
        Err(Write32Error::Compat(compat)) => {
            Err(Error::Exit(too_large_value(alloc, number, compat)))
        }
        Err(Write32Error::Fault) => Err(Error::WriteFault),
        Err(Write32Error::Memory) => Err(Error::Exit(Exit::Memory)),
    }
}

/// Writes the canonical bytes of value `number`, whether or not a 32-bit reader can read the bytes.
/// Fails if memory runs out or if writing fails.
pub fn write_plain<K: Sink>(
    alloc: Global,
    value: &Rooted<'_>,
    number: u64,
    out: &mut K,
) -> Result<(), Error>
    ensures { (compat : Bool) → compat ≡ false
        → WritesBytes compat number value.now.heap.now value.now.root
        (change (K.state out.old) (K.state out.new))
        result }
{
    match write(alloc, value.heap, value.root, out) {
        Ok(()) => Ok(()),
        Err(WriteError::Fault) => Err(Error::WriteFault),
        Err(WriteError::Memory) => Err(Error::Exit(Exit::Memory)),
    }
}
