//! The line for a value that was found in the input.

ghost use Rattle.std.specs.Prelude.{◌≡◌, ◌++◌, length, OnOk, codes, decimal};
ghost use Rattle.base_data.specs.model.Graph.{IsValue};
ghost use Rattle.cmd_scan.specs.found_positions.ValuePositions.{line_of};
ghost use Rattle.cmd_scan.specs.sweep.Swept.{position_read};

use crate::sweep::kind_text::write_kind;
use base_data::model::Memory;
use base_data::text::{write, write_number};
use marshal_read::Value;

// Appends a number and a space.
fn write_column(text: &mut Vec<u8>, n: u64) -> Result<(), Memory>
    ensures { OnOk result (text.new.items ≡ text.old.items ++ decimal n ++ codes " ") }
{
    write_number(text, n)?;
    write(text, b" ")
}

/// Appends the line for a value that was read from `size` bytes at offset `at`.
pub fn write_value(text: &mut Vec<u8>, at: u64, size: usize, value: &Value) -> Result<(), Memory>
    requires { IsValue (length value.now.heap) value.now.root }
    ensures { OnOk result
        (text.new.items ≡ text.old.items ++ line_of (position_read at size value.now)) }
{
    write_column(text, at)?;
    write_column(text, size as u64)?;
    write_column(text, value.heap.words())?;
    write_column(text, value.heap.count())?;
    write_kind(text, &value.heap, value.root)?;
    write(text, b"\n")
}
