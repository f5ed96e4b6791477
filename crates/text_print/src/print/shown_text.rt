//! Compares a given text with the text of a value. The value's text is printed in small chunks, and
//! each chunk is compared with the bytes of the given text that are not yet compared.

ghost use Rattle.std.specs.Prelude.{◌≡◌, ◌<◌, ◌++◌, length, IfOk, IfSome, IsTrue};
ghost use Rattle.types_spec.specs.types.Table.{table_shapes};
ghost use Rattle.types_spec.specs.types.Typing.{HasType};
ghost use Rattle.types_table.specs.type_table.Made.{table_of};
ghost use Rattle.text_print.specs.show.ShownValues.{shown_text};
ghost use Rattle.text_print.specs.show.TableShapes.{shape_in, names_in};

use crate::print::print_walk::PrintWalk;
use crate::print::text_until_again::write_some;
use base_data::model::Memory;
use marshal_heap::heap::Rooted;
use std::alloc::Global;
use types_table::type_table::TypeTable;

/// The size of a chunk in bytes, which a chunk may exceed somewhat.
const FEW: usize = 4096;

// Returns the bytes of `text` after `prefix`, or `None` if `text` does not begin with `prefix`.
fn after<'t>(text: &'t [u8], prefix: &[u8]) -> Option<&'t [u8]>
    ensures { IfSome result (λ rest. text.now ≡ prefix.now ++ rest.now) }
{
    if text.starts_with(prefix) {
        Some(&text[prefix.len()..])
    } else {
        None
    }
}

/// Returns true if the given text is the text of the value at a type of the table. If an object has
/// a label, returns false for every text.
pub fn is_shown(
    alloc: Global,
    value: &Rooted<'_>,
    table: &TypeTable,
    at: usize,
    text: &[u8],
) -> Result<bool, Memory>
    requires number { at < length table.now.nodes }
    requires typed { HasType (table_shapes (table_of table.now)) value.now.heap.now
        value.now.root at }
    ensures { IfOk result
        (λ same. IsTrue same
        → shown_text (shape_in table.now) (names_in table.now) value.now.heap.now value.now.root at
        ≡ text.now) }
{
    let heap = value.heap;
    let mut walk = PrintWalk::new(alloc, value, table, at)?;
    let mut few = Vec::new(alloc);
    let mut rest = text;
    'chunk: for _ in 0..text.len() {
        let fresh = write_some(&mut few, heap, table, &mut walk, FEW)?;
        let Some(more) = after(rest, few.as_slice()) else {
            return Ok(false);
        };
        if !fresh {
            return Ok(false);
        }
        if walk.has_none() {
            return Ok(more.is_empty());
        }
        rest = more;
        few.clear();
    }
    Ok(false)
}
