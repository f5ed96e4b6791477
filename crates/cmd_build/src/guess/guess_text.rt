//! Compares a text with the text of a value.

ghost use Rattle.std.specs.Prelude.{◌≡◌, IfOk, IsTrue};
ghost use Rattle.types_spec.specs.types.Table.{table_shapes};
ghost use Rattle.types_spec.specs.types.Typing.{HasType};
ghost use Rattle.types_table.specs.type_table.Made.{table_of};
ghost use Rattle.text_print.specs.show.ShownValues.{shown_text};
ghost use Rattle.text_print.specs.show.TableShapes.{shape_in, names_in};

use base_data::model::Memory;
use marshal_heap::heap::Rooted;
use std::alloc::Global;
use text_print::print::is_shown;
use types_table::type_table::TypeTable;

/// Returns true if `text` is the text of a value at the type with number 0.
pub fn has_text(
    alloc: Global,
    value: &Rooted<'_>,
    table: &TypeTable,
    text: &[u8],
) -> Result<bool, Memory>
    requires typed { HasType (table_shapes (table_of table.now)) value.now.heap.now
        value.now.root 0 }
    ensures { IfOk result
        (λ same. IsTrue same
        → shown_text (shape_in table.now) (names_in table.now) value.now.heap.now value.now.root 0
        ≡ text.now) }
{
    table.holds();
    is_shown(alloc, value, table, table.root(), text)
}
