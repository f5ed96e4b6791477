//! Writes the text of a value, or the lines of a graph, to a sink. All memory is allocated before
//! the first byte is written.

ghost use Rattle.std.specs.Prelude.{◌≡◌, IsErrOf};
ghost use Rattle.types_spec.specs.types.Table.{table_shapes};
ghost use Rattle.types_spec.specs.types.Typing.{HasType};
ghost use Rattle.types_table.specs.type_table.Made.{table_of};
ghost use Rattle.base_io.specs.Sink.{WritesOrFails};
ghost use Rattle.base_io.specs.StreamState.{change};
ghost use Rattle.text_print.specs.show.DumpedGraph.{dump_text};
ghost use Rattle.text_print.specs.show.ShownValues.{shown_text};
ghost use Rattle.text_print.specs.show.TableShapes.{shape_in, names_in};

use crate::print::dumped::write_dump;
use crate::print::shown::write_shown_at;
use base_io::{Sink, WriteError, write_all};
use marshal_heap::heap::Rooted;
use std::alloc::Global;
use types_table::type_table::TypeTable;

/// Writes the text of a value at the requested type. If writing fails, a proper prefix was written.
/// If memory runs out, nothing was written.
pub fn show<K: Sink>(
    alloc: Global,
    value: &Rooted<'_>,
    table: &TypeTable,
    out: &mut K,
) -> Result<(), WriteError>
    requires typed { HasType (table_shapes (table_of table.now)) value.now.heap.now
        value.now.root 0 }
    ensures writes { WritesOrFails (change (K.state out.old) (K.state out.new))
        (shown_text (shape_in table.now) (names_in table.now) value.now.heap.now value.now.root 0)
        result }
    ensures untouched { IsErrOf result WriteError.Memory → out.new ≡ out.old }
{
    table.holds();
    let mut text = Vec::new(alloc);
    write_shown_at(&mut text, alloc, value, table, table.root())?;
    write_all(out, text.as_slice())?;
    Ok(())
}

/// Writes the lines of a graph to a sink, without a type.
pub fn dump<K: Sink>(alloc: Global, value: &Rooted<'_>, out: &mut K) -> Result<(), WriteError>
    ensures writes { WritesOrFails (change (K.state out.old) (K.state out.new))
        (dump_text value.now.heap.now value.now.root) result }
    ensures untouched { IsErrOf result WriteError.Memory → out.new ≡ out.old }
{
    let mut text = Vec::new(alloc);
    write_dump(&mut text, value)?;
    write_all(out, text.as_slice())?;
    Ok(())
}
