//! The raw text of a graph, without a type.

ghost use Rattle.std.specs.Prelude.{◌≡◌, ◌++◌, OnOk};
ghost use Rattle.text_print.specs.show.DumpedGraph.{dump_text};

use crate::leaves::{write_object_line, write_root_line};
use base_data::model::Memory;
use marshal_heap::heap::{NumberedObject, Rooted};

/// Appends the lines of a graph, without a type.
#[tactic(auto, unfolding(crate::specs::show::DumpedGraph::dump_text))]
pub fn write_dump(text: &mut Vec<u8>, value: &Rooted<'_>) -> Result<(), Memory>
    ensures { OnOk result
        (text.new.items ≡ text.old.items ++ dump_text value.now.heap.now value.now.root) }
{
    let heap = value.heap;
    write_root_line(text, value.root)?;
    for o in 0..heap.count() {
        write_object_line(text, &NumberedObject { heap, object: o })?;
    }
    Ok(())
}
