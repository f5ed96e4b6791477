//! The text of a type mismatch that was found without building a heap.

ghost use Rattle.std.specs.Prelude.{◌≡◌, ◌<◌, ◌++◌, length, map, OnOk};
ghost use Rattle.base_data.specs.model.PathText.{path_text};
ghost use Rattle.check_stream.specs.mismatch_search.Judge.{summary_text};
ghost use Rattle.check_stream.specs.mismatch_search.MismatchLine.{found_text};
ghost use Rattle.check_fault.specs.FaultText.{text_at};

use crate::fault_printer::write_type;
use crate::value_description::{write_atom, write_int, write_object};
use base_data::model::Memory;
use base_data::model::code::CustomKind;
use base_data::text::{write, write_step};
use check_stream::mismatch_search::{FoundMismatch, Link};
use marshal_codec::token::Summary;
use marshal_heap::heap::Kind;
use std::alloc::Global;
use types_table::type_table::TypeTable;

/// Appends the path of the mismatch, the expected type, and a description of the token that was
/// found.
pub fn write_missed(
    text: &mut Vec<u8>,
    alloc: Global,
    table: &TypeTable,
    found: &FoundMismatch,
) -> Result<(), Memory>
    requires number { found.now.ty < length table.now.nodes }
    ensures { OnOk result
        (text.new.items ≡ text.old.items ++ found_text (text_at table.now) found.now) }
{
    write_links(text, found.links.as_slice())?;
    write(text, b": expected ")?;
    write_type(text, alloc, table, found.ty)?;
    write(text, b", found ")?;
    write_summary(text, found.summary)
}

/// Appends the text of the path that the links describe.
fn write_links(text: &mut Vec<u8>, links: &[Link]) -> Result<(), Memory>
    ensures { OnOk result
        (text.new.items ≡ text.old.items ++ path_text (map (λ link. link.field) links.now)) }
{
    if links.is_empty() {
        return write(text, b".");
    }
    for link in links {
        write_step(text, u64::from(link.field))?;
    }
    Ok(())
}

/// Appends the description of a token, given the token's summary.
fn write_summary(text: &mut Vec<u8>, summary: Summary) -> Result<(), Memory>
    ensures { OnOk result (text.new.items ≡ text.old.items ++ summary_text summary) }
{
    match summary {
        Summary::Integer(n) => write_int(text, n),
        Summary::Atom(tag) => write_atom(text, tag),
        Summary::Shared(_) => Ok(()),
        Summary::Block(tag, size) => write_object(text, Kind::Block(tag, size)),
        Summary::Bytes(len) => write_object(text, Kind::Bytes(len)),
        Summary::Double => write_object(text, Kind::Double),
        Summary::Doubles(len) => write_object(text, Kind::Doubles(len)),
        Summary::Custom(CustomKind::Int32) => write(text, b"int32"),
        Summary::Custom(CustomKind::Int64) => write(text, b"int64"),
        Summary::Custom(CustomKind::Native) => write(text, b"nativeint"),
    }
}
