//! The table of a type that a text names over declarations, and the value that bytes encode.

ghost use Rattle.std.specs.Prelude.{◌<◌, length, IfOk, IfSome};
ghost use Rattle.base_data.specs.model.Graph.{IsValue};
ghost use Rattle.types_spec.specs.types.WellFormed.{AreWellFormed, IsSoundType};

use base_data::model::Memory;
use marshal_read::{Reader, Value};
use std::alloc::Global;
use types_build::builder::{TypeFault, build};
use types_spec::types::decl::Decl;
use types_spec::types::ty::Ty;
use types_table::type_table::TypeTable;
use types_wellformed::declarations::{DeclFault, read_decls, read_type};

// OCaml's encoding of `[1; 2]`. The outermost object comes first.
pub(crate) const LIST: &[u8] =
    b"\x84\x95\xa6\xbe\0\0\0\x05\0\0\0\x02\0\0\0\x06\0\0\0\x06\xa0\x41\xa0\x42\x40";

// Returns the table of a type over declarations.
fn table_over(alloc: Global, decls: &[Decl], ty: &Ty) -> Result<Option<TypeTable>, Memory>
    requires well { AreWellFormed decls.now }
    requires sound { IsSoundType decls.now ty.now }
{
    match build(alloc, decls, ty) {
        Ok(table) => Ok(Some(table)),
        Err(TypeFault::Memory) => Err(Memory),
        Err(_) => Ok(None),
    }
}

// Returns the table of a type over a text of declarations, if the texts are accepted.
pub(crate) fn table_in(
    alloc: Global,
    file: &[u8],
    text: &[u8],
) -> Result<Option<TypeTable>, Memory> {
    let decls = match read_decls(alloc, file) {
        Ok(decls) => decls,
        Err(DeclFault::Memory) => return Err(Memory),
        Err(_) => return Ok(None),
    };
    match read_type(alloc, decls.as_slice(), text) {
        Ok(ty) => table_over(alloc, decls.as_slice(), &ty),
        Err(DeclFault::Memory) => Err(Memory),
        Err(_) => Ok(None),
    }
}

// Returns the value that the bytes encode, if the value has at most `limit` 64-bit words.
pub(crate) fn value_of(alloc: Global, limit: u64, bytes: &[u8]) -> Result<Option<Value>, Memory>
    ensures { IfOk result
        (λ found. IfSome found (λ value. IsValue (length value.heap) value.root)) }
{
    let mut reader = Reader::new(alloc, limit);
    let Ok(fed) = reader.feed(bytes) else {
        return Err(Memory);
    };
    if !fed.done {
        return Ok(None);
    }
    Ok(Some(reader.finish()))
}
