//! The table of the types that a type reaches.

ghost use Rattle.std.specs.Prelude.{length, IfOk, IfErr};
ghost use Rattle.types_spec.specs.types.WellFormed.{AreSound, AreWellFormed, IsSoundType};
ghost use Rattle.types_spec.specs.types.Classes.{PartsBelow};
ghost use Rattle.types_spec.specs.types.Table.{head_at};
ghost use Rattle.types_table.specs.type_table.Made.{IsTypeTable};
ghost use Rattle.types_build.specs.builder.TypeFaults.{IsTypeFault};
ghost use Rattle.types_build.specs.builder.Listed.{IsWhole, IsTableOfListing};

use crate::builder::listing::{Listing, go_on, started};
use crate::builder::type_fault::TypeFault;
use base_data::model::Memory;
use base_data::model::list::List;
use std::alloc::Global;
use types_resolve::scope::SoundEnvironment;
use types_spec::types::decl::Decl;
use types_spec::types::ty::Ty;
use types_table::partition::classes;
use types_table::type_table::{Tabled, TypeTable};

/// The maximum number of types in a table.
const MOST: usize = 65536;

/// Builds the table of the types that a type reaches, in the order of discovery. The type itself
/// comes first. For each discovered type in turn, the types of its shape and the parts of its head
/// follow. Returns `TooManyTypes` if the type reaches more than 65,536 types, and `Memory` if
/// memory runs out.
pub fn build(alloc: Global, decls: &[Decl], ty: &Ty) -> Result<TypeTable, TypeFault>
    requires well { AreWellFormed decls.now }
    requires sound { IsSoundType decls.now ty.now }
    ensures ok { IfOk result (IsTypeTable decls.now ty.now) }
    ensures err { IfErr result (IsTypeFault decls.now ty.now) }
{
    let listing = listed(alloc, decls, ty)?;
    let of = finished(alloc, listing)?;
    Ok(TypeTable::new(of))
}

/// Returns the listing of all types that a type reaches.
fn listed(alloc: Global, decls: &[Decl], ty: &Ty) -> Result<Listing, TypeFault>
    requires { AreSound decls.now }
    ensures ok { IfOk result (IsWhole decls.now ty.now) }
    ensures err { IfErr result (IsTypeFault decls.now ty.now) }
{
    let environment = SoundEnvironment::new(alloc, decls)?;
    listed_by(alloc, &environment, ty)
}

/// Returns the listing of all types that a type reaches, for declarations whose names are indexed.
fn listed_by(alloc: Global, decls: &SoundEnvironment<'_>, ty: &Ty) -> Result<Listing, TypeFault>
    ensures ok { IfOk result (IsWhole decls.now ty.now) }
    ensures err { IfErr result (IsTypeFault decls.now ty.now) }
{
    let mut listing = started(alloc, ty)?;
    while listing.nodes.len() < listing.met.len() {
        go_on(alloc, &mut listing, decls)?;
        if listing.met.len() > MOST {
            return Err(TypeFault::TooManyTypes);
        }
    }
    Ok(listing)
}

/// Builds the table from a complete listing, and computes the classes of the heads.
fn finished(alloc: Global, listing: Listing) -> Result<Tabled, Memory>
    requires { PartsBelow (length listing.heads.items) (head_at listing.heads.items) }
    ensures { IfOk result (IsTableOfListing listing) }
{
    let Listing {
        types,
        met,
        nodes,
        heads,
        names,
    } = listing;
    let found = classes(alloc, heads.as_slice())?;
    let stored = Vec::from_slice(alloc, met.as_slice())?;
    Ok(Tabled {
        store: types,
        stored: List::of(stored),
        nodes: List::of(nodes),
        classes: List::of(found),
        names: List::of(names),
    })
}
