//! Types in the order of their discovery.

ghost use Rattle.std.specs.Prelude.{◌≡◌, ◌<◌, ◌+◌, ◌++◌, ◌∷◌, [], List, length, IfOk, OnOk};
ghost use Rattle.types_spec.specs.declared.types.decl.Decl.{Decl as Declaration};
ghost use Rattle.types_spec.specs.types.Ty.{Ty as Tree};
ghost use Rattle.types_build.specs.builder.Listed.{AreWithin, IsListingOf};

use crate::builder::discovered_types::{DiscoveredTypes, position};
use crate::builder::type_entry::{TypeEntry, entry_of};
use base_data::model::Memory;
use indexmap::IndexSet;
use std::alloc::Global;
use types_resolve::scope::SoundEnvironment;
use types_spec::types::head::HeadOf;
use types_spec::types::names::Names;
use types_spec::types::shape::ShapeOf;
use types_spec::types::ty::Ty;
use types_table::store::TypeStore;

/// A store of types, the store numbers of the discovered types, and entries for the first
/// discovered types. An entry is a shape, a head and names.
#[derive(Drop)]
pub(crate) struct Listing {
    pub(crate) types: TypeStore,
    pub(crate) met: DiscoveredTypes,
    pub(crate) nodes: Vec<ShapeOf<usize>>,
    pub(crate) heads: Vec<HeadOf<usize>>,
    pub(crate) names: Vec<Names>,
}

/// Returns a listing in which the type `ty` is the only discovered type.
pub(crate) fn started(alloc: Global, ty: &Ty) -> Result<Listing, Memory>
    ensures within { IfOk result (λ l. AreWithin l.types l.met.keys) }
    ensures one { IfOk result (λ l. length l.met.keys ≡ 1) }
    ensures is { IfOk result (λ l. (decls : List Declaration) → IsListingOf decls ty.now l) }
{
    let mut types = TypeStore::new(alloc);
    let mut met = IndexSet::new(alloc);
    let number = types.add(alloc, ty)?;
    let _ = position(&mut met, number)?;
    Ok(Listing {
        types,
        met,
        nodes: Vec::new(alloc),
        heads: Vec::new(alloc),
        names: Vec::new(alloc),
    })
}

/// Adds the entry of the first discovered type without an entry. Discovers the types that the first
/// type without an entry reaches directly.
pub(crate) fn go_on(
    alloc: Global,
    listing: &mut Listing,
    decls: &SoundEnvironment<'_>,
) -> Result<(), Memory>
    requires within { AreWithin listing.old.types listing.old.met.keys }
    requires more { length listing.old.nodes.items < length listing.old.met.keys }
    requires listed { (t : Tree) × IsListingOf decls.now t listing.old }
    ensures within { OnOk result (AreWithin listing.new.types listing.new.met.keys) }
    ensures one { OnOk result
        (length listing.new.nodes.items ≡ length listing.old.nodes.items + 1) }
    ensures is { OnOk result
        ((t : Tree) → IsListingOf decls.now t listing.old → IsListingOf decls.now t listing.new) }
{
    let number = listing.met.as_slice()[listing.nodes.len()];
    let entry = entry_of(
        alloc,
        &mut listing.types,
        &mut listing.met,
        decls,
        listing.heads.as_slice(),
        number,
    )?;
    write(listing, entry)?;
    Ok(())
}

/// Appends an entry to the shapes, heads and names of the listing.
fn write(listing: &mut Listing, entry: TypeEntry) -> Result<(), Memory>
    ensures types { listing.new.types ≡ listing.old.types }
    ensures met { listing.new.met ≡ listing.old.met }
    ensures nodes { OnOk result
        (listing.new.nodes.items ≡ listing.old.nodes.items ++ entry.shape ∷ []) }
    ensures heads { OnOk result
        (listing.new.heads.items ≡ listing.old.heads.items ++ entry.head ∷ []) }
    ensures names { OnOk result
        (listing.new.names.items ≡ listing.old.names.items ++ entry.names ∷ []) }
{
    listing.nodes.push(entry.shape)?;
    listing.heads.push(entry.head)?;
    listing.names.push(entry.names)?;
    Ok(())
}
