//! The table entry of one type.

ghost use Rattle.std.specs.Prelude.{◌<◌, true, List, length, IfOk, OnOk};
ghost use Rattle.types_spec.specs.declared.types.decl.Decl.{Decl as Declaration};
ghost use Rattle.types_spec.specs.types.TypeNodes.{type_at};
ghost use Rattle.types_table.specs.store.Held.{Grows, AreDistinct};
ghost use Rattle.types_build.specs.representation.FoundHeads.{AreFound};
ghost use Rattle.types_build.specs.representation.Representation.{AreNamesAt};
ghost use Rattle.types_build.specs.builder.Listed.{types_at, AreWithin, IsPlacedEntry, IsEntry};

use crate::builder::discovered_types::DiscoveredTypes;
use crate::builder::placed_heads::placed_head;
use crate::builder::placed_shapes::placed_shape;
use crate::representation::{FoundHeads, Representation, names_at, representation_with};
use base_data::model::Memory;
use std::alloc::Global;
use types_resolve::scope::SoundEnvironment;
use types_spec::types::head::HeadOf;
use types_spec::types::names::Names;
use types_spec::types::shape::ShapeOf;
use types_table::store::TypeStore;

/// The head and the shape of a type, with indices of discovered types as parts, and the names of
/// the head.
#[derive(Drop)]
pub(crate) struct TypeEntry {
    pub(crate) head: HeadOf<usize>,
    pub(crate) shape: ShapeOf<usize>,
    pub(crate) names: Names,
}

/// Returns the entry of a type. `heads` holds the heads of the first discovered types. Adds to
/// `met` first the types of the entry's shape, and then the parts of the entry's head.
pub(crate) fn entry_of(
    alloc: Global,
    types: &mut TypeStore,
    met: &mut DiscoveredTypes,
    decls: &SoundEnvironment<'_>,
    heads: &[HeadOf<usize>],
    number: usize,
) -> Result<TypeEntry, Memory>
    requires number { number < length types.old }
    requires found { AreFound decls.now types.old true met.old.keys heads.now }
    ensures within { OnOk result (AreWithin types.new met.new.keys) }
    ensures ok { IfOk result
        (IsEntry decls.now (type_at types.old number) (types_at types.old met.old.keys)
        (types_at types.new met.new.keys)) }
    ensures grown { Grows types.old types.new }
{
    let found = FoundHeads {
        by_position: true,
        met,
        heads,
    };
    let representation = representation_with(alloc, types, decls, &found, number)?;
    stand_once(types);
    placed_entry(alloc, met, decls, &representation)
}

/// Returns the entry for the representation of a type, with indices of discovered types as parts.
fn placed_entry(
    alloc: Global,
    met: &mut DiscoveredTypes,
    decls: &SoundEnvironment<'_>,
    representation: &Representation,
) -> Result<TypeEntry, Memory>
    ensures { IfOk result (IsPlacedEntry decls.now met.old.keys met.new.keys representation.now) }
{
    let names = names_at(alloc, decls, &representation.head)?;
    placed(alloc, met, representation, names)
}

/// Returns the entry for the representation of a type and the given names.
fn placed(
    alloc: Global,
    met: &mut DiscoveredTypes,
    representation: &Representation,
    names: Names,
) -> Result<TypeEntry, Memory>
    ensures { IfOk result
        (λ entry. (decls : List Declaration) → AreNamesAt decls representation.now.head names
        → IsPlacedEntry decls met.old.keys met.new.keys representation.now entry) }
{
    let shape = placed_shape(alloc, met, &representation.shape)?;
    let head = placed_head(alloc, met, &representation.head)?;
    Ok(TypeEntry { head, shape, names })
}

/// Lemma function: the types of a store are distinct.
fn stand_once(types: &TypeStore)
    ensures { AreDistinct types.now }
{
    let _ = types.len();
}
