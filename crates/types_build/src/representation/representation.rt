//! Computes the representation of the values of a type, by type index.

ghost use Rattle.std.specs.Prelude.{◌≡◌, ◌<◌, length, map, All, IfOk};
ghost use Rattle.types_spec.specs.types.TypeNodes.{type_at};
ghost use Rattle.types_spec.specs.types.Shape.{head_shape};
ghost use Rattle.types_spec.specs.types.Reached.{parts_of};
ghost use Rattle.types_table.specs.store.Held.{Grows};
ghost use Rattle.types_build.specs.representation.FoundHeads.{AreFound};
ghost use Rattle.types_build.specs.representation.Representation.{head_of_types, hashed};
ghost use Rattle.types_build.specs.representation.Representation.{IsRepresentationOf, IsShapeAt};

use crate::representation::datatype::datatype_shape;
use crate::representation::found_heads::FoundHeads;
use crate::representation::predeclared_shapes::predeclared_shape;
use crate::representation::type_heads::head_with;
use base_data::model::Memory;
use base_data::model::list::List;
use indexmap::IndexSet;
use std::alloc::Global;
use types_resolve::scope::SoundEnvironment;
use types_spec::tag_hash::hash;
use types_spec::types::head::{HeadOf, TagOf};
use types_spec::types::shape::{PolyTag, ShapeOf};
use types_table::store::TypeStore;

/// The head and the shape of a type. The parts of the head and of the shape are type indices.
#[derive(Drop)]
pub struct Representation {
    pub head: HeadOf<usize>,
    pub shape: ShapeOf<usize>,
}

/// Returns the head and the shape of a type. May append types to `types`, even if the result is
/// `Memory`.
pub fn representation_of(
    alloc: Global,
    types: &mut TypeStore,
    decls: &SoundEnvironment<'_>,
    number: usize,
) -> Result<Representation, Memory>
    requires number { number < length types.old }
    ensures ok { IfOk result (IsRepresentationOf decls.now types.new (type_at types.old number)) }
    ensures grown { Grows types.old types.new }
{
    let met = IndexSet::new(alloc);
    let none = FoundHeads {
        by_position: true,
        met: &met,
        heads: &[],
    };
    representation_with(alloc, types, decls, &none, number)
}

/// Returns the head and the shape of a type like `representation_of`, and uses the heads in
/// `found`.
pub fn representation_with(
    alloc: Global,
    types: &mut TypeStore,
    decls: &SoundEnvironment<'_>,
    found: &FoundHeads<'_>,
    number: usize,
) -> Result<Representation, Memory>
    requires number { number < length types.old }
    requires found { AreFound decls.now types.old found.now.by_position found.now.met.now.keys
        found.now.heads.now }
    ensures ok { IfOk result (IsRepresentationOf decls.now types.new (type_at types.old number)) }
    ensures grown { Grows types.old types.new }
{
    let head = head_with(alloc, types, decls, found, number)?;
    let shape = shape_at(alloc, types, decls, &head)?;
    Ok(Representation { head, shape })
}

/// Returns the shape of a type whose head is given.
fn shape_at(
    alloc: Global,
    types: &mut TypeStore,
    decls: &SoundEnvironment<'_>,
    at: &HeadOf<usize>,
) -> Result<ShapeOf<usize>, Memory>
    requires within { All (λ i. i < length types.old) (parts_of at.now) }
    ensures ok { IfOk result
        (IsShapeAt types.new (head_shape decls.now (head_of_types types.old at.now))) }
    ensures grown { Grows types.old types.new }
{
    match at {
        HeadOf::Predeclared(base, parts) => {
            predeclared_shape(alloc, types, decls, *base, parts.as_slice())
        }
        HeadOf::Datatype(name, parts) => match decls.get(name.as_slice()) {
            Some(decl) => datatype_shape(alloc, types, decls, decl, parts.as_slice()),
            None => Ok(ShapeOf::Variable),
        },
        HeadOf::Tuple(parts) => Ok(ShapeOf::Product(
            false,
            List::of(Vec::from_slice(alloc, parts.as_slice())?),
        )),
        HeadOf::Variants(tags) => Ok(ShapeOf::Poly(List::of(hashed(alloc, tags.as_slice())?))),
        HeadOf::Variable(_) | HeadOf::Absent => Ok(ShapeOf::Variable),
    }
}

/// Returns the tags with their hashes instead of their names.
fn hashed(alloc: Global, tags: &[TagOf<usize>]) -> Result<Vec<PolyTag<usize>>, Memory>
    ensures { IfOk result (λ v. v.items ≡ map hashed tags.now) }
{
    let mut found = Vec::with_capacity(alloc, tags.len())?;
    for tag in tags {
        found.push(PolyTag {
            hash: hash(tag.name.as_slice()),
            arg: tag.argument,
        })?;
    }
    Ok(found)
}
