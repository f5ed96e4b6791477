//! Computes shapes and expansions, and tests for flat float records, for types given as trees.

ghost use Rattle.std.specs.Prelude.{◌≡◌, IfOk};
ghost use Rattle.types_spec.specs.types.Declarations.{IsExpanded};
ghost use Rattle.types_spec.specs.types.Shape.{shape, is_flat_body};

use crate::representation::datatype::is_flat;
use crate::representation::replaced::expanded;
use crate::representation::representation::representation_of;
use crate::representation::trees::trees_of_shape;
use base_data::model::Memory;
use std::alloc::Global;
use types_resolve::scope::SoundEnvironment;
use types_spec::types::decl::{Body, Decl};
use types_spec::types::shape::ShapeOf;
use types_spec::types::ty::Ty;
use types_table::store::TypeStore;

/// Returns the shape of a type, which describes the representation of its values.
pub fn shape(alloc: Global, decls: &SoundEnvironment<'_>, t: &Ty) -> Result<ShapeOf<Ty>, Memory>
    ensures { IfOk result (λ found. found ≡ shape decls.now t.now) }
{
    let mut types = TypeStore::new(alloc);
    let number = types.add(alloc, t)?;
    let representation = representation_of(alloc, &mut types, decls, number)?;
    trees_of_shape(alloc, &types, &representation.shape)
}

/// Returns the type after expansions at its head, until no abbreviation is left at the head.
pub fn expand(alloc: Global, decls: &SoundEnvironment<'_>, t: &Ty) -> Result<Ty, Memory>
    ensures { IfOk result (IsExpanded decls.now t.now) }
{
    let mut types = TypeStore::new(alloc);
    let number = types.add(alloc, t)?;
    let end = expanded(alloc, &mut types, decls, number)?;
    types.tree(alloc, end)
}

/// Returns true if a declaration is a record whose values are stored as one array of doubles.
pub fn flat_float(alloc: Global, decls: &SoundEnvironment<'_>, decl: &Decl) -> Result<bool, Memory>
    ensures { IfOk result (λ flat. flat ≡ is_flat_body decls.now decl.now.body) }
{
    let Body::Record(fields) = &decl.body else {
        return Ok(false);
    };
    let mut types = TypeStore::new(alloc);
    is_flat(alloc, &mut types, decls, fields.as_slice())
}
