//! Computes the shapes of predeclared types, by type index.

ghost use Rattle.std.specs.Prelude.{◌≡◌, ◌<◌, [], ◌∷◌, List, length, map, All, IfOk};
ghost use Rattle.types_spec.specs.types.Ty.{Ty};
ghost use Rattle.types_spec.specs.types.TypeNodes.{type_at};
ghost use Rattle.types_spec.specs.types.Shape.{predeclared_shape};
ghost use Rattle.types_table.specs.store.Held.{Grows};
ghost use Rattle.types_build.specs.representation.Kind.{IsBase};
ghost use Rattle.types_build.specs.representation.Representation.{array_at, IsShapeAt};

use crate::representation::sum::sum_shape;
use crate::representation::type_heads::head_of;
use base_data::model::Memory;
use std::alloc::Global;
use types_resolve::scope::SoundEnvironment;
use types_spec::types::decl::{Decl, Predeclared};
use types_spec::types::head::HeadOf;
use types_spec::types::shape::ShapeOf;
use types_table::store::TypeStore;

/// Returns the shape of a predeclared type. May append types to `types`, even if the result is
/// `Memory`.
pub(crate) fn predeclared_shape(
    alloc: Global,
    types: &mut TypeStore,
    decls: &SoundEnvironment<'_>,
    base: Predeclared,
    parts: &[usize],
) -> Result<ShapeOf<usize>, Memory>
    requires within { All (λ i. i < length types.old) parts.now }
    ensures ok { IfOk result
        (IsShapeAt types.new
        (predeclared_shape decls.now base (map (type_at types.old) parts.now))) }
    ensures grown { Grows types.old types.new }
{
    match base {
        Predeclared::Sum(number) => sum_shape(alloc, types, number, parts),
        _ => base_shape(alloc, types, decls, base, parts),
    }
}

/// Returns the shape of a predeclared type with a representation of its own. May append types to
/// `types`.
fn base_shape(
    alloc: Global,
    types: &mut TypeStore,
    decls: &SoundEnvironment<'_>,
    base: Predeclared,
    parts: &[usize],
) -> Result<ShapeOf<usize>, Memory>
    requires base { IsBase base }
    requires within { All (λ i. i < length types.old) parts.now }
    ensures ok { IfOk result
        (IsShapeAt types.new
        (predeclared_shape decls.now base (map (type_at types.old) parts.now))) }
    ensures grown { Grows types.old types.new }
{
    match parts {
        [] => Ok(alone(base)),
        [part] => of_one(alloc, types, decls, base, *part),
        _ => Ok(ShapeOf::Variable),
    }
}

/// Returns the shape of a predeclared type without arguments. The type has a representation of its
/// own.
fn alone(base: Predeclared) -> ShapeOf<usize>
    requires { IsBase base }
    ensures { (decls : List Decl) (types : List Ty)
        → IsShapeAt types (predeclared_shape decls base []) result }
{
    match base {
        Predeclared::Int => ShapeOf::AnyInt,
        Predeclared::Char => ShapeOf::Below(256),
        Predeclared::Bool => ShapeOf::Below(2),
        Predeclared::Unit => ShapeOf::Below(1),
        Predeclared::String => ShapeOf::Bytes(false),
        Predeclared::Bytes => ShapeOf::Bytes(true),
        Predeclared::Float => ShapeOf::Double,
        Predeclared::Int32 => ShapeOf::Int32,
        Predeclared::Int64 => ShapeOf::Int64,
        Predeclared::Nativeint => ShapeOf::Native,
        Predeclared::Floatarray => ShapeOf::FloatArray,
        Predeclared::Any => ShapeOf::Anything,
        Predeclared::Array => ShapeOf::Variable,
        Predeclared::Sum(_) => ShapeOf::Variable,
    }
}

/// Returns the shape of a predeclared type with one argument. The type has a representation of its
/// own.
fn of_one(
    alloc: Global,
    types: &mut TypeStore,
    decls: &SoundEnvironment<'_>,
    base: Predeclared,
    part: usize,
) -> Result<ShapeOf<usize>, Memory>
    requires base { IsBase base }
    requires part { part < length types.old }
    ensures ok { IfOk result
        (IsShapeAt types.new (predeclared_shape decls.now base (type_at types.old part ∷ []))) }
    ensures grown { Grows types.old types.new }
{
    match base {
        Predeclared::Array => {
            let head = head_of(alloc, types, decls, part)?;
            Ok(array_at(&head, part))
        }
        _ => Ok(ShapeOf::Variable),
    }
}

/// Returns the shape of arrays whose element type has this head.
fn array_at(at: &HeadOf<usize>, element: usize) -> ShapeOf<usize>
    ensures { result ≡ array_at at.now element }
{
    match at {
        HeadOf::Variable(_) => ShapeOf::ArrayOfVariable,
        HeadOf::Predeclared(Predeclared::Float, _) => ShapeOf::FloatArray,
        HeadOf::Predeclared(Predeclared::Any, _) => ShapeOf::ArrayOfAnything(element),
        _ => ShapeOf::ArrayOf(element),
    }
}
