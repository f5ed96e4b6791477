//! Computes the shapes of declared records and variants, by type index.

ghost use Rattle.std.specs.Prelude.{◌≡◌, ◌<◌, length, map, All, IfOk};
ghost use Rattle.types_spec.specs.types.Shape.{body_shape, is_flat, any_mutable, is_constant};
ghost use Rattle.types_spec.specs.types.Shape.{constants_in};
ghost use Rattle.types_spec.specs.types.Shape.{block_of, blocks_in, types_of_fields};
ghost use Rattle.types_table.specs.store.Held.{Grows};
ghost use Rattle.types_table.specs.store.Instance.{HasNumbers};
ghost use Rattle.types_build.specs.representation.Representation.{instance_at, HasBlock, HasBlocks};
ghost use Rattle.types_build.specs.representation.Representation.{IsShapeAt};

use crate::representation::head_kind::is_float;
use base_data::model::Memory;
use base_data::model::list::List;
use std::alloc::Global;
use types_resolve::scope::SoundEnvironment;
use types_spec::types::decl::{Arguments, Body, Constructor, Decl, Field};
use types_spec::types::shape::{Constr, ShapeOf};
use types_spec::types::ty::Ty;
use types_table::store::TypeStore;

/// Returns the shape of a declared type applied to `arguments`. May append types to `types`, even
/// if the result is `Memory`.
pub(crate) fn datatype_shape(
    alloc: Global,
    types: &mut TypeStore,
    decls: &SoundEnvironment<'_>,
    decl: &Decl,
    arguments: &[usize],
) -> Result<ShapeOf<usize>, Memory>
    requires within { All (λ i. i < length types.old) arguments.now }
    ensures ok { IfOk result
        (IsShapeAt types.new
        (body_shape decls.now (instance_at types.old decl.now arguments.now) decl.now.body)) }
    ensures grown { Grows types.old types.new }
{
    match &decl.body {
        Body::Abbreviation(_) => Ok(ShapeOf::Variable),
        Body::Record(fields) => {
            let fields = fields.as_slice();
            let mutable = any_mutable(fields);
            if is_flat(alloc, types, decls, fields)? {
                return Ok(ShapeOf::FlatFloats(mutable, fields.len() as u64));
            }
            let numbers = instances_of_fields(alloc, types, decl, arguments, fields)?;
            Ok(ShapeOf::Product(mutable, List::of(numbers)))
        }
        Body::Variant(constructors) => {
            let constructors = constructors.as_slice();
            let blocks = blocks(alloc, types, decl, arguments, constructors)?;
            Ok(ShapeOf::Sum(constants_in(constructors), List::of(blocks)))
        }
    }
}

/// Returns true if the declared types of all fields expand to `float`.
pub(crate) fn is_flat(
    alloc: Global,
    types: &mut TypeStore,
    decls: &SoundEnvironment<'_>,
    fields: &[Field],
) -> Result<bool, Memory>
    ensures ok { IfOk result (λ flat. flat ≡ is_flat decls.now fields.now) }
    ensures grown { Grows types.old types.new }
{
    for field in fields {
        if !is_float(alloc, types, decls, &field.ty)? {
            return Ok(false);
        }
    }
    Ok(true)
}

/// Returns the blocks of the constructors with arguments.
fn blocks(
    alloc: Global,
    types: &mut TypeStore,
    decl: &Decl,
    arguments: &[usize],
    constructors: &[Constructor],
) -> Result<Vec<Constr<usize>>, Memory>
    requires { All (λ i. i < length types.old) arguments.now }
    ensures ok { IfOk result
        (λ v. HasBlocks types.new
        (blocks_in (instance_at types.old decl.now arguments.now) constructors.now) v.items) }
    ensures grown { Grows types.old types.new }
{
    let mut found = Vec::new(alloc);
    for constructor in constructors {
        if let Some(block) = block_of(alloc, types, decl, arguments, &constructor.arguments)? {
            found.push(block)?;
        }
    }
    Ok(found)
}

/// Returns the block of a constructor, or `None` if the constructor has no arguments.
fn block_of(
    alloc: Global,
    types: &mut TypeStore,
    decl: &Decl,
    arguments: &[usize],
    written: &Arguments,
) -> Result<Option<Constr<usize>>, Memory>
    requires { All (λ i. i < length types.old) arguments.now }
    ensures ok { IfOk result
        (HasBlock types.new (block_of (instance_at types.old decl.now arguments.now) written.now)) }
    ensures grown { Grows types.old types.new }
{
    match written {
        Arguments::Constant => Ok(None),
        Arguments::Listed(all) => {
            let numbers = instances(alloc, types, decl, arguments, all.as_slice())?;
            Ok(Some(Constr {
                mutable: false,
                fields: List::of(numbers),
            }))
        }
        Arguments::Inline(fields) => {
            let fields = fields.as_slice();
            let numbers = instances_of_fields(alloc, types, decl, arguments, fields)?;
            Ok(Some(Constr {
                mutable: any_mutable(fields),
                fields: List::of(numbers),
            }))
        }
    }
}

/// Returns the indices of the types of fields, in which `arguments` replace the declaration's
/// parameters.
fn instances_of_fields(
    alloc: Global,
    types: &mut TypeStore,
    decl: &Decl,
    arguments: &[usize],
    fields: &[Field],
) -> Result<Vec<usize>, Memory>
    requires { All (λ i. i < length types.old) arguments.now }
    ensures ok { IfOk result
        (λ v. HasNumbers types.new
        (map (instance_at types.old decl.now arguments.now) (types_of_fields fields.now))
        v.items) }
    ensures grown { Grows types.old types.new }
{
    let mut numbers = Vec::new(alloc);
    for field in fields {
        let number = types.instance(alloc, &field.ty, decl.parameters.as_slice(), arguments)?;
        numbers.push(number)?;
    }
    Ok(numbers)
}

/// Returns the indices of types, in which `arguments` replace the declaration's parameters.
fn instances(
    alloc: Global,
    types: &mut TypeStore,
    decl: &Decl,
    arguments: &[usize],
    written: &[Ty],
) -> Result<Vec<usize>, Memory>
    requires { All (λ i. i < length types.old) arguments.now }
    ensures ok { IfOk result
        (λ v. HasNumbers types.new
        (map (instance_at types.old decl.now arguments.now) written.now) v.items) }
    ensures grown { Grows types.old types.new }
{
    let mut numbers = Vec::new(alloc);
    for t in written {
        let number = types.instance(alloc, t, decl.parameters.as_slice(), arguments)?;
        numbers.push(number)?;
    }
    Ok(numbers)
}

/// Returns true if some field is mutable.
fn any_mutable(fields: &[Field]) -> bool
    ensures { result ≡ any_mutable fields.now }
{
    fields.iter().any(|field| field.mutable)
}

/// Returns the number of constant constructors.
fn constants_in(constructors: &[Constructor]) -> u64
    ensures { result ≡ constants_in constructors.now }
{
    let mut count = 0;
    for constructor in constructors {
        if is_constant(&constructor.arguments) {
            count += 1;
        }
    }
    count
}

/// Returns true if a constructor has no arguments.
pub(crate) fn is_constant(arguments: &Arguments) -> bool
    ensures { result ≡ is_constant arguments.now }
{
    matches!(arguments, Arguments::Constant)
}
