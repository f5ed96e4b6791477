//! Converts shapes over type indices to shapes over types given as trees.

ghost use Rattle.std.specs.Prelude.{◌≡◌, ◌<◌, length, map, All, IfOk, IfSome};
ghost use Rattle.types_spec.specs.types.TypeNodes.{type_at};
ghost use Rattle.types_spec.specs.types.Reached.{named_in};
ghost use Rattle.types_spec.specs.types.Table.{constr_with, tag_with_parts, with_parts};

use base_data::model::Memory;
use base_data::model::list::List;
use std::alloc::Global;
use types_spec::types::shape::{Constr, PolyTag, ShapeOf};
use types_spec::types::ty::Ty;
use types_table::store::TypeStore;

/// Returns the shape in which types replace type indices.
pub(crate) fn trees_of_shape(
    alloc: Global,
    types: &TypeStore,
    found: &ShapeOf<usize>,
) -> Result<ShapeOf<Ty>, Memory>
    requires { All (λ i. i < length types.now) (named_in found.now) }
    ensures { IfOk result (λ shape. shape ≡ with_parts (type_at types.now) found.now) }
{
    match found {
        ShapeOf::AnyInt => Ok(ShapeOf::AnyInt),
        ShapeOf::Below(count) => Ok(ShapeOf::Below(*count)),
        ShapeOf::Bytes(mutable) => Ok(ShapeOf::Bytes(*mutable)),
        ShapeOf::Double => Ok(ShapeOf::Double),
        ShapeOf::Int32 => Ok(ShapeOf::Int32),
        ShapeOf::Int64 => Ok(ShapeOf::Int64),
        ShapeOf::Native => Ok(ShapeOf::Native),
        ShapeOf::Sum(constants, blocks) => {
            let blocks = trees_of_blocks(alloc, types, blocks.as_slice())?;
            Ok(ShapeOf::Sum(*constants, List::of(blocks)))
        }
        ShapeOf::Product(mutable, fields) => {
            let fields = trees(alloc, types, fields.as_slice())?;
            Ok(ShapeOf::Product(*mutable, List::of(fields)))
        }
        ShapeOf::FlatFloats(mutable, count) => Ok(ShapeOf::FlatFloats(*mutable, *count)),
        ShapeOf::ArrayOf(element) => Ok(ShapeOf::ArrayOf(types.tree(alloc, *element)?)),
        ShapeOf::FloatArray => Ok(ShapeOf::FloatArray),
        ShapeOf::Poly(tags) => {
            let tags = trees_of_tags(alloc, types, tags.as_slice())?;
            Ok(ShapeOf::Poly(List::of(tags)))
        }
        ShapeOf::Variable => Ok(ShapeOf::Variable),
        ShapeOf::ArrayOfVariable => Ok(ShapeOf::ArrayOfVariable),
        ShapeOf::Anything => Ok(ShapeOf::Anything),
        ShapeOf::ArrayOfAnything(element) => {
            Ok(ShapeOf::ArrayOfAnything(types.tree(alloc, *element)?))
        }
    }
}

/// Returns the blocks in which types replace type indices.
fn trees_of_blocks(
    alloc: Global,
    types: &TypeStore,
    blocks: &[Constr<usize>],
) -> Result<Vec<Constr<Ty>>, Memory>
    requires { All (λ block. All (λ i. i < length types.now) block.fields) blocks.now }
    ensures { IfOk result (λ v. v.items ≡ map (constr_with (type_at types.now)) blocks.now) }
{
    let mut found = Vec::new(alloc);
    for block in blocks {
        let fields = trees(alloc, types, block.fields.as_slice())?;
        found.push(Constr {
            mutable: block.mutable,
            fields: List::of(fields),
        })?;
    }
    Ok(found)
}

/// Returns the tags in which types replace type indices.
fn trees_of_tags(
    alloc: Global,
    types: &TypeStore,
    tags: &[PolyTag<usize>],
) -> Result<Vec<PolyTag<Ty>>, Memory>
    requires { All (λ tag. IfSome tag.arg (λ i. i < length types.now)) tags.now }
    ensures { IfOk result (λ v. v.items ≡ map (tag_with_parts (type_at types.now)) tags.now) }
{
    let mut found = Vec::new(alloc);
    for tag in tags {
        let arg = match tag.arg {
            Some(number) => Some(types.tree(alloc, number)?),
            None => None,
        };
        found.push(PolyTag {
            hash: tag.hash,
            arg,
        })?;
    }
    Ok(found)
}

/// Returns the types with the indices `numbers` in the store.
fn trees(alloc: Global, types: &TypeStore, numbers: &[usize]) -> Result<Vec<Ty>, Memory>
    requires { All (λ i. i < length types.now) numbers.now }
    ensures { IfOk result (λ v. v.items ≡ map (type_at types.now) numbers.now) }
{
    let mut found = Vec::new(alloc);
    for number in numbers {
        found.push(types.tree(alloc, *number)?)?;
    }
    Ok(found)
}
