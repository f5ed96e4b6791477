//! Converts shapes whose parts are store numbers to shapes whose parts are indices into the
//! discovered types.

ghost use Rattle.std.specs.Prelude.{IfOk};
ghost use Rattle.types_build.specs.builder.PlacedTypes.{AreBlocksPlaced, IsTagPlaced};
ghost use Rattle.types_build.specs.builder.PlacedTypes.{AreTagsPlaced};
ghost use Rattle.types_build.specs.builder.PlacedTypes.{IsShapePlaced};

use crate::builder::discovered_types::{DiscoveredTypes, position, position_if, positions};
use base_data::model::Memory;
use base_data::model::list::List;
use std::alloc::Global;
use types_spec::types::shape::{Constr, PolyTag, ShapeOf};

/// Replaces the store numbers in a shape by their indices in `met`. Adds new numbers to `met`,
/// field by field for each constructor in turn, or tag by tag.
pub(crate) fn placed_shape(
    alloc: Global,
    met: &mut DiscoveredTypes,
    shape: &ShapeOf<usize>,
) -> Result<ShapeOf<usize>, Memory>
    ensures { IfOk result (IsShapePlaced met.old.keys met.new.keys shape.now) }
{
    match shape {
        ShapeOf::AnyInt => Ok(ShapeOf::AnyInt),
        ShapeOf::Below(count) => Ok(ShapeOf::Below(*count)),
        ShapeOf::Bytes(mutable) => Ok(ShapeOf::Bytes(*mutable)),
        ShapeOf::Double => Ok(ShapeOf::Double),
        ShapeOf::Int32 => Ok(ShapeOf::Int32),
        ShapeOf::Int64 => Ok(ShapeOf::Int64),
        ShapeOf::Native => Ok(ShapeOf::Native),
        ShapeOf::Sum(constants, blocks) => {
            let blocks = placed_blocks(alloc, met, blocks.as_slice())?;
            Ok(ShapeOf::Sum(*constants, blocks))
        }
        ShapeOf::Product(mutable, fields) => {
            let fields = positions(alloc, met, fields.as_slice())?;
            Ok(ShapeOf::Product(*mutable, fields))
        }
        ShapeOf::FlatFloats(mutable, count) => Ok(ShapeOf::FlatFloats(*mutable, *count)),
        ShapeOf::ArrayOf(element) => Ok(ShapeOf::ArrayOf(position(met, *element)?)),
        ShapeOf::FloatArray => Ok(ShapeOf::FloatArray),
        ShapeOf::Poly(tags) => Ok(ShapeOf::Poly(placed_tags(alloc, met, tags.as_slice())?)),
        ShapeOf::Variable => Ok(ShapeOf::Variable),
        ShapeOf::ArrayOfVariable => Ok(ShapeOf::ArrayOfVariable),
        ShapeOf::Anything => Ok(ShapeOf::Anything),
        ShapeOf::ArrayOfAnything(element) => Ok(ShapeOf::ArrayOfAnything(position(met, *element)?)),
    }
}

/// Replaces the field types of constructors with arguments, which are store numbers, by their
/// indices in `met`.
fn placed_blocks(
    alloc: Global,
    met: &mut DiscoveredTypes,
    blocks: &[Constr<usize>],
) -> Result<List<Constr<usize>>, Memory>
    ensures { IfOk result (AreBlocksPlaced met.old.keys met.new.keys blocks.now) }
{
    let mut found = Vec::new(alloc);
    for block in blocks {
        let fields = positions(alloc, met, block.fields.as_slice())?;
        let mutable = block.mutable;
        found.push(Constr { mutable, fields })?;
    }
    Ok(List::of(found))
}

/// Replaces the arguments of tags, which are store numbers, by their indices in `met`. The tags
/// keep their hashes.
fn placed_tags(
    alloc: Global,
    met: &mut DiscoveredTypes,
    tags: &[PolyTag<usize>],
) -> Result<List<PolyTag<usize>>, Memory>
    ensures { IfOk result (AreTagsPlaced met.old.keys met.new.keys tags.now) }
{
    let mut found = Vec::with_capacity(alloc, tags.len())?;
    for tag in tags {
        found.push(placed_tag(met, tag)?)?;
    }
    Ok(List::of(found))
}

/// Replaces the argument of a tag, which is a store number, by its index in `met`. The tag keeps
/// its hash.
fn placed_tag(met: &mut DiscoveredTypes, tag: &PolyTag<usize>) -> Result<PolyTag<usize>, Memory>
    ensures { IfOk result (IsTagPlaced met.old.keys met.new.keys tag.now) }
{
    let arg = position_if(met, tag.arg)?;
    let hash = tag.hash;
    Ok(PolyTag { hash, arg })
}
