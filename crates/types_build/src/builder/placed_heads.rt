//! Converts heads whose parts are store numbers to heads whose parts are indices into the
//! discovered types.

ghost use Rattle.std.specs.Prelude.{IfOk};
ghost use Rattle.types_build.specs.builder.PlacedTypes.{AreHeadTagsPlaced, IsHeadPlaced};

use crate::builder::discovered_types::{DiscoveredTypes, position_if, positions};
use base_data::model::Memory;
use base_data::model::list::List;
use base_data::text::copied;
use std::alloc::Global;
use types_spec::types::head::{HeadOf, TagOf};

/// Replaces the parts of a head by their indices in `met`. Adds new parts to `met`, in the order of
/// the parts.
pub(crate) fn placed_head(
    alloc: Global,
    met: &mut DiscoveredTypes,
    head: &HeadOf<usize>,
) -> Result<HeadOf<usize>, Memory>
    ensures { IfOk result (IsHeadPlaced met.old.keys met.new.keys head.now) }
{
    match head {
        HeadOf::Variable(name) => Ok(HeadOf::Variable(copied(alloc, name.as_slice())?)),
        HeadOf::Predeclared(base, parts) => {
            let parts = positions(alloc, met, parts.as_slice())?;
            Ok(HeadOf::Predeclared(*base, parts))
        }
        HeadOf::Datatype(name, parts) => {
            let name = copied(alloc, name.as_slice())?;
            let parts = positions(alloc, met, parts.as_slice())?;
            Ok(HeadOf::Datatype(name, parts))
        }
        HeadOf::Tuple(parts) => Ok(HeadOf::Tuple(positions(alloc, met, parts.as_slice())?)),
        HeadOf::Variants(tags) => Ok(HeadOf::Variants(placed_tags(alloc, met, tags.as_slice())?)),
        HeadOf::Absent => Ok(HeadOf::Absent),
    }
}

/// Replaces the arguments of tags by their indices in `met`. The tags keep their names.
fn placed_tags(
    alloc: Global,
    met: &mut DiscoveredTypes,
    tags: &[TagOf<usize>],
) -> Result<List<TagOf<usize>>, Memory>
    ensures { IfOk result (AreHeadTagsPlaced met.old.keys met.new.keys tags.now) }
{
    let mut found = Vec::with_capacity(alloc, tags.len())?;
    for tag in tags {
        let name = copied(alloc, tag.name.as_slice())?;
        let argument = position_if(met, tag.argument)?;
        found.push(TagOf { name, argument })?;
    }
    Ok(List::of(found))
}
