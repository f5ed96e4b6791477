//! The list of discovered types, in which each type has an index.

ghost use Rattle.std.specs.Prelude.{◌≡◌, Some, nat_eq, slice_get, IfOk, OnOk};
ghost use Rattle.indexmap.specs.IndexSet.{insert_key};
ghost use Rattle.types_build.specs.builder.PlacedTypes.{AreNumbersPlaced, IsOptionPlaced};

use base_data::model::Memory;
use base_data::model::list::List;
use indexmap::IndexSet;
use std::alloc::Global;

/// The store numbers of the discovered types, each number once, in the order of discovery.
pub(crate) type DiscoveredTypes = IndexSet<usize>;

/// Returns the index of a store number in `met`. If `met` does not contain the number, appends the
/// number to `met`.
pub(crate) fn position(met: &mut DiscoveredTypes, number: usize) -> Result<usize, Memory>
    ensures met { OnOk result (met.new.keys ≡ insert_key nat_eq met.old.keys number) }
    ensures there { IfOk result (λ position. slice_get met.new.keys position ≡ Some number) }
{
    let (position, _) = met.insert_full(number)?;
    Ok(position)
}

/// Returns the indices of store numbers in `met`. Appends the numbers that `met` does not contain.
pub(crate) fn positions(
    alloc: Global,
    met: &mut DiscoveredTypes,
    numbers: &[usize],
) -> Result<List<usize>, Memory>
    ensures { IfOk result (AreNumbersPlaced met.old.keys met.new.keys numbers.now) }
{
    let mut found = Vec::new(alloc);
    for number in numbers {
        let position = position(met, *number)?;
        found.push(position)?;
    }
    Ok(List::of(found))
}

/// Returns the index of a store number in `met`, or `None` if there is no number.
pub(crate) fn position_if(
    met: &mut DiscoveredTypes,
    number: Option<usize>,
) -> Result<Option<usize>, Memory>
    ensures { IfOk result (IsOptionPlaced met.old.keys met.new.keys number) }
{
    match number {
        Some(number) => Ok(Some(position(met, number)?)),
        None => Ok(None),
    }
}
