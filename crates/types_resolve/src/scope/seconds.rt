//! Finds names that occur twice.

ghost use Rattle.std.specs.Prelude.{IfOk, Contains, List};
ghost use Rattle.types_spec.specs.types.Occurrence.{Placed as PlacedName};
ghost use Rattle.types_spec.specs.types.Scope.{IsSecond};
ghost use Rattle.types_resolve.specs.scope.Least.{IsLeast};

use crate::scope::least::{earliest, position_if};
use crate::scope::name_table::{add, empty};
use crate::scope::site::LocatedName;
use base_data::model::Memory;
use base_data::model::list::List;
use std::alloc::Global;

/// Returns the least lexeme of a name that also occurs at an earlier position in the list.
pub fn least_second(alloc: Global, row: &[LocatedName]) -> Result<Option<usize>, Memory>
    ensures { IfOk result (IsLeast (IsSecond row.now)) }
{
    let mut table = empty(alloc);
    let mut best = None;
    for i in 0..row.len() {
        let placed = &row[i];
        let had = add(&mut table, placed.name(), i)?;
        best = earliest(best, position_if(had.is_some(), placed.position()));
    }
    Ok(best)
}

/// Returns the least lexeme, over several lists, of a name that also occurs at an earlier position
/// in its list.
pub fn least_second_of_rows(
    alloc: Global,
    rows: &[List<LocatedName>],
) -> Result<Option<usize>, Memory>
    ensures { IfOk result
        (IsLeast (λ k. (row : List PlacedName) × Contains rows.now row × IsSecond row k)) }
{
    let mut best = None;
    for i in 0..rows.len() {
        best = earliest(best, least_second(alloc, rows[i].as_slice())?);
    }
    Ok(best)
}
