//! Finds variables that are not parameters.

ghost use Rattle.std.specs.Prelude.{IfOk, length};
ghost use Rattle.types_resolve.specs.scope.Breaks.{VariablesBreak};
ghost use Rattle.types_resolve.specs.scope.Least.{IsLeast};
ghost use Rattle.types_resolve.specs.scope.NamePositions.{number_of, ArePositions};

use crate::scope::least::{earliest, position_if};
use crate::scope::name_table::{NameTable, add, empty, find};
use crate::scope::site::LocatedName;
use base_data::model::Memory;
use base_data::model::list::List;
use std::alloc::Global;

/// Builds the table of the first index of each parameter.
fn table_of<'a>(alloc: Global, parameters: &'a [List<u8>]) -> Result<NameTable<'a>, Memory>
    ensures { IfOk result (λ t. ArePositions parameters.now (length parameters.now) (number_of t)) }
{
    let mut table = empty(alloc);
    for i in 0..parameters.len() {
        let _ = add(&mut table, parameters[i].as_slice(), i)?;
    }
    Ok(table)
}

/// Returns the least lexeme of a variable that is not a parameter.
pub fn least_unbound(
    alloc: Global,
    parameters: &[List<u8>],
    variables: &[LocatedName],
) -> Result<Option<usize>, Memory>
    ensures { IfOk result (IsLeast (VariablesBreak parameters.now variables.now)) }
{
    let table = table_of(alloc, parameters)?;
    let mut best = None;
    for i in 0..variables.len() {
        let variable = &variables[i];
        let unbound = find(&table, variable.name()).is_none();
        best = earliest(best, position_if(unbound, variable.position()));
    }
    Ok(best)
}
