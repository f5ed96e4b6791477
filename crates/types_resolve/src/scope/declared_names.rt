//! Checks the names of declared types.

ghost use Rattle.std.specs.Prelude.{IfOk};
ghost use Rattle.types_resolve.specs.scope.Breaks.{IsPredeclaredAt, NamesTwice};
ghost use Rattle.types_resolve.specs.scope.Least.{IsLeast};

use crate::scope::least::{earliest, position_if};
use crate::scope::seconds::least_second;
use crate::scope::site::LocatedName;
use base_data::model::Memory;
use std::alloc::Global;
use types_spec::types::predeclared::predeclared_arity;

/// Returns the least lexeme of a declared name that is predeclared.
fn least_predeclared(names: &[LocatedName]) -> Option<usize>
    ensures { IsLeast (IsPredeclaredAt names.now) result }
{
    let mut best = None;
    for i in 0..names.len() {
        let placed = &names[i];
        let known = predeclared_arity(placed.name()).is_some();
        best = earliest(best, position_if(known, placed.position()));
    }
    best
}

/// Returns the least lexeme of a declared name that is predeclared or also declared at an earlier
/// position.
pub fn least_name_twice(alloc: Global, names: &[LocatedName]) -> Result<Option<usize>, Memory>
    ensures { IfOk result (IsLeast (NamesTwice names.now)) }
{
    let second = least_second(alloc, names)?;
    Ok(earliest(second, least_predeclared(names)))
}
