//! An index of the `graft` lines of a script: for each line, the source value and the edited value.

ghost use Rattle.std.specs.Prelude.{◌≡◌, ◌++◌, ◌≤◌, [], IfOk, OnOk, MatchOption, All, Any};
ghost use Rattle.std.specs.Prelude.{option_to_list};
ghost use Rattle.text_path.specs.LineOrder.{IsByValue, positions_of};
ghost use Rattle.text_path.specs.Uses.{use_of, uses_in, AreUses};

use crate::edits::{Action, ScriptLine};
use crate::line_order::positions_of;
use base_data::model::Memory;
use std::alloc::Global;

/// Returns the number of the source value and the number of the edited value, or `None` if the line
/// does not copy.
fn use_of(line: &ScriptLine) -> Option<(u64, u64)>
    ensures { result ≡ use_of line.now }
{
    match &line.action {
        Action::Graft(_, other, _) => Some((*other, line.value)),
        _ => None,
    }
}

/// Appends a pair to the pairs, unless `used` is `None`.
fn add(uses: &mut Vec<(u64, u64)>, used: Option<(u64, u64)>) -> Result<(), Memory>
    ensures { OnOk result (uses.new.items ≡ uses.old.items ++ option_to_list used) }
{
    match used {
        Some(used) => Ok(uses.push(used)?),
        None => Ok(()),
    }
}

/// Returns the pairs of source value and edited value of all lines that copy, in order.
fn uses(alloc: Global, lines: &[ScriptLine]) -> Result<Vec<(u64, u64)>, Memory>
    ensures { IfOk result (λ uses. uses.items ≡ uses_in lines.now) }
{
    let mut uses = Vec::new(alloc);
    let mut rest = lines;
    while let Some((line, more)) = rest.split_first() {
        add(&mut uses, use_of(line))?;
        rest = more;
    }
    Ok(uses)
}

/// Returns the pairs of source value and edited value of all lines that copy, sorted by the source
/// value.
pub fn uses_of(alloc: Global, lines: &[ScriptLine]) -> Result<Vec<(u64, u64)>, Memory>
    ensures { IfOk result (λ uses. AreUses lines.now uses.items) }
{
    let mut uses = uses(alloc, lines)?;
    uses.sort_by_key(|used| used.0)?;
    Ok(uses)
}

/// Returns the greatest second number among the pairs whose first number is `number`, or `None` if
/// there are no such pairs.
pub fn last_use(uses: &[(u64, u64)], number: u64) -> Option<u64>
    requires { IsByValue uses.now }
    ensures { MatchOption result (positions_of number uses.now ≡ [])
        (λ last. Any (λ used. used.1 ≡ last) (positions_of number uses.now)
        × All (λ used. used.1 ≤ last) (positions_of number uses.now)) }
{
    match positions_of(uses, number).iter().max_by_key(|used| used.1) {
        Some(used) => Some(used.1),
        None => None,
    }
}
