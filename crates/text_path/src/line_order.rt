//! An index of a script's lines by the numbers of the edited values.

ghost use Rattle.std.specs.Prelude.{◌≡◌, IfOk, filter, not, nat_lt, nat_le};
ghost use Rattle.text_path.specs.LineOrder.{positions_from, positions_of, IsByValue, IsOrder};

use crate::edits::ScriptLine;
use base_data::model::Memory;
use std::alloc::Global;

/// Returns, for each line, the number of the edited value and the line's index.
fn positions(alloc: Global, lines: &[ScriptLine]) -> Result<Vec<(u64, u64)>, Memory>
    ensures { IfOk result (λ positions. positions.items ≡ positions_from 0 lines.now) }
{
    let mut positions = Vec::new(alloc);
    let mut position: u64 = 0;
    let mut rest = lines;
    while let Some((line, more)) = rest.split_first() {
        positions.push((line.value, position))?;
        position += 1;
        rest = more;
    }
    Ok(positions)
}

/// Returns the entries of the lines, sorted by the numbers of the edited values. Lines of one value
/// keep their order.
pub fn order_of(alloc: Global, lines: &[ScriptLine]) -> Result<Vec<(u64, u64)>, Memory>
    ensures { IfOk result (λ order. IsOrder lines.now order.items) }
{
    let mut order = positions(alloc, lines)?;
    order.sort_by_key(|position| position.0)?;
    Ok(order)
}

/// Returns the entries whose value number is at least `value`.
fn from_value(order: &[(u64, u64)], value: u64) -> &[(u64, u64)]
    requires { IsByValue order.now }
    ensures { result.now ≡ filter (λ position. not (nat_lt position.0 value)) order.now }
{
    &order[order.partition_point(|position| position.0 < value)..]
}

/// Returns the entries whose value number is at most `value`.
fn up_to_value(order: &[(u64, u64)], value: u64) -> &[(u64, u64)]
    requires { IsByValue order.now }
    ensures { result.now ≡ filter (λ position. nat_le position.0 value) order.now }
{
    &order[..order.partition_point(|position| position.0 <= value)]
}

/// Returns the entries of one value, by binary search.
pub fn positions_of(order: &[(u64, u64)], value: u64) -> &[(u64, u64)]
    requires { IsByValue order.now }
    ensures { result.now ≡ positions_of value order.now }
{
    from_value(up_to_value(order, value), value)
}
