//! Checks references back, and checks one token at the first open position.

ghost use Rattle.std.specs.Prelude.{◌≤◌, ◌<◌, length, take, drop, IfOk, OnOk};
ghost use Rattle.types_table.specs.type_table.Made.{table_of};
ghost use Rattle.check_stream.specs.checker.OpenPositions.{need_of};
ghost use Rattle.check_stream.specs.checker.CheckerState.{types_in, IsMarked, TookBack, TookTurn};

use crate::checker::check_state::CheckState;
use crate::checker::checker_step::{TokenResult, step};
use crate::checker::flat_blocks::is_known;
use crate::checker::open_positions::Requirement;
use crate::checker::reread::reference_at;
use base_data::model::Memory;
use types_table::type_table::TypeTable;

/// Appends a mark if 64 more objects were created since the last mark.
#[inline(always)]
pub fn mark(marks: &mut Vec<usize>, at: usize, made: usize) -> Result<(), Memory>
    ensures { OnOk result (IsMarked marks.old.items at made marks.new.items) }
{
    if made % 64 == 0 && made / 64 == marks.len() {
        marks.push(at)?;
    }
    Ok(())
}

/// Checks the reference at this byte against the requirement. Returns the length of the reference
/// in bytes. If the check fails or is inconclusive, returns 0.
#[inline(always)]
fn back(
    table: &TypeTable,
    stated: u64,
    state: &CheckState<'_>,
    asked: Requirement<'_>,
    marks: &[usize],
    notes: &mut Vec<(usize, usize)>,
    left: &mut u64,
    bytes: &[u8],
    at: usize,
) -> Result<usize, Memory>
    requires { at ≤ length bytes.now }
    ensures { IfOk result
        (λ n. 0 < n
        → TookBack (table_of table.now) stated (types_in state.now) (take at bytes.now) marks.now
        notes.old.items notes.new.items (need_of asked.entry) (drop at bytes.now) n) }
{
    let Requirement::Type(ty) = asked else {
        return Ok(0);
    };
    let Some((offset, n)) = reference_at(&bytes[at..]) else {
        return Ok(0);
    };
    if stated == 0 {
        return Ok(0);
    }
    let prefix = &bytes[..at];
    let known = is_known(
        table,
        state.types.as_slice(),
        prefix,
        marks,
        notes,
        left,
        ty,
        offset,
    )?;
    if known { Ok(n) } else { Ok(0) }
}

/// Checks the token at this byte against the requirement, and adds the token to the state. Returns
/// the length of the token in bytes. If the check fails or is inconclusive, returns 0.
#[inline(never)]
pub fn turn<'a>(
    table: &'a TypeTable,
    stated: u64,
    state: &mut CheckState<'a>,
    asked: Requirement<'a>,
    marks: &[usize],
    notes: &mut Vec<(usize, usize)>,
    left: &mut u64,
    bytes: &[u8],
    at: usize,
) -> Result<usize, Memory>
    requires { at ≤ length bytes.now }
    ensures { IfOk result
        (λ n. 0 < n
        → TookTurn (table_of table.now) stated state.old state.new (need_of asked.entry)
        bytes.now marks.now notes.old.items notes.new.items at n) }
{
    match step(table, stated, state, asked, &bytes[at..])? {
        TokenResult::Took(n) => Ok(n),
        TokenResult::Back => back(table, stated, state, asked, marks, notes, left, bytes, at),
        TokenResult::Unfit => Ok(0),
    }
}
