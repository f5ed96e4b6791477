//! A separate loop for common tokens at positions whose types are in a list.

ghost use Rattle.std.specs.Prelude.{◌≡◌, ◌≤◌, length};
ghost use Rattle.types_table.specs.type_table.Made.{table_of};
ghost use Rattle.check_stream.specs.checker.Fast.{held};
ghost use Rattle.check_stream.specs.checker.CheckerState.{IsLeft};

use crate::checker::check_state::CheckState;
use crate::checker::fast::fast_listed;
use crate::checker::open_positions::{BlockPositions, innermost};
use crate::checker::stated_words::Words;
use base_data::model::header::Head;
use types_table::type_table::TypeTable;

/// Stores the open positions of the innermost block and the remaining words in the state.
#[inline(always)]
fn hold<'a>(state: &mut CheckState<'a>, now: BlockPositions<'a>, words: Words)
    ensures { state.new ≡ held now.entry state.old.positions.waiting state.old.types words }
{
    state.positions.now = now;
    state.words = words;
}

/// Reads common tokens as long as the innermost block has a list of types. Returns the remaining
/// bytes. `run_listed` is not inlined, because its loop then has few live values.
#[inline(never)]
pub fn run_listed<'a, 'b>(
    table: &'a TypeTable,
    limit: u64,
    head: &Head,
    start: usize,
    state: &mut CheckState<'a>,
    marks: &[usize],
    notes: &[(usize, usize)],
    bytes: &[u8],
    rest: &'b [u8],
) -> &'b [u8]
    requires leads { IsLeft (table_of table.now) limit bytes.now head.now start marks.now notes.now
        state.old rest.now }
    ensures leads { IsLeft (table_of table.now) limit bytes.now head.now start marks.now notes.now
        state.new result.now }
    ensures fewer { length result.now ≤ length rest.now }
{
    let mut left = rest;
    let mut now = state.positions.now;
    let mut words = state.words;
    'listed: loop {
        now = innermost(now, &mut state.positions.waiting);
        let BlockPositions::Listed(positions) = now else {
            hold(state, now, words);
            return left;
        };
        let Some((n, next)) = fast_listed(
            table,
            head.objects,
            positions,
            left,
            &mut state.types,
            &mut state.positions.waiting,
            &mut words,
        ) else {
            hold(state, now, words);
            return left;
        };
        left = &left[n..];
        now = next;
    }
}

/// If the innermost block has a list of types, calls `run_listed`. If the innermost block has no
/// list of types, returns all bytes.
#[inline(always)]
pub fn take_listed<'a, 'b>(
    table: &'a TypeTable,
    limit: u64,
    head: &Head,
    start: usize,
    state: &mut CheckState<'a>,
    marks: &[usize],
    notes: &[(usize, usize)],
    bytes: &[u8],
    rest: &'b [u8],
) -> &'b [u8]
    requires leads { IsLeft (table_of table.now) limit bytes.now head.now start marks.now notes.now
        state.old rest.now }
    ensures leads { IsLeft (table_of table.now) limit bytes.now head.now start marks.now notes.now
        state.new result.now }
    ensures fewer { length result.now ≤ length rest.now }
{
    match state.positions.now {
        BlockPositions::Listed(_) => {
            run_listed(table, limit, head, start, state, marks, notes, bytes, rest)
        }
        _ => rest,
    }
}
