//! The loop over the tokens of a value.

ghost use Rattle.std.specs.Prelude.{◌≡◌, ◌∷◌, [], IfOk, IfSome};
ghost use Rattle.types_table.specs.type_table.Made.{table_of};
ghost use Rattle.check_stream.specs.checker.OpenPositions.{need_of, open_needs};
ghost use Rattle.check_stream.specs.checker.CheckerState.{LeadsPass, BeginsAs, StopsAt};

use crate::checker::back::{mark, turn};
use crate::checker::check_state::CheckState;
use crate::checker::fast::fast;
use crate::checker::listed_tokens::take_listed;
use crate::checker::open_positions::{BlockPositions, Requirement, first_position};
use base_data::model::Memory;
use base_data::model::header::Head;
use marshal_codec::codes::code_kind;
use marshal_codec::headers::{HeaderStep, parse};
use marshal_codec::token::chunk_len;
use types_table::type_table::TypeTable;

/// Parses the header at the beginning of `bytes`. If the header is incomplete or invalid, or states
/// more words or data than the limits allow, returns `None`.
#[inline(always)]
pub fn head_of(bytes: &[u8], limit: u64) -> Option<Head>
    ensures { IfSome result (λ head. BeginsAs limit bytes.now head) }
{
    match parse(bytes) {
        Ok(HeaderStep::Head(head)) if head.w64 <= limit && head.length < 1 << 48 => Some(head),
        _ => None,
    }
}

/// The reason why the pass stopped.
#[derive(Clone, Copy)]
pub enum PassStop {
    /// A value of the type ends here, and has this length in bytes.
    Typed(usize),
    /// The token at this offset is truncated.
    Truncated(usize),
    /// The check is inconclusive because of the bytes at this offset.
    Inconclusive(usize),
}

/// Returns true if the bytes end within the token that they begin with.
#[inline(never)]
fn is_truncated(bytes: &[u8]) -> bool {
    if bytes.is_empty() {
        return true;
    }
    match code_kind(bytes[0]) {
        Ok(kind) => chunk_len(kind, &bytes[1..]).is_none(),
        Err(_) => false,
    }
}

/// Returns one position with this requirement, as the open positions of a block.
fn again(asked: Requirement<'_>) -> BlockPositions<'_>
    ensures { open_needs result ≡ need_of asked.entry ∷ [] }
{
    match asked {
        Requirement::Type(ty) => BlockPositions::Each(1, ty),
        Requirement::Hash(tags) => BlockPositions::Tagged(tags),
    }
}

/// Reads tokens from offset `first` on, until the value ends, a token is truncated, or the check is
/// inconclusive. Subtracts the number of re-read tokens and inspected blocks from `left`. `run` is
/// not inlined, because its loop can then use all registers.
#[inline(never)]
pub fn run<'a>(
    table: &'a TypeTable,
    limit: u64,
    head: &Head,
    start: usize,
    first: usize,
    state: &mut CheckState<'a>,
    marks: &mut Vec<usize>,
    notes: &mut Vec<(usize, usize)>,
    left: &mut u64,
    bytes: &[u8],
) -> Result<PassStop, Memory>
    requires leads { LeadsPass (table_of table.now) limit bytes.now head.now start first
        marks.old.items notes.old.items state.old }
    ensures { IfOk result
        (StopsAt (table_of table.now) limit bytes.now head.now start marks.new.items
        notes.new.items state.new) }
{
    table.holds();
    let mut rest = &bytes[first..];
    'tokens: loop {
        rest = take_listed(
            table,
            limit,
            head,
            start,
            state,
            marks.as_slice(),
            notes.as_slice(),
            bytes,
            rest,
        );
        let now = state.positions.now;
        let Some((asked, others)) = first_position(now, &mut state.positions.waiting) else {
            let at = bytes.len() - rest.len();
            let objects = state.types.len();
            if state.words.is_spent(head, start, at, objects) {
                return Ok(PassStop::Typed(at));
            }
            return Ok(PassStop::Inconclusive(at));
        };
        if let Some((n, next)) = fast(
            table,
            head.objects,
            asked,
            others,
            rest,
            &mut state.types,
            &mut state.positions.waiting,
            &mut state.words,
        ) {
            rest = &rest[n..];
            state.positions.now = next;
            continue;
        }
        state.positions.now = others;
        let at = bytes.len() - rest.len();
        if is_truncated(rest) {
            state.positions.open(again(asked))?;
            return Ok(PassStop::Truncated(at));
        }
        mark(marks, at, state.types.len())?;
        let n = turn(
            table,
            head.objects,
            state,
            asked,
            marks.as_slice(),
            notes,
            left,
            bytes,
            at,
        )?;
        if n == 0 {
            return Ok(PassStop::Inconclusive(at));
        }
        rest = &rest[n..];
    }
}
