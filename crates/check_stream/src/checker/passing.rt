//! The streaming check of a value whose bytes are present, or arrive in chunks.

ghost use Rattle.std.specs.Prelude.{IfOk, IfSome};
ghost use Rattle.types_table.specs.type_table.Made.{table_of};
ghost use Rattle.check_stream.specs.theory.OnePass.{IsTypedPrefix};

use crate::checker::check_state::CheckState;
use crate::checker::open_positions::OpenPositions;
use crate::checker::stated_words::Words;
use crate::checker::whole::{PassStop, head_of, run};
use base_data::model::Memory;
use base_data::model::header::Head;
use std::alloc::Global;
use types_table::type_table::TypeTable;

/// The state of a streaming check: the header, the offset of the first token, the offset that was
/// reached, and the check state at the reached offset.
#[derive(Drop)]
pub struct Passing<'a> {
    pub head: Head,
    pub start: usize,
    pub at: usize,
    pub state: CheckState<'a>,
    pub marks: Vec<usize>,
    /// Each note is a pair of an object and a second type of the object.
    pub notes: Vec<(usize, usize)>,
    /// The number of bytes of the value that have arrived.
    pub seen: usize,
    /// The budget for re-reading tokens and for inspecting open blocks. The bytes that arrive
    /// increase the budget.
    pub left: u64,
}

/// Returns the number of object types for which memory is reserved. The result is the number of
/// objects that the header states, but at most the number of bytes.
fn room_for(head: &Head, bytes: usize) -> usize {
    head.objects.min(bytes as u64) as usize
}

impl<'a> Passing<'a> {
    ghost use Rattle.std.specs.Bool.{OnTrue};
    ghost use Rattle.types_spec.specs.types.Table.{Table};
    ghost use Rattle.check_stream.specs.checker.CheckerState.{IsUnderway, Stops};

    /// Returns a check that has not begun, without allocating memory.
    pub fn new(alloc: Global) -> Passing<'a> {
        let head = Head::empty();
        Passing {
            start: 20,
            at: 20,
            state: CheckState {
                positions: OpenPositions::root(alloc),
                types: Vec::new(alloc),
                words: Words::stated(&head),
            },
            marks: Vec::new(alloc),
            notes: Vec::new(alloc),
            seen: 0,
            left: 0,
            head,
        }
    }

    /// Begins the check of the value at the beginning of `bytes`, and reuses the memory of the last
    /// check. If the header is incomplete or invalid, or states more than the limits allow, returns
    /// false.
    pub fn begin(&mut self, bytes: &[u8], limit: u64) -> Result<bool, Memory>
        ensures { IfOk result
            (λ begun. OnTrue begun
            ((table : Table) → IsUnderway table limit bytes.now self.new)) }
    {
        let Some(head) = head_of(bytes, limit) else {
            return Ok(false);
        };
        let start = if head.big { 32 } else { 20 };
        self.start = start;
        self.at = start;
        self.state.positions.restart();
        self.state.types.clear();
        self.state.types.reserve(room_for(&head, bytes.len()))?;
        self.state.words = Words::stated(&head);
        self.marks.clear();
        self.marks.push(start)?;
        self.notes.clear();
        self.seen = 0;
        self.left = 0;
        self.head = head;
        Ok(true)
    }

    /// Continues the check. `bytes` are all bytes of the value that have arrived, including the
    /// bytes that were already checked.
    pub fn go(&mut self, table: &'a TypeTable, limit: u64, bytes: &[u8]) -> Result<PassStop, Memory>
        requires leads { IsUnderway (table_of table.now) limit bytes.now self.old }
        ensures { IfOk result (Stops (table_of table.now) limit bytes.now self.new) }
    {
        let more = bytes.len().saturating_sub(self.seen) as u64;
        self.left = self.left.saturating_add(more.min(self.head.length));
        self.seen = bytes.len();
        match run(
            table,
            limit,
            &self.head,
            self.start,
            self.at,
            &mut self.state,
            &mut self.marks,
            &mut self.notes,
            &mut self.left,
            bytes,
        )? {
            PassStop::Truncated(at) => {
                self.at = at;
                Ok(PassStop::Truncated(at))
            }
            stop => Ok(stop),
        }
    }

    /// Returns true if `bytes` bytes include all data that the header states.
    fn is_there(&self, bytes: usize) -> bool {
        let bytes = bytes as u64;
        self.head.length <= bytes && self.start as u64 <= bytes - self.head.length
    }
}

/// Checks a value at the beginning of `bytes` in one pass. If the value has the table's first type
/// and takes at most `limit` words, returns the value's length in bytes. If the pass is
/// inconclusive, returns `None`. If the value is truncated, returns `None` without reading tokens.
pub fn pass(
    alloc: Global,
    table: &TypeTable,
    bytes: &[u8],
    limit: u64,
) -> Result<Option<usize>, Memory>
    ensures { IfOk result
        (λ answer. IfSome answer (λ n. IsTypedPrefix (table_of table.now) limit n bytes.now)) }
{
    let mut passing = Passing::new(alloc);
    if !passing.begin(bytes, limit)? {
        return Ok(None);
    }
    if !passing.is_there(bytes.len()) {
        return Ok(None);
    }
    match passing.go(table, limit, bytes)? {
        PassStop::Typed(n) => Ok(Some(n)),
        _ => Ok(None),
    }
}
