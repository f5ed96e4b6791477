//! A bit set with ranks: the rank of an offset is the number of smaller offsets in the set.

ghost use Rattle.std.specs.Prelude.{◌≡◌, ◌+◌, ◌-◌, ◌/◌, ◌%◌, ◌^◌, ◌<◌, length, take, replicate};
ghost use Rattle.std.specs.Prelude.{◌++◌, MatchResult, MatchBool};
ghost use Rattle.marshal_heap.specs.offsets.Cells.{cell_at, rank, marked, cut};

use base_data::model::Memory;

/// Describes 64 consecutive words of the arena. The field `bits` has one bit for each word whose
/// offset is in the set. The field `before` is the number of offsets in the set before the first of
/// the 64 words.
#[derive(Clone, Copy)]
pub struct Cell {
    pub bits: u64,
    pub before: u64,
}

/// Changes the number of cells to `count`: drops the cells from `count` on, or adds cells without
/// bits. Each new cell has `before` offsets before it. Fails with `Memory` if memory runs out.
pub fn cover(cells: &mut Vec<Cell>, count: usize, before: u64) -> Result<(), Memory>
    ensures { MatchResult result
        (λ _. cells.new.items
        ≡ take count cells.old.items
        ++ replicate (count - length cells.old.items)
        (record { bits = 0; before = before }))
        (λ _. cells.new.items ≡ cells.old.items) }
{
    if cells.len() == count {
        return Ok(());
    }
    let empty = Cell { bits: 0, before };
    let Ok(()) = cells.resize(count, empty) else {
        return Err(Memory);
    };
    Ok(())
}

/// Appends one cell if exactly one cell is missing and no allocation is needed. Returns true if the
/// number of cells is `count` at the end. If the result is false, nothing changes.
#[inline(always)]
pub fn cover_in_room(cells: &mut Vec<Cell>, count: usize, before: u64) -> bool
    ensures { MatchBool result
        (cells.new.items
        ≡ take count cells.old.items
        ++ replicate (count - length cells.old.items)
        (record { bits = 0; before = before }))
        (cells.new.items ≡ cells.old.items) }
{
    let len = cells.len();
    if len == count {
        return true;
    }
    if len + 1 != count || len == cells.capacity() {
        return false;
    }
    cells.push_reserved(Cell { bits: 0, before });
    true
}

/// Sets the bit of offset `p`. Before the call, the bit must be clear.
pub fn mark(cells: &mut Vec<Cell>, p: u64)
    requires covered { p / 64 < length cells.old.items }
    requires clear { (cell_at cells.old.items p).bits + 2 ^ (p % 64) < 2 ^ 64 }
    ensures { cells.new.items ≡ marked cells.old.items p }
{
    let cell = &mut cells[(p / 64) as usize];
    cell.bits += 1 << (p % 64);
}

/// Clears the bits from offset `p` on in the cell of `p`.
pub fn clear_from(cells: &mut Vec<Cell>, p: u64)
    requires { p / 64 < length cells.old.items }
    ensures { cells.new.items ≡ cut cells.old.items p }
{
    let cell = &mut cells[(p / 64) as usize];
    cell.bits %= 1 << (p % 64);
}

/// Returns the number of offsets in the set that are less than `p`.
pub fn count_before(cells: &[Cell], p: u64) -> u64
    requires covered { p / 64 < length cells.now }
    requires small { rank cells.now p < 2 ^ 64 }
    ensures { result ≡ rank cells.now p }
{
    let cell = cells[(p / 64) as usize];
    let bits = cell.bits % (1 << (p % 64));
    cell.before + u64::from(bits.count_ones())
}
