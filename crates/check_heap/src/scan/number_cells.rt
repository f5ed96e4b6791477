//! Compact vectors of numbers.

ghost use Rattle.std.specs.Prelude.{◌≡◌, ◌<◌, length, replicate, slice_index, slice_set, IfOk};
ghost use Rattle.std.specs.Prelude.{OnOk};
ghost use Rattle.check_heap.specs.scan.NumberCells.{numbers_in};

use base_data::model::Memory;
use std::alloc::Global;
use std::marker::Model;

/// A vector of numbers. The element size is chosen by the largest number that will be stored.
#[derive(Drop)]
pub enum NumberRow {
    Bytes(Vec<u8>),
    Shorts(Vec<u16>),
    Longs(Vec<u64>),
}

/// A vector of numbers with a compact representation. Contracts treat it as the list of its
/// numbers.
#[derive(Drop)]
pub struct Cells {
    row: NumberRow,
}

impl Model for Cells {
    ghost use Rattle.std.specs.Prelude.{List, ℕ};

    ghost Value = { List ℕ };

    ghost use Rattle.check_heap.specs.scan.NumberCells.{numbers_in};

    ghost view = { λ c. numbers_in c.row };
}

impl Cells {
    /// Creates `positions` zeros in a vector for numbers up to `most`.
    pub fn new(alloc: Global, positions: usize, most: usize) -> Result<Cells, Memory>
        ensures { IfOk result (λ cells. cells ≡ replicate positions 0) }
    {
        let row = zeros(alloc, positions, most)?;
        Ok(Cells { row })
    }

    /// Returns the number of elements.
    pub fn len(&self) -> usize
        ensures { result ≡ length self.now }
    {
        match &self.row {
            NumberRow::Bytes(row) => row.len(),
            NumberRow::Shorts(row) => row.len(),
            NumberRow::Longs(row) => row.len(),
        }
    }

    /// Returns the number at an index.
    #[inline(always)]
    pub fn get(&self, position: usize) -> u64
        requires { position < length self.now }
        ensures { result ≡ slice_index self.now position }
    {
        // A single test recognizes the common representation.
        match &self.row {
            NumberRow::Bytes(row) => u64::from(row[position]),
            row => number_at(row, position),
        }
    }

    /// Stores a number at an index.
    #[inline(always)]
    pub fn set(&mut self, position: usize, number: u64) -> Result<(), Memory>
        requires { position < length self.old }
        ensures { OnOk result (self.new ≡ slice_set self.old position number) }
    {
        write(&mut self.row, position, number)
    }
}

/// Creates `positions` zeros.
fn zeros(alloc: Global, positions: usize, most: usize) -> Result<NumberRow, Memory>
    ensures { IfOk result (λ row. numbers_in row ≡ replicate positions 0) }
{
    if most < 1 << 8 {
        let mut row = Vec::new(alloc);
        row.resize(positions, 0)?;
        return Ok(NumberRow::Bytes(row));
    }
    if most < 1 << 16 {
        let mut row = Vec::new(alloc);
        row.resize(positions, 0)?;
        return Ok(NumberRow::Shorts(row));
    }
    let mut row = Vec::new(alloc);
    row.resize(positions, 0)?;
    Ok(NumberRow::Longs(row))
}

/// Returns the number at an index, for any representation.
#[cold]
#[inline(never)]
fn number_at(row: &NumberRow, position: usize) -> u64
    requires { position < length (numbers_in row.now) }
    ensures { result ≡ slice_index (numbers_in row.now) position }
{
    match row {
        NumberRow::Bytes(row) => u64::from(row[position]),
        NumberRow::Shorts(row) => u64::from(row[position]),
        NumberRow::Longs(row) => row[position],
    }
}

/// Stores a number at an index.
#[inline(always)]
fn write(row: &mut NumberRow, position: usize, number: u64) -> Result<(), Memory>
    requires { position < length (numbers_in row.old) }
    ensures { OnOk result (numbers_in row.new ≡ slice_set (numbers_in row.old) position number) }
{
    match row {
        NumberRow::Bytes(row) if number < 1 << 8 => row[position] = number as u8,
        row => write_in_any(row, position, number)?,
    }
    Ok(())
}

/// Stores a number at an index, for any representation. Returns an error if the number is too large
/// for the element size.
#[cold]
#[inline(never)]
fn write_in_any(row: &mut NumberRow, position: usize, number: u64) -> Result<(), Memory>
    requires { position < length (numbers_in row.old) }
    ensures { OnOk result (numbers_in row.new ≡ slice_set (numbers_in row.old) position number) }
{
    match row {
        NumberRow::Bytes(row) if number < 1 << 8 => row[position] = number as u8,
        NumberRow::Shorts(row) if number < 1 << 16 => row[position] = number as u16,
        NumberRow::Longs(row) => row[position] = number,
        _ => return Err(Memory),
    }
    Ok(())
}
