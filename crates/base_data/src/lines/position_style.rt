//! How positions in a text are printed.

ghost use Rattle.std.specs.Prelude.{◌≡◌, ◌+◌, ◌++◌, decimal, OnOk};
ghost use Rattle.base_data.specs.lines.Lines.{spot_text, position_in, position_on};
ghost use Rattle.base_data.specs.lines.Positions.{reported_by};

use crate::lines::line_column::spot_of;
use crate::model::Memory;
use itoa::Buffer;

/// The way in which positions of a text are printed.
#[derive(Clone, Copy)]
pub enum PositionStyle<'a> {
    /// By the index of the byte, from 0.
    Bytes,
    /// By line and column in the given text.
    Text(&'a [u8]),
    /// By the given line number and a column, for a text that is a single line.
    Line(u64),
}

impl<'a> PositionStyle<'a> {
    /// Returns the way to print positions of a text. If `lines` is true, positions are printed by
    /// line and column, and if `lines` is false, by byte index.
    pub fn of_text(lines: bool, text: &'a [u8]) -> PositionStyle<'a>
        ensures { reported_by result ≡ position_in lines text.now }
    {
        if lines {
            PositionStyle::Text(text)
        } else {
            PositionStyle::Bytes
        }
    }

    /// Returns the way to print positions in line `number`. If `lines` is true, positions are
    /// printed by line and column, and if `lines` is false, by byte index.
    pub fn of_line(lines: bool, number: u64) -> PositionStyle<'a>
        ensures { reported_by result ≡ position_on lines number }
    {
        if lines {
            PositionStyle::Line(number)
        } else {
            PositionStyle::Bytes
        }
    }

    /// Appends the printed position to `text`.
    pub fn write(&self, text: &mut Vec<u8>, position: u64) -> Result<(), Memory>
        ensures { OnOk result (text.new.items ≡ text.old.items ++ reported_by self.now position) }
    {
        match self {
            PositionStyle::Bytes => write_number(text, u128::from(position)),
            PositionStyle::Text(whole) => {
                let spot = spot_of(whole, position as usize);
                write_spot(text, spot.line as u128, spot.column as u128)
            }
            PositionStyle::Line(number) => write_spot(
                text,
                u128::from(*number),
                u128::from(position) + 1,
            ),
        }
    }
}

/// Appends a line and a column.
fn write_spot(text: &mut Vec<u8>, line: u128, column: u128) -> Result<(), Memory>
    ensures { OnOk result (text.new.items ≡ text.old.items ++ spot_text line column) }
{
    write_number(text, line)?;
    text.push(b':')?;
    write_number(text, column)
}

/// Appends a number in decimal.
fn write_number(text: &mut Vec<u8>, n: u128) -> Result<(), Memory>
    ensures { OnOk result (text.new.items ≡ text.old.items ++ decimal n) }
{
    Ok(text.extend_from_slice(Buffer::new().format(n).as_bytes())?)
}
