//! The texts of errors in lines.

ghost use Rattle.std.specs.Prelude.{◌<◌, ◌^◌, IfOk};
ghost use Rattle.base_data.specs.lines.Lines.{position_on};
ghost use Rattle.text_decimal.specs.texts.PlainTexts.{AreWithin};
ghost use Rattle.cmd_build.specs.command.InputLines.{known_on};
ghost use Rattle.cmd_build.specs.command.LineSteps.{IsFaultText};

use crate::command::given_lines::given_fault;
use base_data::lines::PositionStyle;
use base_data::model::Memory;
use base_data::model::list::List;
use edit_values::literal_text;
use std::alloc::Global;
use text_decimal::texts::Decimal;
use text_roundtrip::text_lines::TextFault;
use types_table::type_table::TypeTable;
use types_wellformed::declarations::lexer_text;

/// Returns the text of an error in the line with the number `number`. If `lines` is true, positions
/// are reported by line and column. Returns `Memory` if the error is that memory ran out.
fn placed_fault_text(
    alloc: Global,
    table: &TypeTable,
    lines: bool,
    number: u64,
    fault: TextFault,
) -> Result<List<u8>, Memory>
    ensures { IfOk result (IsFaultText table.now (position_on lines number) fault) }
{
    let positions = PositionStyle::of_line(lines, number);
    match fault {
        TextFault::Lex(fault) => lexer_text(alloc, &positions, fault),
        TextFault::Literal(fault) => literal_text(alloc, table, &positions, fault),
        TextFault::Memory => Err(Memory),
    }
}

/// Returns the text of an error in the plain text of a line. The line may contain the given
/// decimals where its plain text has doubles. The reported positions are positions in the line, not
/// in the plain text.
pub fn line_fault_text(
    alloc: Global,
    table: &TypeTable,
    lines: bool,
    decimals: &[Decimal],
    number: u64,
    fault: TextFault,
) -> Result<List<u8>, Memory>
    requires within { AreWithin 0 decimals.now (2 ^ 63) }
    ensures { IfOk result
        (IsFaultText table.now (known_on lines decimals.now number) fault) }
{
    let given = given_fault(decimals, fault)?;
    placed_fault_text(alloc, table, lines, number, given)
}
