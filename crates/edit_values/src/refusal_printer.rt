//! The text of a refusal.

ghost use Rattle.std.specs.Prelude.{◌≡◌, ◌<◌, ◌++◌, IfOk, OnOk, codes, decimal};
ghost use Rattle.text_literal.specs.parser.LiteralReading.{mismatch_at};
ghost use Rattle.base_data.specs.lines.Positions.{reported_by};
ghost use Rattle.check_fault.specs.FaultText.{text_at};
ghost use Rattle.edit_values.specs.Reasons.{misread, side_text, fault_positions, literal_reason};
ghost use Rattle.edit_values.specs.Reasons.{reason_of, literal_text as why_text, literal_or_none};
ghost use Rattle.edit_values.specs.Reasons.{reason_or_none};

use crate::edit_refusal::{EditRefusal, EditSide};
use base_data::lines::PositionStyle;
use base_data::model::Memory;
use base_data::model::list::List;
use base_data::text::{write, write_number, write_path};
use std::alloc::Global;
use text_literal::parser::LiteralFault;
use types_spec::types::fault::Fault;
use types_table::type_table::TypeTable;

/// Returns the text of a refusal. A memory fault has no specified text.
pub fn refusal_text(
    alloc: Global,
    table: &TypeTable,
    positions: &PositionStyle<'_>,
    refusal: &EditRefusal,
) -> Result<List<u8>, Memory>
    ensures { IfOk result
        (λ text. text
        ≡ reason_or_none (text_at table.now) (reported_by positions.now) (reason_of refusal.now)) }
{
    let mut text = Vec::new(alloc);
    match refusal {
        EditRefusal::NoField(side, step) => write_no_field(&mut text, *side, *step)?,
        EditRefusal::NotBlock => write(&mut text, b"NotBlock")?,
        EditRefusal::Literal(fault) => write_literal(&mut text, alloc, table, positions, *fault)?,
        EditRefusal::IllTyped(fault) => {
            write(&mut text, b"IllTyped at ")?;
            write_positions(&mut text, fault)?;
        }
        EditRefusal::Memory => {}
    }
    Ok(List::of(text))
}

/// Appends a refusal that states which step leads to no required field.
fn write_no_field(text: &mut Vec<u8>, side: EditSide, step: usize) -> Result<(), Memory>
    ensures { OnOk result
        (text.new.items
        ≡ text.old.items ++ codes "NoField(" ++ side_text side ++ codes ", " ++ decimal step
        ++ codes ")") }
{
    write(text, b"NoField(")?;
    match side {
        EditSide::Left => write(text, b"left")?,
        EditSide::Right => write(text, b"right")?,
    }
    write(text, b", ")?;
    write_number(text, step as u64)?;
    write(text, b")")
}

/// Returns the text of the reason why lexemes are not a literal of a type. A memory fault has no
/// specified text.
pub fn literal_text(
    alloc: Global,
    table: &TypeTable,
    positions: &PositionStyle<'_>,
    fault: LiteralFault,
) -> Result<List<u8>, Memory>
    ensures { IfOk result
        (λ text. text
        ≡ literal_or_none (text_at table.now) (reported_by positions.now) (literal_reason fault)) }
{
    let mut text = Vec::new(alloc);
    write_fault(&mut text, alloc, table, positions, fault)?;
    Ok(List::of(text))
}

/// Appends the reason why a literal of a script is refused.
fn write_literal(
    text: &mut Vec<u8>,
    alloc: Global,
    table: &TypeTable,
    positions: &PositionStyle<'_>,
    fault: LiteralFault,
) -> Result<(), Memory>
    ensures { OnOk result
        (text.new.items
        ≡ text.old.items
        ++ reason_or_none (text_at table.now) (reported_by positions.now) (literal_reason fault)) }
{
    match fault {
        LiteralFault::Memory => Ok(()),
        _ => {
            write(text, b"Literal ")?;
            write_fault(text, alloc, table, positions, fault)
        }
    }
}

/// Appends the reason why lexemes are not a literal of a type.
fn write_fault(
    text: &mut Vec<u8>,
    alloc: Global,
    table: &TypeTable,
    positions: &PositionStyle<'_>,
    fault: LiteralFault,
) -> Result<(), Memory>
    ensures { OnOk result
        (text.new.items
        ≡ text.old.items
        ++ literal_or_none (text_at table.now) (reported_by positions.now) (literal_reason fault)) }
{
    match fault {
        LiteralFault::Syntax(position) => write_at(text, positions, b"Syntax at ", position),
        LiteralFault::Mismatch(position, ty) => write_mismatch(
            text, alloc, table, positions, position, ty,
        ),
        LiteralFault::IntRange(position) => write_at(text, positions, b"IntRange at ", position),
        LiteralFault::Label(position) => write_at(text, positions, b"Label at ", position),
        LiteralFault::Memory => Ok(()),
    }
}

/// Appends a refusal that states which part of a literal does not have its type.
fn write_mismatch(
    text: &mut Vec<u8>,
    alloc: Global,
    table: &TypeTable,
    positions: &PositionStyle<'_>,
    position: u64,
    ty: usize,
) -> Result<(), Memory>
    ensures { OnOk result
        (text.new.items
        ≡ text.old.items
        ++ why_text (text_at table.now) (reported_by positions.now)
        (misread (mismatch_at position ty))) }
{
    write_at(text, positions, b"Misfit at ", position)?;
    write(text, b": expected ")?;
    write_type(text, alloc, table, ty)
}

/// Appends a message with the position of the message.
fn write_at(
    text: &mut Vec<u8>,
    positions: &PositionStyle<'_>,
    what: &[u8],
    position: u64,
) -> Result<(), Memory>
    ensures { OnOk result
        (text.new.items ≡ text.old.items ++ (what.now ++ reported_by positions.now position)) }
{
    write(text, what)?;
    positions.write(text, position)
}

/// Appends a type, if the table has a type with this number.
fn write_type(
    text: &mut Vec<u8>,
    alloc: Global,
    table: &TypeTable,
    number: usize,
) -> Result<(), Memory>
    ensures { OnOk result (text.new.items ≡ text.old.items ++ text_at table.now number) }
{
    if number < table.len() {
        let encoded = table.text(alloc, number)?;
        write(text, encoded.as_slice())?;
    }
    Ok(())
}

/// Appends the paths of a fault.
fn write_positions(text: &mut Vec<u8>, fault: &Fault) -> Result<(), Memory>
    ensures { OnOk result (text.new.items ≡ text.old.items ++ fault_positions fault.now) }
{
    match fault {
        Fault::Mismatch(path) => write_path(text, path),
        Fault::Conflict(first, second) => {
            write_path(text, first)?;
            write(text, b" and ")?;
            write_path(text, second)
        }
    }
}
