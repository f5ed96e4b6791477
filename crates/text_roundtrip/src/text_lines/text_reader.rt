//! Reads lines of text as values.

ghost use Rattle.std.specs.Prelude.{◌≡◌, []};
ghost use Rattle.text_literal.specs.literal_grammar.PlacedLiterals.{IsPlaced};
ghost use Rattle.text_roundtrip.specs.text_lines.TextAnswers.{GivesAnswer, GivesBack, ReadsText};
ghost use Rattle.text_roundtrip.specs.text_lines.TextAnswers.{text_fault};

use base_data::model::value::Val;
use marshal_heap::heap::Heap;
use std::alloc::Global;
use text_literal::literal_grammar::{PlacedFault, PlacedNodes, read_placed_tree};
use text_literal::parser::{LiteralFault, read_literal, read_placed};
use types_lex::lexeme::LexFault;
use types_lex::tokens;
use types_table::type_table::TypeTable;

/// The reason why a line is not a value of a type. Positions are byte offsets in the line.
#[derive(Clone, Copy)]
pub enum TextFault {
    /// The line has a lexical error.
    Lex(LexFault),
    /// The lexemes are not a literal, or the literal does not have the type.
    Literal(LiteralFault),
    /// Memory ran out.
    Memory,
}

/// Reads a line as a value of type 0 of the table. Returns `None` for a blank line. First drops the
/// objects of the heap and reuses their memory. After the call, the heap contains the objects of
/// the value.
pub fn read_text(
    alloc: Global,
    heap: &mut Heap,
    table: &TypeTable,
    line: &[u8],
) -> Result<Option<Val>, TextFault>

    // The result is the answer for the line. If the line has a fault or memory runs out, the heap
    // is empty.
    ensures reads { ReadsText table.now line.now heap.new result }

    // If memory does not run out, the result is the only answer for the line.
    ensures only { GivesAnswer table.now line.now heap.new result }

    // If the line is the text of the value of a tree, the result is the value, with its objects in
    // order.
    ensures back { GivesBack table.now line.now heap.new result }
{
    read(alloc, heap, table, line)
}

/// Converts the fault of a literal to the fault of a line.
fn text_fault(fault: LiteralFault) -> TextFault
    ensures { result ≡ text_fault fault }
{
    match fault {
        LiteralFault::Memory => TextFault::Memory,
        _ => TextFault::Literal(fault),
    }
}

/// Reads a line as a value of type 0, given the nodes of the line's literal.
fn read_nodes(
    alloc: Global,
    heap: &mut Heap,
    table: &TypeTable,
    line: &[u8],
    placed: &PlacedNodes,
) -> Result<Option<Val>, TextFault>
    requires empty { heap.old ≡ [] }
    requires placed { IsPlaced line.now placed.now.positions.items placed.now.tree }
    ensures { ReadsText table.now line.now heap.new result }
{
    match read_placed(alloc, heap, table, 0, line, placed) {
        Ok(root) => Ok(Some(root)),
        Err(fault) => Err(text_fault(fault)),
    }
}

/// Reads a line of 2^32 bytes or more as a value of type 0. Keeps all lexemes in memory.
fn read_long(
    alloc: Global,
    heap: &mut Heap,
    table: &TypeTable,
    line: &[u8],
) -> Result<Option<Val>, TextFault>
    requires empty { heap.old ≡ [] }
    ensures { ReadsText table.now line.now heap.new result }
{
    let lexemes = match tokens(alloc, line) {
        Ok(lexemes) => lexemes,
        Err(LexFault::Memory) => return Err(TextFault::Memory),
        Err(fault) => return Err(TextFault::Lex(fault)),
    };
    if lexemes.is_empty() {
        return Ok(None);
    }
    match read_literal(alloc, heap, table, 0, lexemes.as_slice(), line.len()) {
        Ok(root) => Ok(Some(root)),
        Err(LiteralFault::Memory) => Err(TextFault::Memory),
        Err(fault) => Err(TextFault::Literal(fault)),
    }
}

/// Reads a line as a value of type 0.
fn read(
    alloc: Global,
    heap: &mut Heap,
    table: &TypeTable,
    line: &[u8],
) -> Result<Option<Val>, TextFault>
    ensures { ReadsText table.now line.now heap.new result }
{
    heap.clear();
    match read_placed_tree(alloc, line) {
        Ok(Some(placed)) => read_nodes(alloc, heap, table, line, &placed),
        Ok(None) => Ok(None),
        Err(PlacedFault::Lex(fault)) => Err(TextFault::Lex(fault)),
        Err(PlacedFault::Syntax(byte)) => Err(TextFault::Literal(LiteralFault::Syntax(
            byte as u64,
        ))),
        Err(PlacedFault::TooLong) => read_long(alloc, heap, table, line),
        Err(PlacedFault::Memory) => Err(TextFault::Memory),
    }
}
