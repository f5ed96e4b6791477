//! Reads lexemes as a value of a type.

ghost use Rattle.std.specs.Prelude.{length, List, Result, IfOk};
ghost use Rattle.base_data.specs.declared.model.value.Val.{Val};
ghost use Rattle.base_data.specs.declared.model.value.Obj.{Obj};
ghost use Rattle.base_data.specs.model.Graph.{IsValue};
ghost use Rattle.text_literal.specs.literal_grammar.LiteralNodes.{IsTreeOf};
ghost use Rattle.text_literal.specs.literal_grammar.PlacedLiterals.{lexemes_at, IsPlaced};
ghost use Rattle.text_literal.specs.declared.parser.literal_fault.LiteralFault.{LiteralFault};
ghost use Rattle.text_literal.specs.parser.LiteralAnswers.{IsAnswer, IsAnswered, Gives};
ghost use Rattle.text_literal.specs.parser.Underway.{IsText, ReadsTree, Reads};

use crate::literal_grammar::{LiteralNodes, PlacedNodes, read_literal_tree};
use crate::parser::literal_fault::LiteralFault;
use crate::parser::literal_parts::read_parts;
use crate::parser::literal_text::{LiteralText, byte_of};
use crate::parser::part::begin;
use crate::parser::siblings::subtree_ends;
use base_data::model::value::Val;
use marshal_heap::heap::Heap;
use std::alloc::Global;
use types_lex::Lexemes;
use types_lex::lexeme::Lexeme;
use types_table::type_table::TypeTable;

/// An estimate for reserving memory: few values have more 64-bit words than a third of the bytes of
/// their texts. One reservation avoids copying on growth. Unused reserved memory costs nothing.
const BYTES_A_WORD: u64 = 3;

/// Reads the literal of a text at a type. After a fault, new objects may remain in the heap.
fn read_tree(
    alloc: Global,
    text: &LiteralText,
    heap: &mut Heap,
    at: usize,
) -> Result<Val, LiteralFault>
    requires text { IsText text.now }
    requires tree { IsTreeOf text.now.lexemes.now text.now.nodes.now }
    ensures { ReadsTree text.now at heap.old heap.new result }
{
    let mut labels = Vec::new(alloc);
    let begun = begin(alloc, text, heap, &mut labels, 0, at)?;
    match begun.inner {
        Some(block) => {
            read_parts(alloc, text, heap, &mut labels, block)?;
            Ok(begun.value)
        }
        None => Ok(begun.value),
    }
}

/// Reads the literal with these nodes and lexemes at a type. After a fault, new objects may remain
/// in the heap.
fn read_nodes(
    alloc: Global,
    heap: &mut Heap,
    table: &TypeTable,
    at: usize,
    lexemes: &Lexemes,
    tree: &LiteralNodes,
    end: usize,
) -> Result<Val, LiteralFault>
    requires tree { IsTreeOf lexemes.now tree.now }
    ensures { Reads table.now at lexemes.now end heap.old heap.new result }
{
    let _few = lexemes.len();
    let ends = subtree_ends(alloc, tree)?;
    let text = LiteralText {
        table,
        lexemes,
        nodes: tree,
        ends: ends.as_slice(),
        end,
    };
    read_tree(alloc, &text, heap, at)
}

/// Reads like `read_nodes`, but first reserves memory for the objects of the value.
fn read_in_room(
    alloc: Global,
    heap: &mut Heap,
    table: &TypeTable,
    at: usize,
    lexemes: &Lexemes,
    tree: &LiteralNodes,
    end: usize,
) -> Result<Val, LiteralFault>
    requires tree { IsTreeOf lexemes.now tree.now }
    ensures { Reads table.now at lexemes.now end heap.old heap.new result }
{
    heap.make_room(end as u64 / BYTES_A_WORD);
    read_nodes(alloc, heap, table, at, lexemes, tree, end)
}

/// Parses lexemes as a literal and reads the literal at a type. After a fault, new objects may
/// remain in the heap.
fn read_lexemes(
    alloc: Global,
    heap: &mut Heap,
    table: &TypeTable,
    at: usize,
    lexemes: &[Lexeme],
    end: usize,
) -> Result<Val, LiteralFault>
    ensures { Reads table.now at lexemes.now end heap.old heap.new result }
{
    let row = Lexemes::of_row(lexemes);
    let tree = match read_literal_tree(alloc, lexemes)? {
        Ok(tree) => tree,
        Err(k) => return Err(LiteralFault::Syntax(byte_of(&row, end, k))),
    };
    read_nodes(alloc, heap, table, at, &row, &tree, end)
}

/// Reads the lexemes of a text of `end` bytes as a value of type `at`. Appends the objects of the
/// value to the heap.
pub fn read_literal(
    alloc: Global,
    heap: &mut Heap,
    table: &TypeTable,
    at: usize,
    lexemes: &[Lexeme],
    end: usize,
) -> Result<Val, LiteralFault>

    // Returns the value, whose objects follow the old objects, or the fault. After a fault, or if
    // memory runs out, the heap is unchanged.
    ensures answer { IsAnswered table.now at lexemes.now end heap.old heap.new result }

    // The result is the one answer for the lexemes, unless memory runs out.
    ensures only { (answer : Result (List Obj × Val) LiteralFault)
        → IsAnswer table.now at lexemes.now end heap.old answer → Gives answer heap.new result }

    // If a value is returned, then the value is a value of the heap.
    ensures valid { IfOk result (IsValue (length heap.new)) }
{
    let count = heap.count();
    let result = read_lexemes(alloc, heap, table, at, lexemes, end);
    if result.is_err() {
        heap.truncate(count);
    }
    result
}

/// Reads a text with these nodes as a value of type `at`. Appends the objects of the value to the
/// heap.
pub fn read_placed(
    alloc: Global,
    heap: &mut Heap,
    table: &TypeTable,
    at: usize,
    text: &[u8],
    placed: &PlacedNodes,
) -> Result<Val, LiteralFault>
    requires placed { IsPlaced text.now placed.now.positions.items placed.now.tree }

    // Returns the value, whose objects follow the old objects, or the fault. After a fault, or if
    // memory runs out, the heap is unchanged.
    ensures answer { IsAnswered table.now at (lexemes_at text.now placed.now.positions.items)
        (length text.now) heap.old heap.new result }

    // The result is the one answer for the text's lexemes, unless memory runs out.
    ensures only { (answer : Result (List Obj × Val) LiteralFault)
        → IsAnswer table.now at (lexemes_at text.now placed.now.positions.items) (length text.now)
        heap.old answer
        → Gives answer heap.new result }

    // If a value is returned, then the value is a value of the heap.
    ensures valid { IfOk result (IsValue (length heap.new)) }
{
    let count = heap.count();
    let lexemes = Lexemes::of_text(text, placed.positions.as_slice());
    let result = read_in_room(alloc, heap, table, at, &lexemes, &placed.tree, text.len());
    if result.is_err() {
        heap.truncate(count);
    }
    result
}
