//! Extracts the doubles from the parts of a literal.

ghost use Rattle.std.specs.Prelude.{ℕ, ◌≡◌, ◌+◌, ◌<◌, ◌≤◌, [], Some, Option, length, take, drop};
ghost use Rattle.std.specs.Prelude.{slice_get, option_map, IfOk};
ghost use Rattle.types_parse.specs.grammar.Grammar.{Name};
ghost use Rattle.text_literal.specs.literal_grammar.Literal.{Literal, labelled, Parts, FieldRows};
ghost use Rattle.text_literal.specs.literal_grammar.Literal.{array, fields};
ghost use Rattle.types_parse.specs.grammar.LexemeKinds.{kinds_of};
ghost use Rattle.text_literal.specs.parser.Bits.{double_in, bits_of_node, bits_of_nodes};
ghost use Rattle.text_literal.specs.parser.Standing.{Stands};
ghost use Rattle.text_literal.specs.parser.Starts.{bits_of, and_bits, bits_of_parts, bits_of_rows};

use crate::literal_grammar::{LiteralNode, LiteralNodes, NodeForm};
use base_data::model::Memory;
use std::alloc::Global;
use types_lex::Lexemes;
use types_lex::lexeme::LexemeKind;

/// Returns the bits of a double if the lexeme kind is a double, and `None` for any other kind.
fn double_of(kind: &Option<LexemeKind>) -> Option<u64>
    ensures { result ≡ double_in kind.now }
{
    match kind {
        Some(LexemeKind::Double(bits)) => Some(*bits),
        _ => None,
    }
}

/// Returns the bits of the double if the lexeme at index `position` is a double, and `None` if not.
fn double_at(alloc: Global, lexemes: &Lexemes, position: usize) -> Result<Option<u64>, Memory>
    ensures { IfOk result (λ bits. bits ≡ double_in (slice_get (kinds_of lexemes.now) position)) }
{
    let kind = lexemes.kind(alloc, position)?;
    Ok(double_of(&kind))
}

/// Returns the bits of the double if the node is a double without a label, and `None` if not.
fn node_bits(alloc: Global, node: &LiteralNode, lexemes: &Lexemes) -> Result<Option<u64>, Memory>
    ensures { IfOk result (λ bits. bits ≡ bits_of_node (kinds_of lexemes.now) node.now) }
{
    match (node.label, node.form) {
        (None, NodeForm::Double) => double_at(alloc, lexemes, node.first),
        _ => Ok(None),
    }
}

/// Returns the bits of `many` nodes from node `from` on, if each of the nodes is a double without a
/// label.
fn all_bits(
    alloc: Global,
    nodes: &LiteralNodes,
    from: usize,
    many: usize,
    lexemes: &Lexemes,
) -> Result<Option<Vec<u64>>, Memory>
    requires { from + many ≤ length nodes.now }
    ensures { IfOk result
        (λ all. option_map (λ bits. bits.items) all
        ≡ bits_of_nodes (kinds_of lexemes.now) (Some []) (take many (drop from nodes.now))) }
{
    let _few = nodes.len();
    let mut all = Vec::new(alloc);
    for k in 0..many {
        let node = nodes.get(from + k);
        let Some(bits) = node_bits(alloc, &node, lexemes)? else {
            return Ok(None);
        };
        all.push(bits)?;
    }
    Ok(Some(all))
}

/// Returns the bits of the parts of the literal that begins at node `at`, if each part is a double
/// without a label.
pub(crate) fn doubles_of_parts(
    alloc: Global,
    nodes: &LiteralNodes,
    at: usize,
    lexemes: &Lexemes,
) -> Result<Option<Vec<u64>>, Memory>
    requires { at < length nodes.now }

    // The literal is an array, or a record without a constructor name.
    ensures array { (k : ℕ) (l : Option ℕ) (ps : Parts) (v : Literal)
        → Stands nodes.now lexemes.now at k (labelled l (array ps v))
        → IfOk result
        (λ all. option_map (λ bits. bits.items) all ≡ and_bits (bits_of_parts ps) (bits_of v)) }
    ensures flat { (k : ℕ) (l : Option ℕ) (rs : FieldRows) (x : Name) (v : Literal)
        → Stands nodes.now lexemes.now at k (labelled l (fields None rs x v))
        → IfOk result
        (λ all. option_map (λ bits. bits.items) all ≡ and_bits (bits_of_rows rs) (bits_of v)) }
{
    let many = nodes.get(at).parts.min(nodes.len() - (at + 1));
    all_bits(alloc, nodes, at + 1, many, lexemes)
}
