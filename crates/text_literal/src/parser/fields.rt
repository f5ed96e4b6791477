//! Collects the field names of a literal.

ghost use Rattle.std.specs.Prelude.{ℕ, ◌≡◌, ◌<◌, ◌++◌, ◌∷◌, [], Option, length, map, IfOk};
ghost use Rattle.types_parse.specs.grammar.Grammar.{Name};
ghost use Rattle.text_literal.specs.literal_grammar.Literal.{LiteralHead, Literal, labelled};
ghost use Rattle.text_literal.specs.literal_grammar.Literal.{FieldRows, fields};
ghost use Rattle.types_parse.specs.grammar.LexemeKinds.{kinds_of};
ghost use Rattle.text_literal.specs.parser.SubtreeEnds.{AreEnds};
ghost use Rattle.text_literal.specs.parser.FieldNames as specs;
ghost use Rattle.text_literal.specs.parser.Standing.{Stands};
ghost use Rattle.text_literal.specs.parser.Starts.{names_of_rows};

use crate::literal_grammar::LiteralNodes;
use crate::parser::siblings::sibling;
use base_data::model::Memory;
use std::alloc::Global;
use types_lex::Lexemes;

/// Returns the name of the field whose value begins at lexeme `first`. The name is the lexeme
/// before the `=`.
fn name_before<'a>(lexemes: &'a Lexemes, first: usize) -> &'a [u8]
    ensures { result.now ≡ specs.name_before (kinds_of lexemes.now) first }
{
    lexemes.lower(first.saturating_sub(2))
}

/// Returns the names of `many` fields. The value of the first field begins at node `from`.
fn names_from<'a>(
    alloc: Global,
    nodes: &LiteralNodes,
    ends: &[u32],
    from: usize,
    many: usize,
    lexemes: &'a Lexemes,
) -> Result<Vec<&'a [u8]>, Memory>
    ensures { IfOk result
        (λ names. map (λ name. name.now) names.items
        ≡ specs.names_from nodes.now ends.now (kinds_of lexemes.now) from many) }
{
    let mut names = Vec::with_capacity(alloc, many)?;
    let mut position = from;
    let mut left = many;
    while left > 0 {
        if position >= nodes.len() {
            return Ok(names);
        }
        names.push(name_before(lexemes, nodes.get(position).first))?;
        position = sibling(ends, position, 1);
        left -= 1;
    }
    Ok(names)
}

/// Returns the field names of the literal that begins at node `at`.
pub(crate) fn field_names<'a>(
    alloc: Global,
    nodes: &LiteralNodes,
    ends: &[u32],
    at: usize,
    lexemes: &'a Lexemes,
) -> Result<Vec<&'a [u8]>, Memory>
    requires at { at < length nodes.now }
    requires len { length ends.now ≡ length nodes.now }
    requires ends { AreEnds nodes.now ends.now }
    ensures { (k : ℕ) (l : Option ℕ) (o : Option LiteralHead) (rs : FieldRows) (x : Name)
        (v : Literal)
        → Stands nodes.now lexemes.now at k (labelled l (fields o rs x v))
        → IfOk result (λ names. map (λ name. name.now) names.items ≡ names_of_rows rs ++ x ∷ []) }
{
    names_from(alloc, nodes, ends, at + 1, nodes.get(at).parts, lexemes)
}
