//! The parser for a literal that is given as lexemes.

ghost use Rattle.std.specs.Prelude.{◌≡◌, ℕ, Ok, Err, IfOk};
ghost use Rattle.types_parse.specs.grammar.Refusals.{IsSyntax};
ghost use Rattle.text_literal.specs.literal_grammar.Literal.{Literal, literal_kinds};
ghost use Rattle.types_parse.specs.grammar.LexemeKinds.{kinds_of};
ghost use Rattle.text_literal.specs.literal_grammar.LiteralNodes.{literal_nodes, IsTreeAnswer};

use crate::literal_grammar::literal_nodes::LiteralNodes;
use crate::literal_grammar::literal_so_far::LiteralSoFar;
use crate::literal_grammar::pending_node::{Opens, Stage};
use base_data::model::Memory;
use std::alloc::Global;
use types_lex::lexeme::Lexeme;

/// Parses a literal from its lexemes. Returns the literal's nodes, or the position of the first
/// syntax error.
fn read(alloc: Global, lexemes: &[Lexeme]) -> Result<Result<LiteralNodes, usize>, Memory>
    ensures { IfOk result (IsTreeAnswer lexemes.now) }
{
    let nodes = LiteralNodes::new(alloc);
    let opens = Opens::new(alloc);
    let mut so_far = LiteralSoFar { nodes, opens };
    let mut stage = Stage::Due;
    for (position, lexeme) in lexemes.iter().enumerate() {
        let Some(next) = so_far.step(stage, position, &lexeme.kind)? else {
            return Ok(Err(position));
        };
        stage = next;
    }
    if so_far.end(stage)? {
        Ok(Ok(so_far.nodes))
    } else {
        Ok(Err(lexemes.len()))
    }
}

/// Parses a literal from its lexemes. Returns the literal's nodes, or the position of the first
/// syntax error: the index of the first lexeme at which no literal continues, or the number of
/// lexemes.
pub fn read_literal_tree(
    alloc: Global,
    lexemes: &[Lexeme],
) -> Result<Result<LiteralNodes, usize>, Memory>
    // If nodes are returned, the nodes are those of the literal with these lexemes. If a position
    // is returned, the lexemes have a syntax error at the position.
    ensures answer { IfOk result (IsTreeAnswer lexemes.now) }

    // If the lexemes are a literal, the literal's nodes are returned. If the lexemes have a syntax
    // error, its position is returned. The exception is that memory runs out.
    ensures literal { (v : Literal) → literal_kinds v ≡ kinds_of lexemes.now
        → IfOk result (λ answer. answer ≡ Ok (literal_nodes 0 v)) }
    ensures syntax { (k : ℕ) → IsSyntax literal_kinds (kinds_of lexemes.now) k
        → IfOk result (λ answer. answer ≡ Err k) }
{
    read(alloc, lexemes)
}
