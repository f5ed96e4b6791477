//! The parser for type expressions, with a loop over the lexemes.

ghost use Rattle.std.specs.Prelude.{IfOk, IfErr};
ghost use Rattle.types_parse.specs.grammar.Grammar.{texpr};
ghost use Rattle.types_parse.specs.grammar.Depths.{texpr_ends};
ghost use Rattle.types_parse.specs.grammar.LexemeKinds.{kinds_of};
ghost use Rattle.types_parse.specs.parse.Parsed.{IsFault, IsTypeOf};

use crate::parse::open::{ParsePhase, TypeStep};
use crate::parse::open_depth::{depth, kind_at, opened, whole};
use crate::parse::parse_stack::ParseStack;
use crate::parse::refused::ParseFault;
use crate::parse::type_step::TypeSoFar;
use std::alloc::Global;
use types_lex::lexeme::Lexeme;
use types_spec::types::ty::Ty;

/// Parses a type from the lexemes of the type. The error is a syntax error or a type that is too
/// deep, each with the index of the lexeme in question, or out of memory.
pub fn parse_type(alloc: Global, lexemes: &[Lexeme]) -> Result<Ty, ParseFault>
    ensures ty { IfOk result (IsTypeOf (kinds_of lexemes.now)) }
    ensures fault { IfErr result (IsFault texpr texpr_ends (kinds_of lexemes.now)) }
{
    let nodes = Vec::new(alloc);
    let frames = ParseStack::new(alloc);
    let mut so_far = TypeSoFar { nodes, frames };
    let mut phase = ParsePhase::Due;
    let mut brackets: usize = 0;
    let mut position: usize = 0;
    while position < lexemes.len() {
        let kind = kind_at(lexemes, position);
        let TypeStep::Goes(next) = so_far.step(alloc, false, phase, kind)? else {
            return Err(ParseFault::Syntax(position));
        };
        brackets = opened(kind, brackets);
        if brackets > 200 {
            return Err(ParseFault::TooDeep(position));
        }
        if depth(&so_far.frames, &next) > 200 {
            return Err(ParseFault::TooDeep(position));
        }
        phase = next;
        position += 1;
    }
    if whole(&mut so_far, phase)? {
        Ok(Ty::of(so_far.nodes))
    } else {
        Err(ParseFault::Syntax(position))
    }
}
