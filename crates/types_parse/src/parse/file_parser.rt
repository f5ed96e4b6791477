//! The parser for files of declarations, with a loop over the lexemes.

ghost use Rattle.std.specs.Prelude.{IfOk, IfErr};
ghost use Rattle.types_parse.specs.grammar.Grammar.{file_kinds};
ghost use Rattle.types_parse.specs.grammar.Depths.{file_ends};
ghost use Rattle.types_parse.specs.grammar.LexemeKinds.{kinds_of};
ghost use Rattle.types_parse.specs.parse.Parsed.{IsFault, AreDeclarationsOf};

use crate::parse::declarations_so_far::FilePhase;
use crate::parse::file_end::file_whole;
use crate::parse::in_file::{file_depth, file_step};
use crate::parse::open_depth::{kind_at, opened};
use crate::parse::parse_stack::ParseStack;
use crate::parse::refused::ParseFault;
use crate::parse::type_step::TypeSoFar;
use base_data::model::list::List;
use std::alloc::Global;
use types_lex::lexeme::Lexeme;
use types_spec::types::decl::Decl;

/// Parses declarations from the lexemes of a file. The error is a syntax error or a type that is
/// too deep, each with the index of the lexeme in question, or out of memory.
pub fn parse_file(alloc: Global, lexemes: &[Lexeme]) -> Result<List<Decl>, ParseFault>
    ensures declarations { IfOk result (AreDeclarationsOf (kinds_of lexemes.now)) }
    ensures fault { IfErr result (IsFault file_kinds file_ends (kinds_of lexemes.now)) }
{
    let nodes = Vec::new(alloc);
    let frames = ParseStack::new(alloc);
    let mut so_far = TypeSoFar { nodes, frames };
    let mut phase = FilePhase::FileDue(List::new(alloc));
    let mut brackets: usize = 0;
    let mut position: usize = 0;
    while position < lexemes.len() {
        let kind = kind_at(lexemes, position);
        let Some(next) = file_step(alloc, &mut so_far, phase, kind)? else {
            return Err(ParseFault::Syntax(position));
        };
        brackets = opened(kind, brackets);
        if brackets > 200 {
            drop(next);
            return Err(ParseFault::TooDeep(position));
        }
        if file_depth(&so_far.frames, &next) > 200 {
            drop(next);
            return Err(ParseFault::TooDeep(position));
        }
        phase = next;
        position += 1;
    }
    match file_whole(so_far, phase)? {
        Some(decls) => Ok(decls),
        None => Err(ParseFault::Syntax(position)),
    }
}
