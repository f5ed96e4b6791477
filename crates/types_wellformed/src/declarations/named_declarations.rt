//! Parses texts of declarations and of types, and checks the scope rules on names.

ghost use Rattle.std.specs.Prelude.{IfOk, IfErr};
ghost use Rattle.types_wellformed.specs.declarations.DeclarationAnswer.{IsFileAnswer, IsTypeAnswer};
ghost use Rattle.types_wellformed.specs.declarations.DeclarationFault.{IsRefused, HasFileNames};
ghost use Rattle.types_wellformed.specs.declarations.DeclarationFault.{HasTypeNames};
ghost use Rattle.types_wellformed.specs.declarations.Named.{IsNamed, IsNamedType};

use crate::declarations::declaration_fault::{DeclFault, lex_fault, parse_fault, scope_fault};
use crate::declarations::text_name_rules::{first_name_break, first_type_break};
use base_data::model::list::List;
use std::alloc::Global;
use types_lex::lexeme::Lexeme;
use types_lex::tokens;
use types_parse::parse::{parse_file, parse_type};
use types_resolve::occurrences::marks;
use types_spec::types::decl::Decl;
use types_spec::types::ty::Ty;

/// Declarations that break no rule on names, with the lexemes and the marks of their text.
#[derive(Drop)]
pub struct Named {
    pub lexemes: Vec<Lexeme>,
    pub marks: Vec<usize>,
    pub decls: List<Decl>,
}

/// Parses declarations, and checks the rules on names. If the text is refused, returns the first
/// fault.
pub fn read_names(alloc: Global, text: &[u8]) -> Result<Named, DeclFault>
    ensures named { IfOk result (IsNamed text.now) }
    ensures fault { IfErr result (IsRefused (IsFileAnswer text.now)) }
    ensures names { IfErr result (HasFileNames text.now) }
{
    let lexemes = match tokens(alloc, text) {
        Ok(lexemes) => lexemes,
        Err(fault) => return Err(lex_fault(fault)),
    };
    let decls = match parse_file(alloc, lexemes.as_slice()) {
        Ok(decls) => decls,
        Err(fault) => return Err(parse_fault(fault, lexemes.as_slice(), text.len())),
    };
    let marks = marks(alloc, lexemes.as_slice())?;
    if let Some(broken) = first_name_break(alloc, marks.as_slice(), decls.as_slice())? {
        return Err(scope_fault(broken, lexemes.as_slice(), text.len()));
    }
    Ok(Named {
        lexemes,
        marks,
        decls,
    })
}

/// A type that breaks no rule on names, with the lexemes and the marks of its text.
#[derive(Drop)]
pub struct NamedType {
    pub lexemes: Vec<Lexeme>,
    pub marks: Vec<usize>,
    pub ty: Ty,
}

/// Parses a type over declarations, and checks the rules on names. If the text is refused, returns
/// the first fault.
pub fn read_type_names(alloc: Global, decls: &[Decl], text: &[u8]) -> Result<NamedType, DeclFault>
    ensures named { IfOk result (IsNamedType decls.now text.now) }
    ensures fault { IfErr result (IsRefused (IsTypeAnswer decls.now text.now)) }
    ensures names { IfErr result (HasTypeNames decls.now text.now) }
{
    let lexemes = match tokens(alloc, text) {
        Ok(lexemes) => lexemes,
        Err(fault) => return Err(lex_fault(fault)),
    };
    let ty = match parse_type(alloc, lexemes.as_slice()) {
        Ok(ty) => ty,
        Err(fault) => return Err(parse_fault(fault, lexemes.as_slice(), text.len())),
    };
    let marks = marks(alloc, lexemes.as_slice())?;
    if let Some(broken) = first_type_break(alloc, marks.as_slice(), &ty, decls)? {
        return Err(scope_fault(broken, lexemes.as_slice(), text.len()));
    }
    Ok(NamedType { lexemes, marks, ty })
}
