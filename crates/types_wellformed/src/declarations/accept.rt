//! Parses texts of declarations and of types, and checks all scope rules.

ghost use Rattle.std.specs.Prelude.{IfOk, IfErr};
ghost use Rattle.types_spec.specs.types.WellFormed.{AreWellFormed, IsSoundType};
ghost use Rattle.types_wellformed.specs.declarations.DeclarationAnswer.{IsFileAnswer, IsTypeAnswer};
ghost use Rattle.types_wellformed.specs.declarations.DeclarationFault.{IsRefused, HasFileNames};
ghost use Rattle.types_wellformed.specs.declarations.DeclarationFault.{HasTypeNames};
ghost use Rattle.types_wellformed.specs.declarations.Read.{IsDeclared, IsTypeOf};

use crate::declarations::declaration_fault::{DeclFault, head_fault};
use crate::declarations::named_declarations::{read_names, read_type_names};
use crate::declarations::text_head_rules::{first_file_head, first_type_head};
use base_data::model::list::List;
use std::alloc::Global;
use types_spec::types::decl::Decl;
use types_spec::types::ty::Ty;

/// Parses declarations and checks the scope rules. Returned declarations are well-formed. If the
/// text is refused, returns the first fault in the order of the stages: lexer, grammar, scope
/// rules.
pub fn read_decls(alloc: Global, text: &[u8]) -> Result<List<Decl>, DeclFault>
    ensures declared { IfOk result (IsDeclared text.now) }
    ensures well { IfOk result AreWellFormed }
    ensures fault { IfErr result (IsRefused (IsFileAnswer text.now)) }
    ensures names { IfErr result (HasFileNames text.now) }
{
    let named = read_names(alloc, text)?;
    match first_file_head(alloc, named.marks.as_slice(), named.decls.as_slice())? {
        Some(broken) => Err(head_fault(broken, named.lexemes.as_slice(), text.len())),
        None => Ok(named.decls),
    }
}

/// Parses a type over declarations and checks the scope rules. A returned type is valid over the
/// declarations. If the text is refused, returns the first fault in the order of the stages: lexer,
/// grammar, scope rules.
pub fn read_type(alloc: Global, decls: &[Decl], text: &[u8]) -> Result<Ty, DeclFault>
    requires well { AreWellFormed decls.now }
    ensures written { IfOk result (IsTypeOf decls.now text.now) }
    ensures sound { IfOk result (IsSoundType decls.now) }
    ensures fault { IfErr result (IsRefused (IsTypeAnswer decls.now text.now)) }
    ensures names { IfErr result (HasTypeNames decls.now text.now) }
{
    let named = read_type_names(alloc, decls, text)?;
    match first_type_head(alloc, named.marks.as_slice(), &named.ty, decls)? {
        Some(broken) => Err(head_fault(broken, named.lexemes.as_slice(), text.len())),
        None => Ok(named.ty),
    }
}
