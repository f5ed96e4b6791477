//! Checks the scope rules that depend on the heads of types, for declarations or a type with the
//! marks of their text.

ghost use Rattle.std.specs.Prelude.{◌≡◌, IfOk, List as Seq, false};
ghost use Rattle.types_spec.specs.types.WellFormed.{AreSound};
ghost use Rattle.types_spec.specs.types.Occurrence.{DeclPositions, Occurrence};
ghost use Rattle.types_spec.specs.types.Scope.{BreaksInFile, BreaksInType, decls_of};
ghost use Rattle.types_spec.specs.types.Scope.{declared_names};
ghost use Rattle.types_resolve.specs.occurrences.Counted.{in_type};
ghost use Rattle.types_resolve.specs.occurrences.CountedFile.{counted_file};
ghost use Rattle.types_resolve.specs.scope.TypeBrackets.{AreBrackets, AreFileBrackets};
ghost use Rattle.types_wellformed.specs.head_rules.Broken.{IsFirstOfHeads, FileHashes, TypeHashes};

use crate::head_rules::{HeadBreak, first_head_break, first_head_break_in_type};
use base_data::model::Memory;
use base_data::model::list::List;
use std::alloc::Global;
use types_resolve::occurrences::{FileSites, TypeFound, file_sites, type_site};
use types_resolve::scope::{LocatedName, TypeBrackets};
use types_spec::types::decl::Decl;
use types_spec::types::ty::Ty;

/// Returns the first broken rule that depends on heads, given the occurrences in a file.
fn first_of_file(
    alloc: Global,
    _marks: &[usize],
    decls: &[Decl],
    names: &[LocatedName],
    brackets: &[List<TypeBrackets<'_>>],
) -> Result<Option<HeadBreak>, Memory>
    ghost all: { Seq DeclPositions }
    requires marks { all ≡ counted_file _marks.now decls.now }
    requires decls { decls.now ≡ decls_of all }
    requires names { names.now ≡ declared_names all }
    requires brackets { AreFileBrackets brackets.now all }
    requires sound { AreSound decls.now }
    ensures { IfOk result (IsFirstOfHeads (BreaksInFile all) (FileHashes all)) }
{
    first_head_break(alloc, decls, names, brackets)
}

/// Returns the first rule depending on heads that declarations break, given the marks of the
/// declarations. The result states the least lexeme that breaks the rule.
pub fn first_file_head(
    alloc: Global,
    marks: &[usize],
    decls: &[Decl],
) -> Result<Option<HeadBreak>, Memory>
    requires { AreSound decls.now }
    ensures { IfOk result
        (IsFirstOfHeads (BreaksInFile (counted_file marks.now decls.now))
        (FileHashes (counted_file marks.now decls.now))) }
{
    let FileSites {
        names,
        brackets,
        ..
    } = file_sites(alloc, marks, decls)?;
    first_of_file(alloc, marks, decls, names.as_slice(), brackets.as_slice())
}

/// Returns the first broken rule that depends on heads, given the occurrences in a type.
fn first_of_type(
    alloc: Global,
    _marks: &[usize],
    _ty: &Ty,
    decls: &[Decl],
    brackets: &[TypeBrackets<'_>],
) -> Result<Option<HeadBreak>, Memory>
    ghost occurrences: { Seq Occurrence }
    requires marks { occurrences ≡ in_type _marks.now false _ty.now }
    requires brackets { AreBrackets brackets.now occurrences }
    requires sound { AreSound decls.now }
    ensures { IfOk result
        (IsFirstOfHeads (BreaksInType decls.now occurrences) (TypeHashes decls.now occurrences)) }
{
    first_head_break_in_type(alloc, decls, brackets)
}

/// Returns the first rule depending on heads that a type breaks, given the marks of the type. The
/// result states the least lexeme that breaks the rule.
pub fn first_type_head(
    alloc: Global,
    marks: &[usize],
    ty: &Ty,
    decls: &[Decl],
) -> Result<Option<HeadBreak>, Memory>
    requires { AreSound decls.now }
    ensures { IfOk result
        (IsFirstOfHeads (BreaksInType decls.now (in_type marks.now false ty.now))
        (TypeHashes decls.now (in_type marks.now false ty.now))) }
{
    let TypeFound { brackets, .. } = type_site(alloc, marks, ty)?;
    first_of_type(alloc, marks, ty, decls, brackets.as_slice())
}
