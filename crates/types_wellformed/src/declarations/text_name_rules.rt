//! Checks the scope rules on names, for declarations or a type with the marks of their text.

ghost use Rattle.std.specs.Prelude.{◌≡◌, IfOk, List, false};
ghost use Rattle.types_spec.specs.types.Occurrence.{DeclPositions, Occurrence};
ghost use Rattle.types_spec.specs.types.Scope.{BreaksInFile, BreaksInType};
ghost use Rattle.types_resolve.specs.occurrences.Counted.{in_type};
ghost use Rattle.types_resolve.specs.occurrences.CountedFile.{counted_file};
ghost use Rattle.types_resolve.specs.scope.First.{IsFirstBefore};
ghost use Rattle.types_resolve.specs.scope.Sites.{AreSites, IsTypeSite};

use base_data::model::Memory;
use std::alloc::Global;
use types_resolve::occurrences::{FileSites, TypeFound, file_sites, type_site};
use types_resolve::scope::{Broken, LocatedName, Site, TypeSite, first_break, first_break_in_type};
use types_spec::types::decl::Decl;
use types_spec::types::ty::Ty;

/// Returns the first broken rule on names, given the occurrences in a file.
fn first_of_sites(
    alloc: Global,
    _marks: &[usize],
    decls: &[Decl],
    names: &[LocatedName],
    sites: &[Site],
) -> Result<Option<Broken>, Memory>
    ghost all: { List DeclPositions }
    requires marks { all ≡ counted_file _marks.now decls.now }
    requires sites { AreSites decls.now names.now sites.now all }
    ensures { IfOk result (IsFirstBefore (BreaksInFile all) 7) }
{
    first_break(alloc, decls, names, sites)
}

/// Returns the first rule on names that declarations break, given the marks of the declarations.
/// The result states the least lexeme that breaks the rule.
pub fn first_name_break(
    alloc: Global,
    marks: &[usize],
    decls: &[Decl],
) -> Result<Option<Broken>, Memory>
    ensures { IfOk result (IsFirstBefore (BreaksInFile (counted_file marks.now decls.now)) 7) }
{
    let FileSites { names, sites, .. } = file_sites(alloc, marks, decls)?;
    first_of_sites(alloc, marks, decls, names.as_slice(), sites.as_slice())
}

/// Returns the first broken rule on names, given the occurrences in a type.
fn first_of_type_site(
    alloc: Global,
    _marks: &[usize],
    _ty: &Ty,
    decls: &[Decl],
    site: &TypeSite,
) -> Result<Option<Broken>, Memory>
    ghost occurrences: { List Occurrence }
    requires marks { occurrences ≡ in_type _marks.now false _ty.now }
    requires site { IsTypeSite site.now occurrences }
    ensures { IfOk result (IsFirstBefore (BreaksInType decls.now occurrences) 7) }
{
    first_break_in_type(alloc, decls, site)
}

/// Returns the first rule on names that a type breaks, given the marks of the type. The result
/// states the least lexeme that breaks the rule.
pub fn first_type_break(
    alloc: Global,
    marks: &[usize],
    ty: &Ty,
    decls: &[Decl],
) -> Result<Option<Broken>, Memory>
    ensures { IfOk result
        (IsFirstBefore (BreaksInType decls.now (in_type marks.now false ty.now)) 7) }
{
    let TypeFound { site, .. } = type_site(alloc, marks, ty)?;
    first_of_type_site(alloc, marks, ty, decls, &site)
}
