//! The occurrences in the text of declarations.

ghost use Rattle.std.specs.Prelude.{◌≡◌, ◌+◌, IfOk, drop, length};
ghost use Rattle.types_resolve.specs.occurrences.CountedFile.{parameters_in, counted_positions};
ghost use Rattle.types_resolve.specs.occurrences.CountedFile.{decl_count};
ghost use Rattle.types_resolve.specs.occurrences.CountedFile.{counted_file, in_body};
ghost use Rattle.types_resolve.specs.scope.TypeBrackets.{AreBrackets, AreFileBrackets};
ghost use Rattle.types_resolve.specs.scope.Sites.{IsSite, AreSites};

use crate::occurrences::bodies::write_body;
use crate::occurrences::found_occurrences::{FoundOccurrences, nothing, write_names};
use crate::occurrences::mark::{placed, skip};
use crate::scope::{LocatedName, Site, TypeBrackets};
use base_data::model::Memory;
use base_data::model::list::List;
use std::alloc::Global;
use types_spec::types::decl::Decl;

/// The occurrences in a list of declarations.
#[derive(Drop)]
pub struct FileSites<'a> {
    /// The declared type names, each with its lexeme.
    pub names: List<LocatedName>,
    pub sites: List<Site>,
    /// The brackets of each declaration, one entry for each type of the declaration.
    pub brackets: List<List<TypeBrackets<'a>>>,
}

/// Returns the row of a declaration's parameters, each with its lexeme.
fn parameters_row(
    alloc: Global,
    marks: &[usize],
    parameters: &[List<u8>],
) -> Result<List<LocatedName>, Memory>
    ensures { IfOk result (λ row. row ≡ parameters_in marks.now parameters.now) }
{
    let mut rest = marks;
    let mut row = List::new(alloc);
    for name in parameters {
        row.push(placed(alloc, rest, name)?)?;
        rest = skip(rest, 1);
    }
    Ok(row)
}

/// Returns the occurrences in a declaration, and the remaining marks.
fn decl_found<'m, 'a>(
    alloc: Global,
    marks: &'m [usize],
    decl: &'a Decl,
) -> Result<(FoundOccurrences<'a>, &'m [usize]), Memory>
    ensures site { IfOk result
        (λ found. IsSite found.0.site (counted_positions marks.now decl.now)) }
    ensures brackets { IfOk result
        (λ found. AreBrackets found.0.brackets
        (in_body (drop (length decl.now.parameters + 1) marks.now) decl.now.body)) }
    ensures rest { IfOk result (λ found. found.1.now ≡ drop (decl_count decl.now) marks.now) }
{
    let mut found = nothing(alloc);
    write_names(
        &mut found,
        parameters_row(alloc, marks, decl.parameters.as_slice())?,
    )?;
    let name = skip(marks, decl.parameters.len());
    let rest = write_body(alloc, &mut found, skip(name, 1), &decl.body)?;
    Ok((found, rest))
}

/// Returns the occurrences in declarations whose marks are `marks`.
pub fn file_sites<'a>(
    alloc: Global,
    marks: &[usize],
    decls: &'a [Decl],
) -> Result<FileSites<'a>, Memory>
    ensures sites { IfOk result
        (λ found. AreSites decls.now found.names found.sites (counted_file marks.now decls.now)) }
    ensures brackets { IfOk result
        (λ found. AreFileBrackets found.brackets (counted_file marks.now decls.now)) }
{
    let mut rest = marks;
    let mut names = List::new(alloc);
    let mut sites = List::new(alloc);
    let mut brackets = List::new(alloc);
    for decl in decls {
        let name = skip(rest, decl.parameters.len());
        names.push(placed(alloc, name, &decl.name)?)?;
        let (found, left) = decl_found(alloc, rest, decl)?;
        let FoundOccurrences {
            site,
            brackets: inside,
        } = found;
        sites.push(site)?;
        brackets.push(inside)?;
        rest = left;
    }
    Ok(FileSites {
        names,
        sites,
        brackets,
    })
}
