//! Collects the names of the constructors, fields or tags of a type.

ghost use Rattle.std.specs.Prelude.{◌≡◌, Some, List, map, IfOk};
ghost use Rattle.std.specs.List.{filter_map};
ghost use Rattle.types_spec.specs.types.Ty.{Ty};
ghost use Rattle.types_spec.specs.types.Names.{no_names, body_names, head_names};
ghost use Rattle.types_spec.specs.types.Names.{predeclared_type_names};
ghost use Rattle.types_spec.specs.types.Names.{field_names, constant_name, constr_names};
ghost use Rattle.types_spec.specs.types.Names.{plain_constr, sum_names};
ghost use Rattle.types_spec.specs.types.Predeclared.{sum_at};
ghost use Rattle.types_spec.specs.types.PredeclaredCode.{texts_of, sum_row_of};
ghost use Rattle.types_build.specs.representation.Representation.{head_of_types, named, AreNamesAt};
ghost use Rattle.types_build.specs.representation.Representation.{constr_row};

use crate::representation::datatype::is_constant;
use base_data::model::Memory;
use base_data::model::list::List;
use base_data::text::copied;
use std::alloc::Global;
use types_resolve::scope::SoundEnvironment;
use types_spec::tag_hash::hash;
use types_spec::types::decl::{Arguments, Body, Constructor, Field, Predeclared};
use types_spec::types::head::{HeadOf, TagOf};
use types_spec::types::names::{ConstrNames, Names, TagName};
use types_spec::types::predeclared::{BlockRow, SumRow, sum};

/// Returns the names of a type whose head is `head`.
pub fn names_at(
    alloc: Global,
    decls: &SoundEnvironment<'_>,
    at: &HeadOf<usize>,
) -> Result<Names, Memory>
    ensures { IfOk result (AreNamesAt decls.now at.now) }
{
    names_by_head(alloc, decls, at)
}

/// Returns the names of constructors, fields and tags that a head declares. The names do not depend
/// on the parts of the head.
fn names_by_head(
    alloc: Global,
    decls: &SoundEnvironment<'_>,
    at: &HeadOf<usize>,
) -> Result<Names, Memory>
    ensures { IfOk result
        (λ names. (types : List Ty) → names ≡ head_names decls.now (head_of_types types at.now)) }
{
    match at {
        HeadOf::Predeclared(base, _) => names_of_predeclared(alloc, *base),
        HeadOf::Datatype(name, _) => match decls.get(name.as_slice()) {
            Some(decl) => names_of_body(alloc, &decl.body),
            None => Ok(no_names(alloc)),
        },
        HeadOf::Variants(tags) => {
            let mut names = no_names(alloc);
            names.tags = List::of(tag_names(alloc, tags.as_slice())?);
            Ok(names)
        }
        _ => Ok(no_names(alloc)),
    }
}

/// Returns an empty set of names.
fn no_names(alloc: Global) -> Names
    ensures { result ≡ no_names }
{
    Names {
        constants: List::new(alloc),
        constructors: List::new(alloc),
        fields: List::new(alloc),
        tags: List::new(alloc),
    }
}

/// Returns the names of a predeclared type.
fn names_of_predeclared(alloc: Global, base: Predeclared) -> Result<Names, Memory>
    ensures { IfOk result (λ names. names ≡ predeclared_type_names base) }
{
    match base {
        Predeclared::Sum(number) => names_of_sum(alloc, number),
        _ => Ok(no_names(alloc)),
    }
}

/// Returns the names of the predeclared variant in row `number`.
fn names_of_sum(alloc: Global, number: usize) -> Result<Names, Memory>
    ensures { IfOk result (λ names. names ≡ sum_names (sum_at number)) }
{
    match sum(number) {
        Some(row) => names_of_row(alloc, row),
        None => Ok(no_names(alloc)),
    }
}

/// Returns the names of the variant in this row of the table.
fn names_of_row(alloc: Global, row: SumRow) -> Result<Names, Memory>
    ensures { IfOk result (λ names. names ≡ sum_names (Some (sum_row_of row))) }
{
    let mut names = no_names(alloc);
    names.constants = List::of(texts(alloc, row.constants)?);
    names.constructors = List::of(plain_constrs(alloc, row.blocks)?);
    Ok(names)
}

/// Returns a copy of the texts.
fn texts(alloc: Global, from: &[&[u8]]) -> Result<Vec<List<u8>>, Memory>
    ensures { IfOk result (λ v. v.items ≡ texts_of from.entry.now) }
{
    let mut copies = Vec::new(alloc);
    for bytes in from {
        copies.push(copied(alloc, *bytes)?)?;
    }
    Ok(copies)
}

/// Returns the names of constructors that have arguments and no inline records.
fn plain_constrs(alloc: Global, rows: &[BlockRow]) -> Result<Vec<ConstrNames>, Memory>
    ensures { IfOk result (λ v. v.items ≡ map constr_row rows.entry.now) }
{
    let mut names = Vec::new(alloc);
    for row in rows {
        names.push(plain_constr(alloc, row.name)?)?;
    }
    Ok(names)
}

/// Returns the names of a constructor with arguments and without an inline record.
fn plain_constr(alloc: Global, name: &[u8]) -> Result<ConstrNames, Memory>
    ensures { IfOk result (λ names. names ≡ plain_constr name.now) }
{
    Ok(ConstrNames {
        name: copied(alloc, name)?,
        fields: List::new(alloc),
    })
}

/// Returns the names of a declaration.
fn names_of_body(alloc: Global, body: &Body) -> Result<Names, Memory>
    ensures { IfOk result (λ names. names ≡ body_names body.now) }
{
    let mut names = no_names(alloc);
    match body {
        Body::Abbreviation(_) => {}
        Body::Record(fields) => names.fields = List::of(field_names(alloc, fields.as_slice())?),
        Body::Variant(constructors) => {
            let constructors = constructors.as_slice();
            names.constants = List::of(constant_names(alloc, constructors)?);
            names.constructors = List::of(names_of_constrs(alloc, constructors)?);
        }
    }
    Ok(names)
}

/// Returns the names of fields.
fn field_names(alloc: Global, fields: &[Field]) -> Result<Vec<List<u8>>, Memory>
    ensures { IfOk result (λ v. v.items ≡ field_names fields.now) }
{
    let mut names = Vec::new(alloc);
    for field in fields {
        names.push(copied(alloc, field.name.as_slice())?)?;
    }
    Ok(names)
}

/// Returns the names of the constant constructors.
fn constant_names(alloc: Global, constructors: &[Constructor]) -> Result<Vec<List<u8>>, Memory>
    ensures { IfOk result (λ v. v.items ≡ filter_map constant_name constructors.now) }
{
    let mut names = Vec::new(alloc);
    for constructor in constructors {
        if let Some(name) = constant_name(alloc, constructor)? {
            names.push(name)?;
        }
    }
    Ok(names)
}

/// Returns the name of a constructor if the constructor is constant, and `None` if the constructor
/// has arguments.
fn constant_name(alloc: Global, constructor: &Constructor) -> Result<Option<List<u8>>, Memory>
    ensures { IfOk result (λ name. name ≡ constant_name constructor.now) }
{
    if is_constant(&constructor.arguments) {
        Ok(Some(copied(alloc, constructor.name.as_slice())?))
    } else {
        Ok(None)
    }
}

/// Returns the names of the constructors with arguments.
fn names_of_constrs(alloc: Global, constructors: &[Constructor]) -> Result<Vec<ConstrNames>, Memory>
    ensures { IfOk result (λ v. v.items ≡ filter_map constr_names constructors.now) }
{
    let mut names = Vec::new(alloc);
    for constructor in constructors {
        if let Some(found) = constr_names(alloc, constructor)? {
            names.push(found)?;
        }
    }
    Ok(names)
}

/// Returns the name of a constructor with arguments, and the field names of the constructor's
/// inline record. Returns `None` for a constant constructor.
fn constr_names(alloc: Global, constructor: &Constructor) -> Result<Option<ConstrNames>, Memory>
    ensures { IfOk result (λ names. names ≡ constr_names constructor.now) }
{
    let fields = match &constructor.arguments {
        Arguments::Constant => return Ok(None),
        Arguments::Listed(_) => List::new(alloc),
        Arguments::Inline(fields) => List::of(field_names(alloc, fields.as_slice())?),
    };
    let name = copied(alloc, constructor.name.as_slice())?;
    Ok(Some(ConstrNames { name, fields }))
}

/// Returns the names of tags with their hashes.
fn tag_names(alloc: Global, tags: &[TagOf<usize>]) -> Result<Vec<TagName>, Memory>
    ensures { IfOk result (λ v. v.items ≡ map named tags.now) }
{
    let mut names = Vec::with_capacity(alloc, tags.len())?;
    for tag in tags {
        let name = tag.name.as_slice();
        names.push(TagName {
            name: copied(alloc, name)?,
            hash: hash(name),
        })?;
    }
    Ok(names)
}
