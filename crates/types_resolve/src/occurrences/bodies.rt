//! The occurrences in the body of a declaration.

ghost use Rattle.std.specs.Prelude.{◌≡◌, ◌++◌, ◌∷◌, [], IfOk, OnOk, drop, false};
ghost use Rattle.types_resolve.specs.occurrences.Counted.{in_type};
ghost use Rattle.types_resolve.specs.occurrences.CountedFile.{along, count_all, type_count};
ghost use Rattle.types_resolve.specs.occurrences.CountedFile.{field_count, in_field};
ghost use Rattle.types_resolve.specs.occurrences.CountedFile.{names_of_fields, record_in_arguments};
ghost use Rattle.types_resolve.specs.occurrences.CountedFile.{in_arguments};
ghost use Rattle.types_resolve.specs.occurrences.CountedFile.{arguments_count};
ghost use Rattle.types_resolve.specs.occurrences.CountedFile.{constructor_count, records_in};
ghost use Rattle.types_resolve.specs.occurrences.CountedFile.{in_body, body_count};
ghost use Rattle.types_resolve.specs.occurrences.FoundOccurrences.{AddsFound};
ghost use Rattle.types_resolve.specs.occurrences.Bodies.{constructor_names, records_of};
ghost use Rattle.types_resolve.specs.occurrences.Bodies.{carrying_of, occurrences_of};
ghost use Rattle.types_resolve.specs.occurrences.Bodies.{names_in, carrying_body};

use crate::occurrences::found_occurrences::{FoundOccurrences, write_carrying, write_names};
use crate::occurrences::mark::{placed, skip};
use crate::occurrences::walk::write_type;
use base_data::model::Memory;
use base_data::model::list::List;
use std::alloc::Global;
use types_spec::types::decl::{Arguments, Body, Constructor, Field};
use types_spec::types::ty::Ty;

/// Adds the occurrences in a list of types.
fn write_types<'m, 'a>(
    alloc: Global,
    found: &mut FoundOccurrences<'a>,
    marks: &'m [usize],
    types: &'a [Ty],
) -> Result<&'m [usize], Memory>
    ensures adds { OnOk result
        (AddsFound found.old found.new [] []
        (along type_count (λ at t. in_type at false t) marks.now types.now)) }
    ensures rest { IfOk result
        (λ rest. rest.now ≡ drop (count_all type_count types.now) marks.now) }
{
    let mut rest = marks;
    for ty in types {
        rest = write_type(alloc, found, rest, ty)?;
    }
    Ok(rest)
}

/// Adds the occurrences in the fields of a record, and the row of the field names.
fn write_fields<'m, 'a>(
    alloc: Global,
    found: &mut FoundOccurrences<'a>,
    marks: &'m [usize],
    fields: &'a [Field],
) -> Result<&'m [usize], Memory>
    ensures adds { OnOk result
        (AddsFound found.old found.new (names_of_fields marks.now fields.now ∷ []) []
        (along field_count in_field marks.now fields.now)) }
    ensures rest { IfOk result
        (λ rest. rest.now ≡ drop (count_all field_count fields.now) marks.now) }
{
    let mut rest = marks;
    let mut row = List::new(alloc);
    for field in fields {
        row.push(placed(alloc, rest, &field.name)?)?;
        rest = write_type(alloc, found, skip(rest, 1), &field.ty)?;
    }
    write_names(found, row)?;
    Ok(rest)
}

/// Adds the occurrences in the arguments of a constructor.
fn write_arguments<'m, 'a>(
    alloc: Global,
    found: &mut FoundOccurrences<'a>,
    marks: &'m [usize],
    arguments: &'a Arguments,
) -> Result<&'m [usize], Memory>
    ensures adds { OnOk result
        (AddsFound found.old found.new (record_in_arguments marks.now arguments.now) []
        (in_arguments marks.now arguments.now)) }
    ensures rest { IfOk result (λ rest. rest.now ≡ drop (arguments_count arguments.now) marks.now) }
{
    match arguments {
        Arguments::Constant => Ok(marks),
        Arguments::Listed(types) => write_types(alloc, found, marks, types.as_slice()),
        Arguments::Inline(fields) => write_fields(alloc, found, marks, fields.as_slice()),
    }
}

/// Adds the occurrences in a constructor.
fn write_constructor<'m, 'a>(
    alloc: Global,
    found: &mut FoundOccurrences<'a>,
    marks: &'m [usize],
    constructor: &'a Constructor,
) -> Result<&'m [usize], Memory>
    ensures adds { OnOk result
        (AddsFound found.old found.new (records_of marks.now constructor.now)
        (carrying_of marks.now constructor.now) (occurrences_of marks.now constructor.now)) }
    ensures rest { IfOk result
        (λ rest. rest.now ≡ drop (constructor_count constructor.now) marks.now) }
{
    write_carrying(found, marks, &constructor.arguments)?;
    write_arguments(alloc, found, skip(marks, 1), &constructor.arguments)
}

/// Adds the occurrences in a list of constructors, and the row of the constructors' names. Returns
/// the remaining marks.
fn write_constructors<'m, 'a>(
    alloc: Global,
    found: &mut FoundOccurrences<'a>,
    marks: &'m [usize],
    constructors: &'a [Constructor],
) -> Result<&'m [usize], Memory>
    ensures adds { OnOk result
        (AddsFound found.old found.new
        (along constructor_count records_of marks.now constructors.now
        ++ constructor_names marks.now constructors.now ∷ [])
        (along constructor_count carrying_of marks.now constructors.now)
        (along constructor_count occurrences_of marks.now constructors.now)) }
    ensures rest { IfOk result
        (λ rest. rest.now ≡ drop (count_all constructor_count constructors.now) marks.now) }
{
    let mut rest = marks;
    let mut row = List::new(alloc);
    for constructor in constructors {
        row.push(placed(alloc, rest, &constructor.name)?)?;
        rest = write_constructor(alloc, found, rest, constructor)?;
    }
    write_names(found, row)?;
    Ok(rest)
}

/// Adds the occurrences in the body of a declaration, and the row of the body's constructor names.
pub fn write_body<'m, 'a>(
    alloc: Global,
    found: &mut FoundOccurrences<'a>,
    marks: &'m [usize],
    body: &'a Body,
) -> Result<&'m [usize], Memory>
    ensures adds { OnOk result
        (AddsFound found.old found.new
        (records_in marks.now body.now ++ names_in marks.now body.now ∷ [])
        (carrying_body marks.now body.now) (in_body marks.now body.now)) }
    ensures rest { IfOk result (λ rest. rest.now ≡ drop (body_count body.now) marks.now) }
{
    match body {
        Body::Abbreviation(ty) => {
            let rest = write_type(alloc, found, marks, ty)?;
            write_names(found, List::new(alloc))?;
            Ok(rest)
        }
        Body::Record(fields) => {
            let rest = write_fields(alloc, found, marks, fields.as_slice())?;
            write_names(found, List::new(alloc))?;
            Ok(rest)
        }
        Body::Variant(all) => write_constructors(alloc, found, marks, all.as_slice()),
    }
}
