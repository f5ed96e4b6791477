//! Prints the table of the types that a type reaches. Each type has one line with the type's text,
//! its shape over indices, the first type that is equal to it, and its names.

ghost use Rattle.std.specs.Prelude.{◌<◌, length, IfSome};
ghost use Rattle.types_spec.specs.types.WellFormed.{AreWellFormed, AreSound, IsSoundType};

use crate::table_rows::{TypeRow, write, write_number, write_row};
use crate::written::write_type;
use base_data::model::Memory;
use base_data::model::list::List;
use std::alloc::Global;
use std::io;
use std::io::ErrorKind;
use types_build::builder::{TypeFault, build};
use types_build::representation::{expand, flat_float, shape};
use types_resolve::scope::SoundEnvironment;
use types_spec::types::decl::Decl;
use types_spec::types::shape::ShapeOf;
use types_spec::types::ty::Ty;
use types_table::type_table::TypeTable;
use types_wellformed::declarations::{read_decls, read_type};

// Returns the first type in the class of type `number`.
fn first_of_class(table: &TypeTable, number: usize) -> usize
    requires { number < length table.now.classes }
{
    for other in 0..number {
        if table.class(other) == table.class(number) {
            return other;
        }
    }
    number
}

// Appends the line of a type.
fn write_line_of(
    out: &mut Vec<u8>,
    alloc: Global,
    table: &TypeTable,
    number: usize,
) -> Result<(), Memory> {
    if number >= table.len() || number >= table.count() {
        return Err(Memory);
    }
    let row = TypeRow {
        text: table.text(alloc, number)?,
        shape: table.shape(number),
        first: first_of_class(table, number),
        names: table.names(number),
    };
    write_number(out, number)?;
    write(out, b" ")?;
    write_row(out, &row)?;
    write(out, b"\n")
}

// Returns the lines of a table.
fn lines_of(alloc: Global, table: &TypeTable) -> Result<Vec<u8>, Memory> {
    let mut out = Vec::new(alloc);
    for number in 0..table.len() {
        write_line_of(&mut out, alloc, table, number)?;
    }
    Ok(out)
}

/// Returns the declarations and the type of a question, if they are accepted.
pub fn accepted(alloc: Global, question: &str) -> Option<(List<Decl>, Ty)>
    ensures well { IfSome result (λ both. AreWellFormed both.0) }
    ensures sound { IfSome result (λ both. IsSoundType both.0 both.1) }
{
    let Some((ty, text)) = question.split_once(" over ") else {
        return None;
    };
    let Ok(decls) = read_decls(alloc, text.as_bytes()) else {
        return None;
    };
    let Ok(ty) = read_type(alloc, decls.as_slice(), ty.as_bytes()) else {
        return None;
    };
    Some((decls, ty))
}

// Returns the results of the calls for types that are given as trees. The results are the expansion
// of the type, whether its values are flat float arrays, and which declarations are flat float
// records.
fn written_lines(alloc: Global, decls: &[Decl], t: &Ty) -> Result<Vec<u8>, Memory>
    requires { AreSound decls.now }
{
    let environment = SoundEnvironment::new(alloc, decls)?;
    lines_in(alloc, &environment, t)
}

// Returns the lines of `written_lines`, given the environment of the declarations.
fn lines_in(alloc: Global, decls: &SoundEnvironment<'_>, t: &Ty) -> Result<Vec<u8>, Memory> {
    let mut out = Vec::new(alloc);
    let whole = expand(alloc, decls, t)?;
    write(&mut out, b"expands to ")?;
    write_type(&mut out, alloc, whole.nodes())?;
    write(&mut out, b"\n")?;
    if let ShapeOf::FlatFloats(_, _) = shape(alloc, decls, t)? {
        write(&mut out, b"lies flat\n")?;
    }
    for decl in decls.all() {
        if flat_float(alloc, decls, decl)? {
            write(&mut out, b"a flat record: ")?;
            write(&mut out, decl.name.as_slice())?;
            write(&mut out, b"\n")?;
        }
    }
    Ok(out)
}

/// Prints the table of `TYPE over TEXT`.
pub fn answer(rt: &HostRuntime, question: &str) -> io::Result<()> {
    let alloc = rt.alloc();
    let Some((decls, ty)) = accepted(alloc, question) else {
        return Err(ErrorKind::InvalidInput.into());
    };
    let Ok(written) = written_lines(alloc, decls.as_slice(), &ty) else {
        return Err(ErrorKind::OutOfMemory.into());
    };
    rt.stdout().write_all(written.as_slice())?;
    match build(alloc, decls.as_slice(), &ty) {
        Ok(table) => {
            let Ok(lines) = lines_of(alloc, &table) else {
                return Err(ErrorKind::OutOfMemory.into());
            };
            rt.stdout().write_all(lines.as_slice())
        }
        Err(TypeFault::TooManyTypes) => println!(rt; "TooManyTypes"),
        Err(TypeFault::Memory) => Err(ErrorKind::OutOfMemory.into()),
    }
}
