//! The last step of the file parser, after the last lexeme of the file.

ghost use Rattle.std.specs.Prelude.{◌≡◌, IfOk};
ghost use Rattle.types_parse.specs.declared.parse.declarations_so_far.FilePhase.TheVariants as files;
ghost use Rattle.types_parse.specs.parse.TypeCode.{whole_code};
ghost use Rattle.types_parse.specs.parse.FileCode.{more_decls, decl_code, closed_constr_code};
ghost use Rattle.types_parse.specs.parse.FileCode.{closed_record_code, closed_type_code};
ghost use Rattle.types_parse.specs.parse.FileCode.{in_type_whole};
ghost use Rattle.types_parse.specs.parse.FileCode.{file_whole_code};
ghost use Rattle.types_parse.specs.parse.FileShown.{IsReadable};

use crate::parse::declarations_so_far::{
    Around, Constructors, Declared, Fields, FilePhase, RecordOf,
};
use crate::parse::file_step::{decl_with, with_decl};
use crate::parse::open::ParsePhase;
use crate::parse::open_depth::whole;
use crate::parse::type_step::TypeSoFar;
use base_data::model::Memory;
use base_data::model::list::List;
use types_spec::types::decl::{Arguments, Body, Constructor, Decl};
use types_spec::types::ty::Ty;

/// Returns all declarations of the file, where the last declaration has this body.
fn closed_body(declared: Declared, body: Body) -> Result<List<Decl>, Memory>
    ensures { IfOk result (λ all. all ≡ more_decls declared.group (decl_code declared body)) }
{
    let (group, decl) = decl_with(declared, body);
    with_decl(group.decls, decl)
}

/// Returns all declarations of the file, where the last variant type ends with this constructor.
fn closed_constr(constructors: Constructors, constructor: Constructor) -> Result<List<Decl>, Memory>
    ensures { IfOk result (λ all. all ≡ closed_constr_code constructors constructor) }
{
    let Constructors {
        declared,
        mut constructors,
    } = constructors;
    constructors.push(constructor)?;
    closed_body(declared, Body::Variant(constructors))
}

/// Returns all declarations of the file, which ends with this record.
fn closed_record(fields: Fields) -> Result<List<Decl>, Memory>
    ensures { IfOk result (λ all. all ≡ closed_record_code fields.position fields.fields) }
{
    let Fields { position, fields } = fields;
    match position {
        RecordOf::Body(declared) => closed_body(declared, Body::Record(fields)),
        RecordOf::Inline(constructors, name) => closed_constr(
            constructors,
            Constructor {
                name,
                arguments: Arguments::Inline(fields),
            },
        ),
    }
}

/// Returns all declarations of the file, which ends with this type. Returns `None` if a record is
/// open.
fn closed_type(around: Around, ty: Ty) -> Result<Option<List<Decl>>, Memory>
    ensures { IfOk result (λ all. all ≡ closed_type_code around ty) }
{
    match around {
        Around::Body(declared) => Ok(Some(closed_body(declared, Body::Abbreviation(ty))?)),
        Around::Argument(constructors, name, mut types) => {
            types.push(ty)?;
            let constructor = Constructor {
                name,
                arguments: Arguments::Listed(types),
            };
            Ok(Some(closed_constr(constructors, constructor)?))
        }
        Around::Field(fields, _, _) => {
            drop(fields);
            Ok(None)
        }
    }
}

/// Returns all declarations of the file, if the file ends while a type is being read. Returns
/// `None` if the type cannot end after the last lexeme.
fn closed_in_type(
    mut so_far: TypeSoFar,
    around: Around,
    phase: ParsePhase,
) -> Result<Option<List<Decl>>, Memory>
    requires { IsReadable so_far.nodes.items so_far.frames (files.InType around phase) }
    ensures { IfOk result
        (λ all. all ≡ in_type_whole around
        (whole_code so_far.nodes.items so_far.frames phase)) }
{
    match whole(&mut so_far, phase) {
        Ok(true) => closed_type(around, Ty::of(so_far.nodes)),
        Ok(false) => {
            drop(around);
            Ok(None)
        }
        Err(Memory) => {
            drop(around);
            Err(Memory)
        }
    }
}

/// Returns the declarations of the file. Returns `None` if the file cannot end in this phase; the
/// syntax error is then at the end of the file. Fails only if memory runs out.
pub fn file_whole(so_far: TypeSoFar, phase: FilePhase) -> Result<Option<List<Decl>>, Memory>
    requires { IsReadable so_far.nodes.items so_far.frames phase }
    ensures { IfOk result
        (λ all. all ≡ file_whole_code so_far.nodes.items so_far.frames phase) }
{
    match phase {
        FilePhase::FileDue(decls) => Ok(Some(decls)),
        FilePhase::UpperRead(constructors, name) => {
            let constructor = Constructor {
                name,
                arguments: Arguments::Constant,
            };
            Ok(Some(closed_constr(constructors, constructor)?))
        }
        FilePhase::RecordRead(fields) => Ok(Some(closed_record(fields)?)),
        FilePhase::InType(around, phase) => closed_in_type(so_far, around, phase),
        other => {
            drop(other);
            Ok(None)
        }
    }
}
