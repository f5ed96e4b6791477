//! One step of the parser on a lexeme outside of types.

ghost use Rattle.std.specs.Prelude.{◌≡◌, ◌++◌, ◌∷◌, [], Some, length, IfOk};
ghost use Rattle.types_parse.specs.declared.parse.declarations_so_far.FilePhase.TheVariants as files;
ghost use Rattle.types_parse.specs.parse.FileCode.{decl_code, after_decl_code, after_constr_code};
ghost use Rattle.types_parse.specs.parse.FileCode.{after_record_code, after_field_code};
ghost use Rattle.types_parse.specs.parse.FileCode.{listed_code};
ghost use Rattle.types_parse.specs.parse.FileCode.{after_type_code, begin_file_code};
ghost use Rattle.types_parse.specs.parse.FileCode.{begin_decl_code};
ghost use Rattle.types_parse.specs.parse.FileCode.{take_param_code, after_param_code};
ghost use Rattle.types_parse.specs.parse.FileCode.{take_decl_name_code};
ghost use Rattle.types_parse.specs.parse.FileCode.{take_equals_code, take_upper_code};
ghost use Rattle.types_parse.specs.parse.FileCode.{after_upper_code};
ghost use Rattle.types_parse.specs.parse.FileCode.{close_record_code, begin_field_code};
ghost use Rattle.types_parse.specs.parse.FileCode.{take_field_name_code, take_colon_code};

use crate::parse::declarations_so_far::{
    Around, Constructors, Declared, Fields, FilePhase, Group, RecordOf,
};
use crate::parse::open::ParsePhase;
use base_data::model::Memory;
use base_data::model::list::List;
use base_data::text::copied_name;
use std::alloc::Global;
use types_lex::lexeme::{Keyword, LexemeKind, Symbol};
use types_spec::types::decl::{Arguments, Body, Constructor, Decl, Field};
use types_spec::types::ty::Ty;

/// Appends a declaration.
pub fn with_decl(mut decls: List<Decl>, decl: Decl) -> Result<List<Decl>, Memory>
    ensures { IfOk result (λ all. all ≡ decls ++ decl ∷ []) }
{
    decls.push(decl)?;
    Ok(decls)
}

/// Returns the group that begins after these declarations.
fn group_after(decls: List<Decl>) -> Group
    ensures { result ≡ record { decls = decls; group = length decls } }
{
    let group = decls.len();
    Group { decls, group }
}

/// Returns the phase after a declaration and the lexeme `kind`, or `None` on a syntax error.
fn after_decl(group: Group, decl: Decl, kind: &LexemeKind) -> Result<Option<FilePhase>, Memory>
    ensures { IfOk result (λ phase. phase ≡ after_decl_code group decl kind.now) }
{
    let Group { decls, group } = group;
    let decls = with_decl(decls, decl)?;
    match kind {
        LexemeKind::Keyword(Keyword::And) => Ok(Some(FilePhase::DeclDue(Group { decls, group }))),
        LexemeKind::Keyword(Keyword::Type) => Ok(Some(FilePhase::DeclDue(group_after(decls)))),
        LexemeKind::Symbol(Symbol::DoubleSemicolon) => Ok(Some(FilePhase::FileDue(decls))),
        _ => Ok(None),
    }
}

/// Returns the declaration with this body, and the group to which the declaration belongs.
pub fn decl_with(declared: Declared, body: Body) -> (Group, Decl)
    ensures { result ≡ (declared.group, decl_code declared body) }
{
    let Declared {
        group,
        parameters,
        name,
    } = declared;
    let number = group.group;
    let decl = Decl {
        name,
        parameters,
        body,
        group: number,
    };
    (group, decl)
}

/// Returns the phase after a body and the next lexeme, or `None` on a syntax error.
fn after_body(
    declared: Declared,
    body: Body,
    kind: &LexemeKind,
) -> Result<Option<FilePhase>, Memory>
    ensures { IfOk result
        (λ phase. phase ≡ after_decl_code declared.group (decl_code declared body) kind.now) }
{
    let (group, decl) = decl_with(declared, body);
    after_decl(group, decl, kind)
}

/// Returns the phase after a constructor and the lexeme `kind`, or `None` on a syntax error.
fn after_constr(
    constructors: Constructors,
    constructor: Constructor,
    kind: &LexemeKind,
) -> Result<Option<FilePhase>, Memory>
    ensures { IfOk result (λ phase. phase ≡ after_constr_code constructors constructor kind.now) }
{
    let Constructors {
        declared,
        mut constructors,
    } = constructors;
    constructors.push(constructor)?;
    match kind {
        LexemeKind::Symbol(Symbol::Bar) => Ok(Some(FilePhase::ConstrDue(Constructors {
            declared,
            constructors,
        }))),
        _ => after_body(declared, Body::Variant(constructors), kind),
    }
}

/// Returns the phase after a record and the lexeme `kind`, or `None` on a syntax error.
pub fn after_record(fields: Fields, kind: &LexemeKind) -> Result<Option<FilePhase>, Memory>
    ensures { IfOk result
        (λ phase. phase ≡ after_record_code fields.position fields.fields kind.now) }
{
    let Fields { position, fields } = fields;
    match position {
        RecordOf::Body(declared) => after_body(declared, Body::Record(fields), kind),
        RecordOf::Inline(constructors, name) => after_constr(
            constructors,
            Constructor {
                name,
                arguments: Arguments::Inline(fields),
            },
            kind,
        ),
    }
}

/// Returns the phase after a field and the lexeme `kind`, or `None` on a syntax error.
fn after_field(fields: Fields, field: Field, kind: &LexemeKind) -> Result<Option<FilePhase>, Memory>
    ensures { IfOk result (λ phase. phase ≡ after_field_code fields field kind.now) }
{
    let Fields {
        position,
        mut fields,
    } = fields;
    fields.push(field)?;
    match kind {
        LexemeKind::Symbol(Symbol::Semicolon) => Ok(Some(FilePhase::FieldDue(Fields {
            position,
            fields,
        }))),
        LexemeKind::Symbol(Symbol::CloseBrace) => Ok(Some(FilePhase::RecordRead(Fields {
            position,
            fields,
        }))),
        _ => Ok(None),
    }
}

/// Returns the phase after an argument of a constructor and the lexeme `kind`, or `None` on a
/// syntax error.
fn after_argument(
    constructors: Constructors,
    name: List<u8>,
    types: List<Ty>,
    kind: &LexemeKind,
) -> Result<Option<FilePhase>, Memory>
    ensures { IfOk result (λ phase. phase ≡ listed_code constructors name types kind.now) }
{
    match kind {
        LexemeKind::Symbol(Symbol::Star) => Ok(Some(FilePhase::InType(
            Around::Argument(constructors, name, types),
            ParsePhase::Due,
        ))),
        _ => after_constr(
            constructors,
            Constructor {
                name,
                arguments: Arguments::Listed(types),
            },
            kind,
        ),
    }
}

/// Returns the phase after a complete type and the lexeme `kind`, or `None` on a syntax error.
pub fn after_type(around: Around, ty: Ty, kind: &LexemeKind) -> Result<Option<FilePhase>, Memory>
    ensures { IfOk result (λ phase. phase ≡ after_type_code around ty kind.now) }
{
    match around {
        Around::Body(declared) => after_body(declared, Body::Abbreviation(ty), kind),
        Around::Field(fields, mutable, name) => after_field(
            fields,
            Field { name, mutable, ty },
            kind,
        ),
        Around::Argument(constructors, name, mut types) => {
            types.push(ty)?;
            after_argument(constructors, name, types, kind)
        }
    }
}

/// Parses the first lexeme of a group. Returns `None` unless it is the keyword `type`.
pub fn begin_file(decls: List<Decl>, kind: &LexemeKind) -> Option<FilePhase>
    ensures { result ≡ begin_file_code decls kind.now }
{
    match kind {
        LexemeKind::Keyword(Keyword::Type) => Some(FilePhase::DeclDue(group_after(decls))),
        _ => None,
    }
}

/// Returns a list of one name.
fn one(alloc: Global, name: &List<u8>) -> Result<List<List<u8>>, Memory>
    ensures { IfOk result (λ all. all ≡ name.now ∷ []) }
{
    let mut names = List::new(alloc);
    names.push(copied_name(alloc, name)?)?;
    Ok(names)
}

/// Parses the first lexeme of a declaration. Returns `None` on a syntax error.
pub fn begin_decl(
    alloc: Global,
    group: Group,
    kind: &LexemeKind,
) -> Result<Option<FilePhase>, Memory>
    ensures { IfOk result (λ phase. phase ≡ begin_decl_code group kind.now) }
{
    match kind {
        LexemeKind::Variable(name) => Ok(Some(FilePhase::ParamsRead(group, one(alloc, name)?))),
        LexemeKind::Symbol(Symbol::OpenParen) => Ok(Some(FilePhase::ParamDue(
            group,
            List::new(alloc),
        ))),
        LexemeKind::Lower(name) => Ok(Some(FilePhase::NameRead(Declared {
            group,
            parameters: List::new(alloc),
            name: copied_name(alloc, name)?,
        }))),
        _ => Ok(None),
    }
}

/// Parses a type parameter in parentheses. Returns `None` on a syntax error.
pub fn take_param(
    alloc: Global,
    group: Group,
    mut parameters: List<List<u8>>,
    kind: &LexemeKind,
) -> Result<Option<FilePhase>, Memory>
    ensures { IfOk result (λ phase. phase ≡ take_param_code group parameters kind.now) }
{
    match kind {
        LexemeKind::Variable(name) => {
            parameters.push(copied_name(alloc, name)?)?;
            Ok(Some(FilePhase::ParamRead(group, parameters)))
        }
        _ => Ok(None),
    }
}

/// Parses the comma or closing parenthesis after a type parameter. Returns `None` on a syntax
/// error.
pub fn after_param(group: Group, parameters: List<List<u8>>, kind: &LexemeKind) -> Option<FilePhase>
    ensures { result ≡ after_param_code group parameters kind.now }
{
    match kind {
        LexemeKind::Symbol(Symbol::Comma) => Some(FilePhase::ParamDue(group, parameters)),
        LexemeKind::Symbol(Symbol::CloseParen) => Some(FilePhase::ParamsRead(group, parameters)),
        _ => None,
    }
}

/// Parses the name of a declaration with parameters. Returns `None` on a syntax error.
pub fn take_decl_name(
    alloc: Global,
    group: Group,
    parameters: List<List<u8>>,
    kind: &LexemeKind,
) -> Result<Option<FilePhase>, Memory>
    ensures { IfOk result (λ phase. phase ≡ take_decl_name_code group parameters kind.now) }
{
    match kind {
        LexemeKind::Lower(name) => Ok(Some(FilePhase::NameRead(Declared {
            group,
            parameters,
            name: copied_name(alloc, name)?,
        }))),
        _ => Ok(None),
    }
}

/// Parses the equals sign after a declaration's name. Returns `None` on a syntax error.
pub fn take_equals(declared: Declared, kind: &LexemeKind) -> Option<FilePhase>
    ensures { result ≡ take_equals_code declared kind.now }
{
    match kind {
        LexemeKind::Symbol(Symbol::Equals) => Some(FilePhase::BodyDue(declared)),
        _ => None,
    }
}

/// Parses the name of a constructor after a bar. Returns `None` on a syntax error.
pub fn take_upper(
    alloc: Global,
    constructors: Constructors,
    kind: &LexemeKind,
) -> Result<Option<FilePhase>, Memory>
    ensures { IfOk result (λ phase. phase ≡ take_upper_code constructors kind.now) }
{
    match kind {
        LexemeKind::Upper(name) => Ok(Some(FilePhase::UpperRead(
            constructors,
            copied_name(alloc, name)?,
        ))),
        _ => Ok(None),
    }
}

/// Parses the lexeme after the name of a constructor. Returns `None` on a syntax error.
pub fn after_upper(
    constructors: Constructors,
    name: List<u8>,
    kind: &LexemeKind,
) -> Result<Option<FilePhase>, Memory>
    ensures { IfOk result (λ phase. phase ≡ after_upper_code constructors name kind.now) }
{
    match kind {
        LexemeKind::Keyword(Keyword::Of) => Ok(Some(FilePhase::OfRead(constructors, name))),
        _ => after_constr(
            constructors,
            Constructor {
                name,
                arguments: Arguments::Constant,
            },
            kind,
        ),
    }
}

/// Returns the phase after a field's name.
fn field_named(
    alloc: Global,
    fields: Fields,
    mutable: bool,
    name: &List<u8>,
) -> Result<Option<FilePhase>, Memory>
    ensures { IfOk result (λ phase. phase ≡ Some (files.FieldNamed fields mutable name.now)) }
{
    let name = copied_name(alloc, name)?;
    Ok(Some(FilePhase::FieldNamed(fields, mutable, name)))
}

/// Parses the first lexeme of a field, or the closing brace after a semicolon. Returns `None` on a
/// syntax error.
pub fn begin_field(
    alloc: Global,
    fields: Fields,
    kind: &LexemeKind,
) -> Result<Option<FilePhase>, Memory>
    ensures { IfOk result (λ phase. phase ≡ begin_field_code fields kind.now) }
{
    match kind {
        LexemeKind::Keyword(Keyword::Mutable) => Ok(Some(FilePhase::MutableRead(fields))),
        LexemeKind::Lower(name) => field_named(alloc, fields, false, name),
        LexemeKind::Symbol(Symbol::CloseBrace) => Ok(close_record(fields)),
        _ => Ok(None),
    }
}

/// Returns the phase after a closing brace at a position where a field may begin. Returns `None` if
/// the record has no field.
fn close_record(fields: Fields) -> Option<FilePhase>
    ensures { result ≡ close_record_code fields fields.fields }
{
    match fields.fields.as_slice() {
        [] => None,
        _ => Some(FilePhase::RecordRead(fields)),
    }
}

/// Parses the name of a mutable field. Returns `None` on a syntax error.
pub fn take_field_name(
    alloc: Global,
    fields: Fields,
    kind: &LexemeKind,
) -> Result<Option<FilePhase>, Memory>
    ensures { IfOk result (λ phase. phase ≡ take_field_name_code fields kind.now) }
{
    match kind {
        LexemeKind::Lower(name) => field_named(alloc, fields, true, name),
        _ => Ok(None),
    }
}

/// Parses the colon after a field's name. Returns `None` on a syntax error.
pub fn take_colon(
    fields: Fields,
    mutable: bool,
    name: List<u8>,
    kind: &LexemeKind,
) -> Option<FilePhase>
    ensures { result ≡ take_colon_code fields mutable name kind.now }
{
    match kind {
        LexemeKind::Symbol(Symbol::Colon) => Some(FilePhase::InType(
            Around::Field(fields, mutable, name),
            ParsePhase::Due,
        )),
        _ => None,
    }
}
