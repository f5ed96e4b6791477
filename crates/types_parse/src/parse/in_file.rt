//! One step of the parser on a lexeme of a file.

ghost use Rattle.std.specs.Prelude.{List as Seq, ◌≡◌, Option, Some, None, Result, Ok, Err};
ghost use Rattle.types_parse.specs.declared.parse.open.OpenConstruct.{OpenConstruct as AFrame};
ghost use Rattle.types_parse.specs.parse.TypeCode.{begin_code, step_code};
ghost use Rattle.types_parse.specs.declared.parse.declarations_so_far.FilePhase.TheVariants as files;
ghost use Rattle.types_parse.specs.parse.FileCode.{is_argument, in_type_code, begin_body_code};
ghost use Rattle.types_parse.specs.parse.FileCode.{begin_arguments_code, file_step_code};
ghost use Rattle.types_parse.specs.parse.FileCode.{file_depth_code};
ghost use Rattle.types_parse.specs.parse.FileCode.{after_step, FileSteps};
ghost use Rattle.types_parse.specs.parse.FileShown.{IsReadable, IfEnded};

use crate::parse::declarations_so_far::{
    Around, Constructors, Declared, Fields, FilePhase, RecordOf,
};
use crate::parse::file_step::{
    after_param, after_record, after_type, after_upper, begin_decl, begin_field, begin_file,
    take_colon, take_decl_name, take_equals, take_field_name, take_param, take_upper,
};
use crate::parse::open::{ParsePhase, TypeStep};
use crate::parse::open_depth::depth;
use crate::parse::parse_stack::ParseStack;
use crate::parse::type_step::TypeSoFar;
use base_data::model::Memory;
use base_data::model::list::List;
use base_data::text::copied_name;
use std::alloc::Global;
use std::mem;
use types_lex::lexeme::{LexemeKind, Symbol};
use types_spec::types::ty::{Ty, TypeTreeNode};

/// The phase of a file after a lexeme, or `None` if no file continues with the lexeme.
type NextPhase = Result<Option<FilePhase>, Memory>;

/// Returns the phase of the file after a step of the type parser, or `None` on a syntax error.
fn after_type_step(
    alloc: Global,
    nodes: &mut Vec<TypeTreeNode>,
    around: Around,
    step: TypeStep,
    kind: &LexemeKind,
) -> NextPhase
    requires { IfEnded step nodes.old.items }
    ensures { (fs : Seq AFrame)
        → FileSteps result nodes.new.items fs (after_step around kind.now fs step nodes.old.items) }
{
    match step {
        TypeStep::Goes(phase) => Ok(Some(FilePhase::InType(around, phase))),
        TypeStep::Ended => {
            let ty = Ty::of(mem::replace(nodes, Vec::new(alloc)));
            after_type(around, ty, kind)
        }
        TypeStep::Stops => {
            drop(around);
            Ok(None)
        }
    }
}

/// Parses the first lexeme of a type. Returns `None` on a syntax error.
fn begin_type(alloc: Global, so_far: &mut TypeSoFar, around: Around, kind: &LexemeKind) -> NextPhase
    ensures { FileSteps result so_far.new.nodes.items so_far.new.frames
        (in_type_code around kind.now
        (begin_code so_far.old.nodes.items so_far.old.frames kind.now)) }
{
    match so_far.begin(alloc, kind) {
        Ok(step) => after_type_step(alloc, &mut so_far.nodes, around, step, kind),
        Err(Memory) => {
            drop(around);
            Err(Memory)
        }
    }
}

/// Returns true if the type is an argument of a constructor, which cannot be a tuple.
fn is_argument(around: &Around) -> bool
    ensures { result ≡ is_argument around.now }
{
    matches!(around, Around::Argument(_, _, _))
}

/// Parses one lexeme of a file while a type is being read. Returns `None` on a syntax error.
fn in_type(
    alloc: Global,
    so_far: &mut TypeSoFar,
    around: Around,
    phase: ParsePhase,
    kind: &LexemeKind,
) -> NextPhase
    requires { IsReadable so_far.old.nodes.items so_far.old.frames (files.InType around phase) }
    ensures { FileSteps result so_far.new.nodes.items so_far.new.frames
        (in_type_code around kind.now
        (step_code (is_argument around) so_far.old.nodes.items so_far.old.frames phase kind.now)) }
{
    match so_far.step(alloc, is_argument(&around), phase, kind) {
        Ok(step) => after_type_step(alloc, &mut so_far.nodes, around, step, kind),
        Err(Memory) => {
            drop(around);
            Err(Memory)
        }
    }
}

/// Parses the first lexeme of a declaration's body. Returns `None` on a syntax error.
fn begin_body(
    alloc: Global,
    so_far: &mut TypeSoFar,
    declared: Declared,
    kind: &LexemeKind,
) -> NextPhase
    ensures { FileSteps result so_far.new.nodes.items so_far.new.frames
        (begin_body_code so_far.old.nodes.items so_far.old.frames declared kind.now) }
{
    match kind {
        LexemeKind::Symbol(Symbol::OpenBrace) => Ok(Some(FilePhase::FieldDue(Fields {
            position: RecordOf::Body(declared),
            fields: List::new(alloc),
        }))),
        LexemeKind::Symbol(Symbol::Bar) => Ok(Some(FilePhase::ConstrDue(Constructors {
            declared,
            constructors: List::new(alloc),
        }))),
        LexemeKind::Upper(name) => Ok(Some(FilePhase::UpperRead(
            Constructors {
                declared,
                constructors: List::new(alloc),
            },
            copied_name(alloc, name)?,
        ))),
        _ => begin_type(alloc, so_far, Around::Body(declared), kind),
    }
}

/// Parses the first lexeme of a constructor's arguments. Returns `None` on a syntax error.
fn begin_arguments(
    alloc: Global,
    so_far: &mut TypeSoFar,
    constructors: Constructors,
    name: List<u8>,
    kind: &LexemeKind,
) -> NextPhase
    ensures { FileSteps result so_far.new.nodes.items so_far.new.frames
        (begin_arguments_code so_far.old.nodes.items so_far.old.frames constructors name kind.now) }
{
    match kind {
        LexemeKind::Symbol(Symbol::OpenBrace) => Ok(Some(FilePhase::FieldDue(Fields {
            position: RecordOf::Inline(constructors, name),
            fields: List::new(alloc),
        }))),
        _ => begin_type(
            alloc,
            so_far,
            Around::Argument(constructors, name, List::new(alloc)),
            kind,
        ),
    }
}

/// Parses one lexeme of a file and returns the next phase. Returns `None` if no file continues with
/// this lexeme.
pub fn file_step(
    alloc: Global,
    so_far: &mut TypeSoFar,
    phase: FilePhase,
    kind: &LexemeKind,
) -> NextPhase
    requires { IsReadable so_far.old.nodes.items so_far.old.frames phase }
    ensures { FileSteps result so_far.new.nodes.items so_far.new.frames
        (file_step_code so_far.old.nodes.items so_far.old.frames phase kind.now) }
{
    match phase {
        FilePhase::FileDue(decls) => Ok(begin_file(decls, kind)),
        FilePhase::DeclDue(group) => begin_decl(alloc, group, kind),
        FilePhase::ParamDue(group, parameters) => take_param(alloc, group, parameters, kind),
        FilePhase::ParamRead(group, parameters) => Ok(after_param(group, parameters, kind)),
        FilePhase::ParamsRead(group, parameters) => take_decl_name(alloc, group, parameters, kind),
        FilePhase::NameRead(declared) => Ok(take_equals(declared, kind)),
        FilePhase::BodyDue(declared) => begin_body(alloc, so_far, declared, kind),
        FilePhase::ConstrDue(constructors) => take_upper(alloc, constructors, kind),
        FilePhase::UpperRead(constructors, name) => after_upper(constructors, name, kind),
        FilePhase::OfRead(constructors, name) => begin_arguments(
            alloc,
            so_far,
            constructors,
            name,
            kind,
        ),
        FilePhase::FieldDue(fields) => begin_field(alloc, fields, kind),
        FilePhase::MutableRead(fields) => take_field_name(alloc, fields, kind),
        FilePhase::FieldNamed(fields, mutable, name) => Ok(take_colon(fields, mutable, name, kind)),
        FilePhase::RecordRead(fields) => after_record(fields, kind),
        FilePhase::InType(around, phase) => in_type(alloc, so_far, around, phase, kind),
    }
}

/// Returns the depth of the deepest type that ends at the last lexeme. Depths above 200 are
/// returned as 201.
pub fn file_depth(frames: &ParseStack, phase: &FilePhase) -> usize
    ensures { result ≡ file_depth_code frames.now phase.now }
{
    match phase {
        FilePhase::InType(_, phase) => depth(frames, phase),
        _ => 0,
    }
}
