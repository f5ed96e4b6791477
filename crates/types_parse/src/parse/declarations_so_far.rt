//! The state of the parser while declarations are read.

use crate::parse::open::ParsePhase;
use base_data::model::list::List;
use types_spec::types::decl::{Constructor, Decl, Field};
use types_spec::types::ty::Ty;

/// The declarations read so far, and the number of declarations before the current group.
#[derive(Drop)]
pub struct Group {
    pub decls: List<Decl>,
    pub group: usize,
}

/// A declaration whose body is being read.
#[derive(Drop)]
pub struct Declared {
    pub group: Group,
    pub parameters: List<List<u8>>,
    pub name: List<u8>,
}

/// A variant type whose constructors are being read.
#[derive(Drop)]
pub struct Constructors {
    pub declared: Declared,
    pub constructors: List<Constructor>,
}

/// The owner of a record: a declaration, or a constructor with its name, directly after the keyword
/// `of`.
#[derive(Drop)]
pub enum RecordOf {
    Body(Declared),
    Inline(Constructors, List<u8>),
}

/// A record whose fields are being read.
#[derive(Drop)]
pub struct Fields {
    pub position: RecordOf,
    pub fields: List<Field>,
}

/// The construct that directly contains the type that is being read.
#[derive(Drop)]
pub enum Around {
    Body(Declared),
    Field(Fields, bool, List<u8>),
    /// An argument of a constructor: the constructors before it, the constructor's name, and the
    /// constructor's arguments read so far.
    Argument(Constructors, List<u8>, List<Ty>),
}

/// What the parser of files read last.
#[derive(Drop)]
pub enum FilePhase {
    FileDue(List<Decl>),
    DeclDue(Group),
    ParamDue(Group, List<List<u8>>),
    ParamRead(Group, List<List<u8>>),
    ParamsRead(Group, List<List<u8>>),
    NameRead(Declared),
    BodyDue(Declared),
    ConstrDue(Constructors),
    UpperRead(Constructors, List<u8>),
    OfRead(Constructors, List<u8>),
    FieldDue(Fields),
    MutableRead(Fields),
    FieldNamed(Fields, bool, List<u8>),
    RecordRead(Fields),
    InType(Around, ParsePhase),
}
