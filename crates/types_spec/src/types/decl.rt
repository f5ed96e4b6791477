//! Declarations of types, as plain data.

use crate::types::ty::Ty;
use base_data::model::list::List;

/// A predeclared type, whose name is known in every file: a type with a representation of its own,
/// or the variant in a row of the table of predeclared types.
#[derive(Clone, Copy, Debug, PartialEq, Eq)]
pub enum Predeclared {
    Int,
    Char,
    Bool,
    Unit,
    String,
    Bytes,
    Float,
    Int32,
    Int64,
    Nativeint,
    Floatarray,
    Array,
    /// The wildcard type `_`, which every value has.
    Any,
    /// The variant in the row with this number.
    Sum(usize),
}

/// A field of a record.
#[derive(Drop)]
pub struct Field {
    pub name: List<u8>,
    pub mutable: bool,
    pub ty: Ty,
}

/// The arguments after a constructor's `of`: none, a list of types, or the fields of an inline
/// record.
#[derive(Drop)]
pub enum Arguments {
    Constant,
    Listed(List<Ty>),
    Inline(List<Field>),
}

/// A constructor of a variant.
#[derive(Drop)]
pub struct Constructor {
    pub name: List<u8>,
    pub arguments: Arguments,
}

/// The body of a declaration, which states what a declared name means.
#[derive(Drop)]
pub enum Body {
    Abbreviation(Ty),
    Record(List<Field>),
    Variant(List<Constructor>),
}

/// A declaration. `group` is the number of declarations before the declaration's group of mutually
/// recursive declarations.
#[derive(Drop)]
pub struct Decl {
    pub name: List<u8>,
    pub parameters: List<List<u8>>,
    pub body: Body,
    pub group: usize,
}

/// The declarations of a file, in the order of the file.
pub type Decls = List<Decl>;
