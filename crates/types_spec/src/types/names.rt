//! The constructor, field and tag names of a type.

use base_data::model::list::List;

/// The name of a constructor with arguments, and the field names of the constructor's inline
/// record. If the constructor has no inline record, `fields` is empty.
#[derive(Drop)]
pub struct ConstrNames {
    pub name: List<u8>,
    pub fields: List<List<u8>>,
}

/// A tag of a polymorphic variant, without its backquote, and its hash.
#[derive(Drop)]
pub struct TagName {
    pub name: List<u8>,
    pub hash: i64,
}

/// The names that a type declares: constant constructors, constructors with arguments, fields of a
/// record, and tags. Each list has the order of the declaration.
#[derive(Drop)]
pub struct Names {
    pub constants: List<List<u8>>,
    pub constructors: List<ConstrNames>,
    pub fields: List<List<u8>>,
    pub tags: List<TagName>,
}
