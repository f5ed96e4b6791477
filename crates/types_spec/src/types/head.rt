//! The heads of types after all abbreviations at the head are expanded. The definitions are generic
//! in the type of a head's parts.

use crate::types::decl::Predeclared;
use base_data::model::list::List;

/// A tag of a polymorphic variant, without its backquote, and the type of its argument.
#[derive(Drop)]
pub struct TagOf<T> {
    pub name: List<u8>,
    pub argument: Option<T>,
}

/// The head of a type after its abbreviations are expanded, with the parts of the head.
#[derive(Drop)]
pub enum HeadOf<T> {
    Variable(List<u8>),
    Predeclared(Predeclared, List<T>),
    /// A declared record or variant, and its arguments.
    Datatype(List<u8>, List<T>),
    Tuple(List<T>),
    /// The tags of a polymorphic variant. If the variant includes a type, the tags of the included
    /// type stand at the position of the inclusion.
    Variants(List<TagOf<T>>),
    /// The result for a type that has no head. Over accepted declarations, every type has a head.
    Absent,
}
