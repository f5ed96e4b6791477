//! The node of one type, in two forms: `StoredNode` as the store keeps it, and `TypeNode` as
//! callers read it.

/// A stored node: its name and its parts are numbers.
#[derive(Clone, Copy, PartialEq, Eq, Hash)]
pub enum StoredNode {
    Variable(usize),
    Named(usize),
    Tuple,
    Bracket,
    Part(usize, usize),
    Tag(usize, usize),
    TagOf(usize, usize, usize),
    Including(usize, usize),
}

/// The node of a type, as callers read it: the name is borrowed, and parts are numbers of earlier
/// types.
#[derive(Clone, Copy)]
pub enum TypeNode<'a> {
    /// A type variable, without its quote.
    Variable(&'a [u8]),
    Named(&'a [u8]),
    Tuple,
    Bracket,
    /// A type with one more argument or component.
    Part(usize, usize),
    /// A polymorphic variant type with one more tag, without the tag's backquote.
    Tag(usize, &'a [u8]),
    /// A polymorphic variant type with one more tag that has an argument.
    TagOf(usize, &'a [u8], usize),
    /// A polymorphic variant type that includes one more type.
    Including(usize, usize),
}
