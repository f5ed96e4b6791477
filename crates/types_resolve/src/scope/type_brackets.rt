//! The brackets (polymorphic variant types) of a type, by node.

use base_data::model::list::List;
use types_spec::types::ty::TypeTreeNode;

/// An item of a bracket. The node of an item is the bracket that ends with the item.
#[derive(Clone, Copy)]
pub struct BracketItem {
    /// Index of the first lexeme of the item.
    pub position: usize,
    pub node: usize,
}

/// The brackets of a type, given by nodes of the type.
#[derive(Drop)]
pub struct TypeBrackets<'a> {
    /// All nodes of the type.
    pub nodes: &'a [TypeTreeNode],
    /// The items of each bracket in the type.
    pub brackets: List<List<BracketItem>>,
}
