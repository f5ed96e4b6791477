//! Defines a literal's nodes.

/// The form of a node. The form and the node's lexemes determine the node's value.
#[derive(Clone, Copy)]
pub enum NodeForm {
    Integer,
    Character,
    Text,
    Double,
    Truth,
    Unit,
    /// A name, alone or with arguments.
    Named,
    /// Fields, with or without a name before them.
    Fields,
    Tuple,
    Array,
    /// A reference to a label.
    Again,
}

/// A node: its form, its label or the label to which it refers, the index of its first lexeme, and
/// the number of its parts.
#[derive(Clone, Copy)]
pub struct LiteralNode {
    pub form: NodeForm,
    pub label: Option<u64>,
    pub first: usize,
    pub parts: usize,
}
