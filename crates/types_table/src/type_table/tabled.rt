//! The contents of a table of types.

use crate::store::TypeStore;
use base_data::model::list::List;
use types_spec::types::names::Names;
use types_spec::types::shape::ShapeOf;

/// The types that a type reaches, numbered in the order in which they are met. The type for which
/// the table was made has the number 0.
#[derive(Drop)]
pub struct Tabled {
    /// The store that holds the types.
    pub store: TypeStore,
    /// The number of each type in the store.
    pub stored: List<usize>,
    /// The shape of each type. The parts of a shape are numbers of the table.
    pub nodes: List<ShapeOf<usize>>,
    /// The class of each type: two types have the same class if and only if they are equal.
    pub classes: List<usize>,
    /// The names in the declaration or variant of each type.
    pub names: List<Names>,
}
