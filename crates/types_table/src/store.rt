//! A hash-consing store of types: `TypeStore` keeps each type once and identifies it by a number. A
//! type is a small node whose parts are the numbers of earlier types. Contracts see a store as the
//! list of its types. The calls that add a type return its number and keep all earlier numbers
//! (`Holds`).

mod instance;
mod name_set;
mod stored_node;
mod tree;
mod type_store;

pub use name_set::NameSet;
pub use stored_node::TypeNode;
pub use type_store::TypeStore;
