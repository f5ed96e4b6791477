//! Builds the table of the types that a type reaches: their shapes, heads, names and equivalence
//! classes. `build` promises that the table represents exactly the reached types (`IsTypeTable`),
//! or that the type reaches more than 65,536 types.

mod discovered_types;
mod listing;
mod placed_heads;
mod placed_shapes;
mod reached_types;
mod type_entry;
mod type_fault;

pub use reached_types::build;
pub use type_fault::TypeFault;
