//! Builds the table of the types that a type reaches, from its declarations.
//!
//! - `representation`: The heads, shapes and names of declared types, over numbers of a store
//!   (`head_of`, `representation_of`) and over written types (`shape`, `expand`).
//! - `builder`: The table of reached types (`build`).
//!
//! Types get their numbers in the order of discovery. The requested type has the number 0. For each
//! type in turn, the types in its shape and the parts of its head follow.
//!
//! Promises:
//!
//! - `build`: Returns the table of the types that a sound type reaches over well-formed
//!   declarations (`IsTypeTable`). Returns `TooManyTypes` only if the type reaches more than 65,536
//!   types.
//! - `head_of`: Returns the head of a type after all abbreviations at the head are expanded. The
//!   tags of included types are part of the head.
//! - `representation_of`: Returns the head and the shape of a type.
//! - `shape`: Computes the shape that `types_spec` defines.
//! - `flat_float`: Returns true if a declaration is a record of unboxed floats.
//!
//! The functions only append to the store.
//!
//! Leaves out: the store and the table's data type (`types_table`), the definition of heads and
//! shapes (`types_spec`), and the rules of scope, which the callers must have checked
//! (`types_wellformed`). The crate promises neither the order of its work, nor time, nor memory.
#![tactic(auto)]

pub mod builder;
pub mod representation;
