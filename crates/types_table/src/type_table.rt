//! Tables of the types that a type reaches. For each number a table has a shape whose parts are
//! numbers of the table, a class of equal types, names, and the type's text. `TypeTable` guarantees
//! `IsCheckable`: values can be checked against it. `types_build::builder` makes tables from
//! declarations.

pub mod laws;
mod table_invariant;
mod tabled;
mod type_printer;
mod waiting;

pub use table_invariant::TypeTable;
pub use tabled::Tabled;
