//! Defines types of OCaml values: declarations, type expressions, representations, type equality,
//! typings, paths, faults and the texts of types and faults (after Henry and others, 2012). Also
//! defines the rules of scope for declarations, and tables of types by number. The module has data
//! types and definitions. Its only functions are the constructor and the accessor of `Ty`, and the
//! functions that read the table of predeclared types.

pub mod decl;
pub mod fault;
pub mod head;
pub mod names;
pub mod predeclared;
pub mod shape;
pub mod ty;
