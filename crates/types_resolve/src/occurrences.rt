//! Finds the occurrences in the text of a type or of declarations: names, variables and brackets,
//! each with the index of its lexeme. The functions need only the lexemes and the parsed type or
//! declarations. The functions count the marks, which are the lexemes of names, tags, variables and
//! included types. The laws `TypesAreCounted` and `FilesAreCounted` state that counting gives the
//! occurrences of the grammar's tree. The result has the form that the scope rules read.

mod bodies;
mod fact;
mod file_occurrences;
mod found_occurrences;
mod items;
pub mod laws;
mod mark;
mod marked;
mod own;
mod row;
mod text_occurrences;
mod type_occurrences;
mod walk;

pub use file_occurrences::{FileSites, file_sites};
pub use marked::marks;
pub use text_occurrences::{file_text_sites, type_text_site};
pub use type_occurrences::{TypeFound, type_site};
