//! Parses OCaml type declarations and type expressions, and checks the scope rules. `read_decls`
//! returns well-formed declarations or the first fault, and `read_type` returns a sound type over
//! declarations or the first fault. The law `one_answer` states that the result for a text is
//! unique. `fault_text` prints faults.

mod accept;
mod declaration_fault;
mod declaration_fault_text;
pub mod laws;
mod named_declarations;
mod text_head_rules;
mod text_name_rules;
pub mod well_formed_laws;

pub use accept::{read_decls, read_type};
pub use declaration_fault::DeclFault;
pub use declaration_fault_text::{fault_text, lexer_text, syntax_text};
pub use named_declarations::{Named, NamedType, read_names, read_type_names};
