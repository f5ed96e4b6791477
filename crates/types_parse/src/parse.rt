//! The parser for OCaml types and declarations, which reads lexemes and builds types (`parse_type`)
//! or declarations (`parse_file`). The results are proved to agree with the grammar of `grammar`.
//! If parsing succeeds, the lexemes have exactly the returned tree (`IsTypeOf`,
//! `AreDeclarationsOf`). If parsing fails, the fault is the first error (`IsFault`), unless memory
//! ran out. The lexer is in `types_lex`.

mod declarations_so_far;
mod file_end;
mod file_parser;
mod file_step;
mod in_file;
mod lexeme_number;
mod open;
mod open_depth;
mod parse_stack;
mod refused;
mod type_parser;
mod type_step;

pub use file_parser::parse_file;
pub use lexeme_number::number_of;
pub use refused::{ParseFault, byte_of};
pub use type_parser::parse_type;
