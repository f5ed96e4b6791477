//! Reads a literal, the text of a value, at a type of a table. The result is the value with the new
//! objects of the value, or the first fault. The law `one_literal_answer` says that each text has
//! exactly one answer. The law `worked_literals_fit` covers worked examples.

mod block_stack;
mod doubles;
mod fields;
mod laws;
mod leaf;
mod literal_fault;
mod literal_parts;
mod literal_text;
mod name_lists;
mod named;
mod opening;
mod part;
mod siblings;
mod start;
mod value_parser;

pub use laws::{one_literal_answer, worked_literals_fit};
pub use literal_fault::LiteralFault;
pub use value_parser::{read_literal, read_placed};
