//! Parses literals: texts of values, read at a type into a heap.
//!
//! - `literal_grammar`: The syntax of literals, and the nodes of a literal in one array
//!   (`LiteralNode`), parsed from lexemes (`read_literal_tree`) or from a text
//!   (`read_placed_tree`). The result of `read_placed_tree` keeps only the positions of the text's
//!   lexemes.
//! - `parser`: What a literal is at a type: a value with its objects, or its first fault
//!   (`read_literal`, `read_placed`, `LiteralFault`). The parser does not recurse along the
//!   literal.
//! - `table_agreement`: A literal means the same at an index of a table and at the type with this
//!   index.
//!
//! The crate promises:
//! - `read_literal` appends the objects of the value that the lexemes denote at the type, and
//!   returns the value. If the lexemes denote no value, `read_literal` returns the first fault of
//!   the lexemes.
//! - `one_literal_answer`: At a type and over a heap, lexemes denote a value or have a fault, in
//!   exactly one way.
//! - `one_literal`: Lexemes are the lexemes of at most one literal.
//! - `literal_or_syntax`: Lexemes are a literal or have exactly one position of a syntax error,
//!   never both.
//! - `tables_read_agree`: The result at an index of a table is the result at the type with this
//!   index.
//! - `worked_literals_fit`: The worked examples have the expected values or refusals.
//!
//! The crate leaves out lexemes (`types_lex`), decimals for doubles (`text_decimal`), the theorem
//! that printed values are read back (`text_roundtrip`), and the check of the value against its
//! type (`check_heap`).
#![tactic(auto)]

pub mod literal_grammar;
pub mod parser;
pub mod table_agreement;
