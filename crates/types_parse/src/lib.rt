//! Parses types and files of declarations from lexemes, and owns their grammar.
//!
//! - `grammar`: The syntax trees, the lexemes that each encodes (`texpr`, `file_kinds`), the depth
//!   at each lexeme, and the table-driven parser that reads one lexeme at a time.
//! - `parse`: Builds the `Decl` and `Ty` of `types_spec` from lexemes (`parse_file`, `parse_type`).
//!
//! Promises: `parse_file` and `parse_type` return the declarations or the type that the lexemes
//! encode. If there is a syntax error or a too deep type, they return the index of its lexeme
//! (`Fault`). `one_tree`: lexemes encode at most one type, and at most one file. `text_or_syntax`
//! and `no_syntax_in_texts`: lexemes are a text of the grammar, or have exactly one position of a
//! syntax error, and never both. `one_reading`: lexemes are a text, a syntax error or too deep:
//! exactly one of the three, in one way. `syntax_comes_first`: no lexeme at or after the syntax
//! error is too deep.
//!
//! Leaves out: lexical errors (`types_lex`), the rules of scope (`types_resolve`,
//! `types_wellformed`), and the meaning of names (`types_spec`). The grammar is a part of OCaml's.
//! The crate does not format errors; `types_wellformed` does.
#![tactic(auto)]

pub mod grammar;
pub mod parse;
