//! The grammar of OCaml types and declarations, and a parsing table that reads it one lexeme at a
//! time. `laws` proves that the grammar is unambiguous (`one_tree`) and that every list of lexemes
//! has exactly one reading (`one_reading`). The parser itself is in `parse`.

pub mod laws;
