//! Prints a value as OCaml source text at a type, or its graph without a type.
//!
//! - `leaves`: The texts of atoms (integers, characters, strings, doubles), and what is printed
//!   before, between and after the parts of a block (`Frame`).
//! - `show`: The definition of the text of a value at a type and of a graph, and theorems about
//!   it.
//! - `same_type`: Isomorphic values have the same types, least fault, line and text.
//! - `print`: The printer (`show`, `write_shown_at`, `dump`), and the comparison with a given text
//!   (`is_shown`).
//!
//! Promises: `print::show` writes the text of a value that has the type; after a write error a
//! proper prefix was written, and if memory runs out nothing. `dump` does so for the lines of a
//! graph. `tables_show_agree`: a value has one text at a number of a table and at the type of this
//! number. `no_name_is_missing`: if a value matches a type, every name that its text needs exists.
//! `more_is_the_same`: a bound on nesting above one more than the number of objects does not
//! change the text, so no text is truncated. `the_same_has_the_same_text` and
//! `the_same_has_the_same_fault`: isomorphic values have one text and one least fault.
//!
//! Leaves out: line breaks (`text_pretty`), doubles as decimals (`text_decimal`), reading texts
//! (`text_literal`, `text_roundtrip`), and the text of a fault (`check_fault`). If an object has a
//! label, `is_shown` returns false, whatever the text.
#![tactic(auto)]

pub mod leaves;
pub mod print;
pub mod same_type;
pub mod show;
