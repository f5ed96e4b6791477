//! Reads a line of text as a value of a type, and proves that printed values are read back.
//!
//! - `lexed`: The texts of strings, characters, doubles and integers are single lexemes.
//! - `literal_texts`: The text of a value at a type is a literal that begins like the value.
//! - `readback`: Reading the text of a value returns the value.
//! - `text_lines`: What a line is at a type: blank, a value, or its fault (`read_text`,
//!   `TextFault`).
//! - `rebuild`: Texts of values are read back for every type that a text declares, without
//!   assumptions on names.
//!
//! Promises: `read_text` reads a line at the table's first type. `read_text` replaces the objects
//! of the heap by those of the value, returns that the line is blank, or returns the line's fault
//! and leaves the heap empty. `one_text_answer`: a line is blank, a value or has a fault, in
//! exactly one way. `texts_are_read_again`: the text of a tree's value is read as the value, if the
//! names of the table's types are read back. `names_are_read_back`: the names of all types that
//! come from texts are read back. `values_are_rebuilt`: for a type that comes from a text, the text
//! of any value is read as an isomorphic value, with equal type, text and canonical bytes.
//!
//! Leaves out: the printer (`text_print`), the parser of literals (`text_literal`), decimals
//! (`text_decimal`), the command (`cmd_build`) and two runs in sequence (`thm_roundtrip`).
#![tactic(auto)]

pub mod lexed;
pub mod literal_texts;
pub mod readback;
pub mod rebuild;
pub mod text_lines;
