//! The command `build`, which reads each line of the input as a value and writes the value's
//! canonical bytes.
//!
//! - `spec`: The specification of the command (`building`), over any language and any reading of
//!   lines.
//! - `command`: The implementation at declared types (`Texts`), and what a line is at a type
//!   (`declared_texts`).
//! - `guess`: A fast guess at the value of a text that `show` printed (`guess`), and the check
//!   whether the guessed value has the text (`has_text`).
//!
//! Promises: `building_is_lawful`: if the language is lawful and lines are read in one way, the
//! command is lawful. `declared_texts_are_read_once`: at declared types each line is read in one
//! way. `texts_have_exit_statuses`: the tables of what each status means are exact for the command.
//! `causes_of_texts`: each status of a call has its cause, and the statuses 4 and 11 never occur.
//! `building_stands_disjoint`: no request asks for both `build` and a command on values.
//! `encoded_are_readable`: if `is_encoded` returns true, the names of the table's types are read
//! back.
//!
//! Leaves out: reading a line (`text_roundtrip`), decimals (`text_decimal`), the writer
//! (`marshal_write`), and reading back what `show` printed (`thm_roundtrip`). `guess` promises only
//! a value of the heap.
#![tactic(auto)]

pub mod command;
pub mod guess;
pub mod spec;
