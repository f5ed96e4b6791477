//! Implements `build`: parses each line of the input as a literal at a declared type, and writes
//! the canonical bytes of the literal's value. If a line is no literal of the type, or the line's
//! value lacks the type, the run ends. The law `declared_texts_are_read_once` proves that a line
//! has only one meaning.

mod build_state;
mod checked_guess;
mod given_lines;
pub mod laws;
mod line_fault;
mod literal_line;

pub use build_state::BuildState;
