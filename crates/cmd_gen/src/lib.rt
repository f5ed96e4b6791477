//! The command `gen`: generates a value from a number, checks the value, and prints one line about
//! the value.
//!
//! - `generator`: The value of a number and a count of items (`generate`), the declarations of the
//!   value's type (`declarations`), and the value's line (`generated_line`).
//! - `spec`: The specification of the command (`gen_spec`), which reads no file and no input.
//! - `command`: The implementation of the command over declared types (`run_gen_spec`).
//!
//! Promises: `generate` returns exactly the value that the definition `generated` gives for the
//! number. `generated_line` returns the line of a value: the number and sum of its canonical bytes,
//! its objects, their 64-bit words, and its verdict. `run_gen_spec` has an account of the call by
//! the specification, and leaves input and files unchanged. `gen_spec_is_lawful`: The command is
//! lawful over each lawful language. `causes_of_gen_spec`: Each call has exactly the status of its
//! arguments and TYPE, unless memory runs out or a write fails. `worked_values_are_generated`: Some
//! numbers generate the expected values and lines.
//!
//! Leaves out: writing the bytes of the value (the line only counts and sums the bytes), the check
//! itself (`check_heap`), and reading TYPE (`run_types`). No contract promises that the values are
//! random.
#![tactic(auto)]

pub mod command;
pub mod generator;
pub mod spec;
