//! The command `gen`: generates a value from a number over the built-in item declarations, checks
//! the value at its type, and writes a line about the value. The command fetches no file and reads
//! no input. The contract of `run_gen_spec` states that the run satisfies `Account`.

mod item_types;
mod making;
mod output_line;
mod run_gen;
mod verdict_line;

pub use run_gen::run_gen_spec;
