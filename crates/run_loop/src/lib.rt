//! Runs any command over its input: one loop that reads chunks, feeds items and writes the output.
//!
//! - `work`: The trait of a command as a value (`Work`), the loop (`run_work`), and the call that
//!   reports how the run ends (`run_reported`).
//! - `examples`: Three small commands that implement `Work`: one without input, one for lines, one
//!   for bytes.
//!
//! The loop depends on no types, texts or edits. The loop requests at most `CHUNK` bytes of the
//! input at a time. The output of items that end in a chunk is collected before the output is
//! written.
//!
//! Promises:
//!
//! - `run_reported` returns with an account of the call by the definitions of `run_spec`
//!   (`HasAccount`): the bytes that were read determine what was written. If the command does not
//!   read, the input is unchanged.
//! - `run_work` satisfies `Runs`, and returns whether all outputs were without errors, or the exit
//!   reason.
//! - `environment_is_known`: a lawful command returns a status from 6 to 10 only if the environment
//!   caused the status.
//! - `small_commands_report_environment`: the examples are lawful.
//!
//! Leaves out: what a command does with an item (`session`, and the command crates), the
//! specification (`run_spec`), and the options that skip or select (`opt_skip_only`).
#![tactic(auto)]

pub mod examples;
pub mod work;
